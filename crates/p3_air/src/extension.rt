//! Constraints in the making that also speak of an extension: permutation columns, challenges, exposed values.

pub mod claims;
pub mod constraints;
pub mod expr;
mod operators;
pub mod shared;

//! The leaves of expressions.

pub mod base_leaf;
pub mod base_part;
pub mod ext_leaf;
pub mod sym_leaf;

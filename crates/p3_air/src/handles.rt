//! What an author claims with: constraints in the making, and groups, under conditions and labels.

pub mod claiming;
pub mod claims;
pub mod constraints;
pub mod finishing;

//! The layouts of a builder's entries and of its recorded constraints.

pub mod air_layout;
pub mod constraint_layout;
mod spellings;

//! Columns of a preprocessed and a main trace, and weighted sums of them.

pub mod pair_col;
pub mod virtual_pair_col;

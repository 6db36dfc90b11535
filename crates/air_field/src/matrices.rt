//! Matrices, stored row by row, and views of them.

pub mod matrix;
pub mod view;

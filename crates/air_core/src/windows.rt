//! Windows: a row and the one after it.

pub mod access;
mod matrix_window;
pub mod row_window;
pub mod two_rows;

//! The input: public values, and a trace row after row.

mod number;
mod parser;
mod pieces;

pub use parser::{Input, parse};

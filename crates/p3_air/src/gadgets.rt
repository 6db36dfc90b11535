//! Bits and words: what the calls of p3_air's `utils` assert, of expressions.

pub mod bits;
pub mod words;

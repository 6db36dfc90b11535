//! Traces that are read row after row: what an empty report says of each row and the next one, chains of a function over
//! the rows, the first row that a column marks, and public values as words.
//!
//! Calls fail only with `Memory` unless they say otherwise.
#![tactic(auto)]

pub mod laws;
pub mod words;

pub use laws::empty_reports_hold;
pub use words::push_words;

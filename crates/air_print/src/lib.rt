//! Expressions as text, in infix notation with a name for each shared part; and their values at a row of a trace, with
//! the values of the columns that they read.
//!
//! Calls fail only with `AllocError`, when out of memory.
#![tactic(auto)]

mod binding;
mod cells;
mod counts;
mod equations;
mod explained;
mod infix;
mod labels;
mod leaves;
mod lines;
mod names;
mod naming;
mod pieces;
mod reading;
mod rows;
mod values;

pub use cells::push_cell;
pub use explained::{push_explained, push_reached_definitions};
pub use infix::{push_definition, push_infix};
pub use labels::shown_label;
pub use leaves::{push_constant, push_variable};
pub use lines::{push_definitions, show};
pub use names::Names;
pub use reading::reads;
pub use rows::TraceRows;
pub use values::values_at;

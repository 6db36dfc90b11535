//! Why a JSON object is refused: which of its members, and what is wrong there.
#![tactic(auto)]

mod errors;
mod forms;
pub mod laws;
mod members;
mod nodes;
mod object;
mod values;

pub use errors::error_text;
pub use object::{input_reason, labelled_reason};

//! The program: its words, its input and its answers.
#![tactic(auto)]

mod answer;
mod by_field;
mod commands;
mod explain;
mod flat;
mod input;
pub mod laws;
pub mod program;
mod reasons;
pub mod refusals;
mod show;
mod texts;

pub use air_object::{FieldName, FlatInput, field_of, flat_input_from};
pub use air_streams::{ReadSource, Sink, Source, StreamFault, WriteSink};
pub use example_fibonacci::Fibonacci;
pub use program::{refuse, run};
pub use refusals::Refusal;

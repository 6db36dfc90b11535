//! Tests as tables of text: each line makes a call and gives the expected answer. This crate holds what every program
//! of tables needs; a program defines the calls of a layer by a [`Bench`] and its [`Tables`].
#![tactic(auto)]

pub mod bench;
pub mod faults;
pub mod lines;
pub mod names;
pub mod report;
pub mod tables;
pub mod words;

pub use bench::{Bench, Tables};
pub use faults::{Fault, Why};
pub use lines::Line;
pub use names::Names;
pub use report::Report;
pub use tables::{Table, check_lines, run};

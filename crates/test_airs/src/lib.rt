//! Shared parts of the tables of builders, checks and recordings. [`assert_all`] makes assertions over constants on any
//! builder, by the words of their calls. [`TableAir`] is the type of all AIRs of the tables, and [`Airs`] holds those
//! that the lines of a table have made.
#![tactic(auto)]

pub mod air;
pub mod airs;
mod assertions;
mod constants;
mod differing;
mod filters;
mod handed;
mod labels;
pub mod lists;
pub mod parts;
pub mod pool;
pub mod words;

pub use air::{ListAir, TableAir};
pub use airs::Airs;
pub use filters::assert_all;
pub use labels::Label;
pub use lists::{BaseList, Constraints, LabelledList, PermutationList};

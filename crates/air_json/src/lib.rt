//! JSON values for entries, variables, boundary values and expressions.
//!
//! Calls fail only with `Memory` unless they say otherwise.
#![tactic(auto)]

mod base_leaf;
mod boundary;
mod cases;
mod entries;
mod errors;
mod ext_entries;
mod ext_leaf;
pub mod laws;
mod lists;
mod nodes;
mod operations;
pub mod parts;
mod plain;
mod spelled;
pub mod whole_lists;
mod wire_leaf;
mod written_lists;
mod written_nodes;

pub use base_leaf::element_from;
pub use errors::FlatError;
pub use ext_leaf::elements_value;
pub use lists::{ListReader, from_flat_value};
pub use parts::{whole_at, whole_number};
pub use plain::Plain;
pub use spelled::Spelled;
pub use wire_leaf::WireLeaf;
pub use written_lists::{to_flat_value, to_flat_values};

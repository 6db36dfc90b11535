//! An AIR and its trace, written as the JSON object that the program and the Rust bridge read.
#![tactic(auto)]

mod errors;
mod export;
mod field_names;
mod flat;
pub mod laws;
mod parts;
mod printing;

pub use errors::ExportError;
pub use export::{export_air, export_air_alone};
pub use field_names::field_with_order;
pub use flat::export_flat_air;
pub use printing::print_object;

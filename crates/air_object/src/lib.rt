//! An AIR and its trace as a JSON object: reading its members and its field, the first fault if it is malformed, and writing it.
#![tactic(auto)]

mod cells;
mod constraints;
mod elements;
mod field_name;
mod input;
mod labelled;
mod labels;
pub mod laws;
mod members;
mod number;
mod parts;
mod text;
mod writing;

pub use constraints::{BaseId, BasePool, Constraints, Roots};
pub use elements::Elements;
pub use field_name::{FieldName, field_of};
pub use input::{FlatInput, Trial, flat_input_from, input_from};
pub use labelled::{Labelled, labelled_from};
pub use parts::{Parts, parts_of};
pub use text::TextFault;
pub use writing::{ObjectParts, object_value};

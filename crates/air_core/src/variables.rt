//! Variables: indexes into the entries of a builder, and their weights in a degree.

pub mod entry;
pub mod ext_entry;
pub mod variable;
pub mod variable_ext;

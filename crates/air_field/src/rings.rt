//! Rings whose elements are made by calls, and the rings of the values of a field or an extension.

pub mod algebra;
pub mod ext_algebra;
pub mod ext_field_ring;
pub mod field_ring;

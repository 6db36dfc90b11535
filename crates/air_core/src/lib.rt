//! What AIRs, builders and pools share: the entries of a builder and the variables that index into them, windows on
//! rows, selectors, periodic columns, boundary values, names of constraints, and errors.
#![tactic(auto)]

pub mod boundary;
pub mod errors;
pub mod names;
pub mod periodic;
pub mod selectors;
pub mod variables;
pub mod windows;

pub use boundary::{BoundaryEnd, BoundaryIoError, BoundaryPublic};
pub use errors::AirError;
pub use names::element::Element;
pub use names::joined::{EvaluatedJoined, Joined};
pub use names::name::{Lazy, Name};
pub use names::namespace::{Namespace, NamespaceExt};
pub use periodic::{fill_periodic_row, periodic_matrix, periodic_row};
pub use selectors::Selectors;
pub use variables::entry::BaseEntry;
pub use variables::ext_entry::ExtEntry;
pub use variables::variable::SymbolicVariable;
pub use variables::variable_ext::SymbolicVariableExt;
pub use windows::access::WindowAccess;
pub use windows::row_window::RowWindow;
pub use windows::two_rows::TwoRows;

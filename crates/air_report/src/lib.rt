//! The check of a trace and its report: the debug builder, which evaluates an AIR on one concrete row, and the checks
//! that run it on every row and compare the boundary values.
//!
//! Calls fail only with `Memory` unless they say otherwise.
#![tactic(auto)]

pub mod checks;
pub mod debug;

pub use checks::check::check_all_constraints;
pub use checks::check_first::{CheckError, check_constraints};
pub use checks::permutation::Permutation;
pub use checks::permuted::check_all_constraints_with_permutation;
pub use checks::report::ConstraintReport;
pub use debug::builder::DebugConstraintBuilder;
pub use debug::failure::ConstraintFailure;

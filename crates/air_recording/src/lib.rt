//! The recording of an AIR as symbolic expressions: the symbolic builder, the lists of its recorded constraints, the
//! layouts of entries and of constraints, and the degree inferred from a recording.
//!
//! Calls fail only with `Memory` unless they say otherwise.
#![tactic(auto)]

pub mod layouts;
pub mod symbolic;

pub use layouts::air_layout::AirLayout;
pub use layouts::constraint_layout::ConstraintLayout;
pub use symbolic::builder::SymbolicAirBuilder;
pub use symbolic::degree::{
    constraint_degree_from_poly_degree, get_max_constraint_degree,
    get_max_constraint_degree_extension,
};
pub use symbolic::record::{
    Recorded, get_all_symbolic_constraints, get_constraint_layout, get_symbolic_constraints,
    get_symbolic_constraints_extension,
};

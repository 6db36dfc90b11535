//! Symbolic expressions: leaves and variables, pools, which hold each tree once, the builder that records an AIR in a
//! pool, the degree of a recording, and the AIR made of such expressions; and leaves, variables, expressions and
//! layouts as JSON values.

pub use crate::flat::flat_air::FlatAir;
pub use crate::flat::resolving::{resolve, resolve_all};
pub use air_core::{BaseEntry, ExtEntry, SymbolicVariable, SymbolicVariableExt};
pub use air_json::{FlatError, Spelled, WireLeaf, from_flat_value, to_flat_value};
pub use air_recording::{
    AirLayout, ConstraintLayout, Recorded, SymbolicAirBuilder, constraint_degree_from_poly_degree,
    get_all_symbolic_constraints, get_constraint_layout, get_max_constraint_degree,
    get_max_constraint_degree_extension, get_symbolic_constraints,
    get_symbolic_constraints_extension,
};
pub use air_symbolic::{
    BaseLeaf, Degrees, ExprId, ExprPool, ExtLeaf, LeafWeight, SymLeaf, SymbolicExpr,
    SymbolicExpression, SymbolicExpressionExt,
};

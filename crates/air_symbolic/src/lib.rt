//! Expressions over symbolic variables, stored in pools without duplicates: a pool holds each tree only once.
//!
//! Calls fail only with `Memory` unless they say otherwise.
#![tactic(auto)]

pub mod laws;
pub mod leaves;
pub mod pools;

pub use air_core::{BaseEntry, ExtEntry, SymbolicVariable, SymbolicVariableExt};
pub use leaves::base_leaf::BaseLeaf;
pub use leaves::ext_leaf::ExtLeaf;
pub use leaves::sym_leaf::SymLeaf;
pub use pools::degree_table::checked_degree;
pub use pools::expr::{ExprId, Operands, SymbolicExpr};
pub use pools::pool::ExprPool;
pub use pools::reach::reached_nodes;
pub use pools::weight::{DegreeTable, Degrees, LeafWeight};

/// A node of an expression of base leaves.
pub type SymbolicExpression<F> = SymbolicExpr<BaseLeaf<F>>;

/// A node of an expression of extension leaves.
pub type SymbolicExpressionExt<F, EF> = SymbolicExpr<ExtLeaf<F, EF>>;

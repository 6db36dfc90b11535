//! Roots of both kinds.

use air_symbolic::{BaseLeaf, ExprId, ExtLeaf};

/// An expression that is zero on every row: one of the base pool, or one over the extension.
#[derive(Clone, Copy, Debug, PartialEq, Eq)]
pub enum Root<F, EF> {
    Base(ExprId<BaseLeaf<F>>),
    Extension(ExprId<ExtLeaf<F, EF>>),
}

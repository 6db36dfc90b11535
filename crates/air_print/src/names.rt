//! Names for the expressions that are used at least twice.
ghost use Rattle.std.specs.Prelude.{◌≡◌, slice_index_or, None};

use air_symbolic::{ExprId, SymLeaf};
use std::marker::Model;

/// The expressions that have a name, in order, and the name of each expression.
#[derive(Drop)]
pub struct Names<A: SymLeaf> {
    pub(crate) named: Vec<ExprId<A>>,
    pub(crate) names: Vec<Option<usize>>,
}

impl<A: SymLeaf> Model for Names<A> {
    ghost use Rattle.std.specs.Prelude.{ℕ, List, Option};

    ghost Value = { List ℕ × List (Option ℕ) };

    ghost view = { λ n. (n.named.items, n.names.items) };
}

impl<A: SymLeaf> Names<A> {
    /// The name of an expression, if it has one.
    pub fn name(&self, id: ExprId<A>) -> Option<usize>
        ensures { result ≡ slice_index_or self.now.1 id None }
    {
        match self.names.get(id.number()) {
            Some(name) => *name,
            None => None,
        }
    }

    /// The expressions that have a name, in order.
    pub fn named_expressions(&self) -> &[ExprId<A>]
        ensures { result.now ≡ self.now.0 }
    {
        &self.named
    }
}

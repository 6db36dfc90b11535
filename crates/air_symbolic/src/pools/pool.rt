//! A pool of nodes, and the calls that read it.
ghost use Rattle.std.specs.Prelude.{◌≡◌, ◌<◌, ◌↔◌, [], IsTrue};
ghost use Rattle.air_field.specs.Degree.{degree_by, cached_weight};
ghost use Rattle.air_symbolic.specs.Nodes.{IsNode};
ghost use Rattle.air_symbolic.specs.Pools.{IsPool, FitsBase, term_at, constant_at, size};

use crate::leaves::sym_leaf::SymLeaf;
use crate::pools::expr::{ExprId, SymbolicExpr};
use crate::pools::node_table::NodeTable;
use std::alloc::Global;
use std::marker::Model;

/// Expressions, each tree only once, over the base that their leaves refer to.
#[derive(Drop)]
pub struct ExprPool<A: SymLeaf> {
    pub(crate) nodes: NodeTable<A>,
    pub(crate) base: A::Base,
}

impl<A: SymLeaf> Model for ExprPool<A> {
    ghost use Rattle.air_symbolic.specs.Pools.{Pool, IsNodeList};

    ghost Value = { Pool A.Base A };

    ghost view = { λ p. record { base = p.base; nodes = p.nodes } };

    // Each node's operands are older than the node, its degree is right, and no node occurs twice.
    ghost invariant = { λ p. IsNodeList A.reads p.nodes };
}

impl<A: SymLeaf> ExprPool<A> {
    /// An empty pool.
    pub fn new(alloc: Global) -> Self
        ensures empty { result ≡ record { base = A.empty_base; nodes = [] } }
        ensures pool { IsPool A.reads result }
    {
        ExprPool {
            nodes: NodeTable::new(alloc),
            base: A::new_base(alloc),
        }
    }

    /// No effect at run time. Turns "the nodes fit some base" (the type's invariant) and `FitsBase` (the caller's
    /// promise) into `IsPool`.
    #[inline(always)]
    pub fn nodes_fit(&self)
        requires { FitsBase A.reads self.now }
        ensures { IsPool A.reads self.now }
    {
        let _ = &self.nodes;
    }

    /// The number of nodes.
    pub fn len(&self) -> usize
        ensures { result ≡ size self.now }
    {
        self.nodes.len()
    }

    /// Whether `id` is a number of this pool.
    pub fn contains(&self, id: ExprId<A>) -> bool
        ensures { IsTrue result ↔ (id < size self.now) }
    {
        id.number() < self.nodes.len()
    }

    /// The node with this number.
    pub fn node(&self, id: ExprId<A>) -> &SymbolicExpr<A>
        requires owed { FitsBase A.reads self.now }
        requires here { id < size self.now }
        ensures { IsNode (A.reads self.now.base) self.now.nodes id result.now }
    {
        self.nodes.get(id.number())
    }

    /// The degree by the cached weights; the node states it.
    pub fn degree_multiple(&self, id: ExprId<A>) -> usize
        requires owed { FitsBase A.reads self.now }
        requires here { id < size self.now }
        ensures { result ≡ degree_by cached_weight (term_at A.reads self.now id) }
    {
        match self.node(id) {
            SymbolicExpr::Leaf(a) => a.degree_multiple(&self.base),
            SymbolicExpr::Add {
                degree_multiple,
                ..
            } => *degree_multiple,
            SymbolicExpr::Sub {
                degree_multiple,
                ..
            } => *degree_multiple,
            SymbolicExpr::Neg {
                degree_multiple,
                ..
            } => *degree_multiple,
            SymbolicExpr::Mul {
                degree_multiple,
                ..
            } => *degree_multiple,
        }
    }

    /// The constant that the expression equals, which the simplified operations use; only a leaf can be one.
    pub fn as_const(&self, id: ExprId<A>) -> Option<A::F>
        requires owed { FitsBase A.reads self.now }
        requires here { id < size self.now }
        ensures { result ≡ constant_at A.reads self.now id }
    {
        match self.node(id) {
            SymbolicExpr::Leaf(a) => a.as_const(&self.base),
            _ => None,
        }
    }
}

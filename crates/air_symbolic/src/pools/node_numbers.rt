//! The numbers of nodes of all kinds, in tables that are made for the first node.
ghost use Rattle.std.specs.Prelude.{◌≡◌, ◌<◌, ◌++◌, [], ◌∷◌, List, length, MatchOption, OnOk, OnErr};
ghost use Rattle.std.specs.declared.cmp.Ordering.TheVariants.{Equal};
ghost use Rattle.air_symbolic.specs.Numbering.{IsNowhere, IsAt, FindEach};
ghost use Rattle.air_symbolic.specs.declared.pools.expr.SymbolicExpr.{SymbolicExpr};

use crate::pools::expr::SymbolicExpr;
use crate::pools::kind_tables::KindTables;
use std::alloc::{AllocError, Global};

/// The numbers of a list's nodes. There are no tables before the first node, so that an empty pool allocates nothing,
/// and every pool is cheap to move.
#[derive(Drop)]
pub struct NodeNumbers<A: Copy + Ord> {
    pub(crate) tables: Vec<KindTables<A>>,
}

impl<A: Copy + Ord> NodeNumbers<A> {
    /// The numbers of the empty list. Allocates nothing.
    pub fn new(alloc: Global) -> Self
        ensures { FindEach A.cmp result.tables.items [] }
    {
        NodeNumbers {
            tables: Vec::new(alloc),
        }
    }

    /// The number of an equal node, whatever degree it states.
    pub fn find(&self, node: &SymbolicExpr<A>) -> Option<usize>
        ensures { (nodes : List (SymbolicExpr A))
            → FindEach A.cmp self.now.tables.items nodes
            → MatchOption result (IsNowhere nodes node.now) (IsAt nodes node.now) }
    {
        self.tables.first()?.find(node)
    }

    /// Enters the node after those already numbered; `number` is the number of these. On failure the tables find what
    /// they found before.
    pub fn enter(&mut self, node: &SymbolicExpr<A>, number: usize) -> Result<(), AllocError>
        requires exact { (a b : A) → A.cmp a b ≡ Equal → a ≡ b }
        ensures entered { OnOk result ((nodes : List (SymbolicExpr A)) → number ≡ length nodes
            → IsNowhere nodes node.now
            → FindEach A.cmp self.old.tables.items nodes
            → FindEach A.cmp self.new.tables.items
            (nodes ++ node.now ∷ [])) }
        ensures refused { OnErr result ((nodes : List (SymbolicExpr A))
            → FindEach A.cmp self.old.tables.items nodes
            → FindEach A.cmp self.new.tables.items nodes) }
    {
        self.begin()?;
        self.tables[0].enter(node, number)
    }

    /// Makes the tables if there are none yet.
    fn begin(&mut self) -> Result<(), AllocError>
        ensures kept { (nodes : List (SymbolicExpr A))
            → FindEach A.cmp self.old.tables.items nodes
            → FindEach A.cmp self.new.tables.items nodes }
        ensures begun { OnOk result (0 < length self.new.tables.items) }
    {
        if self.tables.is_empty() {
            let alloc = *self.tables.allocator();
            // (a push by itself reserves room for four)
            self.tables.reserve_exact(1)?;
            self.tables.push(KindTables::new(alloc))?;
        }
        Ok(())
    }
}

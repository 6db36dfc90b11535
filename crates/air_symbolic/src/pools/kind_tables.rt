//! The numbers of nodes of all kinds.
ghost use Rattle.std.specs.Prelude.{◌≡◌, ◌++◌, [], ◌∷◌, List, length, MatchOption, OnOk, OnErr};
ghost use Rattle.std.specs.declared.cmp.Ordering.TheVariants.{Equal};
ghost use Rattle.air_symbolic.specs.Numbering.{IsNowhere, IsAt, AreNumberedIn};
ghost use Rattle.air_symbolic.specs.declared.pools.expr.SymbolicExpr.{SymbolicExpr};

use crate::pools::expr::SymbolicExpr;
use crate::pools::kind_table::KindTable;
use std::alloc::{AllocError, Global};

/// A table of numbers for each kind of node. The keys are the leaf, or the numbers of the operands; these determine the
/// degree, so no key holds it.
#[derive(Drop)]
pub struct KindTables<A: Copy + Ord> {
    pub(crate) leaves: KindTable<A>,
    pub(crate) sums: KindTable<(usize, usize)>,
    pub(crate) differences: KindTable<(usize, usize)>,
    pub(crate) negatives: KindTable<usize>,
    pub(crate) products: KindTable<(usize, usize)>,
}

impl<A: Copy + Ord> KindTables<A> {
    /// Tables without numbers. Allocates nothing.
    pub fn new(alloc: Global) -> Self
        ensures { AreNumberedIn A.cmp result [] }
    {
        KindTables {
            leaves: KindTable::new(alloc),
            sums: KindTable::new(alloc),
            differences: KindTable::new(alloc),
            negatives: KindTable::new(alloc),
            products: KindTable::new(alloc),
        }
    }

    /// The number of an equal node, whatever degree it states.
    pub fn find(&self, node: &SymbolicExpr<A>) -> Option<usize>
        ensures { (nodes : List (SymbolicExpr A))
            → AreNumberedIn A.cmp self.now nodes
            → MatchOption result (IsNowhere nodes node.now) (IsAt nodes node.now) }
    {
        match *node {
            SymbolicExpr::Leaf(a) => self.leaves.find(a),
            SymbolicExpr::Add { x, y, .. } => self.sums.find((x.number(), y.number())),
            SymbolicExpr::Sub { x, y, .. } => self.differences.find((x.number(), y.number())),
            SymbolicExpr::Neg { x, .. } => self.negatives.find(x.number()),
            SymbolicExpr::Mul { x, y, .. } => self.products.find((x.number(), y.number())),
        }
    }

    /// Enters the node after those already numbered; `number` is the number of these. On failure the tables find what
    /// they found before.
    pub fn enter(&mut self, node: &SymbolicExpr<A>, number: usize) -> Result<(), AllocError>
        requires exact { (a b : A) → A.cmp a b ≡ Equal → a ≡ b }
        ensures entered { OnOk result ((nodes : List (SymbolicExpr A)) → number ≡ length nodes
            → IsNowhere nodes node.now
            → AreNumberedIn A.cmp self.old nodes
            → AreNumberedIn A.cmp self.new
            (nodes ++ node.now ∷ [])) }
        ensures refused { OnErr result ((nodes : List (SymbolicExpr A))
            → AreNumberedIn A.cmp self.old nodes
            → AreNumberedIn A.cmp self.new nodes) }
    {
        match *node {
            SymbolicExpr::Leaf(a) => self.leaves.enter(a, number),
            SymbolicExpr::Add { x, y, .. } => self.sums.enter((x.number(), y.number()), number),
            SymbolicExpr::Sub { x, y, .. } => self
                .differences
                .enter((x.number(), y.number()), number),
            SymbolicExpr::Neg { x, .. } => self.negatives.enter(x.number(), number),
            SymbolicExpr::Mul { x, y, .. } => {
                self.products.enter((x.number(), y.number()), number)
            }
        }
    }
}

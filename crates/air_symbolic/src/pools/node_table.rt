//! Nodes by number, and tables that find the number of a node.
ghost use Rattle.std.specs.Prelude.{◌≡◌, ◌<◌, ◌++◌, [], ◌∷◌, length, Some, MatchOption, IfOk, OnErr, IfSome, true};
ghost use Rattle.std.specs.declared.cmp.Ordering.TheVariants.{Equal};
ghost use Rattle.std.specs.List.{slice_get};
ghost use Rattle.air_symbolic.specs.Numbering.{IsNowhere, IsAt};
ghost use Rattle.air_symbolic.specs.declared.pools.expr.SymbolicExpr.{SymbolicExpr};

use crate::pools::expr::SymbolicExpr;
use crate::pools::node_numbers::NodeNumbers;
use std::alloc::{AllocError, Global};
use std::marker::Model;

// The number of entries of the cache `remembered`.
const PLACES: usize = 256;

// The number of nodes that the first one reserves room for: enough for a small AIR.
const FIRST_NODES: usize = 24;

/// Nodes by their numbers, which are given in order. Tables find a node's number, so no call walks the list.
#[derive(Drop)]
pub struct NodeTable<A: Copy + Ord> {
    nodes: Vec<SymbolicExpr<A>>,
    numbers: NodeNumbers<A>,
    // A cache: at each index a number that a node with this index may have. It is empty until the first number is
    // remembered, so that a pool is cheap to move, and its numbers have 32 bits, so that it is small.
    remembered: Vec<u32>,
}

impl<A: Copy + Ord> Model for NodeTable<A> {
    ghost use Rattle.std.specs.Prelude.{List};
    ghost use Rattle.air_symbolic.specs.Numbering.{FindEach};
    ghost use Rattle.air_symbolic.specs.declared.pools.expr.SymbolicExpr.{SymbolicExpr};

    ghost Value = { List (SymbolicExpr A) };

    ghost view = { λ t. t.nodes.items };

    ghost invariant = { λ t. FindEach A.cmp t.numbers.tables.items t.nodes.items };
}

impl<A: Copy + Ord> NodeTable<A> {
    /// A table without nodes. Allocates nothing.
    pub fn new(alloc: Global) -> Self
        ensures { result ≡ [] }
    {
        NodeTable {
            nodes: Vec::new(alloc),
            numbers: NodeNumbers::new(alloc),
            remembered: Vec::new(alloc),
        }
    }

    /// The allocator of the nodes.
    pub(crate) fn allocator(&self) -> &Global {
        self.nodes.allocator()
    }

    /// The number of nodes.
    pub fn len(&self) -> usize
        ensures { result ≡ length self.now }
    {
        self.nodes.len()
    }

    /// The node with this number.
    pub fn get(&self, number: usize) -> &SymbolicExpr<A>
        requires { number < length self.now }
        ensures { slice_get self.now number ≡ Some result.now }
    {
        &self.nodes[number]
    }

    /// The number of an equal node, whatever degree it states.
    pub fn find(&self, node: &SymbolicExpr<A>) -> Option<usize>
        ensures { MatchOption result (IsNowhere self.now node.now) (IsAt self.now node.now) }
    {
        self.numbers.find(node)
    }

    /// The number that is remembered at an index, if it is the node's.
    pub fn recall(&self, place: usize, node: &SymbolicExpr<A>) -> Option<usize>
        requires exact { (n : SymbolicExpr A)
            → ⟦<SymbolicExpr<A> as PartialEq>⟧.eq node.now n ≡ true → node.now ≡ n }
        ensures { IfSome result (λ i. slice_get self.now i ≡ Some node.now) }
    {
        let number = *self.remembered.get(place % PLACES)? as usize;
        if number < self.nodes.len() && node == self.get(number) {
            return Some(number);
        }
        None
    }

    /// Remembers a number below 2^32 at an index. No node changes.
    pub fn remember(&mut self, place: usize, number: usize)
        ensures { self.new ≡ self.old }
    {
        let Ok(number) = u32::try_from(number) else {
            return;
        };
        if self.remembered.is_empty() {
            // Without memory for the cache, nodes are found by search.
            let Ok(places) = vec![in *self.nodes.allocator(); 0u32; PLACES] else {
                return;
            };
            self.remembered = places;
        }
        if let Some(at) = self.remembered.get_mut(place % PLACES) {
            *at = number;
        }
    }

    /// Adds a node and answers its number. On failure the table is unchanged.
    pub fn push(&mut self, node: SymbolicExpr<A>) -> Result<usize, AllocError>
        requires exact { (a b : A) → A.cmp a b ≡ Equal → a ≡ b }
        requires absent { IsNowhere self.old node }
        ensures numbered { IfOk result (λ i. i ≡ length self.old) }
        ensures pushed { IfOk result (λ _. self.new ≡ self.old ++ node ∷ []) }
        ensures refused { OnErr result (self.new ≡ self.old) }
    {
        let number = self.nodes.len();
        let room = if number == 0 { FIRST_NODES } else { 1 };
        self.nodes.reserve(room)?;
        self.numbers.enter(&node, number)?;
        self.nodes.push_reserved(node);
        Ok(number)
    }
}

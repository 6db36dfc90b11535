//! The degrees of a pool's nodes by number, each computed once.
ghost use Rattle.std.specs.Prelude.{◌≡◌, ℕ, ◌<◌, ◌≤◌, ◌+◌, ◌^◌, length, slice_index_or, OnOk, IfOk, IfErr};
ghost use Rattle.air_field.specs.Degree.{degree_by};
ghost use Rattle.air_symbolic.specs.Weights.{leaf_weight};
ghost use Rattle.air_symbolic.specs.Nodes.{OperandsBelow, IsValidNode, node_degree};
ghost use Rattle.air_symbolic.specs.Pools.{FitsBase, term_at, size};
ghost use Rattle.air_symbolic.specs.PoolRefusals.{IsChecked};
ghost use Rattle.air_symbolic.specs.DegreeTables.{capped, AreDegrees};

use crate::leaves::sym_leaf::SymLeaf;
use crate::pools::expr::{ExprId, SymbolicExpr};
use crate::pools::pool::ExprPool;
use crate::pools::weight::{DegreeTable, LeafWeight};
use air_field::RingError;

/// The degree of a number.
pub(crate) fn degree_at<A: Copy>(table: &[u128], id: ExprId<A>) -> u128
    requires { id < length table.now }
    ensures { result ≡ slice_index_or table.now id 0 }
{
    table[id.number()]
}

/// A degree as `usize`, or `DegreeOverflow` if it exceeds that.
pub fn checked_degree(degree: u128) -> Result<usize, RingError>
    ensures { IsChecked degree result }
{
    match usize::try_from(degree) {
        Ok(degree) => Ok(degree),
        Err(_) => Err(RingError::DegreeOverflow),
    }
}

// The degree of a node, computed from the degrees of its operands.
fn degree_of_node<A: SymLeaf>(
    node: &SymbolicExpr<A>,
    weight: LeafWeight<'_>,
    base: &A::Base,
    base_degrees: &[u128],
    table: &[u128],
) -> u128
    requires valid { IsValidNode (A.reads base.now).valid node.now }
    requires base { A.has_degrees base.now weight base_degrees.now }
    requires below { OperandsBelow (length table.now) node.now }
    ensures { (degree : ℕ → ℕ) → AreDegrees degree (length table.now) table.now →
        result ≡ capped (node_degree (λ a. degree_by (leaf_weight weight.entry)
        ((A.reads base.now).term a)) degree node.now) }
{
    match *node {
        SymbolicExpr::Leaf(a) => a.degree_in(weight, base, base_degrees),
        SymbolicExpr::Add { x, y, .. } | SymbolicExpr::Sub { x, y, .. } => {
            degree_at(table, x).max(degree_at(table, y))
        }
        SymbolicExpr::Neg { x, .. } => degree_at(table, x),
        SymbolicExpr::Mul { x, y, .. } => degree_at(table, x).saturating_add(degree_at(table, y)),
    }
}

impl<A: SymLeaf> ExprPool<A> {
    // One turn: computes the degree of the next number from those of smaller numbers.
    fn turn(
        &self,
        id: ExprId<A>,
        weight: LeafWeight<'_>,
        base: &DegreeTable,
        table: &mut DegreeTable,
    ) -> Result<(), RingError>
        requires owed { FitsBase A.reads self.now }
        requires here { id < size self.now }
        requires base { A.has_degrees self.now.base weight base.now.degrees.items }
        requires operands { AreDegrees
            (λ i. degree_by (leaf_weight weight) (term_at A.reads self.now i))
            id table.old.degrees.items }
        requires room { table.old.turns + 1 < 2 ^ 128 }
        ensures degrees { OnOk result (AreDegrees
            (λ i. degree_by (leaf_weight weight.entry) (term_at A.reads self.now i))
            (id + 1) table.new.degrees.items) }
        ensures counted { table.new.turns ≡ table.old.turns + 1 }
        ensures refused { IfErr result (λ e. e ≡ RingError.Memory) }
    {
        table.turns += 1;
        let node = self.node(id);
        let degree = degree_of_node(node, weight, self.base(), &base.degrees, &table.degrees);
        table.degrees.push(degree)?;
        Ok(())
    }

    /// The degrees of the first `count` numbers by the leaves' weights, in ascending order: a node's operands have
    /// smaller numbers. `base` holds the degrees of the pool's base; its turns aren't counted again.
    pub(crate) fn table_over(
        &self,
        count: usize,
        weight: LeafWeight<'_>,
        base: &DegreeTable,
    ) -> Result<DegreeTable, RingError>
        requires owed { FitsBase A.reads self.now }
        requires here { count ≤ size self.now }
        requires base { A.has_degrees self.now.base weight base.now.degrees.items }
        ensures degrees { IfOk result (λ t. AreDegrees
            (λ i. degree_by (leaf_weight weight.entry) (term_at A.reads self.now i))
            count t.degrees.items) }
        ensures turns { IfOk result (λ t. t.turns ≡ count) }
        ensures refused { IfErr result (λ e. e ≡ RingError.Memory) }
    {
        let mut table = DegreeTable {
            degrees: Vec::with_capacity(*self.nodes.allocator(), count)?,
            turns: 0,
        };
        for number in 0..count {
            self.turn(ExprId::new(number), weight, base, &mut table)?;
        }
        Ok(table)
    }

    /// The degrees of the first `count` numbers by the leaves' weights, computed after those of the pool's base.
    pub(crate) fn degree_table(
        &self,
        count: usize,
        weight: LeafWeight<'_>,
    ) -> Result<DegreeTable, RingError>
        requires owed { FitsBase A.reads self.now }
        requires here { count ≤ size self.now }
        ensures degrees { IfOk result (λ t. AreDegrees
            (λ i. degree_by (leaf_weight weight.entry) (term_at A.reads self.now i))
            count t.degrees.items) }
        ensures turns { IfOk result (λ t. t.turns ≡ count + A.base_length self.now.base) }
        ensures refused { IfErr result (λ e. e ≡ RingError.Memory) }
    {
        let base = A::degrees_of_base(self.base(), weight, *self.nodes.allocator())?;
        let DegreeTable { degrees, turns } = self.table_over(count, weight, &base)?;
        Ok(DegreeTable {
            degrees,
            turns: base.turns + turns,
        })
    }
}

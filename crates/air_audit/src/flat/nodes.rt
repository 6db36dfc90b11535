//! The expressions of places.
ghost use Rattle.std.specs.Prelude.{◌≡◌, ◌<◌, length, Some, slice_get};
ghost use Rattle.air_symbolic.specs.BaseLeaves.{base_leaves, base_reads};
ghost use Rattle.air_symbolic.specs.Nodes.{IsNode};
ghost use Rattle.air_symbolic.specs.Pools.{term_at, size};
ghost use Rattle.air_symbolic.specs.declared.leaves.base_leaf.BaseLeaf.{BaseLeaf};
ghost use Rattle.air_symbolic.specs.declared.pools.expr.SymbolicExpr.{SymbolicExpr};
ghost use Rattle.air_author.specs.Expressions.{MakesIn};
ghost use Rattle.air_audit.specs.Plans.{number_at, IsLeaf, MakesPlace};
ghost use Rattle.air_audit.specs.Tables.{IsMadeIn, HasAt, TableMade};

use crate::flat::leaves::make_leaf;
use crate::flat::step::Step;
use air_author::{Current, Difference, Expression, Gated, Negative, Next, Product, Sum};
use air_builder::{AirBuilder, AirError, View};
use air_field::{Algebra, Field};
use air_symbolic::{BaseLeaf, ExprId, ExprPool, SymbolicExpr};

/// The expression at a place of the table.
#[inline(always)]
pub(crate) fn expression_at<E: Copy>(table: &[E], place: usize) -> E
    requires { place < length table.now }
    ensures { slice_get table.now place ≡ Some result }
{
    table[place]
}

/// The expression of a place's number, which the table has.
#[derive(Drop)]
pub(crate) struct AtPlace<'a, E, F: Field>(
    pub(crate) &'a ExprPool<BaseLeaf<F>>,
    pub(crate) &'a [ExprId<BaseLeaf<F>>],
    pub(crate) &'a [E],
    pub(crate) usize,
);

impl<'a, AB: AirBuilder> Expression<AB> for AtPlace<'a, AB::Expr, AB::F> {
    ghost term = { λ s. term_at base_reads s.0.now (number_at s.1.now s.3) };

    ghost usable = { λ s b. HasAt (IsMadeIn ⟦<AB as View>⟧.view b
        (term_at base_reads s.0.now (number_at s.1.now s.3))) s.2.now s.3 };

    #[inline(always)]
    fn make(&self, _builder: &mut AB) -> Result<AB::Expr, AirError> {
        Ok(expression_at(self.2, self.3))
    }
}

// Makes the expression of a number whose node is a leaf.
#[inline(always)]
fn make_number<AB: AirBuilder>(
    builder: &mut AB,
    pool: &ExprPool<BaseLeaf<AB::F>>,
    id: ExprId<BaseLeaf<AB::F>>,
) -> Result<AB::Expr, AirError>
    requires ready { AB.ready builder.old }
    requires here { id < size pool.now }
    requires leaf { (n : SymbolicExpr (BaseLeaf AB.F)) →
        IsNode base_leaves pool.now.nodes id n → IsLeaf n }
    ensures { MakesIn ⟦<AB as View>⟧.view builder.old builder.new result
        (term_at base_reads pool.now id) }
{
    match *pool.node(id) {
        SymbolicExpr::Leaf(leaf) => make_leaf(builder, leaf),
        _ => unreachable!(),
    }
}

/// Makes the expression of a place's number by its step, out of those at places before it.
#[inline(always)]
pub(crate) fn make_step<AB: AirBuilder>(
    builder: &mut AB,
    pool: &ExprPool<BaseLeaf<AB::F>>,
    numbers: &[ExprId<BaseLeaf<AB::F>>],
    place: usize,
    step: Step,
    table: &[AB::Expr],
) -> Result<AB::Expr, AirError>
    requires ready { AB.ready builder.old }
    requires within { place < length numbers.now }
    requires here { number_at numbers.now place < size pool.now }
    requires makes { MakesPlace base_leaves pool.now.nodes numbers.now place step }
    requires table { TableMade (IsMadeIn ⟦<AB as View>⟧.view builder.old)
        (term_at base_reads pool.now) numbers.now table.now place }
    ensures { MakesIn ⟦<AB as View>⟧.view builder.old builder.new result
        (term_at base_reads pool.now (number_at numbers.now place)) }
{
    pool.nodes_fit();
    match step {
        Step::Leaf => make_number(builder, pool, numbers[place]),
        Step::Current(column) => Current(column).make(builder),
        Step::Next(column) => Next(column).make(builder),
        Step::Add(x, y) => Sum(
            AtPlace(pool, numbers, table, x),
            AtPlace(pool, numbers, table, y),
        )
        .make(builder),
        Step::Sub(x, y) => Difference(
            AtPlace(pool, numbers, table, x),
            AtPlace(pool, numbers, table, y),
        )
        .make(builder),
        Step::Neg(x) => Negative(AtPlace(pool, numbers, table, x)).make(builder),
        Step::Mul(x, y) => Product(
            AtPlace(pool, numbers, table, x),
            AtPlace(pool, numbers, table, y),
        )
        .make(builder),
        Step::Gate(x, y) => Gated(
            &AtPlace(pool, numbers, table, x),
            &AtPlace(pool, numbers, table, y),
        )
        .make(builder),
    }
}

//! The expressions of places over the extension.
ghost use Rattle.std.specs.Prelude.{◌<◌, length};
ghost use Rattle.air_symbolic.specs.BaseLeaves.{base_reads};
ghost use Rattle.air_symbolic.specs.ExtLeaves.{ext_reads, ext_term};
ghost use Rattle.air_symbolic.specs.Pools.{term_at};
ghost use Rattle.air_author.specs.Expressions.{MakesIn};
ghost use Rattle.air_audit.specs.Plans.{number_at};
ghost use Rattle.air_audit.specs.ExtPlans.{LeafIsPlanned};
ghost use Rattle.air_audit.specs.Tables.{IsMadeIn, HasNumber, TableMade};

use crate::flat::extension::air::FlatExtAir;
use crate::flat::extension::leaves::make_ext_variable;
use crate::flat::nodes::{AtPlace, expression_at};
use air_author::{Difference, ExtConstant, ExtExpression, Lifted, Negative, Product, Sum};
use air_builder::{AirError, ExtensionBuilder, PermutationAirBuilder, View, ViewOver};
use air_field::{Algebra, ExtAlgebra, ExtensionField, Field, FromVar};
use air_symbolic::{ExprId, ExtLeaf, SymbolicExpr};

/// The expression of a number over the extension, which the table has.
#[derive(Drop)]
struct AtNumber<'a, E, F: Field, EF: ExtensionField<F>>(
    &'a FlatExtAir<F, EF>,
    &'a [E],
    ExprId<ExtLeaf<F, EF>>,
);

impl<'a, AB: ExtensionBuilder> ExtExpression<AB> for AtNumber<'a, AB::ExprEF, AB::F, AB::EF> {
    ghost ext_term = { λ s. term_at (ext_reads AB.EF.basis) s.0.now.pool s.2 };

    ghost usable = { λ s b. HasNumber (IsMadeIn ⟦<AB as ViewOver>⟧.view b
        (term_at (ext_reads AB.EF.basis) s.0.now.pool s.2)) s.0.now.plan.table.items s.1.now s.2 };

    #[inline(always)]
    fn make_ext(&self, _builder: &mut AB) -> Result<AB::ExprEF, AirError> {
        Ok(expression_at(self.1, self.0.plan.table[self.2.number()]))
    }
}

// Makes the expression of a leaf, of which the base expression is made already.
fn make_ext_leaf<AB: PermutationAirBuilder>(
    builder: &mut AB,
    air: &FlatExtAir<AB::F, AB::EF>,
    leaf: ExtLeaf<AB::F, AB::EF>,
    base: &[AB::Expr],
) -> Result<AB::ExprEF, AirError>
where
    AB::ExtRing: FromVar<AB::F, AB::RandomVar> + FromVar<AB::F, AB::PermutationVar>,
    requires ready { AB.ready builder.old }
    requires planned { LeafIsPlanned air.now.plan.base.numbers.items
        air.now.plan.base_table.items leaf }
    requires base { TableMade (IsMadeIn ⟦<AB as View>⟧.view builder.old)
        (term_at base_reads air.now.pool.base) air.now.plan.base.numbers.items base.now
        (length air.now.plan.base.numbers.items) }
    ensures { MakesIn ⟦<AB as ViewOver>⟧.view builder.old builder.new result
        (ext_term AB.EF.basis air.now.pool.base leaf) }
{
    match leaf {
        ExtLeaf::Base(id) => {
            let place = air.plan.base_table[id.number()];
            Lifted(AtPlace(air.pool.base(), &air.plan.base.numbers, base, place)).make_ext(builder)
        }
        ExtLeaf::ExtVariable(variable) => make_ext_variable(builder, variable),
        ExtLeaf::ExtConstant(c) => ExtConstant(c).make_ext(builder),
    }
}

/// Makes the expression of a place's number by its node, out of those at places before it.
pub(crate) fn make_ext_place<AB: PermutationAirBuilder>(
    builder: &mut AB,
    air: &FlatExtAir<AB::F, AB::EF>,
    place: usize,
    base: &[AB::Expr],
    table: &[AB::ExprEF],
) -> Result<AB::ExprEF, AirError>
where
    AB::ExtRing: FromVar<AB::F, AB::RandomVar> + FromVar<AB::F, AB::PermutationVar>,
    requires ready { AB.ready builder.old }
    requires within { place < length air.now.plan.numbers.items }
    requires base { TableMade (IsMadeIn ⟦<AB as View>⟧.view builder.old)
        (term_at base_reads air.now.pool.base) air.now.plan.base.numbers.items base.now
        (length air.now.plan.base.numbers.items) }
    requires table { TableMade (IsMadeIn ⟦<AB as ViewOver>⟧.view builder.old)
        (term_at (ext_reads AB.EF.basis) air.now.pool) air.now.plan.numbers.items
        table.now place }
    ensures { MakesIn ⟦<AB as ViewOver>⟧.view builder.old builder.new result
        (term_at (ext_reads AB.EF.basis) air.now.pool
        (number_at air.now.plan.numbers.items place)) }
{
    match *air.pool.node(air.plan.numbers[place]) {
        SymbolicExpr::Leaf(leaf) => make_ext_leaf(builder, air, leaf, base),
        SymbolicExpr::Add { x, y, .. } => {
            Sum(AtNumber(air, table, x), AtNumber(air, table, y)).make_ext(builder)
        }
        SymbolicExpr::Sub { x, y, .. } => {
            Difference(AtNumber(air, table, x), AtNumber(air, table, y)).make_ext(builder)
        }
        SymbolicExpr::Neg { x, .. } => Negative(AtNumber(air, table, x)).make_ext(builder),
        SymbolicExpr::Mul { x, y, .. } => {
            Product(AtNumber(air, table, x), AtNumber(air, table, y)).make_ext(builder)
        }
    }
}

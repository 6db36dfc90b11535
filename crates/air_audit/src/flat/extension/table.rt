//! The expressions of an AIR's plan, each once, and the assertion of its roots.
ghost use Rattle.std.specs.Prelude.{◌≡◌, ◌<◌, List, [], ◌∷◌, length, All, IfOk, IfErr};
ghost use Rattle.air_symbolic.specs.BaseLeaves.{base_reads};
ghost use Rattle.air_symbolic.specs.ExtLeaves.{ext_reads};
ghost use Rattle.air_symbolic.specs.Pools.{term_at};
ghost use Rattle.air_builder.specs.Assertion.{Assertion};
ghost use Rattle.air_builder.specs.Batches.{AssertedEachIn, OrMemory};
ghost use Rattle.air_builder.specs.Builders.{MeansIn};
ghost use Rattle.air_builder.specs.Labels.{LabelledEach};
ghost use Rattle.air_builder.specs.Refusals.{PartOf};
ghost use Rattle.air_audit.specs.ExtPlans.{ext_ids};
ghost use Rattle.air_audit.specs.RootLabels.{RootSays};
ghost use Rattle.air_audit.specs.Tables.{IsMadeIn, TableMade, AssertsRoot, RootHas};

use crate::flat::extension::air::FlatExtAir;
use crate::flat::extension::nodes::make_ext_place;
use crate::flat::labels::RootLabel;
use crate::flat::nodes::expression_at;
use crate::flat::root::Root;
use air_builder::{AirError, NamedExtensionBuilder, PermutationAirBuilder, View, ViewOver};
use air_field::{Algebra, ExtAlgebra, FromVar};
use std::alloc::Global;

/// The expressions of the plan's numbers over the extension, in order, out of those of the base pool.
pub(crate) fn make_ext_places<AB: PermutationAirBuilder>(
    alloc: Global,
    builder: &mut AB,
    air: &FlatExtAir<AB::F, AB::EF>,
    base: &[AB::Expr],
) -> Result<Vec<AB::ExprEF>, AirError>
where
    AB::ExtRing: FromVar<AB::F, AB::RandomVar> + FromVar<AB::F, AB::PermutationVar>,
    requires ready { AB.ready builder.old }
    requires base { TableMade (IsMadeIn ⟦<AB as View>⟧.view builder.old)
        (term_at base_reads air.now.pool.base) air.now.plan.base.numbers.items base.now
        (length air.now.plan.base.numbers.items) }
    ensures keeps { AB.grew builder.old builder.new [] }
    ensures made { IfOk result (λ table. TableMade
        (IsMadeIn ⟦<AB as ViewOver>⟧.view builder.new)
        (term_at (ext_reads AB.EF.basis) air.now.pool) air.now.plan.numbers.items
        table.items (length air.now.plan.numbers.items)) }
    ensures refused { IfErr result (λ e. (ss : List (Assertion AB.F)) →
        All (λ i. PartOf (term_at (ext_reads AB.EF.basis) air.now.pool i) ss)
        (ext_ids air.now.roots.items) → OrMemory AB.refuses builder.old e ss) }
{
    let mut table = Vec::with_capacity(alloc, air.plan.numbers.len())?;
    for place in 0..air.plan.numbers.len() {
        let x = make_ext_place(builder, air, place, base, &table)?;
        table.push_reserved(x);
    }
    Ok(table)
}

// Asserts that the expression of a root is zero, under its label.
fn assert_root<AB: NamedExtensionBuilder>(
    builder: &mut AB,
    air: &FlatExtAir<AB::F, AB::EF>,
    base: &[AB::Expr],
    table: &[AB::ExprEF],
    root: usize,
    id: Root<AB::F, AB::EF>,
) -> Result<(), AirError>
    requires ready { AB.ready builder.old }
    requires of_ring { RootHas (λ i. AB.Ring.has (AB.ring_of builder.old))
        (λ i. AB.ExtRing.has (AB.ext_ring_of builder.old)) air.now.plan.base_table.items
        air.now.plan.table.items base.now table.now id }
    ensures asserted { AssertedEachIn ⟦<AB as View>⟧.view
        (AssertsRoot (MeansIn ⟦<AB as View>⟧.view) (MeansIn ⟦<AB as ViewOver>⟧.view)
        air.now.plan.base_table.items air.now.plan.table.items base.now table.now)
        builder.old builder.new (id ∷ []) result }
    ensures label { LabelledEach
        (AssertsRoot (MeansIn ⟦<AB as View>⟧.view) (MeansIn ⟦<AB as ViewOver>⟧.view)
        air.now.plan.base_table.items air.now.plan.table.items base.now table.now) AB.labelled
        (λ i. RootSays air.now.labels.items root) builder.old builder.new (id ∷ []) result }
{
    let labels = &air.labels;
    match id {
        Root::Base(id) => {
            let x = expression_at(base, air.plan.base_table[id.number()]);
            builder.assert_zero_named(x, RootLabel { labels, root })
        }
        Root::Extension(id) => {
            let x = expression_at(table, air.plan.table[id.number()]);
            builder.assert_zero_ext_named(x, RootLabel { labels, root })
        }
    }
}

/// Asserts that the expressions of the roots are zero, in order, each under its label.
pub(crate) fn assert_roots<AB: NamedExtensionBuilder>(
    builder: &mut AB,
    air: &FlatExtAir<AB::F, AB::EF>,
    base: &[AB::Expr],
    table: &[AB::ExprEF],
) -> Result<(), AirError>
    requires ready { AB.ready builder.old }
    requires of_ring { All (RootHas (λ i. AB.Ring.has (AB.ring_of builder.old))
        (λ i. AB.ExtRing.has (AB.ext_ring_of builder.old)) air.now.plan.base_table.items
        air.now.plan.table.items base.now table.now) air.now.roots.items }
    ensures asserted { AssertedEachIn ⟦<AB as View>⟧.view
        (AssertsRoot (MeansIn ⟦<AB as View>⟧.view) (MeansIn ⟦<AB as ViewOver>⟧.view)
        air.now.plan.base_table.items air.now.plan.table.items base.now table.now)
        builder.old builder.new air.now.roots.items result }
    ensures labels { LabelledEach
        (AssertsRoot (MeansIn ⟦<AB as View>⟧.view) (MeansIn ⟦<AB as ViewOver>⟧.view)
        air.now.plan.base_table.items air.now.plan.table.items base.now table.now) AB.labelled
        (RootSays air.now.labels.items) builder.old builder.new air.now.roots.items result }
{
    for (root, id) in air.roots.iter().enumerate() {
        assert_root(builder, air, base, table, root, *id)?;
    }
    Ok(())
}

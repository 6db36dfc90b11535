//! The expressions that a plan makes, each once.
ghost use Rattle.std.specs.List.{AllZip};
ghost use Rattle.std.specs.Prelude.{◌≡◌, ◌<◌, List, [], length, map, All, Some, IfOk, IfErr, slice_get};
ghost use Rattle.air_symbolic.specs.BaseLeaves.{base_leaves, base_reads};
ghost use Rattle.air_symbolic.specs.Pools.{term_at};
ghost use Rattle.air_core.specs.declared.errors.AirError.{AirError};
ghost use Rattle.air_builder.specs.Assertion.{Assertion};
ghost use Rattle.air_builder.specs.Builders.{MeansIn};
ghost use Rattle.air_builder.specs.Refusals.{PartOf};
ghost use Rattle.air_builder.specs.Labels.{LabelledEach};
ghost use Rattle.air_audit.specs.Plans.{number_at, IsPlan};
ghost use Rattle.air_audit.specs.RootLabels.{RootSays};
ghost use Rattle.air_builder.specs.Batches.{AssertedEachIn, OrMemory};
ghost use Rattle.air_audit.specs.Tables.{IsMadeIn, HasAt, AssertsAt, TableMade, MakesAllOrMemory};

use crate::flat::labels::RootLabel;
use crate::flat::nodes::{expression_at, make_step};
use crate::flat::plan::Plan;
use crate::flat::pushing::push;
use air_builder::{AirBuilder, AirError, NamedAirBuilder, View};
use air_field::Algebra;
use air_symbolic::{BaseLeaf, ExprPool};
use std::alloc::Global;

/// The expressions of the plan's numbers, in order.
pub(crate) fn make_places<AB: AirBuilder>(
    alloc: Global,
    pool: &ExprPool<BaseLeaf<AB::F>>,
    plan: &Plan<AB::F>,
    builder: &mut AB,
) -> Result<Vec<AB::Expr>, AirError>
    requires ready { AB.ready builder.old }
    requires planned { IsPlan base_leaves pool.now.nodes
        (map (number_at plan.now.numbers.items) plan.now.places.items)
        plan.now.numbers.items plan.now.steps.items plan.now.places.items }
    ensures keeps { AB.grew builder.old builder.new [] }
    ensures made { IfOk result (λ table. TableMade
        (IsMadeIn ⟦<AB as View>⟧.view builder.new)
        (term_at base_reads pool.now) plan.now.numbers.items table.items
        (length plan.now.numbers.items)) }
    ensures refused { IfErr result (λ e. (ss : List (Assertion AB.F)) →
        All (λ p. PartOf (term_at base_reads pool.now (number_at plan.now.numbers.items p)) ss)
        plan.now.places.items → OrMemory AB.refuses builder.old e ss) }
{
    pool.nodes_fit();
    let mut table = Vec::with_capacity(alloc, plan.steps.len())?;
    for step in &plan.steps {
        let x = make_step(builder, pool, &plan.numbers, table.len(), *step, &table)?;
        table.push_reserved(x);
    }
    Ok(table)
}

// The expressions at the places, in order.
fn read_places<E: Copy>(alloc: Global, table: &[E], places: &[usize]) -> Result<Vec<E>, AirError>
    requires { All (λ p. p < length table.now) places.now }
    ensures read { IfOk result (λ xs.
        AllZip (λ x p. slice_get table.now p ≡ Some x) xs.items places.now) }
    ensures refused { IfErr result (λ e. e ≡ AirError.Memory) }
{
    let mut expressions = Vec::with_capacity(alloc, places.len())?;
    for place in places {
        push(&mut expressions, expression_at(table, *place))?;
    }
    Ok(expressions)
}

/// The expressions of the plan's roots, in order.
pub(crate) fn make_planned<AB: AirBuilder>(
    alloc: Global,
    pool: &ExprPool<BaseLeaf<AB::F>>,
    plan: &Plan<AB::F>,
    builder: &mut AB,
) -> Result<Vec<AB::Expr>, AirError>
    requires ready { AB.ready builder.old }
    requires planned { IsPlan base_leaves pool.now.nodes
        (map (number_at plan.now.numbers.items) plan.now.places.items)
        plan.now.numbers.items plan.now.steps.items plan.now.places.items }
    ensures { MakesAllOrMemory ⟦<AB as View>⟧.view builder.old builder.new result
        (map (λ p. term_at base_reads pool.now (number_at plan.now.numbers.items p))
        plan.now.places.items) }
{
    let table = make_places(alloc, pool, plan, builder)?;
    read_places(alloc, &table, &plan.places)
}

/// Asserts that the expressions at the places are zero, in order, each under its label.
pub(crate) fn assert_places<AB: NamedAirBuilder>(
    builder: &mut AB,
    table: &[AB::Expr],
    places: &[usize],
    labels: &[String],
) -> Result<(), AirError>
    requires ready { AB.ready builder.old }
    requires of_ring { All (HasAt (AB.Ring.has (AB.ring_of builder.old)) table.now) places.now }
    ensures asserted { AssertedEachIn ⟦<AB as View>⟧.view
        (AssertsAt (MeansIn ⟦<AB as View>⟧.view) table.now) builder.old builder.new places.now
        result }
    ensures labels { LabelledEach (AssertsAt (MeansIn ⟦<AB as View>⟧.view) table.now) AB.labelled
        (RootSays labels.now) builder.old builder.new places.now result }
{
    for (root, place) in places.iter().enumerate() {
        builder.assert_zero_named(expression_at(table, *place), RootLabel { labels, root })?;
    }
    Ok(())
}

//! The plan by which the expressions of roots of both pools are made.
ghost use Rattle.std.specs.Prelude.{◌≡◌, ◌⊎◌, All, IfOk, IfErr};
ghost use Rattle.air_symbolic.specs.ExtLeaves.{ext_reads};
ghost use Rattle.air_symbolic.specs.Pools.{IsPool};
ghost use Rattle.air_core.specs.declared.errors.AirError.{AirError};
ghost use Rattle.air_audit.specs.ExtPlans.{IsExtPlan, ReachesFarRow};
ghost use Rattle.air_audit.specs.FlatExtAirs.{RootHere};

use crate::flat::extension::roots::{lifted_by, push_base_roots, roots_over};
use crate::flat::plan::{Plan, order_of, plan_with_places};
use crate::flat::root::Root;
use air_builder::AirError;
use air_field::{ExtensionField, Field};
use air_symbolic::{ExprId, ExprPool, ExtLeaf};
use std::alloc::Global;

/// How the expressions of some roots of both pools are made: first those of the base pool, by a plan of their own, and
/// then those over the extension, each by its node.
#[derive(Drop)]
pub(crate) struct ExtPlan<F: Field, EF: ExtensionField<F>> {
    /// How those of the base pool are made.
    pub(crate) base: Plan<F>,
    /// For each number of the base pool the place of its expression.
    pub(crate) base_table: Vec<usize>,
    /// The numbers over the extension that the roots reach, from the least up.
    pub(crate) numbers: Vec<ExprId<ExtLeaf<F, EF>>>,
    /// For each number over the extension the place of its expression.
    pub(crate) table: Vec<usize>,
}

/// The plan of some roots.
pub(crate) fn ext_plan_of<F: Field, EF: ExtensionField<F>>(
    alloc: Global,
    pool: &ExprPool<ExtLeaf<F, EF>>,
    roots: &[Root<F, EF>],
) -> Result<ExtPlan<F, EF>, AirError>
    requires pool { IsPool (ext_reads EF.basis) pool.now }
    requires here { All (RootHere pool.now) roots.now }
    ensures planned { IfOk result (λ plan. IsExtPlan EF.basis pool.now roots.now
        plan.base.numbers.items plan.base.steps.items plan.base.places.items
        plan.base_table.items plan.numbers.items plan.table.items) }
    ensures refused { IfErr result (λ e. (e ≡ AirError.Memory) ⊎
        ReachesFarRow EF.basis pool.now roots.now e) }
{
    let over = roots_over(alloc, roots)?;
    let (numbers, table) = order_of(alloc, pool, &over)?;
    let mut made = lifted_by(alloc, pool, &numbers)?;
    push_base_roots(&mut made, roots)?;
    let (base, base_table) = plan_with_places(alloc, pool.base(), &made)?;
    Ok(ExtPlan {
        base,
        base_table,
        numbers,
        table,
    })
}

//! The roots of each kind, and what of the base pool is made for both.
ghost use Rattle.std.specs.Prelude.{◌≡◌, ◌⊎◌, ◌<◌, [], ◌∷◌, ◌++◌, All, slice_get, OnOk, IfOk, IfErr};
ghost use Rattle.air_symbolic.specs.ExtLeaves.{ext_reads};
ghost use Rattle.air_symbolic.specs.Pools.{FitsBase, size};
ghost use Rattle.air_symbolic.specs.declared.pools.expr.SymbolicExpr.{SymbolicExpr};
ghost use Rattle.air_core.specs.declared.errors.AirError.{AirError};
ghost use Rattle.air_audit.specs.ExtPlans.{base_ids, ext_ids, lifted_of, lifted_ids, IsOfExtWindow, NodeInWindow, InWindow, RefusesEntry, RefusesNode, SomeRefuses};

use crate::flat::pushing::push;
use crate::flat::root::Root;
use air_builder::AirError;
use air_field::{ExtensionField, Field};
use air_symbolic::{
    BaseLeaf, ExprId, ExprPool, ExtEntry, ExtLeaf, SymbolicExpr, SymbolicVariableExt,
};
use std::alloc::Global;

// Adds a root over the extension, and leaves another out.
fn push_over<F: Field, EF: ExtensionField<F>>(
    ids: &mut Vec<ExprId<ExtLeaf<F, EF>>>,
    root: Root<F, EF>,
) -> Result<(), AirError>
    ensures ok { OnOk result (ids.new.items ≡ ids.old.items ++ ext_ids (root ∷ [])) }
    ensures refused { IfErr result (λ e. e ≡ AirError.Memory) }
{
    match root {
        Root::Base(_) => Ok(()),
        Root::Extension(id) => push(ids, id),
    }
}

/// The roots over the extension, in order.
pub(crate) fn roots_over<F: Field, EF: ExtensionField<F>>(
    alloc: Global,
    roots: &[Root<F, EF>],
) -> Result<Vec<ExprId<ExtLeaf<F, EF>>>, AirError>
    ensures ids { IfOk result (λ ids. ids.items ≡ ext_ids roots.now) }
    ensures refused { IfErr result (λ e. e ≡ AirError.Memory) }
{
    let mut ids = Vec::new(alloc);
    for root in roots {
        push_over(&mut ids, *root)?;
    }
    Ok(ids)
}

// Adds a base root, and leaves another out.
fn push_base<F: Field, EF: ExtensionField<F>>(
    ids: &mut Vec<ExprId<BaseLeaf<F>>>,
    root: Root<F, EF>,
) -> Result<(), AirError>
    ensures ok { OnOk result (ids.new.items ≡ ids.old.items ++ base_ids (root ∷ [])) }
    ensures refused { IfErr result (λ e. e ≡ AirError.Memory) }
{
    match root {
        Root::Base(id) => push(ids, id),
        Root::Extension(_) => Ok(()),
    }
}

/// Adds the base roots, in order.
pub(crate) fn push_base_roots<F: Field, EF: ExtensionField<F>>(
    ids: &mut Vec<ExprId<BaseLeaf<F>>>,
    roots: &[Root<F, EF>],
) -> Result<(), AirError>
    ensures ok { OnOk result (ids.new.items ≡ ids.old.items ++ base_ids roots.now) }
    ensures refused { IfErr result (λ e. e ≡ AirError.Memory) }
{
    for root in roots {
        push_base(ids, *root)?;
    }
    Ok(())
}

// A window has only the rows 0 and 1.
fn check_window<F: Field, EF: ExtensionField<F>>(
    variable: SymbolicVariableExt<F, EF>,
) -> Result<(), AirError>
    ensures ok { OnOk result (IsOfExtWindow variable.entry) }
    ensures refused { IfErr result (λ e. RefusesEntry variable.entry e) }
{
    match variable.entry {
        ExtEntry::Permutation { offset } => {
            if offset > 1 {
                return Err(AirError::RowOffset { offset });
            }
            Ok(())
        }
        ExtEntry::Challenge | ExtEntry::PermutationValue => Ok(()),
    }
}

// Adds the base expression that a node holds, if it holds one.
fn push_lifted<F: Field, EF: ExtensionField<F>>(
    ids: &mut Vec<ExprId<BaseLeaf<F>>>,
    node: SymbolicExpr<ExtLeaf<F, EF>>,
) -> Result<(), AirError>
    ensures ok { OnOk result (ids.new.items ≡ ids.old.items ++ lifted_of node) }
    ensures window { OnOk result (NodeInWindow node) }
    ensures refused { IfErr result (λ e. (e ≡ AirError.Memory) ⊎ RefusesNode node e) }
{
    match node {
        SymbolicExpr::Leaf(leaf) => match leaf {
            ExtLeaf::Base(id) => push(ids, id),
            ExtLeaf::ExtVariable(variable) => check_window(variable),
            ExtLeaf::ExtConstant(_) => Ok(()),
        },
        _ => Ok(()),
    }
}

/// The base expressions that the nodes of the numbers hold, in order. A column of the permutation trace on a row that
/// no window has is refused.
pub(crate) fn lifted_by<F: Field, EF: ExtensionField<F>>(
    alloc: Global,
    pool: &ExprPool<ExtLeaf<F, EF>>,
    numbers: &[ExprId<ExtLeaf<F, EF>>],
) -> Result<Vec<ExprId<BaseLeaf<F>>>, AirError>
    requires owed { FitsBase (ext_reads EF.basis) pool.now }
    requires here { All (λ i. i < size pool.now) numbers.now }
    ensures ids { IfOk result (λ ids. ids.items ≡ lifted_ids pool.now.nodes numbers.now) }
    ensures window { IfOk result (λ ids. All (λ i. InWindow (slice_get pool.now.nodes i))
        numbers.now) }
    ensures refused { IfErr result (λ e. (e ≡ AirError.Memory) ⊎
        SomeRefuses pool.now.nodes numbers.now e) }
{
    let mut ids = Vec::new(alloc);
    for id in numbers {
        push_lifted(&mut ids, *pool.node(*id))?;
    }
    Ok(ids)
}

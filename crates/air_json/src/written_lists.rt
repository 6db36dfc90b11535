//! Writing lists of nodes.
ghost use Rattle.std.specs.Prelude.{◌≡◌, ◌<◌, ◌≤◌, ◌+◌, ◌++◌, length, map, replicate, All, IfOk, IfErr};
ghost use Rattle.std.specs.List.{AllZip};
ghost use Rattle.serde_json.specs.Data.{array};
ghost use Rattle.serde_json.specs.View.{view, items_of};
ghost use Rattle.air_symbolic.specs.Pools.{IsPool, FitsBase, size};
ghost use Rattle.air_symbolic.specs.Trees.{leaf_tree};
ghost use Rattle.air_json.specs.Unshared.{seen_at};
ghost use Rattle.air_json.specs.Written.{AreNodesOf, IsWritten};
ghost use Rattle.air_json.specs.Writing.{steps_of, without_places};

use crate::errors::FlatError;
use crate::wire_leaf::WireLeaf;
use crate::written_nodes::{leaf_node_value, node_value, place_of};
use air_symbolic::{ExprId, ExprPool, SymbolicExpr};
use serde_json::Value;
use std::alloc::{AllocError, Global};

// A table of places by number, all unset.
fn no_places(alloc: Global, count: usize) -> Result<Vec<Option<usize>>, AllocError>
    ensures { IfOk result (λ v. v.items ≡ replicate count None) }
{
    vec![in alloc; None; count]
}

// The size of a table for this number and all smaller ones; its list has no greater ones.
fn numbers_to<A: WireLeaf>(pool: &ExprPool<A>, id: ExprId<A>) -> usize
    requires { id < size pool.now }
    ensures { result ≡ id + 1 }
{
    pool.len().min(id.number() + 1)
}

// Pushes the steps that visit the operands, left before right, and then write the node.
fn push_steps<A: WireLeaf>(
    steps: &mut Vec<(ExprId<A>, bool)>,
    id: ExprId<A>,
    node: &SymbolicExpr<A>,
) -> Result<(), FlatError>
    ensures pushed { IfOk result (λ _. steps.new.items ≡ steps.old.items
        ++ steps_of id node.now) }
    ensures refused { IfErr result (λ e. e ≡ FlatError.Memory) }
{
    steps.push((id, true))?;
    if let [left, rest @ ..] = node.operands().as_slice() {
        if let [right, ..] = rest {
            steps.push((*right, false))?;
        }
        steps.push((*left, false))?;
    }
    Ok(())
}

// Takes the places of these expressions out of the table, the last first.
fn clear_places<A: WireLeaf>(places: &mut Vec<Option<usize>>, mut written: Vec<ExprId<A>>)
    requires { All (λ n. n < length places.old.items) written.items }
    ensures { places.new.items ≡ without_places written.items places.old.items }
{
    while let Some(id) = written.pop() {
        places[id.number()] = None;
    }
}

// The nodes of the list. A node is written once: when it has no place yet and its operands have theirs. The remaining
// steps are on a stack, which grows with the depth of the tree. The table has no places, and is given back without any.
fn nodes_of<A: WireLeaf>(
    alloc: Global,
    pool: &ExprPool<A>,
    root: ExprId<A>,
    places: &mut Vec<Option<usize>>,
) -> Result<Vec<Value>, FlatError>
    requires pool { IsPool A.reads pool.now }
    requires fits { length places.old.items ≤ size pool.now }
    requires here { root < length places.old.items }
    requires empty { places.old.items ≡ replicate (length places.old.items) None }
    ensures written { IfOk result (λ v. IsWritten A.kind (array (items_of (map view v.items)))
        (seen_at A.seen pool.now root)) }
    ensures cleared { IfOk result (λ _. places.new.items ≡ places.old.items) }
    ensures refused { IfErr result (λ e. e ≡ FlatError.Memory) }
{
    let mut items = Vec::new(alloc);
    let mut written = Vec::new(alloc);
    let mut steps = Vec::new(alloc);
    steps.push((root, false))?;
    while let Some(step) = steps.pop() {
        let (id, ready) = step;
        if place_of(places, id).is_some() {
            continue;
        }
        let node = pool.node(id);
        if !ready {
            push_steps(&mut steps, id, node)?;
            continue;
        }
        let value = node_value(alloc, pool.base(), places, node)?;
        written.push(id)?;
        places[id.number()] = Some(items.len());
        items.push(value)?;
    }
    clear_places(places, written);
    Ok(items)
}

// The only node of a list whose root is a leaf.
fn leaf_alone<A: WireLeaf>(alloc: Global, base: &A::Base, leaf: &A) -> Result<Vec<Value>, FlatError>
    requires sound { (A.reads base.now).sound }
    requires valid { (A.reads base.now).valid leaf.now }
    ensures written { IfOk result (λ v. AreNodesOf A.kind (map view v.items)
        (leaf_tree (A.seen base.now leaf.now))) }
    ensures refused { IfErr result (λ e. e ≡ FlatError.Memory) }
{
    let node = leaf_node_value(alloc, base, leaf)?;
    let mut items = Vec::with_capacity(alloc, 1)?;
    items.push(node)?;
    Ok(items)
}

// The nodes of the list, by a table of its own.
fn nodes_alone<A: WireLeaf>(
    alloc: Global,
    pool: &ExprPool<A>,
    root: ExprId<A>,
) -> Result<Vec<Value>, FlatError>
    requires pool { IsPool A.reads pool.now }
    requires here { root < size pool.now }
    ensures written { IfOk result (λ v. IsWritten A.kind (array (items_of (map view v.items)))
        (seen_at A.seen pool.now root)) }
    ensures refused { IfErr result (λ e. e ≡ FlatError.Memory) }
{
    let mut places = no_places(alloc, numbers_to(pool, root))?;
    nodes_of(alloc, pool, root, &mut places)
}

// The nodes of the list. A leaf needs no table; most `Base` leaves hold just one.
fn items_of<A: WireLeaf>(
    alloc: Global,
    pool: &ExprPool<A>,
    root: ExprId<A>,
) -> Result<Vec<Value>, FlatError>
    requires pool { IsPool A.reads pool.now }
    requires here { root < size pool.now }
    ensures written { IfOk result (λ v. IsWritten A.kind (array (items_of (map view v.items)))
        (seen_at A.seen pool.now root)) }
    ensures refused { IfErr result (λ e. e ≡ FlatError.Memory) }
{
    match pool.node(root) {
        SymbolicExpr::Leaf(leaf) => leaf_alone(alloc, pool.base(), leaf),
        _ => nodes_alone(alloc, pool, root),
    }
}

/// Writes the list of the expression's nodes: the subtrees of its tree in post-order, each once, at its first place.
pub fn to_flat_value<A: WireLeaf>(
    alloc: Global,
    pool: &ExprPool<A>,
    id: ExprId<A>,
) -> Result<Value, FlatError>
    requires owed { FitsBase A.reads pool.now }
    requires here { id < size pool.now }
    ensures written { IfOk result (λ v. IsWritten A.kind (view v) (seen_at A.seen pool.now id)) }
    ensures refused { IfErr result (λ e. e ≡ FlatError.Memory) }
{
    pool.nodes_fit();
    let items = items_of(alloc, pool, id)?;
    Ok(Value::from(items))
}

// The lists of these expressions. The table has no places.
fn lists_of<A: WireLeaf>(
    alloc: Global,
    pool: &ExprPool<A>,
    ids: &[ExprId<A>],
    mut places: Vec<Option<usize>>,
) -> Result<Vec<Value>, FlatError>
    requires pool { IsPool A.reads pool.now }
    requires here { All (λ i. i < size pool.now) ids.now }
    requires empty { places.items ≡ replicate (size pool.now) None }
    ensures written { IfOk result (λ v. AllZip (IsWritten A.kind) (map view v.items)
        (map (seen_at A.seen pool.now) ids.now)) }
    ensures refused { IfErr result (λ e. e ≡ FlatError.Memory) }
{
    let mut lists = Vec::new(alloc);
    for id in ids {
        let items = nodes_of(alloc, pool, *id, &mut places)?;
        lists.push(Value::from(items))?;
    }
    Ok(lists)
}

/// Writes the lists of several expressions, each as `to_flat_value` does, with one table for all lists: the time grows
/// with the pool and the lists, and not with their product.
pub fn to_flat_values<A: WireLeaf>(
    alloc: Global,
    pool: &ExprPool<A>,
    ids: &[ExprId<A>],
) -> Result<Vec<Value>, FlatError>
    requires owed { FitsBase A.reads pool.now }
    requires here { All (λ i. i < size pool.now) ids.now }
    ensures written { IfOk result (λ v. AllZip (IsWritten A.kind) (map view v.items)
        (map (seen_at A.seen pool.now) ids.now)) }
    ensures refused { IfErr result (λ e. e ≡ FlatError.Memory) }
{
    pool.nodes_fit();
    let places = no_places(alloc, pool.len())?;
    lists_of(alloc, pool, ids, places)
}

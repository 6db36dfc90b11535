//! One node of a list.
ghost use Rattle.std.specs.Prelude.{◌≡◌, ◌<◌, All, filter_map, IfOk, IsOk, Ok};
ghost use Rattle.serde_json.specs.View.{view};
ghost use Rattle.air_symbolic.specs.Pools.{IsPool, size};
ghost use Rattle.air_symbolic.specs.Trees.{both};
ghost use Rattle.air_json.specs.ReadCalls.{AreOf, ReadsNode};
ghost use Rattle.air_json.specs.Results.{as_some};
ghost use Rattle.air_json.specs.Unshared.{seen_at, degree_of};
ghost use Rattle.air_json.specs.Nodes.{operand, check_degree, joined_degree, joined_tree, operands_at, operation_at, leaf_node_at, node_of_value};

use crate::errors::FlatError;
use crate::operations::{Operation, joined_degree, operands_of, operation_named};
use crate::parts::only_member;
use crate::wire_leaf::WireLeaf;
use air_symbolic::{ExprId, ExprPool};
use serde_json::Value;
use std::alloc::Global;

// The expression at an earlier place.
#[tactic(auto, unfolding(crate::specs::Nodes::operand))]
fn operand<A: WireLeaf>(
    pool: &ExprPool<A>,
    ids: &[ExprId<A>],
    place: usize,
) -> Result<ExprId<A>, FlatError>
    requires { All (λ i. i < size pool.now) ids.now }
    ensures here { IfOk result (λ i. i < size pool.now) }
    ensures read { result ≡ operand ids.now place }
{
    match ids.get(place) {
        Some(id) => Ok(*id),
        None => Err(FlatError::Operand {
            at: ids.len(),
            operand: place,
        }),
    }
}

// Fails unless the node at this place states the degree that was found.
fn check_degree(at: usize, degree: usize, found: usize) -> Result<(), FlatError>
    ensures { result ≡ check_degree at degree found tt }
{
    if degree == found {
        Ok(())
    } else {
        Err(FlatError::WrongDegree {
            at,
            stated: degree,
            found,
        })
    }
}

// The degree of an expression, as lists state it.
fn degree_of<A: WireLeaf>(pool: &ExprPool<A>, id: ExprId<A>) -> usize
    requires pool { IsPool A.reads pool.now }
    requires here { id < size pool.now }
    ensures { result ≡ degree_of A.kind.term (seen_at A.seen pool.now id) }
{
    pool.degree_multiple(id)
}

// The operands of an operation; for a negative both are its only operand.
#[tactic(auto, unfolding(crate::specs::Nodes::operands_at))]
fn operands<A: WireLeaf>(
    pool: &ExprPool<A>,
    ids: &[ExprId<A>],
    operation: Operation,
    contents: &Value,
) -> Result<(ExprId<A>, ExprId<A>), FlatError>
    requires { AreOf A.reads pool.now ids.now }
    ensures left { IfOk result (λ p. p.0 < size pool.now) }
    ensures right { IfOk result (λ p. p.1 < size pool.now) }
    ensures fits { IfOk result (λ p. IsOk (joined_degree operation
        (degree_of A.kind.term (seen_at A.seen pool.now p.0))
        (degree_of A.kind.term (seen_at A.seen pool.now p.1)))) }
    ensures read { result ≡ operands_at (λ i. degree_of A.kind.term (seen_at A.seen pool.now i))
        ids.now operation (view contents.now) }
{
    let shape = FlatError::Shape { at: ids.len() };
    let (degree, x, y) = operands_of(operation, contents).ok_or(shape)?;
    let left = operand(pool, ids, x)?;
    let right = operand(pool, ids, y)?;
    let found = joined_degree(operation, degree_of(pool, left), degree_of(pool, right))?;
    check_degree(ids.len(), degree, found)?;
    Ok((left, right))
}

// Makes the operation of two expressions; its degree must fit.
fn insert_operation<A: WireLeaf>(
    pool: &mut ExprPool<A>,
    operation: Operation,
    operands: (ExprId<A>, ExprId<A>),
) -> Result<ExprId<A>, FlatError>
    requires pool { IsPool A.reads pool.old }
    requires left { operands.0 < size pool.old }
    requires right { operands.1 < size pool.old }
    requires fits { IsOk (joined_degree operation
        (degree_of A.kind.term (seen_at A.seen pool.old operands.0))
        (degree_of A.kind.term (seen_at A.seen pool.old operands.1))) }
    ensures { ReadsNode A.grows A.reads (seen_at A.seen) pool.old pool.new result
        (Ok (both (joined_tree operation) (seen_at A.seen pool.old operands.0)
        (seen_at A.seen pool.old operands.1))) }
{
    let (x, y) = operands;
    match operation {
        Operation::Add => Ok(pool.insert_add(x, y)?),
        Operation::Sub => Ok(pool.insert_sub(x, y)?),
        Operation::Mul => match pool.insert_mul(x, y) {
            Ok(id) => Ok(id),
            Err(_) => Err(FlatError::Memory),
        },
        Operation::Neg => Ok(pool.insert_neg(x)?),
    }
}

fn operation_from<A: WireLeaf>(
    pool: &mut ExprPool<A>,
    ids: &[ExprId<A>],
    operation: Operation,
    contents: &Value,
) -> Result<ExprId<A>, FlatError>
    requires { AreOf A.reads pool.old ids.now }
    ensures { ReadsNode A.grows A.reads (seen_at A.seen) pool.old pool.new result
        (as_some (operation_at A.kind (filter_map (seen_at A.seen pool.old) ids.now) operation
        (view contents.now))) }
{
    let operands = operands(pool, ids, operation, contents)?;
    insert_operation(pool, operation, operands)
}

fn leaf_from<A: WireLeaf>(
    alloc: Global,
    pool: &mut ExprPool<A>,
    at: usize,
    contents: &Value,
) -> Result<ExprId<A>, FlatError>
    requires { IsPool A.reads pool.old }
    ensures { ReadsNode A.grows A.reads (seen_at A.seen) pool.old pool.new result
        (as_some (leaf_node_at A.kind at (view contents.now))) }
{
    let leaf = A::leaf_from_value(alloc, at, pool.base_mut(), contents)?;
    Ok(pool.leaf(leaf)?)
}

/// The expression of the node that the value spells, where `ids` are the expressions of the nodes before it.
#[tactic(auto, using(crate::proofs::NumberTrees::trees_length), unfolding(crate::specs::Nodes::node_of_value))]
pub(crate) fn node_from<A: WireLeaf>(
    alloc: Global,
    pool: &mut ExprPool<A>,
    ids: &[ExprId<A>],
    value: &Value,
) -> Result<ExprId<A>, FlatError>
    requires { AreOf A.reads pool.old ids.now }
    ensures { ReadsNode A.grows A.reads (seen_at A.seen) pool.old pool.new result
        (as_some (node_of_value A.kind (filter_map (seen_at A.seen pool.old) ids.now)
        (view value.now))) }
{
    let shape = FlatError::Shape { at: ids.len() };
    let (name, contents) = only_member(value).ok_or(shape)?;
    if name == "Leaf" {
        return leaf_from(alloc, pool, ids.len(), contents);
    }
    let operation = operation_named(name).ok_or(shape)?;
    operation_from(pool, ids, operation, contents)
}

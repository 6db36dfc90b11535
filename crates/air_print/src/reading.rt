//! Which columns and public values an expression reads.
ghost use Rattle.std.specs.Prelude.{◌≡◌, ◌<◌, ◌++◌, ◌∷◌, [], ◌||◌, ℕ, IfOk, OnOk, if◌then◌else◌};
ghost use Rattle.air_symbolic.specs.Pools.{size};
ghost use Rattle.air_print.specs.Reading.{is_in, is_variable, Reads};

use air_field::Field;
use air_symbolic::{BaseLeaf, ExprId, ExprPool, SymbolicExpr, SymbolicExpression};
use std::alloc::{AllocError, Global};
use std::collections::BTreeSet;

// Whether a node is a column, a periodic column or a public value.
fn is_variable<F: Field>(node: SymbolicExpression<F>) -> bool
    ensures { result ≡ is_variable node }
{
    match node {
        SymbolicExpr::Leaf(BaseLeaf::Variable(_)) => true,
        _ => false,
    }
}

// Pushes an expression, if it is such a leaf.
fn push_read<F: Field>(
    numbers: &mut Vec<ExprId<BaseLeaf<F>>>,
    node: SymbolicExpression<F>,
    id: ExprId<BaseLeaf<F>>,
) -> Result<(), AllocError>
    ensures { OnOk result (numbers.new.items ≡ numbers.old.items
        ++ (if is_variable node then id ∷ [] else [])) }
{
    if is_variable(node) {
        numbers.push(id)?;
    }
    Ok(())
}

// Adds expressions to a set.
fn insert_all<F: Field>(
    set: &mut BTreeSet<ExprId<BaseLeaf<F>>>,
    ids: &[ExprId<BaseLeaf<F>>],
) -> Result<(), AllocError>
    ensures { OnOk result ((i : ℕ) →
        is_in set.new.keys i ≡ is_in set.old.keys i || is_in ids.now i) }
{
    for id in ids {
        set.insert(*id)?;
    }
    Ok(())
}

/// The columns, periodic columns and public values that occur in an expression's tree, each once and in the order of
/// the pool.
pub fn reads<F: Field>(
    alloc: Global,
    pool: &ExprPool<BaseLeaf<F>>,
    root: ExprId<BaseLeaf<F>>,
) -> Result<Vec<ExprId<BaseLeaf<F>>>, AllocError>
    requires here { root < size pool.now }
    ensures { IfOk result (λ numbers. Reads pool.now.nodes root numbers.items) }
{
    let mut numbers = Vec::new(alloc);
    let mut waiting = BTreeSet::new(alloc);
    waiting.insert(root)?;
    // The operands of a node are below it, so each expression comes once, and the greatest first.
    while let Some(id) = waiting.pop_last() {
        let node = pool.node(id);
        push_read(&mut numbers, *node, id)?;
        insert_all(&mut waiting, node.operands().as_slice())?;
    }
    numbers.reverse();
    Ok(numbers)
}

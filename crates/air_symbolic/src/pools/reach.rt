//! Which expressions of a pool are reached from some roots.
ghost use Rattle.std.specs.Prelude.{◌≡◌, ◌<◌, ℕ, length, slice_index_or, None, All, Contains, IfOk, IfErr};
ghost use Rattle.air_symbolic.specs.Nodes.{OperandsBelow};
ghost use Rattle.air_symbolic.specs.Pools.{FitsBase, size};
ghost use Rattle.air_symbolic.specs.Reach.{EachOperand, IsOperand, Marked, MarkedMore, Reached};

use crate::leaves::sym_leaf::SymLeaf;
use crate::pools::expr::{ExprId, SymbolicExpr};
use crate::pools::pool::ExprPool;
use air_field::RingError;
use std::alloc::Global;

// A list of `places` marks, all unset.
fn no_marks<A: SymLeaf>(alloc: Global, places: usize) -> Result<Vec<Option<ExprId<A>>>, RingError>
    ensures places { IfOk result (λ marks. length marks.items ≡ places) }
    ensures none { IfOk result (λ marks. (i : ℕ) → slice_index_or marks.items i None ≡ None) }
    ensures refused { IfErr result (λ e. e ≡ RingError.Memory) }
{
    let mut marks = Vec::with_capacity(alloc, places)?;
    for _place in 0..places {
        marks.push(None)?;
    }
    Ok(marks)
}

// Marks an expression: the entry at its number is set to it.
fn mark<A: SymLeaf>(marks: &mut [Option<ExprId<A>>], x: ExprId<A>)
    requires { x < length marks.old }
    ensures more { MarkedMore (λ i. i ≡ x) marks.old marks.new }
    ensures marked { Marked marks.new x }
{
    marks[x.number()] = Some(x);
}

// Marks each expression of the list.
fn mark_all<A: SymLeaf>(marks: &mut [Option<ExprId<A>>], roots: &[ExprId<A>])
    requires { All (λ x. x < length marks.old) roots.now }
    ensures more { MarkedMore (λ i. Contains roots.now i) marks.old marks.new }
    ensures marked { All (λ x. Marked marks.new x) roots.now }
{
    for root in roots {
        mark(marks, *root);
    }
}

// Marks the operands of a node.
fn mark_operands<A: SymLeaf>(marks: &mut [Option<ExprId<A>>], node: &SymbolicExpr<A>)
    requires { OperandsBelow (length marks.old) node.now }
    ensures more { MarkedMore (λ i. IsOperand i node.now) marks.old marks.new }
    ensures marked { EachOperand (λ i. Marked marks.new i) node.now }
{
    mark_all(marks, node.operands().as_slice());
}

// Marks the nodes that the roots reach, in descending order: a node's operands have smaller numbers.
fn mark_reached<A: SymLeaf>(
    marks: &mut [Option<ExprId<A>>],
    pool: &ExprPool<A>,
    roots: &[ExprId<A>],
)
    requires owed { FitsBase A.reads pool.now }
    requires here { All (λ x. x < size pool.now) roots.now }
    requires places { length marks.old ≡ size pool.now }
    requires none { (i : ℕ) → slice_index_or marks.old i None ≡ None }
    ensures { Reached (A.reads pool.now.base) pool.now.nodes roots.now marks.new }
{
    mark_all(marks, roots);
    let mut number = marks.len();
    while number > 0 {
        number -= 1;
        if let Some(x) = marks[number] {
            mark_operands(marks, pool.node(x));
        }
    }
}

/// The expressions that the roots reach, each at the index that is its number.
pub fn reached_nodes<A: SymLeaf>(
    alloc: Global,
    pool: &ExprPool<A>,
    roots: &[ExprId<A>],
) -> Result<Vec<Option<ExprId<A>>>, RingError>
    requires owed { FitsBase A.reads pool.now }
    requires here { All (λ x. x < size pool.now) roots.now }
    ensures marked { IfOk result (λ marks.
        Reached (A.reads pool.now.base) pool.now.nodes roots.now marks.items) }
    ensures refused { IfErr result (λ e. e ≡ RingError.Memory) }
{
    let mut marks = no_marks(alloc, pool.len())?;
    mark_reached(&mut marks, pool, roots);
    Ok(marks)
}

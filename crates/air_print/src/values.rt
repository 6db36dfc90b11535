//! The values of a pool's expressions at a row.
ghost use Rattle.std.specs.Prelude.{◌≡◌, ◌<◌, length, slice_index_or, IfOk};
ghost use Rattle.air_field.specs.Assignment.{row_assignment};
ghost use Rattle.air_symbolic.specs.Nodes.{OperandsBelow};
ghost use Rattle.air_symbolic.specs.Pools.{size};
ghost use Rattle.air_symbolic.specs.Reach.{Marked};
ghost use Rattle.air_print.specs.Rows.{trace_of};
ghost use Rattle.air_print.specs.Values.{number_value, node_value, Known, AreClosed};

use crate::rows::{TraceRows, leaf_value};
use air_field::Field;
use air_symbolic::{BaseLeaf, ExprId, ExprPool, SymbolicExpr, SymbolicExpression};
use std::alloc::{AllocError, Global};

/// The known value of an expression.
pub(crate) fn value<F: Field>(values: &[F], number: usize) -> F
    requires { number < length values.now }
    ensures { result ≡ slice_index_or values.now number F.ring.zero }
{
    values[number]
}

// The value of a node at a row, from the values of its operands.
fn node_value<F: Field>(
    values: &[F],
    node: SymbolicExpression<F>,
    trace: &TraceRows<'_, F>,
    row: usize,
) -> F
    requires operands { OperandsBelow (length values.now) node }
    requires row { row < length trace.now.main.now.rows }
    ensures { result ≡ node_value F.ring (row_assignment F.ring (trace_of trace.now) row)
        (λ i. slice_index_or values.now i F.ring.zero) node }
{
    match node {
        SymbolicExpr::Leaf(leaf) => leaf_value(trace, row, leaf),
        SymbolicExpr::Add { x, y, .. } => value(values, x.number()).add(value(values, y.number())),
        SymbolicExpr::Sub { x, y, .. } => value(values, x.number()).sub(value(values, y.number())),
        SymbolicExpr::Neg { x, .. } => value(values, x.number()).neg(),
        SymbolicExpr::Mul { x, y, .. } => value(values, x.number()).mul(value(values, y.number())),
    }
}

// The value of an expression at a row, if it is marked.
fn marked_value<F: Field>(
    pool: &ExprPool<BaseLeaf<F>>,
    marks: &[Option<ExprId<BaseLeaf<F>>>],
    values: &[F],
    trace: &TraceRows<'_, F>,
    row: usize,
    number: usize,
) -> F
    requires marks { AreClosed pool.now.nodes marks.now }
    requires row { row < length trace.now.main.now.rows }
    requires here { number < length marks.now }
    requires places { length values.now ≡ number }
    requires before { Known F.ring (row_assignment F.ring (trace_of trace.now) row)
        pool.now.nodes marks.now number values.now }
    ensures { Marked marks.now number → result ≡ number_value F.ring
        (row_assignment F.ring (trace_of trace.now) row) pool.now.nodes number }
{
    match marks[number] {
        Some(id) => node_value(values, *pool.node(id), trace, row),
        None => F::ZERO,
    }
}

/// The values of the marked expressions at a row, indexed by id; the values of unmarked ids are unspecified.
pub fn values_at<F: Field>(
    alloc: Global,
    pool: &ExprPool<BaseLeaf<F>>,
    marks: &[Option<ExprId<BaseLeaf<F>>>],
    trace: &TraceRows<'_, F>,
    row: usize,
) -> Result<Vec<F>, AllocError>
    requires marks { AreClosed pool.now.nodes marks.now }
    requires row { row < length trace.now.main.now.rows }
    ensures places { IfOk result (λ values. length values.items ≡ size pool.now) }
    ensures known { IfOk result (λ values. Known F.ring
        (row_assignment F.ring (trace_of trace.now) row) pool.now.nodes marks.now
        (size pool.now) values.items) }
{
    let mut values = Vec::with_capacity(alloc, marks.len())?;
    for number in 0..marks.len() {
        let value = marked_value(pool, marks, &values, trace, row, number);
        values.push(value)?;
    }
    Ok(values)
}

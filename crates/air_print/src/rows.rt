//! The rows of a trace, as leaves read them.
ghost use Rattle.std.specs.Prelude.{◌≡◌, ◌<◌, ◌+◌, ◌%◌, length, map, slice_get, slice_index_or};
ghost use Rattle.air_field.specs.Assignment.{row_or_none, column_value, row_assignment};
ghost use Rattle.air_field.specs.Grid.{table_grid};
ghost use Rattle.air_field.specs.Ring.{self_algebra};
ghost use Rattle.air_field.specs.Value.{value};
ghost use Rattle.air_core.specs.Entries.{entry_leaf};
ghost use Rattle.air_symbolic.specs.BaseLeaves.{base_term};
ghost use Rattle.air_print.specs.Rows.{periodic_at, trace_of};

use air_core::{BaseEntry, Selectors};
use air_field::{Field, RowMajorMatrix, row_after};
use air_symbolic::BaseLeaf;

/// The data that leaves read. Missing entries read as zero.
#[derive(Drop)]
pub struct TraceRows<'a, F: Field> {
    pub main: &'a RowMajorMatrix<F>,
    /// The preprocessed trace, if there is one.
    pub preprocessed: &'a Option<RowMajorMatrix<F>>,
    /// The periodic columns, each the values of one period.
    pub periodic: &'a [Vec<F>],
    pub public_values: &'a [F],
}

/// The entry of a trace at a row and a column.
pub(crate) fn entry_of<F: Field>(table: &RowMajorMatrix<F>, row: usize, column: usize) -> F
    ensures { result ≡ slice_index_or (row_or_none (slice_get table.now.rows row)) column
        F.ring.zero }
{
    match table.get(row, column) {
        Some(entry) => entry,
        None => F::ZERO,
    }
}

// The entry of a trace in the row that is `offset` rows further on; zero if `offset` is past 1.
fn column_of<F: Field>(
    table: &RowMajorMatrix<F>,
    row: usize,
    height: usize,
    offset: usize,
    column: usize,
) -> F
    requires { row < height }
    ensures { result ≡ column_value F.ring.zero (row_or_none (slice_get table.now.rows row))
        (row_or_none (slice_get table.now.rows ((row + 1) % height))) offset column }
{
    match offset {
        0 => entry_of(table, row, column),
        1 => entry_of(table, row_after(row, height), column),
        _ => F::ZERO,
    }
}

// Like `column_of`, for a trace that may be missing.
fn table_column_of<F: Field>(
    table: &Option<RowMajorMatrix<F>>,
    row: usize,
    height: usize,
    offset: usize,
    column: usize,
) -> F
    requires { row < height }
    ensures { result ≡ column_value F.ring.zero
        (row_or_none (slice_get (table_grid table.now).rows row))
        (row_or_none (slice_get (table_grid table.now).rows ((row + 1) % height))) offset column }
{
    match table {
        Some(table) => column_of(table, row, height, offset, column),
        None => F::ZERO,
    }
}

// The value of one periodic column at a row.
fn period_of<F: Field>(column: &[F], row: usize) -> F
    ensures { result ≡ slice_index_or column.now (row % length column.now) F.ring.zero }
{
    if column.is_empty() {
        F::ZERO
    } else {
        column[row % column.len()]
    }
}

// The value of a periodic column at a row.
fn periodic_of<F: Field>(columns: &[Vec<F>], row: usize, index: usize) -> F
    ensures { result ≡ periodic_at F.ring.zero columns.now row index }
{
    if index < columns.len() {
        period_of(&columns[index], row)
    } else {
        F::ZERO
    }
}

/// The public value at an index.
pub(crate) fn public_of<F: Field>(public_values: &[F], index: usize) -> F
    ensures { result ≡ slice_index_or public_values.now index F.ring.zero }
{
    match public_values.get(index) {
        Some(public_value) => *public_value,
        None => F::ZERO,
    }
}

// The value of a variable at a row.
fn variable_value<F: Field>(
    trace: &TraceRows<'_, F>,
    row: usize,
    entry: BaseEntry,
    index: usize,
) -> F
    requires { row < length trace.now.main.now.rows }
    ensures { result ≡ row_assignment F.ring (trace_of trace.now) row (entry_leaf entry index) }
{
    let height = trace.main.height();
    match entry {
        BaseEntry::Main { offset } => column_of(trace.main, row, height, offset, index),
        BaseEntry::Preprocessed { offset } => {
            table_column_of(trace.preprocessed, row, height, offset, index)
        }
        BaseEntry::Periodic => periodic_of(trace.periodic, row, index),
        BaseEntry::Public => public_of(trace.public_values, index),
    }
}

/// The value of a leaf at a row.
pub(crate) fn leaf_value<F: Field>(trace: &TraceRows<'_, F>, row: usize, leaf: BaseLeaf<F>) -> F
    requires { row < length trace.now.main.now.rows }
    ensures { result ≡ value (self_algebra F.ring) (row_assignment F.ring (trace_of trace.now) row)
        (base_term leaf) }
{
    let selectors = Selectors::at(row, trace.main.height());
    match leaf {
        BaseLeaf::Variable(v) => variable_value(trace, row, v.entry, v.index),
        BaseLeaf::IsFirstRow => selectors.is_first_row,
        BaseLeaf::IsLastRow => selectors.is_last_row,
        BaseLeaf::IsTransition => selectors.is_transition,
        BaseLeaf::Constant(c) => c,
    }
}

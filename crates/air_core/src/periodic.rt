//! Periodic columns, row by row.
ghost use Rattle.std.specs.Prelude.{◌≡◌, map, Some, [], OnOk, OnErr, IfErr};
ghost use Rattle.air_core.specs.Periodic.{column_at, HasRows, IsGreatestPeriod, MatchPeriodicMatrix, MatchPeriodicValues, RefusesPeriodicRow};

use crate::errors::AirError;
use air_field::RowMajorMatrix;
use std::alloc::Global;

/// Appends each column's value at the row. Fails at the first empty column.
fn push_row<T: Copy>(values: &mut Vec<T>, columns: &[Vec<T>], row: usize) -> Result<(), AirError>
    ensures rows { OnOk result (HasRows values.old.items columns.now (column_at row)
        values.new.items) }
    ensures refused { IfErr result (RefusesPeriodicRow columns.now) }
{
    for (index, column) in columns.iter().enumerate() {
        if column.is_empty() {
            return Err(AirError::EmptyPeriodicColumn { index });
        }
        values.push(column[row % column.len()])?;
    }
    Ok(())
}

/// The value of each periodic column at the row: its element at `row` modulo its length. Fails with
/// `EmptyPeriodicColumn` for the first empty column, or with `Memory`.
pub fn periodic_row<T: Copy>(
    alloc: Global,
    columns: &[Vec<T>],
    row: usize,
) -> Result<Vec<T>, AirError>
    ensures { MatchPeriodicValues columns.now row result }
{
    let mut values = Vec::with_capacity(alloc, columns.len())?;
    push_row(&mut values, columns, row)?;
    Ok(values)
}

/// Replaces the list's contents by [`periodic_row`], and allocates only if the list has no room for the columns. Fails
/// with `EmptyPeriodicColumn` for the first empty column, or with `Memory`; the list is then empty.
pub fn fill_periodic_row<T: Copy>(
    values: &mut Vec<T>,
    columns: &[Vec<T>],
    row: usize,
) -> Result<(), AirError>
    ensures filled { OnOk result (map Some values.new.items ≡ map (column_at row) columns.now) }
    ensures emptied { OnErr result (values.new.items ≡ []) }
    ensures refused { IfErr result (RefusesPeriodicRow columns.now) }
{
    values.clear();
    let filled = push_row(values, columns, row);
    if filled.is_err() {
        values.clear();
    }
    filled
}

/// The greatest period, 0 if there are no columns.
fn greatest_period<T: Copy>(columns: &[Vec<T>]) -> usize
    ensures { IsGreatestPeriod columns.now result }
{
    let mut greatest = 0;
    for column in columns {
        if column.len() > greatest {
            greatest = column.len();
        }
    }
    greatest
}

/// The periodic columns as a matrix of as many rows as the greatest period; `None` if there are no columns. Fails with
/// `EmptyPeriodicColumn` for the first empty column, but only if another one isn't empty, or with `Memory`.
pub fn periodic_matrix<T: Copy>(
    alloc: Global,
    columns: &[Vec<T>],
) -> Result<Option<RowMajorMatrix<T>>, AirError>
    ensures { MatchPeriodicMatrix columns.now result }
{
    if columns.is_empty() {
        return Ok(None);
    }
    let height = greatest_period(columns);
    let mut values = Vec::new(alloc);
    for row in 0..height {
        push_row(&mut values, columns, row)?;
    }
    match RowMajorMatrix::new(values, columns.len()) {
        Ok(matrix) => Ok(Some(matrix)),
        Err(_) => unreachable!(),
    }
}

//! Boundary values of a whole trace.
ghost use Rattle.std.specs.Prelude.{◌≡◌, ◌+◌, ◌<◌, ◌≤◌, ◌^◌, ◌⊎◌, Some, IfOk, IfErr, OnOk, MatchOption, length};
ghost use Rattle.air_report.specs.Cells.{is_violated, violated_cells, take_within_cap, ListsCells, IsListedPast, cell_label, label_text, CellsFit, IsCellFault, HoldBelow, IsFirstViolated};
ghost use Rattle.air_report.specs.Report.{failure_place};

use crate::checks::check::is_reached;
use crate::debug::failure::ConstraintFailure;
use air_builder::{AirError, BoundaryPublic};
use air_core::boundary::validate;
use air_field::{Field, RowMajorMatrix};
use std::alloc::Global;

/// Checks that the boundary values are cells of the trace, each listed once, that their public values exist, and that
/// the trace has rows for them.
pub(crate) fn check_cells<F: Field>(
    cells: &[BoundaryPublic],
    main: &RowMajorMatrix<F>,
    public_values: &[F],
) -> Result<(), AirError>
    ensures fit { OnOk result (CellsFit main.now public_values.now cells.now) }
    ensures refused { IfErr result (IsCellFault main.now public_values.now cells.now) }
{
    validate(cells, main.width(), public_values.len())?;
    if !cells.is_empty() && main.height() == 0 {
        return Err(AirError::EmptyTrace);
    }
    Ok(())
}

/// Whether the boundary value is violated: its cell doesn't hold the public value.
fn is_violated<F: Field>(
    cell: &BoundaryPublic,
    main: &RowMajorMatrix<F>,
    public_values: &[F],
) -> bool
    requires rows { 0 < length main.now.rows }
    requires column { cell.now.column < main.now.width }
    requires value { cell.now.public_value < length public_values.now }
    ensures { result ≡ is_violated F.ring F.eq main.now public_values.now cell.now }
{
    let row = main.row(cell.row(main.height()));
    !(row[cell.column] == public_values[cell.public_value])
}

/// The index of the first violated boundary value.
pub(crate) fn first_violated<F: Field>(
    cells: &[BoundaryPublic],
    main: &RowMajorMatrix<F>,
    public_values: &[F],
) -> Option<usize>
    requires { CellsFit main.now public_values.now cells.now }
    ensures { MatchOption result (HoldBelow F.ring F.eq main.now public_values.now cells.now
        (length cells.now)) (IsFirstViolated F.ring F.eq main.now public_values.now cells.now) }
{
    for (index, cell) in cells.iter().enumerate() {
        if is_violated(cell, main, public_values) {
            return Some(index);
        }
    }
    None
}

/// The failure of a boundary value. Its constraint index is `count` plus its index in the list; `CountOverflow` means
/// that this exceeds `usize`.
fn cell_failure(
    alloc: Global,
    cell: &BoundaryPublic,
    row: usize,
    count: usize,
    place: usize,
) -> Result<ConstraintFailure, AirError>
    ensures place { IfOk result (λ f. failure_place f ≡ (row, count + place)) }
    ensures label { IfOk result (λ f. label_text f ≡ Some (cell_label cell.now)) }
    ensures refused { IfErr result (λ e. (e ≡ AirError.Memory)
        ⊎ ((e ≡ AirError.CountOverflow) × (2 ^ 64 ≤ count + place))) }
{
    let Some(constraint) = count.checked_add(place) else {
        return Err(AirError::CountOverflow);
    };
    let column = cell.column;
    let value = cell.public_value;
    let label = format!(in alloc;
        "boundary-IO cell in column {column} does not hold public value {value}"
    )?;
    Ok(ConstraintFailure {
        row,
        constraint,
        label: Some(label),
    })
}

/// Adds the failures of the violated boundary values, in order, as many as the cap leaves. `CountOverflow` means
/// that a listed one's constraint index exceeds `usize`.
pub(crate) fn list_cells<F: Field>(
    alloc: Global,
    cells: &[BoundaryPublic],
    main: &RowMajorMatrix<F>,
    public_values: &[F],
    max_failures: Option<usize>,
    count: usize,
    failures: &mut Vec<ConstraintFailure>,
) -> Result<(), AirError>
    requires { CellsFit main.now public_values.now cells.now }
    ensures listed { OnOk result (ListsCells (length main.now.rows) count
        (take_within_cap max_failures (length failures.old.items)
        (violated_cells F.ring F.eq main.now public_values.now cells.now)) failures.old.items
        failures.new.items) }
    ensures refused { IfErr result (λ e. (e ≡ AirError.Memory)
        ⊎ ((e ≡ AirError.CountOverflow) × IsListedPast count
        (take_within_cap max_failures (length failures.old.items)
        (violated_cells F.ring F.eq main.now public_values.now cells.now)))) }
{
    let height = main.height();
    'cells: for (place, cell) in cells.iter().enumerate() {
        if is_reached(max_failures, failures.len()) {
            return Ok(());
        }
        if !is_violated(cell, main, public_values) {
            continue;
        }
        let failure = cell_failure(alloc, cell, cell.row(height), count, place)?;
        failures.push(failure)?;
    }
    Ok(())
}

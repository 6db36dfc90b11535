//! A check of a whole trace.
ghost use Rattle.std.specs.Prelude.{IsTrue, ◌↔◌, ◌≡◌, ◌+◌, ◌%◌, slice_get, ◌<◌, length, IfOk, IfErr, IfSome, OnOk};
ghost use Rattle.std.specs.Option.{option_copied};
ghost use Rattle.air_field.specs.Assignment.{row_or_none};
ghost use Rattle.air_field.specs.Grid.{table_grid};
ghost use Rattle.air_report.specs.Report.{IsReached};
ghost use Rattle.air_report.specs.Instances.{instance};
ghost use Rattle.air_report.specs.RowLabels.{LabelledRow, LabelsChecked, LabelsRows};
ghost use Rattle.air_report.specs.Checks.{CheckRefuses, CheckedRow, CheckedRows, Fits, HasEntries, IsReport, RowRefuses, RowsRefuse};

use crate::checks::cells::{check_cells, list_cells};
use crate::checks::report::ConstraintReport;
use crate::checks::shapes::{check_shapes, table_height};
use crate::debug::builder::DebugConstraintBuilder;
use crate::debug::failure::ConstraintFailure;
use crate::debug::row::Row;
use air_builder::{Air, AirError};
use air_core::{Selectors, fill_periodic_row};
use air_field::{
    ExtensionField, Field, RowMajorMatrix, RowMajorMatrixView, SelfExtension, ViewPair,
};
use std::alloc::Global;

/// The views of a row of the preprocessed trace and of the next one around the end; without a preprocessed trace they
/// have no columns.
#[inline(always)]
pub(crate) fn table_pair<'a, F: Field>(
    table: Option<&'a RowMajorMatrix<F>>,
    row: usize,
) -> ViewPair<'a, F>
    requires { IfSome table (λ t. row < length t.now.rows) }
    ensures top { result.top.values.now ≡ row_or_none
        (slice_get (table_grid (option_copied table.entry)).rows row) }
    ensures bottom { result.bottom.values.now ≡ row_or_none
        (slice_get (table_grid (option_copied table.entry)).rows
        ((row + 1) % length (table_grid (option_copied table.entry)).rows)) }
    ensures width { length result.top.values.now ≡ (table_grid (option_copied table.entry)).width }
{
    match table {
        Some(table) => table.row_pair(row),
        None => {
            let none = RowMajorMatrixView::new_row(&[]);
            ViewPair::new(none, none)
        }
    }
}

/// The outcome of the rows: every failure, and the number of constraints of a row, 0 if no row ran.
#[derive(Drop)]
pub(crate) struct RowOutcome {
    pub(crate) failures: Vec<ConstraintFailure>,
    pub(crate) constraints: usize,
}

/// Ends a check: takes the failures and the last row's counter from the builder.
pub(crate) fn outcome_of<F: Field, EF: ExtensionField<F>>(
    builder: DebugConstraintBuilder<'_, F, EF>,
) -> RowOutcome
    ensures failures { result.failures ≡ builder.entry.failures }
    ensures constraints { result.constraints ≡ builder.entry.constraint_index }
{
    RowOutcome {
        constraints: builder.constraint_index,
        failures: builder.into_failures(),
    }
}

/// Moves the builder to a row and evaluates an AIR there; nonzero constraints are added to its failures. The builder's
/// list of periodic values is refilled, so that a row doesn't allocate one. Also fails with a missing entry or
/// `CountOverflow`.
pub(crate) fn check_row<'a, F: SelfExtension + 'static, A: Air<DebugConstraintBuilder<'a, F, F>>>(
    air: &'a A,
    main: &'a RowMajorMatrix<F>,
    public_values: &'a [F],
    row: usize,
    builder: &mut DebugConstraintBuilder<'a, F, F>,
) -> Result<(), AirError>
    requires within { row < length main.now.rows }
    requires fits { Fits (instance (A.declaration air.now) main.now public_values.now) }
    ensures checked { OnOk result (CheckedRow F.ring F.eq
        (instance (A.declaration air.now) main.now public_values.now) row
        builder.old.failures.items builder.new.failures.items builder.new.constraint_index) }
    ensures there { OnOk result (HasEntries
        (instance (A.declaration air.now) main.now public_values.now)) }
    ensures refused { IfErr result (RowRefuses
        (instance (A.declaration air.now) main.now public_values.now)) }
    ensures labels { OnOk result (LabelledRow (A.labels air.now) row builder.old.failures.items
        builder.new.failures.items) }
{
    fill_periodic_row(&mut builder.periodic_row, air.periodic_columns(), row)?;
    builder.move_to(Row::new(
        row,
        main.row_pair(row),
        table_pair(air.preprocessed_trace(), row),
        public_values,
        Selectors::at(row, main.height()),
    ));
    air.eval(builder)
}

/// Whether this number of failures reaches the cap.
#[inline(always)]
pub(crate) fn is_reached(cap: Option<usize>, failures: usize) -> bool
    ensures { IsTrue result ↔ IsReached cap failures }
{
    match cap {
        Some(cap) => cap <= failures,
        None => false,
    }
}

/// Evaluates an AIR on the rows of a trace while there are fewer failures than the cap; one builder moves from row to
/// row and keeps the failures. If a row runs, also fails with a missing entry or `CountOverflow`.
fn check_rows<'a, F: SelfExtension + 'static, A: Air<DebugConstraintBuilder<'a, F, F>>>(
    alloc: Global,
    air: &'a A,
    main: &'a RowMajorMatrix<F>,
    public_values: &'a [F],
    max_failures: Option<usize>,
) -> Result<RowOutcome, AirError>
    requires { Fits (instance (A.declaration air.now) main.now public_values.now) }
    ensures checked { IfOk result (λ c. CheckedRows F.ring F.eq
        (instance (A.declaration air.now) main.now public_values.now) max_failures
        c.failures.items c.constraints) }
    ensures refused { IfErr result (RowsRefuse max_failures
        (instance (A.declaration air.now) main.now public_values.now)) }
    ensures labels { IfOk result (λ c. LabelsChecked F.ring F.eq
        (instance (A.declaration air.now) main.now public_values.now) max_failures
        (A.labels air.now) c.failures.items c.constraints) }
{
    let mut builder = DebugConstraintBuilder::at_no_row(alloc);
    'rows: for row in 0..main.height() {
        if is_reached(max_failures, builder.failures.len()) {
            return Ok(outcome_of(builder));
        }
        check_row(air, main, public_values, row, &mut builder)?;
    }
    Ok(outcome_of(builder))
}

/// Checks the shapes of the preprocessed trace and of the periodic columns. Then evaluates the AIR on the rows of the
/// trace, each paired with the next one around the end, while there are fewer failures than `max_failures`. Then
/// compares the boundary values with their public values. The report lists each constraint that isn't zero, by row and
/// then by constraint index, and then the violated boundary values, in order, as many as the cap leaves.
///
/// Errors, in this order: the first shape that doesn't fit; if a row runs, a missing entry that a constraint names, or
/// a count past `usize`; the first boundary value that doesn't fit the trace, or boundary values of a trace without
/// rows; a listed boundary value whose constraint index exceeds `usize`. `Memory` occurs only if the shapes fit. The
/// trace's width isn't compared with the AIR's.
pub fn check_all_constraints<
    'a,
    F: SelfExtension + 'static,
    A: Air<DebugConstraintBuilder<'a, F, F>>,
>(
    alloc: Global,
    air: &'a A,
    main: &'a RowMajorMatrix<F>,
    public_values: &'a [F],
    max_failures: Option<usize>,
) -> Result<ConstraintReport, AirError>
    ensures report { IfOk result (IsReport F.ring F.eq
        (instance (A.declaration air.now) main.now public_values.now) max_failures) }
    ensures refused { IfErr result (CheckRefuses F.ring F.eq
        (instance (A.declaration air.now) main.now public_values.now) max_failures) }
    ensures labels { IfOk result (LabelsRows F.ring F.eq
        (instance (A.declaration air.now) main.now public_values.now) max_failures
        (A.labels air.now)) }
{
    let total_rows = main.height();
    check_shapes(
        air.periodic_columns(),
        total_rows,
        table_height(air.preprocessed_trace()),
    )?;
    let checked = check_rows(alloc, air, main, public_values, max_failures)?;
    let cells = air.public_boundary_io();
    check_cells(cells, main, public_values)?;
    let total_constraints_per_row = checked.constraints;
    let mut failures = checked.failures;
    list_cells(
        alloc,
        cells,
        main,
        public_values,
        max_failures,
        total_constraints_per_row,
        &mut failures,
    )?;
    Ok(ConstraintReport {
        failures,
        total_rows,
        total_constraints_per_row,
    })
}

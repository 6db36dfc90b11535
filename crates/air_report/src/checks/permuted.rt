//! A check of a whole trace with its permutation trace.
ghost use Rattle.std.specs.Prelude.{◌≡◌, ◌<◌, length, IfOk, IfErr, OnOk};
ghost use Rattle.air_builder.specs.Refusals.{NoneMissing};
ghost use Rattle.air_report.specs.Instances.{instance};
ghost use Rattle.air_report.specs.ReportBy.{CheckedRowBy, CheckedRowsBy, Fits, RefusesAfterShapesBy, RowRefusesBy, RowsRefuseBy};
ghost use Rattle.air_report.specs.Permuted.{BaseTermsAreBase, HasHeight, IsPermutedReport, IsReportOver, permutation_trace, permuted_zero, PermutedCheckRefuses, PermutedMissing};

use crate::checks::cells::{check_cells, list_cells};
use crate::checks::check::{RowOutcome, is_reached, outcome_of, table_pair};
use crate::checks::permutation::Permutation;
use crate::checks::report::ConstraintReport;
use crate::checks::shapes::{check_permutation_height, check_shapes, table_height};
use crate::debug::builder::DebugConstraintBuilder;
use crate::debug::row::Row;
use air_builder::{Air, AirError};
use air_core::{Selectors, fill_periodic_row};
use air_field::{ExtensionField, Field, RowMajorMatrix};
use std::alloc::Global;

/// Moves the builder to a row of both traces and evaluates an AIR there, as `check_row` does without a permutation
/// trace.
fn check_permuted_row<
    'a,
    F: Field,
    EF: ExtensionField<F> + 'static,
    A: Air<DebugConstraintBuilder<'a, F, EF>>,
>(
    air: &'a A,
    main: &'a RowMajorMatrix<F>,
    public_values: &'a [F],
    permutation: Permutation<'a, EF>,
    row: usize,
    builder: &mut DebugConstraintBuilder<'a, F, EF>,
) -> Result<(), AirError>
    requires within { row < length main.now.rows }
    requires height { HasHeight (instance (A.declaration air.now) main.now public_values.now)
        (permutation_trace permutation) }
    requires fits { Fits (instance (A.declaration air.now) main.now public_values.now) }
    ensures checked { let g = instance (A.declaration air.now) main.now public_values.now in
        OnOk result (CheckedRowBy
        (permuted_zero F.ring EF.over F.eq EF.eq g (permutation_trace permutation.entry))
        g.air.constraints row builder.old.failures.items builder.new.failures.items
        builder.new.constraint_index) }
    ensures there { let g = instance (A.declaration air.now) main.now public_values.now in
        OnOk result (NoneMissing (PermutedMissing g (permutation_trace permutation.entry))
        g.air.constraints) }
    ensures refused { let g = instance (A.declaration air.now) main.now public_values.now in
        IfErr result (RowRefusesBy (PermutedMissing g (permutation_trace permutation.entry)) g) }
{
    fill_periodic_row(&mut builder.periodic_row, air.periodic_columns(), row)?;
    builder.move_to_permuted(
        Row::new(
            row,
            main.row_pair(row),
            table_pair(air.preprocessed_trace(), row),
            public_values,
            Selectors::at(row, main.height()),
        ),
        permutation.trace.row_pair(row),
        permutation.challenges,
        permutation.values,
    );
    air.eval(builder)
}

/// Evaluates an AIR on the rows of both traces, as `check_rows` does without a permutation trace.
fn check_permuted_rows<
    'a,
    F: Field,
    EF: ExtensionField<F> + 'static,
    A: Air<DebugConstraintBuilder<'a, F, EF>>,
>(
    alloc: Global,
    air: &'a A,
    main: &'a RowMajorMatrix<F>,
    public_values: &'a [F],
    permutation: Permutation<'a, EF>,
    max_failures: Option<usize>,
) -> Result<RowOutcome, AirError>
    requires height { HasHeight (instance (A.declaration air.now) main.now public_values.now)
        (permutation_trace permutation) }
    requires fits { Fits (instance (A.declaration air.now) main.now public_values.now) }
    ensures checked { let g = instance (A.declaration air.now) main.now public_values.now in
        let p = permutation_trace permutation.entry in
        IfOk result (λ c. CheckedRowsBy (permuted_zero F.ring EF.over F.eq EF.eq g p)
        (PermutedMissing g p) g max_failures c.failures.items c.constraints) }
    ensures refused { let g = instance (A.declaration air.now) main.now public_values.now in
        IfErr result (RowsRefuseBy (PermutedMissing g (permutation_trace permutation.entry))
        max_failures g) }
{
    let mut builder = DebugConstraintBuilder::at_no_row(alloc);
    'rows: for row in 0..main.height() {
        if is_reached(max_failures, builder.failures.len()) {
            return Ok(outcome_of(builder));
        }
        check_permuted_row(air, main, public_values, permutation, row, &mut builder)?;
    }
    Ok(outcome_of(builder))
}

/// The report of a trace whose shapes and heights fit.
fn permuted_report<
    'a,
    F: Field,
    EF: ExtensionField<F> + 'static,
    A: Air<DebugConstraintBuilder<'a, F, EF>>,
>(
    alloc: Global,
    air: &'a A,
    main: &'a RowMajorMatrix<F>,
    public_values: &'a [F],
    permutation: Permutation<'a, EF>,
    max_failures: Option<usize>,
) -> Result<ConstraintReport, AirError>
    requires height { HasHeight (instance (A.declaration air.now) main.now public_values.now)
        (permutation_trace permutation) }
    requires fits { Fits (instance (A.declaration air.now) main.now public_values.now) }
    ensures report { IfOk result (IsPermutedReport F.ring EF.over F.eq EF.eq
        (instance (A.declaration air.now) main.now public_values.now)
        (permutation_trace permutation.entry) max_failures) }
    ensures refused { let g = instance (A.declaration air.now) main.now public_values.now in
        let p = permutation_trace permutation.entry in
        IfErr result (RefusesAfterShapesBy F.ring F.eq
        (permuted_zero F.ring EF.over F.eq EF.eq g p) (PermutedMissing g p) g max_failures) }
{
    let checked = check_permuted_rows(alloc, air, main, public_values, permutation, max_failures)?;
    let cells = air.public_boundary_io();
    check_cells(cells, main, public_values)?;
    let total_constraints_per_row = checked.constraints;
    let mut failures = checked.failures;
    list_cells(
        alloc,
        cells,
        main,
        public_values,
        max_failures,
        total_constraints_per_row,
        &mut failures,
    )?;
    Ok(ConstraintReport {
        failures,
        total_rows: main.height(),
        total_constraints_per_row,
    })
}

/// Checks a trace as [`check_all_constraints`](crate::check_all_constraints) does, with a permutation trace, its
/// challenges and its exposed values: base constraints are evaluated in `F`, and those over the extension in `EF`.
///
/// Errors: those of `check_all_constraints`, in the same order, and after the shapes `PermutationHeight`, if the
/// permutation trace and the trace differ in height. A matrix of width 0 has no rows, so a trace with rows needs a
/// permutation trace with columns.
pub fn check_all_constraints_with_permutation<
    'a,
    F: Field,
    EF: ExtensionField<F> + 'static,
    A: Air<DebugConstraintBuilder<'a, F, EF>>,
>(
    alloc: Global,
    air: &'a A,
    main: &'a RowMajorMatrix<F>,
    public_values: &'a [F],
    permutation: Permutation<'a, EF>,
    max_failures: Option<usize>,
) -> Result<ConstraintReport, AirError>
    ensures height { OnOk result (HasHeight
        (instance (A.declaration air.now) main.now public_values.now)
        (permutation_trace permutation.entry)) }
    ensures report { IfOk result (IsPermutedReport F.ring EF.over F.eq EF.eq
        (instance (A.declaration air.now) main.now public_values.now)
        (permutation_trace permutation.entry) max_failures) }
    // if base terms are made of base leaves and constants, every term may be evaluated over the extension
    ensures over { BaseTermsAreBase (A.declaration air.now).constraints →
        IfOk result (IsReportOver F.ring EF.over F.eq EF.eq
        (instance (A.declaration air.now) main.now public_values.now)
        (permutation_trace permutation.entry) max_failures) }
    ensures refused { IfErr result (PermutedCheckRefuses F.ring EF.over F.eq EF.eq
        (instance (A.declaration air.now) main.now public_values.now)
        (permutation_trace permutation.entry) max_failures) }
{
    let height = main.height();
    check_shapes(
        air.periodic_columns(),
        height,
        table_height(air.preprocessed_trace()),
    )?;
    check_permutation_height(permutation.trace.height(), height)?;
    permuted_report(alloc, air, main, public_values, permutation, max_failures)
}

//! A row of an AIR with permutation data, checked by itself.
ghost use Rattle.std.specs.Prelude.{◌≡◌, ◌<◌, ◌⊎◌, [], length, IfOk, IfErr};
ghost use Rattle.air_core.specs.declared.errors.AirError.{AirError};
ghost use Rattle.air_report.specs.Debug.{is_zero_at};
ghost use Rattle.air_report.specs.Permuted.{permutation_trace, permuted_row};
ghost use Rattle.air_report.specs.Report.{plain_trace};
ghost use Rattle.air_report.specs.RowLabels.{LabelledRow};
ghost use Rattle.air_report.specs.RowRefusals.{RefusedAtRow};
ghost use Rattle.air_audit.specs.PermutationRows.{FailAtRow};

use air_author::PlainConstraints;
use air_builder::AirError;
use air_core::Selectors;
use air_field::{ExtensionField, Field, RowMajorMatrix, RowMajorMatrixView, ViewPair};
use air_report::{ConstraintFailure, DebugConstraintBuilder, Permutation};
use std::alloc::Global;

/// The constraints of a plain AIR with permutation data that fail at a row of its traces. The next row of the last row
/// is the first one. Base constraints are evaluated in `F`, and those over the extension in `EF`.
///
/// # Errors
///
/// A constraint names an entry that the row lacks (`MissingEntry`, `MissingExtEntry`, `RowOffset`); there are 2^64
/// constraints or more (`CountOverflow`); `Memory`, only if a constraint isn't zero.
pub fn check_row_with_permutation<
    'a,
    F: Field,
    EF: ExtensionField<F> + 'static,
    A: PlainConstraints<DebugConstraintBuilder<'a, F, EF>>,
>(
    alloc: Global,
    air: &A,
    main: &'a RowMajorMatrix<F>,
    public_values: &'a [F],
    permutation: Permutation<'a, EF>,
    row: usize,
) -> Result<Vec<ConstraintFailure>, AirError>
    requires within { row < length main.now.rows }
    requires permutation_within { row < length permutation.trace.now.rows }
    ensures failures { let r = permuted_row F.ring (plain_trace main.now public_values.now)
        (permutation_trace permutation.entry) row in
        IfOk result (λ failures. FailAtRow (is_zero_at F.ring EF.over F.eq EF.eq) r
        (A.plain air.now).0 failures.items) }
    ensures refused { let r = permuted_row F.ring (plain_trace main.now public_values.now)
        (permutation_trace permutation.entry) row in
        IfErr result (λ e. (e ≡ AirError.Memory) ⊎ RefusedAtRow
        (is_zero_at F.ring EF.over F.eq EF.eq) r 0 e (A.plain air.now).0) }
    ensures labels { IfOk result (λ failures. LabelledRow (A.labels air.now) row []
        failures.items) }
{
    let none = RowMajorMatrixView::new_row(&[]);
    let selectors = Selectors::at(row, main.height());
    let mut builder = DebugConstraintBuilder::new_with_permutation(
        alloc,
        row,
        main.row_pair(row),
        ViewPair::new(none, none),
        public_values,
        selectors.is_first_row,
        selectors.is_last_row,
        selectors.is_transition,
        permutation.trace.row_pair(row),
        permutation.challenges,
        permutation.values,
        Vec::new(alloc),
    );
    air.eval(&mut builder)?;
    Ok(builder.into_failures())
}

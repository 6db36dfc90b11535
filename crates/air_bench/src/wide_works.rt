//! Works on the wide AIR. A call that passes an AIR is expensive to prove, since it also passes the promises of each
//! builder's traits. So the AIR is passed only once for each kind of builder, together with the work.

use crate::checks::{check_recorded, count_failures};
use crate::folds::fold_rounds;
use crate::recordings::{infer_rounds, record_rounds, record_rounds_ext};
use crate::traces::wide_trace;
use crate::wide::Wide;
use air_audit::{Air, AirError, AirLayout, BaseAir, ExtensionField, Field, SymbolicAirBuilder};
use air_folder::ConstraintFolder;
use std::alloc::Global;

/// The work on an AIR that is recorded over the base field.
pub enum Work {
    /// Count its constraints.
    Record,
    /// Infer its degree over a number of rows.
    Infer,
    /// Check the recorded constraints, as an AIR, on a number of rows.
    Check,
}

// The count of `rounds` rounds of a work.
fn base_rounds<F: Field + 'static, A: BaseAir<F> + Air<SymbolicAirBuilder<F, F>>>(
    alloc: Global,
    air: &A,
    work: Work,
    rounds: usize,
    rows: usize,
) -> Result<usize, AirError> {
    match work {
        Work::Record => record_rounds::<F, A>(alloc, air, rounds),
        Work::Infer => infer_rounds::<F, A>(alloc, air, rounds, rows),
        Work::Check => check_recorded::<F, A>(alloc, air, rounds, rows),
    }
}

/// The count of `rounds` rounds of a work on the wide AIR.
pub fn wide_rounds<F: Field + 'static>(
    alloc: Global,
    work: Work,
    rounds: usize,
    rows: usize,
) -> Result<usize, AirError> {
    let air = Wide { count: 64 };
    base_rounds::<F, Wide>(alloc, &air, work, rounds, rows)
}

/// The number of failures, summed over `rounds` checks of the wide AIR on `rows` rows.
pub fn check_wide<F: Field + 'static>(
    alloc: Global,
    rounds: usize,
    rows: usize,
) -> Result<usize, AirError> {
    let air = Wide { count: 64 };
    let main = wide_trace::<F>(alloc, rows)?;
    count_failures(alloc, &air, &main, &[], rounds)
}

// The number of constraints, summed over `rounds` folds at the row; or, if the row is empty, over `rounds` recordings
// with the extension.
fn ext_rounds<
    'a,
    F: Field + 'static,
    EF: ExtensionField<F> + 'static,
    A: BaseAir<F> + Air<SymbolicAirBuilder<F, EF>> + Air<ConstraintFolder<'a, F, EF>>,
>(alloc: Global, air: &A, row: &'a [EF], rounds: usize) -> Result<usize, AirError> {
    if row.is_empty() {
        let layout = AirLayout::from_air::<F, A>(air);
        record_rounds_ext::<F, EF, A>(alloc, air, layout, rounds)
    } else {
        fold_rounds::<F, EF, A>(alloc, air, row, rounds)
    }
}

// Likewise for the wide AIR.
fn wide_ext_rounds<F: Field + 'static, EF: ExtensionField<F> + 'static>(
    alloc: Global,
    row: &[EF],
    rounds: usize,
) -> Result<usize, AirError> {
    let air = Wide { count: 64 };
    ext_rounds::<F, EF, Wide>(alloc, &air, row, rounds)
}

/// The number of constraints, summed over `rounds` recordings of the wide AIR with the extension.
pub fn record_wide_ext<F: Field + 'static, EF: ExtensionField<F> + 'static>(
    alloc: Global,
    rounds: usize,
) -> Result<usize, AirError> {
    wide_ext_rounds::<F, EF>(alloc, &[], rounds)
}

// The row for the folds: the numbers from 1.
fn row_to_fold<F: Field, EF: ExtensionField<F>>(alloc: Global) -> Result<Vec<EF>, AirError> {
    let mut row = Vec::with_capacity(alloc, 64)?;
    for j in 1..=64u64 {
        row.push(EF::from_base(F::from_u64(j)))?;
    }
    Ok(row)
}

/// The number of constraints, summed over `rounds` folds of the wide AIR.
pub fn fold_wide<F: Field + 'static, EF: ExtensionField<F> + 'static>(
    alloc: Global,
    rounds: usize,
) -> Result<usize, AirError> {
    let row = row_to_fold::<F, EF>(alloc)?;
    wide_ext_rounds::<F, EF>(alloc, &row, rounds)
}

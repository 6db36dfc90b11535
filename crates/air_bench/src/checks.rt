//! Checks of Fibonacci, of a recorded AIR, and of any AIR on a trace.

use crate::traces::{fibonacci_trace, wide_trace};
use air_audit::{
    Air, AirError, AirLayout, BaseAir, Beside, DebugConstraintBuilder, Field, FlatAir,
    RowMajorMatrix, SymbolicAirBuilder, check_all_constraints, get_symbolic_constraints,
    recorded_air,
};
use example_fibonacci::Fibonacci;
use std::alloc::Global;

/// A cap that no check of a trace reaches, different in each round so that the compiler can't merge the rounds.
fn cap_of(round: usize) -> Option<usize> {
    Some(usize::MAX - round)
}

// The number of failures that a check finds, and the number of constraints in a row.
fn counts_of_check<'a, F: Field + 'static, A: Air<DebugConstraintBuilder<'a, F, F>>>(
    alloc: Global,
    air: &'a A,
    main: &'a RowMajorMatrix<F>,
    public: &'a [F],
    cap: Option<usize>,
) -> Result<(usize, usize), AirError> {
    let report = check_all_constraints(alloc, air, main, public, cap)?;
    Ok((report.failures.len(), report.total_constraints_per_row))
}

// The number of failures and the number of constraints in a row, each summed over `rounds` checks.
fn check_rounds<'a, F: Field + 'static, A: Air<DebugConstraintBuilder<'a, F, F>>>(
    alloc: Global,
    air: &'a A,
    main: &'a RowMajorMatrix<F>,
    public: &'a [F],
    rounds: usize,
) -> Result<(usize, usize), AirError> {
    let mut failures = 0usize;
    let mut constraints = 0usize;
    for round in 0..rounds {
        let (found, in_row) = counts_of_check(alloc, air, main, public, cap_of(round))?;
        failures = failures.wrapping_add(found);
        constraints = constraints.wrapping_add(in_row);
    }
    Ok((failures, constraints))
}

/// The number of failures, summed over `rounds` checks.
pub fn count_failures<'a, F: Field + 'static, A: Air<DebugConstraintBuilder<'a, F, F>>>(
    alloc: Global,
    air: &'a A,
    main: &'a RowMajorMatrix<F>,
    public: &'a [F],
    rounds: usize,
) -> Result<usize, AirError> {
    let (failures, _) = check_rounds(alloc, air, main, public, rounds)?;
    Ok(failures)
}

/// The number of failures plus the number of constraints in a row, summed over `rounds` checks.
pub fn count_checked<'a, F: Field + 'static, A: Air<DebugConstraintBuilder<'a, F, F>>>(
    alloc: Global,
    air: &'a A,
    main: &'a RowMajorMatrix<F>,
    public: &'a [F],
    rounds: usize,
) -> Result<usize, AirError> {
    let (failures, constraints) = check_rounds(alloc, air, main, public, rounds)?;
    Ok(failures.wrapping_add(constraints))
}

/// The number of failures, summed over `rounds` checks of Fibonacci on `rows` rows.
pub fn check_fibonacci<F: Field + 'static>(
    alloc: Global,
    rounds: usize,
    rows: usize,
) -> Result<usize, AirError> {
    let air = Fibonacci::new();
    let (main, public) = fibonacci_trace::<F>(alloc, rows)?;
    count_failures(alloc, &air, &main, &public, rounds)
}

// The AIR of the recorded constraints of an AIR with 64 columns.
fn flat_of<F: Field, A: BaseAir<F> + Air<SymbolicAirBuilder<F, F>>>(
    alloc: Global,
    air: &A,
) -> Result<FlatAir<F>, AirError> {
    let layout = AirLayout::from_air::<F, A>(air);
    let recorded = get_symbolic_constraints::<F, A>(alloc, air, layout)?;
    recorded_air(recorded, Beside::new(alloc, 64, 0))
}

// Checks a recorded AIR on the wide trace, and counts as `count_checked`.
fn check_flat<F: Field + 'static>(
    alloc: Global,
    air: &FlatAir<F>,
    rounds: usize,
    rows: usize,
) -> Result<usize, AirError> {
    let main = wide_trace::<F>(alloc, rows)?;
    count_checked(alloc, air, &main, &[], rounds)
}

/// Records an AIR that the wide trace satisfies, and checks and counts as `check_flat`.
pub fn check_recorded<F: Field + 'static, A: BaseAir<F> + Air<SymbolicAirBuilder<F, F>>>(
    alloc: Global,
    air: &A,
    rounds: usize,
    rows: usize,
) -> Result<usize, AirError> {
    let flat = flat_of::<F, A>(alloc, air)?;
    check_flat(alloc, &flat, rounds, rows)
}

//! Recordings of Fibonacci, and of any AIR.

use air_audit::{
    Air, AirError, AirLayout, BaseAir, ExtensionField, Field, SymbolicAirBuilder,
    get_all_symbolic_constraints, get_max_constraint_degree, get_symbolic_constraints,
};
use example_fibonacci::Fibonacci;
use std::alloc::Global;

/// The number of constraints, summed over `rounds` recordings over the base field.
pub fn record_rounds<F: Field, A: BaseAir<F> + Air<SymbolicAirBuilder<F, F>>>(
    alloc: Global,
    air: &A,
    rounds: usize,
) -> Result<usize, AirError> {
    let mut count = 0usize;
    for _ in 0..rounds {
        let layout = AirLayout::from_air::<F, A>(air);
        let recorded = get_symbolic_constraints::<F, A>(alloc, air, layout)?;
        count = count.wrapping_add(recorded.base.len());
    }
    Ok(count)
}

// The number of base and extension constraints in one recording with the extension.
fn record_ext<F: Field, EF: ExtensionField<F>, A: Air<SymbolicAirBuilder<F, EF>>>(
    alloc: Global,
    air: &A,
    layout: AirLayout,
) -> Result<usize, AirError> {
    let recorded = get_all_symbolic_constraints::<F, EF, A>(alloc, air, layout)?;
    Ok(recorded.base.len().wrapping_add(recorded.ext.len()))
}

/// The number of constraints, summed over `rounds` recordings with the extension.
pub fn record_rounds_ext<F: Field, EF: ExtensionField<F>, A: Air<SymbolicAirBuilder<F, EF>>>(
    alloc: Global,
    air: &A,
    layout: AirLayout,
    rounds: usize,
) -> Result<usize, AirError> {
    let mut count = 0usize;
    for _ in 0..rounds {
        count = count.wrapping_add(record_ext::<F, EF, A>(alloc, air, layout)?);
    }
    Ok(count)
}

/// The inferred degrees, summed over `rounds` recordings.
pub fn infer_rounds<F: Field, A: BaseAir<F> + Air<SymbolicAirBuilder<F, F>>>(
    alloc: Global,
    air: &A,
    rounds: usize,
    rows: usize,
) -> Result<usize, AirError> {
    let mut count = 0usize;
    for _ in 0..rounds {
        let layout = AirLayout::from_air::<F, A>(air);
        let degree = get_max_constraint_degree::<F, A>(alloc, air, layout, rows, 0)?;
        count = count.wrapping_add(degree);
    }
    Ok(count)
}

/// The number of constraints, summed over `rounds` recordings of Fibonacci.
pub fn record_fibonacci<F: Field>(alloc: Global, rounds: usize) -> Result<usize, AirError> {
    let air = Fibonacci::new();
    record_rounds::<F, Fibonacci>(alloc, &air, rounds)
}

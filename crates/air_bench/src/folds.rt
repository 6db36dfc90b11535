//! Folds of an AIR at one row, each with its recording.
ghost use Rattle.std.specs.Prelude.{◌≡◌};
ghost use Rattle.air_folder.specs.FolderRow.{accumulator_of};

use air_audit::{
    Air, AirError, AirLayout, BaseAir, ExtensionField, Field, RowMajorMatrixView,
    SymbolicAirBuilder, ViewPair,
};
use air_folder::{ConstraintFolder, fold_air};
use std::alloc::Global;

// A folder at this row, which is also its next row.
fn folder_at<'a, F: Field + 'static, EF: ExtensionField<F> + 'static>(
    row: &'a [EF],
    alpha: EF,
) -> ConstraintFolder<'a, F, EF>
    ensures { accumulator_of result ≡ EF.over.ring.zero }
{
    let view = RowMajorMatrixView::new_row(row);
    let none = RowMajorMatrixView::new_row(&[]);
    ConstraintFolder::new(
        ViewPair::new(view, view),
        ViewPair::new(none, none),
        None,
        &[],
        &[],
        &[],
        &[],
        EF::one(),
        EF::zero(),
        EF::one(),
        alpha,
    )
}

// The number of constraints in one fold.
fn count_folded<
    'a,
    F: Field + 'static,
    EF: ExtensionField<F> + 'static,
    A: BaseAir<F> + Air<SymbolicAirBuilder<F, EF>> + Air<ConstraintFolder<'a, F, EF>>,
>(alloc: Global, air: &A, row: &'a [EF], alpha: EF) -> Result<usize, AirError> {
    let layout = AirLayout::from_air::<F, A>(air);
    let mut folder: ConstraintFolder<'a, F, EF> = folder_at(row, alpha);
    let folded = fold_air(alloc, air, layout, &mut folder)?;
    Ok(folded.recorded.base.len())
}

/// The number of constraints, summed over `rounds` folds at the row.
pub fn fold_rounds<
    'a,
    F: Field + 'static,
    EF: ExtensionField<F> + 'static,
    A: BaseAir<F> + Air<SymbolicAirBuilder<F, EF>> + Air<ConstraintFolder<'a, F, EF>>,
>(alloc: Global, air: &A, row: &'a [EF], rounds: usize) -> Result<usize, AirError> {
    let alpha = EF::from_base(F::from_u64(7));
    let mut count = 0usize;
    for _ in 0..rounds {
        count = count.wrapping_add(count_folded::<F, EF, A>(alloc, air, row, alpha)?);
    }
    Ok(count)
}

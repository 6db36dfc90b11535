//! Folding an AIR, with its recording.
ghost use Rattle.std.specs.Prelude.{◌≡◌, IfOk, IfErr, OnOk, OnErr};
ghost use Rattle.air_builder.specs.Refusals.{NoneMissing};
ghost use Rattle.air_recording.specs.Layouts.{LayoutSuits};
ghost use Rattle.air_folder.specs.Folder.{FolderMissing};
ghost use Rattle.air_folder.specs.FolderRow.{accumulator_of, folder_row};
ghost use Rattle.air_folder.specs.Folding.{IsFolded, GrewByBeginningOf, FoldingRefuses};

use crate::folder::builder::ConstraintFolder;
use air_audit::{
    Air, AirError, AirLayout, BaseAir, ConstraintLayout, ExtensionField, Field, Recorded,
    SymbolicAirBuilder,
};
use air_recording::symbolic::record::record_with_layout;
use std::alloc::Global;

/// An AIR's constraints, and the fold of their values at one row.
#[derive(Drop)]
pub struct Folded<F: Field, EF: ExtensionField<F>> {
    /// The constraints as expressions.
    pub recorded: Recorded<F, EF>,
    /// The indices of the recorded constraints among all constraints, by kind.
    pub layout: ConstraintLayout,
    /// Horner's fold of the values of all constraints, in order.
    pub accumulator: EF,
}

/// Records an AIR by a layout, and then folds the values of its constraints at the folder's row.
///
/// The accumulator must be zero before. Afterwards it is Horner's fold, by the folder's alpha, of the values that the
/// recorded constraints have at the folder's row, in order. It equals their recombination from the answer of
/// [`decompose_alpha`](ConstraintLayout::decompose_alpha) for the answered layout and the folder's alpha: the sum of
/// each coordinate times its basis element times its constraint's value, plus the sum of each whole power times its
/// constraint's value.
///
/// # Errors
///
/// The errors of the recording, and then those of the folder and of the AIR itself. After an error, the folder has
/// folded only a beginning of the constraints.
pub fn fold_air<
    'a,
    F: Field,
    EF: ExtensionField<F>,
    A: BaseAir<F> + Air<SymbolicAirBuilder<F, EF>> + Air<ConstraintFolder<'a, F, EF>>,
>(
    alloc: Global,
    air: &A,
    layout: AirLayout,
    folder: &mut ConstraintFolder<'a, F, EF>,
) -> Result<Folded<F, EF>, AirError>
    requires from_zero { accumulator_of folder.old ≡ EF.over.ring.zero }
    ensures folded { IfOk result (IsFolded F.ring EF.over EF.basis
        (folder_row folder.old) (A.declaration air.now).constraints) }
    ensures accumulator { IfOk result (λ f. accumulator_of folder.new ≡ f.accumulator) }
    ensures row { folder_row folder.new ≡ folder_row folder.old }
    ensures layout { OnOk result (LayoutSuits layout (A.declaration air.now)) }
    ensures there { OnOk result (NoneMissing (FolderMissing (folder_row folder.old))
        (A.declaration air.now).constraints) }
    ensures beginning { OnErr result (GrewByBeginningOf EF.over folder.old folder.new
        (A.declaration air.now).constraints) }
    ensures refused { IfErr result (FoldingRefuses F.ring EF.over layout (A.declaration air.now)
        (folder_row folder.old)) }
{
    let (recorded, layout) = record_with_layout(alloc, air, layout)?;
    air.eval(folder)?;
    Ok(Folded {
        recorded,
        layout,
        accumulator: folder.accumulator(),
    })
}

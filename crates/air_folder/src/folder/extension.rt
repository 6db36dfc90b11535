//! The folder over the extension, and with permutation data.
ghost use Rattle.std.specs.Prelude.{◌≡◌, ◌≢◌, IfOk, IfErr, IsOk, Err, None};
ghost use Rattle.air_folder.specs.Folder.{PermutationReadsAs, PermutationEnds};
ghost use Rattle.air_folder.specs.laws.Folder.{folder_extension_laws};
ghost use Rattle.air_folder.specs.FolderRow.{folder_row, folder_permutation};

use crate::folder::builder::ConstraintFolder;
use crate::folder::ring::FolderRing;
use air_audit::{
    AirBuilder, AirError, ExtensionBuilder, ExtensionField, Field, PermutationAirBuilder,
    RowWindow, WindowAccess,
};

impl<'a, F: Field, EF: ExtensionField<F>> ExtensionBuilder for ConstraintFolder<'a, F, EF> {
    type EF = EF;

    type ExprEF = EF;

    type VarEF = EF;

    type ExtRing = FolderRing<F, EF>;

    ghost ext_ring_of = { λ b. b.ring };

    ghost with_ext_ring = { λ b r. record b { ring = r } };

    ghost ext_laws = { folder_extension_laws EF.over EF.basis };

    fn ext_ring(&mut self) -> &mut FolderRing<F, EF> {
        &mut self.ring
    }

    fn assert_zero_ext(&mut self, x: EF) -> Result<(), AirError> {
        self.fold_in(x);
        Ok(())
    }
}

impl<'a, F: Field, EF: ExtensionField<F>> PermutationAirBuilder for ConstraintFolder<'a, F, EF> {
    type MP = RowWindow<'a, EF>;

    type RandomVar = EF;

    type PermutationVar = EF;

    /// The window of the permutation trace; `NoPermutation` exactly if the folder was made without one.
    fn permutation(&self) -> Result<RowWindow<'a, EF>, AirError>
        ensures current { IfOk result (λ w. PermutationReadsAs EF.over EF.basis
            (folder_row self.now) 0 (⟦<RowWindow<'a, EF> as WindowAccess<EF>>⟧.current_row w)) }
        ensures next { IfOk result (λ w. PermutationReadsAs EF.over EF.basis
            (folder_row self.now) 1 (⟦<RowWindow<'a, EF> as WindowAccess<EF>>⟧.next_row w)) }
        ensures current_ends { IfOk result (λ w. PermutationEnds (folder_row self.now) 0
            (⟦<RowWindow<'a, EF> as WindowAccess<EF>>⟧.current_row w)) }
        ensures next_ends { IfOk result (λ w. PermutationEnds (folder_row self.now) 1
            (⟦<RowWindow<'a, EF> as WindowAccess<EF>>⟧.next_row w)) }
        ensures answered { folder_permutation self.now ≢ None → IsOk result }
        ensures without { folder_permutation self.now ≡ None → result ≡ Err AirError.NoPermutation }
        ensures refused { IfErr result (λ e.
            (e ≡ AirError.NoPermutation) × (folder_permutation self.now ≡ None)) }
    {
        match &self.permutation {
            Some(pair) => Ok(RowWindow::from_two_rows(pair.top.values, pair.bottom.values)),
            None => Err(AirError::NoPermutation),
        }
    }

    fn permutation_randomness(&self) -> &[EF] {
        self.challenges
    }

    fn permutation_values(&self) -> &[EF] {
        self.permutation_values
    }
}

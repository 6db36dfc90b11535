//! The folder as a builder: an expression is its value, and an assertion multiplies the accumulator by alpha and adds
//! its value.
ghost use Rattle.std.specs.Prelude.{◌≡◌, ⊤};
ghost use Rattle.air_folder.specs.Folder.{folder_reads_as, FolderMissing, FolderRefuses};
ghost use Rattle.air_folder.specs.laws.Folder.{folder_laws};
ghost use Rattle.air_folder.specs.FolderRow.{folder_row, FolderGrew};

use crate::folder::builder::ConstraintFolder;
use crate::folder::ring::FolderRing;
use air_audit::{AirBuilder, AirError, ExtensionField, Field, RowWindow, WindowAccess};

impl<'a, F: Field, EF: ExtensionField<F>> AirBuilder for ConstraintFolder<'a, F, EF> {
    type F = F;

    type Expr = EF;

    type Var = EF;

    type PublicVar = EF;

    type PeriodicVar = EF;

    type PreprocessedWindow = RowWindow<'a, EF>;

    type MainWindow = RowWindow<'a, EF>;

    type Ring = FolderRing<F, EF>;

    ghost ring_of = { λ b. b.ring };

    ghost with_ring = { λ b r. record b { ring = r } };

    ghost reads_as = { λ b. folder_reads_as EF.over EF.basis (folder_row b) };

    ghost ready = { λ _. ⊤ };

    ghost kept = { λ a b. (folder_row b) ≡ (folder_row a) };

    ghost grew = { FolderGrew EF.over };

    ghost missing = { λ b l. FolderMissing (folder_row b) l };

    ghost refuses = { λ b e ts. FolderRefuses (folder_row b) e ts };

    ghost laws = { folder_laws EF.over EF.basis };

    fn ring(&mut self) -> &mut FolderRing<F, EF> {
        &mut self.ring
    }

    fn main(&self) -> Result<RowWindow<'a, EF>, AirError> {
        Ok(self.row.main)
    }

    fn main_variable(&self, offset: usize, column: usize) -> Option<EF> {
        match offset {
            0 => self.row.main.current(column),
            1 => self.row.main.next(column),
            _ => None,
        }
    }

    fn preprocessed(&self) -> &RowWindow<'a, EF> {
        &self.row.preprocessed
    }

    fn public_values(&self) -> &[EF] {
        self.row.public_values
    }

    fn periodic_values(&self) -> &[EF] {
        self.row.periodic
    }

    fn is_first_row(&mut self) -> Result<EF, AirError> {
        Ok(self.row.selectors.is_first_row)
    }

    fn is_last_row(&mut self) -> Result<EF, AirError> {
        Ok(self.row.selectors.is_last_row)
    }

    fn is_transition(&mut self) -> Result<EF, AirError> {
        Ok(self.row.selectors.is_transition)
    }

    fn assert_zero(&mut self, x: EF) -> Result<(), AirError> {
        self.fold_in(x);
        Ok(())
    }
}

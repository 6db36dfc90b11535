//! Folding of values.
ghost use Rattle.std.specs.Prelude.{◌≡◌};
ghost use Rattle.air_folder.specs.FolderRow.{folder_row, StepsBy};

use crate::folder::builder::ConstraintFolder;
use air_audit::{ExtensionField, Field};

impl<'a, F: Field, EF: ExtensionField<F>> ConstraintFolder<'a, F, EF> {
    /// Folds one more value: multiplies the accumulator by alpha, and adds the value.
    pub(crate) fn fold_in(&mut self, value: EF)
        ensures keeps { folder_row self.new ≡ folder_row self.old }
        ensures folded { StepsBy EF.over value self.old self.new }
    {
        self.accumulator = self.accumulator.mul(self.alpha).add(value);
    }
}

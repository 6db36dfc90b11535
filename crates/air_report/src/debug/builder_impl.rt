//! The debug builder as a builder: an expression is its value at the row; an assertion is counted, and is a failure if
//! the value isn't zero.
ghost use Rattle.std.specs.Prelude.{◌≡◌, refl, ⊤, OnOk};
ghost use Rattle.air_builder.specs.Assertion.{Base};
ghost use Rattle.air_builder.specs.Batches.{AssertsOf};
ghost use Rattle.air_report.specs.Debug.{row_reads_as, is_zero_at, GrewAtRow};
ghost use Rattle.air_report.specs.DebugAsserts.{AssertedAtRow, MeansAtRow, LogsNameless};
ghost use Rattle.air_report.specs.laws.Debug.{debug_laws};
ghost use Rattle.air_report.specs.RowRefusals.{RowMissing, RefusedAtRow};
ghost use Rattle.air_report.specs.DebugRow.{debug_row};

use crate::debug::builder::DebugConstraintBuilder;
use air_builder::{AirBuilder, AirError, RowWindow, WindowAccess};
use air_field::{Algebra, ExtensionField, Field, FieldRing};

impl<'a, F: Field, EF: ExtensionField<F> + 'static> AirBuilder
    for DebugConstraintBuilder<'a, F, EF> {
    type F = F;

    type Expr = F;

    type Var = F;

    type PublicVar = F;

    type PeriodicVar = F;

    type PreprocessedWindow = RowWindow<'a, F>;

    type MainWindow = RowWindow<'a, F>;

    type Ring = FieldRing<F>;

    ghost ring_of = { λ b. b.ring };

    ghost with_ring = { λ b r. record b { ring = r } };

    ghost reads_as = { λ b. row_reads_as F.ring EF.over EF.basis (debug_row b) };

    ghost ready = { λ _. ⊤ };

    ghost kept = { λ a b. (debug_row b) ≡ (debug_row a) };

    ghost grew = { λ a b ts. GrewAtRow (is_zero_at F.ring EF.over F.eq EF.eq) (debug_row a) (debug_row b)
        a.constraint_index b.constraint_index a.failures.items b.failures.items ts };

    ghost missing = { λ b l. RowMissing (debug_row b) l };

    ghost refuses = { λ b e ts. RefusedAtRow (is_zero_at F.ring EF.over F.eq EF.eq) (debug_row b)
        b.constraint_index e ts };

    ghost laws = { debug_laws (is_zero_at F.ring EF.over F.eq EF.eq) debug_row
        (λ b. b.constraint_index) (λ b. b.failures.items)
        (row_reads_as F.ring EF.over EF.basis) (λ b. b.ring) (λ b r. record b { ring = r })
        (λ _ _. refl) (λ _ _. refl) (λ _ _. refl) (λ _ _. refl) };

    #[inline(always)]
    fn ring(&mut self) -> &mut FieldRing<F> {
        &mut self.ring
    }

    #[inline(always)]
    fn main(&self) -> Result<RowWindow<'a, F>, AirError> {
        Ok(RowWindow::from_two_rows(self.row.main.top.values, self.row.main.bottom.values))
    }

    #[inline(always)]
    fn main_variable(&self, offset: usize, column: usize) -> Option<F> {
        match offset {
            0 => self.row.main.top.values.get(column).copied(),
            1 => self.row.main.bottom.values.get(column).copied(),
            _ => None,
        }
    }

    #[inline(always)]
    fn preprocessed(&self) -> &RowWindow<'a, F> {
        &self.row.preprocessed
    }

    #[inline(always)]
    fn preprocessed_variable(&self, offset: usize, column: usize) -> Option<F> {
        match offset {
            0 => self.row.preprocessed.current(column),
            1 => self.row.preprocessed.next(column),
            _ => None,
        }
    }

    #[inline(always)]
    fn public_values(&self) -> &[F] {
        self.row.public_values
    }

    #[inline(always)]
    fn periodic_values(&self) -> &[F] {
        self.periodic_row.as_slice()
    }

    #[inline(always)]
    #[tactic(auto, using(crate::specs::laws::Debug::same_at_row))]
    fn is_first_row(&mut self) -> Result<F, AirError> {
        Ok(self.row.selectors.is_first_row)
    }

    #[inline(always)]
    #[tactic(auto, using(crate::specs::laws::Debug::same_at_row))]
    fn is_last_row(&mut self) -> Result<F, AirError> {
        Ok(self.row.selectors.is_last_row)
    }

    #[inline(always)]
    #[tactic(auto, using(crate::specs::laws::Debug::same_at_row))]
    fn is_transition(&mut self) -> Result<F, AirError> {
        Ok(self.row.selectors.is_transition)
    }

    /// Asserts that `x` is zero; if it isn't, the failure has no label.
    #[inline(always)]
    fn assert_zero(&mut self, x: F) -> Result<(), AirError>
        ensures asserted { AssertedAtRow (is_zero_at F.ring EF.over F.eq EF.eq)
            (AssertsOf Base (MeansAtRow F.ring EF.over EF.basis) (λ t. t)) self.old self.new x
            result }
        ensures nameless { OnOk result (LogsNameless (F.eq x F.ring.zero) self.old self.new) }
    {
        self.log(x == F::ZERO, None::<&'static str>)
    }
}

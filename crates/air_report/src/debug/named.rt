//! The debug builder keeps the labels of failures, and has no context.
ghost use Rattle.std.specs.Prelude.{◌≡◌, false, [], ◌∷◌, IfErr, refl};
ghost use Rattle.air_builder.specs.Assertion.{Base};
ghost use Rattle.air_builder.specs.Batches.{Asserts};
ghost use Rattle.air_builder.specs.Labels.{Labels};
ghost use Rattle.air_report.specs.Debug.{is_zero_at};
ghost use Rattle.air_report.specs.DebugLabels.{LogRefuses};
ghost use Rattle.air_report.specs.laws.DebugLabels.{debug_named_laws};
ghost use Rattle.air_report.specs.DebugAsserts.{GrewLabelled};
ghost use Rattle.air_report.specs.DebugRow.{debug_row, count_of};

use crate::debug::builder::DebugConstraintBuilder;
use air_builder::{AirBuilderWithContext, AirError, Name, NamedAirBuilder, View};
use air_field::{ExtensionField, Field};

impl<'a, F: Field, EF: ExtensionField<F> + 'static> NamedAirBuilder
    for DebugConstraintBuilder<'a, F, EF> {
    ghost labelled = { GrewLabelled (is_zero_at F.ring EF.over F.eq EF.eq) };

    ghost named_laws = { debug_named_laws (is_zero_at F.ring EF.over F.eq EF.eq) debug_row
        (λ b. b.constraint_index) (λ b. b.failures.items) };

    #[inline(always)]
    fn assert_zero_named<N: Name>(&mut self, x: F, name: N) -> Result<(), AirError>
        requires can_evaluate { F.eq x F.ring.zero ≡ false → N.can_evaluate name }
        ensures asserted { Asserts ⟦<DebugConstraintBuilder<'a, F, EF> as View>⟧.view Base (λ t. t)
            self.old self.new (x ∷ []) result }
        ensures label { Labels ⟦<DebugConstraintBuilder<'a, F, EF> as View>⟧.view
            (GrewLabelled (is_zero_at F.ring EF.over F.eq EF.eq)) Base (λ t. t)
            (λ i. N.displays name) self.old self.new (x ∷ []) result }
        ensures passes { IfErr result (LogRefuses (count_of self.old) (F.eq x F.ring.zero)) }
    {
        self.log(x == F::ZERO, Some(name))
    }
}

impl<'a, F: Field, EF: ExtensionField<F> + 'static> AirBuilderWithContext
    for DebugConstraintBuilder<'a, F, EF> {
    type EvalContext = ();

    ghost context = { λ _. tt };

    ghost context_kept = { λ _ _ _. refl };

    fn eval_context(&self) -> &() {
        &()
    }
}

//! The debug builder over an extension.
ghost use Rattle.std.specs.Prelude.{◌≡◌, ◌≢◌, false, [], ◌∷◌, OnOk, IfOk, IfErr, IsOk, Err, None, refl};
ghost use Rattle.air_field.specs.Algebra.{closed_value, closed_value_in};
ghost use Rattle.air_field.specs.Term.{IsBase, permutation};
ghost use Rattle.air_builder.specs.Assertion.{Extension};
ghost use Rattle.air_builder.specs.Batches.{Asserts, AssertsOf};
ghost use Rattle.air_builder.specs.Labels.{Labels};
ghost use Rattle.air_builder.specs.Builders.{RowReadsAs};
ghost use Rattle.air_builder.specs.Refusals.{RowEnds};
ghost use Rattle.air_report.specs.Debug.{is_zero_at, row_reads_as};
ghost use Rattle.air_report.specs.DebugLabels.{LogRefuses};
ghost use Rattle.air_report.specs.DebugAsserts.{AssertedAtRow, ExtMeansAtRow, LogsNameless};
ghost use Rattle.air_report.specs.laws.Debug.{debug_extension_laws};
ghost use Rattle.air_report.specs.RowRefusals.{RowMissing};
ghost use Rattle.air_report.specs.DebugRow.{debug_row, count_of, permutation_of};

use crate::debug::builder::DebugConstraintBuilder;
use air_builder::{
    AirBuilder, AirError, ExtensionBuilder, Name, NamedAirBuilder, NamedExtensionBuilder,
    PermutationAirBuilder, RowWindow, ViewOver, WindowAccess,
};
use air_field::{Algebra, ExtFieldRing, ExtensionField, Field};

impl<'a, F: Field, EF: ExtensionField<F> + 'static> ExtensionBuilder
    for DebugConstraintBuilder<'a, F, EF> {
    type EF = EF;

    type ExprEF = EF;

    type VarEF = EF;

    type ExtRing = ExtFieldRing<F, EF>;

    ghost ext_ring_of = { λ b. b.ext_ring };

    ghost with_ext_ring = { λ b r. record b { ext_ring = r } };

    ghost ext_laws = { debug_extension_laws (is_zero_at F.ring EF.over F.eq EF.eq) debug_row
        (λ b. b.constraint_index) (λ b. b.failures.items)
        (row_reads_as F.ring EF.over EF.basis) (λ b. b.ext_ring)
        (λ b r. record b { ext_ring = r }) (λ _ _. refl) (λ _ _. refl) (λ _ _. refl) (λ _ _. refl)
        (λ b. b.ring) (λ x t. IsBase t × (closed_value F.ring t ≡ x)) };

    #[inline(always)]
    fn ext_ring(&mut self) -> &mut ExtFieldRing<F, EF> {
        &mut self.ext_ring
    }

    /// Asserts that `x` is zero; if it isn't, the failure has no label.
    #[inline(always)]
    fn assert_zero_ext(&mut self, x: EF) -> Result<(), AirError>
        ensures asserted { AssertedAtRow (is_zero_at F.ring EF.over F.eq EF.eq)
            (AssertsOf Extension (ExtMeansAtRow F.ring EF.over EF.basis) (λ t. t)) self.old self.new
            x result }
        ensures nameless { OnOk result
            (LogsNameless (EF.eq x EF.over.ring.zero) self.old self.new) }
    {
        self.log(x == EF::zero(), None::<&'static str>)
    }
}

impl<'a, F: Field, EF: ExtensionField<F> + 'static> NamedExtensionBuilder
    for DebugConstraintBuilder<'a, F, EF> {
    #[inline(always)]
    fn assert_zero_ext_named<N: Name>(&mut self, x: EF, name: N) -> Result<(), AirError>
        requires can_evaluate { EF.eq x EF.over.ring.zero ≡ false → N.can_evaluate name }
        ensures asserted { Asserts ⟦<DebugConstraintBuilder<'a, F, EF> as ViewOver>⟧.view Extension
            (λ t. t) self.old self.new (x ∷ []) result }
        ensures label { Labels ⟦<DebugConstraintBuilder<'a, F, EF> as ViewOver>⟧.view
            ⟦<DebugConstraintBuilder<'a, F, EF> as NamedAirBuilder>⟧.labelled Extension (λ t. t)
            (λ i. N.displays name) self.old self.new (x ∷ []) result }
        ensures passes { IfErr result (LogRefuses (count_of self.old)
            (EF.eq x EF.over.ring.zero)) }
    {
        self.log(x == EF::zero(), Some(name))
    }
}

impl<'a, F: Field, EF: ExtensionField<F> + 'static> PermutationAirBuilder
    for DebugConstraintBuilder<'a, F, EF> {
    type MP = RowWindow<'a, EF>;

    type RandomVar = EF;

    type PermutationVar = EF;

    /// The window of the permutation trace. Fails only with `NoPermutation`, exactly if the builder was made without
    /// one.
    #[inline(always)]
    fn permutation(&self) -> Result<RowWindow<'a, EF>, AirError>
        ensures current { IfOk result (λ w. RowReadsAs (λ v t. closed_value_in EF.over t ≡ v)
            (λ i. row_reads_as F.ring EF.over EF.basis (debug_row self.now) (permutation 0 i))
            (⟦<RowWindow<'a, EF> as WindowAccess<EF>>⟧.current_row w)) }
        ensures next { IfOk result (λ w. RowReadsAs (λ v t. closed_value_in EF.over t ≡ v)
            (λ i. row_reads_as F.ring EF.over EF.basis (debug_row self.now) (permutation 1 i))
            (⟦<RowWindow<'a, EF> as WindowAccess<EF>>⟧.next_row w)) }
        ensures current_ends { IfOk result (λ w. RowEnds (RowMissing (debug_row self.now))
            (λ i. permutation 0 i) (⟦<RowWindow<'a, EF> as WindowAccess<EF>>⟧.current_row w)) }
        ensures next_ends { IfOk result (λ w. RowEnds (RowMissing (debug_row self.now))
            (λ i. permutation 1 i) (⟦<RowWindow<'a, EF> as WindowAccess<EF>>⟧.next_row w)) }
        ensures answered { permutation_of self.now ≢ None → IsOk result }
        ensures without { permutation_of self.now ≡ None → result ≡ Err AirError.NoPermutation }
        ensures refused { IfErr result (λ e. (e ≡ AirError.NoPermutation)
            × (permutation_of self.now ≡ None)) }
    {
        match &self.permutation {
            Some(pair) => Ok(RowWindow::from_two_rows(pair.top.values, pair.bottom.values)),
            None => Err(AirError::NoPermutation),
        }
    }

    #[inline(always)]
    fn permutation_randomness(&self) -> &[EF] {
        self.permutation_challenges
    }

    #[inline(always)]
    fn permutation_values(&self) -> &[EF] {
        self.permutation_values
    }
}

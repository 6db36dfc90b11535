//! The folder ignores labels without evaluating them, and has no context.
ghost use Rattle.std.specs.Prelude.{[], ◌∷◌, refl};
ghost use Rattle.air_builder.specs.Assertion.{Base, Extension};
ghost use Rattle.air_builder.specs.Batches.{Asserts};
ghost use Rattle.air_builder.specs.Labels.{Labels, GrewWithoutLabels};
ghost use Rattle.air_builder.specs.laws.NamedFilters.{discarding_laws};
ghost use Rattle.air_folder.specs.laws.Folder.{folder_laws};

use crate::folder::builder::ConstraintFolder;
use air_audit::{
    AirBuilder, AirBuilderWithContext, AirError, ExtensionBuilder, ExtensionField, Field, Name,
    NamedAirBuilder, NamedExtensionBuilder, PassthroughNamedAirBuilder,
};
use air_builder::{View, ViewOver};

impl<'a, F: Field, EF: ExtensionField<F>> PassthroughNamedAirBuilder
    for ConstraintFolder<'a, F, EF> {}

impl<'a, F: Field, EF: ExtensionField<F>> NamedAirBuilder for ConstraintFolder<'a, F, EF> {
    ghost labelled = { GrewWithoutLabels ⟦<ConstraintFolder<'a, F, EF> as AirBuilder>⟧.grew };

    ghost named_laws = { discarding_laws (folder_laws EF.over EF.basis) };

    fn assert_zero_named<N: Name>(&mut self, x: EF, name: N) -> Result<(), AirError>
        ensures asserted { Asserts ⟦<ConstraintFolder<'a, F, EF> as View>⟧.view Base (λ t. t)
            self.old self.new (x ∷ []) result }
        ensures label { Labels ⟦<ConstraintFolder<'a, F, EF> as View>⟧.view
            (GrewWithoutLabels ⟦<ConstraintFolder<'a, F, EF> as AirBuilder>⟧.grew) Base (λ t. t)
            (λ i. N.displays name) self.old self.new (x ∷ []) result }
    {
        self.assert_zero_unlabelled(x, name)
    }
}

impl<'a, F: Field, EF: ExtensionField<F>> NamedExtensionBuilder for ConstraintFolder<'a, F, EF> {
    fn assert_zero_ext_named<N: Name>(&mut self, x: EF, _name: N) -> Result<(), AirError>
        ensures asserted { Asserts ⟦<ConstraintFolder<'a, F, EF> as ViewOver>⟧.view Extension
            (λ t. t) self.old self.new (x ∷ []) result }
        ensures label { Labels ⟦<ConstraintFolder<'a, F, EF> as ViewOver>⟧.view
            (GrewWithoutLabels ⟦<ConstraintFolder<'a, F, EF> as AirBuilder>⟧.grew) Extension
            (λ t. t) (λ i. N.displays _name) self.old self.new (x ∷ []) result }
    {
        self.assert_zero_ext(x)
    }
}

impl<'a, F: Field, EF: ExtensionField<F>> AirBuilderWithContext for ConstraintFolder<'a, F, EF> {
    type EvalContext = ();

    ghost context = { λ _. tt };

    ghost context_kept = { λ _ _ _. refl };

    fn eval_context(&self) -> &() {
        &()
    }
}

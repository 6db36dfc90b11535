//! The symbolic builder discards labels: a name needn't be one that may be evaluated.
ghost use Rattle.std.specs.Prelude.{refl, [], ◌∷◌};
ghost use Rattle.air_symbolic.specs.BaseLeaves.{base_reads};
ghost use Rattle.air_symbolic.specs.ExtLeaves.{ext_reads};
ghost use Rattle.air_symbolic.specs.Pools.{on_base, PoolHas};
ghost use Rattle.air_symbolic.specs.laws.BasePool.{base_pool_laws};
ghost use Rattle.air_symbolic.specs.laws.ExtPool.{ext_pool_laws, base_lent, base_grown};
ghost use Rattle.air_builder.specs.Assertion.{Base, Extension};
ghost use Rattle.air_builder.specs.Batches.{Asserts};
ghost use Rattle.air_builder.specs.Labels.{Labels, GrewWithoutLabels};
ghost use Rattle.air_builder.specs.laws.NamedFilters.{discarding_laws};
ghost use Rattle.air_recording.specs.laws.Recording.{recording_laws};
ghost use Rattle.air_recording.specs.RecordedLists.{lists_of, pool_of};
ghost use Rattle.air_recording.specs.SymbolicParts.{fixed_by};

use crate::symbolic::builder::SymbolicAirBuilder;
use air_builder::{
    AirBuilder, AirError, ExtensionBuilder, Name, NamedAirBuilder, NamedExtensionBuilder,
    PassthroughNamedAirBuilder, View, ViewOver,
};
use air_field::{ExtensionField, Field};
use air_symbolic::{BaseLeaf, ExprId, ExtLeaf};

impl<F: Field, EF: ExtensionField<F>> PassthroughNamedAirBuilder for SymbolicAirBuilder<F, EF> {}

impl<F: Field, EF: ExtensionField<F>> NamedAirBuilder for SymbolicAirBuilder<F, EF> {
    ghost labelled = { GrewWithoutLabels ⟦<SymbolicAirBuilder<F, EF> as AirBuilder>⟧.grew };

    ghost named_laws = { discarding_laws (recording_laws (base_pool_laws F.ring)
        (ext_pool_laws EF.ExtensionField.laws) (λ p. p.base)
        (base_grown EF.basis) (λ b. b.pool)
        (λ b r. record b { pool = on_base b.pool r }) (λ b. fixed_by b.selectors b.entries.base.layout)
        (λ b. lists_of b.constraints) (λ b r g. base_lent EF.ExtensionField.laws b.pool
        r g) (λ _ _. refl) (λ _ _. refl) (λ _ _. refl)) };

    fn assert_zero_named<N: Name>(
        &mut self,
        x: ExprId<BaseLeaf<F>>,
        name: N,
    ) -> Result<(), AirError>
        requires ready { ⟦<SymbolicAirBuilder<F, EF> as AirBuilder>⟧.ready self.old }
        requires of_ring { PoolHas base_reads (pool_of self.old).base x }
        ensures asserted { Asserts ⟦<SymbolicAirBuilder<F, EF> as View>⟧.view Base (λ t. t) self.old
            self.new (x ∷ []) result }
        ensures label { Labels ⟦<SymbolicAirBuilder<F, EF> as View>⟧.view
            (GrewWithoutLabels ⟦<SymbolicAirBuilder<F, EF> as AirBuilder>⟧.grew) Base (λ t. t)
            (λ i. N.displays name) self.old self.new (x ∷ []) result }
    {
        self.assert_zero_unlabelled(x, name)
    }
}

impl<F: Field, EF: ExtensionField<F>> NamedExtensionBuilder for SymbolicAirBuilder<F, EF> {
    fn assert_zero_ext_named<N: Name>(
        &mut self,
        x: ExprId<ExtLeaf<F, EF>>,
        _name: N,
    ) -> Result<(), AirError>
        requires ready { ⟦<SymbolicAirBuilder<F, EF> as AirBuilder>⟧.ready self.old }
        requires of_ring { PoolHas (ext_reads EF.basis) (pool_of self.old) x }
        ensures asserted { Asserts ⟦<SymbolicAirBuilder<F, EF> as ViewOver>⟧.view Extension
            (λ t. t) self.old self.new (x ∷ []) result }
        ensures label { Labels ⟦<SymbolicAirBuilder<F, EF> as ViewOver>⟧.view
            (GrewWithoutLabels ⟦<SymbolicAirBuilder<F, EF> as AirBuilder>⟧.grew) Extension (λ t. t)
            (λ i. N.displays _name) self.old self.new (x ∷ []) result }
    {
        self.assert_zero_ext(x)
    }
}

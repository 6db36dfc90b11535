//! Named builders that discard labels.
ghost use Rattle.std.specs.Prelude.{[], ◌∷◌};
ghost use Rattle.air_builder.specs.Assertion.{Base};
ghost use Rattle.air_builder.specs.Batches.{Asserts};
ghost use Rattle.air_builder.specs.Labels.{Labels, GrewWithoutLabels};

use crate::builders::air_builder::AirBuilder;
use crate::builders::view::View;
use air_core::errors::AirError;
use air_core::names::name::Name;

/// A builder whose named assertions do what the unnamed ones do: no name is evaluated.
///
/// To implement `NamedAirBuilder` for it, take `discarding grew` as the growth under labels, `discarding_laws` as its
/// laws, and `assert_zero_unlabelled` as the assertion.
pub trait PassthroughNamedAirBuilder: AirBuilder {
    /// Asserts that `x` is zero, and discards the name.
    #[inline(always)]
    final fn assert_zero_unlabelled<N: Name>(
        &mut self,
        x: Self::Expr,
        _name: N,
    ) -> Result<(), AirError>
        requires ready { Self.ready self.old }
        requires of_ring { Self.Ring.has (Self.ring_of self.old) x }
        ensures asserted { Asserts ⟦<Self as View>⟧.view Base (λ t. t) self.old self.new (x ∷ [])
            result }
        ensures label { Labels ⟦<Self as View>⟧.view (GrewWithoutLabels Self.grew) Base (λ t. t)
            (λ i. N.displays _name) self.old self.new (x ∷ []) result }
    {
        self.assert_zero(x)
    }
}

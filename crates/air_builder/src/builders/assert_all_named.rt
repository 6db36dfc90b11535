//! Named assertions of arrays.
ghost use Rattle.std.specs.Prelude.{All};
ghost use Rattle.air_field.specs.Algebra.{bool_check_term};
ghost use Rattle.air_builder.specs.Assertion.{Base};
ghost use Rattle.air_builder.specs.Batches.{Asserts};
ghost use Rattle.air_builder.specs.Labels.{Labels};
ghost use Rattle.air_core.specs.Texts.{ElementSays};

use crate::builders::named::NamedAirBuilder;
use crate::builders::view::View;
use air_core::errors::AirError;
use air_core::names::namespace::Namespace;

/// Asserts arrays of `N` elements, in order, the i-th under the name `name::[i]`.
pub trait AssertAllNamed<const N: usize>: NamedAirBuilder {
    /// Asserts that each element is zero.
    #[inline(always)]
    final fn assert_zeros_named<M: Namespace>(
        &mut self,
        elements: [Self::Expr; N],
        name: M,
    ) -> Result<(), AirError>
        requires ready { Self.ready self.old }
        requires of_ring { All (Self.Ring.has (Self.ring_of self.old)) elements }
        requires can_evaluate { M.can_evaluate name }
        ensures asserted { Asserts ⟦<Self as View>⟧.view Base (λ t. t) self.old self.new elements
            result }
        ensures label { Labels ⟦<Self as View>⟧.view Self.labelled Base (λ t. t)
            (ElementSays (M.displays name)) self.old self.new elements result }
    {
        self.assert_zeros_named_slice(&elements, name)
    }

    /// Asserts that each element is zero or one.
    #[inline(always)]
    final fn assert_bools_named<M: Namespace>(
        &mut self,
        elements: [Self::Expr; N],
        name: M,
    ) -> Result<(), AirError>
        requires ready { Self.ready self.old }
        requires of_ring { All (Self.Ring.has (Self.ring_of self.old)) elements }
        requires can_evaluate { M.can_evaluate name }
        ensures asserted { Asserts ⟦<Self as View>⟧.view Base (bool_check_term Self.F.ONE)
            self.old self.new elements result }
        ensures label { Labels ⟦<Self as View>⟧.view Self.labelled Base
            (bool_check_term Self.F.ONE) (ElementSays (M.displays name)) self.old self.new
            elements result }
    {
        self.assert_bools_named_slice(&elements, name)
    }
}

impl<const N: usize, AB: NamedAirBuilder> AssertAllNamed<N> for AB {}

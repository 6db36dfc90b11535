//! Builders that take names for their assertions.
ghost use Rattle.std.specs.Prelude.{List, [], ◌∷◌, All};
ghost use Rattle.air_field.specs.Algebra.{bool_check_term};
ghost use Rattle.air_field.specs.Term.{sub_term};
ghost use Rattle.air_builder.specs.Assertion.{Base};
ghost use Rattle.air_builder.specs.Batches.{Asserts, AssertsBoth};
ghost use Rattle.air_builder.specs.Builders.{less_one_term};
ghost use Rattle.air_builder.specs.Labels.{Labelled, Labels, LabelsBoth, NamedLaws};
ghost use Rattle.air_core.specs.Texts.{ElementSays};

use crate::builders::air_builder::{AirBuilder, less_one};
use crate::builders::view::View;
use air_core::errors::AirError;
use air_core::names::element::Element;
use air_core::names::joined::Joined;
use air_core::names::name::Name;
use air_core::names::namespace::Namespace;
use air_field::Algebra;

/// Receives constraints with names.
///
/// Labels are for people: they change no value, index or error. A builder that keeps labels evaluates a name only if
/// its assertion fails, and keeps a text that the name displays. The name must be one that may be evaluated.
pub trait NamedAirBuilder: AirBuilder {
    /// The builder grew by a list of assertions under labels.
    ghost labelled: { Self → Self → List (Labelled Self.F) → Type 0 };

    /// Asserts that `x` is zero.
    fn assert_zero_named<N: Name>(&mut self, x: Self::Expr, name: N) -> Result<(), AirError>
        requires ready { Self.ready self.old }
        requires of_ring { Self.Ring.has (Self.ring_of self.old) x }
        requires can_evaluate { N.can_evaluate name }
        ensures asserted { Asserts ⟦<Self as View>⟧.view Base (λ t. t) self.old self.new (x ∷ [])
            result }
        ensures label { Labels ⟦<Self as View>⟧.view labelled Base (λ t. t) (λ i. N.displays name)
            self.old self.new (x ∷ []) result };

    /// Asserts that `x` is one.
    #[inline(always)]
    final fn assert_one_named<N: Name>(&mut self, x: Self::Expr, name: N) -> Result<(), AirError>
        requires ready { Self.ready self.old }
        requires of_ring { Self.Ring.has (Self.ring_of self.old) x }
        requires can_evaluate { N.can_evaluate name }
        ensures asserted { Asserts ⟦<Self as View>⟧.view Base (less_one_term Self.F.ONE) self.old
            self.new (x ∷ []) result }
        ensures label { Labels ⟦<Self as View>⟧.view labelled Base (less_one_term Self.F.ONE)
            (λ i. N.displays name) self.old self.new (x ∷ []) result }
    {
        let less = less_one(self.ring(), x)?;
        self.assert_zero_named(less, name)
    }

    /// Asserts that `x` and `y` are equal.
    #[inline(always)]
    final fn assert_eq_named<N: Name>(
        &mut self,
        x: Self::Expr,
        y: Self::Expr,
        name: N,
    ) -> Result<(), AirError>
        requires ready { Self.ready self.old }
        requires x_in { Self.Ring.has (Self.ring_of self.old) x }
        requires y_in { Self.Ring.has (Self.ring_of self.old) y }
        requires can_evaluate { N.can_evaluate name }
        ensures asserted { AssertsBoth ⟦<Self as View>⟧.view Base sub_term self.old self.new
            ((x, y) ∷ []) result }
        ensures label { LabelsBoth ⟦<Self as View>⟧.view labelled Base sub_term
            (λ i. N.displays name) self.old self.new ((x, y) ∷ []) result }
    {
        let z = self.ring().sub(x, y)?;
        self.assert_zero_named(z, name)
    }

    /// Asserts that `x` is zero or one.
    #[inline(always)]
    final fn assert_bool_named<N: Name>(&mut self, x: Self::Expr, name: N) -> Result<(), AirError>
        requires ready { Self.ready self.old }
        requires of_ring { Self.Ring.has (Self.ring_of self.old) x }
        requires can_evaluate { N.can_evaluate name }
        ensures asserted { Asserts ⟦<Self as View>⟧.view Base (bool_check_term Self.F.ONE)
            self.old self.new (x ∷ []) result }
        ensures label { Labels ⟦<Self as View>⟧.view labelled Base (bool_check_term Self.F.ONE)
            (λ i. N.displays name) self.old self.new (x ∷ []) result }
    {
        let check = self.ring().bool_check(x)?;
        self.assert_zero_named(check, name)
    }

    /// Asserts that each element is zero, the i-th under the name `name::[i]`.
    final fn assert_zeros_named_slice<N: Namespace>(
        &mut self,
        elements: &[Self::Expr],
        name: N,
    ) -> Result<(), AirError>
        requires ready { Self.ready self.old }
        requires of_ring { All (Self.Ring.has (Self.ring_of self.old)) elements.now }
        requires can_evaluate { N.can_evaluate name }
        ensures asserted { Asserts ⟦<Self as View>⟧.view Base (λ t. t) self.old self.new
            elements.now result }
        ensures label { Labels ⟦<Self as View>⟧.view labelled Base (λ t. t)
            (ElementSays (N.displays name)) self.old self.new elements.now result }
    {
        for (i, element) in elements.iter().enumerate() {
            self.assert_zero_named(*element, Joined::new(name, Element(i)))?;
        }
        Ok(())
    }

    /// Asserts that each element is zero or one, the i-th under the name `name::[i]`.
    final fn assert_bools_named_slice<N: Namespace>(
        &mut self,
        elements: &[Self::Expr],
        name: N,
    ) -> Result<(), AirError>
        requires ready { Self.ready self.old }
        requires of_ring { All (Self.Ring.has (Self.ring_of self.old)) elements.now }
        requires can_evaluate { N.can_evaluate name }
        ensures asserted { Asserts ⟦<Self as View>⟧.view Base (bool_check_term Self.F.ONE)
            self.old self.new elements.now result }
        ensures label { Labels ⟦<Self as View>⟧.view labelled Base (bool_check_term Self.F.ONE)
            (ElementSays (N.displays name)) self.old self.new elements.now result }
    {
        for (i, element) in elements.iter().enumerate() {
            self.assert_bool_named(*element, Joined::new(name, Element(i)))?;
        }
        Ok(())
    }

    ghost named_laws: { NamedLaws Self.grew labelled };
}

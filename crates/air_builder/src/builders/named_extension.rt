//! Builders that take names for their assertions over an extension.
ghost use Rattle.std.specs.Prelude.{[], ◌∷◌};
ghost use Rattle.air_field.specs.Term.{sub_term};
ghost use Rattle.air_builder.specs.Builders.{less_one_term};
ghost use Rattle.air_builder.specs.Assertion.{Extension};
ghost use Rattle.air_builder.specs.Batches.{Asserts, AssertsBoth};
ghost use Rattle.air_builder.specs.Labels.{Labels, LabelsBoth};

use crate::builders::air_builder::{AirBuilder, less_one};
use crate::builders::extension::ExtensionBuilder;
use crate::builders::extension_filter::under_condition;
use crate::builders::filtered::FilteredAirBuilder;
use crate::builders::named::NamedAirBuilder;
use crate::builders::view::ViewOver;
use air_core::errors::AirError;
use air_core::names::name::Name;
use air_field::Algebra;

/// Receives named constraints over an extension, as `NamedAirBuilder` receives named base constraints.
pub trait NamedExtensionBuilder: ExtensionBuilder + NamedAirBuilder {
    /// Asserts that `x` is zero.
    fn assert_zero_ext_named<N: Name>(&mut self, x: Self::ExprEF, name: N) -> Result<(), AirError>
        requires ready { Self.ready self.old }
        requires of_ring { Self.ExtRing.has (Self.ext_ring_of self.old) x }
        requires can_evaluate { N.can_evaluate name }
        ensures asserted { Asserts ⟦<Self as ViewOver>⟧.view Extension (λ t. t) self.old self.new
            (x ∷ []) result }
        ensures label { Labels ⟦<Self as ViewOver>⟧.view Self.labelled Extension (λ t. t)
            (λ i. N.displays name) self.old self.new (x ∷ []) result };

    /// Asserts that `x` is one.
    #[inline(always)]
    final fn assert_one_ext_named<N: Name>(
        &mut self,
        x: Self::ExprEF,
        name: N,
    ) -> Result<(), AirError>
        requires ready { Self.ready self.old }
        requires of_ring { Self.ExtRing.has (Self.ext_ring_of self.old) x }
        requires can_evaluate { N.can_evaluate name }
        ensures asserted { Asserts ⟦<Self as ViewOver>⟧.view Extension (less_one_term Self.F.ONE)
            self.old self.new (x ∷ []) result }
        ensures label { Labels ⟦<Self as ViewOver>⟧.view Self.labelled Extension
            (less_one_term Self.F.ONE) (λ i. N.displays name) self.old self.new (x ∷ []) result }
    {
        let less = less_one(self.ext_ring(), x)?;
        self.assert_zero_ext_named(less, name)
    }

    /// Asserts that `x` and `y` are equal.
    #[inline(always)]
    final fn assert_eq_ext_named<N: Name>(
        &mut self,
        x: Self::ExprEF,
        y: Self::ExprEF,
        name: N,
    ) -> Result<(), AirError>
        requires ready { Self.ready self.old }
        requires x_in { Self.ExtRing.has (Self.ext_ring_of self.old) x }
        requires y_in { Self.ExtRing.has (Self.ext_ring_of self.old) y }
        requires can_evaluate { N.can_evaluate name }
        ensures asserted { AssertsBoth ⟦<Self as ViewOver>⟧.view Extension sub_term self.old
            self.new ((x, y) ∷ []) result }
        ensures label { LabelsBoth ⟦<Self as ViewOver>⟧.view Self.labelled Extension sub_term
            (λ i. N.displays name) self.old self.new ((x, y) ∷ []) result }
    {
        let z = self.ext_ring().sub(x, y)?;
        self.assert_zero_ext_named(z, name)
    }
}

impl<'a, AB: NamedExtensionBuilder> NamedExtensionBuilder for FilteredAirBuilder<'a, AB> {
    #[inline(always)]
    fn assert_zero_ext_named<N: Name>(&mut self, x: AB::ExprEF, name: N) -> Result<(), AirError> {
        let y = under_condition(self.inner.ext_ring(), self.condition, x)?;
        self.inner.assert_zero_ext_named(y, name)
    }
}

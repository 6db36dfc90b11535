//! Builders that also receive constraints over an extension.
ghost use Rattle.std.specs.Prelude.{◌≡◌, [], ◌∷◌, All};
ghost use Rattle.std.specs.Borrow.{sem, Lends};
ghost use Rattle.air_field.specs.Term.{sub_term};
ghost use Rattle.air_builder.specs.Assertion.{Extension};
ghost use Rattle.air_builder.specs.Batches.{Asserts, AssertsBoth};
ghost use Rattle.air_builder.specs.Builders.{less_one_term};
ghost use Rattle.air_builder.specs.Extensions.{ExtensionRingLaws};

use crate::builders::air_builder::{AirBuilder, less_one};
use crate::builders::view::{View, ViewExt, ViewOver};
use air_core::errors::AirError;
use air_field::{Algebra, ExtAlgebra, ExtensionField, FromVar};

/// Receives base and extension constraints. Both share one counter: the constraint index of a failure, and the power of
/// alpha that weighs a constraint, count both kinds.
pub trait ExtensionBuilder: AirBuilder {
    /// The extension of the trace's field.
    type EF: ExtensionField<Self::F>;

    /// The extension expressions that are asserted: elements of the builder's ring over the extension.
    type ExprEF: Copy;

    /// The entries of the permutation trace.
    type VarEF: Copy;

    /// The ring in which extension expressions are made, over the builder's ring.
    type ExtRing: ExtAlgebra<Self::F, Self::EF, Base = Self::Expr, Elem = Self::ExprEF>
        + FromVar<Self::F, Self::VarEF>;

    /// The ring over the extension, in which this builder's extension expressions are made.
    ghost ext_ring_of: { Self → Self.ExtRing };

    /// The builder with another ring over the extension.
    ghost with_ext_ring: { Self → Self.ExtRing → Self };

    /// The ring over the extension. Its base is the builder's ring. The caller must leave an extension of the lent ring
    /// there.
    fn ext_ring(&mut self) -> &mut Self::ExtRing
        ensures* lends { sem 𝓛 (Lends Self.row Self.ExtRing.row self.entry result
            (with_ext_ring self.old)) }
        ensures value { result.now ≡ ext_ring_of self.old };

    /// Asserts that `x` is zero: growth by its one extension term.
    fn assert_zero_ext(&mut self, x: Self::ExprEF) -> Result<(), AirError>
        requires ready { Self.ready self.old }
        requires of_ring { Self.ExtRing.has (ext_ring_of self.old) x }
        ensures { Asserts ⟦<Self as ViewOver>⟧.view Extension (λ t. t) self.old self.new (x ∷ [])
            result };

    /// Asserts that `x` is one: growth by x - 1.
    #[inline(always)]
    final fn assert_one_ext(&mut self, x: Self::ExprEF) -> Result<(), AirError>
        requires ready { Self.ready self.old }
        requires of_ring { Self.ExtRing.has (ext_ring_of self.old) x }
        ensures { Asserts ⟦<Self as ViewOver>⟧.view Extension (less_one_term Self.F.ONE) self.old
            self.new (x ∷ []) result }
    {
        let less = less_one(self.ext_ring(), x)?;
        self.assert_zero_ext(less)
    }

    /// Asserts that `x` and `y` are equal: growth by x - y.
    #[inline(always)]
    final fn assert_eq_ext(&mut self, x: Self::ExprEF, y: Self::ExprEF) -> Result<(), AirError>
        requires ready { Self.ready self.old }
        requires x_in { Self.ExtRing.has (ext_ring_of self.old) x }
        requires y_in { Self.ExtRing.has (ext_ring_of self.old) y }
        ensures { AssertsBoth ⟦<Self as ViewOver>⟧.view Extension sub_term self.old self.new
            ((x, y) ∷ []) result }
    {
        let z = self.ext_ring().sub(x, y)?;
        self.assert_zero_ext(z)
    }

    /// Asserts that each element is zero, in order.
    final fn assert_zeros_ext_slice(&mut self, elements: &[Self::ExprEF]) -> Result<(), AirError>
        requires ready { Self.ready self.old }
        requires of_ring { All (Self.ExtRing.has (ext_ring_of self.old)) elements.now }
        ensures { Asserts ⟦<Self as ViewOver>⟧.view Extension (λ t. t) self.old self.new
            elements.now result }
    {
        for element in elements {
            self.assert_zero_ext(*element)?;
        }
        Ok(())
    }

    ghost ext_laws: { ExtensionRingLaws ⟦<Self as View>⟧.view ⟦<Self as ViewExt>⟧.over };
}

//! Assertions of arrays over an extension.
ghost use Rattle.std.specs.Prelude.{All};
ghost use Rattle.air_builder.specs.Assertion.{Extension};
ghost use Rattle.air_builder.specs.Batches.{Asserts};

use crate::builders::extension::ExtensionBuilder;
use crate::builders::view::ViewOver;
use air_core::errors::AirError;

/// Asserts arrays of `N` elements over the extension, in order: growth by one term for each element.
pub trait AssertAllExt<const N: usize>: ExtensionBuilder {
    /// Asserts that each element is zero.
    #[inline(always)]
    final fn assert_zeros_ext(&mut self, elements: [Self::ExprEF; N]) -> Result<(), AirError>
        requires ready { Self.ready self.old }
        requires of_ring { All (Self.ExtRing.has (Self.ext_ring_of self.old)) elements }
        ensures { Asserts ⟦<Self as ViewOver>⟧.view Extension (λ t. t) self.old self.new elements
            result }
    {
        self.assert_zeros_ext_slice(&elements)
    }
}

impl<const N: usize, AB: ExtensionBuilder> AssertAllExt<N> for AB {}

//! Assertions of arrays.
ghost use Rattle.std.specs.Prelude.{All};
ghost use Rattle.std.specs.List.{zip};
ghost use Rattle.air_field.specs.Algebra.{bool_check_term};
ghost use Rattle.air_field.specs.Term.{sub_term};
ghost use Rattle.air_builder.specs.Assertion.{Base};
ghost use Rattle.air_builder.specs.Batches.{Asserts, AssertsBoth};

use crate::builders::air_builder::AirBuilder;
use crate::builders::view::View;
use air_core::errors::AirError;

/// Asserts arrays of `N` elements, in order: growth by one term for each element.
pub trait AssertAll<const N: usize>: AirBuilder {
    /// Asserts that each element is zero.
    #[inline(always)]
    final fn assert_zeros(&mut self, elements: [Self::Expr; N]) -> Result<(), AirError>
        requires ready { Self.ready self.old }
        requires of_ring { All (Self.Ring.has (Self.ring_of self.old)) elements }
        ensures { Asserts ⟦<Self as View>⟧.view Base (λ t. t) self.old self.new elements result }
    {
        self.assert_zeros_slice(&elements)
    }

    /// Asserts that each element is zero or one.
    #[inline(always)]
    final fn assert_bools(&mut self, elements: [Self::Expr; N]) -> Result<(), AirError>
        requires ready { Self.ready self.old }
        requires of_ring { All (Self.Ring.has (Self.ring_of self.old)) elements }
        ensures { Asserts ⟦<Self as View>⟧.view Base (bool_check_term Self.F.ONE) self.old
            self.new elements result }
    {
        self.assert_bools_slice(&elements)
    }

    /// Asserts that the elements at each index are equal.
    #[inline(always)]
    final fn assert_eq_arrays(
        &mut self,
        left: [Self::Expr; N],
        right: [Self::Expr; N],
    ) -> Result<(), AirError>
        requires ready { Self.ready self.old }
        requires left_in { All (Self.Ring.has (Self.ring_of self.old)) left }
        requires right_in { All (Self.Ring.has (Self.ring_of self.old)) right }
        ensures { AssertsBoth ⟦<Self as View>⟧.view Base sub_term self.old self.new
            (zip left right) result }
    {
        self.assert_eq_slices(&left, &right)
    }
}

impl<const N: usize, AB: AirBuilder> AssertAll<N> for AB {}

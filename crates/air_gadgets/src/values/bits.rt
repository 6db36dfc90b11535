//! Columns of bits.
ghost use Rattle.std.specs.Prelude.{◌≡◌, ◌+◌, ◌^◌, ◌<◌};
ghost use Rattle.air_field.specs.Algebra.{bool_check_term};
ghost use Rattle.air_builder.specs.Notation.{is_zero};
ghost use Rattle.air_gadgets.specs.BitTerms.{columns_from, packed_bits, bits_asserts, has_bits};

use crate::values::packed::{Packed, Series};
use air_author::{
    AirResult, All, Boolean, Condition, Constraint, Current, Equal, Expression, Family,
};
use air_builder::AirBuilder;

/// `count` columns of this row, from column `first` on.
#[derive(Clone, Copy, Drop)]
pub struct Columns {
    pub first: usize,
    pub count: usize,
    pub ghost fits: { first + count < 2 ^ 64 },
}

impl Columns {
    /// `count` columns of this row, from column `first` on.
    pub const fn new(first: usize, count: usize) -> Self
        requires { first + count < 2 ^ 64 }
        ensures from { result.first ≡ first }
        ensures many { result.count ≡ count }
    {
        Columns { first, count }
    }
}

impl<AB: AirBuilder> Series<AB> for Columns {
    ghost count = { λ s. s.count };

    ghost term_at = { λ s i. columns_from s.first i };

    fn count(&self) -> usize {
        self.count
    }

    #[inline(always)]
    fn make_at(&self, index: usize, builder: &mut AB) -> AirResult<AB::Expr> {
        Current(self.first + index).make(builder)
    }
}

/// The sum of 2^i x_i of the columns; zero for no column.
#[derive(Clone, Copy, Drop)]
pub struct PackedBits(pub Columns);

impl<AB: AirBuilder> Expression<AB> for PackedBits {
    ghost term = { λ s. packed_bits AB.F.ring s.0.first s.0.count };

    #[tactic(auto, unfolding(crate::specs::BitTerms::packed_bits))]
    fn make(&self, builder: &mut AB) -> AirResult<AB::Expr> {
        Packed(self.0).make(builder)
    }
}

/// Each column is zero or one.
#[derive(Clone, Copy, Drop)]
pub struct Bits(pub Columns);

impl<AB: AirBuilder> Family<AB> for Bits {
    ghost size = { λ s. s.0.count };

    ghost asserts_at = { λ s i f _.
        is_zero (f (bool_check_term AB.F.ring.one (columns_from s.0.first i))) };

    fn size(&self) -> usize {
        self.0.count
    }

    #[inline(always)]
    fn assert_at<K: Condition<AB>>(
        &self,
        index: usize,
        builder: &mut AB,
        condition: &K,
    ) -> AirResult {
        Boolean(Current(self.0.first + index)).assert_under(builder, condition)
    }
}

impl<AB: AirBuilder> Constraint<AB> for Bits {
    ghost asserts = { λ s f _. bits_asserts AB.F.ring s.0.first s.0.count f };

    #[tactic(auto, unfolding(crate::specs::BitTerms::bits_asserts))]
    fn assert_under<K: Condition<AB>>(&self, builder: &mut AB, condition: &K) -> AirResult {
        All(*self).assert_under(builder, condition)
    }
}

/// Each column is zero or one, and the expression is the number with these bits, the lowest first.
#[derive(Clone, Copy, Drop)]
pub struct HasBits<X>(pub X, pub Columns);

impl<AB: AirBuilder, X: Expression<AB>> Constraint<AB> for HasBits<X> {
    ghost asserts = { λ s f _.
        has_bits AB.F.ring (X.term s.0) s.1.first s.1.count f };

    ghost usable = { λ s b. X.usable s.0 b };

    fn assert_under<K: Condition<AB>>(&self, builder: &mut AB, condition: &K) -> AirResult {
        (Bits(self.1), Equal(&self.0, PackedBits(self.1))).assert_under(builder, condition)
    }
}

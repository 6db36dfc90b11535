//! Words of the row as expressions, by their limbs or their bits, and assertions about single words.
ghost use Rattle.std.specs.Prelude.{◌+◌};
ghost use Rattle.air_field.specs.Algebra.{xor_term};
ghost use Rattle.air_builder.specs.Notation.{◌⊖◌, is_zero};
ghost use Rattle.air_gadgets.specs.Gadgets.{add2_asserts, add3_asserts, test_asserts};
ghost use Rattle.air_blake3.specs.Row.{constant_limbs, limbs_are};
ghost use Rattle.air_blake3.specs.Words.{bits_at, column, limbs_at, packed_limbs, map_terms};

use air_author::{
    AirResult, Condition, Constraint, Current, Equal, Expression, Family, Number, Xor,
};
use air_builder::AirBuilder;
use air_gadgets::{Add2, Add3, Bits, Columns, Packed, Series, Word};

/// Sixteen of the 32 columns of a word in bits: those of its lower or of its upper limb.
#[derive(Clone, Copy, Drop)]
pub(crate) struct Half {
    first: u32,
    from: u8,
}

impl<AB: AirBuilder> Series<AB> for Half {
    ghost count = { λ _. 16 };

    ghost term_at = { λ s i. column s.first (s.from + i) };

    fn count(&self) -> usize {
        16
    }

    #[inline(always)]
    fn make_at(&self, index: usize, builder: &mut AB) -> AirResult<AB::Expr> {
        Current(self.first as usize + (self.from as usize + index)).make(builder)
    }
}

/// The 32 columns from this one on are bits.
#[derive(Clone, Copy, Drop)]
pub(crate) struct AreBits(pub(crate) u32);

impl<AB: AirBuilder> Constraint<AB> for AreBits {
    ghost asserts = { λ s f _. map_terms f (test_asserts AB.F.ring (bits_at s.0)) };

    #[tactic(auto, unfolding(crate::specs::Words::bits_at, air_gadgets::specs::BitTerms::bits_asserts))]
    fn assert_under<K: Condition<AB>>(&self, builder: &mut AB, condition: &K) -> AirResult {
        let columns = Columns {
            first: self.0 as usize,
            count: 32,
        };
        Bits(columns).assert_under(builder, condition)
    }
}

/// The word in the limbs `sum` is the sum of the word in `limbs` and a word in bits.
#[derive(Clone, Copy, Drop)]
pub(crate) struct AddTwo {
    pub(crate) sum: u32,
    pub(crate) limbs: u32,
    pub(crate) bits: u32,
}

impl<AB: AirBuilder> Constraint<AB> for AddTwo {
    ghost asserts = { λ s f _. map_terms f (add2_asserts AB.F.ring
        (limbs_at s.sum) (limbs_at s.limbs) (packed_limbs AB.F.ring (bits_at s.bits))) };

    #[tactic(auto, unfolding(crate::specs::Words::bits_at, crate::specs::Words::limbs_at))]
    fn assert_under<K: Condition<AB>>(&self, builder: &mut AB, condition: &K) -> AirResult {
        let (sum, limbs) = (self.sum as usize, self.limbs as usize);
        let low = Half {
            first: self.bits,
            from: 0,
        };
        let high = Half {
            first: self.bits,
            from: 16,
        };
        let add = Add2 {
            a: Word(Current(sum + 0), Current(sum + 1)),
            b: Word(Current(limbs + 0), Current(limbs + 1)),
            c: Word(Packed(low), Packed(high)),
        };
        add.assert_under(builder, condition)
    }
}

/// The word in the limbs `sum` is the sum of the word in `limbs` and two words in bits.
#[derive(Clone, Copy, Drop)]
pub(crate) struct AddThree {
    pub(crate) sum: u32,
    pub(crate) limbs: u32,
    pub(crate) bits: u32,
    pub(crate) more: u32,
}

impl<AB: AirBuilder> Constraint<AB> for AddThree {
    ghost asserts = { λ s f _. map_terms f (add3_asserts AB.F.ring
        (limbs_at s.sum) (limbs_at s.limbs)
        (packed_limbs AB.F.ring (bits_at s.bits)) (packed_limbs AB.F.ring (bits_at s.more))) };

    #[tactic(auto, unfolding(crate::specs::Words::bits_at, crate::specs::Words::limbs_at))]
    fn assert_under<K: Condition<AB>>(&self, builder: &mut AB, condition: &K) -> AirResult {
        let (sum, limbs) = (self.sum as usize, self.limbs as usize);
        let (bits, more) = (self.bits, self.more);
        let low = Packed(Half {
            first: bits,
            from: 0,
        });
        let high = Packed(Half {
            first: bits,
            from: 16,
        });
        let more_low = Packed(Half {
            first: more,
            from: 0,
        });
        let more_high = Packed(Half {
            first: more,
            from: 16,
        });
        let add = Add3 {
            a: Word(Current(sum + 0), Current(sum + 1)),
            b: Word(Current(limbs + 0), Current(limbs + 1)),
            c: Word(low, high),
            d: Word(more_low, more_high),
        };
        add.assert_under(builder, condition)
    }
}

/// The limbs are those of a word in bits.
#[derive(Clone, Copy, Drop)]
pub(crate) struct LimbsOf(pub(crate) u32, pub(crate) u32);

impl<AB: AirBuilder> Constraint<AB> for LimbsOf {
    ghost asserts = { λ s f _. map_terms f (limbs_are (limbs_at s.0)
        (packed_limbs AB.F.ring (bits_at s.1))) };

    #[tactic(auto, unfolding(crate::specs::Words::bits_at, crate::specs::Words::limbs_at))]
    fn assert_under<K: Condition<AB>>(&self, builder: &mut AB, condition: &K) -> AirResult {
        let low = Packed(Half {
            first: self.1,
            from: 0,
        });
        let high = Packed(Half {
            first: self.1,
            from: 16,
        });
        let first = self.0 as usize;
        (
            Equal(Current(first + 0), low),
            Equal(Current(first + 1), high),
        )
            .assert_under(builder, condition)
    }
}

/// The limbs are those of a constant.
#[derive(Clone, Copy, Drop)]
pub(crate) struct LimbsOfConstant(pub(crate) u32, pub(crate) u32);

impl<AB: AirBuilder> Constraint<AB> for LimbsOfConstant {
    ghost asserts = { λ s f _. map_terms f (limbs_are (limbs_at s.0)
        (constant_limbs AB.F.ring s.1)) };

    #[tactic(auto, unfolding(crate::specs::Words::limbs_at))]
    fn assert_under<K: Condition<AB>>(&self, builder: &mut AB, condition: &K) -> AirResult {
        let first = self.0 as usize;
        let low = Equal(Current(first + 0), Number((self.1 % 65536) as u64));
        let high = Equal(Current(first + 1), Number((self.1 / 65536) as u64));
        (low, high).assert_under(builder, condition)
    }
}

/// Each of the last 32 columns is the xor of the two columns at the same index.
#[derive(Clone, Copy, Drop)]
pub(crate) struct BitXors(pub(crate) u32, pub(crate) u32, pub(crate) u32);

impl<AB: AirBuilder> Family<AB> for BitXors {
    ghost size = { λ _. 32 };

    ghost asserts_at = { λ s i f _. is_zero (f (column s.2 i ⊖
        xor_term (column s.0 i) (column s.1 i))) };

    fn size(&self) -> usize {
        32
    }

    fn assert_at<K: Condition<AB>>(
        &self,
        index: usize,
        builder: &mut AB,
        condition: &K,
    ) -> AirResult {
        let x = Current(self.0 as usize + index);
        let y = Current(self.1 as usize + index);
        let z = Current(self.2 as usize + index);
        Equal(z, Xor(x, y)).assert_under(builder, condition)
    }
}

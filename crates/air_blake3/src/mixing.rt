//! G, the mixing of four words. Each number is the first column of a word.
ghost use Rattle.air_blake3.specs.Words.{bits_at, quarter_of, map_terms};
ghost use Rattle.air_blake3.specs.Mixing.{half_mix_asserts, mix_asserts};

use crate::words::{AddThree, AddTwo};
use air_author::{AirResult, Condition, Constraint, Current};
use air_builder::AirBuilder;
use air_gadgets::{Rotated, Word, Xor32Shift};
use blake3::Quarter;

/// The words `after` are the first half of G on the words `before`, with a word of the message.
#[derive(Clone, Copy, Drop)]
struct FirstHalf {
    before: Quarter,
    message: u32,
    after: Quarter,
}

impl<AB: AirBuilder> Constraint<AB> for FirstHalf {
    ghost asserts = { λ s f _. map_terms f (half_mix_asserts AB.F.ring 16 12 (quarter_of s.before)
        (bits_at s.message) (quarter_of s.after)) };

    #[tactic(auto, unfolding(crate::specs::Words::bits_at, crate::specs::Words::limbs_at, air_gadgets::specs::BitTerms::bits_asserts))]
    fn assert_under<K: Condition<AB>>(&self, builder: &mut AB, condition: &K) -> AirResult {
        let (before, after) = (self.before, self.after);
        let sum = AddThree {
            sum: after.a,
            limbs: before.a,
            bits: before.b,
            more: self.message,
        };
        let words = Rotated {
            b: before.d as usize,
            c: after.d as usize,
            shift: 16,
        };
        let next_sum = AddTwo {
            sum: after.c,
            limbs: before.c,
            bits: after.d,
        };
        let next_words = Rotated {
            b: before.b as usize,
            c: after.b as usize,
            shift: 12,
        };
        let (a, c) = (after.a as usize, after.c as usize);
        let xor = Xor32Shift(Word(Current(a + 0), Current(a + 1)), words);
        let next_xor = Xor32Shift(Word(Current(c + 0), Current(c + 1)), next_words);
        (sum, xor, next_sum, next_xor).assert_under(builder, condition)
    }
}

/// The words `after` are the second half of G on the words `before`, with a word of the message.
#[derive(Clone, Copy, Drop)]
struct SecondHalf {
    before: Quarter,
    message: u32,
    after: Quarter,
}

impl<AB: AirBuilder> Constraint<AB> for SecondHalf {
    ghost asserts = { λ s f _. map_terms f (half_mix_asserts AB.F.ring 8 7 (quarter_of s.before)
        (bits_at s.message) (quarter_of s.after)) };

    #[tactic(auto, unfolding(crate::specs::Words::bits_at, crate::specs::Words::limbs_at, air_gadgets::specs::BitTerms::bits_asserts))]
    fn assert_under<K: Condition<AB>>(&self, builder: &mut AB, condition: &K) -> AirResult {
        let (before, after) = (self.before, self.after);
        let sum = AddThree {
            sum: after.a,
            limbs: before.a,
            bits: before.b,
            more: self.message,
        };
        let words = Rotated {
            b: before.d as usize,
            c: after.d as usize,
            shift: 8,
        };
        let next_sum = AddTwo {
            sum: after.c,
            limbs: before.c,
            bits: after.d,
        };
        let next_words = Rotated {
            b: before.b as usize,
            c: after.b as usize,
            shift: 7,
        };
        let (a, c) = (after.a as usize, after.c as usize);
        let xor = Xor32Shift(Word(Current(a + 0), Current(a + 1)), words);
        let next_xor = Xor32Shift(Word(Current(c + 0), Current(c + 1)), next_words);
        (sum, xor, next_sum, next_xor).assert_under(builder, condition)
    }
}

/// The words `after` are G on the words `before`, with the words `middle` in between and two words of the message.
#[derive(Clone, Copy, Drop)]
pub(crate) struct Mix {
    pub(crate) before: Quarter,
    pub(crate) first: u32,
    pub(crate) second: u32,
    pub(crate) middle: Quarter,
    pub(crate) after: Quarter,
}

impl<AB: AirBuilder> Constraint<AB> for Mix {
    ghost asserts = { λ s f _. mix_asserts AB.F.ring f (quarter_of s.before) (bits_at s.first)
        (bits_at s.second) (quarter_of s.middle) (quarter_of s.after) };

    #[tactic(auto, unfolding(crate::specs::Mixing::mix_asserts))]
    fn assert_under<K: Condition<AB>>(&self, builder: &mut AB, condition: &K) -> AirResult {
        let first = FirstHalf {
            before: self.before,
            message: self.first,
            after: self.middle,
        };
        let second = SecondHalf {
            before: self.middle,
            message: self.second,
            after: self.after,
        };
        (first, second).assert_under(builder, condition)
    }
}

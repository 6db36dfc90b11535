//! The columns before the rounds, and after them.
ghost use Rattle.std.specs.Prelude.{◌≡◌, ◌*◌, ◌<◌};
ghost use Rattle.air_blake3.specs.Words.{bits_at, bits_of, quarter_of};
ghost use Rattle.air_blake3.specs.Row.{chaining_column, first_asserts, first_at, last_column, message_at, output_asserts, output_at, output_columns};

use crate::columns::{output_from, state_at};
use crate::words::{AreBits, BitXors, LimbsOf, LimbsOfConstant};
use air_author::{AirResult, All, Condition, Constraint, Current, Family};
use air_builder::AirBuilder;
use air_gadgets::{Rotated, Word, Xor32Shift};
use blake3::{Quarter, State};

/// The words of the message consist of bits.
#[derive(Clone, Copy, Drop)]
pub(crate) struct Message {}

impl<AB: AirBuilder> Family<AB> for Message {
    ghost size = { λ _. 16 };

    ghost asserts_at = { λ _ i f _. message_at AB.F.ring f i };

    fn size(&self) -> usize {
        16
    }

    #[tactic(auto, unfolding(crate::specs::Row::message_at))]
    fn assert_at<K: Condition<AB>>(
        &self,
        index: usize,
        builder: &mut AB,
        condition: &K,
    ) -> AirResult {
        AreBits(32 * index as u32).assert_under(builder, condition)
    }
}

/// A column of the first state: its word a equals the word whose bits begin at column `low`, and its word c is
/// constant.
#[derive(Clone, Copy, Drop)]
struct FirstColumn {
    words: Quarter,
    low: u32,
    constant: u32,
}

impl<AB: AirBuilder> Constraint<AB> for FirstColumn {
    ghost asserts = { λ s f _. first_asserts AB.F.ring f (quarter_of s.words)
        (bits_at s.low) s.constant };

    #[tactic(auto, unfolding(crate::specs::Row::first_asserts))]
    fn assert_under<K: Condition<AB>>(&self, builder: &mut AB, condition: &K) -> AirResult {
        let constraints = (
            AreBits(self.low),
            LimbsOf(self.words.a, self.low),
            AreBits(self.words.b),
            LimbsOfConstant(self.words.c, self.constant),
            AreBits(self.words.d),
        );
        constraints.assert_under(builder, condition)
    }
}

fn first_column(words: Quarter, index: u32, constant: u32) -> FirstColumn
    requires { index < 4 }
    ensures { result ≡ record { words = words; low = chaining_column index; constant = constant } }
{
    FirstColumn {
        words,
        low: 512 + 32 * index,
        constant,
    }
}

/// The first state.
#[derive(Clone, Copy, Drop)]
pub(crate) struct First {}

impl<AB: AirBuilder> Constraint<AB> for First {
    ghost asserts = { λ _ f _. first_at AB.F.ring f };

    #[tactic(auto, unfolding(crate::specs::Row::first_at))]
    fn assert_under<K: Condition<AB>>(&self, builder: &mut AB, condition: &K) -> AirResult {
        let State { q0, q1, q2, q3 } = state_at(640).from_diagonals();
        let constraints = (
            first_column(q0, 0, 0x6A09E667),
            first_column(q1, 1, 0xBB67AE85),
            first_column(q2, 2, 0x3C6EF372),
            first_column(q3, 3, 0xA54FF53A),
        );
        constraints.assert_under(builder, condition)
    }
}

/// A column of the output, from a column of the last state, the bits of its word c, and two words of the chaining
/// value.
#[derive(Clone, Copy, Drop)]
struct OutputColumn {
    words: Quarter,
    bits: u32,
    low: u32,
    high: u32,
    output: Quarter,
}

impl<AB: AirBuilder> Constraint<AB> for OutputColumn {
    ghost asserts = { λ s f _. output_asserts AB.F.ring f (quarter_of s.words)
        (bits_at s.bits) (bits_at s.low) (bits_at s.high) (bits_of s.output) };

    #[tactic(auto, unfolding(crate::specs::Row::output_asserts, crate::specs::Words::bits_at, crate::specs::Words::limbs_at, air_gadgets::specs::BitTerms::bits_asserts))]
    fn assert_under<K: Condition<AB>>(&self, builder: &mut AB, condition: &K) -> AirResult {
        let (words, output) = (self.words, self.output);
        let a = words.a as usize;
        let xor = Rotated {
            b: self.bits as usize,
            c: output.a as usize,
            shift: 0,
        };
        let constraints = (
            (AreBits(self.bits), LimbsOf(words.c, self.bits)),
            Xor32Shift(Word(Current(a + 0), Current(a + 1)), xor),
            All(BitXors(words.b, words.d, output.b)),
            All(BitXors(self.bits, self.low, output.c)),
            All(BitXors(words.d, self.high, output.d)),
        );
        constraints.assert_under(builder, condition)
    }
}

fn output_column(words: Quarter, index: u32, high: u32) -> OutputColumn
    requires { index < 4 }
    ensures { result ≡ record {
      words = words;
      bits = last_column index;
      low = chaining_column index;
      high = high;
      output = output_columns index;
    } }
{
    OutputColumn {
        words,
        bits: 8528 + 32 * index,
        low: 512 + 32 * index,
        high,
        output: output_from(index),
    }
}

/// The output.
#[derive(Clone, Copy, Drop)]
pub(crate) struct Output {}

impl<AB: AirBuilder> Constraint<AB> for Output {
    ghost asserts = { λ _ f _. output_at AB.F.ring f };

    #[tactic(auto, unfolding(crate::specs::Row::output_at))]
    fn assert_under<K: Condition<AB>>(&self, builder: &mut AB, condition: &K) -> AirResult {
        let first = state_at(640).from_diagonals();
        let State { q0, q1, q2, q3 } = state_at(8256).from_diagonals();
        let constraints = (
            output_column(q0, 0, first.q0.b),
            output_column(q1, 1, first.q1.b),
            output_column(q2, 2, first.q2.b),
            output_column(q3, 3, first.q3.b),
        );
        constraints.assert_under(builder, condition)
    }
}

//! Words with their bits.
ghost use Rattle.std.specs.Prelude.{◌≡◌, ◌+◌, ◌^◌, ◌<◌};

use crate::values::bits::{Columns, HasBits};
use crate::values::sums::Word;
use air_author::{AirResult, Condition, Constraint, Current};
use air_builder::AirBuilder;

/// A word in 34 columns: the lower limb in column `first`, the 16 columns of its bits, the lowest first, then the upper
/// limb and the 16 columns of its bits.
#[derive(Clone, Copy, Drop)]
pub struct WordOfBits {
    pub first: usize,
    pub ghost fits: { first + 34 < 2 ^ 64 },
}

impl WordOfBits {
    /// The word.
    pub fn word(self) -> Word<Current>
        ensures { result ≡ record {
          0 = record { 0 = self.first };
          1 = record { 0 = self.first + 17 };
        } }
    {
        Word(Current(self.first), Current(self.first + 17))
    }
}

impl<AB: AirBuilder> Constraint<AB> for WordOfBits {
    ghost use Rattle.air_gadgets.specs.WordTerms.{word_bits};

    ghost asserts = { λ s f _. word_bits AB.F.ring s.first f };

    #[tactic(auto, unfolding(crate::specs::WordTerms::word_bits))]
    fn assert_under<K: Condition<AB>>(&self, builder: &mut AB, condition: &K) -> AirResult {
        let low = Columns {
            first: self.first + 1,
            count: 16,
        };
        let high = Columns {
            first: self.first + 18,
            count: 16,
        };
        (
            HasBits(Current(self.first), low),
            HasBits(Current(self.first + 17), high),
        )
            .assert_under(builder, condition)
    }
}

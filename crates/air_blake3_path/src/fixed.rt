//! The words that are the same on each row, and the flags.
ghost use Rattle.std.specs.Prelude.{◌≡◌, ◌<◌, ◌^◌, slice_index};
ghost use Rattle.air_blake3_path.specs.Path.{fixed_asserts, fixed_columns, fixed_words, flags_asserts};

use air_author::{AirResult, Condition, Constraint, Equal, Family, LastRow, Number, Product, Sum};
use air_builder::AirBuilder;
use air_gadgets::{Columns, PackedBits};

/// Where the bits of the chaining value's words begin, of the counter's and of the length.
const COLUMNS: [usize; 11] = [512, 544, 576, 608, 846, 642, 710, 778, 744, 812, 880];

/// The chaining value, the counter and the length.
const WORDS: [u32; 11] = [
    0x6A09E667, 0xBB67AE85, 0x3C6EF372, 0xA54FF53A, 0x510E527F, 0x9B05688C, 0x1F83D9AB, 0x5BE0CD19,
    0, 0, 64,
];

/// Where the bits of the flags begin.
const FLAGS: usize = 676;

/// Each of these words is a constant.
#[derive(Clone, Copy, Drop)]
pub(crate) struct Fixed {}

/// The column of a word, and the word.
fn fixed_word(index: usize) -> (usize, u32)
    requires { index < 11 }
    ensures column { result.0 ≡ slice_index fixed_columns index }
    ensures word { result.1 ≡ slice_index fixed_words index }
    ensures below { result.0 < 2 ^ 10 }
{
    (COLUMNS[index], WORDS[index])
}

impl<AB: AirBuilder> Family<AB> for Fixed {
    ghost size = { λ _. 11 };

    ghost asserts_at = { λ _ i f _. fixed_asserts AB.F.ring f i };

    fn size(&self) -> usize {
        11
    }

    #[tactic(auto, unfolding(crate::specs::Path::fixed_asserts))]
    fn assert_at<K: Condition<AB>>(
        &self,
        index: usize,
        builder: &mut AB,
        condition: &K,
    ) -> AirResult {
        let (column, word) = fixed_word(index);
        let low = PackedBits(Columns::new(column, 16));
        let high = PackedBits(Columns::new(column + 16, 16));
        let constraints = (
            Equal(low, Number((word % 65536) as u64)),
            Equal(high, Number((word / 65536) as u64)),
        );
        constraints.assert_under(builder, condition)
    }
}

/// The flags are 4, and 8 more on the last row.
#[derive(Clone, Copy, Drop)]
pub(crate) struct Flags {}

impl<AB: AirBuilder> Constraint<AB> for Flags {
    ghost asserts = { λ _ f _. flags_asserts AB.F.ring f };

    #[tactic(auto, unfolding(crate::specs::Path::flags_asserts))]
    fn assert_under<K: Condition<AB>>(&self, builder: &mut AB, condition: &K) -> AirResult {
        let low = PackedBits(Columns::new(FLAGS, 16));
        let high = PackedBits(Columns::new(FLAGS + 16, 16));
        let flags = Sum(Number(4), Product(Number(8), LastRow));
        (Equal(low, flags), Equal(high, Number(0))).assert_under(builder, condition)
    }
}

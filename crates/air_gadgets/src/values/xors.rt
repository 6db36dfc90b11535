//! The xor of a word with a rotated one.
ghost use Rattle.std.specs.Prelude.{◌+◌, ◌^◌, ◌<◌, ◌≤◌};

use crate::values::bits::{Bits, Columns};
use crate::values::packed::{Packed, Series};
use crate::values::sums::Word;
use air_author::{AirResult, Condition, Constraint, Current, Equal, Expression, Xor};
use air_builder::AirBuilder;

/// The word b and the word c rotated to the left by `shift`. The bits of each are 32 columns, from column `b` and from
/// column `c` on.
#[derive(Clone, Copy, Drop)]
pub struct Rotated {
    pub b: usize,
    pub c: usize,
    pub shift: usize,
    pub ghost b_fits: { b + 32 < 2 ^ 64 },
    pub ghost c_fits: { c + 32 < 2 ^ 64 },
    pub ghost within: { shift ≤ 32 },
}

/// 16 bits of the xor of the two words, from bit `from` on.
#[derive(Clone, Copy, Drop)]
struct XorHalf {
    words: Rotated,
    from: usize,
    ghost half: { from ≤ 16 },
}

impl<AB: AirBuilder> Series<AB> for XorHalf {
    ghost use Rattle.air_gadgets.specs.XorTerms.{xor_at};

    ghost count = { λ _. 16 };

    ghost term_at = { λ s i. xor_at s.words.b s.words.c s.words.shift (s.from + i) };

    fn count(&self) -> usize {
        16
    }

    #[inline(always)]
    fn make_at(&self, index: usize, builder: &mut AB) -> AirResult<AB::Expr> {
        let i = self.from + index;
        let x = Current(self.words.b + i);
        let y = Current(self.words.c + (i + 32 - self.words.shift) % 32);
        Xor(x, y).make(builder)
    }
}

/// The columns of c are zero or one, and the word is the xor, if the columns of b are zero or one, which isn't
/// asserted.
#[derive(Clone, Copy, Drop)]
pub struct Xor32Shift<X>(pub Word<X>, pub Rotated);

impl<AB: AirBuilder, X: Expression<AB>> Constraint<AB> for Xor32Shift<X> {
    ghost use Rattle.air_gadgets.specs.WordTerms.{limbs};
    ghost use Rattle.air_gadgets.specs.XorTerms.{xor_shift_asserts};

    ghost asserts = { λ s f _. xor_shift_asserts AB.F.ring
        (limbs (X.term s.0.0) (X.term s.0.1)) s.1.b s.1.c s.1.shift f };

    ghost usable = { λ s b. X.usable s.0.0 b × X.usable s.0.1 b };

    fn assert_under<K: Condition<AB>>(&self, builder: &mut AB, condition: &K) -> AirResult {
        let words = self.1;
        let bits = Bits(Columns {
            first: words.c,
            count: 32,
        });
        let low = Packed(XorHalf { words, from: 0 });
        let high = Packed(XorHalf { words, from: 16 });
        (bits, Equal(&self.0.0, low), Equal(&self.0.1, high)).assert_under(builder, condition)
    }
}

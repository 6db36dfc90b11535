//! Sums and xors of words of 32 bits. A word is two limbs of 16 bits, the lower one first.
use crate::expressions::view::Expr;
use crate::handles::claims::Claims;

/// A word of 32 bits: its lower and its upper 16 bits.
pub type Word<'a> = [Expr<'a>; 2];

// x (x + n), and with two carries x (x + n) (x + 2n).
fn carries<'a>(x: Expr<'a>, n: u64, two: bool) -> Expr<'a> {
    let product = x * (x + n);
    if two {
        product * (x + n.wrapping_mul(2))
    } else {
        product
    }
}

impl<'c, 'a> Claims<'c, 'a> {
    // Claims that a difference of words is zero modulo 2^32, with one carry or two.
    fn assert_carried(&mut self, low: Expr<'a>, high: Expr<'a>, two: bool) {
        let whole = low + high * 65536;
        self.assert_zero(carries(whole, 4294967296, two));
        self.assert_zero(carries(low, 65536, two));
    }

    /// Claims a = b + c modulo 2^32.
    ///
    /// # Correctness
    ///
    /// That limbs have 16 bits isn't claimed: check their ranges yourself. Then the claim is exact in a prime field of
    /// characteristic above 2^17.
    pub fn assert_add2(&mut self, a: Word<'a>, b: Word<'a>, c: Word<'a>) {
        let low = a[0] - b[0] - c[0];
        let high = a[1] - b[1] - c[1];
        self.assert_carried(low, high, false);
    }

    /// Claims a = b + c + d modulo 2^32.
    ///
    /// # Correctness
    ///
    /// That limbs have 16 bits isn't claimed: check their ranges yourself. Then the claim is exact in a prime field of
    /// characteristic above 3 · 2^16.
    pub fn assert_add3(&mut self, a: Word<'a>, b: Word<'a>, c: Word<'a>, d: Word<'a>) {
        let low = a[0] - b[0] - c[0] - d[0];
        let high = a[1] - b[1] - c[1] - d[1];
        self.assert_carried(low, high, true);
    }

    // Claims that a limb packs the xors of sixteen pairs of bits.
    fn assert_half(&mut self, limb: Expr<'a>, b: &[Expr<'a>], c: &[Expr<'a>]) {
        let mut half = limb.of_number(0);
        for (b, c) in b.iter().zip(c).rev() {
            half = half.double() + b.xor(*c);
        }
        self.assert_eq(limb, half);
    }

    /// Claims that `c` is made of bits, and that the word `a` is the xor of `b` and of `c` rotated to the left by `shift`
    /// places, which count modulo 32. Bits are listed lowest first.
    ///
    /// # Correctness
    ///
    /// That `b` is made of bits isn't claimed: claim it yourself. Then the claim is exact in a prime field of
    /// characteristic 2^16 and above.
    pub fn assert_xor_32_shift(
        &mut self,
        a: Word<'a>,
        b: &[Expr<'a>; 32],
        c: &[Expr<'a>; 32],
        shift: usize,
    ) {
        self.assert_bools(c);
        let mut rotated = *c;
        rotated.rotate_right(shift % 32);
        let (own, others) = (b.as_slice(), rotated.as_slice());
        self.assert_half(a[0], &own[..16], &others[..16]);
        self.assert_half(a[1], &own[16..], &others[16..]);
    }
}

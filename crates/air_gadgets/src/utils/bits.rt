//! Bits of numbers, as elements of a field.
ghost use Rattle.std.specs.Prelude.{◌≡◌, ℕ, ◌-◌, ◌*◌, ◌^◌, ◌<◌, List, map};
ghost use Rattle.air_field.specs.Ring.{image};
ghost use Rattle.air_gadgets.specs.Bits.{AreBits, digits_of, binary_sum, ring_xor, xor_of_bits};

use air_field::Field;

/// The `N` lowest bits, lowest first.
fn bits_le<F: Field, const N: usize>(val: u64) -> [F; N]
    ensures bits { result ≡ map (image F.ring) (digits_of 2 N val) }
    ensures packed { val < 2 ^ N → binary_sum F.ring result ≡ image F.ring val }
{
    let mut bits = [F::ZERO; N];
    let mut left = val;
    for i in 0..N {
        bits[i] = F::from_bool(left % 2 == 1);
        left /= 2;
    }
    bits
}

/// The bits of the number, lowest first.
pub fn u32_to_bits_le<F: Field>(val: u32) -> [F; 32]
    ensures bits { result ≡ map (image F.ring) (digits_of 2 32 val) }
    ensures packed { binary_sum F.ring result ≡ image F.ring val }
{
    bits_le(val as u64)
}

/// The bits of the number, lowest first.
pub fn u64_to_bits_le<F: Field>(val: u64) -> [F; 64]
    ensures bits { result ≡ map (image F.ring) (digits_of 2 64 val) }
    ensures packed { binary_sum F.ring result ≡ image F.ring val }
{
    bits_le(val)
}

/// The limbs of 16 bits of the number, lowest first.
pub fn u64_to_16_bit_limbs<F: Field>(val: u64) -> [F; 4]
    ensures { result ≡ map (image F.ring) (digits_of 65536 4 val) }
{
    let from_second = val / 65536;
    let from_third = from_second / 65536;
    let from_fourth = from_third / 65536;
    [
        F::from_u64(val % 65536),
        F::from_u64(from_second % 65536),
        F::from_u64(from_third % 65536),
        F::from_u64(from_fourth % 65536),
    ]
}

/// (x + y) - 2xy
fn xor_of<F: Field>(x: F, y: F) -> F
    ensures { result ≡ ring_xor F.ring x y }
{
    let product = x.mul(y);
    x.add(y).sub(product.add(product))
}

/// The xor of bits; 0 for the empty list.
pub fn checked_xor<F: Field>(xs: &[F]) -> F
    ensures { (bits : List ℕ) → AreBits bits → xs.now ≡ map (image F.ring) bits
        → result ≡ image F.ring (xor_of_bits bits) }
{
    let mut total = F::ZERO;
    for x in xs {
        total = xor_of(total, *x);
    }
    total
}

/// For bits: y and not x.
pub fn checked_andn<F: Field>(x: F, y: F) -> F
    ensures { (m n : ℕ) → m < 2 → n < 2 → x ≡ image F.ring m → y ≡ image F.ring n
        → result ≡ image F.ring ((1 - m) * n) }
{
    F::ONE.sub(x).mul(y)
}

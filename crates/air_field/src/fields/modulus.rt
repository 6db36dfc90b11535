//! Moduli of prime fields whose elements have 31 bits.
ghost use Rattle.std.specs.Prelude.{◌≡◌, ℕ, ◌*◌, ◌%◌, ◌≤◌, ◌<◌};
ghost use Rattle.air_field.specs.Prime.{IsPrime};

/// A prime number below 2^31.
pub trait Modulus: Copy {
    ghost P: { ℕ };

    ghost is_prime: { IsPrime P };

    ghost small: { P < 2147483648 };

    /// The prime.
    const P: u32;

    /// The field's name.
    const NAME: &'static str;

    /// The remainder of a product. A modulus of a special shape can override this to avoid the division.
    fn product(a: u32, b: u32) -> u32
        requires left { a < P }
        requires right { b < P }
        ensures { result ≡ (a * b) % P }
    {
        // A product has 62 bits. When LLVM sees that, it divides by one multiplication.
        let product = a as u64 * b as u64 % 4611686018427387904;
        (product % Self::P as u64) as u32
    }
}

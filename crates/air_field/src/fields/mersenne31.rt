//! The field of the whole numbers modulo 2147483647.
ghost use Rattle.std.proofs.Common.{lit<};
ghost use Rattle.air_field.specs.laws.Primes.{mersenne31_prime};

use crate::fields::modulus::Modulus;
use crate::fields::residue::Residue;

/// 2^31 - 1.
#[derive(Clone, Copy)]
pub struct Mersenne31Modulus;

impl Modulus for Mersenne31Modulus {
    ghost P = { 2147483647 };

    const P: u32 = 2147483647;

    const NAME: &'static str = "Mersenne31";

    // 2^31 is 1 modulo this modulus
    fn product(a: u32, b: u32) -> u32 {
        let n = a as u64 * b as u64;
        let sum = (n % 2147483648) as u32 + (n / 2147483648) as u32;
        if sum < 2147483647 {
            sum
        } else {
            sum - 2147483647
        }
    }

    ghost is_prime = { mersenne31_prime };

    ghost small = { lit< tt };
}

/// A whole number modulo 2147483647, stored below it.
pub type Mersenne31 = Residue<Mersenne31Modulus>;

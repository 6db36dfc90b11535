//! The field of the whole numbers modulo 2013265921.
ghost use Rattle.std.specs.Prelude.{refl};
ghost use Rattle.std.proofs.Common.{lit<};
ghost use Rattle.air_field.specs.laws.Primes.{baby_bear_prime};

use crate::fields::binomial::{BinomialExtension, BinomialModulus};
use crate::fields::modulus::Modulus;
use crate::fields::residue::Residue;

/// 2^31 - 2^27 + 1.
#[derive(Clone, Copy)]
pub struct BabyBearModulus;

impl Modulus for BabyBearModulus {
    ghost P = { 2013265921 };

    const P: u32 = 2013265921;

    const NAME: &'static str = "BabyBear";

    // The factor is 2^93 over the modulus, rounded up: for products it gives the quotient without a mask.
    fn product(a: u32, b: u32) -> u32 {
        let n = a as u64 * b as u64;
        let quotient = ((n as u128 * 4919131750545854593) >> 93) as u64;
        (n - quotient * 2013265921) as u32
    }

    ghost is_prime = { baby_bear_prime };

    ghost small = { lit< tt };
}

/// A whole number modulo 2013265921, stored below it.
pub type BabyBear = Residue<BabyBearModulus>;

impl BinomialModulus for BabyBearModulus {
    ghost W = { 11 };

    ghost no_square = { record { rest = refl; last = refl } };

    const W: u32 = 11;
}

/// A polynomial over `BabyBear` modulo X^4 - 11.
pub type BinomialExtensionField = BinomialExtension<BabyBearModulus>;

//! The field of the whole numbers modulo 2130706433.
ghost use Rattle.std.specs.Prelude.{refl};
ghost use Rattle.std.proofs.Common.{lit<};
ghost use Rattle.air_field.specs.laws.Primes.{koala_bear_prime};

use crate::fields::binomial::{BinomialExtension, BinomialModulus};
use crate::fields::modulus::Modulus;
use crate::fields::residue::Residue;

/// 2^31 - 2^24 + 1.
#[derive(Clone, Copy)]
pub struct KoalaBearModulus;

impl Modulus for KoalaBearModulus {
    ghost P = { 2130706433 };

    const P: u32 = 2130706433;

    const NAME: &'static str = "KoalaBear";

    // The factor is 2^93 over the modulus, rounded up: for products it gives the quotient without a mask.
    fn product(a: u32, b: u32) -> u32 {
        let n = a as u64 * b as u64;
        let quotient = ((n as u128 * 4647998504580026394) >> 93) as u64;
        (n - quotient * 2130706433) as u32
    }

    ghost is_prime = { koala_bear_prime };

    ghost small = { lit< tt };
}

/// A whole number modulo 2130706433, stored below it.
pub type KoalaBear = Residue<KoalaBearModulus>;

impl BinomialModulus for KoalaBearModulus {
    ghost W = { 3 };

    ghost no_square = { record { rest = refl; last = refl } };

    const W: u32 = 3;
}

/// A polynomial over `KoalaBear` modulo X^4 - 3.
pub type KoalaBearExtension = BinomialExtension<KoalaBearModulus>;

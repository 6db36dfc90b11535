//! `Goldilocks` is a prime field.
ghost use Rattle.std.proofs.Common.{lit<};
ghost use Rattle.std.specs.Prelude.{refl};
ghost use Rattle.air_field.specs.Goldilocks.{goldilocks, goldilocks_modular, goldilocks_ring};
ghost use Rattle.air_field.specs.laws.Modular.{image-zero, equal_is, domain};
ghost use Rattle.air_field.specs.laws.Primes.{goldilocks_prime};

use crate::fields::extension::DomainExtension;
use crate::fields::field::{Field, PrimeField, PrimeField64};
use crate::fields::goldilocks::Goldilocks;
use crate::fields::power::power_of;

impl Field for Goldilocks {
    ghost ring = { goldilocks_ring };

    ghost CHARACTERISTIC = { 18446744069414584321 };

    ghost ZERO = { goldilocks 0 };

    ghost ONE = { goldilocks 1 };

    ghost TWO = { goldilocks 2 };

    ghost NEG_ONE = { goldilocks 18446744069414584320 };

    const CHARACTERISTIC: u64 = 18446744069414584321;

    const ZERO: Self = Goldilocks { residue: 0 };

    const ONE: Self = Goldilocks { residue: 1 };

    const TWO: Self = Goldilocks { residue: 2 };

    const NEG_ONE: Self = Goldilocks {
        residue: 18446744069414584320,
    };

    fn add(self, other: Self) -> Self {
        let gap = Goldilocks::MODULUS - other.residue;
        let residue = if self.residue < gap {
            self.residue + other.residue
        } else {
            self.residue - gap
        };
        Goldilocks { residue }
    }

    fn sub(self, other: Self) -> Self {
        let residue = if self.residue < other.residue {
            self.residue + (Goldilocks::MODULUS - other.residue)
        } else {
            self.residue - other.residue
        };
        Goldilocks { residue }
    }

    fn neg(self) -> Self {
        Goldilocks::new(Goldilocks::MODULUS - self.residue)
    }

    fn mul(self, other: Self) -> Self {
        let n = self.residue as u128 * other.residue as u128;
        let high = (n / 18446744073709551616) as u64;
        Goldilocks::reduce(
            high / 4294967296,
            high % 4294967296,
            (n % 18446744073709551616) as u64,
        )
    }

    fn from_u64(n: u64) -> Self {
        Goldilocks::new(n)
    }

    fn from_bool(b: bool) -> Self {
        Goldilocks { residue: b as u64 }
    }

    ghost zero_is = { refl };

    ghost one_is = { refl };

    ghost two_is = { refl };

    ghost neg_one_is = { refl };

    ghost eq_is = { equal_is goldilocks_modular };

    ghost fits_in_memory = { lit< tt };

    ghost image_is = { image-zero goldilocks_modular };
}

impl PrimeField for Goldilocks {
    ghost domain = { domain goldilocks_modular goldilocks_prime };
}

impl PrimeField64 for Goldilocks {
    ghost ORDER_U64 = { 18446744069414584321 };

    ghost residues = { goldilocks_modular };

    const ORDER_U64: u64 = Goldilocks::MODULUS;

    fn as_canonical_u64(self) -> u64 {
        self.residue
    }

    ghost cmp_is = { λ _ _. refl };

    ghost order_is = { refl };

    ghost ring_is = { refl };
}

impl DomainExtension<Goldilocks> for Goldilocks {
    // The inverse is the power p - 2, since the power p of an element is the element.
    fn try_inverse(self) -> Option<Self> {
        if self == <Self as Field>::ZERO {
            return None;
        }
        Some(power_of(self, Goldilocks::MODULUS - 2))
    }

    ghost domain = { domain goldilocks_modular goldilocks_prime };
}

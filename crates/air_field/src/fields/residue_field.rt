//! `Residue` is a prime field.
ghost use Rattle.std.proofs.Common.{lit<};
ghost use Rattle.std.specs.Prelude.{◌-◌, refl};
ghost use Rattle.air_field.specs.Residue.{residue_class, residue_ring, residues};
ghost use Rattle.air_field.specs.laws.Modular.{image-zero, equal_is, domain, two_is_sum, last_is_negative};

use crate::fields::field::{Field, PrimeField, PrimeField64};
use crate::fields::modulus::Modulus;
use crate::fields::residue::Residue;
use std::marker::PhantomData;

impl<M: Modulus> Field for Residue<M> {
    ghost ring = { residue_ring M.Modulus };

    ghost CHARACTERISTIC = { M.P };

    ghost ZERO = { residue_class M.Modulus 0 };

    ghost ONE = { residue_class M.Modulus 1 };

    ghost TWO = { residue_class M.Modulus 2 };

    ghost NEG_ONE = { residue_class M.Modulus (M.P - 1) };

    const CHARACTERISTIC: u64 = M::P as u64;

    const ZERO: Self = Residue {
        residue: 0,
        modulus: PhantomData,
    };

    const ONE: Self = Residue {
        residue: 1,
        modulus: PhantomData,
    };

    const TWO: Self = Residue {
        residue: 2 % M::P,
        modulus: PhantomData,
    };

    const NEG_ONE: Self = Residue {
        residue: M::P - 1,
        modulus: PhantomData,
    };

    fn add(self, other: Self) -> Self {
        Residue::reduced_once(self.residue + other.residue)
    }

    fn sub(self, other: Self) -> Self {
        // Both operations wrap when the other residue is greater, so that LLVM needs no branch.
        let gap = self.residue.wrapping_sub(other.residue);
        let residue = if self.residue < other.residue {
            gap.wrapping_add(M::P)
        } else {
            gap
        };
        Residue {
            residue,
            modulus: PhantomData,
        }
    }

    fn neg(self) -> Self {
        Residue::reduced_once(M::P - self.residue)
    }

    fn mul(self, other: Self) -> Self {
        Residue {
            residue: M::product(self.residue, other.residue),
            modulus: PhantomData,
        }
    }

    fn from_u64(n: u64) -> Self {
        Residue::reduce(n)
    }

    fn from_bool(b: bool) -> Self {
        Residue {
            residue: b as u32,
            modulus: PhantomData,
        }
    }

    ghost zero_is = { refl };

    ghost one_is = { refl };

    ghost two_is = { two_is_sum (residues M.Modulus) };

    ghost neg_one_is = { last_is_negative (residues M.Modulus) M.Modulus.is_prime };

    ghost eq_is = { equal_is (residues M.Modulus) };

    ghost fits_in_memory = { lit< tt };

    ghost image_is = { image-zero (residues M.Modulus) };
}

impl<M: Modulus> PrimeField for Residue<M> {
    ghost domain = { domain (residues M.Modulus) M.Modulus.is_prime };
}

impl<M: Modulus> PrimeField64 for Residue<M> {
    ghost ORDER_U64 = { M.P };

    ghost residues = { residues M.Modulus };

    const ORDER_U64: u64 = M::P as u64;

    fn as_canonical_u64(self) -> u64 {
        self.residue as u64
    }

    ghost cmp_is = { λ _ _. refl };

    ghost order_is = { refl };

    ghost ring_is = { refl };
}

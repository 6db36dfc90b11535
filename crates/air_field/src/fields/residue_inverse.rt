//! Inverses in a field of residues, as an extension of itself.
ghost use Rattle.air_field.specs.Residue.{residues};
ghost use Rattle.air_field.specs.laws.Modular.{domain};

use crate::fields::extension::DomainExtension;
use crate::fields::field::Field;
use crate::fields::modulus::Modulus;
use crate::fields::power::power_of;
use crate::fields::residue::Residue;

impl<M: Modulus> DomainExtension<Residue<M>> for Residue<M> {
    // The inverse is the power p - 2, since the power p of an element is the element.
    fn try_inverse(self) -> Option<Self> {
        if self == <Self as Field>::ZERO {
            return None;
        }
        Some(power_of(self, M::P as u64 - 2))
    }

    ghost domain = { domain (residues M.Modulus) M.Modulus.is_prime };
}

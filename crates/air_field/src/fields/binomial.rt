//! The polynomials over a field of residues modulo X^4 - w.
ghost use Rattle.std.specs.Prelude.{◌≡◌, ℕ, length, ⊤};
ghost use Rattle.air_field.specs.NoSquare.{IsNoSquare};

use crate::fields::modulus::Modulus;
use crate::fields::residue::Residue;
use std::alloc::AllocError;
use std::fmt;

/// A modulus with the number w of X^4 - w; w is no square modulo it.
pub trait BinomialModulus: Modulus {
    ghost W: { ℕ };

    ghost no_square: { IsNoSquare Self.P W };

    /// The number w.
    const W: u32;
}

/// A polynomial of four coefficients, lowest first, modulo X^4 - w.
#[derive_where(PartialEq, Eq, PartialOrd, Ord)]
pub struct BinomialExtension<M: Modulus> {
    pub(crate) value: [Residue<M>; 4],
    pub ghost four: { length value ≡ 4 },
}

impl<M: Modulus> Clone for BinomialExtension<M> {
    ghost is_clone = { λ a b. a ≡ b };

    ghost is_infallible = { λ _. ⊤ };

    fn clone(&self) -> Result<Self, AllocError> {
        Ok(*self)
    }
}

impl<M: Modulus> Copy for BinomialExtension<M> {}

impl<M: Modulus> fmt::Debug for BinomialExtension<M> {
    fn fmt<W: fmt::Write>(&self, f: &mut fmt::Formatter<W>) -> fmt::Result {
        f.debug_struct("BinomialExtensionField")
            .field("value", &self.value)
            .finish()
    }
}

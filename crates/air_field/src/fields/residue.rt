//! The field of the whole numbers modulo a prime.
ghost use Rattle.std.specs.Prelude.{◌≡◌, ◌<◌, ◌%◌, ◌*◌, ◌+◌, ⊤};

use crate::fields::modulus::Modulus;
use std::alloc::AllocError;
use std::fmt;
use std::marker::PhantomData;

/// A whole number modulo `M`, stored below it.
#[derive_where(PartialEq, Eq, PartialOrd, Ord)]
pub struct Residue<M: Modulus> {
    pub(crate) residue: u32,
    #[derive_where(skip)]
    pub(crate) modulus: PhantomData<M>,
    pub ghost reduced: { residue < M.P },
}

impl<M: Modulus> Clone for Residue<M> {
    ghost is_clone = { λ a b. a ≡ b };

    ghost is_infallible = { λ _. ⊤ };

    fn clone(&self) -> Result<Self, AllocError> {
        Ok(*self)
    }
}

impl<M: Modulus> Copy for Residue<M> {}

impl<M: Modulus> fmt::Debug for Residue<M> {
    fn fmt<W: fmt::Write>(&self, f: &mut fmt::Formatter<W>) -> fmt::Result {
        f.debug_struct(M::NAME)
            .field("residue", &self.residue)
            .finish()
    }
}

impl<M: Modulus> Residue<M> {
    ghost use Rattle.air_field.specs.Residue.{residue_number};

    /// The class of `n`.
    pub fn new(n: u32) -> Self
        ensures { residue_number result ≡ n % M.P }
    {
        Residue {
            residue: n % M::P,
            modulus: PhantomData,
        }
    }

    /// The class of a number below twice the modulus, found without division.
    pub(crate) fn reduced_once(n: u32) -> Self
        requires { n < M.P + M.P }
        ensures { result.residue ≡ n % M.P }
    {
        let p = M::P;
        let residue = if n < p { n } else { n - p };
        Residue {
            residue,
            modulus: PhantomData,
        }
    }

    /// The class of any number.
    pub(crate) fn reduce(n: u64) -> Self
        ensures { result.residue ≡ n % M.P }
    {
        Residue {
            residue: (n % M::P as u64) as u32,
            modulus: PhantomData,
        }
    }

    /// The product before reduction. The sum of four of them is below 2^64.
    pub(crate) fn unreduced_product(self, other: Self) -> u64
        ensures product { result ≡ self.residue * other.residue }
        ensures small { result < M.P * M.P }
        ensures fits { result < 4611686018427387904 }
    {
        self.as_canonical_u64() * other.as_canonical_u64()
    }

    /// The number below the modulus.
    pub fn as_canonical_u64(self) -> u64
        ensures { result ≡ residue_number self }
    {
        self.residue as u64
    }
}

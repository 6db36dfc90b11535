//! The field of the whole numbers modulo 18446744069414584321.
ghost use Rattle.std.specs.Prelude.{◌≡◌, ◌<◌, ◌%◌};
ghost use Rattle.air_field.specs.Limbs.{from_limbs};

/// A whole number modulo 2^64 - 2^32 + 1, stored below it.
#[derive(Clone, Copy, PartialEq, Eq, PartialOrd, Ord, Debug)]
pub struct Goldilocks {
    pub(crate) residue: u64,
    pub ghost reduced: { residue < 18446744069414584321 },
}

impl Goldilocks {
    ghost use Rattle.air_field.specs.Goldilocks.{goldilocks_number};

    /// 2^64 - 2^32 + 1.
    pub(crate) const MODULUS: u64 = 18446744069414584321;

    /// The class of any number.
    pub fn new(n: u64) -> Self
        ensures { goldilocks_number result ≡ n % 18446744069414584321 }
    {
        let residue = if n < Self::MODULUS {
            n
        } else {
            n - Self::MODULUS
        };
        Goldilocks { residue }
    }

    /// The class of `hi * 2^96 + mid * 2^64 + lo`: 2^64 is 2^32 - 1, and 2^96 is -1.
    pub(crate) fn reduce(hi: u64, mid: u64, lo: u64) -> Self
        requires high { hi < 4294967296 }
        requires middle { mid < 4294967296 }
        ensures { result.residue ≡ from_limbs hi mid lo % 18446744069414584321 }
    {
        let low = if lo < hi {
            lo + (Self::MODULUS - hi)
        } else {
            lo - hi
        };
        let middle = mid * 4294967295;
        let gap = Self::MODULUS - middle;
        if low < gap {
            Goldilocks {
                residue: low + middle,
            }
        } else {
            Goldilocks::new(low - gap)
        }
    }

    /// The number below the modulus.
    pub fn as_canonical_u64(self) -> u64
        ensures { result ≡ goldilocks_number self }
    {
        self.residue
    }
}

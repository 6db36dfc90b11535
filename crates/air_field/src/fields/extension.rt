//! Extension fields.
ghost use Rattle.std.specs.Prelude.{◌≡◌, ℕ, ◌↔◌, length, IsTrue, IfOk, IsOkUnless, true};
ghost use Rattle.std.specs.Cmp.Lexicographic.{slice_cmp};
ghost use Rattle.air_field.specs.Ring.{AlgebraOver, AlgebraOverLaws, minus};
ghost use Rattle.air_field.specs.Domain.{IsDomain, IsInversion};
ghost use Rattle.air_field.specs.Extension.{Basis, ExtensionLaws, IsInBase};
ghost use Rattle.air_field.specs.Powers.{powers_of};

use crate::errors::RingError;
use crate::fields::field::Field;
use std::alloc::Global;
use std::fmt::Debug;

/// A commutative algebra over `F` whose elements are the lists of `DIMENSION` coefficients. `cmp` compares the first
/// coefficients, lowest first, that differ.
pub trait ExtensionField<F: Field>: Copy + Eq + Ord + Debug {
    /// The ring, the embedding of `F`, and the element of a coefficient list, which is padded with zeros or cut to
    /// `DIMENSION` coefficients.
    ghost over: { AlgebraOver F Self };

    /// The coefficients of an element, lowest first, and the element of `F` that it equals, if there is one.
    ghost basis: { Basis F Self };

    ghost DIMENSION: { ℕ };

    /// The number of coefficients of an element.
    const DIMENSION: usize;

    /// Zero.
    fn zero() -> Self
        ensures { result ≡ over.ring.zero };

    /// One.
    fn one() -> Self
        ensures { result ≡ over.ring.one };

    /// The sum.
    fn add(self, other: Self) -> Self
        ensures { result ≡ over.ring.add self other };

    /// The difference.
    fn sub(self, other: Self) -> Self
        ensures { result ≡ minus over.ring self other };

    /// The negative.
    fn neg(self) -> Self
        ensures { result ≡ over.ring.neg self };

    /// The product.
    fn mul(self, other: Self) -> Self
        ensures { result ≡ over.ring.mul self other };

    /// The element with the coefficients x, 0, .., 0.
    fn from_base(x: F) -> Self
        ensures { result ≡ over.embed x };

    /// The coefficients, lowest first.
    fn as_basis_coefficients_slice(&self) -> &[F]
        ensures { result.now ≡ basis.coefficients self.now };

    /// The element with these coefficients, lowest first. There must be `DIMENSION` of them.
    fn from_basis_coefficients(c: &[F]) -> Self
        requires { length c.now ≡ DIMENSION }
        ensures { basis.coefficients result ≡ c.now };

    /// Whether the element is `from_base` of some element of `F`.
    fn is_in_basefield(&self) -> bool
        ensures { IsTrue result ↔ IsInBase over self.now };

    /// The powers 1, a, .., a^(k-1). Fails only with `Memory`.
    fn powers(self, alloc: Global, k: usize) -> Result<Vec<Self>, RingError>
        ensures powers { IfOk result (λ v. v.items ≡ powers_of over.ring self k) }
        ensures only_memory { IsOkUnless result RingError.Memory }
    {
        let mut all = Vec::with_capacity(alloc, k)?;
        let mut power = Self::one();
        for _ in 0..k {
            all.push(power)?;
            power = power.mul(self);
        }
        Ok(all)
    }

    ghost laws: { ExtensionLaws F.ring over basis DIMENSION };

    ghost over_laws: { AlgebraOverLaws F.ring over };

    ghost eq_is: { (a b : Self) → (Self.eq a b ≡ true) ↔ (a ≡ b) };

    ghost cmp_is: { (a b : Self) → Self.cmp a b
        ≡ slice_cmp F.cmp (basis.coefficients a) (basis.coefficients b) };
}

/// An extension that is a field: a product is zero only if a factor is, and every nonzero element has an inverse.
pub trait DomainExtension<F: Field>: ExtensionField<F> {
    /// The inverse, or `None` for zero.
    fn try_inverse(self) -> Option<Self>
        ensures { IsInversion Self.over.ring self result };

    ghost domain: { IsDomain Self.over.ring };
}

//! `BinomialExtension` is an extension of dimension 4.
ghost use Rattle.std.specs.Prelude.{◌≡◌, refl};
ghost use Rattle.air_field.specs.Residue.{residue_class, residue_ring};
ghost use Rattle.air_field.specs.Coefficients.{IsProductModulo};
ghost use Rattle.air_field.specs.Domain.{IsAdjugate};
ghost use Rattle.air_field.specs.Binomial.{coefficients_of, binomial_product, binomial_over, binomial_basis};
ghost use Rattle.air_field.specs.laws.BinomialDomain.{binomial_domain};
ghost use Rattle.air_field.specs.laws.Binomial.{binomial_laws, binomial_over_laws, same_polynomial};

use crate::fields::binomial::{BinomialExtension, BinomialModulus};
use crate::fields::extension::{DomainExtension, ExtensionField};
use crate::fields::field::Field;
use crate::fields::product::dot_product;
use crate::fields::residue::Residue;

impl<M: BinomialModulus> ExtensionField<Residue<M>> for BinomialExtension<M> {
    ghost over = { binomial_over M.Modulus M.W };

    ghost basis = { binomial_basis M.Modulus };

    ghost DIMENSION = { 4 };

    const DIMENSION: usize = 4;

    fn zero() -> Self {
        BinomialExtension {
            value: [<Residue<M> as Field>::ZERO; 4],
        }
    }

    fn one() -> Self {
        BinomialExtension {
            value: [
                <Residue<M> as Field>::ONE,
                <Residue<M> as Field>::ZERO,
                <Residue<M> as Field>::ZERO,
                <Residue<M> as Field>::ZERO,
            ],
        }
    }

    fn add(self, other: Self) -> Self {
        let [a0, a1, a2, a3] = self.value;
        let [b0, b1, b2, b3] = other.value;
        BinomialExtension {
            value: [
                Field::add(a0, b0),
                Field::add(a1, b1),
                Field::add(a2, b2),
                Field::add(a3, b3),
            ],
        }
    }

    fn sub(self, other: Self) -> Self {
        let [a0, a1, a2, a3] = self.value;
        let [b0, b1, b2, b3] = other.value;
        BinomialExtension {
            value: [
                Field::sub(a0, b0),
                Field::sub(a1, b1),
                Field::sub(a2, b2),
                Field::sub(a3, b3),
            ],
        }
    }

    fn neg(self) -> Self {
        let [a0, a1, a2, a3] = self.value;
        BinomialExtension {
            value: [
                Field::neg(a0),
                Field::neg(a1),
                Field::neg(a2),
                Field::neg(a3),
            ],
        }
    }

    // The product of the polynomials, reduced by X^4 = w. The code multiplies by w1, w2, w3 where a power passes X^3.
    fn mul(self, other: Self) -> Self
        ensures product { result ≡ binomial_product M.W self other }
        ensures coefficients { IsProductModulo (residue_ring M.Modulus)
            (residue_class M.Modulus M.W) (coefficients_of self) (coefficients_of other)
            (coefficients_of result) }
    {
        let a = self.value;
        let [b0, b1, b2, b3] = other.value;
        let w = Residue::new(M::W);
        let w1 = Field::mul(w, b1);
        let w2 = Field::mul(w, b2);
        let w3 = Field::mul(w, b3);
        BinomialExtension {
            value: [
                dot_product(&a, &[b0, w3, w2, w1]),
                dot_product(&a, &[b1, b0, w3, w2]),
                dot_product(&a, &[b2, b1, b0, w3]),
                dot_product(&a, &[b3, b2, b1, b0]),
            ],
        }
    }

    fn from_base(x: Residue<M>) -> Self {
        BinomialExtension {
            value: [
                x,
                <Residue<M> as Field>::ZERO,
                <Residue<M> as Field>::ZERO,
                <Residue<M> as Field>::ZERO,
            ],
        }
    }

    fn as_basis_coefficients_slice(&self) -> &[Residue<M>] {
        &self.value
    }

    fn from_basis_coefficients(c: &[Residue<M>]) -> Self {
        BinomialExtension {
            value: [c[0], c[1], c[2], c[3]],
        }
    }

    fn is_in_basefield(&self) -> bool {
        self.value[1..] == [<Residue<M> as Field>::ZERO; 3]
    }

    ghost laws = { binomial_laws M.Modulus M.W };

    ghost over_laws = { binomial_over_laws M.Modulus M.W };

    ghost eq_is = { same_polynomial };

    ghost cmp_is = { λ _ _. refl };
}

impl<M: BinomialModulus> DomainExtension<Residue<M>> for BinomialExtension<M> {
    // A polynomial times its adjugate is its norm, which is an element of the base field.
    fn try_inverse(self) -> Option<Self> {
        let adjugate = self.adjugate();
        let [norm, _, _, _] = self.mul(adjugate).value;
        match norm.try_inverse() {
            None => None,
            Some(inverse) => Some(adjugate.mul(Self::from_base(inverse))),
        }
    }

    ghost domain = { binomial_domain M.Modulus M.W M.no_square };
}

impl<M: BinomialModulus> BinomialExtension<M> {
    // By (a + bX + cX^2 + dX^3)(a - bX + cX^2 - dX^3) = even + odd X^2, and then the same step with even - odd X^2.
    fn adjugate(self) -> Self
        ensures { IsAdjugate (binomial_over M.Modulus M.W) (residue_class M.Modulus 0) self result }
    {
        let [a, b, c, d] = self.value;
        let conjugate = BinomialExtension {
            value: [a, Field::neg(b), c, Field::neg(d)],
        };
        let [even, _, odd, _] = self.mul(conjugate).value;
        let zero = <Residue<M> as Field>::ZERO;
        conjugate.mul(BinomialExtension {
            value: [even, zero, Field::neg(odd), zero],
        })
    }
}

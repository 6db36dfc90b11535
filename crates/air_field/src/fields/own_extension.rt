//! A field is an extension of itself of dimension 1.
ghost use Rattle.air_field.specs.Ring.{self_algebra, self_algebra_laws};
ghost use Rattle.air_field.specs.Extension.{own_basis};
ghost use Rattle.air_field.specs.laws.Single.{single_laws, single_compares};

use crate::fields::extension::ExtensionField;
use crate::fields::field::Field;
use std::slice;

impl<F: Field> ExtensionField<F> for F {
    ghost over = { self_algebra F.ring };

    ghost basis = { own_basis };

    ghost DIMENSION = { 1 };

    const DIMENSION: usize = 1;

    fn zero() -> Self {
        <Self as Field>::ZERO
    }

    fn one() -> Self {
        <Self as Field>::ONE
    }

    fn add(self, other: Self) -> Self {
        Field::add(self, other)
    }

    fn sub(self, other: Self) -> Self {
        Field::sub(self, other)
    }

    fn neg(self) -> Self {
        Field::neg(self)
    }

    fn mul(self, other: Self) -> Self {
        Field::mul(self, other)
    }

    fn from_base(x: Self) -> Self {
        x
    }

    fn as_basis_coefficients_slice(&self) -> &[Self] {
        slice::from_ref(self)
    }

    fn from_basis_coefficients(c: &[Self]) -> Self {
        c[0]
    }

    fn is_in_basefield(&self) -> bool {
        true
    }

    ghost laws = { single_laws F.ring };

    ghost over_laws = { self_algebra_laws F.ring };

    ghost eq_is = { F.eq_is };

    ghost cmp_is = { single_compares F.cmp };
}

//! The ring whose elements are the values of an extension.
ghost use Rattle.std.specs.Prelude.{◌≡◌, ⊤, IsTrue};
ghost use Rattle.air_field.specs.Ring.{minus};
ghost use Rattle.air_field.specs.Term.{IsBase, ext_const_term};
ghost use Rattle.air_field.specs.Algebra.{closed_value, closed_value_in};
ghost use Rattle.air_field.specs.laws.Algebra.{value_in_laws};
ghost use Rattle.air_field.specs.laws.Extension.{extend-coefficients};
ghost use Rattle.air_field.specs.ExtAlgebra.{values_are_base};

use crate::errors::RingError;
use crate::fields::extension::ExtensionField;
use crate::fields::field::Field;
use crate::rings::algebra::{Algebra, FromVar};
use crate::rings::ext_algebra::ExtAlgebra;
use std::marker::PhantomData;

/// The extension as a ring. It has no state and never fails.
#[derive(Clone, Copy)]
pub struct ExtFieldRing<F, EF> {
    base: PhantomData<F>,
    of: PhantomData<EF>,
}

impl<F: Field, EF: ExtensionField<F>> ExtFieldRing<F, EF> {
    /// The ring, which is the only value of its type.
    pub fn new() -> Self
        ensures { (r : Self F EF) → r ≡ result }
    {
        ExtFieldRing {
            base: PhantomData,
            of: PhantomData,
        }
    }
}

impl<F: Field, EF: ExtensionField<F>> Algebra<F> for ExtFieldRing<F, EF> {
    type Elem = EF;

    ghost valid = { λ _. ⊤ };

    ghost has = { λ _ _. ⊤ };

    ghost means = { λ _ x t. closed_value_in EF.over t ≡ x };

    ghost extends = { λ _ _. ⊤ };

    ghost refuses = { λ _ _. ⊥ };

    fn contains(&self, _x: EF) -> bool
        ensures { IsTrue result }
    {
        true
    }

    fn constant(&mut self, c: F) -> Result<EF, RingError>
        ensures { result ≡ Ok (EF.over.embed c) }
    {
        Ok(EF::from_base(c))
    }

    fn add(&mut self, x: EF, y: EF) -> Result<EF, RingError>
        ensures { result ≡ Ok (EF.over.ring.add x y) }
    {
        Ok(x.add(y))
    }

    fn sub(&mut self, x: EF, y: EF) -> Result<EF, RingError>
        ensures { result ≡ Ok (minus EF.over.ring x y) }
    {
        Ok(x.sub(y))
    }

    fn neg(&mut self, x: EF) -> Result<EF, RingError>
        ensures { result ≡ Ok (EF.over.ring.neg x) }
    {
        Ok(x.neg())
    }

    fn mul(&mut self, x: EF, y: EF) -> Result<EF, RingError>
        ensures { result ≡ Ok (EF.over.ring.mul x y) }
    {
        Ok(x.mul(y))
    }

    ghost laws = { value_in_laws EF.over EF.basis.coefficients
        (extend-coefficients F.ring EF.over EF.basis EF.DIMENSION EF.ExtensionField.laws) };
}

impl<F: Field, EF: ExtensionField<F>> FromVar<F, EF> for ExtFieldRing<F, EF> {
    ghost var_means = { λ v t. closed_value_in EF.over t ≡ v };

    fn from_var(&mut self, v: EF) -> Result<EF, RingError>
        ensures { result ≡ Ok v }
    {
        Ok(v)
    }

    ghost var_means_some = { λ v. (
      ext_const_term (EF.basis.coefficients v),
      extend-coefficients F.ring EF.over EF.basis EF.DIMENSION EF.ExtensionField.laws v,
    ) };
}

impl<F: Field, EF: ExtensionField<F>> ExtAlgebra<F, EF> for ExtFieldRing<F, EF> {
    type Base = F;

    ghost base_has = { λ _ _. ⊤ };

    ghost base_means = { λ _ x t. IsBase t × (closed_value F.ring t ≡ x) };

    fn lift(&mut self, x: F) -> Result<EF, RingError>
        ensures { result ≡ Ok (EF.over.embed x) }
    {
        Ok(EF::from_base(x))
    }

    fn ext_constant(&mut self, c: EF) -> Result<EF, RingError>
        ensures { result ≡ Ok c }
    {
        Ok(c)
    }

    ghost base_laws = { values_are_base F.ring };
}

//! The ring whose elements are field values.
ghost use Rattle.std.specs.Prelude.{◌≡◌, ◌↔◌, ◌⊎◌, ⊤, IsTrue, refl};
ghost use Rattle.air_field.specs.Ring.{minus};
ghost use Rattle.air_field.specs.Term.{IsBase, const_term};
ghost use Rattle.air_field.specs.Algebra.{closed_value};
ghost use Rattle.air_field.specs.laws.Algebra.{value_laws};

use crate::errors::RingError;
use crate::fields::field::Field;
use crate::rings::algebra::{Algebra, FromVar};
use std::marker::PhantomData;

/// The field as a ring. It has no state and never fails. Its elements mean base terms only.
#[derive(Clone, Copy)]
pub struct FieldRing<F> {
    of: PhantomData<F>,
}

/// Whether `x` is zero or one.
#[inline(always)]
fn is_bit<F: Field>(x: F) -> bool
    ensures { IsTrue result ↔ ((x ≡ F.ring.zero) ⊎ (x ≡ F.ring.one)) }
{
    x == F::ZERO || x == F::ONE
}

impl<F: Field> FieldRing<F> {
    /// The ring, which is the only value of its type.
    pub fn new() -> Self
        ensures { (r : Self F) → r ≡ result }
    {
        FieldRing { of: PhantomData }
    }
}

impl<F: Field> Algebra<F> for FieldRing<F> {
    type Elem = F;

    ghost valid = { λ _. ⊤ };

    ghost has = { λ _ _. ⊤ };

    ghost means = { λ _ x t. IsBase t × (closed_value F.ring t ≡ x) };

    ghost extends = { λ _ _. ⊤ };

    ghost refuses = { λ _ _. ⊥ };

    fn contains(&self, _x: F) -> bool
        ensures { IsTrue result }
    {
        true
    }

    fn constant(&mut self, c: F) -> Result<F, RingError>
        ensures { result ≡ Ok c }
    {
        Ok(c)
    }

    fn add(&mut self, x: F, y: F) -> Result<F, RingError>
        ensures { result ≡ Ok (F.ring.add x y) }
    {
        Ok(x.add(y))
    }

    fn sub(&mut self, x: F, y: F) -> Result<F, RingError>
        ensures { result ≡ Ok (minus F.ring x y) }
    {
        Ok(x.sub(y))
    }

    fn neg(&mut self, x: F) -> Result<F, RingError>
        ensures { result ≡ Ok (F.ring.neg x) }
    {
        Ok(x.neg())
    }

    fn mul(&mut self, x: F, y: F) -> Result<F, RingError>
        ensures { result ≡ Ok (F.ring.mul x y) }
    {
        Ok(x.mul(y))
    }

    #[inline(always)]
    fn gate(&mut self, condition: F, x: F) -> Result<F, RingError>
        ensures { result ≡ Ok (F.ring.mul condition x) }
    {
        if condition == F::ONE {
            Ok(x)
        } else if condition == F::ZERO {
            Ok(F::ZERO)
        } else {
            Ok(condition.mul(x))
        }
    }

    #[inline(always)]
    fn bool_check(&mut self, x: F) -> Result<F, RingError>
        ensures { result ≡ Ok (F.ring.mul x (minus F.ring x F.ONE)) }
    {
        if is_bit(x) {
            Ok(F::ZERO)
        } else {
            Ok(x.mul(x.sub(F::ONE)))
        }
    }

    #[inline(always)]
    fn xor(&mut self, x: F, y: F) -> Result<F, RingError>
        ensures { result ≡ Ok (minus F.ring (F.ring.add x y) (F.ring.add (F.ring.mul x y)
            (F.ring.mul x y))) }
    {
        if is_bit(x) && is_bit(y) {
            Ok(F::from_bool(!(x == y)))
        } else {
            let product = x.mul(y);
            Ok(x.add(y).sub(product.add(product)))
        }
    }

    ghost laws = { value_laws F.ring };
}

impl<F: Field> FromVar<F, F> for FieldRing<F> {
    ghost var_means = { λ v t. IsBase t × (closed_value F.ring t ≡ v) };

    fn from_var(&mut self, v: F) -> Result<F, RingError>
        ensures { result ≡ Ok v }
    {
        Ok(v)
    }

    ghost var_means_some = { λ v. (const_term v, (tt, refl)) };
}

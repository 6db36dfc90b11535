//! The ring of a folder's expressions.
ghost use Rattle.std.specs.Prelude.{◌≡◌, ⊤, IsTrue};
ghost use Rattle.air_field.specs.Ring.{minus};
ghost use Rattle.air_field.specs.Term.{ext_const_term};
ghost use Rattle.air_field.specs.laws.Algebra.{value_in_laws};
ghost use Rattle.air_field.specs.laws.Extension.{extend-coefficients};
ghost use Rattle.air_folder.specs.Folder.{HasValue, values_are_their_base};

use air_audit::{Algebra, ExtAlgebra, ExtensionField, Field, FromVar, RingError};
use std::marker::PhantomData;

/// The extension as a ring over itself: base expressions are elements of the extension too. It has no state and never
/// fails.
#[derive(Clone, Copy)]
pub struct FolderRing<F, EF> {
    base: PhantomData<F>,
    of: PhantomData<EF>,
}

impl<F: Field, EF: ExtensionField<F>> FolderRing<F, EF> {
    /// The ring of the extension, the only value of its type.
    pub fn new() -> Self
        ensures { (r : Self F EF) → r ≡ result }
    {
        FolderRing {
            base: PhantomData,
            of: PhantomData,
        }
    }
}

impl<F: Field, EF: ExtensionField<F>> Algebra<F> for FolderRing<F, EF> {
    type Elem = EF;

    ghost valid = { λ _. ⊤ };

    ghost has = { λ _ _. ⊤ };

    ghost means = { λ _. HasValue EF.over };

    ghost extends = { λ _ _. ⊤ };

    ghost refuses = { λ _ _. ⊥ };

    fn contains(&self, _x: EF) -> bool
        ensures { IsTrue result }
    {
        true
    }

    fn constant(&mut self, c: F) -> Result<EF, RingError>
        ensures { result ≡ Ok (EF.over.embed c) }
    {
        Ok(EF::from_base(c))
    }

    fn add(&mut self, x: EF, y: EF) -> Result<EF, RingError>
        ensures { result ≡ Ok (EF.over.ring.add x y) }
    {
        Ok(x.add(y))
    }

    fn sub(&mut self, x: EF, y: EF) -> Result<EF, RingError>
        ensures { result ≡ Ok (minus EF.over.ring x y) }
    {
        Ok(x.sub(y))
    }

    fn neg(&mut self, x: EF) -> Result<EF, RingError>
        ensures { result ≡ Ok (EF.over.ring.neg x) }
    {
        Ok(x.neg())
    }

    fn mul(&mut self, x: EF, y: EF) -> Result<EF, RingError>
        ensures { result ≡ Ok (EF.over.ring.mul x y) }
    {
        Ok(x.mul(y))
    }

    ghost laws = { value_in_laws EF.over EF.basis.coefficients
        (extend-coefficients F.ring EF.over EF.basis EF.DIMENSION EF.ExtensionField.laws) };
}

impl<F: Field, EF: ExtensionField<F>> FromVar<F, EF> for FolderRing<F, EF> {
    ghost var_means = { HasValue EF.over };

    fn from_var(&mut self, v: EF) -> Result<EF, RingError>
        ensures { result ≡ Ok v }
    {
        Ok(v)
    }

    ghost var_means_some = { λ v. (
      ext_const_term (EF.basis.coefficients v),
      extend-coefficients F.ring EF.over EF.basis EF.DIMENSION EF.ExtensionField.laws v,
    ) };
}

impl<F: Field, EF: ExtensionField<F>> ExtAlgebra<F, EF> for FolderRing<F, EF> {
    type Base = EF;

    ghost base_has = { λ _ _. ⊤ };

    ghost base_means = { λ _. HasValue EF.over };

    fn lift(&mut self, x: EF) -> Result<EF, RingError>
        ensures { result ≡ Ok x }
    {
        Ok(x)
    }

    fn ext_constant(&mut self, c: EF) -> Result<EF, RingError>
        ensures { result ≡ Ok c }
    {
        Ok(c)
    }

    ghost base_laws = { values_are_their_base EF.over EF.basis
        (extend-coefficients F.ring EF.over EF.basis EF.DIMENSION EF.ExtensionField.laws) };
}

//! Rings over an extension, into which a base ring's elements can be lifted.
ghost use Rattle.std.specs.Prelude.{IfOk, IfErr};
ghost use Rattle.air_field.specs.Term.{Term, ext_const_term};
ghost use Rattle.air_field.specs.Algebra.{Made};
ghost use Rattle.air_field.specs.ExtAlgebra.{ExtAlgebraLaws, Lifted, RefusedLift};

use crate::errors::RingError;
use crate::fields::extension::ExtensionField;
use crate::fields::field::Field;
use crate::rings::algebra::Algebra;

/// A ring over the extension `EF` of `F`. Elements of the base ring stay in it and keep their meaning.
pub trait ExtAlgebra<F: Field, EF: ExtensionField<F>>: Algebra<F> {
    /// The elements of the base ring.
    type Base: Copy;

    /// A handle is an element of the base ring.
    ghost base_has: { Self → Self.Base → Type 0 };

    /// An element of the base ring means a term.
    ghost base_means: { Self → Self.Base → Term F → Type 0 };

    /// The element that means what `x` means in the base ring.
    fn lift(&mut self, x: Self::Base) -> Result<Self::Elem, RingError>
        requires { base_has self.old x }
        ensures extended { Self.extends self.old self.new }
        ensures made { IfOk result (Lifted Self.has Self.means base_means self.old self.new x) }
        ensures refused { IfErr result (RefusedLift base_means Self.refuses self.old x) };

    /// The element of a constant of the extension.
    fn ext_constant(&mut self, c: EF) -> Result<Self::Elem, RingError>
        requires { Self.valid self.old }
        ensures extended { Self.extends self.old self.new }
        ensures made { IfOk result (Made Self.has Self.means
            (ext_const_term (EF.basis.coefficients c)) self.new) }
        ensures refused { IfErr result (λ e. Self.refuses e
            (ext_const_term (EF.basis.coefficients c))) };

    ghost base_laws: { ExtAlgebraLaws Self.valid base_has base_means Self.extends };
}

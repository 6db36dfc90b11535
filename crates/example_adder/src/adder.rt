//! An adder: three words a, b and c of 34 columns each (two limbs, each followed by its 16 bits); a is b + c modulo
//! 2^32.
ghost use Rattle.example_adder.specs.Adder.{adder};

use p3_air::author::*;

/// The words a, b and c have their bits, and a is b + c.
pub struct Adder {}

impl<F: Field> PlainAir<F> for Adder {
    ghost plain = { λ _. (adder F.ring, 102, 0) };

    fn width_and_public_values(&self) -> (usize, usize) {
        (102, 0)
    }
}

impl<AB: AirBuilder> PlainConstraints<AB> for Adder {
    fn eval(&self, builder: &mut AB) -> Result<(), AirError> {
        let a = WordOfBits { first: 0 };
        let b = WordOfBits { first: 34 };
        let c = WordOfBits { first: 68 };
        let sum = Add2 {
            a: a.word(),
            b: b.word(),
            c: c.word(),
        };
        assert_all(builder, &(a, b, c, sum))
    }
}

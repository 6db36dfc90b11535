//! A range check: column 0 is a number of 16 bits, and columns 1 to 16 are its bits, lowest first.
ghost use Rattle.example_range.specs.Range.{range};

use p3_air::author::{Columns, HasBits, PlainAir, PlainConstraints, assert_all, current};
use p3_air::{AirBuilder, AirError, Field};

/// Columns 1 to 16 are the bits of column 0, lowest first.
pub struct Range {}

impl<F: Field> PlainAir<F> for Range {
    ghost plain = { λ _. (range F.ring, 17, 0) };

    fn width_and_public_values(&self) -> (usize, usize) {
        (17, 0)
    }
}

impl<AB: AirBuilder> PlainConstraints<AB> for Range {
    fn eval(&self, builder: &mut AB) -> Result<(), AirError> {
        assert_all(builder, &HasBits(current(0), Columns::new(1, 16)))
    }
}

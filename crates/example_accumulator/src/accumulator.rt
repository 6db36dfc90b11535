//! An accumulator: one column holds values, and the other the total of the rows before. The last total is public.
ghost use Rattle.example_accumulator.specs.Accumulator.{accumulator};

use p3_air::author::*;

/// The columns, by name.
struct AccumulatorColumns {
    value: usize,
    total: usize,
}

const COLUMNS: AccumulatorColumns = AccumulatorColumns { value: 0, total: 1 };

/// The total begins at zero, grows by the row's value, and is public value 0 after the last row.
pub struct Accumulator {}

impl<F: Field> PlainAir<F> for Accumulator {
    ghost plain = { λ _. (accumulator, 2, 1) };

    fn width_and_public_values(&self) -> (usize, usize) {
        (2, 1)
    }
}

impl<AB: AirBuilder> PlainConstraints<AB> for Accumulator {
    fn eval(&self, builder: &mut AB) -> Result<(), AirError> {
        let AccumulatorColumns { value, total } = COLUMNS;
        let after = current(total) + current(value);
        let constraints = (
            When(FirstRow, Zero(current(total))),
            When(Transition, next(total).equals(after)),
            When(LastRow, public(0).equals(after)),
        );
        assert_all(builder, &constraints)
    }
}

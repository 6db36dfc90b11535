//! A counter: one column is a bit, and the other counts how many of the bits above were one.
ghost use Rattle.example_declared_counter.specs.Counter.{counter};

use p3_air::author::*;

/// The columns, by name.
struct CounterColumns {
    bit: usize,
    count: usize,
}

const COLUMNS: CounterColumns = CounterColumns { bit: 0, count: 1 };

/// The bit is a bit, the count begins at zero, and it rises by the bit.
pub struct Counter {}

impl<F: Field> PlainAir<F> for Counter {
    ghost plain = { λ _. (counter F.ring, 2, 0) };

    fn width_and_public_values(&self) -> (usize, usize) {
        (2, 0)
    }
}

impl<AB: AirBuilder> PlainConstraints<AB> for Counter {
    fn eval(&self, builder: &mut AB) -> Result<(), AirError> {
        let CounterColumns { bit, count } = COLUMNS;
        let rises = next(count).equals(current(count) + current(bit));
        let constraints = (
            Boolean(current(bit)),
            When(FirstRow, Zero(current(count))),
            When(Transition, rises),
        );
        assert_all(builder, &constraints)
    }
}

//! A counter that another AIR can include: a bit, and in the next column the number of bits above that were one.
ghost use Rattle.example_declared_forms.specs.Counters.{one_counter};

use p3_air::author::{
    Boolean, Condition, Constraint, FirstRow, MovableConstraints, PlainAir, Transition, When, Zero,
    current, next,
};
use p3_air::{AirBuilder, AirError, Field};

/// The bit is a bit, the count begins at zero, and it rises by the bit.
#[derive(Clone, Copy, Drop)]
pub struct Counter;

impl<F: Field> PlainAir<F> for Counter {
    ghost plain = { λ _. (one_counter F.ring, 2, 0) };

    fn width_and_public_values(&self) -> (usize, usize) {
        (2, 0)
    }
}

impl<AB: AirBuilder> MovableConstraints<AB> for Counter {
    #[tactic(auto, unfolding(crate::specs::Counters::one_counter))]
    fn assert_moved<K: Condition<AB>>(
        &self,
        columns: usize,
        builder: &mut AB,
        condition: &K,
    ) -> Result<(), AirError> {
        let (bit, count) = (columns, columns + 1);
        let constraints = (
            Boolean(current(bit)),
            When(FirstRow, Zero(current(count))),
            When(
                Transition,
                next(count).equals(current(count) + current(bit)),
            ),
        );
        constraints.assert_under(builder, condition)
    }
}

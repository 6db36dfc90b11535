//! A lookup of bytes: column 0 is looked up in column 1, which counts the rows, with the multiplicities in column 2.
ghost use Rattle.example_bytes.specs.Bytes.{bytes};

use p3_air::author::{
    Challenge, Current, Difference, Equal, ExtEqual, ExtZero, FirstRow, LastRow, Negative, Next,
    One, PermutationCurrent, PermutationNext, PlainAir, PlainConstraints, Product, Sum, Transition,
    When, Zero, assert_all,
};
use p3_air::{AirError, Field, FromVar, PermutationAirBuilder};

/// The permutation trace has the accumulator in column 0, and in columns 1 and 2 the shares of the value and of the
/// table's entry.
pub struct Bytes {}

impl<F: Field> PlainAir<F> for Bytes {
    ghost plain = { λ _. (bytes F.ring, 3, 0) };

    fn width_and_public_values(&self) -> (usize, usize) {
        (3, 0)
    }
}

impl<AB: PermutationAirBuilder> PlainConstraints<AB> for Bytes
where
    AB::ExtRing: FromVar<AB::F, AB::RandomVar> + FromVar<AB::F, AB::PermutationVar>,
{
    fn eval(&self, builder: &mut AB) -> Result<(), AirError> {
        let table = (
            When(FirstRow, Zero(Current(1))),
            When(Transition, Equal(Next(1), Sum(Current(1), One))),
        );
        let sum = PermutationCurrent(0);
        let (looked_up, offered) = (PermutationCurrent(1), PermutationCurrent(2));
        let after = Sum(sum, Sum(looked_up, offered));
        let lookup = (
            ExtEqual(
                Product(Difference(Challenge(0), Current(0)), looked_up),
                Negative(One),
            ),
            ExtEqual(
                Product(Difference(Challenge(0), Current(1)), offered),
                Current(2),
            ),
            When(FirstRow, ExtZero(sum)),
            When(Transition, ExtEqual(PermutationNext(0), after)),
            When(LastRow, ExtZero(after)),
        );
        assert_all(builder, &(table, lookup))
    }
}

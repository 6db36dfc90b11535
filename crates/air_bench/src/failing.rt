//! A trace in which every row fails every constraint.
ghost use Rattle.air_builder.specs.Notation.{current, is_zero};
ghost use Rattle.air_bench.specs.More.{zeros};

use crate::checks::count_failures;
use crate::traces::constant_trace;
use air_audit::author::{
    All, Condition, Constraint, Current, Family, Plain, PlainAir, PlainConstraints, Zero,
    assert_all,
};
use air_audit::{AirBuilder, AirError, Field};
use std::alloc::Global;

/// Column 0 is zero, asserted `count` times.
#[derive(Clone, Copy, Drop)]
struct Zeros {
    count: usize,
}

impl<AB: AirBuilder> Family<AB> for Zeros {
    ghost size = { λ s. s.count };

    ghost asserts_at = { λ _ _ f _. is_zero (f (current 0)) };

    fn size(&self) -> usize {
        self.count
    }

    fn assert_at<K: Condition<AB>>(
        &self,
        _index: usize,
        builder: &mut AB,
        condition: &K,
    ) -> Result<(), AirError> {
        Zero(Current(0)).assert_under(builder, condition)
    }
}

impl<F: Field> PlainAir<F> for Zeros {
    ghost plain = { λ s. (zeros s.count, 1, 0) };

    fn width_and_public_values(&self) -> (usize, usize) {
        (1, 0)
    }
}

impl<AB: AirBuilder> PlainConstraints<AB> for Zeros {
    fn eval(&self, builder: &mut AB) -> Result<(), AirError> {
        assert_all(builder, &All(*self))
    }
}

/// The number of failures, summed over `rounds` checks of 128 constraints on `rows` rows, each of which fails them all.
pub fn check_failing<F: Field + 'static>(
    alloc: Global,
    rounds: usize,
    rows: usize,
) -> Result<usize, AirError> {
    let air = Plain(Zeros { count: 128 });
    let main = constant_trace(alloc, F::ONE, 1, rows)?;
    count_failures(alloc, &air, &main, &[], rounds)
}

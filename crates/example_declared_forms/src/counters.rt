//! Two counters side by side whose last counts are equal.
ghost use Rattle.example_declared_forms.specs.Counters.{counters};

use crate::counter::Counter;
use p3_air::author::{
    LastRow, Moved, Plain, PlainAir, PlainConstraints, When, assert_all, current,
};
use p3_air::{AirBuilder, AirError, BabyBear, CheckError, Field, check_constraints, trace_of_rows};
use std::alloc::Global;
use std::io;

/// Two counters, with equal counts on the last row.
#[derive(Clone, Copy, Drop)]
pub struct Counters;

impl<F: Field> PlainAir<F> for Counters {
    ghost plain = { λ _. (counters F.ring, 4, 0) };

    fn width_and_public_values(&self) -> (usize, usize) {
        (4, 0)
    }
}

impl<AB: AirBuilder> PlainConstraints<AB> for Counters {
    fn eval(&self, builder: &mut AB) -> Result<(), AirError> {
        let first = Moved {
            columns: 0,
            air: Counter,
        };
        let second = Moved {
            columns: 2,
            air: Counter,
        };
        let agree = When(LastRow, current(1).equals(current(3)));
        assert_all(builder, &(first, second, agree))
    }
}

fn check_rows(alloc: Global, rows: &[[u64; 4]]) -> Result<(), CheckError> {
    let trace = trace_of_rows::<BabyBear, 4>(alloc, rows).map_err(|e| AirError::from(e))?;
    check_constraints(alloc, &Plain(Counters), &trace, &[])
}

/// Checks rows whose last counts are equal, and rows in which one count leaps.
pub fn print(rt: &HostRuntime) -> io::Result<()> {
    let same = [[1, 0, 0, 0], [1, 1, 1, 0], [0, 2, 1, 1], [0, 2, 0, 2]];
    let leaps = [[1, 0, 0, 0], [1, 1, 1, 0], [0, 2, 1, 2], [0, 2, 0, 2]];
    for rows in [same, leaps] {
        match check_rows(rt.alloc(), &rows) {
            Ok(()) => println!(rt; "both count the same")?,
            Err(error) => println!(rt; "{error}")?,
        }
    }
    Ok(())
}

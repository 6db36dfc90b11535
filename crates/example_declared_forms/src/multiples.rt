//! A table of multiples with any number of columns: column i starts at zero and increases by i.
ghost use Rattle.example_declared_forms.specs.Multiples.{multiples, multiples_of};

use p3_air::author::{
    All, Condition, Constraint, Family, FirstRow, Plain, PlainAir, PlainConstraints, Transition,
    When, Zero, assert_all, current, next, number,
};
use p3_air::{
    AirBuilder, AirError, BabyBear, ConstraintReport, Field, RowMajorMatrix, check_all_constraints,
};
use std::alloc::Global;
use std::io;

/// The AIR with this many columns: column i starts at zero and increases by i.
#[derive(Clone, Copy, Drop)]
pub struct Multiples {
    pub columns: usize,
}

impl<AB: AirBuilder> Family<AB> for Multiples {
    ghost size = { λ s. s.columns };

    ghost asserts_at = { λ _ i f _. multiples_of AB.F.ring i f };

    fn size(&self) -> usize {
        self.columns
    }

    fn assert_at<K: Condition<AB>>(
        &self,
        index: usize,
        builder: &mut AB,
        condition: &K,
    ) -> Result<(), AirError> {
        let multiple = current(index);
        let risen = next(index).equals(multiple + number(index as u64));
        (When(FirstRow, Zero(multiple)), When(Transition, risen)).assert_under(builder, condition)
    }
}

impl<F: Field> PlainAir<F> for Multiples {
    ghost plain = { λ s. (multiples F.ring s.columns, s.columns, 0) };

    fn width_and_public_values(&self) -> (usize, usize) {
        (self.columns, 0)
    }
}

impl<AB: AirBuilder> PlainConstraints<AB> for Multiples {
    fn eval(&self, builder: &mut AB) -> Result<(), AirError> {
        assert_all(builder, &All(*self))
    }
}

/// Checks 16 rows of 64 columns; row r holds the multiples of r.
fn report_on_multiples(alloc: Global) -> Result<ConstraintReport, AirError> {
    let mut cells = Vec::new(alloc);
    for row in 0u32..16 {
        for column in 0u32..64 {
            cells.push(BabyBear::new(row * column))?;
        }
    }
    let trace = RowMajorMatrix::new(cells, 64)?;
    check_all_constraints(alloc, &Plain(Multiples { columns: 64 }), &trace, &[], None)
}

/// Prints what the check found.
pub fn print(rt: &HostRuntime) -> io::Result<()> {
    match report_on_multiples(rt.alloc()) {
        Ok(report) => {
            println!(rt; "rows {}", report.total_rows)?;
            println!(rt; "constraints {}", report.total_constraints_per_row)?;
            println!(rt; "failures {}", report.failures.len())
        }
        Err(error) => println!(rt; "refused: {error}"),
    }
}

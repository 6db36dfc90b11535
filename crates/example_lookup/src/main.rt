//! Lookups in a table. A selected row holds a number and its square, as the preprocessed trace lists them; the selected
//! rows are counted.
#![tactic(auto)]

use p3_air::{
    AirError, BabyBear, Constraints, Expressions, Field, Fixed, FlatAir, RowMajorMatrix, TraceRows,
    print_audit, trace_of_rows,
};
use std::alloc::Global;
use std::io;

/// The numbers below 8 and their squares.
fn squares<F: Field>(alloc: Global) -> Result<RowMajorMatrix<F>, AirError> {
    let mut rows = TraceRows::new(alloc, 2);
    for n in 0..8 {
        rows.push_numbers(&[n, n * n])?;
    }
    rows.into_trace()
}

/// The public value is the number of selected rows.
fn lookup<F: Field>(alloc: Global) -> Result<FlatAir<F>, AirError> {
    let e = Expressions::new(alloc);
    let mut c = Constraints::new(alloc, &e, 0).with_public_values(1);
    let (x, y, selector, count) = (c.column(), c.column(), c.column(), c.column());
    let selected = selector.current();
    c.named("selector is a bit").assert_bool(selected);
    c.when(selected)
        .named("table::x")
        .assert_eq(x.current(), e.preprocessed_current(0));
    c.when(selected)
        .named("table::y")
        .assert_eq(y.current(), e.preprocessed_current(1));
    c.when_first_row()
        .named("count::begins")
        .assert_eq(count.current(), selected);
    let more = count.current() + selector.next();
    c.when_transition()
        .named("count::rises")
        .assert_eq(count.next(), more);
    c.when_last_row()
        .named("count::ends")
        .assert_eq(count.current(), e.public(0));
    c.into_air_with(Fixed::new(alloc).with_preprocessed(squares(alloc)?))
}

fn main(rt: HostRuntime) -> io::Result<()> {
    let alloc = rt.alloc();
    // Columns: number, square, selector, count.
    let right = [
        [0, 0, 1, 1],
        [5, 0, 0, 1],
        [2, 4, 1, 2],
        [3, 9, 1, 3],
        [0, 1, 0, 3],
        [5, 25, 1, 4],
        [6, 36, 1, 5],
        [0, 0, 0, 5],
    ];
    let public_values = [BabyBear::new(5)];
    print_audit(
        &rt,
        lookup(alloc),
        trace_of_rows(alloc, &right),
        &public_values,
    )?;
    let mut wrong = right;
    // Row 1 is selected, but holds no row of the table; 8 is not 3 squared; the selector of row 4 is no bit.
    wrong[1][2] = 1;
    wrong[3][1] = 8;
    wrong[4][2] = 2;
    print_audit(
        &rt,
        lookup(alloc),
        trace_of_rows(alloc, &wrong),
        &public_values,
    )
}

//! A counter: one column is a bit, and the other counts how many of the bits above were one.
#![tactic(auto)]

use air_export::{ExportError, export_flat_air, print_object};
use p3_air::{
    AirError, BabyBear, Constraints, Expressions, FlatAir, RowMajorMatrix, print_audit,
    trace_of_rows,
};
use serde_json::Value;
use std::alloc::Global;
use std::{env, io};

/// The bit is a bit, the count begins at zero, and it rises by the bit.
fn counter(alloc: Global) -> Result<FlatAir<BabyBear>, AirError> {
    let e = Expressions::new(alloc);
    let mut c = Constraints::new(alloc, &e, 2);
    let (bit, count) = (e.current(0), e.current(1));
    c.assert_bool(bit);
    c.when_first_row().assert_zero(count);
    c.when_transition().assert_eq(e.next(1), count + bit);
    c.into_air()
}

/// Four rows of the counter.
fn trace(alloc: Global) -> Result<RowMajorMatrix<BabyBear>, AirError> {
    Ok(trace_of_rows(alloc, &[[1, 0], [0, 1], [1, 1], [0, 2]])?)
}

/// The counter and these rows, as an object.
fn counter_object(alloc: Global) -> Result<Value, ExportError> {
    let air = counter(alloc)?;
    let trace = trace(alloc)?;
    export_flat_air(alloc, &air, &trace, &[], None, 0)
}

/// Whether the first word is `object`.
fn asks_for_object(rt: &HostRuntime) -> io::Result<bool> {
    let mut words = env::args(rt)?.skip(1);
    match words.next() {
        Some(word) => Ok(word.as_str() == "object"),
        None => Ok(false),
    }
}

fn main(rt: HostRuntime) -> io::Result<()> {
    if asks_for_object(&rt)? {
        return print_object(&rt, counter_object(rt.alloc()));
    }
    print_audit(&rt, counter(rt.alloc()), trace(rt.alloc()), &[])
}

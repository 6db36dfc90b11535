//! AIRs as objects: with their labels, recorded, without a trace; and what is refused.
use air_export::{ExportError, export_air, export_air_alone, export_flat_air, print_object};
use p3_air::{
    AirError, BabyBear, BoundaryEnd, Constraints, Expressions, Field, Fixed, FlatAir,
    RowMajorMatrix, trace_of_rows,
};
use serde_json::Value;
use std::alloc::Global;
use std::io;

type Object = Result<Value, ExportError>;

/// A bit, and the count of the bits above, which ends at the public value. On every second row the bit is that of the
/// preprocessed trace.
fn counter(alloc: Global) -> Result<FlatAir<BabyBear>, AirError> {
    let e = Expressions::new(alloc);
    let fixed = Fixed::new(alloc)
        .with_preprocessed(trace_of_rows(alloc, &[[1], [5], [1], [6]])?)
        .with_periodic_numbers(&[1, 0])?;
    let mut c = Constraints::new(alloc, &e, 2)
        .with_public_values(1)
        .with_boundary(1, BoundaryEnd::Last, 0);
    let (bit, count) = (e.current(0), e.current(1));
    c.assert_bool(bit);
    c.when_first_row().named("zero").assert_zero(count);
    c.when_transition().assert_eq(e.next(1), count + bit);
    c.when(e.periodic(0))
        .assert_eq(bit, e.preprocessed_current(0));
    c.into_air_with(fixed)
}

fn rows(alloc: Global) -> Result<RowMajorMatrix<BabyBear>, AirError> {
    Ok(trace_of_rows(alloc, &[[1, 0], [0, 1], [1, 1], [0, 2]])?)
}

fn labelled(alloc: Global, public_values: &[BabyBear]) -> Object {
    export_flat_air(
        alloc,
        &counter(alloc)?,
        &rows(alloc)?,
        public_values,
        None,
        0,
    )
}

fn recorded(alloc: Global, public_values: &[BabyBear]) -> Object {
    export_air(
        alloc,
        &counter(alloc)?,
        &rows(alloc)?,
        public_values,
        Some(3),
        1,
    )
}

fn alone(alloc: Global) -> Object {
    export_air_alone(alloc, &counter(alloc)?)
}

fn one_column(alloc: Global) -> Object {
    let trace = trace_of_rows(alloc, &[[1], [0], [1], [0]])?;
    export_flat_air(alloc, &counter(alloc)?, &trace, &[], None, 0)
}

fn print_under(rt: &HostRuntime, heading: &str, object: Object) -> io::Result<()> {
    println!(rt; "== {heading}")?;
    print_object(rt, object)
}

/// Prints the objects.
pub fn print(rt: &HostRuntime) -> io::Result<()> {
    let alloc = rt.alloc();
    let two = BabyBear::from_u64(2);
    print_under(rt, "an object with labels", labelled(alloc, &[two]))?;
    print_under(rt, "a recorded object", recorded(alloc, &[two]))?;
    print_under(rt, "an object without a trace", alone(alloc))?;
    print_under(rt, "a trace of one column", one_column(alloc))?;
    print_under(rt, "no public value", recorded(alloc, &[]))
}

//! Constraints as text.
use air_print::show;
use p3_air::{AirError, BabyBear, FlatAir, print_constraints};
use std::alloc::{AllocError, Global};
use std::io;

/// The lines of an AIR's constraints, without labels.
pub fn shown(alloc: Global, air: &FlatAir<BabyBear>) -> Result<String, AllocError> {
    show(alloc, &air.pool, &air.roots, &[])
}

/// Prints a heading, and below it the constraints, or why there are none.
pub fn print_shown(
    rt: &HostRuntime,
    heading: &str,
    air: Result<FlatAir<BabyBear>, AirError>,
) -> io::Result<()> {
    println!(rt; "== {heading}")?;
    print_constraints(rt, air)
}

//! Checks values that fit 16 bits, and values of which one does not.
#![tactic(auto)]

mod checks;
mod range;

use checks::check_range;
use p3_air::{AirError, BabyBear, CheckError, trace_of_rows, with_bits};
use std::alloc::Global;

fn check_values(alloc: Global, values: [u64; 4]) -> Result<(), CheckError> {
    let rows = values.map(|value| with_bits::<17>(value));
    let trace = trace_of_rows::<BabyBear, 17>(alloc, &rows).map_err(|e| AirError::from(e))?;
    check_range(alloc, &trace)
}

fn main(rt: HostRuntime) -> std::io::Result<()> {
    for values in [[0, 1, 65535, 40000], [0, 1, 65536, 40000]] {
        match check_values(rt.alloc(), values) {
            Ok(()) => println!(rt; "each value is below 65536")?,
            Err(error) => println!(rt; "{error}")?,
        }
    }
    Ok(())
}

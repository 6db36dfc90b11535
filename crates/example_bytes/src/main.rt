//! Bytes by a lookup: 256 values that are all below 256, and 256 of which one isn't.
#![tactic(auto)]

mod bytes;
mod checks;
mod traces;

use checks::bytes_pass;
use p3_air::{
    AirError, BabyBear, BinomialExtensionField as Extension, ExtensionField, Permutation,
    trace_of_rows,
};
use std::alloc::Global;
use std::io;
use traces::{shares_of, table_rows};

/// Whether the trace passes with the shares at alpha. A prover draws alpha once the trace is committed; here it is 11 +
/// X, where X is the root (X^4 = 11).
fn trace_passes(alloc: Global, broken: bool) -> Result<bool, AirError> {
    let alpha = Extension::from_basis_coefficients(&[11, 1, 0, 0].map(BabyBear::new));
    let rows = table_rows(alloc, broken)?;
    let main = trace_of_rows(alloc, &rows)?;
    let shares = shares_of(alloc, &rows, alpha)?;
    bytes_pass(alloc, &main, Permutation::new(&shares, &[alpha], &[]))
}

fn main(rt: HostRuntime) -> io::Result<()> {
    for broken in [false, true] {
        match trace_passes(rt.alloc(), broken) {
            Ok(true) => println!(rt; "passes: each value is a byte")?,
            Ok(false) => println!(rt; "doesn't pass")?,
            Err(error) => println!(rt; "refused: {error}")?,
        }
    }
    Ok(())
}

//! Checks three correct sums of words, then three of which one is wrong.
#![tactic(auto)]

mod adder;
mod checks;

use checks::check_sums;
use p3_air::{AirError, BabyBear, CheckError, Field, RowMajorMatrix, word_with_bits};
use std::alloc::Global;

fn check_rows(alloc: Global, rows: [[u32; 3]; 3]) -> Result<(), CheckError> {
    let mut cells = Vec::new(alloc);
    for word in rows.as_flattened() {
        let word = word_with_bits(*word).map(BabyBear::from_u64);
        cells.extend_from_slice(&word).map_err(AirError::from)?;
    }
    let trace = RowMajorMatrix::new(cells, 102).map_err(AirError::from)?;
    check_sums(alloc, &trace)
}

fn main(rt: HostRuntime) -> std::io::Result<()> {
    let right = [[3, 1, 2], [0, u32::MAX, 1], [4, 6, u32::MAX - 1]];
    for rows in [right, [[3, 1, 2], [65537, 65535, 1], [65536, u32::MAX, 1]]] {
        match check_rows(rt.alloc(), rows) {
            Ok(()) => println!(rt; "each sum is right")?,
            Err(error) => println!(rt; "{error}")?,
        }
    }
    Ok(())
}

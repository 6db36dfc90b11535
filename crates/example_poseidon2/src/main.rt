//! Poseidon2 over BabyBear, width 16: prints one permutation, then audits a correct trace and a wrong one.
#![tactic(auto)]

mod constants;
mod poseidon;
mod trace;

use p3_air::{AirError, PrimeField64, print_audit};
use poseidon::poseidon;
use std::alloc::Global;
use std::io;
use trace::{OUTPUT, row_from, trace};

// The output of the permutation of 0 to 15, as text.
fn permutation_text(alloc: Global) -> Result<String, AirError> {
    let row = row_from(alloc, 0, false)?;
    let mut text = String::new(alloc);
    for x in row.iter().skip(OUTPUT) {
        write!(text, " {}", x.as_canonical_u64())?;
    }
    Ok(text)
}

fn main(rt: HostRuntime) -> io::Result<()> {
    let alloc = rt.alloc();
    match permutation_text(alloc) {
        Ok(text) => println!(rt; "permutation{text}")?,
        Err(error) => println!(rt; "refused: {error}")?,
    }
    print_audit(&rt, poseidon(alloc), trace(alloc, None), &[])?;
    print_audit(&rt, poseidon(alloc), trace(alloc, Some(2)), &[])
}

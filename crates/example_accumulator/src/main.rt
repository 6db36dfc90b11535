//! Audits an accumulator on a trace whose last total is public, and on one in which a value was skipped.
#![tactic(auto)]

mod accumulator;
mod laws;

use accumulator::Accumulator;
use laws::total_is_sound;
use p3_air::author::Plain;
use p3_air::{AirError, Audit, BabyBear, audit_air, trace_of_rows};
use std::alloc::Global;
use std::io;

/// The audit of four values with these totals before each, where the sum is said to be 10.
fn audit_of_totals(alloc: Global, totals: [u64; 4]) -> Result<Audit<BabyBear>, AirError> {
    total_is_sound::<BabyBear>();
    let [a, b, c, d] = totals;
    let trace = trace_of_rows(alloc, &[[1, a], [2, b], [3, c], [4, d]])?;
    audit_air(
        alloc,
        &Plain(Accumulator {}),
        &trace,
        &[BabyBear::new(10)],
        0,
    )
}

fn main(rt: HostRuntime) -> io::Result<()> {
    for totals in [[0, 1, 3, 6], [0, 1, 1, 4]] {
        match audit_of_totals(rt.alloc(), totals) {
            Ok(audit) => {
                println!(rt; "degree {}", audit.degree)?;
                println!(rt; "failures {}", audit.report.failures.len())?;
                for failure in &audit.report.failures {
                    println!(rt; "row {}: {failure}", failure.row)?;
                }
            }
            Err(error) => println!(rt; "refused: {error}")?,
        }
    }
    Ok(())
}

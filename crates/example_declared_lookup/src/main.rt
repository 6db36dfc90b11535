//! Audits a correct trace of square lookups, and a wrong one.
#![tactic(auto)]

mod lookup;

use lookup::Lookup;
use p3_air::{AirError, Audit, BabyBear, Field, audit_air, trace_of_rows};
use std::alloc::Global;
use std::io;

fn audit_of(alloc: Global, rows: &[[u64; 4]; 8]) -> Result<Audit<BabyBear>, AirError> {
    let turn = vec![in alloc; BabyBear::ONE, BabyBear::ONE, BabyBear::ZERO, BabyBear::ONE]?;
    let turns = vec![in alloc; turn]?;
    let air = Lookup::new(alloc, turns)?;
    let trace = trace_of_rows(alloc, rows)?;
    audit_air(alloc, &air, &trace, &[BabyBear::new(4)], 0)
}

fn show(rt: &HostRuntime, rows: &[[u64; 4]; 8]) -> io::Result<()> {
    match audit_of(rt.alloc(), rows) {
        Ok(audit) => {
            println!(rt; "degree {}", audit.degree)?;
            for failure in &audit.report.failures {
                println!(rt; "row {} {failure}", failure.row)?;
            }
            println!(rt; "failures {}", audit.report.failures.len())
        }
        Err(error) => println!(rt; "refused: {error}"),
    }
}

fn main(rt: HostRuntime) -> io::Result<()> {
    // Columns: number, square, selector, count.
    let right = [
        [0, 0, 1, 1],
        [1, 1, 1, 2],
        [2, 4, 0, 2],
        [3, 9, 1, 3],
        [7, 7, 0, 3],
        [5, 25, 1, 4],
        [0, 0, 0, 4],
        [0, 0, 0, 4],
    ];
    show(&rt, &right)?;
    let mut wrong = right;
    // Row 2 is selected, which the periodic column forbids; 24 is not 5 squared.
    wrong[2][2] = 1;
    wrong[5][1] = 24;
    show(&rt, &wrong)
}

//! An AIR without a declared list: its constraints are recorded, and the audit is about the recorded terms.

use p3_air::author::{FirstRow, IsOne, LastRow, Transition, When, current, next, public};
use p3_air::{
    AirBuilder, AirError, AirLayout, Audit, BabyBear, Beside, Field, FlatAir, RowMajorMatrix,
    SymbolicAirBuilder, audit_air, finish_recording, record_these, recorded_air,
};
use std::alloc::Global;
use std::io;

/// Column 0 starts at one, doubles from row to row, and ends as the public value.
fn assert_doubling<AB: AirBuilder>(builder: &mut AB) -> Result<(), AirError>
    requires { AB.ready builder.old }
    ensures { AB.ready builder.new }
{
    record_these(builder, &When(FirstRow, IsOne(current(0))))?;
    let doubled = next(0).equals(current(0).double());
    record_these(builder, &When(Transition, doubled))?;
    record_these(builder, &When(LastRow, current(0).equals(public(0))))
}

/// The AIR of these constraints, over any field.
fn record_doubling<F: Field>(alloc: Global) -> Result<FlatAir<F>, AirError> {
    let layout = AirLayout {
        main_width: 1,
        num_public_values: 1,
        ..AirLayout::default()
    };
    let mut builder: SymbolicAirBuilder<F, F> = SymbolicAirBuilder::new(alloc, layout)?;
    assert_doubling(&mut builder)?;
    let recorded = finish_recording(builder);
    recorded_air(recorded, Beside::new(alloc, 1, 1))
}

/// Audits four rows whose last value is `last`.
fn audit_of(alloc: Global, last: u32) -> Result<Audit<BabyBear>, AirError> {
    let air: FlatAir<BabyBear> = record_doubling(alloc)?;
    let mut cells = Vec::new(alloc);
    for number in [1, 2, 4, last] {
        cells.push(BabyBear::new(number))?;
    }
    let trace = RowMajorMatrix::new(cells, 1)?;
    audit_air(alloc, &air, &trace, &[BabyBear::new(8)], 0)
}

/// Audits the rows 1, 2, 4, 8 and the rows 1, 2, 4, 9.
pub fn print(rt: &HostRuntime) -> io::Result<()> {
    for last in [8, 9] {
        match audit_of(rt.alloc(), last) {
            Ok(audit) => {
                println!(rt;
                    "degree {}, constraints {}",
                    audit.degree,
                    audit.recorded.base.len()
                )?;
                for failure in &audit.report.failures {
                    println!(rt; "row {}: {failure}", failure.row)?;
                }
            }
            Err(error) => println!(rt; "refused: {error}")?,
        }
    }
    Ok(())
}

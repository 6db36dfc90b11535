//! What an AIR says, and what an audit of it found, printed.
use air_audit::{Audit, FlatAir, audit_air, has_declared_shape};
use air_core::AirError;
use air_field::{PrimeField64, RowMajorMatrix, SelfExtension};
use air_print::show;
use std::io;

/// Prints the constraints of an AIR as people read them, each with its degree and its label. Where the AIR is refused, it
/// prints why.
///
/// So an author sees what the AIR says: that the text is that of the AIR's expressions is proved (air_print).
pub fn print_constraints<F: PrimeField64>(
    rt: &HostRuntime,
    air: Result<FlatAir<F>, AirError>,
) -> io::Result<()> {
    let air = match air {
        Ok(air) => air,
        Err(error) => return println!(rt; "refused: {error}"),
    };
    match show(rt.alloc(), &air.pool, &air.roots, &air.labels) {
        Ok(text) => print!(rt; "{text}"),
        Err(_) => println!(rt; "refused: {}", AirError::Memory),
    }
}

/// Prints what an audit found: the degree, the number of failures, and a line for each of them.
fn print_found<F: SelfExtension>(rt: &HostRuntime, audit: &Audit<F>) -> io::Result<()> {
    println!(rt; "degree {}", audit.degree)?;
    println!(rt; "failures {}", audit.report.failures.len())?;
    for failure in &audit.report.failures {
        println!(rt; "row {}: {failure}", failure.row)?;
    }
    Ok(())
}

/// Audits a trace of an AIR in a domain whose transition selector is a linear polynomial, and prints what it found: the
/// degree, the number of failures and a line for each. Where the AIR or the audit is refused, or the trace hasn't the
/// columns and public values that the AIR declares, it prints why.
pub fn print_audit<F: SelfExtension + 'static, E: Into<AirError> + Drop>(
    rt: &HostRuntime,
    air: Result<FlatAir<F>, AirError>,
    trace: Result<RowMajorMatrix<F>, E>,
    public_values: &[F],
) -> io::Result<()> {
    let air = match air {
        Ok(air) => air,
        Err(error) => return println!(rt; "refused: {error}"),
    };
    let trace = match trace {
        Ok(trace) => trace,
        Err(error) => {
            let error: AirError = error.into();
            return println!(rt; "refused: {error}");
        }
    };
    if let Err(error) = has_declared_shape(&air, &trace, public_values) {
        return println!(rt; "refused: {error}");
    }
    match audit_air(rt.alloc(), &air, &trace, public_values, 0) {
        Ok(audit) => print_found(rt, &audit),
        Err(error) => println!(rt; "refused: {error}"),
    }
}

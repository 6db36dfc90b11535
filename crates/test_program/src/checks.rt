//! Checks of whole traces.

use air_audit::{
    Air, CheckError, ConstraintFailure, ConstraintReport, DebugConstraintBuilder, FlatAir,
    check_all_constraints, check_constraints,
};
use air_field::{Field, PrimeField64, RowMajorMatrix};
use air_program::{FlatInput, flat_input_from};
use std::alloc::Global;
use test_lines::words::value_of;
use test_lines::{Fault, Why};

// Adds each failure, after a space.
fn show_failures(failures: &[ConstraintFailure], text: &mut String) -> Result<(), Fault> {
    for failure in failures {
        let row = failure.row;
        write!(text, " row {row}: {failure}")?;
    }
    Ok(())
}

/// Adds a report.
pub fn show_report(report: &ConstraintReport, text: &mut String) -> Result<(), Fault> {
    let rows = report.total_rows;
    let constraints = report.total_constraints_per_row;
    write!(text, "rows {rows} constraints {constraints}")?;
    show_failures(&report.failures, text)
}

// Adds why the check failed.
fn show_error(error: CheckError, text: &mut String) -> Result<(), Fault> {
    match error {
        CheckError::BoundaryMismatch { row, index } => {
            write!(text, "BoundaryMismatch row {row} index {index}")?;
            Ok(())
        }
        CheckError::RowFailed { row, failures } => {
            write!(text, "RowFailed {row}:")?;
            show_failures(&failures, text)
        }
        CheckError::Refused(error) => Err(Fault::from(error)),
    }
}

/// Adds the answer of a check of a trace.
pub fn show_check<'a, F: Field + 'static, A: Air<DebugConstraintBuilder<'a, F, F>>>(
    alloc: Global,
    call: &str,
    air: &'a A,
    main: &'a RowMajorMatrix<F>,
    public_values: &'a [F],
    cap: Option<usize>,
    text: &mut String,
) -> Result<(), Fault> {
    match call {
        "check_all_constraints" => {
            let report = check_all_constraints(alloc, air, main, public_values, cap)?;
            show_report(&report, text)
        }
        "check_constraints" => match check_constraints(alloc, air, main, public_values) {
            Ok(()) => Ok(text.push_str("Ok")?),
            Err(error) => show_error(error, text),
        },
        _ => Err(Fault::Unreadable(Why::NoSuchCall)),
    }
}

/// Adds the answer of a check of an object's trace.
pub fn show_flat_check<F: PrimeField64 + 'static>(
    alloc: Global,
    call: &str,
    object: &str,
    text: &mut String,
) -> Result<(), Fault> {
    let value = value_of(alloc, object)?;
    let FlatInput {
        constraints,
        beside,
        trial,
    } = flat_input_from::<F>(alloc, &value)?;
    let air = FlatAir::new(constraints.pool, constraints.roots, beside)?;
    let (main, public_values) = (&trial.main, &trial.public_values);
    show_check(alloc, call, &air, main, public_values, trial.cap, text)
}

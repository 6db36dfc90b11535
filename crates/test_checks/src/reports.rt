//! Checks of a trace, and audits.

use air_audit::{
    Air, Audit, BaseAir, CheckError, ConstraintFailure, ConstraintReport, DebugConstraintBuilder,
    Field, RowMajorMatrix, SymbolicAirBuilder, audit_air, check_all_constraints, check_constraints,
};
use std::alloc::Global;
use test_airs::words::trace_of;
use test_airs::{Constraints, ListAir, TableAir};
use test_lines::words::listed_elements;
use test_lines::{Fault, Why};

/// The builder that records an AIR over the base field.
pub type BaseRecorder<F> = SymbolicAirBuilder<F, F>;
/// The builder that checks a row.
pub type RowBuilder<'a, F> = DebugConstraintBuilder<'a, F, F>;

/// A trace and public values.
#[derive(Drop)]
pub struct Given<F> {
    pub main: RowMajorMatrix<F>,
    pub public: Vec<F>,
}

/// The trace and the public values of two words.
pub fn given_of<F: Field>(alloc: Global, main: &str, public: &str) -> Result<Given<F>, Fault> {
    let main = trace_of(alloc, main)?;
    let public = listed_elements(alloc, public)?;
    Ok(Given { main, public })
}

/// Adds the rows, constraint indices and labels of failures.
pub fn show_failures(failures: &[ConstraintFailure], text: &mut String) -> Result<(), Fault> {
    for failure in failures {
        let row = failure.row;
        write!(text, ", row {row} {failure}")?;
    }
    Ok(())
}

// Adds the counts of a report and its failures.
fn show(report: &ConstraintReport, text: &mut String) -> Result<(), Fault> {
    let rows = report.total_rows;
    let constraints = report.total_constraints_per_row;
    write!(text, "rows {rows}, constraints {constraints}")?;
    if report.is_ok() {
        text.push_str(", ok")?;
    }
    show_failures(report.failures.as_slice(), text)
}

/// The question to a check.
#[derive(Drop)]
pub enum Asked {
    /// The report, under a cap if there is one, or the debug text of a copy of it.
    Report { cap: Option<usize>, copied: bool },
    /// The first failure. An error of the check is returned as a fault, or written as its own text if `in_words`.
    First { in_words: bool },
}

// Adds the first failure of a check.
fn show_first(error: CheckError, in_words: bool, text: &mut String) -> Result<(), Fault> {
    match error {
        CheckError::Refused(error) if !in_words => Err(Fault::from(error)),
        error => {
            write!(text, "{error}")?;
            if let CheckError::RowFailed { failures, .. } = &error {
                show_failures(failures.as_slice(), text)?;
            }
            Ok(())
        }
    }
}

// Adds the debug text of a copy of a report.
fn show_copy(report: &ConstraintReport, text: &mut String) -> Result<(), Fault> {
    let copy = report.clone()?;
    write!(text, "{copy:?}")?;
    Ok(())
}

// Adds a report, or the debug text of a copy of it.
fn show_report(report: &ConstraintReport, copied: bool, text: &mut String) -> Result<(), Fault> {
    if copied {
        show_copy(report, text)
    } else {
        show(report, text)
    }
}

// Adds the answer of a check.
fn answer_check<'a, F: Field + 'static, A: Air<RowBuilder<'a, F>>>(
    alloc: Global,
    air: &'a A,
    given: &'a Given<F>,
    asked: Asked,
    text: &mut String,
) -> Result<(), Fault> {
    let (main, public) = (&given.main, given.public.as_slice());
    match asked {
        Asked::Report { cap, copied } => {
            let report = check_all_constraints(alloc, air, main, public, cap)?;
            show_report(&report, copied, text)
        }
        Asked::First { in_words } => match check_constraints(alloc, air, main, public) {
            Ok(()) => Ok(text.push_str("ok")?),
            Err(error) => show_first(error, in_words, text),
        },
    }
}

/// Adds the answer of a check of a table's AIR.
pub fn show_check<F: Field + 'static>(
    alloc: Global,
    air: &TableAir<F>,
    given: &Given<F>,
    asked: Asked,
    text: &mut String,
) -> Result<(), Fault> {
    answer_check::<F, TableAir<F>>(alloc, air, given, asked, text)
}

// Adds the degree that an audit infers, and its report.
fn show_audited<F: Field>(audit: &Audit<F>, text: &mut String) -> Result<(), Fault> {
    let degree = audit.degree;
    write!(text, "degree {degree}, ")?;
    show(&audit.report, text)
}

/// Adds the inferred degree and the report of an audit with this weight of the transition selector.
pub fn show_audit<
    'a,
    F: Field + 'static,
    A: BaseAir<F> + Air<BaseRecorder<F>> + Air<RowBuilder<'a, F>>,
>(
    alloc: Global,
    air: &'a A,
    given: &'a Given<F>,
    weight: usize,
    text: &mut String,
) -> Result<(), Fault> {
    let audit = audit_air(alloc, air, &given.main, given.public.as_slice(), weight)?;
    show_audited(&audit, text)
}

/// Adds the audit of a table's AIR, if its constraints are over the base field. (Over any field: at a concrete one the
/// comparison exceeds the checker's limit.)
pub fn show_base_audit<F: Field + 'static>(
    alloc: Global,
    air: &TableAir<F>,
    main: &RowMajorMatrix<F>,
    public: &[F],
    weight: usize,
    text: &mut String,
) -> Result<(), Fault> {
    match air.constraints {
        Constraints::Base(list) => {
            let air = ListAir { list, air };
            let audit = audit_air(alloc, &air, main, public, weight)?;
            show_audited(&audit, text)
        }
        _ => Err(Fault::Unreadable(Why::NoSuchCall)),
    }
}

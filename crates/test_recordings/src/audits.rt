//! Audits: the recording, the report and the degree at once.

use crate::recordings::{Recorder, show_base};
use air_audit::{Audit, audit_air, audit_air_with_cap};
use air_builder::{Air, BaseAir};
use air_field::RowMajorMatrix;
use air_report::{ConstraintFailure, DebugConstraintBuilder};
use air_symbolic::{BaseLeaf, SymLeaf};
use std::alloc::Global;
use test_lines::Fault;
use test_lines::words::Number;

pub type RowBuilder<'a, F> = DebugConstraintBuilder<'a, F, F>;

/// The input of an audit besides the AIR.
#[derive(Drop)]
pub struct Given<F> {
    pub main: RowMajorMatrix<F>,
    pub public_values: Vec<F>,
    pub transition_weight: usize,
    /// The cap, if the call takes one.
    pub cap: Option<Option<usize>>,
}

// Adds each failure with its row, or `none`.
fn show_failures(failures: &[ConstraintFailure], text: &mut String) -> Result<(), Fault> {
    for (place, failure) in failures.iter().enumerate() {
        text.push_str(if place == 0 { "" } else { ", " })?;
        let row = failure.row;
        write!(text, "row {row} {failure}")?;
    }
    text.push_str(if failures.is_empty() { "none" } else { "" })?;
    Ok(())
}

// Adds the degree, the counts and the constraint indices, then the failures, then the recorded constraints.
fn show_audit<F: Number>(audit: &Audit<F>, text: &mut String) -> Result<(), Fault> {
    let degree = audit.degree;
    let rows = audit.report.total_rows;
    let constraints = audit.report.total_constraints_per_row;
    let base = &audit.layout.base_indices;
    let ext = &audit.layout.ext_indices;
    write!(
        text,
        "degree {degree}, rows {rows}, constraints {constraints}, base {base:?}, extension {ext:?} | failures: "
    )?;
    show_failures(&audit.report.failures, text)?;
    text.push_str(" | recorded: ")?;
    show_base(&audit.recorded, text)
}

/// Adds the answer of an audit, under the cap if there is one.
pub fn answer_audit<
    'a,
    F: Number + 'static,
    A: BaseAir<F> + Air<Recorder<F, F>> + Air<RowBuilder<'a, F>>,
>(alloc: Global, air: &'a A, given: &'a Given<F>, text: &mut String) -> Result<(), Fault> {
    let public = given.public_values.as_slice();
    let weight = given.transition_weight;
    match given.cap {
        None => {
            let audit = audit_air(alloc, air, &given.main, public, weight)?;
            show_audit(&audit, text)
        }
        Some(cap) => {
            let audit = audit_air_with_cap(alloc, air, &given.main, public, cap, weight)?;
            show_audit(&audit, text)
        }
    }
}

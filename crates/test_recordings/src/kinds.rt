//! Calls on the AIRs of tables. Each is a generic function, called at the fields of the tables. In a function that
//! itself names both fields, the comparison of the builder's trait bounds exceeds the checker's limit.

use crate::audits::{Given, RowBuilder, answer_audit};
use crate::folds::{Folder, Row, answer_fold};
use crate::recordings::{Recorder, answer_base, answer_extension};
use air_builder::{Air, BaseAir};
use air_field::ExtensionField;
use air_recording::AirLayout;
use std::alloc::Global;
use test_airs::TableAir;
use test_lines::Fault;
use test_lines::words::Number;

// Adds the answer of an audit, if its input is given; otherwise that of a call that records over the base field.
// Returns whether the call is one of these.
fn over_base<'a, F: Number + 'static, A: BaseAir<F> + Air<Recorder<F, F>> + Air<RowBuilder<'a, F>>>(
    alloc: Global,
    air: &'a A,
    given: &'a Option<Given<F>>,
    layout: AirLayout,
    call: &str,
    words: &[&str],
    text: &mut String,
) -> Result<bool, Fault> {
    match given {
        Some(given) => {
            answer_audit(alloc, air, given, text)?;
            Ok(true)
        }
        None => answer_base::<F, A>(alloc, air, layout, call, words, text),
    }
}

/// Calls `over_base` for a table's AIR.
pub fn by_base<F: Number + 'static>(
    alloc: Global,
    air: &TableAir<F>,
    given: &Option<Given<F>>,
    layout: AirLayout,
    call: &str,
    words: &[&str],
    text: &mut String,
) -> Result<bool, Fault> {
    over_base(alloc, air, given, layout, call, words, text)
}

// Adds the fold of the AIR's values, if a row is given; otherwise the answer of a call that records with an extension.
fn over_extension<
    'a,
    F: Number + 'static,
    EF: ExtensionField<F> + 'static,
    A: BaseAir<F> + Air<Recorder<F, EF>> + Air<Folder<'a, F, EF>>,
>(
    alloc: Global,
    air: &A,
    row: &'a Option<Row<EF>>,
    layout: AirLayout,
    call: &str,
    words: &[&str],
    text: &mut String,
) -> Result<(), Fault> {
    match row {
        Some(row) => answer_fold::<F, EF, A>(alloc, air, layout, row, text),
        None => answer_extension::<F, EF, A>(alloc, air, layout, call, words, text),
    }
}

/// Calls `over_extension` for a table's AIR.
pub fn by_extension<F: Number + 'static, EF: ExtensionField<F> + 'static>(
    alloc: Global,
    air: &TableAir<F>,
    row: &Option<Row<EF>>,
    layout: AirLayout,
    call: &str,
    words: &[&str],
    text: &mut String,
) -> Result<(), Fault> {
    over_extension::<F, EF, TableAir<F>>(alloc, air, row, layout, call, words, text)
}

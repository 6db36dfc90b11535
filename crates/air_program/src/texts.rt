//! Answers, and the text of what an audit found.

ghost use Rattle.std.specs.Prelude.{◌≡◌, ◌++◌, OnOk, IfOk, IfSome, option_map, string_bytes};
ghost use Rattle.air_report.specs.FailureTexts.{label_suffix, seen_failure};
ghost use Rattle.air_print.specs.Labels.{HasNoLineEnd};
ghost use Rattle.air_program.specs.Texts.{count_lines, found_in, PushesLine, IsFindingsText};
ghost use Rattle.air_print.specs.Lines.{lines_text};

use air_audit::{Audit, ConstraintFailure};
use air_field::PrimeField64;
use air_print::shown_label;
use std::alloc::{AllocError, Global};

/// The exit status, and the text that is printed.
#[derive(Drop)]
pub struct Answer {
    pub status: u8,
    pub text: String,
}

/// Appends the lines of the three counts.
#[tactic(auto, unfolding(crate::specs::Texts::count_lines))]
pub(crate) fn push_counts<F: PrimeField64>(
    text: &mut String,
    audit: &Audit<F>,
) -> Result<(), AllocError>
    ensures { OnOk result (string_bytes text.new ≡ string_bytes text.old ++ lines_text
        (count_lines (found_in audit.now))) }
{
    let degree = audit.degree;
    let rows = audit.report.total_rows;
    let constraints = audit.report.total_constraints_per_row;
    writeln!(text, "degree {degree}")?;
    writeln!(text, "rows {rows}")?;
    writeln!(text, "constraints {constraints}")
}

/// The text after a failure's place: the shown label, if there is one.
fn text_behind(alloc: Global, label: &Option<String>) -> Result<String, AllocError>
    ensures one_line { IfOk result (λ text. HasNoLineEnd (string_bytes text)) }
    ensures shown { IfOk result (λ text. IfSome (label_suffix (option_map string_bytes label.now))
        (λ suffix. string_bytes text ≡ suffix)) }
{
    match label {
        Some(label) => shown_label(alloc, label),
        None => Ok(String::new(alloc)),
    }
}

/// Appends the line of a failure.
#[tactic(auto, unfolding(crate::specs::Texts::place_text))]
pub(crate) fn push_failure(
    alloc: Global,
    text: &mut String,
    failure: &ConstraintFailure,
) -> Result<(), AllocError>
    ensures { OnOk result (PushesLine (seen_failure failure.now) (string_bytes text.old)
        (string_bytes text.new)) }
{
    let row = failure.row;
    let constraint = failure.constraint;
    let label = text_behind(alloc, &failure.label)?;
    writeln!(text, "row {row}: #{constraint}{label}")
}

/// A line for each count and for each failure.
pub fn findings_text<F: PrimeField64>(alloc: Global, audit: &Audit<F>) -> Result<String, AllocError>
    ensures { IfOk result (λ text. IsFindingsText (found_in audit.now) (string_bytes text)) }
{
    let mut text = String::new(alloc);
    push_counts(&mut text, audit)?;
    for failure in &audit.report.failures {
        push_failure(alloc, &mut text, failure)?;
    }
    Ok(text)
}

//! Constraints that failed.
ghost use Rattle.std.specs.Prelude.{◌≡◌, IfOk, IfSome, option_map, string_bytes};
ghost use Rattle.air_report.specs.FailureTexts.{failure_text, failures_text, label_bytes, seen_failure};

use std::alloc::{AllocError, Global};
use std::fmt;
use std::fmt::Display;

/// A constraint that isn't zero at a row, or a boundary value that is violated.
///
/// It displays as `#k`, where k is `constraint`. A label follows as a space and the label's debug text.
#[derive(Debug, Drop)]
pub struct ConstraintFailure {
    /// The row, counted from 0.
    pub row: usize,
    /// The constraint index: the index among the row's assertions, counted from 0, or from the number that the builder
    /// was made to count from. For a boundary value, its index in the AIR's list plus the number of constraints of a
    /// row.
    pub constraint: usize,
    /// The label of the assertion, if it has one; a boundary value always has one.
    pub label: Option<String>,
}

impl Display for ConstraintFailure {
    ghost output = { λ failure. failure_text failure.constraint (label_bytes failure) };

    fn fmt<W: fmt::Write>(&self, f: &mut fmt::Formatter<W>) -> fmt::Result {
        write!(f, "#{}", self.constraint)?;
        if let Some(label) = &self.label {
            write!(f, " {label:?}")?;
        }
        Ok(())
    }
}

impl ConstraintFailure {
    /// A failure with the same row, constraint and label.
    pub fn clone(&self) -> Result<Self, AllocError>
        ensures { IfOk result (λ copy. seen_failure copy ≡ seen_failure self.now) }
    {
        let label = match &self.label {
            Some(label) => Some(label.clone()?),
            None => None,
        };
        Ok(ConstraintFailure {
            row: self.row,
            constraint: self.constraint,
            label,
        })
    }
}

/// The failures as `[a, b]`.
pub(crate) fn failures_text(
    alloc: Global,
    failures: &[ConstraintFailure],
) -> Result<String, AllocError>
    ensures { IfOk result (λ text. IfSome (failures_text failures.now)
        (λ bytes. string_bytes text ≡ bytes)) }
{
    let mut text = String::new(alloc);
    text.push_str("[")?;
    for (i, failure) in failures.iter().enumerate() {
        if i > 0 {
            text.push_str(", ")?;
        }
        write!(text, "{failure}")?;
    }
    text.push_str("]")?;
    Ok(text)
}

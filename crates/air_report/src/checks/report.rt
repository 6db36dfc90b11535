//! The report of a check of a whole trace.
ghost use Rattle.std.specs.Prelude.{◌≡◌, ◌↔◌, IsTrue, [], IfOk, map};
ghost use Rattle.air_report.specs.FailureTexts.{seen_failure};

use crate::debug::failure::ConstraintFailure;
use std::alloc::AllocError;

/// The failures of a trace: those of its rows, by row and then by constraint index, and then those of the boundary
/// values, in the order of the AIR's list.
#[derive(Debug, Drop)]
pub struct ConstraintReport {
    pub failures: Vec<ConstraintFailure>,
    /// The height of the trace.
    pub total_rows: usize,
    /// The number of constraints of row 0; 0 if no row ran.
    pub total_constraints_per_row: usize,
}

impl ConstraintReport {
    /// Whether no failure is listed; with a cap of 0 none ever is.
    pub fn is_ok(&self) -> bool
        ensures { IsTrue result ↔ (self.now.failures.items ≡ []) }
    {
        self.failures.is_empty()
    }

    /// A report with the same counts and failures.
    pub fn clone(&self) -> Result<Self, AllocError>
        ensures rows { IfOk result (λ copy. copy.total_rows ≡ self.now.total_rows) }
        ensures constraints { IfOk result (λ copy. copy.total_constraints_per_row
            ≡ self.now.total_constraints_per_row) }
        ensures failures { IfOk result (λ copy. map seen_failure copy.failures.items ≡ map
            seen_failure self.now.failures.items) }
    {
        let mut failures = Vec::with_capacity(*self.failures.allocator(), self.failures.len())?;
        for failure in &self.failures {
            failures.push(failure.clone()?)?;
        }
        Ok(ConstraintReport {
            failures,
            total_rows: self.total_rows,
            total_constraints_per_row: self.total_constraints_per_row,
        })
    }
}

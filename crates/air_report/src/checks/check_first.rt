//! A check of a whole trace up to its first fault.
ghost use Rattle.std.specs.Prelude.{◌≡◌, OnOk, IfErr};
ghost use Rattle.air_report.specs.Checks.{IsSatisfied, IsFirstError};
ghost use Rattle.air_report.specs.Instances.{instance};
ghost use Rattle.air_report.specs.RowLabels.{LabelsFailedRow};
ghost use Rattle.air_report.specs.declared.checks.check_first.CheckError.TheVariants.{Refused};

use crate::checks::cells::{check_cells, first_violated};
use crate::checks::check::check_row;
use crate::checks::shapes::{check_shapes, table_height};
use crate::debug::builder::DebugConstraintBuilder;
use crate::debug::failure::ConstraintFailure;
use air_builder::{Air, AirError};
use air_field::{RowMajorMatrix, SelfExtension};
use std::alloc::Global;
use thiserror::Error;

/// Why a trace doesn't satisfy its constraints, or why the check stopped.
#[derive(Debug, Drop, Error)]
pub enum CheckError {
    /// A boundary value is violated: the index of the first such in the AIR's list, and its row.
    #[error("boundary-IO cell {index} does not hold its public value on row {row}")]
    BoundaryMismatch {
        row: usize,
        index: usize,
    },
    /// The first row with constraints that aren't zero, and all of these.
    #[error("constraints fail on row {row}")]
    RowFailed {
        row: usize,
        failures: Vec<ConstraintFailure>,
    },
    /// The check stopped before its end.
    #[error(transparent)]
    Refused(AirError),
}

impl From<AirError> for CheckError {
    ghost from_gives = { λ e c. c ≡ Refused e };

    fn from(e: AirError) -> CheckError {
        CheckError::Refused(e)
    }
}

/// Checks the shapes of the preprocessed trace and of the periodic columns, compares the boundary values with their
/// public values, and evaluates the AIR on the rows of the trace, each paired with the next one around the end, up to
/// the first row with a constraint that isn't zero.
///
/// It is Ok only if no boundary value is violated and no constraint fails at any row. The error is the first fault in this
/// order: a shape that doesn't fit, a boundary value that doesn't fit the trace, or boundary values of a trace without
/// rows (all these are `Refused`); a violated boundary value (`BoundaryMismatch`); the first row that fails, with
/// all its failures (`RowFailed`), or that is refused for a missing entry that a constraint names or for a count past
/// `usize`. So boundary values come before the rows here, and after them in `check_all_constraints`. `Memory` occurs
/// only if the shapes fit and each boundary value equals its public value.
pub fn check_constraints<'a, F: SelfExtension + 'static, A: Air<DebugConstraintBuilder<'a, F, F>>>(
    alloc: Global,
    air: &'a A,
    main: &'a RowMajorMatrix<F>,
    public_values: &'a [F],
) -> Result<(), CheckError>
    ensures kept { OnOk result (IsSatisfied F.ring F.eq
        (instance (A.declaration air.now) main.now public_values.now)) }
    ensures error { IfErr result (IsFirstError F.ring F.eq
        (instance (A.declaration air.now) main.now public_values.now)) }
    ensures labels { IfErr result (LabelsFailedRow (A.labels air.now)) }
{
    let height = main.height();
    check_shapes(
        air.periodic_columns(),
        height,
        table_height(air.preprocessed_trace()),
    )?;
    let cells = air.public_boundary_io();
    check_cells(cells, main, public_values)?;
    if let Some(index) = first_violated(cells, main, public_values) {
        return Err(CheckError::BoundaryMismatch {
            row: cells[index].row(height),
            index,
        });
    }
    let mut builder = DebugConstraintBuilder::at_no_row(alloc);
    'rows: for row in 0..height {
        check_row(air, main, public_values, row, &mut builder)?;
        if builder.has_failures() {
            return Err(CheckError::RowFailed {
                row,
                failures: builder.into_failures(),
            });
        }
    }
    Ok(())
}

//! Boundary values: cells of a trace's first and last row that hold public values.
ghost use Rattle.std.specs.Prelude.{◌≡◌, ◌-◌, ◌<◌, ◌↔◌, Some, MatchBool, IsOk, IfErr};
ghost use Rattle.air_core.specs.Boundary.{row_of, end_text, HasCellAt, LacksCellAt, AreSound, IsFirstFault};

use std::fmt;
use std::fmt::Display;
use thiserror::Error;

/// The first or the last row of a trace.
#[derive(Clone, Copy, Debug, PartialEq, Eq, Hash)]
pub enum BoundaryEnd {
    First,
    Last,
}

impl Display for BoundaryEnd {
    ghost output = { λ end. Some (end_text end) };

    fn fmt<W: fmt::Write>(&self, f: &mut fmt::Formatter<W>) -> fmt::Result {
        match self {
            BoundaryEnd::First => write!(f, "First"),
            BoundaryEnd::Last => write!(f, "Last"),
        }
    }
}

/// A boundary value: a cell of the main trace that is to hold a public value. Listing one in an AIR adds no constraint.
/// A check and an audit compare the two values; a prover does so only if it says that it binds boundary values.
#[derive(Clone, Copy, Debug, PartialEq, Eq, Hash)]
pub struct BoundaryPublic {
    pub column: usize,
    pub end: BoundaryEnd,
    /// The index of the public value.
    pub public_value: usize,
}

impl BoundaryPublic {
    /// The boundary value in this column at this end, and the index of the public value that it holds. Not checked
    /// here: see [`validate`].
    pub fn new(column: usize, end: BoundaryEnd, public_value: usize) -> Self
        ensures { result ≡ record { column = column; end = end; public_value = public_value } }
    {
        BoundaryPublic {
            column,
            end,
            public_value,
        }
    }

    /// The row of the boundary value in a trace of this height, which must be positive: 0, or `height` - 1.
    pub fn row(&self, height: usize) -> usize
        requires { 0 < height }
        ensures { result ≡ row_of self.now.end height }
    {
        match self.end {
            BoundaryEnd::First => 0,
            BoundaryEnd::Last => height - 1,
        }
    }
}

/// Why a list of boundary values is refused.
#[derive(Clone, Copy, Debug, PartialEq, Eq, Error)]
pub enum BoundaryIoError {
    /// A column is not below the width.
    #[error("boundary-IO column {column} is out of range for main width {width}")]
    ColumnOutOfRange {
        column: usize,
        width: usize,
    },
    /// The index of a public value is not below their number.
    #[error("boundary-IO public value {index} is out of range for {num_public_values} public values")]
    PublicValueOutOfRange {
        index: usize,
        num_public_values: usize,
    },
    /// An earlier boundary value has the same column and end.
    #[error("boundary-IO declares column {column} twice on the {end} row")]
    DuplicateCell {
        column: usize,
        end: BoundaryEnd,
    },
}

// Whether some boundary value has this column and end.
fn contains_place(cells: &[BoundaryPublic], column: usize, end: BoundaryEnd) -> bool
    ensures { MatchBool result (HasCellAt cells.now column end) (LacksCellAt cells.now column end) }
{
    cells
        .iter()
        .any(|cell| cell.column == column && cell.end == end)
}

/// Checks that each boundary value has a column of the trace, names an existing public value, and occurs once. The list
/// comes from the AIR, never from the witness, and nothing else ties it to the AIR's trace. Allocates nothing.
///
/// # Errors
///
/// The first fault of the first boundary value that has one: the column is not below `width`, else the index of the
/// public value is not below `num_public_values`, else an earlier boundary value has the same column and end.
pub fn validate(
    cells: &[BoundaryPublic],
    width: usize,
    num_public_values: usize,
) -> Result<(), BoundaryIoError>
    ensures sound { IsOk result ↔ AreSound width num_public_values cells.now }
    ensures first { IfErr result (IsFirstFault width num_public_values cells.now) }
{
    for (place, cell) in cells.iter().enumerate() {
        if cell.column >= width {
            return Err(BoundaryIoError::ColumnOutOfRange {
                column: cell.column,
                width,
            });
        }
        if cell.public_value >= num_public_values {
            return Err(BoundaryIoError::PublicValueOutOfRange {
                index: cell.public_value,
                num_public_values,
            });
        }
        if contains_place(&cells[..place], cell.column, cell.end) {
            return Err(BoundaryIoError::DuplicateCell {
                column: cell.column,
                end: cell.end,
            });
        }
    }
    Ok(())
}

//! The errors of builders and of calls on an AIR.
ghost use Rattle.air_core.specs.Errors.{air_error, matrix_air_error};
ghost use Rattle.air_core.specs.declared.errors.AirError.TheVariants.{Memory, Boundary};
ghost use Rattle.std.specs.Prelude.{◌≡◌};

use crate::boundary::BoundaryIoError;
use crate::variables::entry::BaseEntry;
use crate::variables::ext_entry::ExtEntry;
use air_field::{MatrixError, RingError};
use std::alloc::{AllocError, AllocFailed};
use thiserror::Error;

/// Why a builder, or a call on an AIR, failed.
#[derive(Clone, Copy, Debug, PartialEq, Eq, Error)]
pub enum AirError {
    /// Out of memory.
    #[error("memory was refused")]
    Memory,
    /// A degree exceeds `usize`.
    #[error("a degree passes the greatest count")]
    DegreeOverflow,
    /// The number of constraints exceeds `usize`.
    #[error("the count of constraints passes the greatest count")]
    CountOverflow,
    /// The entry has no such index.
    #[error("entry {entry:?} has no index {index}")]
    MissingEntry {
        entry: BaseEntry,
        index: usize,
    },
    /// A window has only the rows 0 and 1.
    #[error("a window has no row {offset}")]
    RowOffset {
        offset: usize,
    },
    /// The entry over the extension has no such index.
    #[error("entry {entry:?} has no index {index}")]
    MissingExtEntry {
        entry: ExtEntry,
        index: usize,
    },
    /// The builder has no permutation data.
    #[error("the builder has no permutation data")]
    NoPermutation,
    /// The layout's main width isn't the AIR's.
    #[error("the layout has main width {layout}, the AIR {air}")]
    LayoutMainWidth {
        layout: usize,
        air: usize,
    },
    /// The layout's number of public values isn't the AIR's.
    #[error("the layout has {layout} public values, the AIR {air}")]
    LayoutPublicValues {
        layout: usize,
        air: usize,
    },
    /// The layout's number of periodic columns isn't the AIR's.
    #[error("the layout has {layout} periodic columns, the AIR {air}")]
    LayoutPeriodicColumns {
        layout: usize,
        air: usize,
    },
    /// An expression is used in constraints other than those it was made in.
    #[error("an expression of other constraints is used")]
    ForeignExpression,
    /// A constraint index is not below the number of constraints.
    #[error("constraint index {index} is past the total of {total}")]
    IndexPastTotal {
        index: usize,
        total: usize,
    },
    /// The preprocessed trace and the main trace differ in height.
    #[error("the preprocessed table has {preprocessed} rows, the trace {main}")]
    PreprocessedHeight {
        preprocessed: usize,
        main: usize,
    },
    /// The permutation trace and the main trace differ in height.
    #[error("the permutation trace has {permutation} rows, the trace {main}")]
    PermutationHeight {
        permutation: usize,
        main: usize,
    },
    /// The length of a periodic column is no power of two.
    #[error("periodic column {index} has length {length}, no power of two")]
    PeriodNotPowerOfTwo {
        index: usize,
        length: usize,
    },
    /// The length of a periodic column doesn't divide the trace's height.
    #[error("periodic column {index} has length {length}, which doesn't divide the height {height}")]
    PeriodDoesNotDivide {
        index: usize,
        length: usize,
        height: usize,
    },
    /// The list of boundary values is refused.
    #[error(transparent)]
    Boundary(BoundaryIoError),
    /// There are boundary values, and the trace has no rows.
    #[error("a boundary cell is listed, and the trace has no rows")]
    EmptyTrace,
    /// `len` values don't fill whole rows of this width.
    #[error("{len} values are no whole rows of width {width}")]
    Ragged {
        len: usize,
        width: usize,
    },
    /// `len` values aren't two rows of this width.
    #[error("{len} values are no two rows of width {width}")]
    WindowShape {
        len: usize,
        width: usize,
    },
    /// A periodic column has no values.
    #[error("periodic column {index} is empty")]
    EmptyPeriodicColumn {
        index: usize,
    },
    /// A wire value has the wrong form.
    #[error("the value at place {at} hasn't its form")]
    Shape {
        at: usize,
    },
    /// A list of nodes is empty.
    #[error("the list of nodes is empty")]
    EmptyList,
    /// An operand of a node isn't earlier in the list than the node. For a list nested in a `Base` leaf, `at` is the
    /// place of the leaf's node, and `operand` is relative to the nested list.
    #[error("the node at place {at} has the operand {operand}, which doesn't stand before it")]
    Operand {
        at: usize,
        operand: usize,
    },
    /// A node states a degree that isn't its own.
    #[error("the node at place {at} states degree {stated}, and has {found}")]
    WrongDegree {
        at: usize,
        stated: usize,
        found: usize,
    },
    /// A field number is not below the modulus.
    #[error("the value at place {at} has a number at or past the modulus")]
    NotCanonical {
        at: usize,
    },
}

impl From<AllocError> for AirError {
    ghost from_gives = { λ _ a. a ≡ Memory };

    fn from(_error: AllocError) -> AirError {
        AirError::Memory
    }
}

// So that `?` also works on a failed push, whose error gives the item back.
impl<T: Drop> From<AllocFailed<T>> for AirError {
    ghost from_gives = { λ _ a. a ≡ Memory };

    fn from(_error: AllocFailed<T>) -> AirError {
        AirError::Memory
    }
}

impl From<MatrixError> for AirError {
    ghost from_gives = { λ e a. a ≡ matrix_air_error e };

    fn from(e: MatrixError) -> AirError {
        match e {
            MatrixError::Ragged { len, width } => AirError::Ragged { len, width },
        }
    }
}

impl From<BoundaryIoError> for AirError {
    ghost from_gives = { λ e a. a ≡ Boundary e };

    fn from(e: BoundaryIoError) -> AirError {
        AirError::Boundary(e)
    }
}

impl From<RingError> for AirError {
    ghost from_gives = { λ e a. a ≡ air_error e };

    fn from(e: RingError) -> AirError {
        match e {
            RingError::Memory => AirError::Memory,
            RingError::DegreeOverflow => AirError::DegreeOverflow,
        }
    }
}

//! Why a value could not be read or written.
ghost use Rattle.std.specs.Prelude.{◌≡◌};
ghost use Rattle.air_json.specs.Faults.{ring_fault, air_fault};
ghost use Rattle.air_json.specs.declared.errors.FlatError.TheVariants.{Memory};

use air_core::AirError;
use air_field::RingError;
use std::alloc::{AllocError, AllocFailed};
use thiserror::Error;

/// Why a value could not be read or written; for a list of nodes that is read, its first fault. A fault in a list
/// nested in a `Base` leaf is reported at the place of the leaf's node, but its operand and degrees are those of the
/// nested list.
#[derive(Clone, Copy, Debug, PartialEq, Eq, Error)]
pub enum FlatError {
    /// Out of memory.
    #[error("memory was refused")]
    Memory,
    /// A degree exceeds `usize`.
    #[error("a degree passes the greatest count")]
    DegreeOverflow,
    /// A wire value has the wrong form.
    #[error("the value at place {at} hasn't its form")]
    Shape {
        at: usize,
    },
    /// A list of nodes is empty.
    #[error("the list of nodes is empty")]
    EmptyList,
    /// An operand of a node isn't earlier in the list than the node. For a list nested in a `Base` leaf, `at` is the
    /// place of the leaf's node, and `operand` is relative to the nested list.
    #[error("the node at place {at} has the operand {operand}, which doesn't stand before it")]
    Operand {
        at: usize,
        operand: usize,
    },
    /// A node states a degree that isn't its own.
    #[error("the node at place {at} states degree {stated}, and has {found}")]
    WrongDegree {
        at: usize,
        stated: usize,
        found: usize,
    },
    /// A field number is not below the modulus.
    #[error("the value at place {at} has a number at or past the modulus")]
    NotCanonical {
        at: usize,
    },
}

impl From<AllocError> for FlatError {
    ghost from_gives = { λ _ e. e ≡ Memory };

    fn from(_error: AllocError) -> FlatError {
        FlatError::Memory
    }
}

impl<T: Drop> From<AllocFailed<T>> for FlatError {
    ghost from_gives = { λ _ e. e ≡ Memory };

    fn from(_error: AllocFailed<T>) -> FlatError {
        FlatError::Memory
    }
}

impl From<RingError> for FlatError {
    ghost from_gives = { λ e f. f ≡ ring_fault e };

    fn from(e: RingError) -> FlatError {
        match e {
            RingError::Memory => FlatError::Memory,
            RingError::DegreeOverflow => FlatError::DegreeOverflow,
        }
    }
}

impl From<FlatError> for AirError {
    ghost from_gives = { λ f e. e ≡ air_fault f };

    fn from(f: FlatError) -> AirError {
        match f {
            FlatError::Memory => AirError::Memory,
            FlatError::DegreeOverflow => AirError::DegreeOverflow,
            FlatError::Shape { at } => AirError::Shape { at },
            FlatError::EmptyList => AirError::EmptyList,
            FlatError::Operand { at, operand } => AirError::Operand { at, operand },
            FlatError::WrongDegree { at, stated, found } => AirError::WrongDegree {
                at,
                stated,
                found,
            },
            FlatError::NotCanonical { at } => AirError::NotCanonical { at },
        }
    }
}

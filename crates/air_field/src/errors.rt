//! The errors of rings and matrices.
ghost use Rattle.std.specs.Prelude.{◌≡◌};
ghost use Rattle.air_field.specs.declared.errors.RingError.TheVariants.{Memory};

use std::alloc::{AllocError, AllocFailed};

/// Why an operation of a ring failed.
#[derive(Clone, Copy, Debug, PartialEq, Eq)]
pub enum RingError {
    /// Out of memory.
    Memory,
    /// A degree exceeds `usize`.
    DegreeOverflow,
}

impl From<AllocError> for RingError {
    ghost from_gives = { λ _ e. e ≡ Memory };

    fn from(_error: AllocError) -> RingError
        ensures { result ≡ RingError.Memory }
    {
        RingError::Memory
    }
}

impl<T: Drop> From<AllocFailed<T>> for RingError {
    ghost from_gives = { λ _ e. e ≡ Memory };

    fn from(_error: AllocFailed<T>) -> RingError {
        RingError::Memory
    }
}

/// Why values don't make a matrix.
#[derive(Clone, Copy, Debug, PartialEq, Eq)]
pub enum MatrixError {
    /// `len` values don't fill whole rows of this width.
    Ragged { len: usize, width: usize },
}

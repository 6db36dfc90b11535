//! Why the program refuses.
ghost use Rattle.std.specs.Prelude.{◌≡◌};
ghost use Rattle.blake3_rows.specs.Refusals.{refusal_name};

use air_blake3::TraceError;
use air_export::ExportError;
use p3_air::AirError;
use std::alloc::{AllocError, AllocFailed};

/// Why there is no answer.
#[derive(Clone, Copy, Debug, Drop)]
pub enum Refusal {
    /// There are words, but they are not a row and a column.
    Usage,
    /// A word is not a number.
    NotANumber,
    /// The input can't be read.
    Read,
    /// The input is longer than one chunk.
    TooLong,
    /// The trace has no such row.
    NoSuchRow,
    /// The trace has no such column.
    NoSuchColumn,
    /// Out of memory.
    Memory,
    /// Any other error; none is known to occur.
    Audit,
}

impl Refusal {
    /// The name in the line of a refusal.
    pub fn name(self) -> &'static str
        ensures { result.now ≡ refusal_name self }
    {
        match self {
            Refusal::Usage => "Usage",
            Refusal::NotANumber => "NotANumber",
            Refusal::Read => "Read",
            Refusal::TooLong => "TooLong",
            Refusal::NoSuchRow => "NoSuchRow",
            Refusal::NoSuchColumn => "NoSuchColumn",
            Refusal::Memory => "Memory",
            Refusal::Audit => "Audit",
        }
    }
}

impl From<AllocError> for Refusal {
    fn from(_error: AllocError) -> Refusal {
        Refusal::Memory
    }
}

// For `?` after a push, whose error returns the item.
impl<T: Drop> From<AllocFailed<T>> for Refusal {
    fn from(_error: AllocFailed<T>) -> Refusal {
        Refusal::Memory
    }
}

// This program's traces never have too many rows, so the error is `Memory`.
impl From<TraceError> for Refusal {
    fn from(_error: TraceError) -> Refusal {
        Refusal::Memory
    }
}

impl From<AirError> for Refusal {
    fn from(error: AirError) -> Refusal {
        match error {
            AirError::Memory => Refusal::Memory,
            _ => Refusal::Audit,
        }
    }
}

impl From<ExportError> for Refusal {
    fn from(error: ExportError) -> Refusal {
        match error {
            ExportError::Air(error) => Refusal::from(error),
            _ => Refusal::Audit,
        }
    }
}

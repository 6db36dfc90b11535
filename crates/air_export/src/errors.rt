//! Why an AIR isn't exported.
ghost use Rattle.std.specs.Prelude.{◌≡◌};
ghost use Rattle.air_json.specs.Faults.{air_fault};
ghost use Rattle.air_core.specs.declared.errors.AirError.TheVariants.{Memory as OutOfMemory};
ghost use Rattle.air_export.specs.declared.errors.ExportError.TheVariants.{Air};

use air_core::AirError;
use air_json::FlatError;
use std::alloc::{AllocError, AllocFailed};
use thiserror::Error;

/// Why an AIR isn't exported.
#[derive(Clone, Copy, Debug, PartialEq, Eq, Error)]
pub enum ExportError {
    /// The error of the recording, or `Memory`.
    #[error(transparent)]
    Air(AirError),
    /// The AIR assumes a trace of bits. Its constraints don't enforce them, and an object can't say so.
    #[error("the AIR assumes a trace of bits, which its constraints don't enforce")]
    BooleanTrace,
    /// The AIR has this number of constraints over an extension, and an object has none. Without them the others'
    /// places among all constraints, and so a prover's powers of alpha, would differ.
    #[error("an object has no constraints over an extension, the AIR {count}")]
    ExtensionConstraints { count: usize },
    /// No object is over a field of this order.
    #[error("no object is over a field of {order} elements")]
    UnknownField { order: u64 },
}

impl From<AirError> for ExportError {
    ghost from_gives = { λ f e. e ≡ Air f };

    fn from(error: AirError) -> ExportError {
        ExportError::Air(error)
    }
}

impl From<FlatError> for ExportError {
    ghost from_gives = { λ f e. e ≡ Air (air_fault f) };

    fn from(fault: FlatError) -> ExportError {
        ExportError::Air(AirError::from(fault))
    }
}

impl From<AllocError> for ExportError {
    ghost from_gives = { λ _ e. e ≡ Air OutOfMemory };

    fn from(_error: AllocError) -> ExportError {
        ExportError::Air(AirError::Memory)
    }
}

impl<T: Drop> From<AllocFailed<T>> for ExportError {
    ghost from_gives = { λ _ e. e ≡ Air OutOfMemory };

    fn from(_error: AllocFailed<T>) -> ExportError {
        ExportError::Air(AirError::Memory)
    }
}

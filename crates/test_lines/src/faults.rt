//! Why a line has no answer.
ghost use Rattle.std.specs.Prelude.{◌≡◌, ◌↔◌, ◌⊎◌, true, IfOk, IfErr};
ghost use Rattle.test_lines.specs.Reports.{IsRefusal, list_fault};
ghost use Rattle.test_lines.specs.declared.faults.Fault.TheVariants.{Memory, Stream};

use air_core::AirError;
use air_field::{MatrixError, RingError};
use air_json::FlatError;
use std::alloc::{AllocError, AllocFailed};
use std::io;

/// A call was refused, a line can't be read, or the program has to give up.
#[derive(Debug, Drop)]
pub enum Fault {
    /// Out of memory.
    Memory,
    /// Reading or writing a stream failed.
    Stream,
    /// A call was refused.
    Air(AirError),
    /// A list was refused.
    List(FlatError),
    /// The values of a matrix were refused.
    Matrix(MatrixError),
    /// The program doesn't understand the line.
    Unreadable(Why),
}

/// Why a line can't be read. (It holds no text: an error with text can't be proved at a `?`.)
#[derive(Debug, Drop)]
pub enum Why {
    MakesNothing,
    NameIsTaken,
    NeitherNameNorAnswer,
    NoJson,
    NoLines,
    NoName,
    NoNumber,
    NoSuchCall,
    NoSuchName,
    NoSuchTable,
    NoSuchWord,
    NoText,
    OtherDimension,
    OtherPool,
    OtherShape,
}

impl From<AllocError> for Fault {
    ghost from_gives = { λ _ fault. fault ≡ Memory };

    fn from(_error: AllocError) -> Fault {
        Fault::Memory
    }
}

impl<T: Drop> From<AllocFailed<T>> for Fault {
    ghost from_gives = { λ _ fault. fault ≡ Memory };

    fn from(_error: AllocFailed<T>) -> Fault {
        Fault::Memory
    }
}

impl From<io::Error> for Fault {
    fn from(error: io::Error) -> Fault {
        match error.kind() {
            io::ErrorKind::OutOfMemory => Fault::Memory,
            _ => Fault::Stream,
        }
    }
}

impl From<RingError> for Fault {
    fn from(error: RingError) -> Fault {
        match error {
            RingError::Memory => Fault::Memory,
            RingError::DegreeOverflow => Fault::Air(AirError::DegreeOverflow),
        }
    }
}

impl From<FlatError> for Fault {
    ghost from_gives = { λ error fault. fault ≡ list_fault error };

    fn from(error: FlatError) -> Fault {
        match error {
            FlatError::Memory => Fault::Memory,
            _ => Fault::List(error),
        }
    }
}

impl From<AirError> for Fault {
    fn from(error: AirError) -> Fault {
        match error {
            AirError::Memory => Fault::Memory,
            _ => Fault::Air(error),
        }
    }
}

impl From<MatrixError> for Fault {
    fn from(error: MatrixError) -> Fault {
        Fault::Matrix(error)
    }
}

/// Adds why a line has no answer. Returns whether this is a refusal, which a line may expect.
pub fn show_refusal(fault: Fault, text: &mut String) -> Result<bool, Fault>
    ensures answers { IfOk result (λ answers. (answers ≡ true) ↔ IsRefusal fault) }
    ensures refused { IfErr result (λ e. (e ≡ Memory) ⊎ ((e ≡ Stream) × (fault ≡ Stream))) }
{
    match fault {
        Fault::Air(error) => write!(text, "{error:?}")?,
        Fault::List(error) => write!(text, "{error:?}")?,
        Fault::Matrix(error) => write!(text, "{error:?}")?,
        Fault::Unreadable(why) => {
            write!(text, "the line can't be read: {why:?}")?;
            return Ok(false);
        }
        Fault::Memory => return Err(Fault::Memory),
        Fault::Stream => return Err(Fault::Stream),
    }
    Ok(true)
}

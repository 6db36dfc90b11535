//! Why the program refuses.

ghost use Rattle.std.specs.Prelude.{◌≡◌};
ghost use Rattle.air_program.specs.Refusals.{name_of, air_name, air_refusal};

use air_builder::AirError;
use std::alloc::{AllocError, AllocFailed};

/// Why there is no answer.
#[derive(Clone, Copy, Debug, PartialEq, Eq, Drop)]
pub enum Refusal {
    Usage,
    Read,
    Memory,
    Syntax,
    /// The input is not a JSON value.
    Json,
    /// The object's member `field` names no field.
    Field,
    /// An error of reading a JSON value, or of the audit; the refusal has the error's name.
    Air(AirError),
}

impl Refusal {
    /// The name in the line of a refusal.
    pub fn name(self) -> &'static str
        ensures { result.now ≡ name_of self }
    {
        match self {
            Refusal::Usage => "Usage",
            Refusal::Read => "Read",
            Refusal::Memory => "Memory",
            Refusal::Syntax => "Syntax",
            Refusal::Json => "Json",
            Refusal::Field => "Field",
            Refusal::Air(error) => air_name(error),
        }
    }
}

impl From<AirError> for Refusal {
    ghost from_gives = { λ e why. why ≡ air_refusal e };

    fn from(e: AirError) -> Refusal {
        match e {
            AirError::Memory => Refusal::Memory,
            _ => Refusal::Air(e),
        }
    }
}

impl From<AllocError> for Refusal {
    ghost use Rattle.air_program.specs.declared.refusals.Refusal.TheVariants.{Memory};

    ghost from_gives = { λ _ why. why ≡ Memory };

    fn from(_refused: AllocError) -> Refusal {
        Refusal::Memory
    }
}

impl<T: Drop> From<AllocFailed<T>> for Refusal {
    ghost use Rattle.air_program.specs.declared.refusals.Refusal.TheVariants.{Memory};

    ghost from_gives = { λ _ why. why ≡ Memory };

    fn from(_refused: AllocFailed<T>) -> Refusal {
        Refusal::Memory
    }
}

/// The name of the error's variant.
fn air_name(error: AirError) -> &'static str
    ensures { result.now ≡ air_name error }
{
    match error {
        AirError::Memory => "Memory",
        AirError::DegreeOverflow => "DegreeOverflow",
        AirError::CountOverflow => "CountOverflow",
        AirError::MissingEntry { .. } => "MissingEntry",
        AirError::RowOffset { .. } => "RowOffset",
        AirError::MissingExtEntry { .. } => "MissingExtEntry",
        AirError::NoPermutation => "NoPermutation",
        AirError::LayoutMainWidth { .. } => "LayoutMainWidth",
        AirError::LayoutPublicValues { .. } => "LayoutPublicValues",
        AirError::LayoutPeriodicColumns { .. } => "LayoutPeriodicColumns",
        AirError::ForeignExpression => "ForeignExpression",
        AirError::IndexPastTotal { .. } => "IndexPastTotal",
        AirError::PreprocessedHeight { .. } => "PreprocessedHeight",
        AirError::PermutationHeight { .. } => "PermutationHeight",
        AirError::PeriodNotPowerOfTwo { .. } => "PeriodNotPowerOfTwo",
        AirError::PeriodDoesNotDivide { .. } => "PeriodDoesNotDivide",
        AirError::Boundary(_) => "Boundary",
        AirError::EmptyTrace => "EmptyTrace",
        AirError::Ragged { .. } => "Ragged",
        AirError::WindowShape { .. } => "WindowShape",
        AirError::EmptyPeriodicColumn { .. } => "EmptyPeriodicColumn",
        AirError::Shape { .. } => "Shape",
        AirError::EmptyList => "EmptyList",
        AirError::Operand { .. } => "Operand",
        AirError::WrongDegree { .. } => "WrongDegree",
        AirError::NotCanonical { .. } => "NotCanonical",
    }
}

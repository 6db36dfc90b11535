//! What errors say.
ghost use Rattle.std.specs.Prelude.{◌≡◌, IfOk, string_bytes};
ghost use Rattle.air_reason.specs.Errors.{entry_text, ext_entry_text, cell_error_text, error_text};

use air_core::{AirError, BaseEntry, BoundaryIoError, ExtEntry};
use std::alloc::{AllocError, Global};

fn entry_text(alloc: Global, entry: BaseEntry) -> Result<String, AllocError>
    ensures { IfOk result (λ text. string_bytes text ≡ entry_text entry) }
{
    match entry {
        BaseEntry::Preprocessed { offset } => {
            format!(in alloc; "Preprocessed {{ offset: {offset} }}")
        }
        BaseEntry::Main { offset } => format!(in alloc; "Main {{ offset: {offset} }}"),
        BaseEntry::Periodic => String::from_str(alloc, "Periodic"),
        BaseEntry::Public => String::from_str(alloc, "Public"),
    }
}

fn ext_entry_text(alloc: Global, entry: ExtEntry) -> Result<String, AllocError>
    ensures { IfOk result (λ text. string_bytes text ≡ ext_entry_text entry) }
{
    match entry {
        ExtEntry::Permutation { offset } => {
            format!(in alloc; "Permutation {{ offset: {offset} }}")
        }
        ExtEntry::Challenge => String::from_str(alloc, "Challenge"),
        ExtEntry::PermutationValue => String::from_str(alloc, "PermutationValue"),
    }
}

fn cell_error_text(alloc: Global, error: BoundaryIoError) -> Result<String, AllocError>
    ensures { IfOk result (λ text. string_bytes text ≡ cell_error_text error) }
{
    match error {
        BoundaryIoError::ColumnOutOfRange { column, width } => {
            format!(in alloc; "boundary-IO column {column} is out of range for main width {width}")
        }
        BoundaryIoError::PublicValueOutOfRange {
            index,
            num_public_values,
        } => {
            format!(in alloc;
                "boundary-IO public value {index} is out of range for {num_public_values} public values"
            )
        }
        BoundaryIoError::DuplicateCell { column, end } => {
            format!(in alloc; "boundary-IO declares column {column} twice on the {end} row")
        }
    }
}

/// The text that the error displays.
#[tactic(auto, unfolding(crate::specs::Errors::error_text))]
pub fn error_text(alloc: Global, error: AirError) -> Result<String, AllocError>
    ensures { IfOk result (λ text. string_bytes text ≡ error_text error) }
{
    match error {
        AirError::Memory => String::from_str(alloc, "memory was refused"),
        AirError::DegreeOverflow => String::from_str(alloc, "a degree passes the greatest count"),
        AirError::CountOverflow => String::from_str(
            alloc,
            "the count of constraints passes the greatest count",
        ),
        AirError::MissingEntry { entry, index } => {
            let entry = entry_text(alloc, entry)?;
            format!(in alloc; "entry {entry} has no index {index}")
        }
        AirError::RowOffset { offset } => format!(in alloc; "a window has no row {offset}"),
        AirError::MissingExtEntry { entry, index } => {
            let entry = ext_entry_text(alloc, entry)?;
            format!(in alloc; "entry {entry} has no index {index}")
        }
        AirError::NoPermutation => String::from_str(alloc, "the builder has no permutation data"),
        AirError::LayoutMainWidth { layout, air } => format!(in alloc;
            "the layout has main width {layout}, the AIR {air}"
        ),
        AirError::LayoutPublicValues { layout, air } => format!(in alloc;
            "the layout has {layout} public values, the AIR {air}"
        ),
        AirError::LayoutPeriodicColumns { layout, air } => format!(in alloc;
            "the layout has {layout} periodic columns, the AIR {air}"
        ),
        AirError::ForeignExpression => String::from_str(
            alloc,
            "an expression of other constraints is used",
        ),
        AirError::IndexPastTotal { index, total } => format!(in alloc;
            "constraint index {index} is past the total of {total}"
        ),
        AirError::PreprocessedHeight { preprocessed, main } => format!(in alloc;
            "the preprocessed table has {preprocessed} rows, the trace {main}"
        ),
        AirError::PermutationHeight { permutation, main } => format!(in alloc;
            "the permutation trace has {permutation} rows, the trace {main}"
        ),
        AirError::PeriodNotPowerOfTwo { index, length } => format!(in alloc;
            "periodic column {index} has length {length}, no power of two"
        ),
        AirError::PeriodDoesNotDivide {
            index,
            length,
            height,
        } => format!(in alloc;
            "periodic column {index} has length {length}, which doesn't divide the height {height}"
        ),
        AirError::Boundary(error) => cell_error_text(alloc, error),
        AirError::EmptyTrace => String::from_str(
            alloc,
            "a boundary cell is listed, and the trace has no rows",
        ),
        AirError::Ragged { len, width } => format!(in alloc;
            "{len} values are no whole rows of width {width}"
        ),
        AirError::WindowShape { len, width } => format!(in alloc;
            "{len} values are no two rows of width {width}"
        ),
        AirError::EmptyPeriodicColumn { index } => format!(in alloc;
            "periodic column {index} is empty"
        ),
        AirError::Shape { at } => format!(in alloc; "the value at place {at} hasn't its form"),
        AirError::EmptyList => String::from_str(alloc, "the list of nodes is empty"),
        AirError::Operand { at, operand } => format!(in alloc;
            "the node at place {at} has the operand {operand}, which doesn't stand before it"
        ),
        AirError::WrongDegree { at, stated, found } => format!(in alloc;
            "the node at place {at} states degree {stated}, and has {found}"
        ),
        AirError::NotCanonical { at } => format!(in alloc;
            "the value at place {at} has a number at or past the modulus"
        ),
    }
}

//! Words as leaves, traces, boundary values and caps.

use air_audit::{
    BaseEntry, BaseLeaf, BoundaryEnd, BoundaryPublic, Field, RowMajorMatrix, SymbolicVariable,
};
use std::alloc::Global;
use test_lines::words::{count_of, listed_elements};
use test_lines::{Fault, Why};

// The variable of an entry.
fn variable<F: Field>(entry: BaseEntry, index: &str) -> Result<BaseLeaf<F>, Fault> {
    Ok(BaseLeaf::Variable(SymbolicVariable::new(entry, count_of(index)?)))
}

// A selector.
fn selector<F: Field>(word: &str) -> Result<BaseLeaf<F>, Fault> {
    match word {
        "IsFirstRow" => Ok(BaseLeaf::IsFirstRow),
        "IsLastRow" => Ok(BaseLeaf::IsLastRow),
        "IsTransition" => Ok(BaseLeaf::IsTransition),
        _ => Err(Fault::Unreadable(Why::NoSuchWord)),
    }
}

// An entry without a row offset.
fn value_entry(word: &str) -> Result<BaseEntry, Fault> {
    match word {
        "Periodic" => Ok(BaseEntry::Periodic),
        "Public" => Ok(BaseEntry::Public),
        _ => Err(Fault::Unreadable(Why::NoSuchWord)),
    }
}

// An entry with a row offset.
fn window_entry(word: &str, offset: &str) -> Result<BaseEntry, Fault> {
    match word {
        "Main" => Ok(BaseEntry::Main {
            offset: count_of(offset)?,
        }),
        "Preprocessed" => Ok(BaseEntry::Preprocessed {
            offset: count_of(offset)?,
        }),
        _ => Err(Fault::Unreadable(Why::NoSuchWord)),
    }
}

/// A selector, or the variable `Main OFFSET INDEX`, `Preprocessed OFFSET INDEX`, `Periodic INDEX` or `Public INDEX`.
pub fn leaf_of<F: Field>(words: &[&str]) -> Result<BaseLeaf<F>, Fault> {
    match words {
        [word] => selector(*word),
        [entry, index] => variable(value_entry(*entry)?, *index),
        [entry, offset, index] => variable(window_entry(*entry, *offset)?, *index),
        _ => Err(Fault::Unreadable(Why::NoSuchWord)),
    }
}

// Adds a row `times` times, and returns its width, which must be the known one.
fn add_row<F: Field>(
    row: &[F],
    times: usize,
    known: Option<usize>,
    values: &mut Vec<F>,
) -> Result<usize, Fault> {
    match known {
        Some(width) if width != row.len() => return Err(Fault::Unreadable(Why::OtherShape)),
        _ => {}
    }
    for _ in 0..times {
        values.extend_from_slice(row)?;
    }
    Ok(row.len())
}

// Adds a part `ROW` or `ROW*COUNT`, and returns the row's width.
fn add_part<F: Field>(
    alloc: Global,
    part: &str,
    known: Option<usize>,
    values: &mut Vec<F>,
) -> Result<usize, Fault> {
    let (row, times) = match part.split_once('*') {
        Some((row, times)) => (row, count_of(times)?),
        None => (part, 1),
    };
    let row: Vec<F> = listed_elements(alloc, row)?;
    add_row(&row, times, known, values)
}

/// The trace of a word. `/` separates the rows, each a list of elements; `*COUNT` after a row repeats it.
pub fn trace_of<F: Field>(alloc: Global, word: &str) -> Result<RowMajorMatrix<F>, Fault> {
    let mut values = Vec::new(alloc);
    let mut width = None;
    for part in word.split('/') {
        width = Some(add_part(alloc, part, width, &mut values)?);
    }
    Ok(RowMajorMatrix::new(values, width.unwrap_or(0))?)
}

/// A cap; `-` means none.
pub fn cap_of(word: &str) -> Result<Option<usize>, Fault> {
    match word {
        "-" => Ok(None),
        _ => Ok(Some(count_of(word)?)),
    }
}

// The end of a trace.
fn end_of(word: &str) -> Result<BoundaryEnd, Fault> {
    match word {
        "First" => Ok(BoundaryEnd::First),
        "Last" => Ok(BoundaryEnd::Last),
        _ => Err(Fault::Unreadable(Why::NoSuchWord)),
    }
}

// The boundary value of a column.
fn cell_at(column: &str, end: &str, public_value: &str) -> Result<BoundaryPublic, Fault> {
    let end = end_of(end)?;
    let column = count_of(column)?;
    let public_value = count_of(public_value)?;
    Ok(BoundaryPublic::new(column, end, public_value))
}

/// The boundary value `COLUMN,First,PUBLIC` or `COLUMN,Last,PUBLIC`.
pub fn cell_of(word: &str) -> Result<BoundaryPublic, Fault> {
    match word.split_once(',') {
        Some((column, rest)) => match rest.split_once(',') {
            Some((end, public_value)) => cell_at(column, end, public_value),
            None => Err(Fault::Unreadable(Why::NoSuchWord)),
        },
        None => Err(Fault::Unreadable(Why::NoSuchWord)),
    }
}

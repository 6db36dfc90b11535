//! Calls on boundary values, written `COLUMN:END:PUBLIC`.

use air_core::boundary::validate;
use air_core::{BoundaryEnd, BoundaryPublic};
use std::alloc::Global;
use test_lines::words::count_of;
use test_lines::{Fault, Why};

fn end_of(word: &str) -> Result<BoundaryEnd, Fault> {
    match word {
        "First" => Ok(BoundaryEnd::First),
        "Last" => Ok(BoundaryEnd::Last),
        _ => Err(Fault::Unreadable(Why::NoSuchWord)),
    }
}

fn cell_of(word: &str) -> Result<BoundaryPublic, Fault> {
    let Some((column, rest)) = word.split_once(':') else {
        return Err(Fault::Unreadable(Why::NoSuchWord));
    };
    let Some((end, index)) = rest.split_once(':') else {
        return Err(Fault::Unreadable(Why::NoSuchWord));
    };
    let column = count_of(column)?;
    let end = end_of(end)?;
    Ok(BoundaryPublic::new(column, end, count_of(index)?))
}

/// The boundary values of the words.
pub fn cells_of(alloc: Global, words: &[&str]) -> Result<Vec<BoundaryPublic>, Fault> {
    let mut all = Vec::new(alloc);
    for word in words {
        all.push(cell_of(*word)?)?;
    }
    Ok(all)
}

fn show_row(given: &[&str], text: &mut String) -> Result<(), Fault> {
    let [cell, height] = given else {
        return Err(Fault::Unreadable(Why::NoSuchCall));
    };
    let height = count_of(*height)?;
    if height == 0 {
        return Err(Fault::Unreadable(Why::OtherShape));
    }
    let row = cell_of(*cell)?.row(height);
    write!(text, "{row}")?;
    Ok(())
}

fn show_end(given: &[&str], text: &mut String) -> Result<(), Fault> {
    let [end] = given else {
        return Err(Fault::Unreadable(Why::NoSuchCall));
    };
    let end = end_of(*end)?;
    write!(text, "{end}")?;
    Ok(())
}

// Adds the result of validating boundary values: `Ok`, or the error and its text.
fn show_validated(
    cells: &[BoundaryPublic],
    width: usize,
    count: usize,
    text: &mut String,
) -> Result<(), Fault> {
    match validate(cells, width, count) {
        Ok(()) => text.push_str("Ok")?,
        Err(fault) => write!(text, "{fault:?}: {fault}")?,
    }
    Ok(())
}

fn show_validity(alloc: Global, given: &[&str], text: &mut String) -> Result<(), Fault> {
    let [width, count, cells @ ..] = given else {
        return Err(Fault::Unreadable(Why::NoSuchCall));
    };
    let cells = cells_of(alloc, cells)?;
    let width = count_of(*width)?;
    let count = count_of(*count)?;
    show_validated(&cells, width, count, text)
}

/// Adds the answer of a call on boundary values.
pub fn boundary(alloc: Global, call: &[&str], text: &mut String) -> Result<(), Fault> {
    let [word, given @ ..] = call else {
        return Err(Fault::Unreadable(Why::NoSuchCall));
    };
    match *word {
        "row" => show_row(given, text),
        "end" => show_end(given, text),
        "validate" => show_validity(alloc, given, text),
        _ => Err(Fault::Unreadable(Why::NoSuchCall)),
    }
}

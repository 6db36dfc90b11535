//! Calls on windows. The elements are counts, separated by commas.

use air_core::{RowWindow, TwoRows, WindowAccess};
use air_field::{RowMajorMatrix, RowMajorMatrixView};
use std::alloc::Global;
use test_lines::words::{count_of, counts_of};
use test_lines::{Fault, Why};

// Adds both rows, and the element of a column in each.
fn show_window<W: WindowAccess<usize>>(
    window: &W,
    column: &str,
    text: &mut String,
) -> Result<(), Fault>
    requires { W.is_window window.now }
{
    let column = count_of(column)?;
    let (current, next) = (window.current_slice(), window.next_slice());
    write!(text, "{current:?} {next:?}")?;
    let (current, next) = (window.current(column), window.next(column));
    write!(text, ", there {current:?} {next:?}")?;
    Ok(())
}

// Adds the window given by a matrix of one column.
fn show_column_window(
    alloc: Global,
    x: usize,
    y: usize,
    column: &str,
    text: &mut String,
) -> Result<(), Fault> {
    let values = vec![in alloc; x, y]?;
    match RowMajorMatrix::new(values, 1) {
        Ok(matrix) => show_window(&matrix, column, text),
        Err(error) => Err(Fault::from(error)),
    }
}

fn show_view(values: &[usize], width: &str, column: &str, text: &mut String) -> Result<(), Fault> {
    let view = RowMajorMatrixView::new(values, count_of(width)?);
    let window = RowWindow::from_view(&view)?;
    show_window(&window, column, text)
}

fn from_view(alloc: Global, given: &[&str], text: &mut String) -> Result<(), Fault> {
    let [width, values, column] = given else {
        return Err(Fault::Unreadable(Why::NoSuchCall));
    };
    show_view(&counts_of(alloc, *values)?, *width, *column, text)
}

fn show_rows(
    current: &[usize],
    next: &[usize],
    column: &str,
    text: &mut String,
) -> Result<(), Fault> {
    if current.len() != next.len() {
        return Err(Fault::Unreadable(Why::OtherShape));
    }
    show_window(&RowWindow::from_two_rows(current, next), column, text)
}

fn from_two_rows(alloc: Global, given: &[&str], text: &mut String) -> Result<(), Fault> {
    let [current, next, column] = given else {
        return Err(Fault::Unreadable(Why::NoSuchCall));
    };
    let current = counts_of(alloc, *current)?;
    let next = counts_of(alloc, *next)?;
    show_rows(&current, &next, *column, text)
}

// Adds a window that owns its rows.
fn show_owned(
    current: Vec<usize>,
    next: Vec<usize>,
    column: &str,
    text: &mut String,
) -> Result<(), Fault> {
    if current.len() != next.len() {
        return Err(Fault::Unreadable(Why::OtherShape));
    }
    show_window(&TwoRows::new(current, next), column, text)
}

fn two_rows(alloc: Global, given: &[&str], text: &mut String) -> Result<(), Fault> {
    let [current, next, column] = given else {
        return Err(Fault::Unreadable(Why::NoSuchCall));
    };
    let current = counts_of(alloc, *current)?;
    show_owned(current, counts_of(alloc, *next)?, *column, text)
}

fn show_values(
    alloc: Global,
    values: &[usize],
    column: &str,
    text: &mut String,
) -> Result<(), Fault> {
    let [x, y] = *values else {
        return Err(Fault::Unreadable(Why::OtherShape));
    };
    show_column_window(alloc, x, y, column, text)
}

fn of_matrix(alloc: Global, given: &[&str], text: &mut String) -> Result<(), Fault> {
    let ["1", values, column] = given else {
        return Err(Fault::Unreadable(Why::NoSuchCall));
    };
    show_values(alloc, &counts_of(alloc, *values)?, *column, text)
}

/// Adds the window that a call makes, and the element of a column in each row.
pub fn window(alloc: Global, call: &[&str], text: &mut String) -> Result<(), Fault> {
    let [word, given @ ..] = call else {
        return Err(Fault::Unreadable(Why::NoSuchCall));
    };
    match *word {
        "from_view" => from_view(alloc, given, text),
        "from_two_rows" => from_two_rows(alloc, given, text),
        "TwoRows" => two_rows(alloc, given, text),
        "RowMajorMatrix" => of_matrix(alloc, given, text),
        _ => Err(Fault::Unreadable(Why::NoSuchCall)),
    }
}

//! Calls on matrices and their views. The elements are counts, separated by commas.

use air_field::{RowMajorMatrix, RowMajorMatrixView, ViewPair};
use std::alloc::Global;
use test_lines::words::{count_of, counts_of};
use test_lines::{Fault, Why};

/// The matrix of the values.
pub fn matrix_of(alloc: Global, width: &str, values: &str) -> Result<RowMajorMatrix<usize>, Fault> {
    Ok(RowMajorMatrix::new(counts_of(alloc, values)?, count_of(width)?)?)
}

fn new(alloc: Global, given: &[&str], text: &mut String) -> Result<(), Fault> {
    let [width, values] = given else {
        return Err(Fault::Unreadable(Why::NoSuchCall));
    };
    let made = matrix_of(alloc, *width, *values)?;
    let (width, height) = (made.width(), made.height());
    write!(text, "width {width} height {height}")?;
    Ok(())
}

fn show_element(
    matrix: &RowMajorMatrix<usize>,
    row: &str,
    column: &str,
    text: &mut String,
) -> Result<(), Fault> {
    let row = count_of(row)?;
    let found = matrix.get(row, count_of(column)?);
    write!(text, "{found:?}")?;
    Ok(())
}

fn get(alloc: Global, given: &[&str], text: &mut String) -> Result<(), Fault> {
    let [width, values, row, column] = given else {
        return Err(Fault::Unreadable(Why::NoSuchCall));
    };
    show_element(&matrix_of(alloc, *width, *values)?, *row, *column, text)
}

fn show_row(matrix: &RowMajorMatrix<usize>, row: &str, text: &mut String) -> Result<(), Fault> {
    let found = matrix.row_slice(count_of(row)?);
    write!(text, "{found:?}")?;
    Ok(())
}

fn row_slice(alloc: Global, given: &[&str], text: &mut String) -> Result<(), Fault> {
    let [width, values, row] = given else {
        return Err(Fault::Unreadable(Why::NoSuchCall));
    };
    show_row(&matrix_of(alloc, *width, *values)?, *row, text)
}

/// Adds the answer of a call on a matrix.
pub fn matrix(alloc: Global, call: &[&str], text: &mut String) -> Result<(), Fault> {
    let [word, given @ ..] = call else {
        return Err(Fault::Unreadable(Why::NoSuchCall));
    };
    match *word {
        "new" => new(alloc, given, text),
        "get" => get(alloc, given, text),
        "row_slice" => row_slice(alloc, given, text),
        _ => Err(Fault::Unreadable(Why::NoSuchCall)),
    }
}

fn show_pair(top: &[usize], bottom: &[usize], text: &mut String) -> Result<(), Fault> {
    if top.len() != bottom.len() {
        return Err(Fault::Unreadable(Why::OtherShape));
    }
    let top = RowMajorMatrixView::new_row(top);
    let bottom = RowMajorMatrixView::new(bottom, bottom.len());
    let pair = ViewPair::new(top, bottom);
    write!(text, "{pair:?}")?;
    Ok(())
}

/// Adds the pair of two rows.
pub fn view_pair(alloc: Global, rows: &[&str], text: &mut String) -> Result<(), Fault> {
    let [top, bottom] = rows else {
        return Err(Fault::Unreadable(Why::NoSuchCall));
    };
    let top = counts_of(alloc, *top)?;
    let bottom = counts_of(alloc, *bottom)?;
    show_pair(&top, &bottom, text)
}

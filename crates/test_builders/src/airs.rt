//! What an AIR says about itself.
ghost use Rattle.std.specs.Prelude.{[]};

use crate::cells::cells_of;
use air_builder::{BaseAir, BoundaryPublic};
use air_field::{Field, RowMajorMatrix};
use std::alloc::Global;
use test_lines::words::{Number, count_of, listed_elements, show_elements};
use test_lines::{Fault, Why};

/// An AIR without constraints, with a preprocessed trace, periodic columns and boundary values.
#[derive(Drop)]
struct Said<F> {
    table: Option<RowMajorMatrix<F>>,
    periodic: Vec<Vec<F>>,
    cells: Vec<BoundaryPublic>,
}

impl<F: Field> BaseAir<F> for Said<F> {
    ghost declaration = { λ a. record {
      constraints = [];
      width = 3;
      num_public_values = 2;
      preprocessed = a.table;
      periodic = a.periodic.items;
      cells = a.cells.items;
    } };

    fn width(&self) -> usize {
        3
    }

    fn num_public_values(&self) -> usize {
        2
    }

    fn preprocessed_trace(&self) -> Option<&RowMajorMatrix<F>> {
        self.table.as_ref()
    }

    fn periodic_columns(&self) -> &[Vec<F>] {
        self.periodic.as_slice()
    }

    fn public_boundary_io(&self) -> &[BoundaryPublic] {
        self.cells.as_slice()
    }
}

// The AIR with these periodic columns only.
fn with_periodic<F: Field>(alloc: Global, words: &[&str]) -> Result<Said<F>, Fault> {
    let mut periodic = Vec::new(alloc);
    for word in words {
        periodic.push(listed_elements(alloc, *word)?)?;
    }
    Ok(Said {
        table: None,
        periodic,
        cells: Vec::new(alloc),
    })
}

// The preprocessed trace, or `None` for width 0.
fn table_of<F: Field>(
    alloc: Global,
    width: &str,
    values: &str,
) -> Result<Option<RowMajorMatrix<F>>, Fault> {
    let width = count_of(width)?;
    if width == 0 {
        return Ok(None);
    }
    let values = listed_elements(alloc, values)?;
    Ok(Some(RowMajorMatrix::new(values, width)?))
}

// The AIR with this preprocessed trace, or none for width 0, and these boundary values.
fn with_table<F: Field>(
    alloc: Global,
    width: &str,
    values: &str,
    cells: &[&str],
) -> Result<Said<F>, Fault> {
    let table = table_of(alloc, width, values)?;
    let cells = cells_of(alloc, cells)?;
    Ok(Said {
        table,
        periodic: Vec::new(alloc),
        cells,
    })
}

fn show_rows<F: Number>(matrix: &RowMajorMatrix<F>, text: &mut String) -> Result<(), Fault> {
    let (width, height) = (matrix.width(), matrix.height());
    write!(text, "width {width} height {height}")?;
    for row in 0..height {
        if let Some(values) = matrix.row_slice(row) {
            text.push_str(" ")?;
            show_elements(values, text)?;
        }
    }
    Ok(())
}

// Adds the rows of the matrix of periodic columns.
fn show_matrix<F: Number>(alloc: Global, air: &Said<F>, text: &mut String) -> Result<(), Fault> {
    match air.periodic_columns_matrix(alloc)? {
        Some(matrix) => show_rows(&matrix, text),
        None => Ok(text.push_str("None")?),
    }
}

fn show_count(count: usize, text: &mut String) -> Result<(), Fault> {
    write!(text, "{count}")?;
    Ok(())
}

fn show_hint(hint: Option<usize>, text: &mut String) -> Result<(), Fault> {
    write!(text, "{hint:?}")?;
    Ok(())
}

fn show_truth(truth: bool, text: &mut String) -> Result<(), Fault> {
    write!(text, "{truth}")?;
    Ok(())
}

fn show_columns(columns: &[usize], text: &mut String) -> Result<(), Fault> {
    write!(text, "{columns:?}")?;
    Ok(())
}

fn show_cells(cells: &[BoundaryPublic], text: &mut String) -> Result<(), Fault> {
    write!(text, "{cells:?}")?;
    Ok(())
}

/// Adds the answer of a method of an AIR.
pub fn show_said<F: Field, A: BaseAir<F>>(
    alloc: Global,
    air: &A,
    call: &str,
    text: &mut String,
) -> Result<(), Fault> {
    match call {
        "width" => show_count(air.width(), text),
        "num_public_values" => show_count(air.num_public_values(), text),
        "preprocessed_width" => show_count(air.preprocessed_width(), text),
        "num_constraints" => show_hint(air.num_constraints(), text),
        "max_constraint_degree" => show_hint(air.max_constraint_degree(), text),
        "assumes_boolean_trace" => show_truth(air.assumes_boolean_trace(), text),
        "main_next_row_columns" => show_columns(&air.main_next_row_columns(alloc)?, text),
        "preprocessed_next_row_columns" => {
            show_columns(&air.preprocessed_next_row_columns(alloc)?, text)
        }
        "public_boundary_io" => show_cells(air.public_boundary_io(), text),
        _ => Err(Fault::Unreadable(Why::NoSuchCall)),
    }
}

// Adds the values of the periodic columns at a row.
fn show_values<F: Number>(
    alloc: Global,
    air: &Said<F>,
    row: &str,
    text: &mut String,
) -> Result<(), Fault> {
    let values = air.periodic_values(alloc, count_of(row)?)?;
    show_elements(&values, text)
}

fn periodic_values<F: Number>(
    alloc: Global,
    given: &[&str],
    text: &mut String,
) -> Result<(), Fault> {
    let [row, columns @ ..] = given else {
        return Err(Fault::Unreadable(Why::NoSuchCall));
    };
    let air: Said<F> = with_periodic(alloc, columns)?;
    show_values(alloc, &air, *row, text)
}

fn periodic_columns_matrix<F: Number>(
    alloc: Global,
    columns: &[&str],
    text: &mut String,
) -> Result<(), Fault> {
    let air: Said<F> = with_periodic(alloc, columns)?;
    show_matrix(alloc, &air, text)
}

fn num_periodic_columns<F: Number>(
    alloc: Global,
    columns: &[&str],
    text: &mut String,
) -> Result<(), Fault> {
    let air: Said<F> = with_periodic(alloc, columns)?;
    show_count(air.num_periodic_columns(), text)
}

fn of_table<F: Number>(
    alloc: Global,
    word: &str,
    given: &[&str],
    text: &mut String,
) -> Result<(), Fault> {
    let ["of", width, values, cells @ ..] = given else {
        return Err(Fault::Unreadable(Why::NoSuchCall));
    };
    let air: Said<F> = with_table(alloc, *width, *values, cells)?;
    show_said(alloc, &air, word, text)
}

/// Adds the answer of a call about periodic columns, or about an AIR with a preprocessed trace.
pub fn air<F: Number>(alloc: Global, call: &[&str], text: &mut String) -> Result<(), Fault> {
    let [word, given @ ..] = call else {
        return Err(Fault::Unreadable(Why::NoSuchCall));
    };
    match *word {
        "periodic_values" => periodic_values::<F>(alloc, given, text),
        "periodic_columns_matrix" => periodic_columns_matrix::<F>(alloc, given, text),
        "num_periodic_columns" => num_periodic_columns::<F>(alloc, given, text),
        word => of_table::<F>(alloc, word, given, text),
    }
}

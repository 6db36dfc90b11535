//! Objects from which an AIR and its trace are read.

use air_field::{Field, PrimeField64, RowMajorMatrix};
use air_program::{FlatInput, flat_input_from};
use air_symbolic::{BaseLeaf, ExprId};
use std::alloc::Global;
use test_lines::Fault;
use test_lines::words::{Number, show_elements, value_of};

// Adds the rows.
fn show_rows<F: Number>(matrix: &RowMajorMatrix<F>, text: &mut String) -> Result<(), Fault> {
    let width = matrix.width();
    write!(text, "width {width} rows")?;
    for row in 0..matrix.height() {
        if let Some(values) = matrix.row_slice(row) {
            text.push_str(" ")?;
            show_elements(values, text)?;
        }
    }
    Ok(())
}

// Adds the ids of the roots.
fn show_roots<F: Field>(roots: &[ExprId<BaseLeaf<F>>], text: &mut String) -> Result<(), Fault> {
    text.push_str(" roots")?;
    for root in roots {
        let number = root.number();
        write!(text, " {number}")?;
    }
    Ok(())
}

// Adds the labels, if there are any.
fn show_labels(labels: &[String], text: &mut String) -> Result<(), Fault> {
    if !labels.is_empty() {
        text.push_str(" labels")?;
    }
    for label in labels {
        write!(text, " {label:?}")?;
    }
    Ok(())
}

// Adds the periodic columns, boundary values, cap, weight and labels.
fn show_rest<F: Number>(input: &FlatInput<F>, text: &mut String) -> Result<(), Fault> {
    text.push_str(" periodic")?;
    for column in &input.beside.periodic {
        text.push_str(" ")?;
        show_elements(column, text)?;
    }
    for cell in &input.beside.cells {
        write!(text, " {cell:?}")?;
    }
    if let Some(cap) = input.trial.cap {
        write!(text, " cap {cap}")?;
    }
    let weight = input.trial.transition_weight;
    write!(text, " weight {weight}")?;
    show_labels(&input.constraints.labels, text)
}

// Adds all members of an input. Its expressions are shown as the number of nodes and the ids of the constraints.
fn show_whole<F: Number>(input: &FlatInput<F>, text: &mut String) -> Result<(), Fault> {
    show_rows(&input.trial.main, text)?;
    if let Some(table) = &input.beside.preprocessed {
        text.push_str(" preprocessed ")?;
        show_rows(table, text)?;
    }
    text.push_str(" public ")?;
    show_elements(&input.trial.public_values, text)?;
    let nodes = input.constraints.pool.len();
    write!(text, " nodes {nodes}")?;
    show_roots(&input.constraints.roots, text)?;
    show_rest(input, text)
}

/// Adds the input that the object spells, as `show_whole` does.
pub fn show_input<F: PrimeField64>(
    alloc: Global,
    object: &str,
    text: &mut String,
) -> Result<(), Fault> {
    let value = value_of(alloc, object)?;
    let input = flat_input_from::<F>(alloc, &value)?;
    show_whole(&input, text)
}

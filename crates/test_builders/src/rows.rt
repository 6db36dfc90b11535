//! Assertions evaluated at a row without columns: each line has its own builder.

use air_builder::AirBuilder;
use air_field::{ExtensionField, Field, RowMajorMatrixView, ViewPair};
use air_report::DebugConstraintBuilder;
use std::alloc::Global;
use std::marker::PhantomData;
use test_airs::assert_all;
use test_lines::words::element_of;
use test_lines::{Bench, Fault, Line};

/// The bench of rows over these fields. (Concrete fields are named only where the tables are checked, since at concrete
/// fields each call is slow to prove.)
#[derive(Drop)]
pub struct Rows<F, EF> {
    alloc: Global,
    fields: PhantomData<(F, EF)>,
}

type RowBuilder<'a, F, EF> = DebugConstraintBuilder<'a, F, EF>;

// A builder at row 0 without columns of any kind, and with these first-row, last-row and transition selectors.
fn row_builder<'a, F: Field, EF: ExtensionField<F>>(
    alloc: Global,
    none: &'a [F],
    none_over: &'a [EF],
    selectors: (F, F, F),
) -> RowBuilder<'a, F, EF> {
    let (first, last, transition) = selectors;
    let empty = RowMajorMatrixView::new_row(none);
    let empty_over = RowMajorMatrixView::new_row(none_over);
    DebugConstraintBuilder::new_with_permutation(
        alloc,
        0,
        ViewPair::new(empty, empty),
        ViewPair::new(empty, empty),
        none,
        first,
        last,
        transition,
        ViewPair::new(empty_over, empty_over),
        none_over,
        none_over,
        Vec::new(alloc),
    )
}

fn assert_at_row<F: Field + 'static, EF: ExtensionField<F> + 'static>(
    alloc: Global,
    builder: &mut RowBuilder<'_, F, EF>,
    words: &[&str],
) -> Result<(), Fault> {
    assert_all(alloc, builder, words)
}

fn show_failures<F: Field, EF: ExtensionField<F>>(
    builder: &RowBuilder<'_, F, EF>,
    text: &mut String,
) -> Result<(), Fault> {
    let failures = builder.formatted_failures()?;
    text.push_str(failures.as_str())?;
    Ok(())
}

// The number of rows in a row builder's window.
fn window_rows<F: Field + 'static, EF: ExtensionField<F> + 'static>() -> usize {
    DebugConstraintBuilder::<'static, F, EF>::WINDOW
}

fn show_window_rows<F: Field + 'static, EF: ExtensionField<F> + 'static>(
    text: &mut String,
) -> Result<(), Fault> {
    let rows = window_rows::<F, EF>();
    write!(text, "{rows}")?;
    Ok(())
}

fn selectors_of<F: Field>(first: &str, last: &str, transition: &str) -> Result<(F, F, F), Fault> {
    let first: F = element_of(first)?;
    let last: F = element_of(last)?;
    Ok((first, last, element_of(transition)?))
}

// Adds the failures of the assertions at a row with these selectors.
fn answer_at_row<F: Field + 'static, EF: ExtensionField<F> + 'static>(
    alloc: Global,
    selectors: (F, F, F),
    words: &[&str],
    text: &mut String,
) -> Result<(), Fault> {
    let mut builder: RowBuilder<'_, F, EF> = row_builder(alloc, &[], &[], selectors);
    assert_at_row(alloc, &mut builder, words)?;
    show_failures(&builder, text)
}

impl<'a, F: Field + 'static, EF: ExtensionField<F> + 'static> Bench<'a> for Rows<F, EF> {
    fn new(alloc: Global) -> Self {
        Rows {
            alloc,
            fields: PhantomData,
        }
    }

    fn answer(&mut self, line: &Line<'a>, text: &mut String) -> Result<(), Fault> {
        match line.words.as_slice() {
            ["WINDOW"] => show_window_rows::<F, EF>(text),
            ["at", first, last, transition, words @ ..] => {
                let selectors = selectors_of(*first, *last, *transition)?;
                answer_at_row::<F, EF>(self.alloc, selectors, words, text)
            }
            words => answer_at_row::<F, EF>(self.alloc, (F::ONE, F::ONE, F::ONE), words, text),
        }
    }

    fn show_state(&self, _text: &mut String) -> Result<(), Fault> {
        Ok(())
    }
}

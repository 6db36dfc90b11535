//! Recorded assertions: each line has its own builder.

use crate::trees::{show_tree, show_value};
use air_audit::finish_recording;
use air_builder::AirBuilder;
use air_field::{ExtensionField, Field};
use air_recording::{AirLayout, Recorded, SymbolicAirBuilder};
use std::alloc::Global;
use std::marker::PhantomData;
use test_airs::assert_all;
use test_lines::words::Number;
use test_lines::{Bench, Fault, Line};

/// The bench of recordings over these fields.
#[derive(Drop)]
pub struct Recordings<F, EF> {
    alloc: Global,
    fields: PhantomData<(F, EF)>,
}

// The recording of the assertions.
fn record_words<F: Field, EF: ExtensionField<F>>(
    alloc: Global,
    words: &[&str],
) -> Result<Recorded<F, EF>, Fault> {
    let mut builder: SymbolicAirBuilder<F, EF> = SymbolicAirBuilder::new(
        alloc,
        AirLayout::default(),
    )?;
    assert_all(alloc, &mut builder, words)?;
    Ok(finish_recording(builder))
}

// Adds the constraints over the extension, then the base constraints.
fn show_recorded<F: Number, EF: ExtensionField<F>>(
    recorded: &Recorded<F, EF>,
    text: &mut String,
) -> Result<(), Fault> {
    for id in &recorded.ext {
        text.push_str(if text.is_empty() { "" } else { " " })?;
        show_value(&recorded.pool, *id, text)?;
    }
    for id in &recorded.base {
        text.push_str(if text.is_empty() { "" } else { " " })?;
        show_tree(recorded.pool.base(), *id, 9, text)?;
    }
    Ok(())
}

// Adds the recording of the assertions.
fn answer_recorded<F: Number, EF: ExtensionField<F>>(
    alloc: Global,
    words: &[&str],
    text: &mut String,
) -> Result<(), Fault> {
    show_recorded(&record_words::<F, EF>(alloc, words)?, text)
}

// The number of rows in the symbolic builder's window.
fn window_rows<F: Field, EF: ExtensionField<F>>() -> usize {
    SymbolicAirBuilder::<F, EF>::WINDOW
}

impl<'a, F: Number, EF: ExtensionField<F>> Bench<'a> for Recordings<F, EF> {
    fn new(alloc: Global) -> Self {
        Recordings {
            alloc,
            fields: PhantomData,
        }
    }

    fn answer(&mut self, line: &Line<'a>, text: &mut String) -> Result<(), Fault> {
        match line.words.as_slice() {
            ["WINDOW"] => {
                let rows = window_rows::<F, EF>();
                write!(text, "{rows}")?;
                Ok(())
            }
            words => answer_recorded::<F, EF>(self.alloc, words, text),
        }
    }

    fn show_state(&self, _text: &mut String) -> Result<(), Fault> {
        Ok(())
    }
}

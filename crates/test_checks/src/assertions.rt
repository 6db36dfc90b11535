//! The answers of a builder at a row, after assertions.

use crate::reports::show_failures;
use crate::rows::{ExtRow, Row, ext_row, row_of};
use air_audit::{Air, AirError, ConstraintFailure, ExtensionField, Field};
use std::alloc::Global;
use test_airs::{Airs, TableAir, assert_all};
use test_lines::Fault;
use test_lines::words::texts_of;

/// The question to the builder after the assertions.
#[derive(Drop)]
pub enum Answer {
    Formatted,
    Has,
    Shown,
    Copied,
}

// The number of words `KEY:VALUE` before the first call.
fn words_of_row(words: &[&str]) -> usize {
    let mut count = 0usize;
    for word in words {
        if !word.contains(':') {
            return count;
        }
        count = count.saturating_add(1);
    }
    count
}

// Asserts an AIR's constraints.
fn eval_on<F: Field + 'static, EF: ExtensionField<F> + 'static>(
    air: &TableAir<F>,
    builder: &mut ExtRow<'_, F, EF>,
) -> Result<(), AirError> {
    air.eval(builder)
}

// Makes the assertions of these words.
fn assert_on<F: Field + 'static, EF: ExtensionField<F> + 'static>(
    alloc: Global,
    builder: &mut ExtRow<'_, F, EF>,
    words: &[&str],
) -> Result<(), Fault> {
    assert_all(alloc, builder, words)
}

// Appends these texts to the words.
fn add_words<'a>(texts: &'a [String], words: &mut Vec<&'a str>) -> Result<(), Fault> {
    for text in texts {
        words.push(text.as_str())?;
    }
    Ok(())
}

// Makes the assertions of these texts.
fn assert_texts<F: Field + 'static, EF: ExtensionField<F> + 'static>(
    alloc: Global,
    builder: &mut ExtRow<'_, F, EF>,
    texts: &[String],
) -> Result<(), Fault> {
    let mut words = Vec::new(alloc);
    add_words(texts, &mut words)?;
    assert_on(alloc, builder, words.as_slice())
}

// Makes the assertions of words that spell texts.
fn assert_spelt<F: Field + 'static, EF: ExtensionField<F> + 'static>(
    alloc: Global,
    builder: &mut ExtRow<'_, F, EF>,
    words: &[&str],
) -> Result<(), Fault> {
    let texts = texts_of(alloc, words)?;
    assert_texts(alloc, builder, texts.as_slice())
}

// Makes the assertions of the words, or asserts an AIR's constraints.
fn assert_words<F: Field + 'static, EF: ExtensionField<F> + 'static>(
    alloc: Global,
    airs: &Airs<'_, F>,
    builder: &mut ExtRow<'_, F, EF>,
    words: &[&str],
) -> Result<(), Fault> {
    match words {
        [] => Ok(()),
        ["eval", air] => Ok(eval_on(airs.air(*air)?, builder)?),
        _ => assert_spelt(alloc, builder, words),
    }
}

// Adds the debug texts of copies of the failures.
fn show_copies(failures: &[ConstraintFailure], text: &mut String) -> Result<(), Fault> {
    for (place, failure) in failures.iter().enumerate() {
        if place > 0 {
            text.push_str(", ")?;
        }
        let copy = failure.clone()?;
        write!(text, "{copy:?}")?;
    }
    Ok(())
}

// Adds the number of failures, and the failures.
fn show_failed(failures: &[ConstraintFailure], text: &mut String) -> Result<(), Fault> {
    let count = failures.len();
    write!(text, "{count} failed")?;
    show_failures(failures, text)
}

// Adds the failures as the builder formats them.
fn show_formatted<F: Field, EF: ExtensionField<F>>(
    builder: &ExtRow<'_, F, EF>,
    text: &mut String,
) -> Result<(), Fault> {
    let formatted = builder.formatted_failures()?;
    text.push_str(formatted.as_str())?;
    Ok(())
}

// Adds whether there are failures.
fn show_whether(failed: bool, text: &mut String) -> Result<(), Fault> {
    Ok(text.push_str(if failed { "true" } else { "false" })?)
}

// Adds the builder's answer.
fn show_answer<F: Field, EF: ExtensionField<F>>(
    builder: ExtRow<'_, F, EF>,
    answer: Answer,
    text: &mut String,
) -> Result<(), Fault> {
    match answer {
        Answer::Formatted => show_formatted(&builder, text),
        Answer::Has => show_whether(builder.has_failures(), text),
        Answer::Shown => show_failed(builder.failures(), text),
        Answer::Copied => show_copies(builder.into_failures().as_slice(), text),
    }
}

// Adds the answer of the builder at this row, after these calls.
fn answer_at<F: Field + 'static, EF: ExtensionField<F> + 'static>(
    alloc: Global,
    airs: &Airs<'_, F>,
    answer: Answer,
    row: &Row<F, EF>,
    calls: &[&str],
    text: &mut String,
) -> Result<(), Fault> {
    let mut builder = ext_row(alloc, row)?;
    assert_words(alloc, airs, &mut builder, calls)?;
    show_answer(builder, answer, text)
}

/// Adds the answer of the builder at a row, after assertions. The words `KEY:VALUE` describe the row; the words after
/// them are the assertions.
pub fn answer_row<F: Field + 'static, EF: ExtensionField<F> + 'static>(
    alloc: Global,
    airs: &Airs<'_, F>,
    answer: Answer,
    words: &[&str],
    text: &mut String,
) -> Result<(), Fault> {
    let (row, calls) = words.split_at(words_of_row(words).min(words.len()));
    let row = row_of::<F, EF>(alloc, row)?;
    answer_at(alloc, airs, answer, &row, calls, text)
}

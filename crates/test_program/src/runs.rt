//! Runs of the program over streams in memory.

use crate::streams::{Kept, Pieces};
use air_program::run;
use std::alloc::Global;
use std::str;
use test_lines::words::{show_text, text_of, texts_of};
use test_lines::{Fault, Why};

// The bytes of an input. Each character is the byte of its number, so an input need not be valid text.
fn bytes_of(alloc: Global, input: &str) -> Result<Vec<u8>, Fault> {
    let mut bytes = Vec::new(alloc);
    for letter in text_of(alloc, input)?.chars() {
        match u8::try_from(letter) {
            Ok(byte) => bytes.push(byte)?,
            Err(_) => return Err(Fault::Unreadable(Why::NoText)),
        }
    }
    Ok(bytes)
}

// Adds the answer of a run with this status: the number of unread bytes, if any, and the written text.
fn show_answer(status: u8, left: usize, written: &[u8], text: &mut String) -> Result<(), Fault> {
    if written == b"refused: Memory\n".as_slice() {
        return Err(Fault::Memory);
    }
    write!(text, "status {status} ")?;
    if left > 0 {
        write!(text, "unread {left} ")?;
    }
    match str::from_utf8(written) {
        Ok(written) => show_text(written, text),
        Err(_) => Err(Fault::Unreadable(Why::NoText)),
    }
}

// Adds the answer of a run that moves at most `most` bytes a call. A run that runs out of memory has no answer.
fn run_by(
    alloc: Global,
    words: &[String],
    input: &[u8],
    most: usize,
    text: &mut String,
) -> Result<(), Fault> {
    let mut reader = Pieces::new(input, most);
    let mut writer = Kept::new(alloc, most);
    // (The writer fails only when out of memory.)
    let Ok(status) = run(alloc, words, &mut reader, &mut writer) else {
        return Err(Fault::Memory);
    };
    show_answer(status, reader.bytes_left(), writer.bytes(), text)
}

// Adds the answer of a run that moves at most `most` bytes a call, if it differs from `whole`.
fn show_other(
    alloc: Global,
    words: &[String],
    input: &[u8],
    most: usize,
    whole: &str,
    text: &mut String,
) -> Result<(), Fault> {
    let mut cut = String::new(alloc);
    run_by(alloc, words, input, most, &mut cut)?;
    if cut.as_str() != whole {
        write!(text, ", but in pieces of {most}: {cut}")?;
    }
    Ok(())
}

// Adds the answer of the program to these bytes, as `show_run` does.
fn run_all(alloc: Global, words: &[String], input: &[u8], text: &mut String) -> Result<(), Fault> {
    run_by(alloc, words, input, 4096, text)?;
    let whole = text.clone()?;
    for most in [1, 2, 3, 7] {
        show_other(alloc, words, input, most, whole.as_str(), text)?;
    }
    Ok(())
}

/// Adds the answer of the program to an input, with these arguments. Input and output are also moved in small pieces;
/// answers that differ are added.
pub fn show_run(
    alloc: Global,
    words: &[&str],
    input: &str,
    text: &mut String,
) -> Result<(), Fault> {
    let said = texts_of(alloc, words)?;
    let input = bytes_of(alloc, input)?;
    run_all(alloc, said.as_slice(), input.as_slice(), text)
}

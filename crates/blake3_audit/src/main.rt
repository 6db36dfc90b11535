//! Prints the digests of messages; and, for two messages of one block each as the rows of a trace, the digests in the
//! rows and the findings of an audit, without changes and with two cells changed.
#![tactic(auto)]

ghost use Rattle.std.specs.Prelude.{◌≤◌, ◌^◌};

use air_blake3::{Compression, are_compressions, row_of_block};
use blake3::{hash, start_words};
use p3_air::{
    AirError, BabyBear, ConstraintReport, Field, PrimeField64, RowMajorMatrix, audit_air,
};
use std::alloc::Global;
use std::io;

/// The flags of a block that is the only one of its message.
const WHOLE: u32 = 11;

/// Pushes the row of a message of one block with this length in bytes.
fn push_row(
    alloc: Global,
    values: &mut Vec<BabyBear>,
    message: &[u32; 16],
    length: u32,
) -> Result<(), AirError> {
    let rest = [0, 0, length, WHOLE];
    let row = row_of_block::<BabyBear>(alloc, &start_words(), message, &rest).map_err(
        |_| AirError::Memory,
    )?;
    for value in &row {
        values.push(*value).map_err(|_| AirError::Memory)?;
    }
    Ok(())
}

/// The values of two rows, for the empty message and for "abc".
fn values_of_two(alloc: Global) -> Result<Vec<BabyBear>, AirError> {
    let mut message = [0; 16];
    let mut values = Vec::new(alloc);
    push_row(alloc, &mut values, &message, 0)?;
    message[0] = 0x00636261;
    push_row(alloc, &mut values, &message, 3)?;
    Ok(values)
}

/// The word whose bits begin at a column of a row; any value other than one is read as zero.
fn word_at(trace: &RowMajorMatrix<BabyBear>, row: usize, first: usize) -> u32
    requires { first ≤ 2 ^ 16 }
{
    let mut word = 0;
    for bit in 0usize..32 {
        let is_set = match trace.get(row, first + (31 - bit)) {
            Some(value) => value == BabyBear::ONE,
            None => false,
        };
        word = (word << 1) | (is_set as u32);
    }
    word
}

/// Prints eight words, each little-endian.
fn show_words(rt: HostRuntime, words: [u32; 8]) -> io::Result<()> {
    for word in words {
        print!(rt; "{:08x}", word.swap_bytes())?;
    }
    println!(rt; "")
}

/// Prints the digest in the output columns.
fn show_digest(rt: HostRuntime, trace: &RowMajorMatrix<BabyBear>, row: usize) -> io::Result<()> {
    let mut words = [0; 8];
    for index in 0usize..8 {
        words[index] = word_at(trace, row, 8656 + 32 * index);
    }
    show_words(rt, words)
}

/// The findings of an audit: the degree and the report.
fn audit_trace(
    alloc: Global,
    trace: &RowMajorMatrix<BabyBear>,
) -> Result<(usize, ConstraintReport), AirError> {
    let audit = audit_air(alloc, &Compression {}, trace, &[], 0)?;
    Ok((audit.degree, audit.report))
}

/// Prints a line for each count and for each failure.
fn show_audit(rt: HostRuntime, trace: &RowMajorMatrix<BabyBear>) -> io::Result<()> {
    match audit_trace(rt.alloc(), trace) {
        Ok((degree, report)) => {
            println!(rt; "degree {degree}")?;
            println!(rt; "rows {}", report.total_rows)?;
            println!(rt; "constraints {}", report.total_constraints_per_row)?;
            println!(rt; "failures {}", report.failures.len())?;
            for failure in &report.failures {
                println!(rt; "row {}: {failure}", failure.row)?;
            }
            Ok(())
        }
        Err(error) => println!(rt; "refused: {error}"),
    }
}

/// Prints whether a check lists no failure, so that each row holds a compression.
fn show_check(rt: HostRuntime, trace: &RowMajorMatrix<BabyBear>) -> io::Result<()> {
    match are_compressions(rt.alloc(), trace) {
        Ok(true) => println!(rt; "compressions"),
        Ok(false) => println!(rt; "no compressions"),
        Err(error) => println!(rt; "refused: {error}"),
    }
}

/// Changes two cells: the lowest bit of output word 0 in the second row, and a limb of the first round in the first
/// row.
fn spoil(values: &mut Vec<BabyBear>) {
    if let Some(value) = values.get_mut(9168 + 8656) {
        *value = BabyBear::ONE.sub(*value);
    }
    if let Some(value) = values.get_mut(912) {
        *value = (*value).add(BabyBear::ONE);
    }
}

/// The trace of both rows, with or without the changes.
fn trace_of_two(alloc: Global, is_spoilt: bool) -> Result<RowMajorMatrix<BabyBear>, AirError> {
    let mut values = values_of_two(alloc)?;
    if is_spoilt {
        spoil(&mut values);
    }
    Ok(RowMajorMatrix::new(values, 9168)?)
}

/// The message of `count` bytes, where byte i is i modulo 251.
fn message_of(alloc: Global, count: usize) -> Result<Vec<u8>, AirError> {
    let mut message = Vec::new(alloc);
    for index in 0..count {
        message
            .push((index % 251) as u8)
            .map_err(|_| AirError::Memory)?;
    }
    Ok(message)
}

/// Prints the digests of such messages of several lengths.
fn show_hashes(rt: HostRuntime) -> io::Result<()> {
    for length in [0usize, 1, 63, 64, 65, 1024] {
        match message_of(rt.alloc(), length) {
            Ok(message) => {
                if message.len() <= 1024 {
                    print!(rt; "{length} ")?;
                    show_words(rt, hash(&message))?;
                }
            }
            Err(error) => println!(rt; "refused: {error}")?,
        }
    }
    Ok(())
}

fn show(rt: HostRuntime, is_spoilt: bool) -> io::Result<()> {
    match trace_of_two(rt.alloc(), is_spoilt) {
        Ok(trace) => {
            show_digest(rt, &trace, 0)?;
            show_digest(rt, &trace, 1)?;
            show_audit(rt, &trace)?;
            show_check(rt, &trace)
        }
        Err(error) => println!(rt; "refused: {error}"),
    }
}

fn main(rt: HostRuntime) -> io::Result<()> {
    show_hashes(rt)?;
    show(rt, false)?;
    show(rt, true)
}

//! The findings about a message.
ghost use Rattle.std.specs.Prelude.{◌≡◌, ◌*◌, ◌<◌, ◌≤◌, ◌^◌, [], IfOk, length};
ghost use Rattle.blake3.specs.Hashing.{hash};
ghost use Rattle.air_blake3.specs.Checks.{ReportsListNothing};

use crate::refusals::Refusal;
use crate::words::Cell;
use air_blake3::{Compression, blocks_of_message, trace_of_blocks};
use blake3::hash;
use p3_air::{ConstraintReport, Field, PrimeField, RowMajorMatrix, audit_air_with_cap};
use std::alloc::Global;

/// The findings that the program prints about a message.
#[derive(Drop)]
pub struct Findings {
    /// The message's digest.
    pub digest: [u32; 8],
    /// The first eight words in the output columns of the last row, where a digest belongs.
    pub output: [u32; 8],
    /// The number of the message's blocks.
    pub blocks: usize,
    /// The degree of the constraints.
    pub degree: usize,
    /// The report of the trace's audit.
    pub report: ConstraintReport,
}

/// The word whose bits begin at a column of a row; any value other than one is read as zero.
fn word_at<F: Field>(trace: &RowMajorMatrix<F>, row: usize, first: usize) -> u32
    requires { first ≤ 2 ^ 16 }
{
    let mut word = 0;
    for bit in 0usize..32 {
        let is_set = match trace.get(row, first + (31 - bit)) {
            Some(value) => value == F::ONE,
            None => false,
        };
        word = (word << 1) | (is_set as u32);
    }
    word
}

/// The first eight words of a row's output.
fn output_of<F: Field>(trace: &RowMajorMatrix<F>, row: usize) -> [u32; 8] {
    let mut words = [0; 8];
    for index in 0usize..8 {
        words[index] = word_at(trace, row, 8656 + 32 * index);
    }
    words
}

/// The trace with one added to a cell.
fn spoil_cell<F: Field>(
    alloc: Global,
    trace: &RowMajorMatrix<F>,
    cell: Cell,
) -> Result<RowMajorMatrix<F>, Refusal> {
    if cell.row >= trace.height() {
        return Err(Refusal::NoSuchRow);
    }
    if cell.column >= trace.width() {
        return Err(Refusal::NoSuchColumn);
    }
    let mut values = Vec::new(alloc);
    for row in 0..trace.height() {
        for column in 0..trace.width() {
            if let Some(value) = trace.get(row, column) {
                let is_spoilt = row == cell.row && column == cell.column;
                values.push(if is_spoilt { value.add(F::ONE) } else { value })?;
            }
        }
    }
    match RowMajorMatrix::new(values, trace.width()) {
        Ok(spoilt) => Ok(spoilt),
        Err(_) => Err(Refusal::Audit),
    }
}

/// The findings about a trace of this many blocks of a message. The audit lists no failure if no report on the trace
/// does.
fn found_of_trace<F: PrimeField + 'static>(
    alloc: Global,
    message: &[u8],
    blocks: usize,
    trace: &RowMajorMatrix<F>,
) -> Result<Findings, Refusal>
    requires { length message.now ≤ 2 ^ 10 }
    ensures digest { IfOk result (λ found. found.digest ≡ hash message.now) }
    ensures audit { IfOk result (λ found. ReportsListNothing F.ring F.eq trace.now
        → found.report.failures.items ≡ []) }
{
    let audit = audit_air_with_cap(alloc, &Compression {}, trace, &[], None, 0)?;
    Ok(Findings {
        digest: hash(message),
        output: output_of(trace, trace.height().saturating_sub(1)),
        blocks,
        degree: audit.degree,
        report: audit.report,
    })
}

/// The findings about the trace of a message, with one added to `cell` if it is given. Without a cell, the audit lists
/// no failure, over a field whose characteristic is above 3 · 2^16.
pub fn findings_of<F: PrimeField + 'static>(
    alloc: Global,
    message: &[u8],
    cell: Option<Cell>,
) -> Result<Findings, Refusal>
    requires { length message.now ≤ 2 ^ 10 }
    ensures digest { IfOk result (λ found. found.digest ≡ hash message.now) }
    ensures audit { IfOk result (λ found. cell ≡ None → 3 * 2 ^ 16 < F.CHARACTERISTIC
        → found.report.failures.items ≡ []) }
{
    let blocks = blocks_of_message(alloc, message)?;
    let trace = trace_of_blocks::<F>(alloc, &blocks)?;
    match cell {
        Some(cell) => {
            let other = spoil_cell(alloc, &trace, cell)?;
            found_of_trace(alloc, message, blocks.len(), &other)
        }
        None => found_of_trace(alloc, message, blocks.len(), &trace),
    }
}

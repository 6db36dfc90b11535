//! A whole trace of blocks.
ghost use Rattle.std.specs.Prelude.{◌≡◌, ◌*◌, ◌++◌, ◌^◌, ◌<◌, ℕ, OnOk, IfOk, IfErr, length};
ghost use Rattle.std.specs.Int.{IsNextPowerOfTwo};
ghost use Rattle.air_author.specs.Constraints.{asserts_of_first};
ghost use Rattle.blake3.specs.Sizes.{AreBlockWords};
ghost use Rattle.air_blake3.specs.Values.{block_row};
ghost use Rattle.air_blake3.specs.Checks.{ListNothing};
ghost use Rattle.air_blake3.specs.Traces.{HoldBlocks, IsTooMany, RefusesTrace, SatisfyAll, block_for, block_in};
ghost use Rattle.air_blake3.specs.declared.traces.TraceError.TheVariants.{Memory};

use crate::blocks::{InputBlock, ZERO_BLOCK};
use crate::laws::compression_is_complete;
use crate::rows::push_row;
use crate::values::Pushed;
use air_field::{Field, PrimeField, RowMajorMatrix};
use std::alloc::{AllocError, Global};

/// Why there is no trace.
#[derive(Clone, Copy, Debug, Drop)]
pub enum TraceError {
    /// Out of memory.
    Memory,
    /// The number of the trace's values doesn't fit `usize`.
    TooManyRows,
}

impl From<AllocError> for TraceError {
    ghost from_gives = { λ _ why. why ≡ Memory };

    fn from(_error: AllocError) -> TraceError {
        TraceError::Memory
    }
}

/// The number of rows for this number of blocks: the next power of two.
fn row_count(blocks: usize) -> Result<usize, TraceError>
    ensures rows { IfOk result (IsNextPowerOfTwo blocks) }
    ensures fits { IfOk result (λ rows. rows * 9168 < 2 ^ 64) }
    ensures why { IfErr result (λ why. why ≡ TraceError.TooManyRows) }
    ensures refused { IfErr result (λ why. IsTooMany blocks) }
{
    match blocks.checked_next_power_of_two() {
        Some(rows) => {
            if rows <= usize::MAX / 9168 {
                Ok(rows)
            } else {
                Err(TraceError::TooManyRows)
            }
        }
        None => Err(TraceError::TooManyRows),
    }
}

/// The block of a row: rows past the last block repeat it; without any block, the zero block.
fn block_for(blocks: &[InputBlock], row: usize) -> InputBlock
    ensures { result ≡ block_for blocks.now row }
{
    let last = blocks.len().saturating_sub(1);
    match blocks.get(row.min(last)) {
        Some(block) => *block,
        None => ZERO_BLOCK,
    }
}

/// Pushes the first `rows` rows.
fn push_rows<F: Field>(values: &mut Vec<F>, blocks: &[InputBlock], rows: usize) -> Pushed
    ensures pushed { OnOk result (values.new.items ≡ values.old.items ++ asserts_of_first
        (λ i. block_row F.ring (block_in (block_for blocks.now i))) rows) }
    ensures words { OnOk result ((i : ℕ) → i < rows → AreBlockWords
        (block_in (block_for blocks.now i))) }
{
    for row in 0..rows {
        let block = block_for(blocks, row);
        let rest = [
            block.counter_low,
            block.counter_high,
            block.length,
            block.flags,
        ];
        push_row(values, &block.chaining, &block.message, &rest)?;
    }
    Ok(())
}

/// The trace of blocks: row i holds block i. The rows past the last block, up to a power of two, repeat it. Without a
/// block there is one row, of the zero block. Over a field whose characteristic is above 3 · 2^16, each row satisfies
/// all constraints of `Compression`, whatever the other values at the row are; so no check and no audit of the trace
/// lists a failure.
///
/// # Errors
///
/// `TooManyRows` if the number of the trace's values doesn't fit `usize`, which is tested before any memory is taken;
/// `Memory` only if it fits.
pub fn trace_of_blocks<F: PrimeField>(
    alloc: Global,
    blocks: &[InputBlock],
) -> Result<RowMajorMatrix<F>, TraceError>
    ensures width { IfOk result (λ trace. trace.width ≡ 9168) }
    ensures height { IfOk result (λ trace. IsNextPowerOfTwo (length blocks.now)
        (length trace.rows)) }
    ensures blocks { IfOk result (HoldBlocks F.ring blocks.now) }
    ensures satisfied { IfOk result (SatisfyAll F.ring F.ZERO F.CHARACTERISTIC) }
    ensures reports { IfOk result (ListNothing F.ring F.eq F.CHARACTERISTIC) }
    ensures countable { IfOk result (λ trace. length trace.rows * 9168 < 2 ^ 64) }
    ensures refused { IfErr result (RefusesTrace (length blocks.now)) }
{
    compression_is_complete::<F>();
    let rows = row_count(blocks.len())?;
    let mut values = Vec::with_capacity(alloc, 9168 * rows)?;
    push_rows(&mut values, blocks, rows)?;
    match RowMajorMatrix::new(values, 9168) {
        Ok(trace) => Ok(trace),
        Err(_) => unreachable!(),
    }
}

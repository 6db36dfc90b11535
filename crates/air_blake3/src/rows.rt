//! The row of a block.
ghost use Rattle.std.specs.Prelude.{◌≡◌, ◌++◌, OnOk, IfOk, slice_index};
ghost use Rattle.air_author.specs.Constraints.{asserts_of_first};
ghost use Rattle.blake3.specs.Compression.{after_rounds, columns_mixed, round};
ghost use Rattle.blake3.specs.Blocks.{block_of, word_of_round};
ghost use Rattle.blake3.specs.Sizes.{AreBlockWords};
ghost use Rattle.air_blake3.specs.Values.{SatisfiesAll, block_row, columns_values, input_values, round_values};

use crate::laws::compression_is_complete;
use crate::values::{Pushed, push_four, push_output, push_state, push_words};
use air_field::{Field, PrimeField};
use blake3::{State, columns_half, columns_whole, eight_words, first_state, outputs};
use std::alloc::Global;

/// Mixes the columns, and pushes the state in between and the state after.
fn push_columns<F: Field>(values: &mut Vec<F>, v: State, m: &[u32; 8]) -> Pushed<State>
    ensures mixed { IfOk result (λ w. w ≡ columns_mixed v (slice_index m.now)) }
    ensures pushed { OnOk result (values.new.items ≡ values.old.items
        ++ columns_values F.ring v (slice_index m.now)) }
{
    let half = columns_half(v, m);
    let whole = columns_whole(half, m);
    push_state(values, half)?;
    push_state(values, whole)?;
    Ok(whole)
}

/// Computes a round, and pushes its four states.
fn push_round<F: Field>(
    values: &mut Vec<F>,
    v: State,
    message: &[u32; 16],
    turn: usize,
) -> Pushed<State>
    ensures next { IfOk result (λ w. w ≡ round v (word_of_round message.now turn)) }
    ensures pushed { OnOk result (values.new.items ≡ values.old.items
        ++ round_values F.ring v (word_of_round message.now turn)) }
{
    let low = eight_words(message, turn, 0);
    let high = eight_words(message, turn, 8);
    let columns = push_columns(values, v, &low)?;
    let last = push_columns(values, columns.diagonals(), &high)?;
    Ok(last.from_diagonals())
}

/// Computes all rounds, and pushes the states after the first.
fn push_rounds<F: Field>(values: &mut Vec<F>, v: State, message: &[u32; 16]) -> Pushed<State>
    ensures last { IfOk result (λ w. w ≡ after_rounds v (slice_index message.now) 7) }
    ensures pushed { OnOk result (values.new.items ≡ values.old.items ++ asserts_of_first
        (λ r. round_values F.ring (after_rounds v (slice_index message.now) r)
        (word_of_round message.now r)) 7) }
{
    let mut state = v;
    for turn in 0usize..7 {
        state = push_round(values, state, message, turn)?;
    }
    Ok(state)
}

/// Pushes the columns before the rounds: the message, the first four words of the chaining value, and the first state.
fn push_input<F: Field>(
    values: &mut Vec<F>,
    chaining: &[u32; 8],
    message: &[u32; 16],
    rest: &[u32; 4],
) -> Pushed
    ensures { OnOk result (values.new.items ≡ values.old.items
        ++ input_values F.ring (block_of chaining.now message.now rest.now)) }
{
    push_words(values, message, 16)?;
    push_words(values, chaining, 4)?;
    push_state(values, first_state(chaining, message, rest).diagonals())
}

/// Pushes the row of a block.
pub(crate) fn push_row<F: Field>(
    values: &mut Vec<F>,
    chaining: &[u32; 8],
    message: &[u32; 16],
    rest: &[u32; 4],
) -> Pushed
    ensures pushed { OnOk result (values.new.items ≡ values.old.items
        ++ block_row F.ring (block_of chaining.now message.now rest.now)) }
    ensures words { OnOk result (AreBlockWords (block_of chaining.now message.now rest.now)) }
{
    push_input(values, chaining, message, rest)?;
    let last = push_rounds(values, first_state(chaining, message, rest), message)?;
    push_four(values, last.q0.c, last.q1.c, last.q2.c, last.q3.c)?;
    push_output(values, outputs(last, chaining))
}

/// The row of a block, from its chaining value, its message, and `rest`: the two halves of the counter, the length and
/// the flags. Over a field whose characteristic is above 3 · 2^16, it satisfies all constraints of `Compression`.
pub fn row_of_block<F: PrimeField>(
    alloc: Global,
    chaining: &[u32; 8],
    message: &[u32; 16],
    rest: &[u32; 4],
) -> Pushed<Vec<F>>
    ensures row { IfOk result (λ row. row.items
        ≡ block_row F.ring (block_of chaining.now message.now rest.now)) }
    ensures satisfied { IfOk result (λ row. SatisfiesAll F.ring F.ZERO F.CHARACTERISTIC
        row.items) }
{
    compression_is_complete::<F>();
    let mut values = Vec::new(alloc);
    push_row(&mut values, chaining, message, rest)?;
    Ok(values)
}

//! The compression of a block.
ghost use Rattle.std.specs.Prelude.{◌≡◌, slice_index};
ghost use Rattle.blake3.specs.Compression.{compress, first_state, output_column, outputs, round};
ghost use Rattle.blake3.specs.Blocks.{block_of, word_of_round};

use crate::messages::eight_words;
use crate::mixing::{columns_half, columns_whole};
use crate::words::{Quarter, State};

/// The state before the rounds, from the chaining value, and from `rest`: the two halves of the counter, the length and
/// the flags.
pub fn first_state(chaining: &[u32; 8], message: &[u32; 16], rest: &[u32; 4]) -> State
    ensures { result ≡ first_state (block_of chaining.now message.now rest.now) }
{
    State {
        q0: Quarter {
            a: chaining[0],
            b: chaining[4],
            c: 0x6A09E667,
            d: rest[0],
        },
        q1: Quarter {
            a: chaining[1],
            b: chaining[5],
            c: 0xBB67AE85,
            d: rest[1],
        },
        q2: Quarter {
            a: chaining[2],
            b: chaining[6],
            c: 0x3C6EF372,
            d: rest[2],
        },
        q3: Quarter {
            a: chaining[3],
            b: chaining[7],
            c: 0xA54FF53A,
            d: rest[3],
        },
    }
}

/// The state after a round, from the state before it.
pub fn round(v: State, message: &[u32; 16], turn: usize) -> State
    ensures { result ≡ round v (word_of_round message.now turn) }
{
    let low = eight_words(message, turn, 0);
    let high = eight_words(message, turn, 8);
    let columns = columns_whole(columns_half(v, &low), &low);
    let half = columns_half(columns.diagonals(), &high);
    columns_whole(half, &high).from_diagonals()
}

fn output_column(q: Quarter, low: u32, high: u32) -> Quarter
    ensures { result ≡ output_column q low high }
{
    Quarter {
        a: q.c ^ q.a,
        b: q.b ^ q.d,
        c: q.c ^ low,
        d: q.d ^ high,
    }
}

/// The sixteen words of the output, from the last state and the chaining value.
pub fn outputs(v: State, chaining: &[u32; 8]) -> State
    ensures { result ≡ outputs v (slice_index chaining.now) }
{
    State {
        q0: output_column(v.q0, chaining[0], chaining[4]),
        q1: output_column(v.q1, chaining[1], chaining[5]),
        q2: output_column(v.q2, chaining[2], chaining[6]),
        q3: output_column(v.q3, chaining[3], chaining[7]),
    }
}

/// The compression of a chaining value and a message, with the two halves of the counter, the length of the block and
/// the flags in `rest`. The digest of a message of one block is the first eight words of the output: the four words a,
/// column by column, and then the four words b.
pub fn compress(chaining: &[u32; 8], message: &[u32; 16], rest: &[u32; 4]) -> State
    ensures { result ≡ compress (block_of chaining.now message.now rest.now) }
{
    let mut state = first_state(chaining, message, rest);
    for turn in 0usize..7 {
        state = round(state, message, turn);
    }
    outputs(state, chaining)
}

//! The columns where the words of a row begin. A `State` or `Quarter` of columns has, for each word, its first column.
ghost use Rattle.std.specs.Prelude.{◌≡◌, ◌+◌, ◌*◌, ◌<◌, ◌≤◌, ◌^◌};
ghost use Rattle.air_blake3.specs.Row.{eight_columns, message_column, output_columns, quarter_from, state_from};
ghost use Rattle.blake3.specs.Compression.{place_in};

use blake3::{Quarter, State, place_of};

/// The columns of four words, 68 columns from `first` on.
fn quarter_at(first: u32) -> Quarter
    requires { first ≤ 2 ^ 16 }
    ensures { result ≡ quarter_from first }
{
    Quarter {
        a: first,
        b: first + 2,
        c: first + 34,
        d: first + 36,
    }
}

/// The columns of the sixteen words of a state, 272 columns from `first` on.
pub(crate) fn state_at(first: u32) -> State
    requires { first ≤ 2 ^ 15 }
    ensures { result ≡ state_from first }
{
    State {
        q0: quarter_at(first),
        q1: quarter_at(first + 68),
        q2: quarter_at(first + 136),
        q3: quarter_at(first + 204),
    }
}

/// The column of the message's word that a round uses at an index.
fn word_at(round: usize, index: usize) -> u32
    requires { index < 16 }
    ensures { result ≡ message_column (place_in round index) }
{
    32 * place_of(round, index) as u32
}

/// The columns of eight such words, from an index on.
pub(crate) fn eight_from(round: usize, from: usize) -> [u32; 8]
    requires { from ≤ 8 }
    ensures { result ≡ eight_columns round from }
{
    [
        word_at(round, from + 0),
        word_at(round, from + 1),
        word_at(round, from + 2),
        word_at(round, from + 3),
        word_at(round, from + 4),
        word_at(round, from + 5),
        word_at(round, from + 6),
        word_at(round, from + 7),
    ]
}

/// The columns of the four words of the output that come from a column of the last state.
pub(crate) fn output_from(index: u32) -> Quarter
    requires { index < 4 }
    ensures { result ≡ output_columns index }
{
    Quarter {
        a: 8656 + 32 * index,
        b: 8784 + 32 * index,
        c: 8912 + 32 * index,
        d: 9040 + 32 * index,
    }
}

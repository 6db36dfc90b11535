//! The words of the message that each round uses.
ghost use Rattle.std.specs.Prelude.{◌≡◌, ◌+◌, ◌<◌, ◌≤◌};
ghost use Rattle.blake3.specs.Compression.{place_in};
ghost use Rattle.blake3.specs.Blocks.{eight_at, word_of_round};

const PERMUTATION: [usize; 16] = [2, 6, 3, 10, 7, 0, 4, 13, 1, 11, 12, 5, 9, 14, 15, 8];

/// The index in the message of the word that a round uses at an index.
pub fn place_of(round: usize, index: usize) -> usize
    requires { index < 16 }
    ensures is { result ≡ place_in round index }
    ensures within { result < 16 }
{
    let mut place = index;
    for done in 0..round {
        place = PERMUTATION[place];
    }
    place
}

fn word_of(message: &[u32; 16], round: usize, index: usize) -> u32
    requires { index < 16 }
    ensures { result ≡ word_of_round message.now round index }
{
    message[place_of(round, index)]
}

/// Eight of the words that a round uses, from an index on.
pub fn eight_words(message: &[u32; 16], round: usize, from: usize) -> [u32; 8]
    requires { from ≤ 8 }
    ensures { result ≡ eight_at message.now round from }
{
    [
        word_of(message, round, from + 0),
        word_of(message, round, from + 1),
        word_of(message, round, from + 2),
        word_of(message, round, from + 3),
        word_of(message, round, from + 4),
        word_of(message, round, from + 5),
        word_of(message, round, from + 6),
        word_of(message, round, from + 7),
    ]
}

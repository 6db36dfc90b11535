//! The blocks of a message of one chunk, at most 1,024 bytes.
ghost use Rattle.std.specs.Prelude.{◌≡◌, ◌+◌, ◌*◌, ◌<◌, ◌≤◌, ◌^◌, suc};
ghost use Rattle.blake3.specs.Hashing.{block_count, block_flags, block_length, byte_at, first_words, start_words, word_of_bytes, words_at};

use crate::words::State;

/// The chaining value of the first block.
pub fn start_words() -> [u32; 8]
    ensures { result ≡ start_words }
{
    [
        0x6A09E667, 0xBB67AE85, 0x3C6EF372, 0xA54FF53A, 0x510E527F, 0x9B05688C, 0x1F83D9AB,
        0x5BE0CD19,
    ]
}

/// The byte at an index, zero past the end.
fn byte_at(message: &[u8], at: usize) -> u32
    ensures is { result ≡ byte_at message.now at }
    ensures small { result < 2 ^ 8 }
{
    match message.get(at) {
        Some(byte) => *byte as u32,
        None => 0,
    }
}

/// Four bytes as a little-endian word.
fn word_at(message: &[u8], at: usize) -> u32
    requires { at ≤ 2 ^ 16 }
    ensures { result ≡ word_of_bytes message.now at }
{
    byte_at(message, at)
        + 256 * byte_at(message, at + 1)
        + 65536 * byte_at(message, at + 2)
        + 16777216 * byte_at(message, at + 3)
}

/// The sixteen words of the block that begins at a byte. Bytes past the message's end are zero.
pub fn words_at(message: &[u8], at: usize) -> [u32; 16]
    requires { at ≤ 2 ^ 12 }
    ensures { result ≡ words_at message.now at }
{
    [
        word_at(message, at + 0),
        word_at(message, at + 4),
        word_at(message, at + 8),
        word_at(message, at + 12),
        word_at(message, at + 16),
        word_at(message, at + 20),
        word_at(message, at + 24),
        word_at(message, at + 28),
        word_at(message, at + 32),
        word_at(message, at + 36),
        word_at(message, at + 40),
        word_at(message, at + 44),
        word_at(message, at + 48),
        word_at(message, at + 52),
        word_at(message, at + 56),
        word_at(message, at + 60),
    ]
}

/// The number of blocks in a message of this many bytes, at least one.
pub fn count_of_blocks(bytes: usize) -> usize
    ensures { result ≡ block_count bytes }
{
    bytes.saturating_sub(1) / 64 + 1
}

/// The number of bytes in this block of a message.
pub fn length_of_block(bytes: usize, block: usize) -> u32
    requires bytes { bytes ≤ 2 ^ 10 }
    requires block { block < block_count bytes }
    ensures { result ≡ block_length bytes block }
{
    if block + 1 == count_of_blocks(bytes) {
        (bytes - 64 * block) as u32
    } else {
        64
    }
}

/// The block's flags: 1 for the first, and for the last one 2 for the end of the chunk and 8 for the root.
pub fn flags_of_block(bytes: usize, block: usize) -> u32
    requires { block ≤ 2 ^ 10 }
    ensures { result ≡ block_flags bytes block }
{
    let first = if block == 0 { 1 } else { 0 };
    let last = if block + 1 == count_of_blocks(bytes) {
        10
    } else {
        0
    };
    first + last
}

/// The first eight words of an output: the next chaining value, or the digest.
pub fn first_words(v: State) -> [u32; 8]
    ensures { result ≡ first_words v }
{
    [
        v.q0.a, v.q1.a, v.q2.a, v.q3.a, v.q0.b, v.q1.b, v.q2.b, v.q3.b,
    ]
}

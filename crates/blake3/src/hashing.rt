//! The hash of a message of one chunk.
ghost use Rattle.std.specs.Prelude.{◌≡◌, ◌*◌, ◌<◌, ◌≤◌, ◌^◌, length};
ghost use Rattle.blake3.specs.Compression.{compress};
ghost use Rattle.blake3.specs.Hashing.{block_at, block_count, first_words, hash};

use crate::chunks::{
    count_of_blocks, first_words, flags_of_block, length_of_block, start_words, words_at,
};
use crate::compression::compress;

/// The chaining value after a block, from the one before it.
fn next_chaining(message: &[u8], block: usize, chaining: &[u32; 8]) -> [u32; 8]
    requires bytes { length message.now ≤ 2 ^ 10 }
    requires block { block < block_count (length message.now) }
    ensures { result ≡ first_words (compress (block_at message.now block chaining.now)) }
{
    let bytes = message.len();
    let words = words_at(message, 64 * block);
    let rest = [
        0,
        0,
        length_of_block(bytes, block),
        flags_of_block(bytes, block),
    ];
    first_words(compress(chaining, &words, &rest))
}

/// The digest of a message of at most 1,024 bytes: eight words, each of four bytes, little-endian.
pub fn hash(message: &[u8]) -> [u32; 8]
    requires { length message.now ≤ 2 ^ 10 }
    ensures { result ≡ hash message.now }
{
    let blocks = count_of_blocks(message.len());
    let mut chaining = start_words();
    for block in 0..blocks {
        chaining = next_chaining(message, block, &chaining);
    }
    chaining
}

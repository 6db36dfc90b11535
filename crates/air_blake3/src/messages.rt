//! The blocks of a message of one chunk.
ghost use Rattle.std.specs.Prelude.{◌≡◌, ◌<◌, ◌≤◌, ◌^◌, length, map, IfOk};
ghost use Rattle.blake3.specs.Compression.{compress};
ghost use Rattle.blake3.specs.Hashing.{block_at, block_count, first_words, hash};
ghost use Rattle.air_blake3.specs.Traces.{block_in};
ghost use Rattle.air_blake3.specs.Messages.{EndsWith, blocks_of};

use crate::blocks::InputBlock;
use blake3::{
    compress, count_of_blocks, first_words, flags_of_block, length_of_block, start_words, words_at,
};
use std::alloc::{AllocError, Global};

/// A block of a message, with its chaining value.
fn block_after(message: &[u8], index: usize, chaining: [u32; 8]) -> InputBlock
    requires bytes { length message.now ≤ 2 ^ 10 }
    requires index { index < block_count (length message.now) }
    ensures { block_in result ≡ block_at message.now index chaining }
{
    InputBlock {
        chaining,
        message: words_at(message, 64 * index),
        counter_low: 0,
        counter_high: 0,
        length: length_of_block(message.len(), index),
        flags: flags_of_block(message.len(), index),
    }
}

/// The chaining value after a block: the first eight words of its output.
fn chaining_after(block: &InputBlock) -> [u32; 8]
    ensures { result ≡ first_words (compress (block_in block.now)) }
{
    let rest = [
        block.counter_low,
        block.counter_high,
        block.length,
        block.flags,
    ];
    first_words(compress(&block.chaining, &block.message, &rest))
}

/// The blocks of a message of at most 1,024 bytes, in order, each with the chaining value after the blocks before it.
/// The first eight words of the last block's output are the message's digest.
pub fn blocks_of_message(alloc: Global, message: &[u8]) -> Result<Vec<InputBlock>, AllocError>
    requires { length message.now ≤ 2 ^ 10 }
    ensures blocks { IfOk result (λ blocks. map block_in blocks.items ≡ blocks_of message.now) }
    ensures digest { IfOk result (λ blocks. EndsWith (hash message.now) blocks.items) }
{
    let mut chaining = start_words();
    let mut blocks = Vec::new(alloc);
    for index in 0..count_of_blocks(message.len()) {
        let block = block_after(message, index, chaining);
        chaining = chaining_after(&block);
        blocks.push(block)?;
    }
    Ok(blocks)
}

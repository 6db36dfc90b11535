//! BLAKE3's compression function and the hash of one chunk: their definitions over words, and code that computes them.
#![tactic(auto)]

pub mod chunks;
pub mod compression;
pub mod hashing;
pub mod messages;
pub mod mixing;
pub mod words;

pub use chunks::{
    count_of_blocks, first_words, flags_of_block, length_of_block, start_words, words_at,
};
pub use compression::{compress, first_state, outputs, round};
pub use hashing::hash;
pub use messages::{eight_words, place_of};
pub use mixing::{columns_half, columns_whole, half_mix};
pub use words::{Quarter, State};

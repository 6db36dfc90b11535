//! Bits, words and their sums and xors as values, which an author states under any condition. Packed bits and sums have
//! the terms of the calls `pack_bits_le`, `add2` and `add3`.

pub mod bits;
pub mod packed;
pub mod sums;
pub mod word_of_bits;
pub mod xors;

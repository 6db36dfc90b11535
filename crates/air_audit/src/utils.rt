//! Bits and words in a field, and sums and xors of words as assertions.

pub use air_gadgets::utils::{
    checked_andn, checked_xor, pack_bits_le, u32_to_bits_le, u64_to_16_bit_limbs, u64_to_bits_le,
};
pub use air_gadgets::{add2, add3, packed_bits_are_numbers, words_are_exact, xor_32_shift};

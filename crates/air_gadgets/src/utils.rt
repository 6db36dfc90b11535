//! Bits and limbs of numbers, in a field.

pub mod bits;
pub mod packing;

pub use bits::{checked_andn, checked_xor, u32_to_bits_le, u64_to_16_bit_limbs, u64_to_bits_le};
pub use packing::pack_bits_le;

//! Virtual columns over the rows of a trace, the bits and limbs of numbers in a field, and sums and xors of 32-bit
//! words: as assertions on any builder, and as values that an author states under any condition.
//!
//! Calls fail only with `Memory` unless they say otherwise. Calls on a ring or a builder fail only as its `refuses`
//! allows.
#![tactic(auto)]

pub mod columns;
pub mod laws;
pub mod utils;
pub mod values;
mod words;

pub use columns::pair_col::PairCol;
pub use columns::virtual_pair_col::VirtualPairCol;
pub use laws::{packed_bits_are_numbers, words_are_exact};
pub use values::bits::{Bits, Columns, HasBits, PackedBits};
pub use values::packed::{Packed, Series};
pub use values::sums::{Add2, Add3, Word};
pub use values::word_of_bits::WordOfBits;
pub use values::xors::{Rotated, Xor32Shift};
pub use words::additions::{add2, add3};
pub use words::rotations::xor_32_shift;

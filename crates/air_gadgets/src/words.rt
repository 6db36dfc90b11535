//! Additions and xors of words of 32 bits.

pub mod additions;
mod limbs;
pub mod rotations;
mod sums;
mod xors;

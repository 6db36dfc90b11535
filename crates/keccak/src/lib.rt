//! Keccak-f on 1,600 bits and the hashes SHA3-256 and Keccak-256: their definitions over lanes, and code that computes
//! them.
#![tactic(auto)]

pub mod hashing;
pub mod permutation;
pub mod steps;

pub use hashing::{keccak_256, sha3_256};
pub use permutation::{keccak_f, round, round_constant};
pub use steps::{chi, iota, pi, rho, theta};

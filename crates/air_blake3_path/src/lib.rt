//! The path of a leaf in BLAKE3's tree as an AIR, one node a row: the leaf, the root and the leaf's index are public.
#![tactic(auto)]

mod fixed;
pub mod laws;
mod limbs;
pub mod path;

pub use laws::paths_are_sound;
pub use path::MerklePath;

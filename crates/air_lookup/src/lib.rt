//! Lookup arguments: constraints on a permutation trace, and how few challenges let a trace pass whose lookups aren't in
//! the table.
//!
//! Calls fail only with `Memory` unless they say otherwise.
#![tactic(auto)]

pub mod checks;
pub mod laws;

pub use checks::lists_nothing;
pub use laws::lookups_are_sound;

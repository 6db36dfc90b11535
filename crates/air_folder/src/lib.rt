//! A folder of constraints: a builder that evaluates assertions over an extension, and folds their values by powers of
//! one element; and a bound on the number of elements that can hide a nonzero value.
#![tactic(auto)]

pub mod folder;
pub mod folding;
pub mod hiding;

pub use folder::builder::ConstraintFolder;
pub use folder::ring::FolderRing;
pub use folding::{Folded, fold_air};
pub use hiding::hiding_alphas;

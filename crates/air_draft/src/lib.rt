//! Drafts: AIRs as what an author wrote down, entry by entry, and the AIR that this makes.
//!
//! A [`Draft`] lists steps, conditions, labels and claims. A [`Step`] is what one call of an author wrote.
//! [`Draft::into_air`] makes the steps in a pool, then the claims, and answers the AIR that declares them. An [`ExtDraft`]
//! has steps over an extension besides: permutation columns, challenges, exposed values.
#![tactic(auto)]

mod air;
pub mod claim;
pub mod draft;
mod elements;
mod ext_air;
pub mod ext_draft;
mod ext_factors;
mod ext_roots;
pub mod ext_step;
mod ext_steps;
mod factors;
pub mod fixed;
pub mod notes;
mod numbered;
mod roots;
pub mod step;
mod steps;

pub use claim::{Claim, Claimed, ExtClaimed, Factor};
pub use draft::Draft;
pub use ext_draft::ExtDraft;
pub use ext_step::ExtStep;
pub use fixed::Fixed;
pub use notes::Notes;
pub use step::{Operand, Step};

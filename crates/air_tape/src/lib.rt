//! Tapes: values that are written one after another behind a `&`.
//!
//! A `RefCell` hides what it holds from every contract. A [`Tape`](tape::Tape) doesn't: [`push`](tape::Tape::push) answers a
//! [`Receipt`](tape::Receipt), which shows that the tape holds this value at this index, now and at any later time. A
//! [`Listing`](listing::Listing) is all that a tape held, and whoever has a receipt finds its value there.
#![tactic(auto)]

pub mod listing;
pub mod tape;

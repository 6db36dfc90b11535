//! What expressions are made of.
ghost use Rattle.std.specs.Prelude.{◌≡◌, None};
ghost use Rattle.std.specs.Option.{ForSome};
ghost use Rattle.air_tape.specs.Tapes.{Shows};

use air_core::AirError;
use air_draft::Step;
use air_tape::tape::{Receipt, Tape};
use bumpalo::Bump;
use std::cell::Cell;

/// What shows a step, if there is one: if memory did not run out.
#[derive(Drop)]
pub struct Head {
    pub(crate) receipt: Option<Receipt<Step>>,
}

/// It makes expressions. Each call writes one step.
///
/// Nothing is refused while steps are written: what goes wrong first is kept ([`Expressions::fault`]).
#[derive(Drop)]
pub struct Expressions {
    pub(crate) steps: Tape<Step>,
    pub(crate) bump: Bump,
    pub(crate) fault: Cell<Option<AirError>>,
    // Set while others are compared with these.
    pub(crate) mark: Cell<bool>,
    pub(crate) lost: Head,
    ghost none: { lost.receipt ≡ None },
}

/// A step of some expressions.
#[derive(Drop)]
pub struct Body<'a> {
    pub(crate) head: Head,
    pub(crate) expressions: &'a Expressions,
    ghost shown: { ForSome head.receipt (λ p. Shows expressions.now.steps p) },
}

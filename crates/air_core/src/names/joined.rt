//! Names in a namespace.
ghost use Rattle.std.specs.Prelude.{◌≡◌, ℕ, List, Option, Some};
ghost use Rattle.std.specs.Fmt.{◌++?◌};
ghost use Rattle.air_core.specs.Texts.{colons, JoinedSays};

use crate::names::name::Name;
use std::alloc::AllocError;
use std::fmt;
use std::fmt::Display;

/// The name `left::right`.
#[derive(Clone, Copy, Drop)]
pub struct Joined<A, B> {
    left: A,
    right: B,
}

impl<A, B> Joined<A, B> {
    /// The name of `right` in the namespace `left`.
    pub fn new(left: A, right: B) -> Self
        ensures { result ≡ record { left = left; right = right } }
    {
        Joined { left, right }
    }
}

/// An evaluated `Joined`.
#[derive(Drop)]
pub struct EvaluatedJoined<A, B> {
    left: A,
    right: B,
}

impl<A: Display, B: Display> Display for EvaluatedJoined<A, B> {
    ghost output = { λ both. A.output both.left ++? Some colons ++? B.output both.right };

    fn fmt<W: fmt::Write>(&self, f: &mut fmt::Formatter<W>) -> fmt::Result {
        write!(f, "{}::{}", self.left, self.right)
    }
}

impl<A: Name, B: Name> Name for Joined<A, B> {
    type Output = EvaluatedJoined<A::Output, B::Output>;

    ghost can_evaluate = { λ name. A.can_evaluate name.left × B.can_evaluate name.right };

    ghost displays = { λ name text. JoinedSays (A.displays name.left) (B.displays name.right) text };

    fn evaluate(self) -> Result<EvaluatedJoined<A::Output, B::Output>, AllocError> {
        let Joined { left, right } = self;
        Ok(EvaluatedJoined {
            left: left.evaluate()?,
            right: right.evaluate()?,
        })
    }
}

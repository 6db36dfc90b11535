//! Constraints under names.
ghost use Rattle.std.specs.Prelude.{[], OnOk, OnErr};
ghost use Rattle.air_builder.specs.Assertion.{Base};
ghost use Rattle.air_builder.specs.Notation.{is_zero};
ghost use Rattle.air_builder.specs.Batches.{AssertedIn};
ghost use Rattle.air_author.specs.Constraints.{IsLabelled};
ghost use Rattle.air_author.specs.Expressions.{AlwaysAfter};

use crate::AirResult;
use crate::conditions::Condition;
use crate::constraints::Constraint;
use crate::constraints::claims::Claim;
use air_builder::{Element, Joined, Name, NamedAirBuilder, View};

/// A name that a constraint can have: it may be evaluated at any time.
pub trait Label: Name + Copy {
    ghost always: { (name : Self) → Self.can_evaluate name };
}

impl Label for &'static str {
    ghost always = { λ _. tt };
}

impl Label for Element {
    ghost always = { λ _. tt };
}

impl<A: Label, B: Label> Label for Joined<A, B> {
    ghost always = { λ name. (A.always name.left, B.always name.right) };
}

/// A constraint of one assertion, under a name: `Named("a is b", Equal(Current(0), Current(1)))`. It is asserted with
/// `assert_zero_named`.
#[derive(Clone, Copy, Drop)]
pub struct Named<N, C>(pub N, pub C);

impl<AB: NamedAirBuilder, N: Label, C: Claim<AB>> Constraint<AB> for Named<N, C> {
    ghost asserts = { λ s f _. is_zero (f (C.claims s.1)) };

    ghost usable = { λ s b. C.usable s.1 b };

    ghost labels = { λ s f _ a b. IsLabelled AB.labelled (N.displays s.0) a b
        (Base (f (C.claims s.1))) };

    #[inline(always)]
    fn assert_under<K: Condition<AB>>(&self, builder: &mut AB, condition: &K) -> AirResult
        requires ready { AB.ready builder.old }
        requires usable { AlwaysAfter AB.kept (λ b. C.usable self.now.1 b × K.usable condition.now
            b)
            builder.old }
        ensures asserted { AssertedIn ⟦<AB as View>⟧.view builder.old builder.new result
            (is_zero (K.under condition.now (C.claims self.now.1))) }
        ensures labelled { OnOk result (IsLabelled AB.labelled (N.displays self.now.0) builder.old
            builder.new (Base (K.under condition.now (C.claims self.now.1)))) }
        ensures no_label { OnErr result (AB.labelled builder.old builder.new []) }
    {
        let x = self.1.make_claim(builder, condition)?;
        builder.assert_zero_named(x, self.0)
    }
}

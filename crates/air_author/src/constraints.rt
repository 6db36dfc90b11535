//! Constraints as values; each has a small type of its own that knows its assertions.
ghost use Rattle.std.specs.Prelude.{⊤, List, OnOk};
ghost use Rattle.air_field.specs.Term.{Term};
ghost use Rattle.air_builder.specs.Assertion.{Assertion};
ghost use Rattle.air_builder.specs.Batches.{AssertedIn, Evaluates};
ghost use Rattle.air_author.specs.Expressions.{AlwaysAfter};

use crate::AirResult;
use crate::conditions::{Condition, Everywhere};
use air_builder::{AirBuilder, View};

pub mod claims;
pub mod extension;
pub mod families;
pub mod named;
mod tuples;
pub mod when;

/// Constraints, in order.
pub trait Constraint<AB: AirBuilder> {
    /// The assertions, in order. The two functions put a base term and an extension term under the surrounding
    /// conditions; at the top, both are the identity.
    ghost asserts: { Self → (Term AB.F → Term AB.F) → (Term AB.F → Term AB.F) → List
        (Assertion AB.F) };

    /// Every prebuilt expression inside was made by this builder and still has its value's term there. Trivial for
    /// constraints without one.
    ghost usable: { Self → AB → Type 0 } = { λ _ _. ⊤ };

    /// What it says of their labels: a relation of the builders before and after. The two functions are as above. By
    /// default it says nothing.
    ghost labels: { Self → (Term AB.F → Term AB.F) → (Term AB.F → Term AB.F) → AB → AB → Type 0 } = { λ _ _ _ _ _. ⊤ };

    /// Asserts them under the condition.
    fn assert_under<K: Condition<AB>>(&self, builder: &mut AB, condition: &K) -> AirResult
        requires ready { AB.ready builder.old }
        requires usable { AlwaysAfter AB.kept (λ b. usable self.now b × K.usable condition.now b)
            builder.old }
        ensures asserted { AssertedIn ⟦<AB as View>⟧.view builder.old builder.new result
            (asserts self.now (K.under condition.now) (K.ext_under condition.now)) }
        ensures labelled { OnOk result (labels self.now (K.under condition.now)
            (K.ext_under condition.now) builder.old builder.new) };
}

impl<'a, AB: AirBuilder, C: Constraint<AB>> Constraint<AB> for &'a C {
    ghost asserts = { λ s f g. C.asserts s.now f g };

    ghost usable = { λ s b. C.usable s.now b };

    ghost labels = { λ s f g. C.labels s.now f g };

    #[inline(always)]
    fn assert_under<K: Condition<AB>>(&self, builder: &mut AB, condition: &K) -> AirResult {
        (**self).assert_under(builder, condition)
    }
}

/// Asserts the constraints; the caller may assert more.
#[inline(always)]
pub fn assert_these<AB: AirBuilder, C: Constraint<AB>>(
    builder: &mut AB,
    constraints: &C,
) -> AirResult
    requires ready { AB.ready builder.old }
    requires usable { AlwaysAfter AB.kept (C.usable constraints.now) builder.old }
    ensures asserted { AssertedIn ⟦<AB as View>⟧.view builder.old builder.new result
        (C.asserts constraints.now (λ t. t) (λ t. t)) }
    ensures labelled { OnOk result (C.labels constraints.now (λ t. t) (λ t. t) builder.old
        builder.new) }
{
    constraints.assert_under(builder, &Everywhere)
}

/// Asserts the constraints, with the contract of `Air::eval`.
#[inline(always)]
pub fn assert_all<AB: AirBuilder, C: Constraint<AB>>(builder: &mut AB, constraints: &C) -> AirResult
    requires ready { AB.ready builder.old }
    requires usable { AlwaysAfter AB.kept (C.usable constraints.now) builder.old }
    ensures evaluated { Evaluates ⟦<AB as View>⟧.view builder.old builder.new result
        (C.asserts constraints.now (λ t. t) (λ t. t)) }
    ensures labelled { OnOk result (C.labels constraints.now (λ t. t) (λ t. t) builder.old
        builder.new) }
{
    assert_these(builder, constraints)
}

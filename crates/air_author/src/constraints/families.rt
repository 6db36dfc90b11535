//! Constraints numbered by a slice or an index.
ghost use Rattle.std.specs.Prelude.{◌≡◌, ℕ, ◌<◌, ⊤, List};
ghost use Rattle.std.specs.Prelude.{All as EachOf};
ghost use Rattle.air_field.specs.Term.{Term};
ghost use Rattle.air_builder.specs.Assertion.{Assertion};
ghost use Rattle.air_builder.specs.Batches.{AssertedIn};
ghost use Rattle.air_author.specs.Constraints.{asserts_of_each, asserts_of_first};
ghost use Rattle.air_author.specs.Expressions.{AlwaysAfter};

use crate::AirResult;
use crate::conditions::Condition;
use crate::constraints::Constraint;
use air_builder::{AirBuilder, View};

/// Each constraint of a slice, in order.
#[derive(Clone, Copy, Drop)]
pub struct Each<'a, C>(pub &'a [C]);

impl<'a, AB: AirBuilder, C: Constraint<AB>> Constraint<AB> for Each<'a, C> {
    ghost asserts = { λ s f g. asserts_of_each (λ c. C.asserts c f g) s.0.now };

    ghost usable = { λ s b. EachOf (λ c. C.usable c b) s.0.now };

    fn assert_under<K: Condition<AB>>(&self, builder: &mut AB, condition: &K) -> AirResult {
        let constraints = self.0;
        for constraint in constraints {
            constraint.assert_under(builder, condition)?;
        }
        Ok(())
    }
}

/// Constraints numbered by an index, for example one for each column.
pub trait Family<AB: AirBuilder> {
    /// The number of members.
    ghost size: { Self → ℕ };

    /// The assertions of the member at an index; the two functions put a base term and an extension term under the
    /// surrounding conditions.
    ghost asserts_at: { Self → ℕ → (Term AB.F → Term AB.F) → (Term AB.F → Term AB.F) → List
        (Assertion AB.F) };

    /// Every prebuilt expression inside was made by this builder and still has its value's term there.
    ghost usable: { Self → AB → Type 0 } = { λ _ _. ⊤ };

    /// The number of members.
    fn size(&self) -> usize
        ensures { result ≡ size self.now };

    /// Asserts the member at the index, under the condition.
    fn assert_at<K: Condition<AB>>(
        &self,
        index: usize,
        builder: &mut AB,
        condition: &K,
    ) -> AirResult
        requires ready { AB.ready builder.old }
        requires within { index < size self.now }
        requires usable { AlwaysAfter AB.kept (λ b. usable self.now b × K.usable condition.now b)
            builder.old }
        ensures { AssertedIn ⟦<AB as View>⟧.view builder.old builder.new result
            (asserts_at self.now index (K.under condition.now) (K.ext_under condition.now)) };
}

/// All members of a family, in order.
#[derive(Clone, Copy, Drop)]
pub struct All<C>(pub C);

impl<AB: AirBuilder, C: Family<AB>> Constraint<AB> for All<C> {
    ghost asserts = { λ s f g. asserts_of_first (λ i. C.asserts_at s.0 i f g) (C.size s.0) };

    ghost usable = { λ s b. C.usable s.0 b };

    fn assert_under<K: Condition<AB>>(&self, builder: &mut AB, condition: &K) -> AirResult {
        let size = self.0.size();
        for index in 0..size {
            self.0.assert_at(index, builder, condition)?;
        }
        Ok(())
    }
}

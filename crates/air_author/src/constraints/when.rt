//! Constraints under a selector.
ghost use Rattle.air_builder.specs.Notation.{◌⊙◌};

use crate::AirResult;
use crate::conditions::{Condition, Where};
use crate::constraints::Constraint;
use crate::expressions::Expression;
use air_builder::AirBuilder;

/// The constraints under the selector: each is multiplied by it, a base term from the left and an extension term from
/// the right. In nested `When`s the inner selector multiplies first.
#[derive(Clone, Copy, Drop)]
pub struct When<S, C>(pub S, pub C);

impl<AB: AirBuilder, S: Expression<AB>, C: Constraint<AB>> Constraint<AB> for When<S, C> {
    ghost asserts = { λ s f g. C.asserts s.1 (λ t. f (S.term s.0 ⊙ t))
        (λ t. g (t ⊙ S.term s.0)) };

    ghost usable = { λ s b. S.usable s.0 b × C.usable s.1 b };

    ghost labels = { λ s f g. C.labels s.1 (λ t. f (S.term s.0 ⊙ t))
        (λ t. g (t ⊙ S.term s.0)) };

    #[inline(always)]
    fn assert_under<K: Condition<AB>>(&self, builder: &mut AB, condition: &K) -> AirResult {
        self.1.assert_under(builder, &Where(condition, &self.0))
    }
}

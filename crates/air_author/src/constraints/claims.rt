//! Constraints of one assertion.
ghost use Rattle.std.specs.Prelude.{⊤};
ghost use Rattle.air_field.specs.Algebra.{bool_check_term};
ghost use Rattle.air_field.specs.Term.{Term};
ghost use Rattle.air_builder.specs.Notation.{is_zero, ◌⊖◌};
ghost use Rattle.air_builder.specs.Builders.{less_one_term};
ghost use Rattle.air_builder.specs.Batches.{AssertedIn};
ghost use Rattle.air_author.specs.Expressions.{MakesIn, AlwaysAfter};

use crate::AirResult;
use crate::conditions::Condition;
use crate::constraints::Constraint;
use crate::expressions::Expression;
use crate::expressions::arithmetic::{BoolCheck, Less};
use crate::expressions::constants::One;
use air_builder::{AirBuilder, View};
use air_field::Algebra;

/// A claim of one assertion: that an expression is zero.
pub trait Claim<AB: AirBuilder> {
    /// The term that is claimed to be zero.
    ghost claims: { Self → Term AB.F };

    /// Every prebuilt expression inside was made by this builder and still has its value's term there.
    ghost usable: { Self → AB → Type 0 } = { λ _ _. ⊤ };

    /// Makes the claimed term under the condition.
    fn make_claim<K: Condition<AB>>(&self, builder: &mut AB, condition: &K) -> AirResult<AB::Expr>
        requires ready { AB.ready builder.old }
        requires usable { AlwaysAfter AB.kept (λ b. usable self.now b × K.usable condition.now b)
            builder.old }
        ensures { MakesIn ⟦<AB as View>⟧.view builder.old builder.new result
            (K.under condition.now (claims self.now)) };
}

/// Asserts the claim under the condition.
#[inline(always)]
fn assert_claim<AB: AirBuilder, C: Claim<AB>, K: Condition<AB>>(
    builder: &mut AB,
    condition: &K,
    claim: &C,
) -> AirResult
    requires ready { AB.ready builder.old }
    requires usable { AlwaysAfter AB.kept (λ b. C.usable claim.now b × K.usable condition.now b)
        builder.old }
    ensures { AssertedIn ⟦<AB as View>⟧.view builder.old builder.new result
        (is_zero (K.under condition.now (C.claims claim.now))) }
{
    let x = claim.make_claim(builder, condition)?;
    builder.assert_zero(x)
}

/// The expression is zero.
#[derive(Clone, Copy, Drop)]
pub struct Zero<X>(pub X);

impl<AB: AirBuilder, X: Expression<AB>> Claim<AB> for Zero<X> {
    ghost claims = { λ s. X.term s.0 };

    ghost usable = { λ s b. X.usable s.0 b };

    #[inline(always)]
    fn make_claim<K: Condition<AB>>(&self, builder: &mut AB, condition: &K) -> AirResult<AB::Expr> {
        condition.make_under(builder, &self.0)
    }
}

impl<AB: AirBuilder, X: Expression<AB>> Constraint<AB> for Zero<X> {
    ghost asserts = { λ s f _. is_zero (f (⟦<Zero<X> as Claim<AB>>⟧.claims s)) };

    ghost usable = { λ s b. ⟦<Zero<X> as Claim<AB>>⟧.usable s b };

    #[inline(always)]
    fn assert_under<K: Condition<AB>>(&self, builder: &mut AB, condition: &K) -> AirResult {
        assert_claim(builder, condition, self)
    }
}

/// The expression is one.
#[derive(Clone, Copy, Drop)]
pub struct IsOne<X>(pub X);

impl<AB: AirBuilder, X: Expression<AB>> Claim<AB> for IsOne<X> {
    ghost claims = { λ s. less_one_term AB.F.ring.one (X.term s.0) };

    ghost usable = { λ s b. X.usable s.0 b };

    #[inline(always)]
    fn make_claim<K: Condition<AB>>(&self, builder: &mut AB, condition: &K) -> AirResult<AB::Expr> {
        condition.make_under(builder, &Less(&self.0, &One))
    }
}

impl<AB: AirBuilder, X: Expression<AB>> Constraint<AB> for IsOne<X> {
    ghost asserts = { λ s f _. is_zero (f (⟦<IsOne<X> as Claim<AB>>⟧.claims s)) };

    ghost usable = { λ s b. ⟦<IsOne<X> as Claim<AB>>⟧.usable s b };

    #[inline(always)]
    fn assert_under<K: Condition<AB>>(&self, builder: &mut AB, condition: &K) -> AirResult {
        assert_claim(builder, condition, self)
    }
}

/// Both are equal.
#[derive(Clone, Copy, Drop)]
pub struct Equal<X, Y>(pub X, pub Y);

impl<AB: AirBuilder, X: Expression<AB>, Y: Expression<AB>> Claim<AB> for Equal<X, Y> {
    ghost claims = { λ s. X.term s.0 ⊖ Y.term s.1 };

    ghost usable = { λ s b. X.usable s.0 b × Y.usable s.1 b };

    #[inline(always)]
    fn make_claim<K: Condition<AB>>(&self, builder: &mut AB, condition: &K) -> AirResult<AB::Expr> {
        condition.make_under(builder, &Less(&self.0, &self.1))
    }
}

impl<AB: AirBuilder, X: Expression<AB>, Y: Expression<AB>> Constraint<AB> for Equal<X, Y> {
    ghost asserts = { λ s f _. is_zero (f (⟦<Equal<X, Y> as Claim<AB>>⟧.claims s)) };

    ghost usable = { λ s b. ⟦<Equal<X, Y> as Claim<AB>>⟧.usable s b };

    #[inline(always)]
    fn assert_under<K: Condition<AB>>(&self, builder: &mut AB, condition: &K) -> AirResult {
        assert_claim(builder, condition, self)
    }
}

/// The expression is zero or one.
#[derive(Clone, Copy, Drop)]
pub struct Boolean<X>(pub X);

impl<AB: AirBuilder, X: Expression<AB>> Claim<AB> for Boolean<X> {
    ghost claims = { λ s. bool_check_term AB.F.ring.one (X.term s.0) };

    ghost usable = { λ s b. X.usable s.0 b };

    #[inline(always)]
    fn make_claim<K: Condition<AB>>(&self, builder: &mut AB, condition: &K) -> AirResult<AB::Expr> {
        condition.make_under(builder, &BoolCheck(&self.0))
    }
}

impl<AB: AirBuilder, X: Expression<AB>> Constraint<AB> for Boolean<X> {
    ghost asserts = { λ s f _. is_zero (f (⟦<Boolean<X> as Claim<AB>>⟧.claims s)) };

    ghost usable = { λ s b. ⟦<Boolean<X> as Claim<AB>>⟧.usable s b };

    #[inline(always)]
    fn assert_under<K: Condition<AB>>(&self, builder: &mut AB, condition: &K) -> AirResult {
        assert_claim(builder, condition, self)
    }
}

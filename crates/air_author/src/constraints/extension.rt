//! Constraints over the extension, each of one assertion.
ghost use Rattle.std.specs.Prelude.{⊤, [], OnOk, OnErr};
ghost use Rattle.air_field.specs.Algebra.{bool_check_term};
ghost use Rattle.air_field.specs.Term.{Term};
ghost use Rattle.air_builder.specs.Assertion.{Extension};
ghost use Rattle.air_builder.specs.Notation.{ext_is_zero, ◌⊖◌};
ghost use Rattle.air_builder.specs.Builders.{less_one_term};
ghost use Rattle.air_builder.specs.Batches.{AssertedIn};
ghost use Rattle.air_author.specs.Constraints.{IsLabelled};
ghost use Rattle.air_author.specs.Expressions.{MakesIn, AlwaysAfter};

use crate::AirResult;
use crate::conditions::Condition;
use crate::constraints::Constraint;
use crate::constraints::named::Label;
use crate::expressions::ExtExpression;
use crate::expressions::arithmetic::{BoolCheck, Less};
use crate::expressions::constants::One;
use air_builder::{ExtensionBuilder, NamedExtensionBuilder, View, ViewOver};
use air_field::Algebra;

/// A claim of one assertion over the extension: that an expression is zero.
pub trait ExtClaim<AB: ExtensionBuilder> {
    /// The term that is claimed to be zero.
    ghost ext_claims: { Self → Term AB.F };

    /// Every prebuilt expression inside was made by this builder and still has its value's term there.
    ghost usable: { Self → AB → Type 0 } = { λ _ _. ⊤ };

    /// Makes the claimed term under the condition.
    fn make_ext_claim<K: Condition<AB>>(
        &self,
        builder: &mut AB,
        condition: &K,
    ) -> AirResult<AB::ExprEF>
        requires ready { AB.ready builder.old }
        requires usable { AlwaysAfter AB.kept (λ b. usable self.now b × K.usable condition.now
            b)
            builder.old }
        ensures { MakesIn ⟦<AB as ViewOver>⟧.view builder.old builder.new result
            (K.ext_under condition.now (ext_claims self.now)) };
}

/// Asserts the claim under the condition.
#[inline(always)]
fn assert_ext_claim<AB: ExtensionBuilder, C: ExtClaim<AB>, K: Condition<AB>>(
    builder: &mut AB,
    condition: &K,
    claim: &C,
) -> AirResult
    requires ready { AB.ready builder.old }
    requires usable { AlwaysAfter AB.kept (λ b. C.usable claim.now b × K.usable condition.now
        b)
        builder.old }
    ensures { AssertedIn ⟦<AB as View>⟧.view builder.old builder.new result
        (ext_is_zero (K.ext_under condition.now (C.ext_claims claim.now))) }
{
    let x = claim.make_ext_claim(builder, condition)?;
    builder.assert_zero_ext(x)
}

/// The expression over the extension is zero.
#[derive(Clone, Copy, Drop)]
pub struct ExtZero<X>(pub X);

impl<AB: ExtensionBuilder, X: ExtExpression<AB>> ExtClaim<AB> for ExtZero<X> {
    ghost ext_claims = { λ s. X.ext_term s.0 };

    ghost usable = { λ s b. X.usable s.0 b };

    #[inline(always)]
    fn make_ext_claim<K: Condition<AB>>(
        &self,
        builder: &mut AB,
        condition: &K,
    ) -> AirResult<AB::ExprEF> {
        condition.make_ext_under(builder, &self.0)
    }
}

impl<AB: ExtensionBuilder, X: ExtExpression<AB>> Constraint<AB> for ExtZero<X> {
    ghost asserts = { λ s _ g. ext_is_zero (g (⟦<ExtZero<X> as ExtClaim<AB>>⟧.ext_claims s)) };

    ghost usable = { λ s b. ⟦<ExtZero<X> as ExtClaim<AB>>⟧.usable s b };

    #[inline(always)]
    fn assert_under<K: Condition<AB>>(&self, builder: &mut AB, condition: &K) -> AirResult {
        assert_ext_claim(builder, condition, self)
    }
}

/// The expression over the extension is one.
#[derive(Clone, Copy, Drop)]
pub struct ExtIsOne<X>(pub X);

impl<AB: ExtensionBuilder, X: ExtExpression<AB>> ExtClaim<AB> for ExtIsOne<X> {
    ghost ext_claims = { λ s. less_one_term AB.F.ring.one (X.ext_term s.0) };

    ghost usable = { λ s b. X.usable s.0 b };

    #[inline(always)]
    fn make_ext_claim<K: Condition<AB>>(
        &self,
        builder: &mut AB,
        condition: &K,
    ) -> AirResult<AB::ExprEF> {
        condition.make_ext_under(builder, &Less(&self.0, &One))
    }
}

impl<AB: ExtensionBuilder, X: ExtExpression<AB>> Constraint<AB> for ExtIsOne<X> {
    ghost asserts = { λ s _ g. ext_is_zero (g (⟦<ExtIsOne<X> as ExtClaim<AB>>⟧.ext_claims s)) };

    ghost usable = { λ s b. ⟦<ExtIsOne<X> as ExtClaim<AB>>⟧.usable s b };

    #[inline(always)]
    fn assert_under<K: Condition<AB>>(&self, builder: &mut AB, condition: &K) -> AirResult {
        assert_ext_claim(builder, condition, self)
    }
}

/// Both, over the extension, are equal.
#[derive(Clone, Copy, Drop)]
pub struct ExtEqual<X, Y>(pub X, pub Y);

impl<AB: ExtensionBuilder, X: ExtExpression<AB>, Y: ExtExpression<AB>> ExtClaim<AB>
    for ExtEqual<X, Y> {
    ghost ext_claims = { λ s. X.ext_term s.0 ⊖ Y.ext_term s.1 };

    ghost usable = { λ s b. X.usable s.0 b × Y.usable s.1 b };

    #[inline(always)]
    fn make_ext_claim<K: Condition<AB>>(
        &self,
        builder: &mut AB,
        condition: &K,
    ) -> AirResult<AB::ExprEF> {
        condition.make_ext_under(builder, &Less(&self.0, &self.1))
    }
}

impl<AB: ExtensionBuilder, X: ExtExpression<AB>, Y: ExtExpression<AB>> Constraint<AB>
    for ExtEqual<X, Y> {
    ghost asserts = { λ s _ g. ext_is_zero (g (⟦<ExtEqual<X, Y> as ExtClaim<AB>>⟧.ext_claims s)) };

    ghost usable = { λ s b. ⟦<ExtEqual<X, Y> as ExtClaim<AB>>⟧.usable s b };

    #[inline(always)]
    fn assert_under<K: Condition<AB>>(&self, builder: &mut AB, condition: &K) -> AirResult {
        assert_ext_claim(builder, condition, self)
    }
}

/// The expression over the extension is zero or one.
#[derive(Clone, Copy, Drop)]
pub struct ExtBoolean<X>(pub X);

impl<AB: ExtensionBuilder, X: ExtExpression<AB>> ExtClaim<AB> for ExtBoolean<X> {
    ghost ext_claims = { λ s. bool_check_term AB.F.ring.one (X.ext_term s.0) };

    ghost usable = { λ s b. X.usable s.0 b };

    #[inline(always)]
    fn make_ext_claim<K: Condition<AB>>(
        &self,
        builder: &mut AB,
        condition: &K,
    ) -> AirResult<AB::ExprEF> {
        condition.make_ext_under(builder, &BoolCheck(&self.0))
    }
}

impl<AB: ExtensionBuilder, X: ExtExpression<AB>> Constraint<AB> for ExtBoolean<X> {
    ghost asserts = { λ s _ g. ext_is_zero (g (⟦<ExtBoolean<X> as ExtClaim<AB>>⟧.ext_claims s)) };

    ghost usable = { λ s b. ⟦<ExtBoolean<X> as ExtClaim<AB>>⟧.usable s b };

    #[inline(always)]
    fn assert_under<K: Condition<AB>>(&self, builder: &mut AB, condition: &K) -> AirResult {
        assert_ext_claim(builder, condition, self)
    }
}

/// A constraint of one assertion over the extension, under a name. It is asserted with `assert_zero_ext_named`.
#[derive(Clone, Copy, Drop)]
pub struct ExtNamed<N, C>(pub N, pub C);

impl<AB: NamedExtensionBuilder, N: Label, C: ExtClaim<AB>> Constraint<AB> for ExtNamed<N, C> {
    ghost asserts = { λ s _ g. ext_is_zero (g (C.ext_claims s.1)) };

    ghost usable = { λ s b. C.usable s.1 b };

    ghost labels = { λ s _ g a b. IsLabelled AB.labelled (N.displays s.0) a b
        (Extension (g (C.ext_claims s.1))) };

    #[inline(always)]
    fn assert_under<K: Condition<AB>>(&self, builder: &mut AB, condition: &K) -> AirResult
        requires ready { AB.ready builder.old }
        requires usable { AlwaysAfter AB.kept (λ b. C.usable self.now.1 b ×
            K.usable condition.now b)
            builder.old }
        ensures asserted { AssertedIn ⟦<AB as View>⟧.view builder.old builder.new result
            (ext_is_zero (K.ext_under condition.now (C.ext_claims self.now.1))) }
        ensures labelled { OnOk result (IsLabelled AB.labelled (N.displays self.now.0) builder.old
            builder.new (Extension (K.ext_under condition.now (C.ext_claims self.now.1)))) }
        ensures no_label { OnErr result (AB.labelled builder.old builder.new []) }
    {
        let x = self.1.make_ext_claim(builder, condition)?;
        builder.assert_zero_ext_named(x, self.0)
    }
}

//! Where constraints hold. An author writes `When`, which passes these to the constraints inside.
ghost use Rattle.std.specs.Prelude.{⊤};
ghost use Rattle.air_field.specs.Part.{Part, whole, in_mul_right};
ghost use Rattle.air_field.specs.Term.{Term};
ghost use Rattle.air_field.specs.laws.Part.{part_in};
ghost use Rattle.air_builder.specs.Notation.{◌⊙◌};
ghost use Rattle.air_author.specs.Expressions.{MakesIn, AlwaysAfter};

use crate::AirResult;
use crate::expressions::arithmetic::Gated;
use crate::expressions::extension::{LiftedAt, Times};
use crate::expressions::{Expression, ExtExpression};
use air_builder::{AirBuilder, ExtensionBuilder, View, ViewOver};
use air_field::Algebra;

/// The condition under which an expression is to be zero.
pub trait Condition<AB: AirBuilder> {
    /// A base term under the condition: their product, or the term itself for `Everywhere`.
    ghost under: { Self → Term AB.F → Term AB.F };

    /// An extension term under the condition.
    ghost ext_under: { Self → Term AB.F → Term AB.F };

    /// Every prebuilt expression inside was made by this builder and still has its value's term there.
    ghost usable: { Self → AB → Type 0 } = { λ _ _. ⊤ };

    /// Makes the product of the condition and `x`. In a field, it vanishes on every row exactly if `x` vanishes on
    /// every row where the condition doesn't.
    fn make_under<X: Expression<AB>>(&self, builder: &mut AB, x: &X) -> AirResult<AB::Expr>
        requires ready { AB.ready builder.old }
        requires usable { AlwaysAfter AB.kept (λ b. usable self.now b × X.usable x.now b)
            builder.old }
        ensures { MakesIn ⟦<AB as View>⟧.view builder.old builder.new result
            (under self.now (X.term x.now)) };

    /// Makes the product of the condition and `x`, over the extension.
    fn make_ext_under<X: ExtExpression<AB>>(&self, builder: &mut AB, x: &X) -> AirResult<AB::ExprEF>
    where
        AB: ExtensionBuilder,
        requires ready { AB.ready builder.old }
        requires usable { AlwaysAfter AB.kept (λ b. usable self.now b × X.usable x.now b)
            builder.old }
        ensures { MakesIn ⟦<AB as ViewOver>⟧.view builder.old builder.new result
            (ext_under self.now (X.ext_term x.now)) };

    /// A base term is a part of itself under the condition.
    ghost keeps_part: { (s : Self) (t : Term AB.F) → Part t (under s t) };
}

/// No condition.
#[derive(Clone, Copy, Drop)]
pub struct Everywhere;

impl<AB: AirBuilder> Condition<AB> for Everywhere {
    ghost under = { λ _ t. t };

    ghost ext_under = { λ _ t. t };

    #[inline(always)]
    fn make_under<X: Expression<AB>>(&self, builder: &mut AB, x: &X) -> AirResult<AB::Expr> {
        x.make(builder)
    }

    #[inline(always)]
    fn make_ext_under<X: ExtExpression<AB>>(&self, builder: &mut AB, x: &X) -> AirResult<AB::ExprEF>
    where
        AB: ExtensionBuilder,
    {
        x.make_ext(builder)
    }

    ghost keeps_part = { λ _ _. whole };
}

/// A condition and a selector inside it, which multiplies first.
#[derive(Clone, Copy, Drop)]
pub struct Where<'a, K, S>(pub(crate) &'a K, pub(crate) &'a S);

impl<'a, AB: AirBuilder, K: Condition<AB>, S: Expression<AB>> Condition<AB> for Where<'a, K, S> {
    ghost under = { λ s t. K.under s.0.now (S.term s.1.now ⊙ t) };

    ghost ext_under = { λ s t. K.ext_under s.0.now (t ⊙ S.term s.1.now) };

    ghost usable = { λ s b. K.usable s.0.now b × S.usable s.1.now b };

    #[inline(always)]
    fn make_under<X: Expression<AB>>(&self, builder: &mut AB, x: &X) -> AirResult<AB::Expr> {
        self.0.make_under(builder, &Gated(self.1, x))
    }

    #[inline(always)]
    fn make_ext_under<X: ExtExpression<AB>>(&self, builder: &mut AB, x: &X) -> AirResult<AB::ExprEF>
    where
        AB: ExtensionBuilder,
    {
        self.0.make_ext_under(builder, &Times(x, &LiftedAt(self.1)))
    }

    ghost keeps_part = { λ s t. part_in (in_mul_right whole)
        (K.keeps_part s.0.now (S.term s.1.now ⊙ t)) };
}

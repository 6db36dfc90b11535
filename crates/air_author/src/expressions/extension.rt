//! Expressions over the extension, with the same operations as base expressions.
ghost use Rattle.air_field.specs.Algebra.{double_term, bool_check_term};
ghost use Rattle.air_builder.specs.Notation.{ext_constant, negative, ◌⊕◌, ◌⊖◌, ◌⊙◌};
ghost use Rattle.air_author.specs.Expressions.{AlwaysAfter, MakesIn, MakesBothIn, power_term};

use crate::AirResult;
use crate::expressions::arithmetic::{
    BoolCheck, Difference, Double, Less, Negative, Product, Square, Sum,
};
use crate::expressions::constants::One;
use crate::expressions::power::{Power, multiply_by_itself};
use crate::expressions::{Expression, ExtExpression, to_air_result};
use air_builder::{ExtensionBuilder, ViewOver};
use air_field::{Algebra, ExtAlgebra, ExtensionField};

/// Makes a base expression, and lifts it.
#[inline(always)]
pub(crate) fn make_lifted<AB: ExtensionBuilder, X: Expression<AB>>(
    builder: &mut AB,
    x: &X,
) -> AirResult<AB::ExprEF>
    requires ready { AB.ready builder.old }
    requires usable { AlwaysAfter AB.kept (X.usable x.now) builder.old }
    ensures { MakesIn ⟦<AB as ViewOver>⟧.view builder.old builder.new result (X.term x.now) }
{
    let x = x.make(builder)?;
    to_air_result(builder.ext_ring().lift(x))
}

/// A base expression, over the extension.
#[derive(Clone, Copy, Drop)]
pub struct Lifted<X>(pub X);

impl<AB: ExtensionBuilder, X: Expression<AB>> ExtExpression<AB> for Lifted<X> {
    ghost ext_term = { λ s. X.term s.0 };

    ghost usable = { λ s b. X.usable s.0 b };

    #[inline(always)]
    fn make_ext(&self, builder: &mut AB) -> AirResult<AB::ExprEF> {
        make_lifted(builder, &self.0)
    }
}

/// `Lifted` by reference.
#[derive(Drop)]
pub(crate) struct LiftedAt<'a, X>(pub(crate) &'a X);

impl<'a, AB: ExtensionBuilder, X: Expression<AB>> ExtExpression<AB> for LiftedAt<'a, X> {
    ghost ext_term = { λ s. X.term s.0.now };

    ghost usable = { λ s b. X.usable s.0.now b };

    #[inline(always)]
    fn make_ext(&self, builder: &mut AB) -> AirResult<AB::ExprEF> {
        make_lifted(builder, self.0)
    }
}

/// A constant of the extension.
#[derive(Clone, Copy, Drop)]
pub struct ExtConstant<EF>(pub EF);

impl<AB: ExtensionBuilder> ExtExpression<AB> for ExtConstant<AB::EF> {
    ghost ext_term = { λ s. ext_constant (AB.EF.basis.coefficients s.0) };

    #[inline(always)]
    fn make_ext(&self, builder: &mut AB) -> AirResult<AB::ExprEF> {
        to_air_result(builder.ext_ring().ext_constant(self.0))
    }
}

/// Makes both, in order.
#[inline(always)]
fn make_both_ext<AB: ExtensionBuilder, X: ExtExpression<AB>, Y: ExtExpression<AB>>(
    builder: &mut AB,
    x: &X,
    y: &Y,
) -> AirResult<(AB::ExprEF, AB::ExprEF)>
    requires ready { AB.ready builder.old }
    requires usable { AlwaysAfter AB.kept (λ b. X.usable x.now b × Y.usable y.now b) builder.old }
    ensures { MakesBothIn ⟦<AB as ViewOver>⟧.view builder.old builder.new result (X.ext_term x.now)
        (Y.ext_term y.now) }
{
    let first = x.make_ext(builder)?;
    let second = y.make_ext(builder)?;
    Ok((first, second))
}

impl<AB: ExtensionBuilder, X: ExtExpression<AB>, Y: ExtExpression<AB>> ExtExpression<AB>
    for Sum<X, Y> {
    ghost ext_term = { λ s. X.ext_term s.0 ⊕ Y.ext_term s.1 };

    ghost usable = { λ s b. X.usable s.0 b × Y.usable s.1 b };

    #[inline(always)]
    fn make_ext(&self, builder: &mut AB) -> AirResult<AB::ExprEF> {
        let (x, y) = make_both_ext(builder, &self.0, &self.1)?;
        to_air_result(builder.ext_ring().add(x, y))
    }
}

impl<'a, AB: ExtensionBuilder, X: ExtExpression<AB>, Y: ExtExpression<AB>> ExtExpression<AB>
    for Less<'a, X, Y> {
    ghost ext_term = { λ s. X.ext_term s.0.now ⊖ Y.ext_term s.1.now };

    ghost usable = { λ s b. X.usable s.0.now b × Y.usable s.1.now b };

    #[inline(always)]
    fn make_ext(&self, builder: &mut AB) -> AirResult<AB::ExprEF> {
        let (x, y) = make_both_ext(builder, self.0, self.1)?;
        to_air_result(builder.ext_ring().sub(x, y))
    }
}

impl<AB: ExtensionBuilder, X: ExtExpression<AB>, Y: ExtExpression<AB>> ExtExpression<AB>
    for Difference<X, Y> {
    ghost ext_term = { λ s. X.ext_term s.0 ⊖ Y.ext_term s.1 };

    ghost usable = { λ s b. X.usable s.0 b × Y.usable s.1 b };

    #[inline(always)]
    fn make_ext(&self, builder: &mut AB) -> AirResult<AB::ExprEF> {
        Less(&self.0, &self.1).make_ext(builder)
    }
}

/// `Product` by reference, over the extension.
#[derive(Drop)]
pub(crate) struct Times<'a, X, Y>(pub(crate) &'a X, pub(crate) &'a Y);

impl<'a, AB: ExtensionBuilder, X: ExtExpression<AB>, Y: ExtExpression<AB>> ExtExpression<AB>
    for Times<'a, X, Y> {
    ghost ext_term = { λ s. X.ext_term s.0.now ⊙ Y.ext_term s.1.now };

    ghost usable = { λ s b. X.usable s.0.now b × Y.usable s.1.now b };

    #[inline(always)]
    fn make_ext(&self, builder: &mut AB) -> AirResult<AB::ExprEF> {
        let (x, y) = make_both_ext(builder, self.0, self.1)?;
        to_air_result(builder.ext_ring().mul(x, y))
    }
}

impl<AB: ExtensionBuilder, X: ExtExpression<AB>, Y: ExtExpression<AB>> ExtExpression<AB>
    for Product<X, Y> {
    ghost ext_term = { λ s. X.ext_term s.0 ⊙ Y.ext_term s.1 };

    ghost usable = { λ s b. X.usable s.0 b × Y.usable s.1 b };

    #[inline(always)]
    fn make_ext(&self, builder: &mut AB) -> AirResult<AB::ExprEF> {
        Times(&self.0, &self.1).make_ext(builder)
    }
}

impl<AB: ExtensionBuilder, X: ExtExpression<AB>> ExtExpression<AB> for Negative<X> {
    ghost ext_term = { λ s. negative (X.ext_term s.0) };

    ghost usable = { λ s b. X.usable s.0 b };

    #[inline(always)]
    fn make_ext(&self, builder: &mut AB) -> AirResult<AB::ExprEF> {
        let x = self.0.make_ext(builder)?;
        to_air_result(builder.ext_ring().neg(x))
    }
}

impl<AB: ExtensionBuilder, X: ExtExpression<AB>> ExtExpression<AB> for Double<X> {
    ghost ext_term = { λ s. double_term (X.ext_term s.0) };

    ghost usable = { λ s b. X.usable s.0 b };

    #[inline(always)]
    fn make_ext(&self, builder: &mut AB) -> AirResult<AB::ExprEF> {
        let x = self.0.make_ext(builder)?;
        to_air_result(builder.ext_ring().double(x))
    }
}

impl<AB: ExtensionBuilder, X: ExtExpression<AB>> ExtExpression<AB> for Square<X> {
    ghost ext_term = { λ s. X.ext_term s.0 ⊙ X.ext_term s.0 };

    ghost usable = { λ s b. X.usable s.0 b };

    #[inline(always)]
    fn make_ext(&self, builder: &mut AB) -> AirResult<AB::ExprEF> {
        let x = self.0.make_ext(builder)?;
        to_air_result(builder.ext_ring().mul(x, x))
    }
}

impl<AB: ExtensionBuilder, X: ExtExpression<AB>> ExtExpression<AB> for BoolCheck<X> {
    ghost ext_term = { λ s. bool_check_term AB.F.ring.one (X.ext_term s.0) };

    ghost usable = { λ s b. X.usable s.0 b };

    #[inline(always)]
    fn make_ext(&self, builder: &mut AB) -> AirResult<AB::ExprEF> {
        let x = self.0.make_ext(builder)?;
        to_air_result(builder.ext_ring().bool_check(x))
    }
}

impl<AB: ExtensionBuilder, X: ExtExpression<AB>> ExtExpression<AB> for Power<X> {
    ghost ext_term = { λ s. power_term AB.F.ring.one (X.ext_term s.0) s.1 };

    ghost usable = { λ s b. X.usable s.0 b };

    #[inline(always)]
    fn make_ext(&self, builder: &mut AB) -> AirResult<AB::ExprEF> {
        if self.1 == 0 {
            return One.make_ext(builder);
        }
        let x = self.0.make_ext(builder)?;
        to_air_result(multiply_by_itself(builder.ext_ring(), x, self.1 - 1))
    }
}

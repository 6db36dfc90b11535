//! Operations on expressions.
ghost use Rattle.air_field.specs.Algebra.{double_term, bool_check_term, xor_term};
ghost use Rattle.air_builder.specs.Notation.{negative, ◌⊕◌, ◌⊖◌, ◌⊙◌};
ghost use Rattle.air_author.specs.Expressions.{AlwaysAfter, MakesIn, MakesBothIn};

use crate::AirResult;
use crate::expressions::{Expression, to_air_result};
use air_builder::{AirBuilder, View};
use air_field::Algebra;

/// Makes both, in order.
#[inline(always)]
fn make_both<AB: AirBuilder, X: Expression<AB>, Y: Expression<AB>>(
    builder: &mut AB,
    x: &X,
    y: &Y,
) -> AirResult<(AB::Expr, AB::Expr)>
    requires ready { AB.ready builder.old }
    requires usable { AlwaysAfter AB.kept (λ b. X.usable x.now b × Y.usable y.now b) builder.old }
    ensures { MakesBothIn ⟦<AB as View>⟧.view builder.old builder.new result (X.term x.now)
        (Y.term y.now) }
{
    let first = x.make(builder)?;
    let second = y.make(builder)?;
    Ok((first, second))
}

/// Makes x + y, by reference.
#[inline(always)]
pub fn make_sum<AB: AirBuilder, X: Expression<AB>, Y: Expression<AB>>(
    builder: &mut AB,
    x: &X,
    y: &Y,
) -> AirResult<AB::Expr>
    requires ready { AB.ready builder.old }
    requires usable { AlwaysAfter AB.kept (λ b. X.usable x.now b × Y.usable y.now b) builder.old }
    ensures { MakesIn ⟦<AB as View>⟧.view builder.old builder.new result
        (X.term x.now ⊕ Y.term y.now) }
{
    let (x, y) = make_both(builder, x, y)?;
    to_air_result(builder.ring().add(x, y))
}

/// Makes x - y, by reference.
#[inline(always)]
pub fn make_difference<AB: AirBuilder, X: Expression<AB>, Y: Expression<AB>>(
    builder: &mut AB,
    x: &X,
    y: &Y,
) -> AirResult<AB::Expr>
    requires ready { AB.ready builder.old }
    requires usable { AlwaysAfter AB.kept (λ b. X.usable x.now b × Y.usable y.now b) builder.old }
    ensures { MakesIn ⟦<AB as View>⟧.view builder.old builder.new result
        (X.term x.now ⊖ Y.term y.now) }
{
    let (x, y) = make_both(builder, x, y)?;
    to_air_result(builder.ring().sub(x, y))
}

/// Makes x y, by reference.
#[inline(always)]
pub fn make_product<AB: AirBuilder, X: Expression<AB>, Y: Expression<AB>>(
    builder: &mut AB,
    x: &X,
    y: &Y,
) -> AirResult<AB::Expr>
    requires ready { AB.ready builder.old }
    requires usable { AlwaysAfter AB.kept (λ b. X.usable x.now b × Y.usable y.now b) builder.old }
    ensures { MakesIn ⟦<AB as View>⟧.view builder.old builder.new result
        (X.term x.now ⊙ Y.term y.now) }
{
    let (x, y) = make_both(builder, x, y)?;
    to_air_result(builder.ring().mul(x, y))
}

/// x + y
#[derive(Clone, Copy, Drop)]
pub struct Sum<X, Y>(pub X, pub Y);

impl<AB: AirBuilder, X: Expression<AB>, Y: Expression<AB>> Expression<AB> for Sum<X, Y> {
    ghost term = { λ s. X.term s.0 ⊕ Y.term s.1 };

    ghost usable = { λ s b. X.usable s.0 b × Y.usable s.1 b };

    #[inline(always)]
    fn make(&self, builder: &mut AB) -> AirResult<AB::Expr> {
        make_sum(builder, &self.0, &self.1)
    }
}

/// x - y
#[derive(Clone, Copy, Drop)]
pub struct Difference<X, Y>(pub X, pub Y);

impl<AB: AirBuilder, X: Expression<AB>, Y: Expression<AB>> Expression<AB> for Difference<X, Y> {
    ghost term = { λ s. X.term s.0 ⊖ Y.term s.1 };

    ghost usable = { λ s b. X.usable s.0 b × Y.usable s.1 b };

    #[inline(always)]
    fn make(&self, builder: &mut AB) -> AirResult<AB::Expr> {
        make_difference(builder, &self.0, &self.1)
    }
}

/// `Difference` by reference. `Difference<&X, &Y>` would do, but each use takes seconds longer to prove.
#[derive(Drop)]
pub struct Less<'a, X, Y>(pub &'a X, pub &'a Y);

impl<'a, AB: AirBuilder, X: Expression<AB>, Y: Expression<AB>> Expression<AB> for Less<'a, X, Y> {
    ghost term = { λ s. X.term s.0.now ⊖ Y.term s.1.now };

    ghost usable = { λ s b. X.usable s.0.now b × Y.usable s.1.now b };

    #[inline(always)]
    fn make(&self, builder: &mut AB) -> AirResult<AB::Expr> {
        make_difference(builder, self.0, self.1)
    }
}

/// `condition * x`, by reference. A ring of values skips the multiplication when the condition is 0 or 1, as selectors
/// usually are.
#[derive(Drop)]
pub struct Gated<'a, S, X>(pub &'a S, pub &'a X);

impl<'a, AB: AirBuilder, S: Expression<AB>, X: Expression<AB>> Expression<AB> for Gated<'a, S, X> {
    ghost term = { λ s. S.term s.0.now ⊙ X.term s.1.now };

    ghost usable = { λ s b. S.usable s.0.now b × X.usable s.1.now b };

    #[inline(always)]
    fn make(&self, builder: &mut AB) -> AirResult<AB::Expr> {
        let (condition, x) = make_both(builder, self.0, self.1)?;
        to_air_result(builder.ring().gate(condition, x))
    }
}

/// x y
#[derive(Clone, Copy, Drop)]
pub struct Product<X, Y>(pub X, pub Y);

impl<AB: AirBuilder, X: Expression<AB>, Y: Expression<AB>> Expression<AB> for Product<X, Y> {
    ghost term = { λ s. X.term s.0 ⊙ Y.term s.1 };

    ghost usable = { λ s b. X.usable s.0 b × Y.usable s.1 b };

    #[inline(always)]
    fn make(&self, builder: &mut AB) -> AirResult<AB::Expr> {
        make_product(builder, &self.0, &self.1)
    }
}

/// x + y - 2xy, the xor of two bits. A ring of values skips the multiplications when both are 0 or 1.
#[derive(Clone, Copy, Drop)]
pub struct Xor<X, Y>(pub X, pub Y);

impl<AB: AirBuilder, X: Expression<AB>, Y: Expression<AB>> Expression<AB> for Xor<X, Y> {
    ghost term = { λ s. xor_term (X.term s.0) (Y.term s.1) };

    ghost usable = { λ s b. X.usable s.0 b × Y.usable s.1 b };

    #[inline(always)]
    fn make(&self, builder: &mut AB) -> AirResult<AB::Expr> {
        let (x, y) = make_both(builder, &self.0, &self.1)?;
        to_air_result(builder.ring().xor(x, y))
    }
}

/// -x
#[derive(Clone, Copy, Drop)]
pub struct Negative<X>(pub X);

impl<AB: AirBuilder, X: Expression<AB>> Expression<AB> for Negative<X> {
    ghost term = { λ s. negative (X.term s.0) };

    ghost usable = { λ s b. X.usable s.0 b };

    #[inline(always)]
    fn make(&self, builder: &mut AB) -> AirResult<AB::Expr> {
        let x = self.0.make(builder)?;
        to_air_result(builder.ring().neg(x))
    }
}

/// x + x
#[derive(Clone, Copy, Drop)]
pub struct Double<X>(pub X);

impl<AB: AirBuilder, X: Expression<AB>> Expression<AB> for Double<X> {
    ghost term = { λ s. double_term (X.term s.0) };

    ghost usable = { λ s b. X.usable s.0 b };

    #[inline(always)]
    fn make(&self, builder: &mut AB) -> AirResult<AB::Expr> {
        let x = self.0.make(builder)?;
        to_air_result(builder.ring().double(x))
    }
}

/// x x
#[derive(Clone, Copy, Drop)]
pub struct Square<X>(pub X);

impl<AB: AirBuilder, X: Expression<AB>> Expression<AB> for Square<X> {
    ghost term = { λ s. X.term s.0 ⊙ X.term s.0 };

    ghost usable = { λ s b. X.usable s.0 b };

    #[inline(always)]
    fn make(&self, builder: &mut AB) -> AirResult<AB::Expr> {
        let x = self.0.make(builder)?;
        to_air_result(builder.ring().mul(x, x))
    }
}

/// x (x - 1), which in a field is zero exactly if x is zero or one
#[derive(Clone, Copy, Drop)]
pub struct BoolCheck<X>(pub X);

impl<AB: AirBuilder, X: Expression<AB>> Expression<AB> for BoolCheck<X> {
    ghost term = { λ s. bool_check_term AB.F.ring.one (X.term s.0) };

    ghost usable = { λ s b. X.usable s.0 b };

    #[inline(always)]
    fn make(&self, builder: &mut AB) -> AirResult<AB::Expr> {
        let x = self.0.make(builder)?;
        to_air_result(builder.ring().bool_check(x))
    }
}

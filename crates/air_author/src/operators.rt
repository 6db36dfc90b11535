//! Operators on expressions: `next(1).equals(count + bit)` is the value `Equal(Next(1), Sum(count, bit))`.
ghost use Rattle.std.specs.Prelude.{◌≡◌};

use crate::AirResult;
use crate::constraints::claims::Equal;
use crate::constraints::extension::ExtEqual;
use crate::expressions::arithmetic::{Difference, Double, Negative, Product, Square, Sum};
use crate::expressions::constants::Number;
use crate::expressions::power::Power;
use crate::expressions::{Expression, ExtExpression};
use air_builder::{AirBuilder, ExtensionBuilder};
use std::ops::{Add, Mul, Neg, Sub};

pub mod leaves;

/// An expression on which operators work.
#[derive(Clone, Copy, Drop)]
pub struct E<X>(pub X);

impl<AB: AirBuilder, X: Expression<AB>> Expression<AB> for E<X> {
    ghost term = { λ s. X.term s.0 };

    ghost usable = { λ s b. X.usable s.0 b };

    #[inline(always)]
    fn make(&self, builder: &mut AB) -> AirResult<AB::Expr> {
        self.0.make(builder)
    }
}

impl<AB: ExtensionBuilder, X: ExtExpression<AB>> ExtExpression<AB> for E<X> {
    ghost ext_term = { λ s. X.ext_term s.0 };

    ghost usable = { λ s b. X.usable s.0 b };

    #[inline(always)]
    fn make_ext(&self, builder: &mut AB) -> AirResult<AB::ExprEF> {
        self.0.make_ext(builder)
    }
}

impl<X, Y> Add<E<Y>> for E<X> {
    type Output = E<Sum<X, Y>>;

    ghost add_gives = { λ a b r. r ≡ record { 0 = record { 0 = a.0; 1 = b.0 } } };

    #[inline(always)]
    fn add(self, other: E<Y>) -> E<Sum<X, Y>> {
        E(Sum(self.0, other.0))
    }
}

impl<X, Y> Sub<E<Y>> for E<X> {
    type Output = E<Difference<X, Y>>;

    ghost sub_gives = { λ a b r. r ≡ record { 0 = record { 0 = a.0; 1 = b.0 } } };

    #[inline(always)]
    fn sub(self, other: E<Y>) -> E<Difference<X, Y>> {
        E(Difference(self.0, other.0))
    }
}

impl<X, Y> Mul<E<Y>> for E<X> {
    type Output = E<Product<X, Y>>;

    ghost mul_gives = { λ a b r. r ≡ record { 0 = record { 0 = a.0; 1 = b.0 } } };

    #[inline(always)]
    fn mul(self, other: E<Y>) -> E<Product<X, Y>> {
        E(Product(self.0, other.0))
    }
}

impl<X> Add<u64> for E<X> {
    type Output = E<Sum<X, Number>>;

    ghost add_gives = { λ a n r. r ≡ record { 0 = record { 0 = a.0; 1 = record { 0 = n } } } };

    #[inline(always)]
    fn add(self, number: u64) -> E<Sum<X, Number>> {
        E(Sum(self.0, Number(number)))
    }
}

impl<X> Sub<u64> for E<X> {
    type Output = E<Difference<X, Number>>;

    ghost sub_gives = { λ a n r. r ≡ record { 0 = record { 0 = a.0; 1 = record { 0 = n } } } };

    #[inline(always)]
    fn sub(self, number: u64) -> E<Difference<X, Number>> {
        E(Difference(self.0, Number(number)))
    }
}

impl<X> Mul<u64> for E<X> {
    type Output = E<Product<X, Number>>;

    ghost mul_gives = { λ a n r. r ≡ record { 0 = record { 0 = a.0; 1 = record { 0 = n } } } };

    #[inline(always)]
    fn mul(self, number: u64) -> E<Product<X, Number>> {
        E(Product(self.0, Number(number)))
    }
}

impl<X> Neg for E<X> {
    type Output = E<Negative<X>>;

    ghost neg_gives = { λ a r. r ≡ record { 0 = record { 0 = a.0 } } };

    #[inline(always)]
    fn neg(self) -> E<Negative<X>> {
        E(Negative(self.0))
    }
}

impl<X> E<X> {
    /// The claim that both are equal.
    #[inline(always)]
    pub fn equals<Y>(self, other: E<Y>) -> Equal<X, Y>
        ensures { result ≡ record { 0 = self.0; 1 = other.0 } }
    {
        Equal(self.0, other.0)
    }

    /// The claim, over the extension, that both are equal.
    #[inline(always)]
    pub fn ext_equals<Y>(self, other: E<Y>) -> ExtEqual<X, Y>
        ensures { result ≡ record { 0 = self.0; 1 = other.0 } }
    {
        ExtEqual(self.0, other.0)
    }

    /// x + x
    #[inline(always)]
    pub fn double(self) -> E<Double<X>>
        ensures { result ≡ record { 0 = record { 0 = self.0 } } }
    {
        E(Double(self.0))
    }

    /// x x
    #[inline(always)]
    pub fn square(self) -> E<Square<X>>
        ensures { result ≡ record { 0 = record { 0 = self.0 } } }
    {
        E(Square(self.0))
    }

    /// The `exponent`-fold product of x, from the left; one for exponent 0.
    #[inline(always)]
    pub fn power(self, exponent: usize) -> E<Power<X>>
        ensures { result ≡ record { 0 = record { 0 = self.0; 1 = exponent } } }
    {
        E(Power(self.0, exponent))
    }
}

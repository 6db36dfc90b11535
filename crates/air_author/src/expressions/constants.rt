//! Constants of the field.
ghost use Rattle.air_field.specs.Ring.{image};
ghost use Rattle.air_builder.specs.Notation.{constant};

use crate::AirResult;
use crate::expressions::{Expression, to_air_result};
use air_builder::AirBuilder;
use air_field::{Algebra, Field};

/// A constant.
#[derive(Clone, Copy, Drop)]
pub struct Constant<F>(pub F);

impl<AB: AirBuilder> Expression<AB> for Constant<AB::F> {
    ghost term = { λ s. constant s.0 };

    #[inline(always)]
    fn make(&self, builder: &mut AB) -> AirResult<AB::Expr> {
        to_air_result(builder.ring().constant(self.0))
    }
}

/// One.
#[derive(Clone, Copy, Drop)]
pub struct One;

impl<AB: AirBuilder> Expression<AB> for One {
    ghost term = { λ _. constant AB.F.ring.one };

    #[inline(always)]
    fn make(&self, builder: &mut AB) -> AirResult<AB::Expr> {
        Constant(AB::F::ONE).make(builder)
    }
}

/// A number in the field.
#[derive(Clone, Copy, Drop)]
pub struct Number(pub u64);

impl<AB: AirBuilder> Expression<AB> for Number {
    ghost term = { λ s. constant (image AB.F.ring s.0) };

    #[inline(always)]
    fn make(&self, builder: &mut AB) -> AirResult<AB::Expr> {
        Constant(AB::F::from_u64(self.0)).make(builder)
    }
}

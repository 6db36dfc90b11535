//! Selectors of rows.
ghost use Rattle.air_builder.specs.Notation.{first_row, last_row, transition};

use crate::AirResult;
use crate::expressions::Expression;
use air_builder::AirBuilder;

/// One on the first row, else zero.
#[derive(Clone, Copy, Drop)]
pub struct FirstRow;

impl<AB: AirBuilder> Expression<AB> for FirstRow {
    ghost term = { λ _. first_row };

    #[inline(always)]
    fn make(&self, builder: &mut AB) -> AirResult<AB::Expr> {
        builder.is_first_row()
    }
}

/// One on the last row, else zero.
#[derive(Clone, Copy, Drop)]
pub struct LastRow;

impl<AB: AirBuilder> Expression<AB> for LastRow {
    ghost term = { λ _. last_row };

    #[inline(always)]
    fn make(&self, builder: &mut AB) -> AirResult<AB::Expr> {
        builder.is_last_row()
    }
}

/// Zero on the last row, else one.
#[derive(Clone, Copy, Drop)]
pub struct Transition;

impl<AB: AirBuilder> Expression<AB> for Transition {
    ghost term = { λ _. transition };

    #[inline(always)]
    fn make(&self, builder: &mut AB) -> AirResult<AB::Expr> {
        builder.is_transition()
    }
}

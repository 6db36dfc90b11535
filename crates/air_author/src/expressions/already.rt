//! Prebuilt expressions.
ghost use Rattle.air_author.specs.Expressions.{IsUsableIn};

use crate::AirResult;
use crate::expressions::{Expression, ExtExpression};
use air_builder::{AirBuilder, ExtensionBuilder, View, ViewOver};
use air_field::Algebra;

/// A prebuilt expression, such as one that a filter or a gadget was given, and the value from which it was made. In the
/// builder it must mean the value's term, and no leaf of the term may be missing.
#[derive(Clone, Copy, Drop)]
pub struct Already<E, X>(pub E, pub X);

impl<AB: AirBuilder, X: Expression<AB>> Expression<AB> for Already<AB::Expr, X> {
    ghost term = { λ s. X.term s.1 };

    ghost usable = { λ s b. IsUsableIn ⟦<AB as View>⟧.view s.0 (X.term s.1) b };

    #[inline(always)]
    fn make(&self, _builder: &mut AB) -> AirResult<AB::Expr> {
        Ok(self.0)
    }
}

impl<AB: ExtensionBuilder, X: ExtExpression<AB>> ExtExpression<AB> for Already<AB::ExprEF, X> {
    ghost ext_term = { λ s. X.ext_term s.1 };

    ghost usable = { λ s b. IsUsableIn ⟦<AB as ViewOver>⟧.view s.0 (X.ext_term s.1) b };

    #[inline(always)]
    fn make_ext(&self, _builder: &mut AB) -> AirResult<AB::ExprEF> {
        Ok(self.0)
    }
}

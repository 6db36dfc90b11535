//! Base leaves over the extension: each is lifted.
use crate::AirResult;
use crate::expressions::columns::{
    Current, Next, Periodic, PreprocessedCurrent, PreprocessedNext, Public,
};
use crate::expressions::constants::{Constant, Number, One};
use crate::expressions::extension::make_lifted;
use crate::expressions::selectors::{FirstRow, LastRow, Transition};
use crate::expressions::{Expression, ExtExpression};
use air_builder::ExtensionBuilder;

impl<AB: ExtensionBuilder> ExtExpression<AB> for Current {
    ghost ext_term = { λ s. ⟦<Current as Expression<AB>>⟧.term s };

    #[inline(always)]
    fn make_ext(&self, builder: &mut AB) -> AirResult<AB::ExprEF> {
        make_lifted(builder, self)
    }
}

impl<AB: ExtensionBuilder> ExtExpression<AB> for Next {
    ghost ext_term = { λ s. ⟦<Next as Expression<AB>>⟧.term s };

    #[inline(always)]
    fn make_ext(&self, builder: &mut AB) -> AirResult<AB::ExprEF> {
        make_lifted(builder, self)
    }
}

impl<AB: ExtensionBuilder> ExtExpression<AB> for PreprocessedCurrent {
    ghost ext_term = { λ s. ⟦<PreprocessedCurrent as Expression<AB>>⟧.term s };

    #[inline(always)]
    fn make_ext(&self, builder: &mut AB) -> AirResult<AB::ExprEF> {
        make_lifted(builder, self)
    }
}

impl<AB: ExtensionBuilder> ExtExpression<AB> for PreprocessedNext {
    ghost ext_term = { λ s. ⟦<PreprocessedNext as Expression<AB>>⟧.term s };

    #[inline(always)]
    fn make_ext(&self, builder: &mut AB) -> AirResult<AB::ExprEF> {
        make_lifted(builder, self)
    }
}

impl<AB: ExtensionBuilder> ExtExpression<AB> for Public {
    ghost ext_term = { λ s. ⟦<Public as Expression<AB>>⟧.term s };

    #[inline(always)]
    fn make_ext(&self, builder: &mut AB) -> AirResult<AB::ExprEF> {
        make_lifted(builder, self)
    }
}

impl<AB: ExtensionBuilder> ExtExpression<AB> for Periodic {
    ghost ext_term = { λ s. ⟦<Periodic as Expression<AB>>⟧.term s };

    #[inline(always)]
    fn make_ext(&self, builder: &mut AB) -> AirResult<AB::ExprEF> {
        make_lifted(builder, self)
    }
}

impl<AB: ExtensionBuilder> ExtExpression<AB> for FirstRow {
    ghost ext_term = { λ s. ⟦<FirstRow as Expression<AB>>⟧.term s };

    #[inline(always)]
    fn make_ext(&self, builder: &mut AB) -> AirResult<AB::ExprEF> {
        make_lifted(builder, self)
    }
}

impl<AB: ExtensionBuilder> ExtExpression<AB> for LastRow {
    ghost ext_term = { λ s. ⟦<LastRow as Expression<AB>>⟧.term s };

    #[inline(always)]
    fn make_ext(&self, builder: &mut AB) -> AirResult<AB::ExprEF> {
        make_lifted(builder, self)
    }
}

impl<AB: ExtensionBuilder> ExtExpression<AB> for Transition {
    ghost ext_term = { λ s. ⟦<Transition as Expression<AB>>⟧.term s };

    #[inline(always)]
    fn make_ext(&self, builder: &mut AB) -> AirResult<AB::ExprEF> {
        make_lifted(builder, self)
    }
}

impl<AB: ExtensionBuilder> ExtExpression<AB> for One {
    ghost ext_term = { λ s. ⟦<One as Expression<AB>>⟧.term s };

    #[inline(always)]
    fn make_ext(&self, builder: &mut AB) -> AirResult<AB::ExprEF> {
        make_lifted(builder, self)
    }
}

impl<AB: ExtensionBuilder> ExtExpression<AB> for Number {
    ghost ext_term = { λ s. ⟦<Number as Expression<AB>>⟧.term s };

    #[inline(always)]
    fn make_ext(&self, builder: &mut AB) -> AirResult<AB::ExprEF> {
        make_lifted(builder, self)
    }
}

impl<AB: ExtensionBuilder> ExtExpression<AB> for Constant<AB::F> {
    ghost ext_term = { λ s. ⟦<Constant<AB::F> as Expression<AB>>⟧.term s };

    #[inline(always)]
    fn make_ext(&self, builder: &mut AB) -> AirResult<AB::ExprEF> {
        make_lifted(builder, self)
    }
}

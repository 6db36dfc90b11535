//! Expressions over an extension.
use crate::expressions::view::Expr;
use crate::extension::shared::ExtExpressions;
use air_draft::ExtStep;
use air_field::{ExtensionField, Field};

/// An expression over the extension of some [`ExtExpressions`](crate::ExtExpressions): a handle, which may be copied. The
/// operators `+`, `-` and `*` join such expressions, base expressions and whole numbers.
///
/// Nothing is refused while it is written. An expression of others is refused in the end
/// (`AirError::ForeignExpression`).
#[derive(Clone, Copy)]
pub struct ExtExpr<'a, F: Field, EF: ExtensionField<F>> {
    pub(crate) expressions: &'a ExtExpressions<F, EF>,
    pub(crate) number: usize,
}

impl<'a, F: Field, EF: ExtensionField<F>> ExtExpr<'a, F, EF> {
    /// The number of another expression, which must be one of the same draft.
    pub(crate) fn own(self, other: ExtExpr<'a, F, EF>) -> usize {
        self.expressions.own(other.expressions, other.number)
    }

    /// The expression of a step.
    pub(crate) fn step(self, step: ExtStep<F, EF>) -> ExtExpr<'a, F, EF> {
        let expressions = self.expressions;
        ExtExpr {
            expressions,
            number: expressions.write(step),
        }
    }

    /// A base expression over the extension, beside this one.
    pub(crate) fn lifted(self, x: Expr<'a>) -> ExtExpr<'a, F, EF> {
        let expressions = self.expressions;
        ExtExpr {
            expressions,
            number: expressions.write_lifted(x),
        }
    }

    /// A whole number, beside this expression.
    pub(crate) fn of_number(self, n: u64) -> ExtExpr<'a, F, EF> {
        let expressions = self.expressions;
        ExtExpr {
            expressions,
            number: expressions.write_number(n),
        }
    }

    /// Twice the expression.
    pub fn double(self) -> ExtExpr<'a, F, EF> {
        self.step(ExtStep::Add(self.number, self.number))
    }

    /// Its square.
    pub fn square(self) -> ExtExpr<'a, F, EF> {
        self.step(ExtStep::Mul(self.number, self.number))
    }

    /// Its cube.
    pub fn cube(self) -> ExtExpr<'a, F, EF> {
        let square = self.square();
        self.step(ExtStep::Mul(square.number, self.number))
    }

    /// Its k-th power: 1 for 0, else by k - 1 products. ([`ExtExpr::square`] and [`ExtExpr::cube`] take fewer.)
    pub fn power(self, k: u32) -> ExtExpr<'a, F, EF> {
        if k == 0 {
            return self.of_number(1);
        }
        let mut power = self;
        for _ in 1..k {
            power = self.step(ExtStep::Mul(power.number, self.number));
        }
        power
    }
}

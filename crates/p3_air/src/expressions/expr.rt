//! The calls of an expression.
ghost use Rattle.std.specs.Prelude.{◌≡◌, None, IsSomeAnd, MatchResult};
ghost use Rattle.p3_air.specs.HandleView.{known};
ghost use Rattle.p3_air.specs.HandleSteps.{Joins, Makes};
ghost use Rattle.air_draft.specs.declared.step.Operand.TheVariants.{Step as Earlier};
ghost use Rattle.air_draft.specs.declared.step.Step.TheVariants.{Number, Add, Mul, Power, Xor, AndNot};

use crate::expressions::nodes::Expressions;
use crate::expressions::view::{Expr, Node};
use air_core::AirError;
use air_draft::{Operand, Step};

/// The expressions of two, and their numbers; or an expression without a step. One of others is noted.
pub(crate) fn joined<'a>(
    x: Expr<'a>,
    y: Expr<'a>,
) -> Result<(&'a Expressions, usize, usize), Expr<'a>>
    ensures { MatchResult result
        (λ r. IsSomeAnd (known x.now) (λ a. IsSomeAnd (known y.now) (λ b.
        (r.0.now.steps ≡ a.tape) × (r.1 ≡ a.at.index) × (r.2 ≡ b.at.index))))
        (λ z. known z.now ≡ None) }
{
    let Some((expressions, first)) = x.entry() else {
        return Err(x);
    };
    let Some((others, second)) = y.entry() else {
        return Err(y);
    };
    if expressions.is_same(others) {
        return Ok((expressions, first.index(), second.index()));
    }
    expressions.fail(AirError::ForeignExpression);
    Err(expressions.none())
}

impl Node {
    /// A whole number, beside this expression.
    pub fn of_number<'a>(&'a self, n: u64) -> Expr<'a>
        ensures { Makes (λ _. Number n) self.now result.now }
    {
        match self.entry() {
            Some((expressions, _)) => expressions.write(Step::Number(n)),
            None => self,
        }
    }

    /// Twice the expression.
    pub fn double<'a>(&'a self) -> Expr<'a>
        ensures { Makes (λ x. Add (Earlier x) (Earlier x)) self.now result.now }
    {
        let Some((expressions, receipt)) = self.entry() else {
            return self;
        };
        let x = Operand::Step(receipt.index());
        expressions.write(Step::Add(x, x))
    }

    /// Its square.
    pub fn square<'a>(&'a self) -> Expr<'a>
        ensures { Makes (λ x. Mul (Earlier x) (Earlier x)) self.now result.now }
    {
        let Some((expressions, receipt)) = self.entry() else {
            return self;
        };
        let x = Operand::Step(receipt.index());
        expressions.write(Step::Mul(x, x))
    }

    /// Its cube.
    pub fn cube<'a>(&'a self) -> Expr<'a>
        ensures { Makes (λ x. Power x 3) self.now result.now }
    {
        self.power(3)
    }

    /// Its k-th power: 1 for 0, else by k - 1 products.
    pub fn power<'a>(&'a self, k: u32) -> Expr<'a>
        ensures { Makes (λ x. Power x k) self.now result.now }
    {
        let Some((expressions, receipt)) = self.entry() else {
            return self;
        };
        expressions.write(Step::Power(receipt.index(), k))
    }

    /// The exclusive or, x + y - 2xy, of expressions that are 0 or 1. That they are isn't checked.
    pub fn xor<'a>(&'a self, other: Expr<'a>) -> Expr<'a>
        ensures { Joins Xor self.now other.now result.now }
    {
        match joined(self, other) {
            Ok((expressions, x, y)) => expressions.write(Step::Xor(x, y)),
            Err(none) => none,
        }
    }

    /// Not this and the other, (1 - x) y, of expressions that are 0 or 1. That they are isn't checked.
    pub fn andn<'a>(&'a self, other: Expr<'a>) -> Expr<'a>
        ensures { Joins AndNot self.now other.now result.now }
    {
        match joined(self, other) {
            Ok((expressions, x, y)) => expressions.write(Step::AndNot(x, y)),
            Err(none) => none,
        }
    }
}

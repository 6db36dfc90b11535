//! Claims of expressions over an extension.
use crate::expressions::view::Expr;
use crate::extension::expr::ExtExpr;
use crate::extension::shared::ExtExpressions;
use crate::handles::claims::Claims;
use air_draft::{Claimed, ExtClaimed};
use air_field::{ExtensionField, Field};
use std::ops::{Deref, DerefMut};

/// Where claims of either kind are made: under conditions and a label, if there are any. It may be used for several claims; a
/// further condition or label takes it. All calls of [`Claims`] are there.
///
/// A claim over the extension under conditions is asserted times their lifted factors: `when(a).when(b)` and a claim that
/// x is zero assert that (x b) a is zero.
#[derive(Drop)]
pub struct ExtClaims<'c, 'a, F: Field, EF: ExtensionField<F>> {
    pub(crate) claims: Claims<'c, 'a>,
    pub(crate) expressions: &'a ExtExpressions<F, EF>,
}

impl<'c, 'a, F: Field, EF: ExtensionField<F>> Deref for ExtClaims<'c, 'a, F, EF> {
    type Target = Claims<'c, 'a>;

    fn deref(&self) -> &Claims<'c, 'a> {
        &self.claims
    }
}

impl<'c, 'a, F: Field, EF: ExtensionField<F>> DerefMut for ExtClaims<'c, 'a, F, EF> {
    fn deref_mut(&mut self) -> &mut Claims<'c, 'a> {
        &mut self.claims
    }
}

impl<'c, 'a, F: Field, EF: ExtensionField<F>> ExtClaims<'c, 'a, F, EF> {
    // Writes a claim over the extension down.
    fn claim_ext(&mut self, claimed: ExtClaimed) {
        let (condition, label) = (self.claims.condition, self.claims.label);
        self.claims
            .c
            .claim(Claimed::Extension(claimed), condition, label);
    }

    // The number of an expression, which must be one of the same expressions.
    fn own(&self, x: ExtExpr<'a, F, EF>) -> usize {
        self.expressions.own(x.expressions, x.number)
    }

    /// Claims that `x` is zero.
    pub fn assert_zero_ext(&mut self, x: ExtExpr<'a, F, EF>) {
        let x = self.own(x);
        self.claim_ext(ExtClaimed::Zero(x));
    }

    /// Claims that `x` is one.
    pub fn assert_one_ext(&mut self, x: ExtExpr<'a, F, EF>) {
        let x = self.own(x);
        self.claim_ext(ExtClaimed::One(x));
    }

    /// Claims that both are equal.
    pub fn assert_eq_ext(&mut self, x: ExtExpr<'a, F, EF>, y: ExtExpr<'a, F, EF>) {
        let x = self.own(x);
        let y = self.own(y);
        self.claim_ext(ExtClaimed::Equal(x, y));
    }

    /// Claims that each is zero, the i-th under the label `label::[i]` where there is a label.
    pub fn assert_zeros_ext(&mut self, xs: &[ExtExpr<'a, F, EF>]) {
        for (i, x) in xs.iter().enumerate() {
            let x = self.own(*x);
            self.claims
                .claim_at(i, Claimed::Extension(ExtClaimed::Zero(x)));
        }
    }

    /// Where the condition isn't zero.
    pub fn when(self, condition: Expr) -> ExtClaims<'c, 'a, F, EF> {
        let ExtClaims {
            claims,
            expressions,
        } = self;
        let claims = claims.when(condition);
        ExtClaims {
            claims,
            expressions,
        }
    }

    /// Where both differ.
    pub fn when_ne(self, x: Expr, y: Expr) -> ExtClaims<'c, 'a, F, EF> {
        let ExtClaims {
            claims,
            expressions,
        } = self;
        let claims = claims.when_ne(x, y);
        ExtClaims {
            claims,
            expressions,
        }
    }

    /// On the first row.
    pub fn when_first_row(self) -> ExtClaims<'c, 'a, F, EF> {
        let ExtClaims {
            claims,
            expressions,
        } = self;
        let claims = claims.when_first_row();
        ExtClaims {
            claims,
            expressions,
        }
    }

    /// On the last row.
    pub fn when_last_row(self) -> ExtClaims<'c, 'a, F, EF> {
        let ExtClaims {
            claims,
            expressions,
        } = self;
        let claims = claims.when_last_row();
        ExtClaims {
            claims,
            expressions,
        }
    }

    /// On all rows but the last.
    pub fn when_transition(self) -> ExtClaims<'c, 'a, F, EF> {
        let ExtClaims {
            claims,
            expressions,
        } = self;
        let claims = claims.when_transition();
        ExtClaims {
            claims,
            expressions,
        }
    }

    /// Under a label. Under a label that is there already, it is `outer::label`. An empty label is none.
    pub fn named(self, label: &str) -> ExtClaims<'c, 'a, F, EF> {
        let ExtClaims {
            claims,
            expressions,
        } = self;
        let claims = claims.named(label);
        ExtClaims {
            claims,
            expressions,
        }
    }

    /// Under the label `label::[index]`, where there is a label; without one nothing changes.
    pub fn at(self, index: usize) -> ExtClaims<'c, 'a, F, EF> {
        let ExtClaims {
            claims,
            expressions,
        } = self;
        let claims = claims.at(index);
        ExtClaims {
            claims,
            expressions,
        }
    }
}

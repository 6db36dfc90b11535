//! Constraints in the making, over an extension too.
use crate::expressions::view::Expr;
use crate::extension::claims::ExtClaims;
use crate::extension::expr::ExtExpr;
use crate::extension::shared::ExtExpressions;
use crate::handles::constraints::Constraints;
use air_audit::FlatExtAir;
use air_core::AirError;
use air_core::boundary::BoundaryEnd;
use air_draft::{ExtDraft, Fixed};
use air_field::{ExtensionField, Field};
use std::alloc::Global;
use std::ops::{Deref, DerefMut};

/// Constraints in the making, over an extension too: it takes claims of expressions, and makes the AIR in the end. All calls
/// of [`Constraints`] are there. Claims of both kinds are asserted in the order in which they are made.
///
/// Nothing is refused while it is written: what goes wrong first is kept, and [`ExtConstraints::into_air`] answers it.
#[derive(Drop)]
pub struct ExtConstraints<'a, F: Field, EF: ExtensionField<F>> {
    base: Constraints<'a>,
    expressions: &'a ExtExpressions<F, EF>,
}

impl<'a, F: Field, EF: ExtensionField<F>> Deref for ExtConstraints<'a, F, EF> {
    type Target = Constraints<'a>;

    fn deref(&self) -> &Constraints<'a> {
        &self.base
    }
}

impl<'a, F: Field, EF: ExtensionField<F>> DerefMut for ExtConstraints<'a, F, EF> {
    fn deref_mut(&mut self) -> &mut Constraints<'a> {
        &mut self.base
    }
}

impl<'a, F: Field, EF: ExtensionField<F>> ExtConstraints<'a, F, EF> {
    /// No constraints yet, of a main trace of `width` columns. (`column` adds more.) Claims are of expressions of
    /// these.
    pub fn new(alloc: Global, expressions: &'a ExtExpressions<F, EF>, width: usize) -> Self {
        ExtConstraints {
            base: Constraints::new(alloc, &expressions.base, width),
            expressions,
        }
    }

    /// With this number of public values.
    pub fn with_public_values(self, count: usize) -> Self {
        let ExtConstraints { base, expressions } = self;
        ExtConstraints {
            base: base.with_public_values(count),
            expressions,
        }
    }

    /// With a boundary value: the cell of a column in the first or the last row holds a public value.
    pub fn with_boundary(self, column: usize, end: BoundaryEnd, public_value: usize) -> Self {
        let ExtConstraints { base, expressions } = self;
        ExtConstraints {
            base: base.with_boundary(column, end, public_value),
            expressions,
        }
    }

    /// Claims that `x` is zero.
    pub fn assert_zero_ext(&mut self, x: ExtExpr<'a, F, EF>) {
        self.everywhere().assert_zero_ext(x);
    }

    /// Claims that `x` is one.
    pub fn assert_one_ext(&mut self, x: ExtExpr<'a, F, EF>) {
        self.everywhere().assert_one_ext(x);
    }

    /// Claims that both are equal.
    pub fn assert_eq_ext(&mut self, x: ExtExpr<'a, F, EF>, y: ExtExpr<'a, F, EF>) {
        self.everywhere().assert_eq_ext(x, y);
    }

    /// Claims that each is zero.
    pub fn assert_zeros_ext(&mut self, xs: &[ExtExpr<'a, F, EF>]) {
        self.everywhere().assert_zeros_ext(xs);
    }

    /// Where claims hold on every row, without a label.
    pub fn everywhere(&mut self) -> ExtClaims<'_, 'a, F, EF> {
        let expressions = self.expressions;
        let claims = self.base.everywhere();
        ExtClaims {
            claims,
            expressions,
        }
    }

    /// Where the condition isn't zero.
    pub fn when(&mut self, condition: Expr) -> ExtClaims<'_, 'a, F, EF> {
        let expressions = self.expressions;
        let claims = self.base.when(condition);
        ExtClaims {
            claims,
            expressions,
        }
    }

    /// Where both differ.
    pub fn when_ne(&mut self, x: Expr, y: Expr) -> ExtClaims<'_, 'a, F, EF> {
        let expressions = self.expressions;
        let claims = self.base.when_ne(x, y);
        ExtClaims {
            claims,
            expressions,
        }
    }

    /// On the first row.
    pub fn when_first_row(&mut self) -> ExtClaims<'_, 'a, F, EF> {
        let expressions = self.expressions;
        let claims = self.base.when_first_row();
        ExtClaims {
            claims,
            expressions,
        }
    }

    /// On the last row.
    pub fn when_last_row(&mut self) -> ExtClaims<'_, 'a, F, EF> {
        let expressions = self.expressions;
        let claims = self.base.when_last_row();
        ExtClaims {
            claims,
            expressions,
        }
    }

    /// On all rows but the last.
    pub fn when_transition(&mut self) -> ExtClaims<'_, 'a, F, EF> {
        let expressions = self.expressions;
        let claims = self.base.when_transition();
        ExtClaims {
            claims,
            expressions,
        }
    }

    /// Under a label.
    pub fn named(&mut self, label: &str) -> ExtClaims<'_, 'a, F, EF> {
        let expressions = self.expressions;
        let claims = self.base.named(label);
        ExtClaims {
            claims,
            expressions,
        }
    }

    /// All that was written, with what the AIR fixes.
    pub fn into_draft(self, fixed: Fixed<F>) -> ExtDraft<F, EF> {
        let ExtConstraints { base, expressions } = self;
        let mut draft = ExtDraft::new(base.into_draft(fixed));
        match expressions.ext_steps(*draft.steps.allocator()) {
            Ok(steps) => draft.steps = steps,
            Err(_) => draft.base.notes.fail(AirError::Memory),
        }
        draft
    }

    /// The AIR that declares the claims, in order. It refuses what went wrong first while it was written: `Memory`,
    /// an expression of others (`ForeignExpression`), a degree past `usize` (`DegreeOverflow`). An entry that isn't there is
    /// refused where the AIR is recorded or checked.
    pub fn into_air(self) -> Result<FlatExtAir<F, EF>, AirError> {
        let fixed = Fixed::new(*self.base.notes.claims.allocator());
        self.into_air_with(fixed)
    }

    /// The AIR, with a preprocessed trace, periodic columns and constants; see [`ExtConstraints::into_air`].
    pub fn into_air_with(self, fixed: Fixed<F>) -> Result<FlatExtAir<F, EF>, AirError> {
        self.into_draft(fixed).into_air()
    }
}

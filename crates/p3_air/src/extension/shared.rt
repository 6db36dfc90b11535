//! Expressions in the making, over an extension too.
use crate::expressions::nodes::Expressions;
use crate::expressions::view::Expr;
use crate::extension::expr::ExtExpr;
use air_core::{AirError, ExtEntry, SymbolicVariableExt};
use air_draft::ExtStep;
use air_field::{ExtensionField, Field};
use std::alloc::{AllocError, Global};
use std::cell::RefCell;
use std::ops::Deref;

/// The number of nothing.
const NOTHING: usize = usize::MAX;

/// It makes expressions, over an extension too. It has all calls of [`Expressions`].
#[derive(Drop)]
pub struct ExtExpressions<F: Field, EF: ExtensionField<F>> {
    pub(crate) base: Expressions,
    steps: RefCell<Vec<ExtStep<F, EF>>>,
}

impl<F: Field, EF: ExtensionField<F>> Deref for ExtExpressions<F, EF> {
    type Target = Expressions;

    fn deref(&self) -> &Expressions {
        &self.base
    }
}

impl<F: Field, EF: ExtensionField<F>> ExtExpressions<F, EF> {
    /// No expressions yet.
    pub fn new(alloc: Global) -> Self {
        ExtExpressions {
            base: Expressions::new(alloc),
            steps: RefCell::new(Vec::new(alloc)),
        }
    }

    /// Writes a step over the extension down and answers its number. The steps are lent only while one is written.
    pub(crate) fn write(&self, step: ExtStep<F, EF>) -> usize {
        match self.steps.try_borrow_mut() {
            Ok(mut steps) => {
                let number = steps.len();
                if steps.push(step).is_err() {
                    self.base.fail(AirError::Memory);
                }
                number
            }
            Err(_) => {
                self.base.fail(AirError::Memory);
                NOTHING
            }
        }
    }

    /// Writes a base expression down as one over the extension. It must be one of these.
    pub(crate) fn write_lifted(&self, x: Expr) -> usize {
        match self.base.number_of(x) {
            Ok(number) => self.write(ExtStep::Lift(number)),
            Err(error) => {
                self.base.fail(error);
                NOTHING
            }
        }
    }

    /// Writes a whole number down, over the extension.
    pub(crate) fn write_number(&self, n: u64) -> usize {
        self.write_lifted(self.base.number(n))
    }

    /// The number of an expression over the extension, which must be one of these.
    pub(crate) fn own(&self, other: &ExtExpressions<F, EF>, number: usize) -> usize {
        if self.base.is_same(&other.base) {
            return number;
        }
        self.base.fail(AirError::ForeignExpression);
        NOTHING
    }

    /// All steps over the extension, in order.
    pub(crate) fn ext_steps(&self, alloc: Global) -> Result<Vec<ExtStep<F, EF>>, AllocError> {
        let mut copied = Vec::new(alloc);
        match self.steps.try_borrow() {
            Ok(steps) => copied.extend_from_slice(&steps)?,
            Err(_) => return Err(AllocError),
        }
        Ok(copied)
    }

    // The expression of a step over the extension.
    fn step(&self, step: ExtStep<F, EF>) -> ExtExpr<'_, F, EF> {
        ExtExpr {
            expressions: self,
            number: self.write(step),
        }
    }

    // The expression of a variable over the extension.
    fn variable_ext(&self, entry: ExtEntry, index: usize) -> ExtExpr<'_, F, EF> {
        self.step(ExtStep::Variable(SymbolicVariableExt::new(entry, index)))
    }

    /// A column of the permutation trace's current row.
    pub fn permutation(&self, index: usize) -> ExtExpr<'_, F, EF> {
        self.variable_ext(ExtEntry::Permutation { offset: 0 }, index)
    }

    /// A column of the permutation trace's next row; after the last row comes the first.
    pub fn permutation_next(&self, index: usize) -> ExtExpr<'_, F, EF> {
        self.variable_ext(ExtEntry::Permutation { offset: 1 }, index)
    }

    /// A random challenge.
    pub fn challenge(&self, index: usize) -> ExtExpr<'_, F, EF> {
        self.variable_ext(ExtEntry::Challenge, index)
    }

    /// A value that the permutation argument exposes.
    pub fn permutation_value(&self, index: usize) -> ExtExpr<'_, F, EF> {
        self.variable_ext(ExtEntry::PermutationValue, index)
    }

    /// A constant of the extension.
    pub fn ext_constant(&self, c: EF) -> ExtExpr<'_, F, EF> {
        self.step(ExtStep::Constant(c))
    }

    /// A base expression over the extension.
    pub fn lift(&self, x: Expr) -> ExtExpr<'_, F, EF> {
        ExtExpr {
            expressions: self,
            number: self.write_lifted(x),
        }
    }
}

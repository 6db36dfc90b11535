//! The calls that make expressions.
ghost use Rattle.std.specs.Prelude.{◌≡◌, ◌∷◌, ◌++◌, [], length, None, IfOk, IfSome, IsSomeAnd};
ghost use Rattle.air_core.specs.declared.variables.entry.BaseEntry.TheVariants.{Main, Preprocessed, Periodic, Public};
ghost use Rattle.p3_air.specs.HandleView.{known};
ghost use Rattle.p3_air.specs.HandleSteps.{Writes};
ghost use Rattle.air_draft.specs.declared.step.Step.TheVariants.{Variable, IsFirstRow, IsLastRow, IsTransition, Number, Constant};
ghost use Rattle.p3_air.specs.declared.expressions.windows.Table.TheVariants.{Main as MainTable, Preprocessed as PreprocessedTable};

use crate::expressions::listing::Listing;
use crate::expressions::nodes::{Body, Expressions, Head};
use crate::expressions::view::{Expr, Node};
use crate::expressions::windows::{Table, Window};
use air_core::{AirError, BaseEntry};
use air_draft::{Fixed, Step};
use air_field::Field;
use air_tape::listing::Listing as Listed;
use air_tape::tape::Tape;
use bumpalo::Bump;
use std::alloc::{AllocError, Global};
use std::cell::Cell;

impl Expressions {
    /// No expressions yet.
    pub fn new(alloc: Global) -> Self {
        Expressions {
            steps: Tape::new(alloc),
            bump: Bump::new(alloc),
            fault: Cell::new(None),
            mark: Cell::new(false),
            lost: Head { receipt: None },
        }
    }

    /// The expression of a new step.
    pub(crate) fn write<'a>(&'a self, step: Step) -> Expr<'a>
        ensures { Writes self.now step result.now }
    {
        if let Some(receipt) = self.steps.push(step) {
            let head = Head {
                receipt: Some(receipt),
            };
            let expressions = self;
            if let Ok(body) = self.bump.try_alloc(Body { head, expressions }) {
                return Node::of(body);
            }
        }
        self.fail(AirError::Memory);
        self.none()
    }

    /// An expression without a step.
    pub(crate) fn none<'a>(&'a self) -> Expr<'a>
        ensures { known result.now ≡ None }
    {
        Node::lost(&self.lost)
    }

    /// What went wrong first, if anything did: memory ran out (`Memory`), or an expression of others was used
    /// (`ForeignExpression`).
    pub fn fault(&self) -> Option<AirError> {
        self.fault.get()
    }

    /// Notes a fault, if it is the first.
    pub fn fail(&self, error: AirError) {
        if self.fault.get().is_none() {
            self.fault.set(Some(error));
        }
    }

    /// Whether both are the same: a mark that is set here is read there.
    pub(crate) fn is_same(&self, other: &Expressions) -> bool {
        self.mark.set(true);
        let same = other.mark.get();
        self.mark.set(false);
        same
    }

    /// The number of an expression's step. An expression of others is refused (`ForeignExpression`), and one without a
    /// step.
    pub fn number_of(&self, x: Expr) -> Result<usize, AirError>
        ensures { IfOk result (λ n. IsSomeAnd (known x.now) (λ k. n ≡ k.at.index)) }
    {
        match x.entry() {
            Some((own, receipt)) => {
                if self.is_same(own) {
                    Ok(receipt.index())
                } else {
                    Err(AirError::ForeignExpression)
                }
            }
            None => match self.fault() {
                Some(error) => Err(error),
                None => Err(AirError::ForeignExpression),
            },
        }
    }

    /// The numbers of two expressions' steps; see [`Expressions::number_of`].
    pub fn numbers_of(&self, x: Expr, y: Expr) -> Result<(usize, usize), AirError>
        ensures { IfOk result (λ r. IsSomeAnd (known x.now) (λ k. IsSomeAnd (known y.now) (λ l.
            (r.0 ≡ k.at.index) × (r.1 ≡ l.at.index)))) }
    {
        let m = self.number_of(x)?;
        let n = self.number_of(y)?;
        Ok((m, n))
    }

    /// All steps, in order.
    pub fn listing(&self, alloc: Global) -> Result<Listing, AllocError>
        ensures { IfOk result (λ l. l.listed.tape.value ≡ self.now.steps) }
    {
        Ok(Listing {
            listed: Listed::of(alloc, &self.steps)?,
        })
    }

    /// The main trace's current row and next.
    pub fn main(&self) -> Window<'_>
        ensures { (result.expressions.now ≡ self.now) × (result.table ≡ MainTable) }
    {
        Window {
            expressions: self,
            table: Table::Main,
        }
    }

    /// The preprocessed trace's current row and next.
    pub fn preprocessed(&self) -> Window<'_>
        ensures { (result.expressions.now ≡ self.now) × (result.table ≡ PreprocessedTable) }
    {
        Window {
            expressions: self,
            table: Table::Preprocessed,
        }
    }

    /// A variable.
    pub fn variable(&self, entry: BaseEntry, index: usize) -> Expr<'_>
        ensures { Writes self.now (Variable entry index) result.now }
    {
        self.write(Step::Variable { entry, index })
    }

    /// A column of the main trace's current row.
    pub fn current(&self, index: usize) -> Expr<'_>
        ensures { Writes self.now (Variable (Main 0) index) result.now }
    {
        self.variable(BaseEntry::Main { offset: 0 }, index)
    }

    /// A column of the main trace's next row; after the last row comes the first.
    pub fn next(&self, index: usize) -> Expr<'_>
        ensures { Writes self.now (Variable (Main 1) index) result.now }
    {
        self.variable(BaseEntry::Main { offset: 1 }, index)
    }

    /// A column of the preprocessed trace's current row.
    pub fn preprocessed_current(&self, index: usize) -> Expr<'_>
        ensures { Writes self.now (Variable (Preprocessed 0) index) result.now }
    {
        self.variable(BaseEntry::Preprocessed { offset: 0 }, index)
    }

    /// A column of the preprocessed trace's next row.
    pub fn preprocessed_next(&self, index: usize) -> Expr<'_>
        ensures { Writes self.now (Variable (Preprocessed 1) index) result.now }
    {
        self.variable(BaseEntry::Preprocessed { offset: 1 }, index)
    }

    /// A periodic column.
    pub fn periodic(&self, index: usize) -> Expr<'_>
        ensures { Writes self.now (Variable Periodic index) result.now }
    {
        self.variable(BaseEntry::Periodic, index)
    }

    /// A public value.
    pub fn public(&self, index: usize) -> Expr<'_>
        ensures { Writes self.now (Variable Public index) result.now }
    {
        self.variable(BaseEntry::Public, index)
    }

    /// One on the first row, zero elsewhere.
    pub fn is_first_row(&self) -> Expr<'_>
        ensures { Writes self.now IsFirstRow result.now }
    {
        self.write(Step::IsFirstRow)
    }

    /// One on the last row, zero elsewhere.
    pub fn is_last_row(&self) -> Expr<'_>
        ensures { Writes self.now IsLastRow result.now }
    {
        self.write(Step::IsLastRow)
    }

    /// Zero on the last row, one elsewhere.
    pub fn is_transition(&self) -> Expr<'_>
        ensures { Writes self.now IsTransition result.now }
    {
        self.write(Step::IsTransition)
    }

    /// A whole number: one, added n times.
    pub fn number(&self, n: u64) -> Expr<'_>
        ensures { Writes self.now (Number n) result.now }
    {
        self.write(Step::Number(n))
    }

    // A constant of the field, by its place among those that are fixed.
    fn constant_at(&self, place: usize) -> Expr<'_>
        ensures { Writes self.now (Constant place) result.now }
    {
        self.write(Step::Constant(place))
    }

    /// A constant of the field, which is added to what the AIR fixes.
    pub fn constant<'a, F: Field>(&'a self, fixed: &mut Fixed<F>, c: F) -> Expr<'a>
        ensures step { Writes self.now (Constant (length fixed.old.constants.items)) result.now }
        ensures added { IfSome (known result.now)
            (λ _. fixed.new.constants.items ≡ fixed.old.constants.items ++ c ∷ []) }
        ensures others { fixed.new ≡ record fixed.old { constants = fixed.new.constants } }
    {
        match fixed.constant(c) {
            Ok(place) => self.constant_at(place),
            Err(_) => {
                self.fail(AirError::Memory);
                self.none()
            }
        }
    }
}

//! The rows that constraints see of a table: the current one and the next.
ghost use Rattle.p3_air.specs.HandleSteps.{Writes, window_entry};
ghost use Rattle.air_draft.specs.declared.step.Step.TheVariants.{Variable};

use crate::expressions::nodes::Expressions;
use crate::expressions::view::Expr;
use air_core::BaseEntry;

/// A table beside the constraints.
#[derive(Clone, Copy)]
pub enum Table {
    Main,
    Preprocessed,
}

/// The current row and the next of the main or the preprocessed trace; after the last row comes the first.
#[derive(Clone, Copy)]
pub struct Window<'a> {
    pub(crate) expressions: &'a Expressions,
    pub(crate) table: Table,
}

impl<'a> Window<'a> {
    // A column of a row: 0 is the current one, 1 the next.
    fn column(self, offset: usize, index: usize) -> Expr<'a>
        ensures { Writes self.entry.expressions.now
            (Variable (window_entry self.entry.table offset) index) result.now }
    {
        let Window { expressions, table } = self;
        match table {
            Table::Main => expressions.variable(BaseEntry::Main { offset }, index),
            Table::Preprocessed => expressions.variable(BaseEntry::Preprocessed { offset }, index),
        }
    }

    /// A column of the current row.
    pub fn current(self, index: usize) -> Expr<'a>
        ensures { Writes self.entry.expressions.now
            (Variable (window_entry self.entry.table 0) index) result.now }
    {
        self.column(0, index)
    }

    /// A column of the next row.
    pub fn next(self, index: usize) -> Expr<'a>
        ensures { Writes self.entry.expressions.now
            (Variable (window_entry self.entry.table 1) index) result.now }
    {
        self.column(1, index)
    }
}

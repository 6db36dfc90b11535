//! Columns of the main trace.
ghost use Rattle.std.specs.Prelude.{◌≡◌, ◌+◌, ◌<◌, ◌^◌, ◌↔◌, IsTrue};
ghost use Rattle.air_core.specs.declared.variables.entry.BaseEntry.TheVariants.{Main};
ghost use Rattle.p3_air.specs.HandleSteps.{Writes};
ghost use Rattle.air_draft.specs.declared.step.Step.TheVariants.{Variable};

use crate::expressions::nodes::Expressions;
use crate::expressions::view::Expr;
use air_core::{AirError, BaseEntry};

/// A column of the main trace.
#[derive(Clone, Copy)]
pub struct Column<'a> {
    pub(crate) expressions: &'a Expressions,
    pub(crate) index: usize,
}

impl<'a> Column<'a> {
    /// The column of an index.
    pub fn new(expressions: &'a Expressions, index: usize) -> Self
        ensures { (result.expressions.now ≡ expressions.now) × (result.index ≡ index) }
    {
        Column { expressions, index }
    }

    /// Its index in a row.
    pub fn index(self) -> usize
        ensures { result ≡ self.entry.index }
    {
        self.index
    }

    /// Its cell in the current row.
    pub fn current(self) -> Expr<'a>
        ensures { Writes self.entry.expressions.now (Variable (Main 0) self.entry.index)
            result.now }
    {
        self.expressions.current(self.index)
    }

    /// Its cell in the next row; after the last row comes the first.
    pub fn next(self) -> Expr<'a>
        ensures { Writes self.entry.expressions.now (Variable (Main 1) self.entry.index)
            result.now }
    {
        self.expressions.next(self.index)
    }
}

/// Columns of the main trace that lie side by side.
#[derive(Clone, Copy)]
pub struct Columns<'a> {
    pub(crate) expressions: &'a Expressions,
    pub(crate) first: usize,
    pub(crate) count: usize,
}

impl<'a> Columns<'a> {
    /// Columns from an index on.
    pub fn new(expressions: &'a Expressions, first: usize, count: usize) -> Self
        ensures { (result.expressions.now ≡ expressions.now) × (result.first ≡ first)
            × (result.count ≡ count) }
    {
        Columns {
            expressions,
            first,
            count,
        }
    }

    /// How many there are.
    pub fn len(self) -> usize
        ensures { result ≡ self.entry.count }
    {
        self.count
    }

    /// Whether there is none.
    pub fn is_empty(self) -> bool
        ensures { IsTrue result ↔ (self.entry.count ≡ 0) }
    {
        self.count == 0
    }

    /// The i-th of them. One past their end is refused in the end (`MissingEntry`).
    pub fn column(self, i: usize) -> Column<'a>
        ensures expressions { result.expressions.now ≡ self.entry.expressions.now }
        ensures index { self.entry.first + i < 2 ^ 64 → result.index ≡ self.entry.first + i }
    {
        let expressions = self.expressions;
        if i >= self.count {
            expressions.fail(AirError::MissingEntry {
                entry: BaseEntry::Main { offset: 0 },
                index: i,
            });
        }
        Column {
            expressions,
            index: self.first.wrapping_add(i),
        }
    }

    /// The i-th cell in the current row.
    pub fn current(self, i: usize) -> Expr<'a>
        ensures { self.entry.first + i < 2 ^ 64 →
            Writes self.entry.expressions.now (Variable (Main 0) (self.entry.first + i)) result.now }
    {
        self.column(i).current()
    }

    /// The i-th cell in the next row.
    pub fn next(self, i: usize) -> Expr<'a>
        ensures { self.entry.first + i < 2 ^ 64 →
            Writes self.entry.expressions.now (Variable (Main 1) (self.entry.first + i)) result.now }
    {
        self.column(i).next()
    }

    /// The sum of 2^i times the i-th cell in the current row; 0 for none. Of bits it is the number that they pack, the
    /// lowest first.
    pub fn pack(self) -> Expr<'a> {
        let mut packed = self.expressions.number(0);
        for i in 0..self.count {
            packed = packed.double() + self.current(self.count - 1 - i);
        }
        packed
    }
}

//! Constraints in the making.
ghost use Rattle.std.specs.Prelude.{◌≡◌, [], None, map};
ghost use Rattle.air_draft.specs.DraftEntries.{AddsColumns, AddsBoundary};
ghost use Rattle.air_draft.specs.declared.claim.Claimed.TheVariants.{Zero, One, Bool, Equal};
ghost use Rattle.air_draft.specs.declared.claim.Factor.TheVariants.{FirstRow, LastRow, Transition, Nonzero, Different};
ghost use Rattle.p3_air.specs.HandleClaims.{ClaimsOf, ClaimsOfBoth, AddsCondition, ConditionOf, ConditionOfBoth, AddsLabel};
ghost use Rattle.p3_air.specs.HandleLists.{ClaimsOfEach, ClaimsOfPairs};

use crate::expressions::columns::{Column, Columns};
use crate::expressions::nodes::Expressions;
use crate::expressions::view::Expr;
use crate::handles::claims::Claims;
use air_core::boundary::{BoundaryEnd, BoundaryPublic};
use air_draft::{Factor, Notes};
use std::alloc::Global;

/// Constraints in the making: it takes claims of expressions, and makes the AIR in the end.
///
/// Nothing is refused while it is written: what goes wrong first is kept, and [`Constraints::into_air`] answers it.
#[derive(Drop)]
pub struct Constraints<'a> {
    pub(crate) expressions: &'a Expressions,
    pub(crate) notes: Notes,
}

impl<'a> Constraints<'a> {
    /// No constraints yet, of a main trace of `width` columns. ([`Constraints::column`] adds more.) Claims are of
    /// these expressions.
    pub fn new(alloc: Global, expressions: &'a Expressions, width: usize) -> Self
        ensures expressions { result.expressions.now ≡ expressions.now }
        ensures width { result.notes.width ≡ width }
        ensures public_values { result.notes.num_public_values ≡ 0 }
        ensures boundary { result.notes.boundary.items ≡ [] }
        ensures conditions { result.notes.conditions.items ≡ [] }
        ensures labels { result.notes.labels.items ≡ [] }
        ensures claims { result.notes.claims.items ≡ [] }
        ensures fault { result.notes.fault ≡ None }
    {
        Constraints {
            expressions,
            notes: Notes::new(alloc, width),
        }
    }

    /// With this number of public values.
    pub fn with_public_values(self, count: usize) -> Self
        ensures { result ≡ record self.entry {
          notes = record self.entry.notes {
            num_public_values = count;
          };
        } }
    {
        let mut constraints = self;
        constraints.notes.num_public_values = count;
        constraints
    }

    /// With a boundary value: the cell of a column in the first or the last row holds a public value.
    pub fn with_boundary(self, column: usize, end: BoundaryEnd, public_value: usize) -> Self
        ensures expressions { result.expressions ≡ self.entry.expressions }
        ensures added { AddsBoundary
            (record { column = column; end = end; public_value = public_value }) self.entry.notes
            result.notes }
    {
        let mut constraints = self;
        let cell = BoundaryPublic::new(column, end, public_value);
        constraints.notes.add_boundary(cell);
        constraints
    }

    /// Adds a column to the main trace.
    pub fn column(&mut self) -> Column<'a>
        ensures column { (result.expressions.now ≡ self.old.expressions.now)
            × (result.index ≡ self.old.notes.width) }
        ensures same { self.new.expressions ≡ self.old.expressions }
        ensures added { AddsColumns 1 self.old.notes self.new.notes }
    {
        let index = self.notes.columns(1);
        Column::new(self.expressions, index)
    }

    /// Adds columns to the main trace, which lie side by side.
    pub fn columns(&mut self, count: usize) -> Columns<'a>
        ensures columns { (result.expressions.now ≡ self.old.expressions.now)
            × (result.first ≡ self.old.notes.width) × (result.count ≡ count) }
        ensures same { self.new.expressions ≡ self.old.expressions }
        ensures added { AddsColumns count self.old.notes self.new.notes }
    {
        let first = self.notes.columns(count);
        Columns::new(self.expressions, first, count)
    }

    /// Claims that `x` is zero.
    pub fn assert_zero(&mut self, x: Expr)
        ensures { ClaimsOf Zero x.now None None self.old self.new }
    {
        self.zero(x, None, None);
    }

    /// Claims that `x` is one.
    pub fn assert_one(&mut self, x: Expr)
        ensures { ClaimsOf One x.now None None self.old self.new }
    {
        self.one(x, None, None);
    }

    /// Claims that `x` is zero or one.
    pub fn assert_bool(&mut self, x: Expr)
        ensures { ClaimsOf Bool x.now None None self.old self.new }
    {
        self.bit(x, None, None);
    }

    /// Claims that both are equal.
    pub fn assert_eq(&mut self, x: Expr, y: Expr)
        ensures { ClaimsOfBoth Equal x.now y.now None None self.old self.new }
    {
        self.equal(x, y, None, None);
    }

    /// Claims that each is zero.
    pub fn assert_zeros(&mut self, xs: &[Expr])
        ensures { ClaimsOfEach Zero (map (λ x. x.now) xs.now) None None self.old self.new }
    {
        self.zeros(xs, None, None);
    }

    /// Claims that each is zero or one.
    pub fn assert_bools(&mut self, xs: &[Expr])
        ensures { ClaimsOfEach Bool (map (λ x. x.now) xs.now) None None self.old self.new }
    {
        self.bits(xs, None, None);
    }

    /// Claims that both lists are equal, place by place. Lists of two lengths are refused in the end (`Ragged`).
    pub fn assert_eq_arrays(&mut self, xs: &[Expr], ys: &[Expr])
        ensures { ClaimsOfPairs Equal (map (λ x. x.now) xs.now) (map (λ y. y.now) ys.now) None
            None self.old self.new }
    {
        self.equals(xs, ys, None, None);
    }

    /// Where claims hold on every row, without a label.
    pub fn everywhere(&mut self) -> Claims<'_, 'a>
        ensures same { result.c.ghost_name ≡ self.entry.ghost_name }
        ensures place { (result.condition ≡ None) × (result.label ≡ None) }
        ensures adds { result.c.now ≡ self.old }
    {
        Claims {
            c: self,
            condition: None,
            label: None,
        }
    }

    /// Where the condition isn't zero.
    pub fn when(&mut self, condition: Expr) -> Claims<'_, 'a>
        ensures same { result.c.ghost_name ≡ self.entry.ghost_name }
        ensures place { result.label ≡ None }
        ensures adds { ConditionOf Nonzero condition.now None result.condition self.old
            result.c.now }
    {
        let condition = self.nonzero(None, condition);
        Claims {
            c: self,
            condition,
            label: None,
        }
    }

    /// Where both differ.
    pub fn when_ne(&mut self, x: Expr, y: Expr) -> Claims<'_, 'a>
        ensures same { result.c.ghost_name ≡ self.entry.ghost_name }
        ensures place { result.label ≡ None }
        ensures adds { ConditionOfBoth Different x.now y.now None result.condition self.old
            result.c.now }
    {
        let condition = self.different(None, x, y);
        Claims {
            c: self,
            condition,
            label: None,
        }
    }

    /// On the first row.
    pub fn when_first_row(&mut self) -> Claims<'_, 'a>
        ensures same { result.c.ghost_name ≡ self.entry.ghost_name }
        ensures place { result.label ≡ None }
        ensures adds { AddsCondition FirstRow None result.condition self.old result.c.now }
    {
        let condition = self.under(None, Factor::FirstRow);
        Claims {
            c: self,
            condition,
            label: None,
        }
    }

    /// On the last row.
    pub fn when_last_row(&mut self) -> Claims<'_, 'a>
        ensures same { result.c.ghost_name ≡ self.entry.ghost_name }
        ensures place { result.label ≡ None }
        ensures adds { AddsCondition LastRow None result.condition self.old result.c.now }
    {
        let condition = self.under(None, Factor::LastRow);
        Claims {
            c: self,
            condition,
            label: None,
        }
    }

    /// On all rows but the last.
    pub fn when_transition(&mut self) -> Claims<'_, 'a>
        ensures same { result.c.ghost_name ≡ self.entry.ghost_name }
        ensures place { result.label ≡ None }
        ensures adds { AddsCondition Transition None result.condition self.old result.c.now }
    {
        let condition = self.under(None, Factor::Transition);
        Claims {
            c: self,
            condition,
            label: None,
        }
    }

    /// Under a label.
    pub fn named(&mut self, label: &str) -> Claims<'_, 'a>
        ensures same { result.c.ghost_name ≡ self.entry.ghost_name }
        ensures place { result.condition ≡ None }
        ensures adds { AddsLabel label.now None result.label self.old result.c.now }
    {
        let label = self.label(None, label);
        Claims {
            c: self,
            condition: None,
            label,
        }
    }
}

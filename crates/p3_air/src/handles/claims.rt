//! Groups: where claims are made, under conditions and a label.
ghost use Rattle.std.specs.Prelude.{◌≡◌, map};
ghost use Rattle.air_core.specs.Texts.{element_text};
ghost use Rattle.air_draft.specs.declared.claim.Claimed.TheVariants.{Zero, One, Bool, Equal};
ghost use Rattle.air_draft.specs.declared.claim.Factor.TheVariants.{FirstRow, LastRow, Transition, Nonzero, Different};
ghost use Rattle.p3_air.specs.HandleClaims.{ClaimsOf, ClaimsOfBoth, AddsCondition, ConditionOf, ConditionOfBoth, AddsLabel, AddsIndexLabel};
ghost use Rattle.p3_air.specs.HandleLists.{ClaimsOfEach, ClaimsOfPairs};

use crate::expressions::view::Expr;
use crate::handles::constraints::Constraints;
use air_draft::{Claimed, Factor};

/// Where claims are made: under conditions and a label, if there are any. It may be used for several claims; a further
/// condition or label takes it. While it is used, the constraints are borrowed.
///
/// A claim under conditions is asserted times their factors: `when(a).when(b).assert_zero(x)` asserts that a (b x) is
/// zero.
pub struct Claims<'c, 'a> {
    pub(crate) c: &'c mut Constraints<'a>,
    pub(crate) condition: Option<usize>,
    pub(crate) label: Option<usize>,
}

impl Drop for Claims<'_, '_> {
    fn drop(self)
        ensures { self.exit.0.now ≡ self.entry.c.now }
    {
        let Claims {
            c: _,
            condition: _,
            label: _,
        } = self;
    }
}

impl<'c, 'a> Claims<'c, 'a> {
    /// Claims that `x` is zero.
    pub fn assert_zero(&mut self, x: Expr)
        ensures same { self.new.c.ghost_name ≡ self.old.c.ghost_name }
        ensures place { (self.new.condition ≡ self.old.condition) × (self.new.label ≡
            self.old.label) }
        ensures claims { ClaimsOf Zero x.now self.old.condition self.old.label self.old.c.now
            self.new.c.now }
    {
        self.c.zero(x, self.condition, self.label);
    }

    /// Claims that `x` is one.
    pub fn assert_one(&mut self, x: Expr)
        ensures same { self.new.c.ghost_name ≡ self.old.c.ghost_name }
        ensures place { (self.new.condition ≡ self.old.condition) × (self.new.label ≡
            self.old.label) }
        ensures claims { ClaimsOf One x.now self.old.condition self.old.label self.old.c.now
            self.new.c.now }
    {
        self.c.one(x, self.condition, self.label);
    }

    /// Claims that `x` is zero or one.
    pub fn assert_bool(&mut self, x: Expr)
        ensures same { self.new.c.ghost_name ≡ self.old.c.ghost_name }
        ensures place { (self.new.condition ≡ self.old.condition) × (self.new.label ≡
            self.old.label) }
        ensures claims { ClaimsOf Bool x.now self.old.condition self.old.label self.old.c.now
            self.new.c.now }
    {
        self.c.bit(x, self.condition, self.label);
    }

    /// Claims that both are equal.
    pub fn assert_eq(&mut self, x: Expr, y: Expr)
        ensures same { self.new.c.ghost_name ≡ self.old.c.ghost_name }
        ensures place { (self.new.condition ≡ self.old.condition) × (self.new.label ≡
            self.old.label) }
        ensures claims { ClaimsOfBoth Equal x.now y.now self.old.condition self.old.label
            self.old.c.now self.new.c.now }
    {
        self.c.equal(x, y, self.condition, self.label);
    }

    /// Writes a claim down, under the label of an index where there is a label.
    pub(crate) fn claim_at(&mut self, i: usize, claimed: Claimed) {
        let label = self.c.index_label(self.label, i);
        self.c.claim(claimed, self.condition, label);
    }

    /// Claims that each is zero, the i-th under the label `label::[i]` where there is a label.
    pub fn assert_zeros(&mut self, xs: &[Expr])
        ensures same { self.new.c.ghost_name ≡ self.old.c.ghost_name }
        ensures place { (self.new.condition ≡ self.old.condition) × (self.new.label ≡
            self.old.label) }
        ensures claims { ClaimsOfEach Zero (map (λ x. x.now) xs.now) self.old.condition
            self.old.label self.old.c.now self.new.c.now }
    {
        self.c.zeros(xs, self.condition, self.label);
    }

    /// Claims that each is zero or one, the i-th under the label `label::[i]` where there is a label.
    pub fn assert_bools(&mut self, xs: &[Expr])
        ensures same { self.new.c.ghost_name ≡ self.old.c.ghost_name }
        ensures place { (self.new.condition ≡ self.old.condition) × (self.new.label ≡
            self.old.label) }
        ensures claims { ClaimsOfEach Bool (map (λ x. x.now) xs.now) self.old.condition
            self.old.label self.old.c.now self.new.c.now }
    {
        self.c.bits(xs, self.condition, self.label);
    }

    /// Claims that both lists are equal, place by place; the i-th claim has the label `label::[i]` where there is a
    /// label. Lists of two lengths are refused in the end (`Ragged`).
    pub fn assert_eq_arrays(&mut self, xs: &[Expr], ys: &[Expr])
        ensures same { self.new.c.ghost_name ≡ self.old.c.ghost_name }
        ensures place { (self.new.condition ≡ self.old.condition) × (self.new.label ≡
            self.old.label) }
        ensures claims { ClaimsOfPairs Equal (map (λ x. x.now) xs.now) (map (λ y. y.now) ys.now)
            self.old.condition self.old.label self.old.c.now self.new.c.now }
    {
        self.c.equals(xs, ys, self.condition, self.label);
    }

    /// Where the condition isn't zero.
    pub fn when(self, condition: Expr) -> Claims<'c, 'a>
        ensures same { result.c.ghost_name ≡ self.entry.c.ghost_name }
        ensures place { result.label ≡ self.entry.label }
        ensures adds { ConditionOf Nonzero condition.now self.entry.condition result.condition
            self.entry.c.now
            result.c.now }
    {
        let Claims {
            c,
            condition: outer,
            label,
        } = self;
        let condition = c.nonzero(outer, condition);
        Claims {
            c,
            condition,
            label,
        }
    }

    /// Where both differ.
    pub fn when_ne(self, x: Expr, y: Expr) -> Claims<'c, 'a>
        ensures same { result.c.ghost_name ≡ self.entry.c.ghost_name }
        ensures place { result.label ≡ self.entry.label }
        ensures adds { ConditionOfBoth Different x.now y.now self.entry.condition result.condition
            self.entry.c.now result.c.now }
    {
        let Claims {
            c,
            condition: outer,
            label,
        } = self;
        let condition = c.different(outer, x, y);
        Claims {
            c,
            condition,
            label,
        }
    }

    /// On the first row.
    pub fn when_first_row(self) -> Claims<'c, 'a>
        ensures same { result.c.ghost_name ≡ self.entry.c.ghost_name }
        ensures place { result.label ≡ self.entry.label }
        ensures adds { AddsCondition FirstRow self.entry.condition result.condition
            self.entry.c.now result.c.now }
    {
        let Claims {
            c,
            condition: outer,
            label,
        } = self;
        let condition = c.under(outer, Factor::FirstRow);
        Claims {
            c,
            condition,
            label,
        }
    }

    /// On the last row.
    pub fn when_last_row(self) -> Claims<'c, 'a>
        ensures same { result.c.ghost_name ≡ self.entry.c.ghost_name }
        ensures place { result.label ≡ self.entry.label }
        ensures adds { AddsCondition LastRow self.entry.condition result.condition
            self.entry.c.now result.c.now }
    {
        let Claims {
            c,
            condition: outer,
            label,
        } = self;
        let condition = c.under(outer, Factor::LastRow);
        Claims {
            c,
            condition,
            label,
        }
    }

    /// On all rows but the last.
    pub fn when_transition(self) -> Claims<'c, 'a>
        ensures same { result.c.ghost_name ≡ self.entry.c.ghost_name }
        ensures place { result.label ≡ self.entry.label }
        ensures adds { AddsCondition Transition self.entry.condition result.condition
            self.entry.c.now result.c.now }
    {
        let Claims {
            c,
            condition: outer,
            label,
        } = self;
        let condition = c.under(outer, Factor::Transition);
        Claims {
            c,
            condition,
            label,
        }
    }

    /// Under a label. Under a label that is there already, it is `outer::label`. An empty label is none.
    pub fn named(self, label: &str) -> Claims<'c, 'a>
        ensures same { result.c.ghost_name ≡ self.entry.c.ghost_name }
        ensures place { result.condition ≡ self.entry.condition }
        ensures adds { AddsLabel label.now self.entry.label result.label self.entry.c.now
            result.c.now }
    {
        let Claims {
            c,
            condition,
            label: outer,
        } = self;
        let label = c.label(outer, label);
        Claims {
            c,
            condition,
            label,
        }
    }

    /// Under the label `label::[index]`, where there is a label; without one nothing changes.
    pub fn at(self, index: usize) -> Claims<'c, 'a>
        ensures same { result.c.ghost_name ≡ self.entry.c.ghost_name }
        ensures place { result.condition ≡ self.entry.condition }
        ensures adds { AddsIndexLabel (element_text index) self.entry.label result.label
            self.entry.c.now
            result.c.now }
    {
        let Claims {
            c,
            condition,
            label: outer,
        } = self;
        let label = c.index_label(outer, index);
        Claims {
            c,
            condition,
            label,
        }
    }
}

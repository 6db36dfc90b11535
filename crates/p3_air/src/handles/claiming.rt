//! What claims note.
ghost use Rattle.std.specs.Prelude.{◌≡◌, IsSome, map};
ghost use Rattle.air_core.specs.Texts.{element_text};
ghost use Rattle.air_draft.specs.declared.claim.Claimed.TheVariants.{Zero, One, Bool, Equal};
ghost use Rattle.air_draft.specs.declared.claim.Factor.TheVariants.{Nonzero, Different};
ghost use Rattle.p3_air.specs.HandleClaims.{OnlyFault, AddsClaim, ClaimsOf, ClaimsOfBoth, AddsCondition, ConditionOf, ConditionOfBoth, AddsLabel, AddsIndexLabel};
ghost use Rattle.p3_air.specs.HandleLists.{ClaimsOfEach, ClaimsOfPairs};

use crate::expressions::view::Expr;
use crate::handles::constraints::Constraints;
use air_core::AirError;
use air_draft::{Claim, Claimed, Factor};

impl<'a> Constraints<'a> {
    /// Notes a fault, if it is the first, also among those of the expressions.
    pub(crate) fn fail(&mut self, error: AirError)
        ensures noted { IsSome self.new.notes.fault }
        ensures others { OnlyFault self.old self.new }
    {
        match self.expressions.fault() {
            Some(first) => self.notes.fail(first),
            None => self.notes.fail(error),
        }
    }

    /// Writes a claim down.
    pub(crate) fn claim(&mut self, claimed: Claimed, condition: Option<usize>, label: Option<usize>)
        ensures { AddsClaim (record { claimed = claimed; condition = condition; label = label })
            self.old self.new }
    {
        self.notes.claim(Claim {
            claimed,
            condition,
            label,
        });
    }

    /// Claims that `x` is zero.
    pub(crate) fn zero(&mut self, x: Expr, condition: Option<usize>, label: Option<usize>)
        ensures { ClaimsOf Zero x.now condition label self.old self.new }
    {
        match self.expressions.number_of(x) {
            Ok(n) => self.claim(Claimed::Zero(n), condition, label),
            Err(error) => self.fail(error),
        }
    }

    /// Claims that `x` is one.
    pub(crate) fn one(&mut self, x: Expr, condition: Option<usize>, label: Option<usize>)
        ensures { ClaimsOf One x.now condition label self.old self.new }
    {
        match self.expressions.number_of(x) {
            Ok(n) => self.claim(Claimed::One(n), condition, label),
            Err(error) => self.fail(error),
        }
    }

    /// Claims that `x` is zero or one.
    pub(crate) fn bit(&mut self, x: Expr, condition: Option<usize>, label: Option<usize>)
        ensures { ClaimsOf Bool x.now condition label self.old self.new }
    {
        match self.expressions.number_of(x) {
            Ok(n) => self.claim(Claimed::Bool(n), condition, label),
            Err(error) => self.fail(error),
        }
    }

    /// Claims that both are equal.
    pub(crate) fn equal(&mut self, x: Expr, y: Expr, condition: Option<usize>, label: Option<usize>)
        ensures { ClaimsOfBoth Equal x.now y.now condition label self.old self.new }
    {
        match self.expressions.numbers_of(x, y) {
            Ok((m, n)) => self.claim(Claimed::Equal(m, n), condition, label),
            Err(error) => self.fail(error),
        }
    }

    /// Writes a condition down, under an outer one if there is one.
    pub(crate) fn under(&mut self, outer: Option<usize>, factor: Factor) -> Option<usize>
        ensures { AddsCondition factor outer result self.old self.new }
    {
        Some(self.notes.condition(outer, factor))
    }

    /// Where `x` isn't zero.
    pub(crate) fn nonzero(&mut self, outer: Option<usize>, x: Expr) -> Option<usize>
        ensures { ConditionOf Nonzero x.now outer result self.old self.new }
    {
        match self.expressions.number_of(x) {
            Ok(n) => self.under(outer, Factor::Nonzero(n)),
            Err(error) => {
                self.fail(error);
                None
            }
        }
    }

    /// Where both differ.
    pub(crate) fn different(&mut self, outer: Option<usize>, x: Expr, y: Expr) -> Option<usize>
        ensures { ConditionOfBoth Different x.now y.now outer result self.old self.new }
    {
        match self.expressions.numbers_of(x, y) {
            Ok((m, n)) => self.under(outer, Factor::Different(m, n)),
            Err(error) => {
                self.fail(error);
                None
            }
        }
    }

    /// Writes a label down, under an outer one if there is one.
    pub(crate) fn label(&mut self, outer: Option<usize>, text: &str) -> Option<usize>
        ensures { AddsLabel text.now outer result self.old self.new }
    {
        Some(self.notes.label(outer, text))
    }

    /// Writes the label of an index down, under an outer one; without one it is none.
    pub(crate) fn index_label(&mut self, outer: Option<usize>, index: usize) -> Option<usize>
        ensures { AddsIndexLabel (element_text index) outer result self.old self.new }
    {
        match outer {
            Some(_) => Some(self.notes.index_label(outer, index)),
            None => None,
        }
    }

    /// Claims that each is zero, the i-th under the label of i where there is an outer one.
    pub(crate) fn zeros(&mut self, xs: &[Expr], condition: Option<usize>, outer: Option<usize>)
        ensures { ClaimsOfEach Zero (map (λ x. x.now) xs.now) condition outer self.old self.new }
    {
        for (i, x) in xs.iter().enumerate() {
            let label = self.index_label(outer, i);
            self.zero(*x, condition, label);
        }
    }

    /// Claims that each is zero or one, the i-th under the label of i where there is an outer one.
    pub(crate) fn bits(&mut self, xs: &[Expr], condition: Option<usize>, outer: Option<usize>)
        ensures { ClaimsOfEach Bool (map (λ x. x.now) xs.now) condition outer self.old self.new }
    {
        for (i, x) in xs.iter().enumerate() {
            let label = self.index_label(outer, i);
            self.bit(*x, condition, label);
        }
    }

    /// Claims that both lists are equal, place by place, the i-th claim under the label of i where there is an outer
    /// one. Lists of two lengths leave a fault, and no claim.
    pub(crate) fn equals(
        &mut self,
        xs: &[Expr],
        ys: &[Expr],
        condition: Option<usize>,
        outer: Option<usize>,
    )
        ensures { ClaimsOfPairs Equal (map (λ x. x.now) xs.now) (map (λ y. y.now) ys.now)
            condition outer self.old self.new }
    {
        if xs.len() != ys.len() {
            self.fail(AirError::Ragged {
                len: ys.len(),
                width: xs.len(),
            });
            return;
        }
        for (i, x) in xs.iter().enumerate() {
            let label = self.index_label(outer, i);
            self.equal(*x, ys[i], condition, label);
        }
    }
}

//! Entries of the row: columns, periodic columns and public values. A missing entry is refused by its name.
ghost use Rattle.std.specs.Prelude.{◌≡◌, ◌↔◌, None, IfSome};
ghost use Rattle.air_field.specs.Term.{leaf_term};
ghost use Rattle.air_builder.specs.Notation.{current, next, periodic, preprocessed_current, preprocessed_next, public};
ghost use Rattle.air_core.specs.Entries.{entry_leaf};
ghost use Rattle.air_builder.specs.Builders.{VariableReadsAs};
ghost use Rattle.air_builder.specs.Refusals.{IsOfWindow};
ghost use Rattle.air_author.specs.Expressions.{MakesIn};

use crate::AirResult;
use crate::expressions::{Expression, element, entry_or, to_air_result};
use air_builder::{AirBuilder, AirError, View};
use air_core::BaseEntry;
use air_field::{Algebra, FromVar};

/// The expression of a variable that was looked up, or the error `missing` if there is none.
#[inline(always)]
fn make_found<AB: AirBuilder>(
    builder: &mut AB,
    found: Option<AB::Var>,
    entry: BaseEntry,
    index: usize,
) -> AirResult<AB::Expr>
    requires ready { AB.ready builder.old }
    requires found { IfSome found (VariableReadsAs AB.Ring.FromVar-1.var_means
        (AB.reads_as builder.old) (entry_leaf entry index)) }
    requires of_window { IsOfWindow entry }
    requires none { (found ≡ None) ↔ AB.missing builder.old (entry_leaf entry index) }
    ensures { MakesIn ⟦<AB as View>⟧.view builder.old builder.new result
        (leaf_term (entry_leaf entry index)) }
{
    let v = entry_or(found, AirError::MissingEntry { entry, index })?;
    to_air_result(builder.ring().from_var(v))
}

/// A column of the current row.
#[derive(Clone, Copy, Drop)]
pub struct Current(pub usize);

impl<AB: AirBuilder> Expression<AB> for Current {
    ghost term = { λ s. current s.0 };

    #[inline(always)]
    fn make(&self, builder: &mut AB) -> AirResult<AB::Expr> {
        let found = builder.main_variable(0, self.0);
        make_found(builder, found, BaseEntry::Main { offset: 0 }, self.0)
    }
}

/// A column of the next row.
#[derive(Clone, Copy, Drop)]
pub struct Next(pub usize);

impl<AB: AirBuilder> Expression<AB> for Next {
    ghost term = { λ s. next s.0 };

    #[inline(always)]
    fn make(&self, builder: &mut AB) -> AirResult<AB::Expr> {
        let found = builder.main_variable(1, self.0);
        make_found(builder, found, BaseEntry::Main { offset: 1 }, self.0)
    }
}

/// A column of the preprocessed trace's current row.
#[derive(Clone, Copy, Drop)]
pub struct PreprocessedCurrent(pub usize);

impl<AB: AirBuilder> Expression<AB> for PreprocessedCurrent {
    ghost term = { λ s. preprocessed_current s.0 };

    #[inline(always)]
    fn make(&self, builder: &mut AB) -> AirResult<AB::Expr> {
        let found = builder.preprocessed_variable(0, self.0);
        make_found(
            builder,
            found,
            BaseEntry::Preprocessed { offset: 0 },
            self.0,
        )
    }
}

/// A column of the preprocessed trace's next row.
#[derive(Clone, Copy, Drop)]
pub struct PreprocessedNext(pub usize);

impl<AB: AirBuilder> Expression<AB> for PreprocessedNext {
    ghost term = { λ s. preprocessed_next s.0 };

    #[inline(always)]
    fn make(&self, builder: &mut AB) -> AirResult<AB::Expr> {
        let found = builder.preprocessed_variable(1, self.0);
        make_found(
            builder,
            found,
            BaseEntry::Preprocessed { offset: 1 },
            self.0,
        )
    }
}

/// A public value.
#[derive(Clone, Copy, Drop)]
pub struct Public(pub usize);

impl<AB: AirBuilder> Expression<AB> for Public {
    ghost term = { λ s. public s.0 };

    #[inline(always)]
    fn make(&self, builder: &mut AB) -> AirResult<AB::Expr> {
        let entry = BaseEntry::Public;
        let index = self.0;
        let missing = AirError::MissingEntry { entry, index };
        let v = entry_or(element(builder.public_values(), index), missing)?;
        to_air_result(builder.ring().from_var(v))
    }
}

/// The value of a periodic column.
#[derive(Clone, Copy, Drop)]
pub struct Periodic(pub usize);

impl<AB: AirBuilder> Expression<AB> for Periodic {
    ghost term = { λ s. periodic s.0 };

    #[inline(always)]
    fn make(&self, builder: &mut AB) -> AirResult<AB::Expr> {
        let entry = BaseEntry::Periodic;
        let index = self.0;
        let missing = AirError::MissingEntry { entry, index };
        let v = entry_or(element(builder.periodic_values(), index), missing)?;
        to_air_result(builder.ring().from_var(v))
    }
}

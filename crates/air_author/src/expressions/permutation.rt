//! Entries of the permutation trace, its challenges and its exposed values. A missing entry is refused by its name; if
//! the builder has no permutation trace, each of its columns is refused with `NoPermutation`.
ghost use Rattle.std.specs.Prelude.{◌≤◌};
ghost use Rattle.air_field.specs.Term.{permutation, leaf_term};
ghost use Rattle.air_builder.specs.Notation.{challenge, permutation_current, permutation_next, permutation_value};
ghost use Rattle.air_author.specs.Expressions.{MakesIn};

use crate::AirResult;
use crate::expressions::{ExtExpression, element, entry_or, to_air_result};
use air_builder::{AirError, PermutationAirBuilder, ViewOver};
use air_core::ExtEntry;
use air_field::{Algebra, FromVar};

/// The expression of a column of the permutation trace: at offset 0 of the current row, at 1 of the next row.
#[inline(always)]
fn make_column<AB: PermutationAirBuilder>(
    builder: &mut AB,
    offset: usize,
    index: usize,
) -> AirResult<AB::ExprEF>
where
    AB::ExtRing: FromVar<AB::F, AB::RandomVar> + FromVar<AB::F, AB::PermutationVar>,
    requires ready { AB.ready builder.old }
    requires within { offset ≤ 1 }
    ensures { MakesIn ⟦<AB as ViewOver>⟧.view builder.old builder.new result
        (leaf_term (permutation offset index)) }
{
    let found = builder.permutation_variable(offset, index)?;
    let entry = ExtEntry::Permutation { offset };
    let missing = AirError::MissingExtEntry { entry, index };
    let v = entry_or(found, missing)?;
    to_air_result(builder.ext_ring().from_var(v))
}

/// A column of the permutation trace's current row.
#[derive(Clone, Copy, Drop)]
pub struct PermutationCurrent(pub usize);

impl<AB: PermutationAirBuilder> ExtExpression<AB> for PermutationCurrent
where
    AB::ExtRing: FromVar<AB::F, AB::RandomVar> + FromVar<AB::F, AB::PermutationVar>,
{
    ghost ext_term = { λ s. permutation_current s.0 };

    #[inline(always)]
    fn make_ext(&self, builder: &mut AB) -> AirResult<AB::ExprEF> {
        make_column(builder, 0, self.0)
    }
}

/// A column of the permutation trace's next row.
#[derive(Clone, Copy, Drop)]
pub struct PermutationNext(pub usize);

impl<AB: PermutationAirBuilder> ExtExpression<AB> for PermutationNext
where
    AB::ExtRing: FromVar<AB::F, AB::RandomVar> + FromVar<AB::F, AB::PermutationVar>,
{
    ghost ext_term = { λ s. permutation_next s.0 };

    #[inline(always)]
    fn make_ext(&self, builder: &mut AB) -> AirResult<AB::ExprEF> {
        make_column(builder, 1, self.0)
    }
}

/// A random challenge.
#[derive(Clone, Copy, Drop)]
pub struct Challenge(pub usize);

impl<AB: PermutationAirBuilder> ExtExpression<AB> for Challenge
where
    AB::ExtRing: FromVar<AB::F, AB::RandomVar> + FromVar<AB::F, AB::PermutationVar>,
{
    ghost ext_term = { λ s. challenge s.0 };

    #[inline(always)]
    fn make_ext(&self, builder: &mut AB) -> AirResult<AB::ExprEF> {
        let entry = ExtEntry::Challenge;
        let index = self.0;
        let missing = AirError::MissingExtEntry { entry, index };
        let v = entry_or(element(builder.permutation_randomness(), index), missing)?;
        to_air_result(builder.ext_ring().from_var(v))
    }
}

/// A value that the permutation argument exposes.
#[derive(Clone, Copy, Drop)]
pub struct PermutationValue(pub usize);

impl<AB: PermutationAirBuilder> ExtExpression<AB> for PermutationValue
where
    AB::ExtRing: FromVar<AB::F, AB::RandomVar> + FromVar<AB::F, AB::PermutationVar>,
{
    ghost ext_term = { λ s. permutation_value s.0 };

    #[inline(always)]
    fn make_ext(&self, builder: &mut AB) -> AirResult<AB::ExprEF> {
        let entry = ExtEntry::PermutationValue;
        let index = self.0;
        let missing = AirError::MissingExtEntry { entry, index };
        let v = entry_or(element(builder.permutation_values(), index), missing)?;
        to_air_result(builder.ext_ring().from_var(v))
    }
}

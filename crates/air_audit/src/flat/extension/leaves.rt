//! The expressions of leaves over the extension.
ghost use Rattle.air_field.specs.Term.{leaf_term};
ghost use Rattle.air_core.specs.ExtEntries.{ext_entry_leaf};
ghost use Rattle.air_author.specs.Expressions.{MakesIn};
ghost use Rattle.air_audit.specs.ExtPlans.{IsOfExtWindow};

use air_author::{Challenge, ExtExpression, PermutationCurrent, PermutationNext, PermutationValue};
use air_builder::{AirError, PermutationAirBuilder, ViewOver};
use air_field::{Algebra, FromVar};
use air_symbolic::{ExtEntry, SymbolicVariableExt};

/// Makes the expression of a variable, which a window has.
pub(crate) fn make_ext_variable<AB: PermutationAirBuilder>(
    builder: &mut AB,
    variable: SymbolicVariableExt<AB::F, AB::EF>,
) -> Result<AB::ExprEF, AirError>
where
    AB::ExtRing: FromVar<AB::F, AB::RandomVar> + FromVar<AB::F, AB::PermutationVar>,
    requires ready { AB.ready builder.old }
    requires window { IsOfExtWindow variable.entry }
    ensures { MakesIn ⟦<AB as ViewOver>⟧.view builder.old builder.new result
        (leaf_term (ext_entry_leaf variable.entry variable.index)) }
{
    let index = variable.index;
    match variable.entry {
        ExtEntry::Permutation { offset } => match offset {
            0 => PermutationCurrent(index).make_ext(builder),
            1 => PermutationNext(index).make_ext(builder),
            _ => unreachable!(),
        },
        ExtEntry::Challenge => Challenge(index).make_ext(builder),
        ExtEntry::PermutationValue => PermutationValue(index).make_ext(builder),
    }
}

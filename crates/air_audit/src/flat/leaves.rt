//! The expressions of leaves.
ghost use Rattle.air_field.specs.Term.{leaf_term};
ghost use Rattle.air_core.specs.Entries.{entry_leaf};
ghost use Rattle.air_symbolic.specs.BaseLeaves.{base_term};
ghost use Rattle.air_author.specs.Expressions.{MakesIn};

use air_author::{
    Constant, Current, Expression, FirstRow, LastRow, Next, Periodic, PreprocessedCurrent,
    PreprocessedNext, Public,
};
use air_builder::{AirBuilder, AirError, View};
use air_field::Algebra;
use air_symbolic::{BaseEntry, BaseLeaf, SymbolicVariable};

// A variable; a window has only the rows 0 and 1.
fn make_variable<AB: AirBuilder>(
    builder: &mut AB,
    variable: SymbolicVariable<AB::F>,
) -> Result<AB::Expr, AirError>
    requires { AB.ready builder.old }
    ensures { MakesIn ⟦<AB as View>⟧.view builder.old builder.new result
        (leaf_term (entry_leaf variable.entry variable.index)) }
{
    let index = variable.index;
    match variable.entry {
        BaseEntry::Preprocessed { offset } => match offset {
            0 => PreprocessedCurrent(index).make(builder),
            1 => PreprocessedNext(index).make(builder),
            _ => Err(AirError::RowOffset { offset }),
        },
        BaseEntry::Main { offset } => match offset {
            0 => Current(index).make(builder),
            1 => Next(index).make(builder),
            _ => Err(AirError::RowOffset { offset }),
        },
        BaseEntry::Periodic => Periodic(index).make(builder),
        BaseEntry::Public => Public(index).make(builder),
    }
}

/// Makes the expression of a leaf.
pub(crate) fn make_leaf<AB: AirBuilder>(
    builder: &mut AB,
    leaf: BaseLeaf<AB::F>,
) -> Result<AB::Expr, AirError>
    requires { AB.ready builder.old }
    ensures { MakesIn ⟦<AB as View>⟧.view builder.old builder.new result
        (base_term leaf) }
{
    match leaf {
        BaseLeaf::Variable(variable) => make_variable(builder, variable),
        BaseLeaf::IsFirstRow => FirstRow.make(builder),
        BaseLeaf::IsLastRow => LastRow.make(builder),
        BaseLeaf::IsTransition => builder.is_transition_window(2),
        BaseLeaf::Constant(c) => Constant(c).make(builder),
    }
}

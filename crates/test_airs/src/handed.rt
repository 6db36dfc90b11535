//! An AIR with a gadget that receives an expression.
ghost use Rattle.air_builder.specs.Batches.{AssertedIn, Evaluates};
ghost use Rattle.air_builder.specs.Notation.{next, transition, when, ◌≐◌};
ghost use Rattle.air_author.specs.Expressions.{AlwaysAfter, IsUsableIn};
ghost use Rattle.test_airs.specs.Handed.{handed_asserts};

use air_audit::author::{
    Already, Current, Equal, Expression, Next, Sum, Transition, When, assert_these,
};
use air_audit::{AirBuilder, AirError, View};

/// The gadget: column 1 of the next row equals x, an expression made from a value.
fn next_is<AB: AirBuilder, X: Expression<AB>>(
    builder: &mut AB,
    x: AB::Expr,
    value: &X,
) -> Result<(), AirError>
    requires ready { AB.ready builder.old }
    requires usable { AlwaysAfter AB.kept (IsUsableIn ⟦<AB as View>⟧.view x (X.term value.now))
        builder.old }
    ensures { AssertedIn ⟦<AB as View>⟧.view builder.old builder.new result
        (when transition (next 1 ≐ X.term value.now)) }
{
    assert_these(
        builder,
        &When(Transition, Equal(Next(1), Already(x, value))),
    )
}

/// Column 1 of the next row is the sum of this row's columns 0 and 1.
pub fn assert_handed<AB: AirBuilder>(builder: &mut AB) -> Result<(), AirError>
    requires { AB.ready builder.old }
    ensures { Evaluates ⟦<AB as View>⟧.view builder.old builder.new result handed_asserts }
{
    let sum = Sum(Current(0), Current(1));
    let x = sum.make(builder)?;
    next_is(builder, x, &sum)
}

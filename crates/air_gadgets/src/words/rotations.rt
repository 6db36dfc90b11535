//! The xor of a word with a rotated one, as assertions.
ghost use Rattle.std.specs.Prelude.{◌≡◌, ◌<◌, ◌≤◌, ◌∷◌, [], length};
ghost use Rattle.air_field.specs.Algebra.{bool_check_term};
ghost use Rattle.air_builder.specs.Assertion.{Base};
ghost use Rattle.air_builder.specs.Batches.{AssertsOf, AssertedEachIn};
ghost use Rattle.air_gadgets.specs.Gadgets.{VariableMeansIn, HalfOf, Xors, AssertedSuchIn};

use crate::words::xors::{less_packed, rotate_left};
use air_builder::{AirBuilder, AirError, View};
use air_field::{Algebra, Field, FromVar};

/// Asserts that a variable is zero or one.
fn assert_bit<AB: AirBuilder>(builder: &mut AB, variable: AB::Var) -> Result<(), AirError>
    requires { AB.ready builder.old }
    ensures { AssertedEachIn ⟦<AB as View>⟧.view (AssertsOf Base
        (VariableMeansIn ⟦<AB as View>⟧.view AB.Ring.FromVar-1.var_means)
        (bool_check_term AB.F.ONE)) builder.old builder.new (variable ∷ []) result }
{
    let element = builder.ring().from_var(variable)?;
    builder.assert_bool(element)
}

/// Asserts that each variable is zero or one, in order.
fn assert_bits<AB: AirBuilder>(builder: &mut AB, variables: &[AB::Var]) -> Result<(), AirError>
    requires { AB.ready builder.old }
    ensures { AssertedEachIn ⟦<AB as View>⟧.view (AssertsOf Base
        (VariableMeansIn ⟦<AB as View>⟧.view AB.Ring.FromVar-1.var_means)
        (bool_check_term AB.F.ONE)) builder.old builder.new variables.now result }
{
    for variable in variables {
        assert_bit(builder, *variable)?;
    }
    Ok(())
}

/// Asserts that a limb is the packed xor of two lists of variables.
fn assert_half<AB: AirBuilder>(
    builder: &mut AB,
    limb: AB::Var,
    b: &[AB::Var],
    c: &[AB::Var],
) -> Result<(), AirError>
    requires ready { AB.ready builder.old }
    requires some { 0 < length b.now }
    requires same { length b.now ≡ length c.now }
    ensures { AssertedEachIn ⟦<AB as View>⟧.view (HalfOf AB.F.ring
        (VariableMeansIn ⟦<AB as View>⟧.view AB.Ring.FromVar-1.var_means)) builder.old builder.new
        ((limb, b.now, c.now) ∷ []) result }
{
    let difference = less_packed(builder.ring(), limb, b, c)?;
    builder.assert_zero(difference)
}

/// Asserts that `c` is made of bits, and that the word `a` is the xor of `b` and of `c` rotated to the left by `shift`,
/// which must be at most 32. Bits are listed lowest first, and the lower limb first.
///
/// # Correctness
///
/// That `b` is made of bits isn't asserted: assert it yourself. If it is, the assertion is exact in a field in which a
/// product is zero only if a factor is ([`words_are_exact`](crate::laws::words_are_exact)): the limbs of `a` are the
/// images of the word's halves. They determine the word only in a field of characteristic at least 2^16.
pub fn xor_32_shift<AB: AirBuilder>(
    builder: &mut AB,
    a: &[AB::Var; 2],
    b: &[AB::Var; 32],
    c: &[AB::Var; 32],
    shift: usize,
) -> Result<(), AirError>
    requires ready { AB.ready builder.old }
    requires within { shift ≤ 32 }
    ensures { AssertedSuchIn ⟦<AB as View>⟧.view (Xors AB.F.ring
        (VariableMeansIn ⟦<AB as View>⟧.view AB.Ring.FromVar-1.var_means builder.old) a.now b.now
        c.now shift) builder.old builder.new result }
{
    let [a0, a1] = *a;
    let rotated = rotate_left(c, shift);
    let own = b.as_slice();
    let others = rotated.as_slice();
    assert_bits(builder, c)?;
    assert_half(builder, a0, &own[..16], &others[..16])?;
    assert_half(builder, a1, &own[16..], &others[16..])
}

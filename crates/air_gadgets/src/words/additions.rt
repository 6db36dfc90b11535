//! Sums of words as assertions.
ghost use Rattle.std.specs.Prelude.{All};
ghost use Rattle.air_builder.specs.Builders.{MeansIn};
ghost use Rattle.air_gadgets.specs.Gadgets.{Adds2, Adds3, VariableMeansIn, AssertedSuchIn};

use crate::words::sums::{sum_of_three, sum_of_two};
use air_builder::{AirBuilder, AirError, View};
use air_field::{Algebra, Field, FromVar};

/// Asserts a = b + c modulo 2^32, for words of two limbs of 16 bits, the lower one first.
///
/// # Correctness
///
/// That the limbs have 16 bits isn't asserted: check their ranges yourself. If they do, the assertion is exact in a
/// field of characteristic above 2^17 in which a product is zero only if a factor is
/// ([`words_are_exact`](crate::laws::words_are_exact)): a - b - c is 0 or -2^32, and the difference of the low limbs is
/// 0 or -2^16, which fixes the carry.
pub fn add2<AB: AirBuilder>(
    builder: &mut AB,
    a: &[AB::Var; 2],
    b: &[AB::Var; 2],
    c: &[AB::Expr; 2],
) -> Result<(), AirError>
    requires ready { AB.ready builder.old }
    requires c_in { All (AB.Ring.has (AB.ring_of builder.old)) c.now }
    ensures { AssertedSuchIn ⟦<AB as View>⟧.view (Adds2 AB.F.ring
        (VariableMeansIn ⟦<AB as View>⟧.view AB.Ring.FromVar-1.var_means builder.old)
        (MeansIn ⟦<AB as View>⟧.view builder.old) a.now b.now c.now) builder.old builder.new
        result }
{
    let elements = sum_of_two(builder.ring(), a, b, c)?;
    builder.assert_zeros_slice(&elements)
}

/// Asserts a = b + c + d modulo 2^32, for words of two limbs of 16 bits, the lower one first.
///
/// # Correctness
///
/// That the limbs have 16 bits isn't asserted: check their ranges yourself. If they do, the assertion is exact in a
/// field of characteristic above 3 · 2^16 in which a product is zero only if a factor is
/// ([`words_are_exact`](crate::laws::words_are_exact)); each carry may be 0, 1 or 2.
pub fn add3<AB: AirBuilder>(
    builder: &mut AB,
    a: &[AB::Var; 2],
    b: &[AB::Var; 2],
    c: &[AB::Expr; 2],
    d: &[AB::Expr; 2],
) -> Result<(), AirError>
    requires ready { AB.ready builder.old }
    requires c_in { All (AB.Ring.has (AB.ring_of builder.old)) c.now }
    requires d_in { All (AB.Ring.has (AB.ring_of builder.old)) d.now }
    ensures { AssertedSuchIn ⟦<AB as View>⟧.view (Adds3 AB.F.ring
        (VariableMeansIn ⟦<AB as View>⟧.view AB.Ring.FromVar-1.var_means builder.old)
        (MeansIn ⟦<AB as View>⟧.view builder.old) a.now b.now c.now d.now) builder.old builder.new
        result }
{
    let elements = sum_of_three(builder.ring(), a, b, c, d)?;
    builder.assert_zeros_slice(&elements)
}

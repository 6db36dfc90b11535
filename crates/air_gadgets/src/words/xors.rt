//! The xor of bits and its packing, made in a ring.
ghost use Rattle.std.specs.Prelude.{◌≡◌, ◌<◌, ◌≤◌, length};
ghost use Rattle.std.specs.List.{AllZip};
ghost use Rattle.air_field.specs.Algebra.{xor_term};
ghost use Rattle.air_gadgets.specs.Words.{rotated_left};
ghost use Rattle.air_gadgets.specs.Gadgets.{FromTwo, FromThree, MakesFrom, packed_xor_term, half_term};

use air_field::{Algebra, Field, FromVar, RingError};

/// The xor of two variables.
fn bit<F: Field, V: Copy, R: FromVar<F, V>>(ring: &mut R, x: V, y: V) -> Result<R::Elem, RingError>
    requires { R.valid ring.old }
    ensures extended { R.extends ring.old ring.new }
    ensures makes { MakesFrom (R.has ring.new) (R.means ring.new) R.refuses
        (FromTwo xor_term (R.var_means x) (R.var_means y)) result }
{
    let first = ring.from_var(x)?;
    let second = ring.from_var(y)?;
    ring.xor(first, second)
}

/// The packed xor of two lists of variables.
fn packed_xor<F: Field, V: Copy, R: FromVar<F, V>>(
    ring: &mut R,
    b: &[V],
    c: &[V],
) -> Result<R::Elem, RingError>
    requires valid { R.valid ring.old }
    requires some { 0 < length b.now }
    requires same { length b.now ≡ length c.now }
    ensures extended { R.extends ring.old ring.new }
    ensures makes { MakesFrom (R.has ring.new) (R.means ring.new) R.refuses
        (FromTwo (packed_xor_term F.ring) (AllZip R.var_means b.now) (AllZip R.var_means c.now))
        result }
{
    let lowest = bit(ring, b[0], c[0])?;
    if b.len() == 1 {
        return Ok(lowest);
    }
    let rest = packed_xor(ring, &b[1..], &c[1..])?;
    let twice = ring.double(rest)?;
    ring.add(twice, lowest)
}

/// A variable minus the packed xor of two lists of variables.
pub(crate) fn less_packed<F: Field, V: Copy, R: FromVar<F, V>>(
    ring: &mut R,
    x: V,
    b: &[V],
    c: &[V],
) -> Result<R::Elem, RingError>
    requires valid { R.valid ring.old }
    requires some { 0 < length b.now }
    requires same { length b.now ≡ length c.now }
    ensures extended { R.extends ring.old ring.new }
    ensures makes { MakesFrom (R.has ring.new) (R.means ring.new) R.refuses
        (FromThree (half_term F.ring) (R.var_means x) (AllZip R.var_means b.now)
        (AllZip R.var_means c.now)) result }
{
    let half = packed_xor(ring, b, c)?;
    let limb = ring.from_var(x)?;
    ring.sub(limb, half)
}

/// The list rotated to the left as a word.
pub(crate) fn rotate_left<T: Copy>(bits: &[T; 32], shift: usize) -> [T; 32]
    requires { shift ≤ 32 }
    ensures { result ≡ rotated_left shift bits.now }
{
    let mut rotated = *bits;
    rotated.rotate_right(shift);
    rotated
}

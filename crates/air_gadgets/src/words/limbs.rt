//! Differences of limbs and their products with carries, made in a ring.
ghost use Rattle.std.specs.Prelude.{◌≤◌, ◌^◌};
ghost use Rattle.air_gadgets.specs.Gadgets.{FromOne, FromTwo, FromThree, FromFour, MakesFrom, less_two_term, less_three_term, times_raised_term, carries_term, whole_term};

use air_field::{Algebra, Field, FromVar, RingError};

/// x - y - z, of variables and an element.
pub(crate) fn less_two<F: Field, V: Copy, R: FromVar<F, V>>(
    ring: &mut R,
    x: V,
    y: V,
    z: R::Elem,
) -> Result<R::Elem, RingError>
    requires valid { R.valid ring.old }
    requires z_in { R.has ring.old z }
    ensures extended { R.extends ring.old ring.new }
    ensures makes { MakesFrom (R.has ring.new) (R.means ring.new) R.refuses
        (FromThree less_two_term (R.var_means x) (R.var_means y) (R.means ring.old z)) result }
{
    let minuend = ring.from_var(x)?;
    let subtrahend = ring.from_var(y)?;
    let difference = ring.sub(minuend, subtrahend)?;
    ring.sub(difference, z)
}

/// x - y - z - w, of variables and elements.
pub(crate) fn less_three<F: Field, V: Copy, R: FromVar<F, V>>(
    ring: &mut R,
    x: V,
    y: V,
    z: R::Elem,
    w: R::Elem,
) -> Result<R::Elem, RingError>
    requires valid { R.valid ring.old }
    requires z_in { R.has ring.old z }
    requires w_in { R.has ring.old w }
    ensures extended { R.extends ring.old ring.new }
    ensures makes { MakesFrom (R.has ring.new) (R.means ring.new) R.refuses
        (FromFour less_three_term (R.var_means x) (R.var_means y)
        (R.means ring.old z) (R.means ring.old w)) result }
{
    let difference = less_two(ring, x, y, z)?;
    ring.sub(difference, w)
}

/// low + 2^16 high
pub(crate) fn whole_word<F: Field, R: Algebra<F>>(
    ring: &mut R,
    low: R::Elem,
    high: R::Elem,
) -> Result<R::Elem, RingError>
    requires low_in { R.has ring.old low }
    requires high_in { R.has ring.old high }
    ensures extended { R.extends ring.old ring.new }
    ensures makes { MakesFrom (R.has ring.new) (R.means ring.new) R.refuses
        (FromTwo (whole_term F.ring) (R.means ring.old low) (R.means ring.old high)) result }
{
    let scale = ring.constant(F::from_u64(65536))?;
    let raised = ring.mul(high, scale)?;
    ring.add(low, raised)
}

/// y (x + n)
fn times_raised<F: Field, R: Algebra<F>>(
    ring: &mut R,
    n: u64,
    x: R::Elem,
    y: R::Elem,
) -> Result<R::Elem, RingError>
    requires x_in { R.has ring.old x }
    requires y_in { R.has ring.old y }
    ensures extended { R.extends ring.old ring.new }
    ensures makes { MakesFrom (R.has ring.new) (R.means ring.new) R.refuses
        (FromTwo (times_raised_term F.ring n) (R.means ring.old x) (R.means ring.old y)) result }
{
    let constant = ring.constant(F::from_u64(n))?;
    let raised = ring.add(x, constant)?;
    ring.mul(y, raised)
}

/// x (x + n), and with `two` carries x (x + n) (x + 2n)
pub(crate) fn carries<F: Field, R: Algebra<F>>(
    ring: &mut R,
    two: bool,
    n: u64,
    x: R::Elem,
) -> Result<R::Elem, RingError>
    requires small { n ≤ 2 ^ 32 }
    requires x_in { R.has ring.old x }
    ensures extended { R.extends ring.old ring.new }
    ensures makes { MakesFrom (R.has ring.new) (R.means ring.new) R.refuses
        (FromOne (carries_term F.ring two n) (R.means ring.old x)) result }
{
    let product = times_raised(ring, n, x, x)?;
    if !two {
        return Ok(product);
    }
    times_raised(ring, 2 * n, x, product)
}

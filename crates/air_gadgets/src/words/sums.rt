//! The elements that an addition asserts to be zero, made in a ring.
ghost use Rattle.std.specs.Prelude.{All};
ghost use Rattle.std.specs.List.{AllZip};
ghost use Rattle.air_gadgets.specs.Gadgets.{FromTwo, FromThree, FromFour, MakesFrom, LimbsMean, RefusesOne, carried_terms, add2_terms, add3_terms};

use crate::words::limbs::{carries, less_three, less_two, whole_word};
use air_field::{Algebra, Field, FromVar, RingError};

/// The whole difference x and the low one, each as x (x + n), or with `two` carries as x (x + n) (x + 2n); n is 2^32 or
/// 2^16.
fn with_carries<F: Field, R: Algebra<F>>(
    ring: &mut R,
    two: bool,
    low: R::Elem,
    high: R::Elem,
) -> Result<[R::Elem; 2], RingError>
    requires low_in { R.has ring.old low }
    requires high_in { R.has ring.old high }
    ensures extended { R.extends ring.old ring.new }
    ensures makes { MakesFrom (λ r. All (R.has ring.new) r) (λ r. AllZip (R.means ring.new) r)
        (RefusesOne R.refuses)
        (FromTwo (carried_terms F.ring two) (R.means ring.old low) (R.means ring.old high)) result }
{
    let both = whole_word(ring, low, high)?;
    let first = carries(ring, two, 4294967296, both)?;
    let second = carries(ring, two, 65536, low)?;
    Ok([first, second])
}

/// The elements that the sum of two words asserts to be zero.
pub(crate) fn sum_of_two<F: Field, V: Copy, R: FromVar<F, V>>(
    ring: &mut R,
    a: &[V; 2],
    b: &[V; 2],
    c: &[R::Elem; 2],
) -> Result<[R::Elem; 2], RingError>
    requires valid { R.valid ring.old }
    requires c_in { All (R.has ring.old) c.now }
    ensures extended { R.extends ring.old ring.new }
    ensures makes { MakesFrom (λ r. All (R.has ring.new) r) (λ r. AllZip (R.means ring.new) r)
        (RefusesOne R.refuses)
        (FromThree (add2_terms F.ring) (LimbsMean R.var_means a.now) (LimbsMean R.var_means b.now)
        (LimbsMean (R.means ring.old) c.now)) result }
{
    let [a0, a1] = *a;
    let [b0, b1] = *b;
    let [c0, c1] = *c;
    let low = less_two(ring, a0, b0, c0)?;
    let high = less_two(ring, a1, b1, c1)?;
    with_carries(ring, false, low, high)
}

/// The elements that the sum of three words asserts to be zero.
pub(crate) fn sum_of_three<F: Field, V: Copy, R: FromVar<F, V>>(
    ring: &mut R,
    a: &[V; 2],
    b: &[V; 2],
    c: &[R::Elem; 2],
    d: &[R::Elem; 2],
) -> Result<[R::Elem; 2], RingError>
    requires valid { R.valid ring.old }
    requires c_in { All (R.has ring.old) c.now }
    requires d_in { All (R.has ring.old) d.now }
    ensures extended { R.extends ring.old ring.new }
    ensures makes { MakesFrom (λ r. All (R.has ring.new) r) (λ r. AllZip (R.means ring.new) r)
        (RefusesOne R.refuses)
        (FromFour (add3_terms F.ring) (LimbsMean R.var_means a.now) (LimbsMean R.var_means b.now)
        (LimbsMean (R.means ring.old) c.now) (LimbsMean (R.means ring.old) d.now)) result }
{
    let [a0, a1] = *a;
    let [b0, b1] = *b;
    let [c0, c1] = *c;
    let [d0, d1] = *d;
    let low = less_three(ring, a0, b0, c0, d0)?;
    let high = less_three(ring, a1, b1, c1, d1)?;
    with_carries(ring, true, low, high)
}

//! What is made of elements of a ring.
ghost use Rattle.std.specs.Prelude.{IfOk, IfErr};
ghost use Rattle.air_field.specs.Term.{mul_term};
ghost use Rattle.air_field.specs.Algebra.{MadeOf, MadeOfBoth, RefusedOf, RefusedOfBoth};
ghost use Rattle.air_draft.specs.DraftTerms.{power_term};

use air_field::{Algebra, Field, RingError};

/// x y
pub(crate) fn product<F: Field, R: Algebra<F>>(
    ring: &mut R,
    x: R::Elem,
    y: R::Elem,
) -> Result<R::Elem, RingError>
    requires x_in { R.has ring.old x }
    requires y_in { R.has ring.old y }
    ensures extended { R.extends ring.old ring.new }
    ensures made { IfOk result (MadeOfBoth R.has R.means mul_term ring.old ring.new x y) }
    ensures refused { IfErr result (RefusedOfBoth R.means R.refuses mul_term ring.old x y) }
{
    ring.mul(x, y)
}

/// The k-th power of x: 1 for 0, else by k - 1 products from the left.
pub(crate) fn power_from<F: Field, R: Algebra<F>>(
    ring: &mut R,
    x: R::Elem,
    k: u32,
) -> Result<R::Elem, RingError>
    requires valid { R.valid ring.old }
    requires x_in { R.has ring.old x }
    ensures extended { R.extends ring.old ring.new }
    ensures made { IfOk result (MadeOf R.has R.means (λ t. power_term F.ONE t k) ring.old ring.new
        x) }
    ensures refused { IfErr result (RefusedOf R.means R.refuses (λ t. power_term F.ONE t k)
        ring.old x) }
{
    if k == 0 {
        return ring.constant(F::ONE);
    }
    let mut power = x;
    for _ in 1..k {
        power = ring.mul(power, x)?;
    }
    Ok(power)
}

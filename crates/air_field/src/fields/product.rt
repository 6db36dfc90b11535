//! Sums of four products.
ghost use Rattle.std.specs.Prelude.{◌≡◌};
ghost use Rattle.air_field.specs.RingOps.{ops};
ghost use Rattle.air_field.specs.Coefficients.{dot};
ghost use Rattle.air_field.specs.Residue.{residue_ring};

use crate::fields::modulus::Modulus;
use crate::fields::residue::Residue;

/// The sum of the four products of elements with the same index, with a single reduction.
pub(crate) fn dot_product<M: Modulus>(a: &[Residue<M>; 4], b: &[Residue<M>; 4]) -> Residue<M>
    ensures { result ≡ dot (ops (residue_ring M.Modulus)) a.now b.now }
{
    let [a0, a1, a2, a3] = *a;
    let [b0, b1, b2, b3] = *b;
    Residue::reduce(
        a0.unreduced_product(b0)
            + a1.unreduced_product(b1)
            + a2.unreduced_product(b2)
            + a3.unreduced_product(b3),
    )
}

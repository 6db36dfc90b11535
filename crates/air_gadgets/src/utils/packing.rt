//! Bits packed into a number.
ghost use Rattle.std.specs.Prelude.{IfOk, IfErr, OnOk, All};
ghost use Rattle.air_gadgets.specs.Errors.{AsAir};
ghost use Rattle.air_gadgets.specs.Packing.{MadeOfPacked, RefusedOfPacked};
ghost use Rattle.air_gadgets.specs.PowerSums.{PacksValues};

use air_builder::AirError;
use air_field::{Algebra, Field};

/// The sum of 2^i v_i; 0 for the empty list.
pub fn pack_bits_le<F: Field, R: Algebra<F>>(
    ring: &mut R,
    bits: &[R::Elem],
) -> Result<R::Elem, AirError>
    requires valid { R.valid ring.old }
    requires all_in { All (R.has ring.old) bits.now }
    ensures sum { OnOk result (PacksValues F.ring F.ZERO) }
    ensures extended { R.extends ring.old ring.new }
    ensures made { IfOk result (MadeOfPacked R.has R.means F.ZERO ring.old ring.new bits.now) }
    ensures refused { IfErr result
        (RefusedOfPacked R.means (AsAir R.refuses) F.ZERO ring.old bits.now) }
{
    if bits.is_empty() {
        let none = ring.constant(F::ZERO)?;
        return Ok(none);
    }
    let mut left = bits.len() - 1;
    let mut total = bits[left];
    while left > 0 {
        left -= 1;
        let bit = bits[left];
        let twice = ring.double(total)?;
        total = ring.add(twice, bit)?;
    }
    Ok(total)
}

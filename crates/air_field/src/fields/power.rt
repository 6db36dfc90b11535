//! Powers.
ghost use Rattle.std.specs.Prelude.{◌≡◌};
ghost use Rattle.air_field.specs.Powers.{power};

use crate::fields::field::Field;

/// a^k
pub fn power_of<F: Field>(a: F, k: u64) -> F
    ensures { result ≡ power F.ring a k }
{
    let mut power = F::ONE;
    let mut square = a;
    let mut left = k;
    while left > 0 {
        if left % 2 == 1 {
            power = power.mul(square);
        }
        square = square.mul(square);
        left /= 2;
    }
    power
}

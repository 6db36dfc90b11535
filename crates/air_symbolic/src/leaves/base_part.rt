//! The elements of an extension that lie in the base field.
ghost use Rattle.std.specs.Prelude.{◌≡◌};

use air_field::{ExtensionField, Field};

/// The element of the base field that equals `c`, if there is one: the first coefficient, if all others are zero.
pub fn base_part<F: Field, EF: ExtensionField<F>>(c: &EF) -> Option<F>
    ensures { result ≡ EF.basis.base_part c.now }
{
    if !c.is_in_basefield() {
        return None;
    }
    match c.as_basis_coefficients_slice() {
        [first, ..] => Some(*first),
        [] => None,
    }
}

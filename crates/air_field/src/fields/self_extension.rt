//! Fields that are extensions of themselves.
ghost use Rattle.std.specs.Prelude.{◌≡◌, refl};
ghost use Rattle.air_field.specs.Ring.{self_algebra};

use crate::fields::extension::ExtensionField;
use crate::fields::field::Field;

/// A field as an extension of itself, with the field's own elements and operations.
pub trait SelfExtension: Field + ExtensionField<Self> {
    // the algebra over the field is the field itself
    ghost over_itself: { Self.over ≡ self_algebra Self.ring };
}

impl<F: Field> SelfExtension for F {
    ghost over_itself = { refl };
}

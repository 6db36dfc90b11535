//! Equality and order in fields.
ghost use Rattle.air_field.specs.Comparison.{IsExactOrder};

use crate::fields::extension::ExtensionField;
use crate::fields::field::Field;

/// Law: `==` is true exactly for equal values, and `cmp` is a total order that answers `Equal` exactly for these.
pub fn field_order<F: Field>()
    ensures { IsExactOrder F.eq F.cmp }
{}

/// Law: the same for an extension's elements.
pub fn extension_order<F: Field, EF: ExtensionField<F>>()
    ensures { IsExactOrder EF.eq EF.cmp }
{}

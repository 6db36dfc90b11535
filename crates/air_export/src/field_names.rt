//! The field of an object, by its order.
ghost use Rattle.std.specs.Prelude.{◌≡◌, ◌≢◌, IfSome, IfNone};
ghost use Rattle.air_export.specs.Exports.{order_of};
ghost use Rattle.air_object.specs.declared.field_name.FieldName.{FieldName};

use air_object::FieldName;

/// The field of an object with this number of elements, if there is one.
pub fn field_with_order(order: u64) -> Option<FieldName>
    ensures found { IfSome result (λ name. order_of name ≡ order) }
    ensures none { IfNone result ((name : FieldName) → order_of name ≢ order) }
{
    match order {
        2013265921 => Some(FieldName::BabyBear),
        2130706433 => Some(FieldName::KoalaBear),
        2147483647 => Some(FieldName::Mersenne31),
        18446744069414584321 => Some(FieldName::Goldilocks),
        _ => None,
    }
}

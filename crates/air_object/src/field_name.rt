//! The fields over which an object may be.
ghost use Rattle.std.specs.Prelude.{◌≡◌, codes};
ghost use Rattle.serde_json.specs.View.{view};
ghost use Rattle.air_json.specs.Parts.{find_name};
ghost use Rattle.air_object.specs.Fields.{field_names, field_of};

use serde_json::Value;

/// A field over which an object may be.
#[derive(Clone, Copy, Debug, PartialEq, Eq, Drop)]
pub enum FieldName {
    BabyBear,
    KoalaBear,
    Mersenne31,
    Goldilocks,
}

/// The field with this name, if there is one.
fn field_named(name: &str) -> Option<FieldName>
    ensures { result ≡ find_name field_names name.now }
{
    if name == "BabyBear" {
        Some(FieldName::BabyBear)
    } else if name == "KoalaBear" {
        Some(FieldName::KoalaBear)
    } else if name == "Mersenne31" {
        Some(FieldName::Mersenne31)
    } else if name == "Goldilocks" {
        Some(FieldName::Goldilocks)
    } else {
        None
    }
}

/// The field that the object's member `field` names: `BabyBear` without the member; `None` if its value isn't the text
/// of a field's name.
#[tactic(auto, unfolding(crate::specs::Fields::field_of))]
pub fn field_of(value: &Value) -> Option<FieldName>
    ensures { result ≡ field_of (view value.now) }
{
    match value.get("field") {
        Some(name) => field_named(name.as_str()?),
        None => Some(FieldName::BabyBear),
    }
}

//! The parts of a value that readers look for.

ghost use Rattle.std.specs.Prelude.{◌≡◌, option_map};
ghost use Rattle.serde_json.specs.View.{view};
ghost use Rattle.air_json.specs.Parts.{only_member, as_whole_number, whole_at};

use serde_json::Value;

/// The name and the contents of a case, which is an object with exactly one member.
pub(crate) fn only_member(value: &Value) -> Option<(&str, &Value)>
    ensures { option_map (λ p. (p.0.now, view p.1.now)) result ≡ only_member (view value.now) }
{
    let members = value.as_object()?;
    if members.len() != 1 {
        return None;
    }
    let (name, contents) = members.first_key_value()?;
    Some((name.as_str(), contents))
}

/// A nonnegative whole number that fits 64 bits.
pub fn whole_number(value: &Value) -> Option<usize>
    ensures { result ≡ as_whole_number (view value.now) }
{
    let number = value.as_u64()?;
    Some(number as usize)
}

/// The whole number that is a field of an object.
pub fn whole_at(value: &Value, name: &str) -> Option<usize>
    ensures { result ≡ whole_at name.now (view value.now) }
{
    whole_number(value.get(name)?)
}

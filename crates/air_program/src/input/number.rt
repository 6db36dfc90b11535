//! Numbers in decimal digits.

ghost use Rattle.std.specs.Prelude.{◌≡◌, ◌≤◌, IfSome};
ghost use Rattle.air_program.specs.Grammar.{element_number};

const MOST_DIGITS: usize = 10;

/// The largest residue of the field.
const GREATEST: u64 = 2013265920;

/// The number in a field.
#[tactic(auto, unfolding(crate::specs::Grammar::element_number))]
pub fn number(field: &[u8]) -> Option<u32>
    ensures value { result ≡ element_number field.now }
    ensures small { IfSome result (λ n. n ≤ 2013265920) }
{
    if field.is_empty() || field.len() > MOST_DIGITS {
        return None;
    }
    let mut value: u64 = 0;
    for digit in field {
        if !digit.is_ascii_digit() {
            return None;
        }
        value = 10 * value + u64::from(*digit - b'0');
        if value > GREATEST {
            return None;
        }
    }
    Some(value as u32)
}

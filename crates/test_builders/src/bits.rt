//! Calls on bits and limbs.

use air_builder::AirError;
use air_field::{BabyBear, FieldRing};
use air_gadgets::utils::{
    checked_andn, checked_xor, pack_bits_le, u32_to_bits_le, u64_to_16_bit_limbs, u64_to_bits_le,
};
use std::alloc::Global;
use test_lines::words::{Number, element_of, elements_of, number_of, show_elements};
use test_lines::{Fault, Why};

fn pack<F: Number>(bits: &[F]) -> Result<F, AirError> {
    let mut ring = FieldRing::<F>::new();
    pack_bits_le(&mut ring, bits)
}

fn of_bits<F: Number>(alloc: Global, word: &str, bits: &[&str]) -> Result<F, Fault> {
    let bits: Vec<F> = elements_of(alloc, bits)?;
    match word {
        "pack_bits_le" => Ok(pack(&bits)?),
        _ => Ok(checked_xor(&bits)),
    }
}

fn of_two<F: Number>(given: &[&str]) -> Result<F, Fault> {
    let [x, y] = given else {
        return Err(Fault::Unreadable(Why::NoSuchCall));
    };
    let x: F = element_of(*x)?;
    Ok(checked_andn(x, element_of(*y)?))
}

// The element that a call makes from bits.
fn make_element<F: Number>(alloc: Global, word: &str, given: &[&str]) -> Result<F, Fault> {
    match word {
        "pack_bits_le" | "checked_xor" => of_bits(alloc, word, given),
        "checked_andn" => of_two(given),
        _ => Err(Fault::Unreadable(Why::NoSuchCall)),
    }
}

fn show_made<F: Number>(
    alloc: Global,
    word: &str,
    given: &[&str],
    text: &mut String,
) -> Result<(), Fault> {
    let made: F = make_element(alloc, word, given)?;
    let number = made.number();
    write!(text, "{number}")?;
    Ok(())
}

fn show_numbers(elements: &[BabyBear], text: &mut String) -> Result<(), Fault> {
    show_elements(elements, text)
}

fn show_bits_of_32(n: &str, text: &mut String) -> Result<(), Fault> {
    match n.parse::<u32>() {
        Ok(n) => show_numbers(&u32_to_bits_le(n), text),
        Err(_) => Err(Fault::Unreadable(Why::NoNumber)),
    }
}

fn show_bits_of_64(n: &str, text: &mut String) -> Result<(), Fault> {
    let n = number_of(n)?;
    show_numbers(&u64_to_bits_le(n), text)
}

fn show_limbs(n: &str, text: &mut String) -> Result<(), Fault> {
    let n = number_of(n)?;
    show_numbers(&u64_to_16_bit_limbs(n), text)
}

/// Adds the answer of a call.
pub fn utils(alloc: Global, call: &[&str], text: &mut String) -> Result<(), Fault> {
    match call {
        ["u32_to_bits_le", n] => show_bits_of_32(*n, text),
        ["u64_to_bits_le", n] => show_bits_of_64(*n, text),
        ["u64_to_16_bit_limbs", n] => show_limbs(*n, text),
        [word, given @ ..] => show_made::<BabyBear>(alloc, *word, given, text),
        [] => Err(Fault::Unreadable(Why::NoSuchCall)),
    }
}

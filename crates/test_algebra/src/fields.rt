//! Calls of fields.

use air_field::fields::power::power_of;
use air_field::{DomainExtension, PrimeField64};
use std::alloc::Global;
use test_lines::words::{count_of, element_of, listed_extension, number_of, show_elements};
use test_lines::{Fault, Why};

// The element named by a call without operands.
fn field_constant<F: PrimeField64>(word: &str) -> Result<F, Fault> {
    match word {
        "ZERO" => Ok(F::ZERO),
        "ONE" => Ok(F::ONE),
        "TWO" => Ok(F::TWO),
        "NEG_ONE" => Ok(F::NEG_ONE),
        _ => Err(Fault::Unreadable(Why::NoSuchCall)),
    }
}

// The element of `true` or `false`.
fn field_of_bool<F: PrimeField64>(word: &str) -> Result<F, Fault> {
    match word {
        "true" => Ok(F::from_bool(true)),
        "false" => Ok(F::from_bool(false)),
        _ => Err(Fault::Unreadable(Why::NoSuchCall)),
    }
}

// The element that a call on one word returns.
fn field_of_one<F: PrimeField64>(word: &str, x: &str) -> Result<F, Fault> {
    match word {
        "from_bool" => field_of_bool(x),
        "from_u64" => element_of(x),
        "neg" => Ok(element_of::<F>(x)?.neg()),
        _ => Err(Fault::Unreadable(Why::NoSuchCall)),
    }
}

fn field_power<F: PrimeField64>(x: &str, power: &str) -> Result<F, Fault> {
    let x: F = element_of(x)?;
    Ok(power_of(x, number_of(power)?))
}

// The sum, the difference or the product of two elements.
fn field_joined<F: PrimeField64>(word: &str, x: &str, y: &str) -> Result<F, Fault> {
    let x: F = element_of(x)?;
    let y: F = element_of(y)?;
    match word {
        "add" => Ok(x.add(y)),
        "sub" => Ok(x.sub(y)),
        _ => Ok(x.mul(y)),
    }
}

// The element that a call on two words returns.
fn field_of_two<F: PrimeField64>(word: &str, x: &str, y: &str) -> Result<F, Fault> {
    match word {
        "add" | "sub" | "mul" => field_joined(word, x, y),
        "power_of" => field_power(x, y),
        _ => Err(Fault::Unreadable(Why::NoSuchCall)),
    }
}

// The element that a call returns.
fn field_element<F: PrimeField64>(call: &[&str]) -> Result<F, Fault> {
    match call {
        [word] => field_constant(*word),
        [word, x] => field_of_one(*word, *x),
        [word, x, y] => field_of_two(*word, *x, *y),
        _ => Err(Fault::Unreadable(Why::NoSuchCall)),
    }
}

/// Adds the number that a call of a field returns.
pub fn field<F: PrimeField64>(call: &[&str], text: &mut String) -> Result<(), Fault> {
    let number = match call {
        ["CHARACTERISTIC"] => F::CHARACTERISTIC,
        ["ORDER_U64"] => F::ORDER_U64,
        ["debug", x] => {
            let x: F = element_of(*x)?;
            write!(text, "{x:?}")?;
            return Ok(());
        }
        _ => field_element::<F>(call)?.as_canonical_u64(),
    };
    write!(text, "{number}")?;
    Ok(())
}

// The element that a call on two elements of an extension returns.
fn extension_of_two<F: PrimeField64, EF: DomainExtension<F>>(
    alloc: Global,
    word: &str,
    x: &str,
    y: &str,
) -> Result<EF, Fault> {
    let x: EF = listed_extension::<F, EF>(alloc, x)?;
    let y: EF = listed_extension::<F, EF>(alloc, y)?;
    match word {
        "add" => Ok(x.add(y)),
        "sub" => Ok(x.sub(y)),
        _ => Ok(x.mul(y)),
    }
}

// The element that a call of an extension returns.
fn extension_element<F: PrimeField64, EF: DomainExtension<F>>(
    alloc: Global,
    call: &[&str],
) -> Result<EF, Fault> {
    match call {
        ["zero"] => Ok(EF::zero()),
        ["one"] => Ok(EF::one()),
        ["from_base", x] => Ok(EF::from_base(element_of(*x)?)),
        ["neg", x] => Ok(listed_extension::<F, EF>(alloc, *x)?.neg()),
        [word @ ("add" | "sub" | "mul"), x, y] => {
            extension_of_two::<F, EF>(alloc, *word, *x, *y)
        }
        _ => Err(Fault::Unreadable(Why::NoSuchCall)),
    }
}

// Adds the inverse of an element, or `None`.
fn show_inverse<F: PrimeField64, EF: DomainExtension<F>>(
    alloc: Global,
    x: &str,
    text: &mut String,
) -> Result<(), Fault> {
    match listed_extension::<F, EF>(alloc, x)?.try_inverse() {
        Some(inverse) => show_elements(inverse.as_basis_coefficients_slice(), text),
        None => {
            text.push_str("None")?;
            Ok(())
        }
    }
}

// Adds the powers of an element, from the power 0 on.
fn show_powers<F: PrimeField64, EF: DomainExtension<F>>(
    alloc: Global,
    x: &str,
    count: &str,
    text: &mut String,
) -> Result<(), Fault> {
    let x: EF = listed_extension::<F, EF>(alloc, x)?;
    for power in &x.powers(alloc, count_of(count)?)? {
        show_elements(power.as_basis_coefficients_slice(), text)?;
    }
    Ok(())
}

/// Adds the coefficients that a call of an extension returns.
pub fn extension<F: PrimeField64, EF: DomainExtension<F>>(
    alloc: Global,
    call: &[&str],
    text: &mut String,
) -> Result<(), Fault> {
    match call {
        ["DIMENSION"] => {
            let dimension = EF::DIMENSION;
            write!(text, "{dimension}")?;
            Ok(())
        }
        ["is_in_basefield", x] => {
            let inside = listed_extension::<F, EF>(alloc, *x)?.is_in_basefield();
            write!(text, "{inside}")?;
            Ok(())
        }
        ["try_inverse", x] => show_inverse::<F, EF>(alloc, *x, text),
        ["powers", x, count] => show_powers::<F, EF>(alloc, *x, *count, text),
        _ => {
            let x: EF = extension_element::<F, EF>(alloc, call)?;
            show_elements(x.as_basis_coefficients_slice(), text)
        }
    }
}

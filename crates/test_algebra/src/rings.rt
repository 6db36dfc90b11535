//! Calls of the rings whose elements are values.

use air_field::{
    Algebra, ExtAlgebra, ExtFieldRing, ExtensionField, Field, FieldRing, FromVar, PrimeField64,
    RingError,
};
use std::alloc::Global;
use test_lines::words::{element_of, elements_of, listed_extension, number_of, show_elements};
use test_lines::{Fault, Why};

// The result of the field ring's operation on one element. (Functions with many calls are slow to prove, so each has
// few, at the ends of arms.)
fn of_one<F: Field>(word: &str, x: F) -> Result<F, RingError> {
    let mut ring = FieldRing::<F>::new();
    match word {
        "constant" => ring.constant(x),
        "from_var" => ring.from_var(x),
        "neg" => ring.neg(x),
        "double" => ring.double(x),
        _ => ring.bool_check(x),
    }
}

// The result of the field ring's operation on two elements.
fn of_two<F: Field>(word: &str, x: F, y: F) -> Result<F, RingError> {
    let mut ring = FieldRing::<F>::new();
    match word {
        "add" => ring.add(x, y),
        "sub" => ring.sub(x, y),
        "mul" => ring.mul(x, y),
        "gate" => ring.gate(x, y),
        "xor" => ring.xor(x, y),
        _ => ring.andn(x, y),
    }
}

fn of_many<F: Field>(word: &str, all: &[F]) -> Result<F, RingError> {
    let mut ring = FieldRing::<F>::new();
    match word {
        "sum" => ring.sum(all),
        _ => ring.product(all),
    }
}

fn of_power<F: Field>(x: F, power: u64) -> Result<F, RingError> {
    let mut ring = FieldRing::<F>::new();
    ring.mul_2exp_u64(x, power)
}

fn times_power<F: Field>(x: &str, power: &str) -> Result<F, Fault> {
    let x: F = element_of(x)?;
    let power = number_of(power)?;
    Ok(of_power(x, power)?)
}

fn joined_two<F: Field>(word: &str, x: &str, y: &str) -> Result<F, Fault> {
    let x: F = element_of(x)?;
    let y: F = element_of(y)?;
    Ok(of_two(word, x, y)?)
}

fn made_of_one<F: Field>(word: &str, x: &str) -> Result<F, Fault> {
    match word {
        "constant" | "from_var" | "neg" | "double" | "bool_check" => {
            Ok(of_one(word, element_of::<F>(x)?)?)
        }
        _ => Err(Fault::Unreadable(Why::NoSuchCall)),
    }
}

fn made_of_two<F: Field>(word: &str, x: &str, y: &str) -> Result<F, Fault> {
    match word {
        "add" | "sub" | "mul" | "gate" | "xor" | "andn" => joined_two(word, x, y),
        "mul_2exp_u64" => times_power(x, y),
        _ => Err(Fault::Unreadable(Why::NoSuchCall)),
    }
}

fn made_of_few<F: Field>(word: &str, given: &[&str]) -> Result<F, Fault> {
    match given {
        [x] => made_of_one(word, *x),
        [x, y] => made_of_two(word, *x, *y),
        _ => Err(Fault::Unreadable(Why::NoSuchCall)),
    }
}

// The sum or the product of elements.
fn join_all<F: Field>(alloc: Global, word: &str, all: &[&str]) -> Result<F, Fault> {
    let all: Vec<F> = elements_of(alloc, all)?;
    Ok(of_many(word, &all)?)
}

// The element that a call of the field's ring returns.
fn make_element<F: Field>(alloc: Global, call: &[&str]) -> Result<F, Fault> {
    let [word, given @ ..] = call else {
        return Err(Fault::Unreadable(Why::NoSuchCall));
    };
    match *word {
        "sum" | "product" => join_all(alloc, *word, given),
        word => made_of_few(word, given),
    }
}

/// Adds the number that a call of the field's ring returns.
pub fn field_ring<F: PrimeField64>(
    alloc: Global,
    call: &[&str],
    text: &mut String,
) -> Result<(), Fault> {
    let number = make_element::<F>(alloc, call)?.as_canonical_u64();
    write!(text, "{number}")?;
    Ok(())
}

// Elements, one for each word.
fn all_of<F: Field, EF: ExtensionField<F>>(
    alloc: Global,
    words: &[&str],
) -> Result<Vec<EF>, Fault> {
    let mut all = Vec::new(alloc);
    for word in words {
        all.push(listed_extension::<F, EF>(alloc, *word)?)?;
    }
    Ok(all)
}

// The result of the extension ring's operation on two elements.
fn over_two<F: Field, EF: ExtensionField<F>>(word: &str, x: EF, y: EF) -> Result<EF, RingError> {
    let mut ring = ExtFieldRing::<F, EF>::new();
    match word {
        "add" => ring.add(x, y),
        "sub" => ring.sub(x, y),
        _ => ring.mul(x, y),
    }
}

// The result of the extension ring's operation on one element.
fn over_one<F: Field, EF: ExtensionField<F>>(word: &str, x: EF) -> Result<EF, RingError> {
    let mut ring = ExtFieldRing::<F, EF>::new();
    match word {
        "ext_constant" => ring.ext_constant(x),
        "from_var" => ring.from_var(x),
        _ => ring.neg(x),
    }
}

// The result of the extension ring's operation on one element of the field.
fn over_base<F: Field, EF: ExtensionField<F>>(word: &str, x: F) -> Result<EF, RingError> {
    let mut ring = ExtFieldRing::<F, EF>::new();
    match word {
        "constant" => ring.constant(x),
        _ => ring.lift(x),
    }
}

fn over_many<F: Field, EF: ExtensionField<F>>(word: &str, all: &[EF]) -> Result<EF, RingError> {
    let mut ring = ExtFieldRing::<F, EF>::new();
    match word {
        "sum" => ring.sum(all),
        _ => ring.product(all),
    }
}

// The sum or the product of elements of the extension.
fn joined_over<F: Field, EF: ExtensionField<F>>(
    alloc: Global,
    word: &str,
    all: &[&str],
) -> Result<EF, Fault> {
    let all: Vec<EF> = all_of::<F, EF>(alloc, all)?;
    Ok(over_many::<F, EF>(word, &all)?)
}

fn joined_over_two<F: Field, EF: ExtensionField<F>>(
    alloc: Global,
    word: &str,
    x: &str,
    y: &str,
) -> Result<EF, Fault> {
    let x: EF = listed_extension::<F, EF>(alloc, x)?;
    let y: EF = listed_extension::<F, EF>(alloc, y)?;
    Ok(over_two::<F, EF>(word, x, y)?)
}

fn made_over_base<F: Field, EF: ExtensionField<F>>(word: &str, x: &str) -> Result<EF, Fault> {
    let x: F = element_of(x)?;
    Ok(over_base::<F, EF>(word, x)?)
}

fn made_over_itself<F: Field, EF: ExtensionField<F>>(
    alloc: Global,
    word: &str,
    x: &str,
) -> Result<EF, Fault> {
    let x: EF = listed_extension::<F, EF>(alloc, x)?;
    Ok(over_one::<F, EF>(word, x)?)
}

fn made_over_one<F: Field, EF: ExtensionField<F>>(
    alloc: Global,
    word: &str,
    x: &str,
) -> Result<EF, Fault> {
    match word {
        "constant" | "lift" => made_over_base::<F, EF>(word, x),
        "ext_constant" | "from_var" | "neg" => made_over_itself::<F, EF>(alloc, word, x),
        _ => Err(Fault::Unreadable(Why::NoSuchCall)),
    }
}

fn made_over_two<F: Field, EF: ExtensionField<F>>(
    alloc: Global,
    word: &str,
    x: &str,
    y: &str,
) -> Result<EF, Fault> {
    match word {
        "add" | "sub" | "mul" => joined_over_two::<F, EF>(alloc, word, x, y),
        _ => Err(Fault::Unreadable(Why::NoSuchCall)),
    }
}

fn made_over_few<F: Field, EF: ExtensionField<F>>(
    alloc: Global,
    word: &str,
    given: &[&str],
) -> Result<EF, Fault> {
    match given {
        [x] => made_over_one::<F, EF>(alloc, word, *x),
        [x, y] => made_over_two::<F, EF>(alloc, word, *x, *y),
        _ => Err(Fault::Unreadable(Why::NoSuchCall)),
    }
}

// The element that a call of the extension's ring returns.
fn made_over<F: Field, EF: ExtensionField<F>>(alloc: Global, call: &[&str]) -> Result<EF, Fault> {
    let [word, given @ ..] = call else {
        return Err(Fault::Unreadable(Why::NoSuchCall));
    };
    match *word {
        "sum" | "product" => joined_over::<F, EF>(alloc, *word, given),
        word => made_over_few::<F, EF>(alloc, word, given),
    }
}

/// Adds the coefficients that a call of the extension's ring returns.
pub fn ext_field_ring<F: PrimeField64, EF: ExtensionField<F>>(
    alloc: Global,
    call: &[&str],
    text: &mut String,
) -> Result<(), Fault> {
    let x: EF = made_over::<F, EF>(alloc, call)?;
    show_elements(x.as_basis_coefficients_slice(), text)
}

//! Constants of a builder's rings.
ghost use Rattle.std.specs.Prelude.{All, IfOk, IsTrue};

use air_field::{Algebra, ExtAlgebra, ExtensionField, Field};
use std::alloc::Global;
use test_lines::words::{element_of, listed_extension};
use test_lines::{Fault, Why};

/// The constant of a number.
pub fn constant<F: Field, R: Algebra<F>>(ring: &mut R, word: &str) -> Result<R::Elem, Fault>
    requires { R.valid ring.old }
    ensures extended { R.extends ring.old ring.new }
    ensures of_ring { IfOk result (R.has ring.new) }
{
    let c = element_of::<F>(word)?;
    Ok(ring.constant(c)?)
}

/// The constants of two numbers.
pub fn two_constants<F: Field, R: Algebra<F>>(
    ring: &mut R,
    first: &str,
    second: &str,
) -> Result<(R::Elem, R::Elem), Fault>
    requires { R.valid ring.old }
    ensures extended { R.extends ring.old ring.new }
    ensures first { IfOk result (λ made. R.has ring.new made.0) }
    ensures second { IfOk result (λ made. R.has ring.new made.1) }
{
    let a = element_of::<F>(first)?;
    let b = element_of::<F>(second)?;
    let x = ring.constant(a)?;
    let y = ring.constant(b)?;
    Ok((x, y))
}

// Whether all elements are in the ring.
fn contains_all<F: Field, R: Algebra<F>>(ring: &R, all: &[R::Elem]) -> bool
    requires { R.valid ring.now }
    ensures { IsTrue result → All (R.has ring.now) all.now }
{
    for x in all {
        if !ring.contains(*x) {
            return false;
        }
    }
    true
}

/// The constants of a list of numbers. Whether all are in the ring is tested at run time.
pub fn constants<F: Field, R: Algebra<F>>(
    alloc: Global,
    ring: &mut R,
    words: &[&str],
) -> Result<Vec<R::Elem>, Fault>
    requires { R.valid ring.old }
    ensures extended { R.extends ring.old ring.new }
    ensures of_ring { IfOk result (λ all. All (R.has ring.new) all.items) }
{
    let mut all = Vec::new(alloc);
    for word in words {
        all.push(constant::<F, R>(ring, *word)?)?;
    }
    if contains_all::<F, R>(ring, &all) {
        Ok(all)
    } else {
        Err(Fault::Unreadable(Why::OtherPool))
    }
}

/// The constants of two lists of numbers.
pub fn constant_lists<F: Field, R: Algebra<F>>(
    alloc: Global,
    ring: &mut R,
    left: &[&str],
    right: &[&str],
) -> Result<(Vec<R::Elem>, Vec<R::Elem>), Fault>
    requires { R.valid ring.old }
    ensures extended { R.extends ring.old ring.new }
    ensures left { IfOk result (λ made. All (R.has ring.new) made.0.items) }
    ensures right { IfOk result (λ made. All (R.has ring.new) made.1.items) }
{
    let left = constants::<F, R>(alloc, ring, left)?;
    let right = constants::<F, R>(alloc, ring, right)?;
    if contains_all::<F, R>(ring, &left) {
        Ok((left, right))
    } else {
        Err(Fault::Unreadable(Why::OtherPool))
    }
}

/// The constant of an element of the extension.
pub fn ext_constant<F: Field, EF: ExtensionField<F>, R: ExtAlgebra<F, EF>>(
    alloc: Global,
    ring: &mut R,
    word: &str,
) -> Result<R::Elem, Fault>
    requires { R.valid ring.old }
    ensures extended { R.extends ring.old ring.new }
    ensures of_ring { IfOk result (R.has ring.new) }
{
    let c = listed_extension::<F, EF>(alloc, word)?;
    Ok(ring.ext_constant(c)?)
}

/// The constants of two elements of the extension.
pub fn two_ext_constants<F: Field, EF: ExtensionField<F>, R: ExtAlgebra<F, EF>>(
    alloc: Global,
    ring: &mut R,
    first: &str,
    second: &str,
) -> Result<(R::Elem, R::Elem), Fault>
    requires { R.valid ring.old }
    ensures extended { R.extends ring.old ring.new }
    ensures first { IfOk result (λ made. R.has ring.new made.0) }
    ensures second { IfOk result (λ made. R.has ring.new made.1) }
{
    let a = listed_extension::<F, EF>(alloc, first)?;
    let b = listed_extension::<F, EF>(alloc, second)?;
    let x = ring.ext_constant(a)?;
    let y = ring.ext_constant(b)?;
    Ok((x, y))
}

//! Entries and constants, as expressions on which operators work.
ghost use Rattle.std.specs.Prelude.{◌≡◌};

use crate::expressions::columns::{
    Current, Next, Periodic, PreprocessedCurrent, PreprocessedNext, Public,
};
use crate::expressions::constants::{Constant, Number};
use crate::expressions::extension::ExtConstant;
use crate::expressions::permutation::{
    Challenge, PermutationCurrent, PermutationNext, PermutationValue,
};
use crate::operators::E;

/// A column of this row.
#[inline(always)]
pub fn current(i: usize) -> E<Current>
    ensures { result ≡ record { 0 = record { 0 = i } } }
{
    E(Current(i))
}

/// A column of the next row.
#[inline(always)]
pub fn next(i: usize) -> E<Next>
    ensures { result ≡ record { 0 = record { 0 = i } } }
{
    E(Next(i))
}

/// A column of the preprocessed trace's current row.
#[inline(always)]
pub fn preprocessed_current(i: usize) -> E<PreprocessedCurrent>
    ensures { result ≡ record { 0 = record { 0 = i } } }
{
    E(PreprocessedCurrent(i))
}

/// A column of the preprocessed trace's next row.
#[inline(always)]
pub fn preprocessed_next(i: usize) -> E<PreprocessedNext>
    ensures { result ≡ record { 0 = record { 0 = i } } }
{
    E(PreprocessedNext(i))
}

/// A periodic column.
#[inline(always)]
pub fn periodic(i: usize) -> E<Periodic>
    ensures { result ≡ record { 0 = record { 0 = i } } }
{
    E(Periodic(i))
}

/// A public value.
#[inline(always)]
pub fn public(i: usize) -> E<Public>
    ensures { result ≡ record { 0 = record { 0 = i } } }
{
    E(Public(i))
}

/// A number in the field.
#[inline(always)]
pub fn number(n: u64) -> E<Number>
    ensures { result ≡ record { 0 = record { 0 = n } } }
{
    E(Number(n))
}

/// A column of the permutation trace's current row.
#[inline(always)]
pub fn permutation_current(i: usize) -> E<PermutationCurrent>
    ensures { result ≡ record { 0 = record { 0 = i } } }
{
    E(PermutationCurrent(i))
}

/// A column of the permutation trace's next row.
#[inline(always)]
pub fn permutation_next(i: usize) -> E<PermutationNext>
    ensures { result ≡ record { 0 = record { 0 = i } } }
{
    E(PermutationNext(i))
}

/// A random challenge.
#[inline(always)]
pub fn challenge(i: usize) -> E<Challenge>
    ensures { result ≡ record { 0 = record { 0 = i } } }
{
    E(Challenge(i))
}

/// A value that the permutation argument exposes.
#[inline(always)]
pub fn permutation_value(i: usize) -> E<PermutationValue>
    ensures { result ≡ record { 0 = record { 0 = i } } }
{
    E(PermutationValue(i))
}

/// A constant of the field.
#[inline(always)]
pub fn constant<F>(c: F) -> E<Constant<F>>
    ensures { result ≡ record { 0 = record { 0 = c } } }
{
    E(Constant(c))
}

/// A constant of the extension.
#[inline(always)]
pub fn ext_constant<F>(c: F) -> E<ExtConstant<F>>
    ensures { result ≡ record { 0 = record { 0 = c } } }
{
    E(ExtConstant(c))
}

//! Sums and xors of words: recorded over columns of the main trace, made into an AIR, and checked on a trace of one
//! row.
ghost use Rattle.std.specs.Prelude.{ℕ, ◌≤◌, All, IfOk, OnOk};

use air_audit::{Beside, FlatAir, finish_recording, recorded_air};
use air_builder::{AirBuilder, AirError};
use air_core::{BaseEntry, SymbolicVariable};
use air_field::{
    Algebra, Field, FromVar, Goldilocks, KoalaBear, Mersenne31, PrimeField64, RowMajorMatrix,
};
use air_gadgets::{add2, add3, xor_32_shift};
use air_recording::{AirLayout, Recorded, SymbolicAirBuilder};
use air_report::{ConstraintReport, check_all_constraints};
use air_symbolic::{BaseLeaf, ExprId, ExprPool};
use std::alloc::Global;
use test_lines::words::{count_of, element_of, listed_elements};
use test_lines::{Fault, Why};

type Column<F> = SymbolicVariable<F>;

// N columns of the current row, from `first` on.
fn columns<F: Field, const N: usize>(first: usize) -> [Column<F>; N] {
    let mut columns = [SymbolicVariable::new(BaseEntry::Main { offset: 0 }, first); N];
    for (i, column) in columns.iter_mut().enumerate() {
        let place = first.saturating_add(i);
        *column = SymbolicVariable::new(BaseEntry::Main { offset: 0 }, place);
    }
    columns
}

// The element of a variable. Elements of the ring stay in it.
fn made_of<AB: AirBuilder>(builder: &mut AB, v: AB::Var) -> Result<AB::Expr, AirError>
    requires { AB.ready builder.old }
    ensures ready { AB.ready builder.new }
    ensures stays { (x : AB.Expr) → AB.Ring.has (AB.ring_of builder.old) x
        → AB.Ring.has (AB.ring_of builder.new) x }
    ensures of_ring { IfOk result (λ x. AB.Ring.has (AB.ring_of builder.new) x) }
{
    let element = builder.ring().from_var(v)?;
    Ok(element)
}

// Adds two words; the second is given by elements.
fn add_two<AB: AirBuilder>(
    builder: &mut AB,
    a: [AB::Var; 2],
    b: [AB::Var; 2],
    c: [AB::Expr; 2],
) -> Result<(), AirError>
    requires ready { AB.ready builder.old }
    requires of_ring { All (AB.Ring.has (AB.ring_of builder.old)) c }
    ensures { AB.ready builder.new }
{
    add2(builder, &a, &b, &c)
}

// Adds three words; the last two are given by elements.
fn add_three<AB: AirBuilder>(
    builder: &mut AB,
    a: [AB::Var; 2],
    b: [AB::Var; 2],
    c: [AB::Expr; 2],
    d: [AB::Expr; 2],
) -> Result<(), AirError>
    requires ready { AB.ready builder.old }
    requires c_in { All (AB.Ring.has (AB.ring_of builder.old)) c }
    requires d_in { All (AB.Ring.has (AB.ring_of builder.old)) d }
    ensures { AB.ready builder.new }
{
    add3(builder, &a, &b, &c, &d)
}

// Asserts that word a is the xor of the bits b and the rotated bits c.
fn assert_xor<AB: AirBuilder>(
    builder: &mut AB,
    a: [AB::Var; 2],
    b: [AB::Var; 32],
    c: [AB::Var; 32],
    shift: usize,
) -> Result<(), AirError>
    requires ready { AB.ready builder.old }
    requires within { shift ≤ 32 }
    ensures { AB.ready builder.new }
{
    xor_32_shift(builder, &a, &b, &c, shift)
}

// A gadget on words.
#[derive(Clone, Copy)]
enum Gadget {
    SumOfTwo,
    SumOfThree,
    Xor(usize),
}

type Recorder<F> = SymbolicAirBuilder<F, F>;

// The elements of two columns, from `first` on. Elements of the ring stay in it.
fn two_made<F: Field>(
    builder: &mut Recorder<F>,
    first: usize,
) -> Result<[ExprId<BaseLeaf<F>>; 2], AirError>
    requires { ⟦<SymbolicAirBuilder<F, F> as AirBuilder>⟧.ready builder.old }
    ensures ready { OnOk result (⟦<SymbolicAirBuilder<F, F> as AirBuilder>⟧.ready
        builder.new) }
    ensures stays { (x : ℕ) → ⟦<ExprPool<BaseLeaf<F>> as Algebra<F>>⟧.has
        (⟦<SymbolicAirBuilder<F, F> as AirBuilder>⟧.ring_of builder.old) x
        → ⟦<ExprPool<BaseLeaf<F>> as Algebra<F>>⟧.has
        (⟦<SymbolicAirBuilder<F, F> as AirBuilder>⟧.ring_of builder.new) x }
    ensures of_ring { IfOk result (All
        (⟦<ExprPool<BaseLeaf<F>> as Algebra<F>>⟧.has
        (⟦<SymbolicAirBuilder<F, F> as AirBuilder>⟧.ring_of builder.new))) }
{
    let [low, high]: [Column<F>; 2] = columns(first);
    let low = made_of(builder, low)?;
    let high = made_of(builder, high)?;
    Ok([low, high])
}

// Records that the word in columns 0 and 1 is the sum of the next two words.
fn record_sum_of_two<F: Field>(builder: &mut Recorder<F>) -> Result<(), AirError>
    requires { ⟦<SymbolicAirBuilder<F, F> as AirBuilder>⟧.ready builder.old }
    ensures { OnOk result (⟦<SymbolicAirBuilder<F, F> as AirBuilder>⟧.ready
        builder.new) }
{
    let c = two_made(builder, 4)?;
    add_two(builder, columns(0), columns(2), c)
}

// Records that the word in columns 0 and 1 is the sum of the next three words.
fn record_sum_of_three<F: Field>(builder: &mut Recorder<F>) -> Result<(), AirError>
    requires { ⟦<SymbolicAirBuilder<F, F> as AirBuilder>⟧.ready builder.old }
    ensures { OnOk result (⟦<SymbolicAirBuilder<F, F> as AirBuilder>⟧.ready
        builder.new) }
{
    let c = two_made(builder, 4)?;
    let d = two_made(builder, 6)?;
    add_three(builder, columns(0), columns(2), c, d)
}

// Records a gadget.
fn record_gadget<F: Field>(builder: &mut Recorder<F>, gadget: Gadget) -> Result<(), Fault>
    requires { ⟦<SymbolicAirBuilder<F, F> as AirBuilder>⟧.ready builder.old }
    ensures { OnOk result (⟦<SymbolicAirBuilder<F, F> as AirBuilder>⟧.ready
        builder.new) }
{
    match gadget {
        Gadget::SumOfTwo => Ok(record_sum_of_two(builder)?),
        Gadget::SumOfThree => Ok(record_sum_of_three(builder)?),
        Gadget::Xor(shift) if shift <= 32 => {
            Ok(assert_xor(builder, columns(0), columns(2), columns(34), shift)?)
        }
        Gadget::Xor(_) => Err(Fault::Unreadable(Why::OtherShape)),
    }
}

// The recording of a gadget over the columns from 0 on: first the limbs of a, then the limbs or the bits of the other
// words.
fn gadget_recording<F: Field>(
    alloc: Global,
    gadget: Gadget,
    width: usize,
) -> Result<Recorded<F, F>, Fault> {
    let layout = AirLayout {
        main_width: width,
        ..AirLayout::default()
    };
    let mut builder = SymbolicAirBuilder::new(alloc, layout)?;
    record_gadget(&mut builder, gadget)?;
    Ok(finish_recording(builder))
}

// The AIR of a gadget's recording.
fn gadget_air<F: Field>(alloc: Global, gadget: Gadget, width: usize) -> Result<FlatAir<F>, Fault> {
    let recorded = gadget_recording::<F>(alloc, gadget, width)?;
    Ok(recorded_air(recorded, Beside::new(alloc, width, 0))?)
}

fn report_of<'a, F: Field + 'static>(
    alloc: Global,
    air: &'a FlatAir<F>,
    main: &'a RowMajorMatrix<F>,
) -> Result<ConstraintReport, Fault> {
    Ok(check_all_constraints(alloc, air, main, &[], None)?)
}

fn report_at_row<F: Field + 'static>(
    alloc: Global,
    air: &FlatAir<F>,
    row: Vec<F>,
) -> Result<ConstraintReport, Fault> {
    let width = row.len();
    let main = RowMajorMatrix::new(row, width)?;
    report_of(alloc, air, &main)
}

// The report of checking a gadget on one row.
fn check_gadget<F: Field + 'static>(
    alloc: Global,
    gadget: Gadget,
    row: Vec<F>,
) -> Result<ConstraintReport, Fault> {
    let air: FlatAir<F> = gadget_air(alloc, gadget, row.len())?;
    report_at_row(alloc, &air, row)
}

// Adds the number of constraints a row, and the failures.
fn show_report(report: &ConstraintReport, text: &mut String) -> Result<(), Fault> {
    let count = report.total_constraints_per_row;
    write!(text, "{count} constraints")?;
    for failure in &report.failures {
        write!(text, ", {failure}")?;
    }
    Ok(())
}

// Adds the number of constraints of a gadget, and its failures at a row.
fn show_checked<F: Field + 'static>(
    alloc: Global,
    gadget: Gadget,
    row: Vec<F>,
    text: &mut String,
) -> Result<(), Fault> {
    let report = check_gadget(alloc, gadget, row)?;
    show_report(&report, text)
}

// Adds the degrees of expressions.
fn show_degrees_in<F: Field>(
    pool: &ExprPool<BaseLeaf<F>>,
    expressions: &[ExprId<BaseLeaf<F>>],
    text: &mut String,
) -> Result<(), Fault> {
    for (place, id) in expressions.iter().enumerate() {
        if place > 0 {
            text.push_str(" ")?;
        }
        if pool.contains(*id) {
            let degree = pool.degree_multiple(*id);
            write!(text, "{degree}")?;
        }
    }
    Ok(())
}

// Adds the degrees of a gadget's recorded constraints.
fn show_degrees<F: Field>(
    alloc: Global,
    gadget: Gadget,
    width: usize,
    text: &mut String,
) -> Result<(), Fault> {
    let Recorded { pool, base, .. } = gadget_recording::<F>(alloc, gadget, width)?;
    show_degrees_in(&pool.into_base(), &base, text)
}

// Adds the limbs of a word.
fn push_limbs<F: PrimeField64>(alloc: Global, word: &str, row: &mut Vec<F>) -> Result<(), Fault> {
    let limbs: Vec<F> = listed_elements(alloc, word)?;
    if limbs.len() != 2 {
        return Err(Fault::Unreadable(Why::OtherShape));
    }
    row.extend_from_slice(&limbs)?;
    Ok(())
}

// Sets the bit given as `PLACE:NUMBER`.
fn set_bit<F: PrimeField64>(part: &str, bits: &mut [F]) -> Result<(), Fault> {
    let Some((place, number)) = part.split_once(':') else {
        return Err(Fault::Unreadable(Why::NoSuchWord));
    };
    let number = element_of(number)?;
    match bits.get_mut(count_of(place)?) {
        Some(bit) => {
            *bit = number;
            Ok(())
        }
        None => Err(Fault::Unreadable(Why::OtherShape)),
    }
}

// Adds 32 elements. Those given as `PLACE:NUMBER`, separated by commas, are set; the others are zero.
fn push_bits<F: PrimeField64>(alloc: Global, word: &str, row: &mut Vec<F>) -> Result<(), Fault> {
    let mut bits = vec![in alloc; F::ZERO; 32]?;
    if word != "-" {
        for part in word.split(',') {
            set_bit(part, &mut bits)?;
        }
    }
    row.extend_from_slice(&bits)?;
    Ok(())
}

// The limbs of words.
fn limbs_of<F: PrimeField64>(alloc: Global, words: &[&str]) -> Result<Vec<F>, Fault> {
    let mut row = Vec::new(alloc);
    for word in words {
        push_limbs(alloc, *word, &mut row)?;
    }
    Ok(row)
}

// The limbs of a word, then the bits of two other words.
fn word_and_bits<F: PrimeField64>(
    alloc: Global,
    a: &str,
    b: &str,
    c: &str,
) -> Result<Vec<F>, Fault> {
    let mut row = Vec::new(alloc);
    push_limbs(alloc, a, &mut row)?;
    push_bits(alloc, b, &mut row)?;
    push_bits(alloc, c, &mut row)?;
    Ok(row)
}

fn show_sum<F: PrimeField64 + 'static>(
    alloc: Global,
    gadget: Gadget,
    words: &[&str],
    text: &mut String,
) -> Result<(), Fault> {
    let row: Vec<F> = limbs_of(alloc, words)?;
    show_checked(alloc, gadget, row, text)
}

fn show_xor<F: PrimeField64 + 'static>(
    alloc: Global,
    given: &[&str],
    text: &mut String,
) -> Result<(), Fault> {
    let [a, b, c, shift] = given else {
        return Err(Fault::Unreadable(Why::NoSuchCall));
    };
    let row: Vec<F> = word_and_bits(alloc, *a, *b, *c)?;
    show_checked(alloc, Gadget::Xor(count_of(*shift)?), row, text)
}

// A gadget, and the number of its columns.
fn gadget_of(call: &[&str]) -> Result<(Gadget, usize), Fault> {
    match call {
        ["add2"] => Ok((Gadget::SumOfTwo, 6)),
        ["add3"] => Ok((Gadget::SumOfThree, 8)),
        ["xor_32_shift", shift] => Ok((Gadget::Xor(count_of(*shift)?), 66)),
        _ => Err(Fault::Unreadable(Why::NoSuchCall)),
    }
}

fn show_degrees_of<F: Field>(alloc: Global, call: &[&str], text: &mut String) -> Result<(), Fault> {
    let (gadget, width) = gadget_of(call)?;
    show_degrees::<F>(alloc, gadget, width, text)
}

// Adds the answer of a gadget call over this field.
fn gadget_over<F: PrimeField64 + 'static>(
    alloc: Global,
    call: &[&str],
    text: &mut String,
) -> Result<(), Fault> {
    let [word, given @ ..] = call else {
        return Err(Fault::Unreadable(Why::NoSuchCall));
    };
    match *word {
        "add2" if given.len() == 3 => show_sum::<F>(alloc, Gadget::SumOfTwo, given, text),
        "add3" if given.len() == 4 => show_sum::<F>(alloc, Gadget::SumOfThree, given, text),
        "xor_32_shift" => show_xor::<F>(alloc, given, text),
        "degrees" => show_degrees_of::<F>(alloc, given, text),
        _ => Err(Fault::Unreadable(Why::NoSuchCall)),
    }
}

fn gadget_over_named(
    alloc: Global,
    field: &str,
    call: &[&str],
    text: &mut String,
) -> Result<(), Fault> {
    match field {
        "KoalaBear" => gadget_over::<KoalaBear>(alloc, call, text),
        "Mersenne31" => gadget_over::<Mersenne31>(alloc, call, text),
        "Goldilocks" => gadget_over::<Goldilocks>(alloc, call, text),
        _ => Err(Fault::Unreadable(Why::NoSuchCall)),
    }
}

/// Adds the answer of a gadget call over the named field, or over F without a name.
pub fn word_gadget<F: PrimeField64 + 'static>(
    alloc: Global,
    call: &[&str],
    text: &mut String,
) -> Result<(), Fault> {
    match call {
        ["over", field, call @ ..] => gadget_over_named(alloc, *field, call, text),
        call => gadget_over::<F>(alloc, call, text),
    }
}

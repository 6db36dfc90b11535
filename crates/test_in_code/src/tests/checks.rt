//! Failures at a row: batches given as arrays, and names that are read only where an assertion fails. The assertions
//! are in functions over any builder that is always ready and whose rings contain every element, and the builder is
//! made over any fields, since each call at concrete fields is slow to prove.

use crate::tests::labels::{Asking, zero_asking, zero_ext_asking};
use crate::tests::rows::{Element, Row, no_rows, root_times, row_with};
use air_audit::{
    AirBuilder, AirError, Algebra, AssertAll, AssertAllExt, AssertAllNamed, BabyBear,
    ExtensionBuilder, ExtensionField, Field, NamedAirBuilder, NamedExtensionBuilder, ViewPair,
};
use std::alloc::Global;
use std::cell::Cell;
use std::test::Fail;

// Asserts arrays. (They are passed on, because an array of a builder's elements can be made only where the element type
// is known. The bound is the array trait, so that each call here uses the given bound.)
fn assert_arrays<AB: AssertAll<2>>(
    builder: &mut AB,
    zeros: [AB::Expr; 2],
    bits: [AB::Expr; 2],
    ones: [AB::Expr; 2],
) -> Result<(), AirError>
    requires ready { (b : AB) → AB.ready b }
    requires of_ring { (r : AB.Ring) (e : AB.Expr) → AB.Ring.has r e }
{
    builder.assert_zeros(zeros)?;
    builder.assert_bools(bits)?;
    builder.assert_eq_arrays(bits, ones)
}

// Asserts arrays under names.
fn assert_named_arrays<AB: AssertAllNamed<2>>(
    builder: &mut AB,
    zeros: [AB::Expr; 2],
    bits: [AB::Expr; 2],
) -> Result<(), AirError>
    requires ready { (b : AB) → AB.ready b }
    requires of_ring { (r : AB.Ring) (e : AB.Expr) → AB.Ring.has r e }
{
    builder.assert_zeros_named(zeros, "zeros")?;
    builder.assert_bools_named(bits, "bits")
}

// Asserts arrays without and with names, and one array over the extension.
fn assert_all_arrays<AB: NamedExtensionBuilder>(
    builder: &mut AB,
    zeros: [AB::Expr; 2],
    bits: [AB::Expr; 2],
    ones: [AB::Expr; 2],
    roots: [AB::ExprEF; 2],
) -> Result<(), AirError>
    requires ready { (b : AB) → AB.ready b }
    requires of_ring { (r : AB.Ring) (e : AB.Expr) → AB.Ring.has r e }
    requires of_ext_ring { (r : AB.ExtRing) (e : AB.ExprEF) → AB.ExtRing.has r e }
{
    assert_arrays(builder, zeros, bits, ones)?;
    assert_named_arrays(builder, zeros, bits)?;
    builder.assert_zeros_ext(roots)
}

// Asserts all these arrays at a row.
fn assert_arrays_at_row<F: Field + 'static, EF: ExtensionField<F> + 'static>(
    builder: &mut Row<'_, F, EF>,
    zeros: [F; 2],
    bits: [F; 2],
    ones: [F; 2],
    roots: [EF; 2],
) -> Result<(), AirError> {
    assert_all_arrays(builder, zeros, bits, ones, roots)
}

// The failures of these arrays at a row.
fn failures_of_arrays<F: Field + 'static, EF: ExtensionField<F> + 'static>(
    alloc: Global,
    rows: ViewPair<'_, EF>,
    zeros: [F; 2],
    bits: [F; 2],
    ones: [F; 2],
    roots: [EF; 2],
) -> Result<String, AirError> {
    let mut builder: Row<'_, F, EF> = row_with(alloc, rows);
    assert_arrays_at_row(&mut builder, zeros, bits, ones, roots)?;
    builder.formatted_failures()
}

// In each array the second assertion fails.
#[test]
fn arrays_are_batches(rt: HostRuntime) -> Result<(), Fail> {
    let [zero, one, two] = [0, 1, 2].map(BabyBear::new);
    let roots = [root_times(0), root_times(1)];
    let failures = failures_of_arrays(
        rt.alloc(),
        no_rows(),
        [zero, two],
        [one, two],
        [one, one],
        roots,
    )?;
    assert_eq!(rt;
        failures.as_str(),
        "[#1, #3, #5, #7 \"zeros::[1]\", #9 \"bits::[1]\", #11]"
    );
    Ok(())
}

// Asserts under names that an element is one, equals itself, and is a bit.
fn ones_asking<AB: NamedAirBuilder>(
    builder: &mut AB,
    one: AB::Expr,
    asked: &Cell<u32>,
) -> Result<(), AirError>
    requires ready { (b : AB) → AB.ready b }
    requires of_ring { (r : AB.Ring) (e : AB.Expr) → AB.Ring.has r e }
{
    builder.assert_one_named(one, Asking(asked))?;
    builder.assert_eq_named(one, one, Asking(asked))?;
    builder.assert_bool_named(one, Asking(asked))
}

// Asserts batches of zeros and of ones, under names.
fn batches_asking<AB: NamedAirBuilder>(
    builder: &mut AB,
    zeros: &[AB::Expr],
    ones: &[AB::Expr],
    asked: &Cell<u32>,
) -> Result<(), AirError>
    requires ready { (b : AB) → AB.ready b }
    requires of_ring { (r : AB.Ring) (e : AB.Expr) → AB.Ring.has r e }
{
    builder.assert_zeros_named_slice(zeros, Asking(asked))?;
    builder.assert_bools_named_slice(ones, Asking(asked))
}

// Asserts over the extension, under names, that an element is one, and that an element equals itself.
fn ext_asking<AB: NamedExtensionBuilder>(
    builder: &mut AB,
    one: AB::ExprEF,
    x: AB::ExprEF,
    asked: &Cell<u32>,
) -> Result<(), AirError>
    requires ready { (b : AB) → AB.ready b }
    requires of_ext_ring { (r : AB.ExtRing) (e : AB.ExprEF) → AB.ExtRing.has r e }
{
    builder.assert_one_ext_named(one, Asking(asked))?;
    builder.assert_eq_ext_named(x, x, Asking(asked))
}

// Asserts under a name that an element is one.
fn one_asking<AB: NamedAirBuilder>(
    builder: &mut AB,
    x: AB::Expr,
    asked: &Cell<u32>,
) -> Result<(), AirError>
    requires ready { AB.ready builder.old }
    requires of_ring { AB.Ring.has (AB.ring_of builder.old) x }
{
    builder.assert_one_named(x, Asking(asked))
}

/// A claim. Its names set a counter when they are read.
#[derive(Drop)]
enum Claim<'a, E, X> {
    /// The element is zero.
    Zero(E),
    /// The element of the extension is zero.
    ZeroExt(X),
    /// The element is one.
    One(E),
    /// Claims that hold, one by each call.
    Holding {
        one: E,
        zeros: &'a [E],
        ones: &'a [E],
        one_ext: X,
        x: X,
    },
}

// Asserts claims that hold, one by each call.
fn holding_asking<AB: NamedExtensionBuilder>(
    builder: &mut AB,
    one: AB::Expr,
    zeros: &[AB::Expr],
    ones: &[AB::Expr],
    one_ext: AB::ExprEF,
    x: AB::ExprEF,
    asked: &Cell<u32>,
) -> Result<(), AirError>
    requires ready { (b : AB) → AB.ready b }
    requires of_ring { (r : AB.Ring) (e : AB.Expr) → AB.Ring.has r e }
    requires of_ext_ring { (r : AB.ExtRing) (e : AB.ExprEF) → AB.ExtRing.has r e }
{
    ones_asking(builder, one, asked)?;
    batches_asking(builder, zeros, ones, asked)?;
    ext_asking(builder, one_ext, x, asked)
}

// Asserts a claim.
fn claim_asking<AB: NamedExtensionBuilder>(
    builder: &mut AB,
    claim: Claim<'_, AB::Expr, AB::ExprEF>,
    asked: &Cell<u32>,
) -> Result<(), AirError>
    requires ready { (b : AB) → AB.ready b }
    requires of_ring { (r : AB.Ring) (e : AB.Expr) → AB.Ring.has r e }
    requires of_ext_ring { (r : AB.ExtRing) (e : AB.ExprEF) → AB.ExtRing.has r e }
{
    match claim {
        Claim::Zero(x) => zero_asking(builder, x, asked),
        Claim::ZeroExt(x) => zero_ext_asking(builder, x, asked),
        Claim::One(x) => one_asking(builder, x, asked),
        Claim::Holding {
            one,
            zeros,
            ones,
            one_ext,
            x,
        } => holding_asking(builder, one, zeros, ones, one_ext, x, asked),
    }
}

// Asserts a claim at a row. (That a builder at a row implements every builder trait is slow to prove, so all claims use
// this function.)
fn claim_at_row<'a, F: Field + 'static, EF: ExtensionField<F> + 'static>(
    builder: &mut Row<'a, F, EF>,
    claim: Claim<'a, F, EF>,
    asked: &Cell<u32>,
) -> Result<(), AirError> {
    claim_asking(builder, claim, asked)
}

// The counter at a row after claims of both kinds that hold, after one that fails, and after one over the extension
// that fails; and the failures.
fn counts_asked<F: Field + 'static, EF: ExtensionField<F> + 'static>(
    builder: &mut Row<'_, F, EF>,
    root: EF,
) -> Result<([u32; 3], String), AirError> {
    let asked = Cell::new(0u32);
    claim_at_row(builder, Claim::Zero(F::ZERO), &asked)?;
    claim_at_row(builder, Claim::ZeroExt(EF::zero()), &asked)?;
    let passing = asked.get();
    claim_at_row(builder, Claim::Zero(F::ONE), &asked)?;
    let failing = asked.get();
    claim_at_row(builder, Claim::ZeroExt(root), &asked)?;
    let failures = builder.formatted_failures()?;
    Ok(([passing, failing, asked.get()], failures))
}

// The counter and the failures for a builder with these permutation data.
fn counts_and_failures<F: Field + 'static, EF: ExtensionField<F> + 'static>(
    alloc: Global,
    rows: ViewPair<'_, EF>,
    root: EF,
) -> Result<([u32; 3], String), AirError> {
    let mut builder: Row<'_, F, EF> = row_with(alloc, rows);
    counts_asked(&mut builder, root)
}

#[test]
fn a_passing_assertion_asks_for_no_label(rt: HostRuntime) -> Result<(), Fail> {
    let (counts, failures) = counts_and_failures::<BabyBear, Element>(
        rt.alloc(),
        no_rows(),
        root_times(1),
    )?;
    assert_eq!(rt; counts, [0, 1, 2]);
    assert_eq!(rt; failures.as_str(), "[#2 \"base\", #3 \"extension\"]");
    Ok(())
}

// Whether claims that hold fail at a row, and the counter after them; then the counter and the failures after one more
// claim, which fails.
fn holding_and_one_more<'a, F: Field + 'static, EF: ExtensionField<F> + 'static>(
    builder: &mut Row<'a, F, EF>,
    holding: Claim<'a, F, EF>,
) -> Result<(bool, u32, u32, String), AirError> {
    let asked = Cell::new(0u32);
    claim_at_row(builder, holding, &asked)?;
    let (failed, holding) = (builder.has_failures(), asked.get());
    claim_at_row(builder, Claim::One(F::ZERO), &asked)?;
    let failures = builder.formatted_failures()?;
    Ok((failed, holding, asked.get(), failures))
}

// The same results for a builder with these permutation data.
fn what_holds_and_one_more<'a, F: Field + 'static, EF: ExtensionField<F> + 'static>(
    alloc: Global,
    rows: ViewPair<'a, EF>,
    zeros: &'a [F],
    ones: &'a [F],
    x: EF,
) -> Result<(bool, u32, u32, String), AirError> {
    let (one, one_ext) = (F::ONE, EF::one());
    let holding = Claim::Holding {
        one,
        zeros,
        ones,
        one_ext,
        x,
    };
    let mut builder: Row<'_, F, EF> = row_with(alloc, rows);
    holding_and_one_more(&mut builder, holding)
}

#[test]
fn what_holds_asks_for_no_label(rt: HostRuntime) -> Result<(), Fail> {
    let [zero, one] = [0, 1].map(BabyBear::new);
    let (failed, holding, failing, failures) = what_holds_and_one_more(
        rt.alloc(),
        no_rows(),
        &[zero],
        &[one],
        root_times(5),
    )?;
    assert_eq!(rt; failed, false);
    assert_eq!(rt; [holding, failing], [0, 1]);
    assert_eq!(rt; failures.as_str(), "[#7 \"asked\"]");
    Ok(())
}

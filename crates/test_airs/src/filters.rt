//! Assertions under one filter, or under a filter on a filter, since a filter is itself a builder.
ghost use Rattle.std.specs.Prelude.{OnOk};

use crate::assertions::assert_this;
use crate::constants::{constant, two_constants};
use air_builder::{AirBuilder, FilteredAirBuilder, NamedExtensionBuilder};
use std::alloc::Global;
use test_lines::{Fault, Why};

// Makes an assertion on a filter. (That a filter is a builder is slow to prove, so the other functions call this one.)
fn assert_on<'a, AB: NamedExtensionBuilder>(
    alloc: Global,
    filter: &mut FilteredAirBuilder<'a, AB>,
    call: &[&str],
) -> Result<(), Fault>
    requires { ⟦<FilteredAirBuilder<'a, AB> as AirBuilder>⟧.ready filter.old }
    ensures { OnOk result
        (⟦<FilteredAirBuilder<'a, AB> as AirBuilder>⟧.kept filter.old filter.new) }
{
    Ok(assert_this(alloc, filter, call)?)
}

// Makes an assertion under a condition.
fn assert_when<AB: NamedExtensionBuilder>(
    alloc: Global,
    builder: &mut AB,
    condition: AB::Expr,
    call: &[&str],
) -> Result<(), Fault>
    requires ready { AB.ready builder.old }
    requires of_ring { AB.Ring.has (AB.ring_of builder.old) condition }
    ensures { OnOk result (AB.kept builder.old builder.new) }
{
    let mut filter = builder.when(condition)?;
    Ok(assert_on(alloc, &mut filter, call)?)
}

// Makes an assertion where x and y differ.
fn assert_when_ne<AB: NamedExtensionBuilder>(
    alloc: Global,
    builder: &mut AB,
    x: AB::Expr,
    y: AB::Expr,
    call: &[&str],
) -> Result<(), Fault>
    requires ready { AB.ready builder.old }
    requires x_in { AB.Ring.has (AB.ring_of builder.old) x }
    requires y_in { AB.Ring.has (AB.ring_of builder.old) y }
    ensures { OnOk result (AB.kept builder.old builder.new) }
{
    let mut filter = builder.when_ne(x, y)?;
    Ok(assert_on(alloc, &mut filter, call)?)
}

// Makes an assertion on the first row.
fn assert_on_first_row<AB: NamedExtensionBuilder>(
    alloc: Global,
    builder: &mut AB,
    call: &[&str],
) -> Result<(), Fault>
    requires { AB.ready builder.old }
    ensures { OnOk result (AB.kept builder.old builder.new) }
{
    let mut filter = builder.when_first_row()?;
    Ok(assert_on(alloc, &mut filter, call)?)
}

// Makes an assertion on the last row.
fn assert_on_last_row<AB: NamedExtensionBuilder>(
    alloc: Global,
    builder: &mut AB,
    call: &[&str],
) -> Result<(), Fault>
    requires { AB.ready builder.old }
    ensures { OnOk result (AB.kept builder.old builder.new) }
{
    let mut filter = builder.when_last_row()?;
    Ok(assert_on(alloc, &mut filter, call)?)
}

// Makes an assertion on all rows but the last.
fn assert_on_transition<AB: NamedExtensionBuilder>(
    alloc: Global,
    builder: &mut AB,
    call: &[&str],
) -> Result<(), Fault>
    requires { AB.ready builder.old }
    ensures { OnOk result (AB.kept builder.old builder.new) }
{
    let mut filter = builder.when_transition()?;
    Ok(assert_on(alloc, &mut filter, call)?)
}

// Makes an assertion on the transitions of two-row windows.
fn assert_in_window<AB: NamedExtensionBuilder>(
    alloc: Global,
    builder: &mut AB,
    call: &[&str],
) -> Result<(), Fault>
    requires { AB.ready builder.old }
    ensures { OnOk result (AB.kept builder.old builder.new) }
{
    let ["2", call @ ..] = call else {
        return Err(Fault::Unreadable(Why::NoSuchCall));
    };
    let mut filter = builder.when_transition_window(2)?;
    Ok(assert_on(alloc, &mut filter, call)?)
}

// Makes an assertion under the condition given by the word after `when`.
fn assert_where<AB: NamedExtensionBuilder>(
    alloc: Global,
    builder: &mut AB,
    call: &[&str],
) -> Result<(), Fault>
    requires { AB.ready builder.old }
    ensures { OnOk result (AB.kept builder.old builder.new) }
{
    let [x, call @ ..] = call else {
        return Err(Fault::Unreadable(Why::NoSuchCall));
    };
    let x = constant::<AB::F, AB::Ring>(builder.ring(), *x)?;
    assert_when(alloc, builder, x, call)
}

// Makes an assertion where the two elements after `when_ne` differ.
fn assert_where_differs<AB: NamedExtensionBuilder>(
    alloc: Global,
    builder: &mut AB,
    call: &[&str],
) -> Result<(), Fault>
    requires { AB.ready builder.old }
    ensures { OnOk result (AB.kept builder.old builder.new) }
{
    let [x, y, call @ ..] = call else {
        return Err(Fault::Unreadable(Why::NoSuchCall));
    };
    let (x, y) = two_constants::<AB::F, AB::Ring>(builder.ring(), *x, *y)?;
    assert_when_ne(alloc, builder, x, y, call)
}

// Makes an assertion, on the filter named before it, if any.
fn assert_under<AB: NamedExtensionBuilder>(
    alloc: Global,
    builder: &mut AB,
    call: &[&str],
) -> Result<(), Fault>
    requires { AB.ready builder.old }
    ensures { OnOk result (AB.kept builder.old builder.new) }
{
    let [word, rest @ ..] = call else {
        return Err(Fault::Unreadable(Why::NoSuchCall));
    };
    match *word {
        "when" => assert_where(alloc, builder, rest),
        "when_ne" => assert_where_differs(alloc, builder, rest),
        "when_transition_window" => assert_in_window(alloc, builder, rest),
        "when_first_row" => assert_on_first_row(alloc, builder, rest),
        "when_last_row" => assert_on_last_row(alloc, builder, rest),
        "when_transition" => assert_on_transition(alloc, builder, rest),
        _ => assert_this(alloc, builder, call),
    }
}

// Makes an assertion under a condition, and on the filter named before it, if any.
fn assert_under_when<AB: NamedExtensionBuilder>(
    alloc: Global,
    builder: &mut AB,
    condition: AB::Expr,
    call: &[&str],
) -> Result<(), Fault>
    requires ready { AB.ready builder.old }
    requires of_ring { AB.Ring.has (AB.ring_of builder.old) condition }
    ensures { OnOk result (AB.kept builder.old builder.new) }
{
    let mut filter = builder.when(condition)?;
    Ok(assert_under(alloc, &mut filter, call)?)
}

// Makes an assertion under the condition after `when`, and on a second filter, if any.
fn assert_under_first<AB: NamedExtensionBuilder>(
    alloc: Global,
    builder: &mut AB,
    call: &[&str],
) -> Result<(), Fault>
    requires { AB.ready builder.old }
    ensures { OnOk result (AB.kept builder.old builder.new) }
{
    let [x, call @ ..] = call else {
        return Err(Fault::Unreadable(Why::NoSuchCall));
    };
    let x = constant::<AB::F, AB::Ring>(builder.ring(), *x)?;
    assert_under_when(alloc, builder, x, call)
}

// Makes an assertion, on the one or two filters named before it, if any.
fn assert_under_both<AB: NamedExtensionBuilder>(
    alloc: Global,
    builder: &mut AB,
    call: &[&str],
) -> Result<(), Fault>
    requires { AB.ready builder.old }
    ensures { OnOk result (AB.kept builder.old builder.new) }
{
    match call {
        ["when", call @ ..] => assert_under_first(alloc, builder, call),
        _ => assert_under(alloc, builder, call),
    }
}

// Makes an assertion, after which the builder is ready.
fn assert_next<AB: NamedExtensionBuilder>(
    alloc: Global,
    builder: &mut AB,
    call: &[&str],
) -> Result<(), Fault>
    requires { AB.ready builder.old }
    ensures { OnOk result (AB.ready builder.new) }
{
    Ok(assert_under_both(alloc, builder, call)?)
}

/// Makes the assertions, separated by `;`, in order.
pub fn assert_all<AB: NamedExtensionBuilder>(
    alloc: Global,
    builder: &mut AB,
    words: &[&str],
) -> Result<(), Fault>
    requires { AB.ready builder.old }
    ensures { OnOk result (AB.ready builder.new) }
{
    let mut call = Vec::new(alloc);
    for word in words {
        if *word == ";" {
            assert_next(alloc, builder, call.as_slice())?;
            call.clear();
        } else {
            call.push(*word)?;
        }
    }
    assert_next(alloc, builder, call.as_slice())
}

//! The variables and selectors that the symbolic builder gives, and its recordings of assertions over the extension.
ghost use Rattle.std.specs.Prelude.{[]};

use crate::expressions::{ShownVariable, show_base_expression, show_ext_expressions};
use crate::layouts::layout_of;
use crate::recordings::Recorder;
use air_builder::{
    AirBuilder, AirError, ExtensionBuilder, NamedExtensionBuilder, PermutationAirBuilder,
    WindowAccess,
};
use air_core::TwoRows;
use air_field::{Algebra, ExtAlgebra, ExtensionField, Field};
use air_recording::{AirLayout, SymbolicAirBuilder};
use air_symbolic::{BaseLeaf, ExprId, SymbolicVariable, SymbolicVariableExt};
use std::alloc::Global;
use test_lines::words::{Number, count_of, element_of, extension_of};
use test_lines::{Fault, Why};

// The element of a column in a window's current or next row.
fn in_row<T: Copy, W: WindowAccess<T>>(
    window: &W,
    row: &str,
    column: usize,
) -> Result<Option<T>, Fault>
    requires { W.is_window window.now }
{
    match row {
        "current" => Ok(window.current(column)),
        "next" => Ok(window.next(column)),
        _ => Err(Fault::Unreadable(Why::NoSuchWord)),
    }
}

// The element of a column in a row of a window, with row and column as words.
fn at<T: Copy>(window: &TwoRows<T>, row: &str, column: &str) -> Result<Option<T>, Fault> {
    in_row(window, row, count_of(column)?)
}

// Adds a variable, or `None`.
fn show_found<V: ShownVariable>(found: Option<V>, text: &mut String) -> Result<(), Fault> {
    match found {
        Some(v) => v.show(text),
        None => {
            text.push_str("None")?;
            Ok(())
        }
    }
}

fn show_variables<V: ShownVariable>(all: &[V], text: &mut String) -> Result<(), Fault> {
    for (place, v) in all.iter().enumerate() {
        text.push_str(if place == 0 { "" } else { " " })?;
        v.show(text)?;
    }
    Ok(())
}

// The selectors, by the calls that return them.
#[derive(Drop)]
enum Selector {
    FirstRow,
    LastRow,
    Transition,
    NarrowWindow,
    TransitionWindow,
}

// The selector for a window of this size.
fn window_selector(size: &str) -> Result<Selector, Fault> {
    match size {
        "1" => Ok(Selector::NarrowWindow),
        "2" => Ok(Selector::TransitionWindow),
        _ => Err(Fault::Unreadable(Why::NoSuchCall)),
    }
}

// The selector for a row.
fn row_selector(call: &str) -> Result<Selector, Fault> {
    match call {
        "is_first_row" => Ok(Selector::FirstRow),
        "is_last_row" => Ok(Selector::LastRow),
        "is_transition" => Ok(Selector::Transition),
        _ => Err(Fault::Unreadable(Why::NoSuchCall)),
    }
}

fn selector_of(call: &str, words: &[&str]) -> Result<Selector, Fault> {
    match words {
        [] => row_selector(call),
        [size] if call == "is_transition_window" => window_selector(*size),
        _ => Err(Fault::Unreadable(Why::NoSuchCall)),
    }
}

// The selector that a builder returns.
fn selector_in<AB: AirBuilder>(builder: &mut AB, selector: Selector) -> Result<AB::Expr, AirError>
    requires { AB.ready builder.old }
    ensures { AB.grew builder.old builder.new [] }
{
    match selector {
        Selector::FirstRow => builder.is_first_row(),
        Selector::LastRow => builder.is_last_row(),
        Selector::Transition => builder.is_transition(),
        Selector::NarrowWindow => builder.is_transition_window(1),
        Selector::TransitionWindow => builder.is_transition_window(2),
    }
}

// The selector that a builder returns; afterwards the builder is ready.
fn lent_selector<AB: AirBuilder>(builder: &mut AB, selector: Selector) -> Result<AB::Expr, AirError>
    requires { AB.ready builder.old }
    ensures { AB.ready builder.new }
{
    selector_in(builder, selector)
}

// Asserts that an element of the extension is zero, under a name.
fn assert_named<AB: NamedExtensionBuilder>(builder: &mut AB, x: AB::EF) -> Result<(), AirError>
    requires { AB.ready builder.old }
    ensures { AB.ready builder.new }
{
    let x = builder.ext_ring().ext_constant(x)?;
    builder.assert_zero_ext_named(x, "name")
}

// Asserts under a condition that `x` over the extension is zero.
fn assert_zero_ext_under<AB: ExtensionBuilder>(
    builder: &mut AB,
    condition: AB::Expr,
    x: AB::ExprEF,
) -> Result<(), AirError>
    requires ready { AB.ready builder.old }
    requires condition_in { AB.Ring.has (AB.ring_of builder.old) condition }
    requires x_in { AB.ExtRing.has (AB.ext_ring_of builder.old) x }
    ensures { AB.kept builder.old builder.new }
{
    let mut filter = builder.when(condition)?;
    filter.assert_zero_ext(x)
}

// Asserts under a constant condition that a constant of the extension is zero.
fn assert_constant_ext_under<AB: ExtensionBuilder>(
    builder: &mut AB,
    condition: AB::F,
    x: AB::EF,
) -> Result<(), AirError>
    requires { AB.ready builder.old }
    ensures { AB.ready builder.new }
{
    let x = builder.ext_ring().ext_constant(x)?;
    let condition = builder.ring().constant(condition)?;
    assert_zero_ext_under(builder, condition, x)
}

// The base variable at a row and a column of a window, or from `main_variable`.
fn base_variable<F: Field, EF: ExtensionField<F>>(
    builder: &Recorder<F, EF>,
    window: &str,
    row: &str,
    column: &str,
) -> Result<Option<SymbolicVariable<F>>, Fault> {
    match window {
        "main" => {
            let main = builder.main()?;
            at(&main, row, column)
        }
        "preprocessed" => at(builder.preprocessed(), row, column),
        _ => Ok(builder.main_variable(count_of(row)?, count_of(column)?)),
    }
}

// The extension variable at a row and a column of the permutation window, or from `permutation_variable`.
fn ext_variable<F: Field, EF: ExtensionField<F>>(
    builder: &Recorder<F, EF>,
    window: &str,
    row: &str,
    column: &str,
) -> Result<Option<SymbolicVariableExt<F, EF>>, Fault> {
    if window == "permutation" {
        let permutation = builder.permutation()?;
        return at(&permutation, row, column);
    }
    let (row, column) = (count_of(row)?, count_of(column)?);
    Ok(builder.permutation_variable(row, column)?)
}

// Adds the variable at a row and a column, over either field.
fn show_in_window<F: Field, EF: ExtensionField<F>>(
    builder: &Recorder<F, EF>,
    window: &str,
    row: &str,
    column: &str,
    text: &mut String,
) -> Result<(), Fault> {
    match window {
        "main" | "preprocessed" | "main_variable" => {
            show_found(base_variable(builder, window, row, column)?, text)
        }
        "permutation" | "permutation_variable" => {
            show_found(ext_variable(builder, window, row, column)?, text)
        }
        _ => Err(Fault::Unreadable(Why::NoSuchCall)),
    }
}

// A builder's list of variables over the base field, by name.
fn base_list<'a, F: Field, EF: ExtensionField<F>>(
    builder: &'a Recorder<F, EF>,
    list: &str,
) -> Option<&'a [SymbolicVariable<F>]> {
    match list {
        "public_values" => Some(builder.public_values()),
        "periodic_values" => Some(builder.periodic_values()),
        _ => None,
    }
}

// A builder's list of variables over the extension, by name.
fn ext_list<'a, F: Field, EF: ExtensionField<F>>(
    builder: &'a Recorder<F, EF>,
    list: &str,
) -> Option<&'a [SymbolicVariableExt<F, EF>]> {
    match list {
        "permutation_randomness" => Some(builder.permutation_randomness()),
        "permutation_values" => Some(builder.permutation_values()),
        _ => None,
    }
}

// Adds the list of variables that the word names. Returns whether there is such a list.
fn show_list<F: Field, EF: ExtensionField<F>>(
    builder: &Recorder<F, EF>,
    list: &str,
    text: &mut String,
) -> Result<bool, Fault> {
    match (base_list(builder, list), ext_list(builder, list)) {
        (Some(all), _) => show_variables(all, text)?,
        (None, Some(all)) => show_variables(all, text)?,
        (None, None) => return Ok(false),
    }
    Ok(true)
}

// A request to a builder that needs a mutable borrow.
#[derive(Drop)]
enum Asked<F, EF> {
    Selector(Selector),
    /// Assert under a name that the element is zero.
    Named(EF),
    /// Assert under the constant condition that the element is zero.
    Under(F, EF),
}

// The request to assert under a constant condition, from words.
fn asked_under<F: Field, EF: ExtensionField<F>>(
    alloc: Global,
    words: &[&str],
) -> Result<Asked<F, EF>, Fault> {
    match words {
        [condition, "assert_zero_ext", x @ ..] => {
            let x = extension_of::<F, EF>(alloc, x)?;
            Ok(Asked::Under(element_of(*condition)?, x))
        }
        _ => Err(Fault::Unreadable(Why::NoSuchCall)),
    }
}

fn asked_of<F: Field, EF: ExtensionField<F>>(
    alloc: Global,
    call: &str,
    words: &[&str],
) -> Result<Asked<F, EF>, Fault> {
    match call {
        "assert_zero_ext_named" => Ok(Asked::Named(extension_of::<F, EF>(alloc, words)?)),
        "when" => asked_under(alloc, words),
        _ => Ok(Asked::Selector(selector_of(call, words)?)),
    }
}

// Carries out the request. Returns the selector, if one is requested.
fn do_asked<AB: NamedExtensionBuilder>(
    builder: &mut AB,
    asked: Asked<AB::F, AB::EF>,
) -> Result<Option<AB::Expr>, AirError>
    requires { AB.ready builder.old }
    ensures { AB.ready builder.new }
{
    match asked {
        Asked::Selector(selector) => Ok(Some(lent_selector(builder, selector)?)),
        Asked::Named(x) => {
            assert_named(builder, x)?;
            Ok(None)
        }
        Asked::Under(condition, x) => {
            assert_constant_ext_under(builder, condition, x)?;
            Ok(None)
        }
    }
}

// Carries out the request on the symbolic builder. (That it implements all builder traits is slow to prove, so this is
// a function of its own.)
fn done_by<F: Field, EF: ExtensionField<F>>(
    builder: &mut Recorder<F, EF>,
    asked: Asked<F, EF>,
) -> Result<Option<ExprId<BaseLeaf<F>>>, AirError>
    requires { ⟦<SymbolicAirBuilder<F, EF> as AirBuilder>⟧.ready builder.old }
    ensures { ⟦<SymbolicAirBuilder<F, EF> as AirBuilder>⟧.ready builder.new }
{
    do_asked(builder, asked)
}

// Adds the selector that the builder returns, or its recorded extension constraints.
fn show_done<F: Number, EF: ExtensionField<F>>(
    alloc: Global,
    builder: &mut Recorder<F, EF>,
    call: &str,
    words: &[&str],
    text: &mut String,
) -> Result<(), Fault>
    requires { ⟦<SymbolicAirBuilder<F, EF> as AirBuilder>⟧.ready builder.old }
{
    match done_by(builder, asked_of::<F, EF>(alloc, call, words)?)? {
        Some(x) => show_base_expression(builder.ring(), x, 1, text),
        None => {
            let numbers = builder.extension_constraints().to_vec(alloc)?;
            show_ext_expressions(builder.ext_ring(), numbers.as_slice(), text)
        }
    }
}

// Adds the builder's answer to the request in words.
fn show_asked<F: Number, EF: ExtensionField<F>>(
    alloc: Global,
    builder: &mut Recorder<F, EF>,
    words: &[&str],
    text: &mut String,
) -> Result<(), Fault>
    requires { ⟦<SymbolicAirBuilder<F, EF> as AirBuilder>⟧.ready builder.old }
{
    match words {
        [window, row, column] => show_in_window(builder, *window, *row, *column, text),
        [list] if show_list(builder, *list, text)? => Ok(()),
        [call, words @ ..] => show_done(alloc, builder, *call, words, text),
        [] => Err(Fault::Unreadable(Why::NoSuchCall)),
    }
}

/// Adds the answer of a call on a builder with a layout.
pub fn answer_lent<F: Number, EF: ExtensionField<F>>(
    alloc: Global,
    words: &[&str],
    text: &mut String,
) -> Result<(), Fault> {
    let [layout, words @ ..] = words else {
        return Err(Fault::Unreadable(Why::NoSuchCall));
    };
    let layout = layout_of(AirLayout::default(), *layout)?;
    let mut builder: Recorder<F, EF> = SymbolicAirBuilder::new(alloc, layout)?;
    show_asked(alloc, &mut builder, words, text)
}

//! Assertions over constants, by the words of their calls, on any builder. Calls with the same operands share a
//! function: it makes the elements first, in one borrow of the ring, and then makes the call.
ghost use Rattle.std.specs.Prelude.{◌≡◌, [], ◌∷◌, All, IfOk, OnOk};

use crate::constants::{
    constant, constant_lists, constants, ext_constant, two_constants, two_ext_constants,
};
use crate::labels::Label;
use air_builder::{AirBuilder, AirError, ExtensionBuilder, NamedAirBuilder, NamedExtensionBuilder};
use air_core::{Namespace, NamespaceExt};
use std::alloc::Global;
use test_lines::{Fault, Why};

// The assertion of this word on an element.
fn assert_one_as<AB: AirBuilder>(builder: &mut AB, word: &str, x: AB::Expr) -> Result<(), AirError>
    requires ready { AB.ready builder.old }
    requires of_ring { AB.Ring.has (AB.ring_of builder.old) x }
    ensures { OnOk result (AB.kept builder.old builder.new) }
{
    match word {
        "assert_zero" => builder.assert_zero(x),
        "assert_one" => builder.assert_one(x),
        _ => builder.assert_bool(x),
    }
}

// Makes an assertion on one element.
fn assert_one_of<AB: AirBuilder>(
    builder: &mut AB,
    word: &str,
    elements: &[&str],
) -> Result<(), Fault>
    requires { AB.ready builder.old }
    ensures { OnOk result (AB.kept builder.old builder.new) }
{
    let [x] = elements else {
        return Err(Fault::Unreadable(Why::NoSuchCall));
    };
    let x = constant::<AB::F, AB::Ring>(builder.ring(), *x)?;
    Ok(assert_one_as(builder, word, x)?)
}

// Asserts that two elements are equal.
fn assert_equal<AB: AirBuilder>(builder: &mut AB, elements: &[&str]) -> Result<(), Fault>
    requires { AB.ready builder.old }
    ensures { OnOk result (AB.kept builder.old builder.new) }
{
    let [x, y] = elements else {
        return Err(Fault::Unreadable(Why::NoSuchCall));
    };
    let (x, y) = two_constants::<AB::F, AB::Ring>(builder.ring(), *x, *y)?;
    Ok(builder.assert_eq(x, y)?)
}

// The assertion of this word on each element of a list.
fn assert_each_as<AB: AirBuilder>(
    builder: &mut AB,
    word: &str,
    list: &[AB::Expr],
) -> Result<(), AirError>
    requires ready { AB.ready builder.old }
    requires of_ring { All (AB.Ring.has (AB.ring_of builder.old)) list.now }
    ensures { OnOk result (AB.kept builder.old builder.new) }
{
    match word {
        "assert_zeros_slice" => builder.assert_zeros_slice(list),
        _ => builder.assert_bools_slice(list),
    }
}

// Makes an assertion on each element of a list.
fn assert_each<AB: AirBuilder>(
    alloc: Global,
    builder: &mut AB,
    word: &str,
    list: &[&str],
) -> Result<(), Fault>
    requires { AB.ready builder.old }
    ensures { OnOk result (AB.kept builder.old builder.new) }
{
    let list = constants::<AB::F, AB::Ring>(alloc, builder.ring(), list)?;
    Ok(assert_each_as(builder, word, &list)?)
}

// Asserts that two lists are equal: the first half of the words, and the second half.
fn assert_lists<AB: AirBuilder>(
    alloc: Global,
    builder: &mut AB,
    lists: &[&str],
) -> Result<(), Fault>
    requires { AB.ready builder.old }
    ensures { OnOk result (AB.kept builder.old builder.new) }
{
    let (left, right) = lists.split_at(lists.len() / 2);
    let (left, right) = constant_lists::<AB::F, AB::Ring>(alloc, builder.ring(), left, right)?;
    if left.len() != right.len() {
        return Err(Fault::Unreadable(Why::OtherShape));
    }
    Ok(builder.assert_eq_slices(&left, &right)?)
}

// The constant of an element of the extension.
fn ext_element<AB: ExtensionBuilder>(
    alloc: Global,
    builder: &mut AB,
    word: &str,
) -> Result<AB::ExprEF, Fault>
    requires { AB.ready builder.old }
    ensures kept { AB.kept builder.old builder.new }
    ensures of_ring { IfOk result (AB.ExtRing.has (AB.ext_ring_of builder.new)) }
{
    ext_constant::<AB::F, AB::EF, AB::ExtRing>(alloc, builder.ext_ring(), word)
}

// The constants of two elements of the extension.
fn ext_elements<AB: ExtensionBuilder>(
    alloc: Global,
    builder: &mut AB,
    first: &str,
    second: &str,
) -> Result<(AB::ExprEF, AB::ExprEF), Fault>
    requires { AB.ready builder.old }
    ensures kept { AB.kept builder.old builder.new }
    ensures first { IfOk result (λ made. AB.ExtRing.has (AB.ext_ring_of builder.new) made.0) }
    ensures second { IfOk result (λ made. AB.ExtRing.has (AB.ext_ring_of builder.new) made.1) }
{
    two_ext_constants::<AB::F, AB::EF, AB::ExtRing>(alloc, builder.ext_ring(), first, second)
}

// The assertion of this word on an element of the extension.
fn assert_one_ext_as<AB: ExtensionBuilder>(
    builder: &mut AB,
    word: &str,
    x: AB::ExprEF,
) -> Result<(), AirError>
    requires ready { AB.ready builder.old }
    requires of_ring { AB.ExtRing.has (AB.ext_ring_of builder.old) x }
    ensures { OnOk result (AB.kept builder.old builder.new) }
{
    match word {
        "assert_zero_ext" => builder.assert_zero_ext(x),
        _ => builder.assert_one_ext(x),
    }
}

// Makes an assertion on one element of the extension.
fn assert_one_ext_of<AB: ExtensionBuilder>(
    alloc: Global,
    builder: &mut AB,
    word: &str,
    elements: &[&str],
) -> Result<(), Fault>
    requires { AB.ready builder.old }
    ensures { OnOk result (AB.kept builder.old builder.new) }
{
    let [x] = elements else {
        return Err(Fault::Unreadable(Why::NoSuchCall));
    };
    let x = ext_element(alloc, builder, *x)?;
    Ok(assert_one_ext_as(builder, word, x)?)
}

// A list of two elements. (An array of a builder's elements would need a bound on its size, which no clause can state.)
fn both<E: Copy>(alloc: Global, x: E, y: E) -> Result<Vec<E>, Fault>
    ensures { IfOk result (λ list. list.items ≡ x ∷ y ∷ []) }
{
    let mut list = Vec::with_capacity(alloc, 2)?;
    list.push(x)?;
    list.push(y)?;
    Ok(list)
}

// Makes an assertion on these two elements of the extension.
fn assert_ext_pair<AB: ExtensionBuilder>(
    alloc: Global,
    builder: &mut AB,
    word: &str,
    x: AB::ExprEF,
    y: AB::ExprEF,
) -> Result<(), Fault>
    requires ready { AB.ready builder.old }
    requires x_in { AB.ExtRing.has (AB.ext_ring_of builder.old) x }
    requires y_in { AB.ExtRing.has (AB.ext_ring_of builder.old) y }
    ensures { OnOk result (AB.kept builder.old builder.new) }
{
    match word {
        "assert_eq_ext" => Ok(builder.assert_eq_ext(x, y)?),
        "assert_zeros_ext_slice" => Ok(builder.assert_zeros_ext_slice(&both(alloc, x, y)?)?),
        _ => Err(Fault::Unreadable(Why::NoSuchCall)),
    }
}

// Makes an assertion on two elements of the extension.
fn assert_two_ext_of<AB: ExtensionBuilder>(
    alloc: Global,
    builder: &mut AB,
    word: &str,
    elements: &[&str],
) -> Result<(), Fault>
    requires { AB.ready builder.old }
    ensures { OnOk result (AB.kept builder.old builder.new) }
{
    let [x, y] = elements else {
        return Err(Fault::Unreadable(Why::NoSuchCall));
    };
    let (x, y) = ext_elements(alloc, builder, *x, *y)?;
    Ok(assert_ext_pair(alloc, builder, word, x, y)?)
}

// The assertion of this word on an element, under a name.
fn assert_one_named_as<AB: NamedAirBuilder, N: Namespace>(
    builder: &mut AB,
    word: &str,
    x: AB::Expr,
    name: N,
) -> Result<(), AirError>
    requires ready { AB.ready builder.old }
    requires of_ring { AB.Ring.has (AB.ring_of builder.old) x }
    requires can_evaluate { N.can_evaluate name }
    ensures { OnOk result (AB.kept builder.old builder.new) }
{
    match word {
        "assert_zero_named" => builder.assert_zero_named(x, name),
        "assert_one_named" => builder.assert_one_named(x, name),
        _ => builder.assert_bool_named(x, name),
    }
}

// Makes an assertion on one element under a name.
fn assert_one_named_of<AB: NamedAirBuilder, N: Namespace>(
    builder: &mut AB,
    word: &str,
    elements: &[&str],
    name: N,
) -> Result<(), Fault>
    requires ready { AB.ready builder.old }
    requires can_evaluate { N.can_evaluate name }
    ensures { OnOk result (AB.kept builder.old builder.new) }
{
    let [x] = elements else {
        return Err(Fault::Unreadable(Why::NoSuchCall));
    };
    let x = constant::<AB::F, AB::Ring>(builder.ring(), *x)?;
    Ok(assert_one_named_as(builder, word, x, name)?)
}

// Asserts that two elements are equal, under a name.
fn assert_equal_named<AB: NamedAirBuilder, N: Namespace>(
    builder: &mut AB,
    elements: &[&str],
    name: N,
) -> Result<(), Fault>
    requires ready { AB.ready builder.old }
    requires can_evaluate { N.can_evaluate name }
    ensures { OnOk result (AB.kept builder.old builder.new) }
{
    let [x, y] = elements else {
        return Err(Fault::Unreadable(Why::NoSuchCall));
    };
    let (x, y) = two_constants::<AB::F, AB::Ring>(builder.ring(), *x, *y)?;
    Ok(builder.assert_eq_named(x, y, name)?)
}

// The assertion of this word on each element of a list, under a name.
fn assert_each_named_as<AB: NamedAirBuilder, N: Namespace>(
    builder: &mut AB,
    word: &str,
    list: &[AB::Expr],
    name: N,
) -> Result<(), AirError>
    requires ready { AB.ready builder.old }
    requires of_ring { All (AB.Ring.has (AB.ring_of builder.old)) list.now }
    requires can_evaluate { N.can_evaluate name }
    ensures { OnOk result (AB.kept builder.old builder.new) }
{
    match word {
        "assert_zeros_named_slice" => builder.assert_zeros_named_slice(list, name),
        _ => builder.assert_bools_named_slice(list, name),
    }
}

// Makes an assertion on each element of a list, under a name.
fn assert_each_named<AB: NamedAirBuilder, N: Namespace>(
    alloc: Global,
    builder: &mut AB,
    word: &str,
    list: &[&str],
    name: N,
) -> Result<(), Fault>
    requires ready { AB.ready builder.old }
    requires can_evaluate { N.can_evaluate name }
    ensures { OnOk result (AB.kept builder.old builder.new) }
{
    let list = constants::<AB::F, AB::Ring>(alloc, builder.ring(), list)?;
    Ok(assert_each_named_as(builder, word, &list, name)?)
}

// The assertion of this word on an element of the extension, under a name.
fn assert_one_ext_named_as<AB: NamedExtensionBuilder, N: Namespace>(
    builder: &mut AB,
    word: &str,
    x: AB::ExprEF,
    name: N,
) -> Result<(), AirError>
    requires ready { AB.ready builder.old }
    requires of_ring { AB.ExtRing.has (AB.ext_ring_of builder.old) x }
    requires can_evaluate { N.can_evaluate name }
    ensures { OnOk result (AB.kept builder.old builder.new) }
{
    match word {
        "assert_zero_ext_named" => builder.assert_zero_ext_named(x, name),
        _ => builder.assert_one_ext_named(x, name),
    }
}

// Makes an assertion on one element of the extension under a name.
fn assert_one_ext_named_of<AB: NamedExtensionBuilder, N: Namespace>(
    alloc: Global,
    builder: &mut AB,
    word: &str,
    elements: &[&str],
    name: N,
) -> Result<(), Fault>
    requires ready { AB.ready builder.old }
    requires can_evaluate { N.can_evaluate name }
    ensures { OnOk result (AB.kept builder.old builder.new) }
{
    let [x] = elements else {
        return Err(Fault::Unreadable(Why::NoSuchCall));
    };
    let x = ext_element(alloc, builder, *x)?;
    Ok(assert_one_ext_named_as(builder, word, x, name)?)
}

// Asserts that two elements of the extension are equal, under a name.
fn assert_eq_ext_named_of<AB: NamedExtensionBuilder, N: Namespace>(
    alloc: Global,
    builder: &mut AB,
    elements: &[&str],
    name: N,
) -> Result<(), Fault>
    requires ready { AB.ready builder.old }
    requires can_evaluate { N.can_evaluate name }
    ensures { OnOk result (AB.kept builder.old builder.new) }
{
    let [x, y] = elements else {
        return Err(Fault::Unreadable(Why::NoSuchCall));
    };
    let (x, y) = ext_elements(alloc, builder, *x, *y)?;
    Ok(builder.assert_eq_ext_named(x, y, name)?)
}

// Makes an assertion on elements of the base field, under a name.
fn assert_named_base<AB: NamedAirBuilder, N: Namespace>(
    alloc: Global,
    builder: &mut AB,
    word: &str,
    elements: &[&str],
    name: N,
) -> Result<(), Fault>
    requires ready { AB.ready builder.old }
    requires can_evaluate { N.can_evaluate name }
    ensures { OnOk result (AB.kept builder.old builder.new) }
{
    match word {
        "assert_eq_named" => assert_equal_named(builder, elements, name),
        "assert_zeros_named_slice" | "assert_bools_named_slice" => {
            assert_each_named(alloc, builder, word, elements, name)
        }
        "assert_zero_named" | "assert_one_named" | "assert_bool_named" => {
            assert_one_named_of(builder, word, elements, name)
        }
        _ => Err(Fault::Unreadable(Why::NoSuchCall)),
    }
}

// Makes an assertion under a name.
fn assert_under_name<AB: NamedExtensionBuilder, N: Namespace>(
    alloc: Global,
    builder: &mut AB,
    call: &[&str],
    name: N,
) -> Result<(), Fault>
    requires ready { AB.ready builder.old }
    requires can_evaluate { N.can_evaluate name }
    ensures { OnOk result (AB.kept builder.old builder.new) }
{
    let [word, elements @ ..] = call else {
        return Err(Fault::Unreadable(Why::NoSuchCall));
    };
    match *word {
        "assert_zero_ext_named" | "assert_one_ext_named" => {
            assert_one_ext_named_of(alloc, builder, *word, elements, name)
        }
        "assert_eq_ext_named" => assert_eq_ext_named_of(alloc, builder, elements, name),
        _ => assert_named_base(alloc, builder, *word, elements, name),
    }
}

// The number of words before `under`.
fn words_before_name(call: &[&str]) -> usize {
    let mut count = 0usize;
    for word in call {
        if *word == "under" {
            return count;
        }
        count = count.saturating_add(1);
    }
    count
}

// Makes an assertion without a name on elements of the base field.
fn assert_bare_base<AB: AirBuilder>(
    alloc: Global,
    builder: &mut AB,
    word: &str,
    elements: &[&str],
) -> Result<(), Fault>
    requires { AB.ready builder.old }
    ensures { OnOk result (AB.kept builder.old builder.new) }
{
    match word {
        "assert_eq" => assert_equal(builder, elements),
        "assert_eq_slices" => assert_lists(alloc, builder, elements),
        "assert_zeros_slice" | "assert_bools_slice" => assert_each(alloc, builder, word, elements),
        "assert_zero" | "assert_one" | "assert_bool" => assert_one_of(builder, word, elements),
        _ => Err(Fault::Unreadable(Why::NoSuchCall)),
    }
}

// Makes an assertion without a name.
fn assert_bare<AB: ExtensionBuilder>(
    alloc: Global,
    builder: &mut AB,
    call: &[&str],
) -> Result<(), Fault>
    requires { AB.ready builder.old }
    ensures { OnOk result (AB.kept builder.old builder.new) }
{
    let [word, elements @ ..] = call else {
        return Err(Fault::Unreadable(Why::NoSuchCall));
    };
    match *word {
        "assert_zero_ext" | "assert_one_ext" => assert_one_ext_of(alloc, builder, *word, elements),
        "assert_eq_ext" | "assert_zeros_ext_slice" => {
            assert_two_ext_of(alloc, builder, *word, elements)
        }
        _ => assert_bare_base(alloc, builder, *word, elements),
    }
}

/// Makes an assertion. After it may follow `under` and one to three names, each nested in the one before.
pub fn assert_this<AB: NamedExtensionBuilder>(
    alloc: Global,
    builder: &mut AB,
    call: &[&str],
) -> Result<(), Fault>
    requires { AB.ready builder.old }
    ensures { OnOk result (AB.kept builder.old builder.new) }
{
    let (said, names) = call.split_at(words_before_name(call).min(call.len()));
    match names {
        [] => assert_bare(alloc, builder, said),
        [_, a] => assert_under_name(alloc, builder, said, Label::new(*a)),
        [_, a, b] => {
            assert_under_name(alloc, builder, said, Label::new(*a).join(Label::new(*b)))
        }
        [_, a, b, c] => {
            let space = Label::new(*a).join(Label::new(*b));
            assert_under_name(alloc, builder, said, space.name(Label::new(*c)))
        }
        _ => Err(Fault::Unreadable(Why::NoSuchCall)),
    }
}

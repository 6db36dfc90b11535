//! Forms of JSON values, and why a value doesn't have one.
ghost use Rattle.std.specs.Prelude.{IfOk};
ghost use Rattle.serde_json.specs.View.{view, items_view};
ghost use Rattle.air_reason.specs.Reasons.{Check, Tells, under, in_items, needed, optional};

use serde_json::Value;
use std::alloc::{AllocError, Global};
use std::marker::PhantomData;

/// The text of a reason, if there is one.
pub(crate) type Told = Result<Option<String>, AllocError>;

/// A form of JSON values.
pub(crate) trait Form {
    ghost check: { Check };

    /// Why the value doesn't have the form: the text behind its path.
    fn reason(alloc: Global, value: &Value) -> Told
        ensures { IfOk result (Tells (check (view value.now))) };
}

/// A list of values of this form.
pub(crate) struct ListOf<T> {
    items: PhantomData<T>,
}

// Why the first item that doesn't have the form doesn't.
fn items_reason<T: Form>(alloc: Global, items: &[Value]) -> Told
    ensures { IfOk result (Tells (in_items T.check 0 (items_view items.now))) }
{
    for (index, item) in items.iter().enumerate() {
        if let Some(behind) = T::reason(alloc, item)? {
            return Ok(Some(format!(in alloc; "[{index}]{behind}")?));
        }
    }
    Ok(None)
}

impl<T: Form> Form for ListOf<T> {
    ghost use Rattle.air_reason.specs.Reasons.{in_list};

    ghost check = { in_list T.check };

    fn reason(alloc: Global, value: &Value) -> Told {
        match value.as_array() {
            Some(items) => items_reason::<T>(alloc, items),
            None => Ok(Some(String::from_str(alloc, ": not a list")?)),
        }
    }
}

// Why the value of the member of this name doesn't have the form.
fn found_reason<T: Form>(alloc: Global, name: &str, value: &Value) -> Told
    ensures { IfOk result (Tells (under name.now (T.check (view value.now)))) }
{
    match T::reason(alloc, value)? {
        Some(behind) => Ok(Some(format!(in alloc; "{name}{behind}")?)),
        None => Ok(None),
    }
}

/// Why the object doesn't have a member of this name and form.
pub(crate) fn needed_reason<T: Form>(alloc: Global, value: &Value, name: &str) -> Told
    ensures { IfOk result (Tells (needed name.now T.check (view value.now))) }
{
    match value.get(name) {
        Some(member) => found_reason::<T>(alloc, name, member),
        None => Ok(Some(format!(in alloc; "{name} is missing")?)),
    }
}

/// Why the object's member of this name, if there is one, doesn't have the form.
pub(crate) fn optional_reason<T: Form>(alloc: Global, value: &Value, name: &str) -> Told
    ensures { IfOk result (Tells (optional name.now T.check (view value.now))) }
{
    match value.get(name) {
        Some(member) => found_reason::<T>(alloc, name, member),
        None => Ok(None),
    }
}

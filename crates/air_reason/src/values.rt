//! The forms of numbers, boundary values, caps and labels.
ghost use Rattle.std.specs.Prelude.{◌≡◌, nat_lt, IfOk};
ghost use Rattle.serde_json.specs.View.{view};
ghost use Rattle.air_reason.specs.Members.{end_or, field};
ghost use Rattle.air_reason.specs.Reasons.{Tells};

use crate::forms::{Form, Told, needed_reason};
use air_core::BoundaryEnd;
use air_field::PrimeField64;
use air_json::{Plain, whole_number};
use serde_json::Value;
use std::alloc::Global;
use std::marker::PhantomData;

/// A whole number.
pub(crate) struct Whole {}

impl Form for Whole {
    ghost use Rattle.air_reason.specs.Members.{whole};

    ghost check = { whole };

    fn reason(alloc: Global, value: &Value) -> Told {
        match whole_number(value) {
            Some(_) => Ok(None),
            None => Ok(Some(String::from_str(alloc, ": not a whole number below 2^64")?)),
        }
    }
}

fn is_below(number: usize, modulus: u64) -> bool
    ensures { result ≡ nat_lt number modulus }
{
    (number as u64) < modulus
}

/// An element of the field.
pub(crate) struct Element<F> {
    field: PhantomData<F>,
}

impl<F: PrimeField64> Form for Element<F> {
    ghost use Rattle.air_reason.specs.Members.{element};

    ghost check = { element F.ORDER_U64 };

    fn reason(alloc: Global, value: &Value) -> Told {
        let Some(number) = whole_number(value) else {
            return Ok(Some(String::from_str(alloc, ": not a whole number below 2^64")?));
        };
        let modulus = F::ORDER_U64;
        if is_below(number, modulus) {
            return Ok(None);
        }
        let text = format!(in alloc; ": {number} is not below the modulus {modulus}")?;
        Ok(Some(text))
    }
}

/// An end of the trace.
struct End {}

impl Form for End {
    ghost use Rattle.air_json.specs.Boundaries.{end_of};
    ghost use Rattle.air_reason.specs.Members.{end_or};

    ghost check = { λ d. end_or (end_of d) };

    fn reason(alloc: Global, value: &Value) -> Told {
        match BoundaryEnd::read(value) {
            Some(_) => Ok(None),
            None => Ok(Some(String::from_str(alloc, ": neither First nor Last")?)),
        }
    }
}

// Why a part of the object doesn't have a member of this name and form.
fn field_reason<T: Form>(alloc: Global, value: &Value, name: &str) -> Told
    ensures { IfOk result (Tells (field name.now T.check (view value.now))) }
{
    match needed_reason::<T>(alloc, value, name)? {
        Some(behind) => Ok(Some(format!(in alloc; ".{behind}")?)),
        None => Ok(None),
    }
}

/// A boundary value.
pub(crate) struct Cell {}

impl Form for Cell {
    ghost use Rattle.air_reason.specs.Members.{cell};

    ghost check = { cell };

    #[tactic(auto, unfolding(crate::specs::Members::cell))]
    fn reason(alloc: Global, value: &Value) -> Told {
        if let Some(text) = field_reason::<Whole>(alloc, value, "column")? {
            return Ok(Some(text));
        }
        if let Some(text) = field_reason::<End>(alloc, value, "end")? {
            return Ok(Some(text));
        }
        field_reason::<Whole>(alloc, value, "public_value")
    }
}

/// A cap.
pub(crate) struct Cap {}

impl Form for Cap {
    ghost use Rattle.air_reason.specs.Members.{cap};

    ghost check = { cap };

    #[tactic(auto, unfolding(crate::specs::Members::cap))]
    fn reason(alloc: Global, value: &Value) -> Told {
        if value.is_null() || whole_number(value).is_some() {
            return Ok(None);
        }
        let text = ": neither null nor a whole number below 2^64";
        Ok(Some(String::from_str(alloc, text)?))
    }
}

/// A label.
pub(crate) struct Label {}

impl Form for Label {
    ghost use Rattle.air_reason.specs.Members.{label};

    ghost check = { label };

    fn reason(alloc: Global, value: &Value) -> Told {
        match value.as_str() {
            Some(_) => Ok(None),
            None => Ok(Some(String::from_str(alloc, ": not a text")?)),
        }
    }
}

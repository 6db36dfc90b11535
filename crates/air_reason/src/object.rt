//! The whole object.
ghost use Rattle.std.specs.Prelude.{IfOk};
ghost use Rattle.serde_json.specs.View.{view};
ghost use Rattle.air_reason.specs.Members.{input_members, labelled_members, no_object, input_reason, labelled_reason};
ghost use Rattle.air_reason.specs.Reasons.{Tells};

use crate::forms::Told;
use crate::members::{
    constraints_reason, further_reason, labels_reason, traces_reason, whole_rows_reason,
};
use air_field::PrimeField64;
use serde_json::Value;
use std::alloc::{AllocError, Global};

fn input_members_reason<F: PrimeField64>(alloc: Global, value: &Value) -> Told
    ensures { IfOk result (Tells (input_members F.residues (view value.now))) }
{
    if let Some(text) = traces_reason::<F>(alloc, value)? {
        return Ok(Some(text));
    }
    if let Some(text) = constraints_reason::<F>(alloc, value)? {
        return Ok(Some(text));
    }
    if let Some(text) = further_reason::<F>(alloc, value)? {
        return Ok(Some(text));
    }
    if let Some(text) = labels_reason(alloc, value)? {
        return Ok(Some(text));
    }
    whole_rows_reason(alloc, value)
}

fn labelled_members_reason<F: PrimeField64>(alloc: Global, value: &Value) -> Told
    ensures { IfOk result (Tells (labelled_members F.residues (view value.now))) }
{
    if let Some(text) = constraints_reason::<F>(alloc, value)? {
        return Ok(Some(text));
    }
    labels_reason(alloc, value)
}

fn no_object_text(alloc: Global) -> Told
    ensures { IfOk result (Tells no_object) }
{
    Ok(Some(String::from_str(alloc, "the value is not an object")?))
}

/// Why the value is no input over F, as one line: the path of the first part that is missing or hasn't its form, and
/// what is wrong there; `None` if it is an input. Members are read in the order of
/// [`flat_input_from`](air_object::flat_input_from).
#[tactic(auto, unfolding(crate::specs::Members::input_reason))]
pub fn input_reason<F: PrimeField64>(
    alloc: Global,
    value: &Value,
) -> Result<Option<String>, AllocError>
    ensures { IfOk result (Tells (input_reason F.residues (view value.now))) }
{
    if value.is_object() {
        input_members_reason::<F>(alloc, value)
    } else {
        no_object_text(alloc)
    }
}

/// The same of only the constraints and their labels.
#[tactic(auto, unfolding(crate::specs::Members::labelled_reason))]
pub fn labelled_reason<F: PrimeField64>(
    alloc: Global,
    value: &Value,
) -> Result<Option<String>, AllocError>
    ensures { IfOk result (Tells (labelled_reason F.residues (view value.now))) }
{
    if value.is_object() {
        labelled_members_reason::<F>(alloc, value)
    } else {
        no_object_text(alloc)
    }
}

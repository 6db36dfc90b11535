//! The members of the object.
ghost use Rattle.std.specs.Prelude.{◌≡◌, IfOk};
ghost use Rattle.serde_json.specs.View.{view};
ghost use Rattle.air_field.specs.Matrix.{is_ragged};
ghost use Rattle.air_reason.specs.Members.{count_in, surplus, no_rows, rows, labels, table, traces, constraints, further, whole_rows};
ghost use Rattle.air_reason.specs.Reasons.{Tells};

use crate::forms::{ListOf, Told, needed_reason, optional_reason};
use crate::nodes::Constraint;
use crate::values::{Cap, Cell, Element, Label, Whole};
use air_field::PrimeField64;
use air_json::whole_at;
use serde_json::Value;
use std::alloc::Global;

type Elements<F> = ListOf<Element<F>>;

// The number of items of the member of this name, if it is a list.
#[tactic(auto, using(crate::proofs::Items::count_is))]
fn count_in(value: &Value, name: &str) -> Option<usize>
    ensures { result ≡ count_in name.now (view value.now) }
{
    let items = value.get(name)?.as_array()?;
    Some(items.len())
}

// Why the preprocessed trace isn't read.
#[tactic(auto, unfolding(crate::specs::Members::table))]
fn table_reason<F: PrimeField64>(alloc: Global, value: &Value) -> Told
    ensures { IfOk result (Tells (table F.ORDER_U64 (view value.now))) }
{
    if value.get("preprocessed_width").is_none() && value.get("preprocessed").is_none() {
        return Ok(None);
    }
    if let Some(text) = needed_reason::<Whole>(alloc, value, "preprocessed_width")? {
        return Ok(Some(text));
    }
    needed_reason::<Elements<F>>(alloc, value, "preprocessed")
}

/// Why the traces or the public values aren't read.
#[tactic(auto, unfolding(crate::specs::Members::traces))]
pub(crate) fn traces_reason<F: PrimeField64>(alloc: Global, value: &Value) -> Told
    ensures { IfOk result (Tells (traces F.ORDER_U64 (view value.now))) }
{
    if let Some(text) = needed_reason::<Whole>(alloc, value, "main_width")? {
        return Ok(Some(text));
    }
    if let Some(text) = needed_reason::<Elements<F>>(alloc, value, "main")? {
        return Ok(Some(text));
    }
    if let Some(text) = table_reason::<F>(alloc, value)? {
        return Ok(Some(text));
    }
    needed_reason::<Elements<F>>(alloc, value, "public_values")
}

/// Why the constraints aren't read.
#[tactic(auto, unfolding(crate::specs::Members::constraints))]
pub(crate) fn constraints_reason<F: PrimeField64>(alloc: Global, value: &Value) -> Told
    ensures { IfOk result (Tells (constraints F.residues (view value.now))) }
{
    needed_reason::<ListOf<Constraint<F>>>(alloc, value, "constraints")
}

/// Why the periodic columns, the boundary values, the cap or the weight aren't read.
#[tactic(auto, unfolding(crate::specs::Members::further))]
pub(crate) fn further_reason<F: PrimeField64>(alloc: Global, value: &Value) -> Told
    ensures { IfOk result (Tells (further F.ORDER_U64 (view value.now))) }
{
    if let Some(text) = optional_reason::<ListOf<Elements<F>>>(alloc, value, "periodic")? {
        return Ok(Some(text));
    }
    if let Some(text) = optional_reason::<ListOf<Cell>>(alloc, value, "boundary")? {
        return Ok(Some(text));
    }
    if let Some(text) = optional_reason::<Cap>(alloc, value, "cap")? {
        return Ok(Some(text));
    }
    optional_reason::<Whole>(alloc, value, "transition_weight")
}

// That there are more labels than constraints.
fn surplus_reason(alloc: Global, labels: Option<usize>, constraints: Option<usize>) -> Told
    ensures { IfOk result (Tells (surplus labels constraints)) }
{
    let (Some(labels), Some(constraints)) = (labels, constraints) else {
        return Ok(None);
    };
    if labels <= constraints {
        return Ok(None);
    }
    let text = format!(in alloc; "labels: {labels} labels for {constraints} constraints")?;
    Ok(Some(text))
}

/// Why the labels aren't read.
#[tactic(auto, unfolding(crate::specs::Members::labels))]
pub(crate) fn labels_reason(alloc: Global, value: &Value) -> Told
    ensures { IfOk result (Tells (labels (view value.now))) }
{
    if let Some(text) = optional_reason::<ListOf<Label>>(alloc, value, "labels")? {
        return Ok(Some(text));
    }
    surplus_reason(
        alloc,
        count_in(value, "labels"),
        count_in(value, "constraints"),
    )
}

// Whether this number of values doesn't make whole rows.
fn is_ragged(values: usize, width: usize) -> bool
    ensures { result ≡ is_ragged values width }
{
    if width == 0 {
        values != 0
    } else {
        values % width != 0
    }
}

// That the values of a trace aren't whole rows.
fn no_rows_reason(alloc: Global, name: &str, width: Option<usize>, values: Option<usize>) -> Told
    ensures { IfOk result (Tells (no_rows name.now width values)) }
{
    let (Some(width), Some(values)) = (width, values) else {
        return Ok(None);
    };
    if !is_ragged(values, width) {
        return Ok(None);
    }
    let text = format!(in alloc; "{name}: {values} values are no rows of {width}")?;
    Ok(Some(text))
}

#[tactic(auto, unfolding(crate::specs::Members::rows))]
fn rows_reason(alloc: Global, value: &Value, width: &str, name: &str) -> Told
    ensures { IfOk result (Tells (rows width.now name.now (view value.now))) }
{
    no_rows_reason(alloc, name, whole_at(value, width), count_in(value, name))
}

/// That the values of a trace aren't whole rows.
#[tactic(auto, unfolding(crate::specs::Members::whole_rows))]
pub(crate) fn whole_rows_reason(alloc: Global, value: &Value) -> Told
    ensures { IfOk result (Tells (whole_rows (view value.now))) }
{
    if let Some(text) = rows_reason(alloc, value, "main_width", "main")? {
        return Ok(Some(text));
    }
    rows_reason(alloc, value, "preprocessed_width", "preprocessed")
}

//! The labels of constraints.
ghost use Rattle.std.specs.Prelude.{[], map, string_bytes};
ghost use Rattle.serde_json.specs.View.{view, items_view};
ghost use Rattle.air_json.specs.Results.{Gives};
ghost use Rattle.air_object.specs.Readers.{each_from, label_read, labels, labels_member};

use air_json::FlatError;
use serde_json::Value;
use std::alloc::Global;

fn label_from(alloc: Global, value: &Value) -> Result<String, FlatError>
    ensures { Gives string_bytes result (label_read (view value.now)) }
{
    let text = value.as_str().ok_or(FlatError::Shape { at: 0 })?;
    let label = String::from_str(alloc, text)?;
    Ok(label)
}

fn labels_of(alloc: Global, items: &[Value]) -> Result<Vec<String>, FlatError>
    ensures { Gives (λ v. map string_bytes v.items) result
        (each_from label_read [] (items_view items.now)) }
{
    let mut labels = Vec::new(alloc);
    for item in items {
        let label = label_from(alloc, item)?;
        labels.push(label)?;
    }
    Ok(labels)
}

// The labels in the value, at most `most` of them.
#[tactic(auto, unfolding(crate::specs::Readers::labels))]
fn labels_from(alloc: Global, value: &Value, most: usize) -> Result<Vec<String>, FlatError>
    ensures { Gives (λ v. map string_bytes v.items) result (labels most (view value.now)) }
{
    let items = value.as_array().ok_or(FlatError::Shape { at: 0 })?;
    let labels = labels_of(alloc, items)?;
    if labels.len() > most {
        return Err(FlatError::Shape { at: 0 });
    }
    Ok(labels)
}

/// The labels of an object with this number of constraints.
#[tactic(auto, unfolding(crate::specs::Readers::labels_member))]
pub(crate) fn labels_at(
    alloc: Global,
    value: &Value,
    constraints: usize,
) -> Result<Vec<String>, FlatError>
    ensures { Gives (λ v. map string_bytes v.items) result
        (labels_member constraints (view value.now)) }
{
    match value.get("labels") {
        Some(labels) => labels_from(alloc, labels, constraints),
        None => Ok(Vec::new(alloc)),
    }
}

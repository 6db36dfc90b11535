//! Lists of whole numbers, as fields of structs.
ghost use Rattle.std.specs.Prelude.{◌≡◌, IfOk, ok_or};
ghost use Rattle.serde_json.specs.View.{view};
ghost use Rattle.air_json.specs.Results.{Gives};
ghost use Rattle.air_json.specs.WholeNumbers.{wholes_data, wholes_at};

use crate::errors::FlatError;
use crate::ext_leaf::whole_numbers;
use serde_json::Value;
use std::alloc::{AllocError, Global};

/// The list of these numbers.
pub fn wholes_value(alloc: Global, numbers: &[usize]) -> Result<Value, AllocError>
    ensures { IfOk result (λ v. view v ≡ wholes_data numbers.now) }
{
    let mut items = Vec::new(alloc);
    for number in numbers {
        items.push(Value::from(*number))?;
    }
    Ok(Value::from(items))
}

/// The list of whole numbers that is a field of an object. Fails with `Shape` at place 0 if there is none, or with
/// `Memory`.
#[tactic(auto, unfolding(crate::specs::WholeNumbers::wholes_at))]
pub fn wholes_at(alloc: Global, value: &Value, name: &str) -> Result<Vec<usize>, FlatError>
    ensures { Gives (λ v. v.items) result
        (ok_or (wholes_at name.now (view value.now)) (FlatError.Shape 0)) }
{
    let shape = FlatError::Shape { at: 0 };
    let list = value.get(name).ok_or(shape)?;
    let items = list.as_array().ok_or(shape)?;
    whole_numbers(alloc, 0, items)
}

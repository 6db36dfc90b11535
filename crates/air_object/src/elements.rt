//! Lists of field elements.
ghost use Rattle.std.specs.Prelude.{◌≡◌, [], map, Ok, Err};
ghost use Rattle.serde_json.specs.View.{view, items_view};
ghost use Rattle.air_json.specs.BaseLeaves.{element_at};
ghost use Rattle.air_json.specs.Results.{Gives};
ghost use Rattle.air_json.specs.declared.errors.FlatError.TheVariants.{Shape};
ghost use Rattle.air_object.specs.Parts.{GivenElements, AreElements, given_elements, read_one_more};
ghost use Rattle.air_object.specs.Readers.{each_from, elements, columns};

use air_field::PrimeField64;
use air_json::{FlatError, element_from};
use serde_json::Value;
use std::alloc::Global;

/// Field elements that are read ahead of other members, or their first fault.
pub type Elements<F> = Result<Vec<F>, FlatError>;

fn elements_of<F: PrimeField64>(alloc: Global, items: &[Value]) -> Result<Vec<F>, FlatError>
    ensures { Gives (λ v. v.items) result
        (each_from (element_at F.residues 0) [] (items_view items.now)) }
{
    let mut elements = Vec::new(alloc);
    for item in items {
        let element = element_from(0, item)?;
        elements.push(element)?;
    }
    Ok(elements)
}

/// The elements in the value, by their canonical numbers.
#[tactic(auto, unfolding(crate::specs::Readers::elements))]
pub fn elements_from<F: PrimeField64>(alloc: Global, value: &Value) -> Result<Vec<F>, FlatError>
    ensures { Gives (λ v. v.items) result (elements F.residues (view value.now)) }
{
    let items = value.as_array().ok_or(FlatError::Shape { at: 0 })?;
    elements_of(alloc, items)
}

/// No elements.
pub(crate) fn no_elements<F: PrimeField64>(alloc: Global) -> Elements<F>
    ensures none { given_elements result ≡ Ok [] }
    ensures given { AreElements (Ok []) result }
{
    Ok(Vec::new(alloc))
}

/// The fault of an object without the member.
pub(crate) fn missing_elements<F: PrimeField64>() -> Elements<F>
    ensures fault { result ≡ Err (Shape 0) }
    ensures given { AreElements (Err (Shape 0)) result }
{
    Err(FlatError::Shape { at: 0 })
}

// Appends the element in the value, or answers its fault.
fn push_element<F: PrimeField64>(mut before: Vec<F>, item: &Value) -> Elements<F>
    ensures { AreElements (read_one_more (element_at F.residues 0) (Ok before.items)
        (view item.now)) result }
{
    let element = element_from(0, item)?;
    before.push(element)?;
    Ok(before)
}

/// Appends the element in the value; after a fault, no further element is read.
pub(crate) fn with_element<F: PrimeField64>(before: Elements<F>, item: &Value) -> Elements<F>
    ensures { (given : GivenElements F) → AreElements given before
        → AreElements (read_one_more (element_at F.residues 0) given (view item.now)) result }
{
    match before {
        Ok(before) => push_element(before, item),
        Err(fault) => Err(fault),
    }
}

fn columns_of<F: PrimeField64>(alloc: Global, items: &[Value]) -> Result<Vec<Vec<F>>, FlatError>
    ensures { Gives (λ v. map (λ c. c.items) v.items) result
        (each_from (elements F.residues) [] (items_view items.now)) }
{
    let mut columns = Vec::new(alloc);
    for item in items {
        let column = elements_from(alloc, item)?;
        columns.push(column)?;
    }
    Ok(columns)
}

/// The lists of elements in the value.
#[tactic(auto, unfolding(crate::specs::Readers::columns))]
pub fn columns_from<F: PrimeField64>(alloc: Global, value: &Value) -> Result<Vec<Vec<F>>, FlatError>
    ensures { Gives (λ v. map (λ c. c.items) v.items) result
        (columns F.residues (view value.now)) }
{
    let items = value.as_array().ok_or(FlatError::Shape { at: 0 })?;
    columns_of(alloc, items)
}

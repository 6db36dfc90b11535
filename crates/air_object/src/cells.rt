//! Boundary values.
ghost use Rattle.std.specs.Prelude.{◌≡◌, []};
ghost use Rattle.serde_json.specs.View.{view, items_view};
ghost use Rattle.air_json.specs.Results.{Gives};
ghost use Rattle.air_object.specs.Readers.{each_from, cell_read, cells};

use air_core::BoundaryPublic;
use air_json::{FlatError, Plain};
use serde_json::Value;
use std::alloc::Global;

fn cell_from(value: &Value) -> Result<BoundaryPublic, FlatError>
    ensures { result ≡ cell_read (view value.now) }
{
    BoundaryPublic::read(value).ok_or(FlatError::Shape { at: 0 })
}

fn cells_of(alloc: Global, items: &[Value]) -> Result<Vec<BoundaryPublic>, FlatError>
    ensures { Gives (λ v. v.items) result (each_from cell_read [] (items_view items.now)) }
{
    let mut cells = Vec::new(alloc);
    for item in items {
        let cell = cell_from(item)?;
        cells.push(cell)?;
    }
    Ok(cells)
}

/// The boundary values that the value lists.
#[tactic(auto, unfolding(crate::specs::Readers::cells))]
pub fn cells_from(alloc: Global, value: &Value) -> Result<Vec<BoundaryPublic>, FlatError>
    ensures { Gives (λ v. v.items) result (cells (view value.now)) }
{
    let items = value.as_array().ok_or(FlatError::Shape { at: 0 })?;
    cells_of(alloc, items)
}

//! The constraints with their labels, without the other members.
ghost use Rattle.std.specs.Prelude.{◌<◌, All, IfOk};
ghost use Rattle.serde_json.specs.View.{view};
ghost use Rattle.air_symbolic.specs.BaseLeaves.{base_reads};
ghost use Rattle.air_symbolic.specs.Pools.{IsPool, size};
ghost use Rattle.air_json.specs.Results.{Gives};
ghost use Rattle.air_object.specs.Parts.{InPool, TakesPool, given_by};
ghost use Rattle.air_object.specs.Readers.{labelled_with};
ghost use Rattle.air_object.specs.Seen.{seen_labelled};

use crate::constraints::{BasePool, Constraints, Roots};
use crate::labels::labels_at;
use air_field::{Field, PrimeField64};
use air_json::FlatError;
use serde_json::Value;
use std::alloc::Global;

/// Constraints and their labels.
#[derive(Drop)]
pub struct Labelled<F: Field> {
    pub pool: BasePool<F>,
    pub roots: Roots<F>,
    pub labels: Vec<String>,
}

/// Completes parsed constraints with the labels of the object, or answers the first fault.
pub fn labelled_from<F: PrimeField64>(
    alloc: Global,
    value: &Value,
    constraints: Constraints<F>,
) -> Result<Labelled<F>, FlatError>
    requires { InPool constraints }
    ensures pool { IfOk result (λ l. IsPool base_reads l.pool) }
    ensures roots { IfOk result (λ l. All (λ i. i < size l.pool) l.roots.items) }
    ensures taken { IfOk result (TakesPool constraints) }
    ensures read { Gives seen_labelled result
        (labelled_with (given_by constraints) (view value.now)) }
{
    let Constraints { pool, roots } = constraints;
    let roots = roots?;
    let labels = labels_at(alloc, value, roots.len())?;
    Ok(Labelled {
        pool,
        roots,
        labels,
    })
}

//! The whole object.
ghost use Rattle.std.specs.Prelude.{◌≢◌, ◌<◌, All, IfOk, IfErr};
ghost use Rattle.serde_json.specs.Data.{Data};
ghost use Rattle.serde_json.specs.View.{view};
ghost use Rattle.air_symbolic.specs.Pools.{size};
ghost use Rattle.air_object.specs.Input.{SpellsInput, HasInputFault};
ghost use Rattle.air_object.specs.Parts.{InPool, ArePartsOf};

use crate::constraints::{Constraints, constraints_of};
use crate::elements::Elements;
use crate::labelled::Labelled;
use crate::members::{elements_at, members_from};
use air_builder::Beside;
use air_core::AirError;
use air_field::{Field, PrimeField64, RowMajorMatrix};
use serde_json::Value;
use std::alloc::Global;

/// What an AIR is audited on.
#[derive(Drop)]
pub struct Trial<F: Field> {
    /// The main trace.
    pub main: RowMajorMatrix<F>,
    pub public_values: Vec<F>,
    /// The number of failures at which a check stops, if there is a limit.
    pub cap: Option<usize>,
    /// The degree weight of the transition selector in the domain; 0 if the selector is linear.
    pub transition_weight: usize,
}

/// An AIR, and what it is audited on.
#[derive(Drop)]
pub struct FlatInput<F: Field> {
    /// The constraints, with their labels.
    pub constraints: Labelled<F>,
    /// What the AIR has beside them.
    pub beside: Beside<F>,
    pub trial: Trial<F>,
}

/// Completes an input from the parsed trace and constraints; `value` holds the other members.
pub fn input_from<F: PrimeField64>(
    alloc: Global,
    value: &Value,
    main: Elements<F>,
    constraints: Constraints<F>,
) -> Result<FlatInput<F>, AirError>
    requires { InPool constraints }
    ensures roots { IfOk result (λ input. All (λ i. i < size input.constraints.pool)
        input.constraints.roots.items) }
    ensures read { IfOk result (λ input. (d : Data)
        → ArePartsOf F.residues d (view value.now) main constraints → SpellsInput F.residues d input) }
    ensures refused { IfErr result (λ e. e ≢ AirError.Memory → (d : Data)
        → ArePartsOf F.residues d (view value.now) main constraints → HasInputFault F.residues d e) }
{
    let made = members_from(alloc, value, main, constraints)?;
    let input = made?;
    Ok(input)
}

/// Reads the object as one over F. It doesn't look at the member `field`. The other members are read in the order
/// `main_width`, `main` (row after row), `preprocessed_width`, `preprocessed` (row after row), `public_values`,
/// `constraints` (lists of nodes), `periodic`, `boundary`, `cap`, `transition_weight` and `labels` (texts, at most one
/// for each constraint). The last five are optional, `cap` may be null, and the default weight is 0.
/// `preprocessed_width` and `preprocessed` may both be absent, and then there is no preprocessed trace; if one is
/// present, the other is required. Further members are ignored.
///
/// # Errors
///
/// The first fault in this order. After all members, `Ragged` if the values of the main trace, or else of the
/// preprocessed trace, aren't whole rows of their width. `Memory` may replace any fault. The index in a fault is that
/// of a node within its constraint's list, and 0 for all other members.
pub fn flat_input_from<F: PrimeField64>(
    alloc: Global,
    value: &Value,
) -> Result<FlatInput<F>, AirError>
    ensures roots { IfOk result (λ input. All (λ i. i < size input.constraints.pool)
        input.constraints.roots.items) }
    ensures read { IfOk result (SpellsInput F.residues (view value.now)) }
    ensures refused { IfErr result (λ e. e ≢ AirError.Memory
        → HasInputFault F.residues (view value.now) e) }
{
    let main = elements_at(alloc, value, "main");
    let constraints = constraints_of(alloc, value);
    input_from(alloc, value, main, constraints)
}

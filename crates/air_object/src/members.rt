//! The members of the object, in the order in which they are read.
ghost use Rattle.std.specs.Prelude.{◌≡◌, ◌<◌, map, All, Some, IfOk, ok_or};
ghost use Rattle.serde_json.specs.Find.{get};
ghost use Rattle.serde_json.specs.View.{view};
ghost use Rattle.air_symbolic.specs.Pools.{size};
ghost use Rattle.air_json.specs.Results.{Gives};
ghost use Rattle.air_json.specs.declared.errors.FlatError.TheVariants.{Shape};
ghost use Rattle.air_object.specs.Members.{table_of, both_matrices};
ghost use Rattle.air_object.specs.Parts.{InPool, TakesPool, given_elements, given_by};
ghost use Rattle.air_object.specs.Readers.{width_member, elements_member, table_member, periodic_member, boundary_member, cap_in, cap_member, weight_member, members_with};
ghost use Rattle.air_object.specs.Seen.{seen_made};

use crate::cells::cells_from;
use crate::constraints::Constraints;
use crate::elements::{Elements, columns_from, elements_from};
use crate::input::{FlatInput, Trial};
use crate::labelled::Labelled;
use crate::labels::labels_at;
use air_builder::Beside;
use air_core::BoundaryPublic;
use air_field::{Field, MatrixError, PrimeField64, RowMajorMatrix};
use air_json::{FlatError, whole_number};
use serde_json::Value;
use std::alloc::Global;

fn needed_member<'a>(value: &'a Value, name: &str) -> Result<&'a Value, FlatError>
    ensures { Gives (λ v. view v.now) result (ok_or (get name.now (view value.now)) (Shape 0)) }
{
    value.get(name).ok_or(FlatError::Shape { at: 0 })
}

#[tactic(auto, unfolding(crate::specs::Readers::width_member))]
fn width_at(value: &Value, name: &str) -> Result<usize, FlatError>
    ensures { Gives (λ n. n) result (width_member name.now (view value.now)) }
{
    let width = needed_member(value, name)?;
    whole_number(width).ok_or(FlatError::Shape { at: 0 })
}

/// The elements in the member with this name.
#[tactic(auto, unfolding(crate::specs::Readers::elements_member))]
pub(crate) fn elements_at<F: PrimeField64>(alloc: Global, value: &Value, name: &str) -> Elements<F>
    ensures { Gives (λ v. v.items) result
        (elements_member F.residues name.now (view value.now)) }
{
    elements_from(alloc, needed_member(value, name)?)
}

// The preprocessed trace of these values, or the error of values that aren't whole rows.
fn table_of<F: PrimeField64>(
    values: Vec<F>,
    width: usize,
) -> Result<Option<RowMajorMatrix<F>>, MatrixError>
    ensures { result ≡ table_of (Some (width, values.items)) }
{
    Ok(Some(RowMajorMatrix::new(values, width)?))
}

// The preprocessed trace, if there is one, or the error of values that aren't whole rows.
#[tactic(auto, unfolding(crate::specs::Readers::table_member))]
fn table_from<F: PrimeField64>(
    alloc: Global,
    value: &Value,
) -> Result<Result<Option<RowMajorMatrix<F>>, MatrixError>, FlatError>
    ensures { Gives (λ r. r) result (table_member F.residues (view value.now)) }
{
    if value.get("preprocessed_width").is_none() && value.get("preprocessed").is_none() {
        return Ok(Ok(None));
    }
    let width = width_at(value, "preprocessed_width")?;
    let values = elements_at(alloc, value, "preprocessed")?;
    Ok(table_of(values, width))
}

#[tactic(auto, unfolding(crate::specs::Readers::periodic_member))]
fn periodic_from<F: PrimeField64>(alloc: Global, value: &Value) -> Result<Vec<Vec<F>>, FlatError>
    ensures { Gives (λ v. map (λ c. c.items) v.items) result
        (periodic_member F.residues (view value.now)) }
{
    match value.get("periodic") {
        Some(columns) => columns_from(alloc, columns),
        None => Ok(Vec::new(alloc)),
    }
}

#[tactic(auto, unfolding(crate::specs::Readers::boundary_member))]
fn boundary_from(alloc: Global, value: &Value) -> Result<Vec<BoundaryPublic>, FlatError>
    ensures { Gives (λ v. v.items) result (boundary_member (view value.now)) }
{
    match value.get("boundary") {
        Some(cells) => cells_from(alloc, cells),
        None => Ok(Vec::new(alloc)),
    }
}

#[tactic(auto, unfolding(crate::specs::Readers::cap_in))]
fn cap_in(value: &Value) -> Option<Option<usize>>
    ensures { result ≡ cap_in (view value.now) }
{
    if value.is_null() {
        return Some(None);
    }
    let cap = whole_number(value)?;
    Some(Some(cap))
}

#[tactic(auto, unfolding(crate::specs::Readers::cap_member))]
fn cap_from(value: &Value) -> Result<Option<usize>, FlatError>
    ensures { Gives (λ o. o) result (cap_member (view value.now)) }
{
    match value.get("cap") {
        Some(cap) => cap_in(cap).ok_or(FlatError::Shape { at: 0 }),
        None => Ok(None),
    }
}

#[tactic(auto, unfolding(crate::specs::Readers::weight_member))]
fn weight_from(value: &Value) -> Result<usize, FlatError>
    ensures { Gives (λ n. n) result (weight_member (view value.now)) }
{
    match value.get("transition_weight") {
        Some(weight) => whole_number(weight).ok_or(FlatError::Shape { at: 0 }),
        None => Ok(0),
    }
}

// Both matrices, or the error of the first that isn't one.
fn both_matrices<F: Field>(
    main: Result<RowMajorMatrix<F>, MatrixError>,
    preprocessed: Result<Option<RowMajorMatrix<F>>, MatrixError>,
) -> Result<(RowMajorMatrix<F>, Option<RowMajorMatrix<F>>), MatrixError>
    ensures { result ≡ both_matrices main preprocessed }
{
    Ok((main?, preprocessed?))
}

/// The input that the members give; or the first fault of a member; or, if there is none, the error of the first matrix
/// whose values aren't whole rows. The trace and the constraints are already read; the value doesn't need to hold them.
#[tactic(auto, unfolding(crate::specs::Readers::members_with))]
pub(crate) fn members_from<F: PrimeField64>(
    alloc: Global,
    value: &Value,
    main: Elements<F>,
    constraints: Constraints<F>,
) -> Result<Result<FlatInput<F>, MatrixError>, FlatError>
    requires { InPool constraints }
    ensures roots { IfOk result (λ made. IfOk made (λ input.
        All (λ i. i < size input.constraints.pool) input.constraints.roots.items)) }
    ensures taken { IfOk result (λ made. IfOk made
        (λ input. TakesPool constraints input.constraints)) }
    ensures read { Gives seen_made result (members_with F.residues (given_elements main)
        (given_by constraints) (view value.now)) }
{
    let width = width_at(value, "main_width")?;
    let main = RowMajorMatrix::new(main?, width);
    let preprocessed = table_from(alloc, value)?;
    let public_values = elements_at(alloc, value, "public_values")?;
    let Constraints { pool, roots } = constraints;
    let roots = roots?;
    let periodic = periodic_from(alloc, value)?;
    let cells = boundary_from(alloc, value)?;
    let cap = cap_from(value)?;
    let transition_weight = weight_from(value)?;
    let labels = labels_at(alloc, value, roots.len())?;
    let (main, preprocessed) = match both_matrices(main, preprocessed) {
        Ok(matrices) => matrices,
        Err(ragged) => return Ok(Err(ragged)),
    };
    Ok(Ok(FlatInput {
        constraints: Labelled {
            pool,
            roots,
            labels,
        },
        beside: Beside {
            width,
            num_public_values: public_values.len(),
            preprocessed,
            periodic,
            cells,
        },
        trial: Trial {
            main,
            public_values,
            cap,
            transition_weight,
        },
    }))
}

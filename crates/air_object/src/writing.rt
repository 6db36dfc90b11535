//! Writing the whole object.
ghost use Rattle.std.specs.Prelude.{◌≡◌, ◌<◌, ◌≤◌, length, All, Some, None, Ok, Err, IfOk, IfErr};
ghost use Rattle.serde_json.specs.Data.{string};
ghost use Rattle.serde_json.specs.View.{view};
ghost use Rattle.air_symbolic.specs.Pools.{size};
ghost use Rattle.air_json.specs.Parts.{find_name};
ghost use Rattle.air_object.specs.Fields.{field_names, field_of};
ghost use Rattle.air_object.specs.Members.{members, constraint};
ghost use Rattle.air_object.specs.Objects.{list_of};
ghost use Rattle.air_object.specs.Input.{SpellsInput, HasInputFault};
ghost use Rattle.air_object.specs.Seen.{seen_input};
ghost use Rattle.air_object.specs.declared.input.FlatInput.{FlatInput};
ghost use Rattle.air_core.specs.Errors.{matrix_air_error};
ghost use Rattle.air_core.specs.declared.errors.AirError.{AirError};
ghost use Rattle.air_field.specs.declared.errors.MatrixError.{MatrixError};
ghost use Rattle.air_object.specs.Writing.{elements_data, columns_data, cells_data, labels_data, cap_data, object_data, trees_of, seen_parts};

use crate::constraints::{BaseId, BasePool};
use crate::field_name::FieldName;
use air_core::BoundaryPublic;
use air_field::{Field, PrimeField64, RowMajorMatrixView};
use air_json::{FlatError, Plain, elements_value, to_flat_values};
use serde_json::{Value, json};
use std::alloc::{AllocError, Global};

/// What an object is written from.
#[derive(Drop)]
pub struct ObjectParts<'a, F: Field> {
    pub pool: &'a BasePool<F>,
    /// The constraints.
    pub roots: &'a [BaseId<F>],
    /// The labels of the first constraints.
    pub labels: &'a [String],
    /// The main trace, row after row.
    pub main: RowMajorMatrixView<'a, F>,
    /// The preprocessed trace, if there is one, row after row.
    pub preprocessed: Option<RowMajorMatrixView<'a, F>>,
    pub public_values: &'a [F],
    pub periodic: &'a [Vec<F>],
    pub cells: &'a [BoundaryPublic],
    /// The number of failures at which a check stops, if there is a limit.
    pub cap: Option<usize>,
    /// The degree weight of the transition selector in the domain; 0 if the selector is linear.
    pub transition_weight: usize,
}

// The values of all members but the preprocessed trace.
#[derive(Drop)]
struct MemberData {
    field: &'static str,
    main_width: usize,
    main: Value,
    public_values: Value,
    constraints: Value,
    periodic: Value,
    boundary: Value,
    cap: Value,
    transition_weight: usize,
    labels: Value,
}

// The name of the field.
fn name_of(field: FieldName) -> &'static str
    ensures { find_name field_names result.now ≡ Some field }
{
    match field {
        FieldName::BabyBear => "BabyBear",
        FieldName::KoalaBear => "KoalaBear",
        FieldName::Mersenne31 => "Mersenne31",
        FieldName::Goldilocks => "Goldilocks",
    }
}

fn columns_value<F: PrimeField64>(alloc: Global, columns: &[Vec<F>]) -> Result<Value, AllocError>
    ensures { IfOk result (λ v. view v ≡ columns_data F.residues columns.now) }
{
    let mut items = Vec::new(alloc);
    for column in columns {
        items.push(elements_value(alloc, column)?)?;
    }
    Ok(Value::from(items))
}

fn cells_value(alloc: Global, cells: &[BoundaryPublic]) -> Result<Value, AllocError>
    ensures { IfOk result (λ v. view v ≡ cells_data cells.now) }
{
    let mut items = Vec::new(alloc);
    for cell in cells {
        items.push(cell.spell(alloc)?)?;
    }
    Ok(Value::from(items))
}

fn label_value(alloc: Global, label: &str) -> Result<Value, AllocError>
    ensures { IfOk result (λ v. view v ≡ string label.now) }
{
    json!(in alloc; label)
}

fn labels_value(alloc: Global, labels: &[String]) -> Result<Value, AllocError>
    ensures { IfOk result (λ v. view v ≡ labels_data labels.now) }
{
    let mut items = Vec::new(alloc);
    for label in labels {
        items.push(label_value(alloc, label)?)?;
    }
    Ok(Value::from(items))
}

fn cap_value(cap: Option<usize>) -> Value
    ensures { view result ≡ cap_data cap }
{
    match cap {
        Some(cap) => Value::from(cap),
        None => Value::Null,
    }
}

// The lists of the constraints.
fn constraints_value<F: PrimeField64>(
    alloc: Global,
    pool: &BasePool<F>,
    roots: &[BaseId<F>],
) -> Result<Value, FlatError>
    requires { All (λ i. i < size pool.now) roots.now }
    ensures spelt { IfOk result (λ v. (list_of (constraint F.residues)).spells (view v)
        (trees_of pool.now roots.now)) }
    ensures refused { IfErr result (λ e. e ≡ FlatError.Memory) }
{
    let lists = to_flat_values(alloc, pool, roots)?;
    Ok(Value::from(lists))
}

// The object without a preprocessed trace.
fn without_table(alloc: Global, named: MemberData) -> Result<Value, AllocError>
    ensures { IfOk result (λ v. view v ≡ object_data (view named.boundary) (view named.cap)
        (view named.constraints) named.field.now (view named.labels) (view named.main)
        named.main_width (view named.periodic) None (view named.public_values)
        named.transition_weight) }
{
    json!(in alloc; {
        "boundary": named.boundary,
        "cap": named.cap,
        "constraints": named.constraints,
        "field": named.field,
        "labels": named.labels,
        "main": named.main,
        "main_width": named.main_width,
        "periodic": named.periodic,
        "public_values": named.public_values,
        "transition_weight": named.transition_weight
    })
}

// The object with a preprocessed trace of this width and these values.
fn with_table(
    alloc: Global,
    named: MemberData,
    width: usize,
    values: Value,
) -> Result<Value, AllocError>
    ensures { IfOk result (λ v. view v ≡ object_data (view named.boundary) (view named.cap)
        (view named.constraints) named.field.now (view named.labels) (view named.main)
        named.main_width (view named.periodic) (Some (width, view values))
        (view named.public_values) named.transition_weight) }
{
    json!(in alloc; {
        "boundary": named.boundary,
        "cap": named.cap,
        "constraints": named.constraints,
        "field": named.field,
        "labels": named.labels,
        "main": named.main,
        "main_width": named.main_width,
        "periodic": named.periodic,
        "preprocessed": values,
        "preprocessed_width": width,
        "public_values": named.public_values,
        "transition_weight": named.transition_weight
    })
}

// The values of all members but the preprocessed trace.
fn member_data<F: PrimeField64>(
    alloc: Global,
    field: FieldName,
    parts: &ObjectParts<F>,
) -> Result<MemberData, FlatError>
    requires { All (λ i. i < size parts.now.pool.now) parts.now.roots.now }
    ensures field { IfOk result (λ d. find_name field_names d.field.now ≡ Some field) }
    ensures width { IfOk result (λ d. d.main_width ≡ parts.now.main.width) }
    ensures main { IfOk result (λ d. view d.main ≡ elements_data F.residues
        parts.now.main.values.now) }
    ensures public_values { IfOk result (λ d. view d.public_values ≡ elements_data F.residues
        parts.now.public_values.now) }
    ensures constraints { IfOk result (λ d. (list_of (constraint F.residues)).spells
        (view d.constraints) (trees_of parts.now.pool.now parts.now.roots.now)) }
    ensures periodic { IfOk result (λ d. view d.periodic ≡ columns_data F.residues
        parts.now.periodic.now) }
    ensures boundary { IfOk result (λ d. view d.boundary ≡ cells_data parts.now.cells.now) }
    ensures cap { IfOk result (λ d. view d.cap ≡ cap_data parts.now.cap) }
    ensures weight { IfOk result (λ d. d.transition_weight ≡ parts.now.transition_weight) }
    ensures labels { IfOk result (λ d. view d.labels ≡ labels_data parts.now.labels.now) }
    ensures refused { IfErr result (λ e. e ≡ FlatError.Memory) }
{
    let main = elements_value(alloc, parts.main.values)?;
    let public_values = elements_value(alloc, parts.public_values)?;
    let constraints = constraints_value(alloc, parts.pool, parts.roots)?;
    let periodic = columns_value(alloc, parts.periodic)?;
    let boundary = cells_value(alloc, parts.cells)?;
    let labels = labels_value(alloc, parts.labels)?;
    Ok(MemberData {
        field: name_of(field),
        main_width: parts.main.width,
        main,
        public_values,
        constraints,
        periodic,
        boundary,
        cap: cap_value(parts.cap),
        transition_weight: parts.transition_weight,
        labels,
    })
}

// The object of these parts.
fn written_object<F: PrimeField64>(
    alloc: Global,
    field: FieldName,
    parts: &ObjectParts<F>,
) -> Result<Value, FlatError>
    requires roots { All (λ i. i < size parts.now.pool.now) parts.now.roots.now }
    requires labels { length parts.now.labels.now ≤ length parts.now.roots.now }
    ensures written { IfOk result (λ v. (members F.residues).spells (view v)
        (seen_parts parts.now)) }
    ensures field { IfOk result (λ v. field_of (view v) ≡ Some field) }
    ensures refused { IfErr result (λ e. e ≡ FlatError.Memory) }
{
    let named = member_data(alloc, field, parts)?;
    match parts.preprocessed {
        None => Ok(without_table(alloc, named)?),
        Some(table) => {
            let values = elements_value(alloc, table.values)?;
            Ok(with_table(alloc, named, table.width, values)?)
        }
    }
}

/// Writes the object over this field, with the members that `flat_input_from` reads, each in one form: all are present
/// but those of a preprocessed trace where there is none, elements are written as canonical numbers, and constraints
/// by `to_flat_values`. What is written is what is read: the object spells the input with these members and no other,
/// and has no fault, unless the values of a trace aren't whole rows; then that is its only fault.
pub fn object_value<F: PrimeField64>(
    alloc: Global,
    field: FieldName,
    parts: &ObjectParts<F>,
) -> Result<Value, FlatError>
    requires roots { All (λ i. i < size parts.now.pool.now) parts.now.roots.now }
    requires labels { length parts.now.labels.now ≤ length parts.now.roots.now }
    ensures written { IfOk result (λ v. (members F.residues).spells (view v)
        (seen_parts parts.now)) }
    ensures read { IfOk result (λ v. (input : FlatInput F) → SpellsInput F.residues (view v) input →
        seen_parts parts.now ≡ Ok (seen_input input)) }
    ensures fault { IfOk result (λ v. (e : AirError) → HasInputFault F.residues (view v) e →
        (f : MatrixError) × (seen_parts parts.now ≡ Err f) × (e ≡ matrix_air_error f)) }
    ensures field { IfOk result (λ v. field_of (view v) ≡ Some field) }
    ensures refused { IfErr result (λ e. e ≡ FlatError.Memory) }
{
    let object = written_object(alloc, field, parts)?;
    Ok(object)
}

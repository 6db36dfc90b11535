//! Extension leaves in lists of nodes.
ghost use Rattle.std.specs.Prelude.{◌≡◌, ◌<◌, length, map, IfOk, IfErr, ok_or, codes};
ghost use Rattle.serde_json.specs.Data.{array};
ghost use Rattle.serde_json.specs.View.{view, items_view};
ghost use Rattle.air_symbolic.specs.Pools.{Grown, tree_at};
ghost use Rattle.air_symbolic.specs.BaseLeaves.{base_reads, base_grows};
ghost use Rattle.air_symbolic.specs.ExtLeaves.{ext_valid};
ghost use Rattle.air_symbolic.specs.ExtTrees.{whole_leaf};
ghost use Rattle.air_json.specs.ReadCalls.{ReadsTree};
ghost use Rattle.air_json.specs.Results.{Gives};
ghost use Rattle.air_json.specs.Spelling.{case_data};
ghost use Rattle.air_json.specs.Coefficients.{number_items, wholes, if_canonical, elements_at};
ghost use Rattle.air_json.specs.BaseLeaves.{base_kind};
ghost use Rattle.air_json.specs.Nodes.{root_of};
ghost use Rattle.air_json.specs.ExtEntries.{ext_variable_plain};
ghost use Rattle.air_json.specs.ExtLeaves.{WritesWhole, at_place, faults_at, ext_constant_at, ext_leaf_at};

use crate::base_leaf::{class_of, element_value, is_canonical};
use crate::cases::case_value;
use crate::errors::FlatError;
use crate::lists::list_from;
use crate::parts::{only_member, whole_number};
use crate::plain::Plain;
use crate::wire_leaf::WireLeaf;
use crate::written_lists::to_flat_value;
use air_core::SymbolicVariableExt;
use air_field::{ExtensionField, PrimeField64};
use air_symbolic::{BaseLeaf, ExprId, ExprPool, ExtLeaf};
use serde_json::Value;
use std::alloc::{AllocError, Global};

// The whole numbers of a list. Fails with `Shape` if an item is none.
pub(crate) fn whole_numbers(
    alloc: Global,
    at: usize,
    items: &[Value],
) -> Result<Vec<usize>, FlatError>
    ensures { Gives (λ v. v.items) result
        (ok_or (wholes (items_view items.now)) (FlatError.Shape at)) }
{
    let mut numbers = Vec::new(alloc);
    for item in items {
        let Some(number) = whole_number(item) else {
            return Err(FlatError::Shape { at });
        };
        numbers.push(number)?;
    }
    Ok(numbers)
}

// The field elements of these numbers, each of which must be below the modulus; else fails with `NotCanonical`.
fn canonical_elements<F: PrimeField64>(
    alloc: Global,
    at: usize,
    numbers: &[usize],
) -> Result<Vec<F>, FlatError>
    ensures { Gives (λ v. v.items) result (if_canonical F.residues at numbers.now) }
{
    let mut elements = Vec::new(alloc);
    for number in numbers {
        if !is_canonical::<F>(*number) {
            return Err(FlatError::NotCanonical { at });
        }
        elements.push(class_of(*number))?;
    }
    Ok(elements)
}

#[tactic(auto, unfolding(crate::specs::Coefficients::elements_at))]
fn elements_from<F: PrimeField64>(
    alloc: Global,
    at: usize,
    count: usize,
    contents: &Value,
) -> Result<Vec<F>, FlatError>
    ensures { Gives (λ v. v.items) result (elements_at F.residues count at (view contents.now)) }
{
    let shape = FlatError::Shape { at };
    let items = contents.as_array().ok_or(shape)?;
    let numbers = whole_numbers(alloc, at, items)?;
    if numbers.len() != count {
        return Err(shape);
    }
    canonical_elements(alloc, at, &numbers)
}

// The element with the coefficients that the value spells.
fn constant_from<F: PrimeField64, EF: ExtensionField<F>>(
    alloc: Global,
    at: usize,
    contents: &Value,
) -> Result<EF, FlatError>
    ensures { Gives (λ e. e) result
        (ext_constant_at F.residues EF.over EF.DIMENSION at (view contents.now)) }
{
    let elements = elements_from::<F>(alloc, at, EF::DIMENSION, contents)?;
    Ok(EF::from_basis_coefficients(&elements))
}

// The fault, moved to the place of the leaf's node.
fn at_place(at: usize, fault: FlatError) -> FlatError
    ensures { result ≡ at_place at fault }
{
    match fault {
        FlatError::Memory => FlatError::Memory,
        FlatError::DegreeOverflow => FlatError::DegreeOverflow,
        FlatError::Shape { .. } => FlatError::Shape { at },
        FlatError::EmptyList => FlatError::EmptyList,
        FlatError::Operand { operand, .. } => FlatError::Operand { at, operand },
        FlatError::WrongDegree { stated, found, .. } => FlatError::WrongDegree {
            at,
            stated,
            found,
        },
        FlatError::NotCanonical { .. } => FlatError::NotCanonical { at },
    }
}

// The base expression of the list nested in a `Base` leaf.
fn base_from<F: PrimeField64>(
    alloc: Global,
    at: usize,
    base: &mut ExprPool<BaseLeaf<F>>,
    contents: &Value,
) -> Result<ExprId<BaseLeaf<F>>, FlatError>
    ensures { ReadsTree base_grows base_reads tree_at base.old base.new result
        (faults_at at (root_of (base_kind F.residues) (view contents.now))) }
{
    base.nodes_fit();
    match list_from(alloc, base, contents) {
        Ok(id) => Ok(id),
        Err(fault) => Err(at_place(at, fault)),
    }
}

#[tactic(auto, unfolding(crate::specs::ExtLeaves::ext_leaf_at))]
fn ext_leaf_from<F: PrimeField64, EF: ExtensionField<F>>(
    alloc: Global,
    at: usize,
    base: &mut ExprPool<BaseLeaf<F>>,
    value: &Value,
) -> Result<ExtLeaf<F, EF>, FlatError>
    ensures grown { Grown base_grows base_reads base.old base.new }
    ensures valid { IfOk result (λ a. ext_valid base.new a) }
    ensures read { Gives (λ a. whole_leaf base.new a) result
        (ext_leaf_at F.residues EF.over EF.DIMENSION at (view value.now)) }
{
    base.nodes_fit();
    let shape = FlatError::Shape { at };
    let (name, contents) = only_member(value).ok_or(shape)?;
    if name == "Base" {
        Ok(ExtLeaf::Base(base_from(alloc, at, base, contents)?))
    } else if name == "ExtVariable" {
        let variable = SymbolicVariableExt::read(contents).ok_or(shape)?;
        Ok(ExtLeaf::ExtVariable(variable))
    } else if name == "ExtConstant" {
        Ok(ExtLeaf::ExtConstant(constant_from::<F, EF>(alloc, at, contents)?))
    } else {
        Err(shape)
    }
}

/// The list of the elements' canonical numbers.
pub fn elements_value<F: PrimeField64>(alloc: Global, elements: &[F]) -> Result<Value, AllocError>
    ensures { IfOk result (λ v. view v ≡ array (number_items F.residues elements.now)) }
{
    let mut items = Vec::new(alloc);
    for element in elements {
        items.push(element_value(*element))?;
    }
    Ok(Value::from(items))
}

fn constant_value<F: PrimeField64, EF: ExtensionField<F>>(
    alloc: Global,
    element: &EF,
) -> Result<Value, AllocError>
    ensures { IfOk result (λ v. view v ≡ case_data (codes "ExtConstant")
        (array (number_items F.residues (EF.basis.coefficients element.now)))) }
{
    let contents = elements_value(alloc, element.as_basis_coefficients_slice())?;
    case_value(alloc, "ExtConstant", contents)
}

fn variable_value<F: PrimeField64, EF: ExtensionField<F>>(
    alloc: Global,
    variable: &SymbolicVariableExt<F, EF>,
) -> Result<Value, AllocError>
    ensures { IfOk result (λ v. view v ≡ case_data (codes "ExtVariable")
        (ext_variable_plain.written variable.now)) }
{
    let contents = variable.spell(alloc)?;
    case_value(alloc, "ExtVariable", contents)
}

fn ext_leaf_value<F: PrimeField64, EF: ExtensionField<F>>(
    alloc: Global,
    base: &ExprPool<BaseLeaf<F>>,
    leaf: &ExtLeaf<F, EF>,
) -> Result<Value, FlatError>
    requires valid { ext_valid base.now leaf.now }
    ensures written { IfOk result (λ v. WritesWhole F.residues EF.basis (view v)
        (whole_leaf base.now leaf.now)) }
    ensures refused { IfErr result (λ e. e ≡ FlatError.Memory) }
{
    match leaf {
        ExtLeaf::Base(id) => {
            let list = to_flat_value(alloc, base, *id)?;
            Ok(case_value(alloc, "Base", list)?)
        }
        ExtLeaf::ExtVariable(variable) => Ok(variable_value::<F, EF>(alloc, variable)?),
        ExtLeaf::ExtConstant(element) => Ok(constant_value::<F, EF>(alloc, element)?),
    }
}

impl<F: PrimeField64, EF: ExtensionField<F>> WireLeaf for ExtLeaf<F, EF> {
    ghost use Rattle.air_symbolic.specs.ExtTrees.{WholeLeaf, whole_leaf as whole};
    ghost use Rattle.air_json.specs.ExtLeaves.{ext_kind};
    ghost use Rattle.air_json.specs.laws.ExtLeaves.{ext_wire_laws, ext_kind_laws};

    ghost View = { WholeLeaf F EF };

    ghost seen = { λ u a. whole u a };

    ghost kind = { ext_kind F.residues EF.over EF.basis EF.DIMENSION };

    fn leaf_from_value(
        alloc: Global,
        at: usize,
        base: &mut ExprPool<BaseLeaf<F>>,
        value: &Value,
    ) -> Result<Self, FlatError> {
        ext_leaf_from(alloc, at, base, value)
    }

    fn leaf_value(&self, alloc: Global, base: &ExprPool<BaseLeaf<F>>) -> Result<Value, FlatError> {
        ext_leaf_value(alloc, base, self)
    }

    ghost wire_laws = { ext_wire_laws F.ring EF.basis };

    ghost kind_laws = { ext_kind_laws F.residues F.ring EF.over EF.basis EF.DIMENSION EF.ExtensionField.laws };
}

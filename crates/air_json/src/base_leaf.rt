//! Base leaves in lists of nodes.
ghost use Rattle.std.specs.Prelude.{◌≡◌, ◌<◌, IfOk};
ghost use Rattle.serde_json.specs.View.{view};
ghost use Rattle.air_json.specs.BaseLeaves.{element_at, leaf_with, leaf_at, leaf_data};
ghost use Rattle.air_json.specs.Spelling.{number_data};
ghost use Rattle.air_json.specs.Coefficients.{is_canonical};

use crate::cases::case_value;
use crate::errors::FlatError;
use crate::parts::{only_member, whole_number};
use crate::plain::Plain;
use crate::wire_leaf::WireLeaf;
use air_core::SymbolicVariable;
use air_field::PrimeField64;
use air_symbolic::BaseLeaf;
use serde_json::{Value, json};
use std::alloc::{AllocError, Global};

/// The field element of this number.
pub(crate) fn class_of<F: PrimeField64>(number: usize) -> F
    ensures { result ≡ F.residues.class number }
{
    F::from_u64(number as u64)
}

/// Whether the number is below the modulus, and so the canonical number of an element.
pub(crate) fn is_canonical<F: PrimeField64>(number: usize) -> bool
    ensures { result ≡ is_canonical F.ORDER_U64 number }
{
    (number as u64) < F::ORDER_U64
}

/// The field element that the value spells by its canonical number. Fails with `Shape` if the value is no whole number
/// that fits 64 bits, and with `NotCanonical` if the number is not below the modulus, each with the place `at`.
#[tactic(auto, unfolding(crate::specs::BaseLeaves::element_at))]
pub fn element_from<F: PrimeField64>(at: usize, value: &Value) -> Result<F, FlatError>
    ensures { result ≡ element_at F.residues at (view value.now) }
{
    let number = whole_number(value).ok_or(FlatError::Shape { at })?;
    if is_canonical::<F>(number) {
        Ok(class_of(number))
    } else {
        Err(FlatError::NotCanonical { at })
    }
}

// The leaf of this name with these contents.
fn leaf_with<F: PrimeField64>(
    at: usize,
    name: &str,
    contents: &Value,
) -> Result<BaseLeaf<F>, FlatError>
    ensures { result ≡ leaf_with F.residues at name.now (view contents.now) }
{
    if name == "Variable" {
        let variable = SymbolicVariable::read(contents).ok_or(FlatError::Shape { at })?;
        Ok(BaseLeaf::Variable(variable))
    } else if name == "Constant" {
        let element = element_from(at, contents)?;
        Ok(BaseLeaf::Constant(element))
    } else {
        Err(FlatError::Shape { at })
    }
}

#[tactic(auto, unfolding(crate::specs::BaseLeaves::leaf_at))]
fn base_leaf_from<F: PrimeField64>(at: usize, value: &Value) -> Result<BaseLeaf<F>, FlatError>
    ensures { result ≡ leaf_at F.residues at (view value.now) }
{
    let shape = FlatError::Shape { at };
    if let Some(name) = value.as_str() {
        return if name == "IsFirstRow" {
            Ok(BaseLeaf::IsFirstRow)
        } else if name == "IsLastRow" {
            Ok(BaseLeaf::IsLastRow)
        } else if name == "IsTransition" {
            Ok(BaseLeaf::IsTransition)
        } else {
            Err(shape)
        };
    }
    let (name, contents) = only_member(value).ok_or(shape)?;
    leaf_with(at, name, contents)
}

pub(crate) fn element_value<F: PrimeField64>(element: F) -> Value
    ensures { view result ≡ number_data (F.residues.value element) }
{
    Value::from(element.as_canonical_u64())
}

fn base_leaf_value<F: PrimeField64>(alloc: Global, leaf: &BaseLeaf<F>) -> Result<Value, AllocError>
    ensures { IfOk result (λ v. view v ≡ leaf_data F.residues leaf.now) }
{
    match leaf {
        BaseLeaf::Variable(variable) => {
            let contents = variable.spell(alloc)?;
            case_value(alloc, "Variable", contents)
        }
        BaseLeaf::IsFirstRow => json!(in alloc; "IsFirstRow"),
        BaseLeaf::IsLastRow => json!(in alloc; "IsLastRow"),
        BaseLeaf::IsTransition => json!(in alloc; "IsTransition"),
        BaseLeaf::Constant(element) => {
            let contents = element_value(*element);
            case_value(alloc, "Constant", contents)
        }
    }
}

impl<F: PrimeField64> WireLeaf for BaseLeaf<F> {
    ghost use Rattle.air_symbolic.specs.declared.leaves.base_leaf.BaseLeaf.{BaseLeaf};
    ghost use Rattle.air_json.specs.BaseLeaves.{base_kind, base_seen, base_wire_laws};
    ghost use Rattle.air_json.specs.laws.BaseLeaves.{base_kind_laws};

    ghost View = { BaseLeaf F };

    ghost seen = { λ u a. base_seen u a };

    ghost kind = { base_kind F.residues };

    fn leaf_from_value(
        _alloc: Global,
        at: usize,
        _under: &mut (),
        value: &Value,
    ) -> Result<Self, FlatError> {
        base_leaf_from(at, value)
    }

    fn leaf_value(&self, alloc: Global, _under: &()) -> Result<Value, FlatError> {
        Ok(base_leaf_value(alloc, self)?)
    }

    ghost wire_laws = { base_wire_laws };

    ghost kind_laws = { base_kind_laws F.residues };
}

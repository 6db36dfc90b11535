//! Lists of nodes.
ghost use Rattle.std.specs.Prelude.{◌≡◌, ◌≢◌, IfOk, Some, option_map, string_bytes};
ghost use Rattle.serde_json.specs.View.{view};
ghost use Rattle.air_reason.specs.Nodes.{list_text, no_node_text};
ghost use Rattle.serde_json.specs.Find.{as_array};

use crate::forms::{Form, Told};
use air_field::PrimeField64;
use air_json::{FlatError, from_flat_value};
use air_symbolic::{BaseLeaf, ExprPool};
use serde_json::Value;
use std::alloc::{AllocError, Global};
use std::marker::PhantomData;

// That the value at this place of a list is no node.
fn no_node_text(alloc: Global, at: usize, value: &Value) -> Result<String, AllocError>
    ensures { IfOk result (λ text. string_bytes text ≡ no_node_text at (as_array (view value.now))) }
{
    match value.as_array() {
        Some(_) => format!(in alloc; ".nodes[{at}]: not a node"),
        None => String::from_str(alloc, ": not a list"),
    }
}

// What is wrong with a list over a field of this order that has this fault.
#[tactic(auto, unfolding(crate::specs::Nodes::list_text))]
fn list_text(
    alloc: Global,
    order: u64,
    value: &Value,
    fault: FlatError,
) -> Result<String, AllocError>
    ensures { IfOk result (λ text. string_bytes text ≡ list_text order (view value.now) fault) }
{
    match fault {
        FlatError::Memory => String::from_str(alloc, ": out of memory"),
        FlatError::DegreeOverflow => String::from_str(alloc, ": a degree is not below 2^64"),
        FlatError::Shape { at } => no_node_text(alloc, at, value),
        FlatError::EmptyList => String::from_str(alloc, ": a list without nodes"),
        FlatError::Operand { at, operand } => {
            format!(in alloc; ".nodes[{at}]: operand {operand} is not an earlier node")
        }
        FlatError::WrongDegree { at, stated, found } => {
            format!(in alloc; ".nodes[{at}]: degree {stated} is stated, {found} is right")
        }
        FlatError::NotCanonical { at } => {
            format!(in alloc; ".nodes[{at}]: the constant is not below the modulus {order}")
        }
    }
}

// The same, if the fault isn't that memory ran out.
fn fault_text(alloc: Global, order: u64, value: &Value, fault: FlatError) -> Told
    ensures fault { IfOk result (λ _. fault ≢ FlatError.Memory) }
    ensures told { IfOk result (λ o. option_map string_bytes o
        ≡ Some (list_text order (view value.now) fault)) }
{
    match fault {
        FlatError::Memory => Err(AllocError),
        _ => Ok(Some(list_text(alloc, order, value, fault)?)),
    }
}

/// A list of nodes.
pub(crate) struct Constraint<F> {
    field: PhantomData<F>,
}

impl<F: PrimeField64> Form for Constraint<F> {
    ghost use Rattle.air_reason.specs.Nodes.{constraint};

    ghost check = { constraint F.residues };

    fn reason(alloc: Global, value: &Value) -> Told {
        let mut pool: ExprPool<BaseLeaf<F>> = ExprPool::new(alloc);
        match from_flat_value(alloc, &mut pool, value) {
            Ok(_) => Ok(None),
            Err(fault) => fault_text(alloc, F::ORDER_U64, value, fault),
        }
    }
}

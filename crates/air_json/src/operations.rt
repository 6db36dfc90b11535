//! The operations of a node: on two operands, or on one that is used for both.
ghost use Rattle.std.specs.Prelude.{◌≡◌, Some, IfSome, codes};
ghost use Rattle.serde_json.specs.Find.{get};
ghost use Rattle.serde_json.specs.View.{view};
ghost use Rattle.air_json.specs.Parts.{find_name};
ghost use Rattle.air_json.specs.Nodes.{operations, second_of, operands_of, joined_degree};

use crate::errors::FlatError;
use crate::parts::{whole_at, whole_number};
use serde_json::Value;

#[derive(Clone, Copy)]
pub(crate) enum Operation {
    Add,
    Sub,
    Mul,
    Neg,
}

/// The operation of this name.
pub(crate) fn operation_named(name: &str) -> Option<Operation>
    ensures { result ≡ find_name operations name.now }
{
    if name == "Add" {
        Some(Operation::Add)
    } else if name == "Sub" {
        Some(Operation::Sub)
    } else if name == "Mul" {
        Some(Operation::Mul)
    } else if name == "Neg" {
        Some(Operation::Neg)
    } else {
        None
    }
}

fn second_of(operation: Operation, contents: &Value) -> Option<usize>
    ensures { result ≡ second_of operation (view contents.now) }
{
    match operation {
        Operation::Neg => whole_at(contents, "x"),
        _ => whole_at(contents, "y"),
    }
}

// The members of an operation on two operands, if they come first, as in written values. A search by name would also
// compare each name with those before it.
fn written_members(contents: &Value) -> Option<(&Value, &Value, &Value)>
    ensures degree { IfSome result (λ m. get (codes "degree_multiple") (view contents.now)
        ≡ Some (view m.0.now)) }
    ensures x { IfSome result (λ m. get (codes "x") (view contents.now) ≡ Some (view m.1.now)) }
    ensures y { IfSome result (λ m. get (codes "y") (view contents.now) ≡ Some (view m.2.now)) }
{
    let mut members = contents.as_object()?.iter();
    let (first, degree) = members.next()?;
    let (second, x) = members.next()?;
    let (third, y) = members.next()?;
    if first.as_str() == "degree_multiple" && second.as_str() == "x" && third.as_str() == "y" {
        Some((degree, x, y))
    } else {
        None
    }
}

/// The stated degree and the places of the operands.
#[tactic(auto, unfolding(crate::specs::Nodes::operands_of))]
pub(crate) fn operands_of(operation: Operation, contents: &Value) -> Option<(usize, usize, usize)>
    ensures { result ≡ operands_of operation (view contents.now) }
{
    if let Some((degree, x, y)) = written_members(contents) {
        let second = match operation {
            Operation::Neg => x,
            _ => y,
        };
        return Some((
            whole_number(degree)?,
            whole_number(x)?,
            whole_number(second)?,
        ));
    }
    let degree = whole_at(contents, "degree_multiple")?;
    let x = whole_at(contents, "x")?;
    let y = second_of(operation, contents)?;
    Some((degree, x, y))
}

/// The degree of the operation, computed from the operands' degrees.
pub(crate) fn joined_degree(operation: Operation, x: usize, y: usize) -> Result<usize, FlatError>
    ensures { result ≡ joined_degree operation x y }
{
    match operation {
        Operation::Add | Operation::Sub => Ok(x.max(y)),
        Operation::Mul => x.checked_add(y).ok_or(FlatError::DegreeOverflow),
        Operation::Neg => Ok(x),
    }
}

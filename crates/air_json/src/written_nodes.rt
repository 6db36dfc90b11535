//! Writing one node of a list.
ghost use Rattle.std.specs.Prelude.{◌≡◌, ◌<◌, length, Some, IfOk, IfErr, codes};
ghost use Rattle.std.specs.List.{slice_get};
ghost use Rattle.serde_json.specs.View.{view};
ghost use Rattle.air_json.specs.Spelling.{IsCase, case_data};
ghost use Rattle.air_json.specs.Written.{two_data, one_data};
ghost use Rattle.air_json.specs.Writing.{Placed, IsWritable, IsNodeValue};

use crate::cases::case_value;
use crate::errors::FlatError;
use crate::wire_leaf::WireLeaf;
use air_symbolic::{ExprId, SymbolicExpr};
use serde_json::{Value, json};
use std::alloc::{AllocError, Global};

/// The place of an expression in the list, if it has been written.
pub(crate) fn place_of<A: WireLeaf>(places: &[Option<usize>], id: ExprId<A>) -> Option<usize>
    requires { id < length places.now }
    ensures { slice_get places.now id ≡ Some result }
{
    places[id.number()]
}

// The place of an expression that has been written.
fn place<A: WireLeaf>(places: &[Option<usize>], id: ExprId<A>) -> usize
    requires { Placed places.now id }
    ensures { slice_get places.now id ≡ Some (Some result) }
{
    match place_of(places, id) {
        Some(place) => place,
        None => unreachable!(),
    }
}

fn two_value(
    alloc: Global,
    name: &str,
    degree: usize,
    x: usize,
    y: usize,
) -> Result<Value, AllocError>
    ensures { IfOk result (λ v. view v ≡ case_data name.now (two_data degree x y)) }
{
    let contents = json!(in alloc; {"degree_multiple": degree, "x": x, "y": y})?;
    case_value(alloc, name, contents)
}

fn one_value(alloc: Global, name: &str, degree: usize, x: usize) -> Result<Value, AllocError>
    ensures { IfOk result (λ v. view v ≡ case_data name.now (one_data degree x)) }
{
    let contents = json!(in alloc; {"degree_multiple": degree, "x": x})?;
    case_value(alloc, name, contents)
}

/// The JSON value written for a leaf.
pub(crate) fn leaf_node_value<A: WireLeaf>(
    alloc: Global,
    base: &A::Base,
    leaf: &A,
) -> Result<Value, FlatError>
    requires sound { (A.reads base.now).sound }
    requires valid { (A.reads base.now).valid leaf.now }
    ensures written { IfOk result (λ v. IsCase (codes "Leaf")
        (λ c. A.kind.writes c (A.seen base.now leaf.now)) (view v)) }
    ensures refused { IfErr result (λ e. e ≡ FlatError.Memory) }
{
    let contents = leaf.leaf_value(alloc, base)?;
    Ok(case_value(alloc, "Leaf", contents)?)
}

/// The JSON value written for a node whose operands have been written.
pub(crate) fn node_value<A: WireLeaf>(
    alloc: Global,
    base: &A::Base,
    places: &[Option<usize>],
    node: &SymbolicExpr<A>,
) -> Result<Value, FlatError>
    requires sound { (A.reads base.now).sound }
    requires ready { IsWritable (A.reads base.now).valid places.now node.now }
    ensures written { IfOk result (λ v. IsNodeValue A.kind (A.seen base.now) places.now node.now
        (view v)) }
    ensures refused { IfErr result (λ e. e ≡ FlatError.Memory) }
{
    match *node {
        SymbolicExpr::Leaf(leaf) => leaf_node_value(alloc, base, &leaf),
        SymbolicExpr::Add {
            x,
            y,
            degree_multiple,
        } => {
            let (i, j) = (place(places, x), place(places, y));
            Ok(two_value(alloc, "Add", degree_multiple, i, j)?)
        }
        SymbolicExpr::Sub {
            x,
            y,
            degree_multiple,
        } => {
            let (i, j) = (place(places, x), place(places, y));
            Ok(two_value(alloc, "Sub", degree_multiple, i, j)?)
        }
        SymbolicExpr::Neg { x, degree_multiple } => {
            Ok(one_value(alloc, "Neg", degree_multiple, place(places, x))?)
        }
        SymbolicExpr::Mul {
            x,
            y,
            degree_multiple,
        } => {
            let (i, j) = (place(places, x), place(places, y));
            Ok(two_value(alloc, "Mul", degree_multiple, i, j)?)
        }
    }
}

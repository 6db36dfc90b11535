//! Lists of nodes.
ghost use Rattle.std.specs.Prelude.{◌≡◌, ◌≢◌, ℕ, ◌<◌, ◌∷◌, ◌++◌, [], List, map, filter_map, All, Ok, Some, IfOk, IfErr, OnOk};
ghost use Rattle.serde_json.specs.Data.{Data, Items, array};
ghost use Rattle.serde_json.specs.Find.{as_array};
ghost use Rattle.serde_json.specs.View.{view, items_of};
ghost use Rattle.air_symbolic.specs.Numbered.{Numbered};
ghost use Rattle.air_symbolic.specs.Pools.{Pool, IsPool, FitsBase, Grown, size};
ghost use Rattle.air_json.specs.ListReaders.{numbers_or, last_number, HasRead, IsNumbered, ReadsInto};
ghost use Rattle.air_json.specs.ReadCalls.{AreOf, ReadsTree, ReadsAll};
ghost use Rattle.air_json.specs.Results.{all_some};
ghost use Rattle.air_json.specs.Unshared.{seen_at};
ghost use Rattle.air_json.specs.NodeLists.{IsList, HasFault};
ghost use Rattle.air_json.specs.Nodes.{root_of, node_more};

use crate::errors::FlatError;
use crate::nodes::node_from;
use crate::wire_leaf::WireLeaf;
use air_symbolic::{ExprId, ExprPool, SymLeaf};
use serde_json::Value;
use std::alloc::Global;
use std::marker::Model;

/// Reads a list of nodes into a pool node by node, so that only one node at a time must exist as a value. It holds the
/// expressions of the nodes so far, or the list's first fault.
#[derive(Drop)]
pub struct ListReader<A: SymLeaf> {
    ids: Vec<ExprId<A>>,
    fault: Option<FlatError>,
}

impl<A: SymLeaf> Model for ListReader<A> {
    ghost use Rattle.std.specs.Prelude.{ℕ, List, Result};
    ghost use Rattle.air_json.specs.ListReaders.{numbers_or};
    ghost use Rattle.air_json.specs.declared.errors.FlatError.{FlatError};

    ghost Value = { Result (List ℕ) FlatError };

    ghost view = { λ l. numbers_or l.ids.items l.fault };
}

// Reads the node that the value spells, and appends its expression.
fn push_node<A: WireLeaf>(
    alloc: Global,
    pool: &mut ExprPool<A>,
    ids: &mut Vec<ExprId<A>>,
    value: &Value,
) -> Result<(), FlatError>
    requires { AreOf A.reads pool.old ids.old.items }
    ensures read { ReadsAll A.grows A.reads (seen_at A.seen) (λ _. ids.new.items) pool.old pool.new
        result (all_some (node_more A.kind (Ok (filter_map (seen_at A.seen pool.old) ids.old.items))
        (view value.now))) }
    ensures numbered { OnOk result ((n : ℕ) → Numbered n ids.old.items (size pool.old)
        → Numbered n ids.new.items (size pool.new)) }
{
    let id = node_from(alloc, pool, ids, value)?;
    ids.push(id)?;
    Ok(())
}

// Does `push_node` unless there is a fault already; answers the fault, if any.
fn fault_after<A: WireLeaf>(
    alloc: Global,
    pool: &mut ExprPool<A>,
    ids: &mut Vec<ExprId<A>>,
    fault: Option<FlatError>,
    value: &Value,
) -> Option<FlatError>
    requires pool { IsPool A.reads pool.old }
    requires here { IfOk (numbers_or ids.old.items fault)
        (λ is. All (λ i. i < size pool.old) is) }
    ensures grown { Grown A.grows A.reads pool.old pool.new }
    ensures read { (ds : List Data)
        → HasRead A.kind (seen_at A.seen) pool.old ds (numbers_or ids.old.items fault)
        → HasRead A.kind (seen_at A.seen) pool.new (ds ++ view value.now ∷ [])
        (numbers_or ids.new.items result) }
    ensures numbered { (n : ℕ) → IsNumbered n (numbers_or ids.old.items fault) (size pool.old)
        → IsNumbered n (numbers_or ids.new.items result) (size pool.new) }
{
    match fault {
        Some(fault) => Some(fault),
        None => match push_node(alloc, pool, ids, value) {
            Ok(()) => None,
            Err(fault) => Some(fault),
        },
    }
}

// The expression at the last place, unless there is a fault.
fn last_or<A: WireLeaf>(ids: &[ExprId<A>], fault: Option<FlatError>) -> Result<ExprId<A>, FlatError>
    ensures { result ≡ last_number (numbers_or ids.now fault) }
{
    match fault {
        Some(fault) => Err(fault),
        None => match ids.last() {
            Some(id) => Ok(*id),
            None => Err(FlatError::EmptyList),
        },
    }
}

impl<A: WireLeaf> ListReader<A> {
    /// A reader at the start of a list, without a fault. Allocates nothing.
    pub fn new(alloc: Global) -> Self
        ensures empty { result ≡ Ok [] }
        ensures read { (p : Pool A.Base A)
            → HasRead A.kind (seen_at A.seen) p [] result }
    {
        ListReader {
            ids: Vec::new(alloc),
            fault: None,
        }
    }

    /// Reads the list's next node, without simplifying it. After a fault it reads no further nodes.
    pub fn read_node(&mut self, alloc: Global, pool: &mut ExprPool<A>, value: &Value)
        requires owed { FitsBase A.reads pool.old }
        requires here { IfOk self.old (λ ids. All (λ i. i < size pool.old) ids) }
        ensures grown { Grown A.grows A.reads pool.old pool.new }
        ensures pool { IsPool A.reads pool.new }
        ensures read { (ds : List Data) → HasRead A.kind (seen_at A.seen) pool.old ds self.old
            → HasRead A.kind (seen_at A.seen) pool.new (ds ++ view value.now ∷ []) self.new }
        ensures numbered { (n : ℕ) → IsNumbered n self.old (size pool.old)
            → IsNumbered n self.new (size pool.new) }
    {
        pool.nodes_fit();
        self.fault = fault_after(alloc, pool, &mut self.ids, self.fault, value);
    }

    /// The expression of the list's root, which is its last node, or the list's first fault. If there is none, the
    /// pool has gained just the list's new nodes, in the list's order.
    pub fn root(self) -> Result<ExprId<A>, FlatError>
        ensures last { result ≡ last_number self }
        ensures here { (p : Pool A.Base A) → (ds : List Data)
            → HasRead A.kind (seen_at A.seen) p ds self → IfOk result (λ i. i < size p) }
        ensures root { (p : Pool A.Base A) → (ds : List Data)
            → HasRead A.kind (seen_at A.seen) p ds self
            → IfOk result (λ i. IsList A.kind (array (items_of ds)) (seen_at A.seen p i)) }
        ensures fault { (p : Pool A.Base A) → (ds : List Data)
            → HasRead A.kind (seen_at A.seen) p ds self → IfErr result
            (λ e. e ≢ FlatError.Memory → HasFault A.kind (array (items_of ds)) e) }
        ensures gained { (p q : Pool A.Base A) → (ds : List Data)
            → HasRead A.kind (seen_at A.seen) q ds self → IsNumbered (size p) self (size q)
            → IfOk result (λ _. ReadsInto A.kind (seen_at A.seen) p q (items_of ds)) }
    {
        last_or(&self.ids, self.fault)
    }
}

// The reader after reading the items.
fn items_from<A: WireLeaf>(alloc: Global, pool: &mut ExprPool<A>, items: &[Value]) -> ListReader<A>
    requires { IsPool A.reads pool.old }
    ensures grown { Grown A.grows A.reads pool.old pool.new }
    ensures read { HasRead A.kind (seen_at A.seen) pool.new (map view items.now) result }
    ensures numbered { IsNumbered (size pool.old) result (size pool.new) }
{
    let mut list = ListReader::new(alloc);
    for item in items {
        list.read_node(alloc, pool, item);
    }
    list
}

#[tactic(auto, unfolding(crate::specs::Nodes::root_of))]
pub(crate) fn list_from<A: WireLeaf>(
    alloc: Global,
    pool: &mut ExprPool<A>,
    value: &Value,
) -> Result<ExprId<A>, FlatError>
    requires { IsPool A.reads pool.old }
    ensures read { ReadsTree A.grows A.reads (seen_at A.seen) pool.old pool.new result
        (root_of A.kind (view value.now)) }
    ensures gained { IfOk result (λ _. (ds : Items) × (as_array (view value.now) ≡ Some ds)
        × ReadsInto A.kind (seen_at A.seen) pool.old pool.new ds) }
{
    let items = value.as_array().ok_or(FlatError::Shape { at: 0 })?;
    let list = items_from(alloc, pool, items);
    list.root()
}

/// Reads a list of nodes, without simplifying them, and answers the expression of its root, the last node. The pool
/// gains just the list's new nodes, in the list's order. Fails with the first fault of any other value; nodes before the
/// fault may stay in the pool.
pub fn from_flat_value<A: WireLeaf>(
    alloc: Global,
    pool: &mut ExprPool<A>,
    value: &Value,
) -> Result<ExprId<A>, FlatError>
    requires { FitsBase A.reads pool.old }
    ensures grown { Grown A.grows A.reads pool.old pool.new }
    ensures pool { IsPool A.reads pool.new }
    ensures here { IfOk result (λ i. i < size pool.new) }
    ensures root { IfOk result (λ i. IsList A.kind (view value.now) (seen_at A.seen pool.new i)) }
    ensures fault { IfErr result (λ e. e ≢ FlatError.Memory → HasFault A.kind (view value.now) e) }
    ensures gained { IfOk result (λ _. (ds : Items) × (as_array (view value.now) ≡ Some ds)
        × ReadsInto A.kind (seen_at A.seen) pool.old pool.new ds) }
{
    pool.nodes_fit();
    list_from(alloc, pool, value)
}

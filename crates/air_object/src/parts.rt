//! Reading the JSON object from its text: the trace number by number and the constraints node by node, so that at most
//! one number or node is a JSON value at a time.
ghost use Rattle.std.specs.Prelude.{◌≡◌, ◌≢◌, ◌<◌, List, [], ◌∷◌, ◌++◌, length, Err, Some, None, IfOk, IfErr, OnOk};
ghost use Rattle.serde_json.specs.Data.{Data, array, Items, item, no_items, Members};
ghost use Rattle.serde_json.specs.Read.{read};
ghost use Rattle.serde_json.specs.View.{view, items_of, members_view};
ghost use Rattle.air_symbolic.specs.BaseLeaves.{base_reads, base_grows};
ghost use Rattle.air_symbolic.specs.Numbered.{trees_in};
ghost use Rattle.air_symbolic.specs.Pools.{tree_at};
ghost use Rattle.air_json.specs.BaseLeaves.{element_at};
ghost use Rattle.air_json.specs.ReadCalls.{ReadsTree};
ghost use Rattle.air_object.specs.Begun.{value_at, items_at, members_at};
ghost use Rattle.air_object.specs.Gained.{GainsLists, GainsArray};
ghost use Rattle.air_object.specs.Parts.{GivenElements, AreElements, GivenTrees, InPool, AreGiven, AreMembersOf, ArePartsOf, read_one_more};
ghost use Rattle.air_object.specs.Readers.{each_from, elements, tree, trees};

use crate::constraints::{
    BasePool, Constraints, Root, constraints_listed, constraints_of, missing_constraints,
    no_constraints, root_from, with_root,
};
use crate::elements::{Elements, elements_from, missing_elements, no_elements, with_element};
use crate::members::elements_at;
use crate::text::{Beginning, TextFault, read, read_beginning, read_from};
use air_field::{Field, PrimeField64};
use air_json::ListReader;
use json::{Reader, Scratch, Token};
use serde_json::{Map, Value};
use std::alloc::Global;

const MAX_DEPTH: usize = 127;

/// An object's trace and constraints, and a value with its other members.
#[derive(Drop)]
pub struct Parts<F: Field> {
    pub rest: Value,
    pub main: Elements<F>,
    pub constraints: Constraints<F>,
}

// Reads a value, and appends its element.
fn read_element<F: PrimeField64>(
    alloc: Global,
    reader: &mut Reader<'_>,
    depth: usize,
    elements: Elements<F>,
) -> Result<Elements<F>, TextFault>
    ensures ok { IfOk result (λ es. (d : Data)
        × (value_at depth reader.old ≡ Some (d, reader.new))
        × ((given : GivenElements F) → AreElements given elements
        → AreElements (read_one_more (element_at F.residues 0) given d) es)) }
    ensures shorter { OnOk result (length reader.new < length reader.old) }
    ensures err { result ≡ Err TextFault.Json → value_at depth reader.old ≡ None }
{
    let item = read(alloc, reader, depth)?;
    Ok(with_element(elements, &item))
}

// The elements in the rest of the current array.
fn read_items<F: PrimeField64>(
    alloc: Global,
    reader: &mut Reader<'_>,
    depth: usize,
) -> Result<Elements<F>, TextFault>
    ensures ok { IfOk result (λ es. (ds : Items)
        × (items_at depth reader.old ≡ Some (ds, reader.new))
        × AreElements (each_from (element_at F.residues 0) [] ds) es) }
    ensures shorter { OnOk result (length reader.new < length reader.old) }
    ensures err { result ≡ Err TextFault.Json → items_at depth reader.old ≡ None }
{
    let mut elements = no_elements(alloc);
    'items: while !reader.take_end_array() {
        elements = read_element(alloc, reader, depth, elements)?;
    }
    Ok(elements)
}

// The elements in the next value.
fn read_elements<F: PrimeField64>(
    alloc: Global,
    reader: &mut Reader<'_>,
    depth: usize,
) -> Result<Elements<F>, TextFault>
    ensures ok { IfOk result (λ es. (d : Data)
        × (value_at depth reader.old ≡ Some (d, reader.new))
        × AreElements (elements F.residues d) es) }
    ensures shorter { OnOk result (length reader.new < length reader.old) }
    ensures err { result ≡ Err TextFault.Json → value_at depth reader.old ≡ None }
{
    match read_beginning(alloc, reader, depth)? {
        Beginning::Array(inside) => read_items(alloc, reader, inside),
        Beginning::Other(other) => Ok(elements_from(alloc, &other)),
    }
}

// The root of the list of nodes in the rest of the current array, read node by node.
fn read_nodes<F: PrimeField64>(
    alloc: Global,
    reader: &mut Reader<'_>,
    depth: usize,
    pool: &mut BasePool<F>,
) -> Result<Root<F>, TextFault>
    ensures ok { IfOk result (λ root. (ds : Items)
        × (items_at depth reader.old ≡ Some (ds, reader.new))
        × ReadsTree base_grows base_reads tree_at pool.old pool.new root (tree F.residues (array ds))
        × IfOk root (λ _. GainsLists F.residues (item (array ds) no_items)
        (trees_in pool.old) (trees_in pool.new))) }
    ensures shorter { OnOk result (length reader.new < length reader.old) }
    ensures err { result ≡ Err TextFault.Json → items_at depth reader.old ≡ None }
{
    pool.nodes_fit();
    let mut list = ListReader::new(alloc);
    'items: while !reader.take_end_array() {
        let item = read(alloc, reader, depth)?;
        list.read_node(alloc, pool, &item);
    }
    Ok(list.root())
}

// The root of the list in the next value.
fn read_root<F: PrimeField64>(
    alloc: Global,
    reader: &mut Reader<'_>,
    depth: usize,
    pool: &mut BasePool<F>,
) -> Result<Root<F>, TextFault>
    ensures ok { IfOk result (λ root. (d : Data)
        × (value_at depth reader.old ≡ Some (d, reader.new))
        × ReadsTree base_grows base_reads tree_at pool.old pool.new root (tree F.residues d)
        × IfOk root (λ _. GainsLists F.residues (item d no_items)
        (trees_in pool.old) (trees_in pool.new))) }
    ensures shorter { OnOk result (length reader.new < length reader.old) }
    ensures err { result ≡ Err TextFault.Json → value_at depth reader.old ≡ None }
{
    match read_beginning(alloc, reader, depth)? {
        Beginning::Array(inside) => read_nodes(alloc, reader, inside, pool),
        Beginning::Other(other) => Ok(root_from(alloc, pool, &other)),
    }
}

// Reads a list of nodes, and appends its root to the constraints.
fn read_list<F: PrimeField64>(
    alloc: Global,
    reader: &mut Reader<'_>,
    depth: usize,
    constraints: Constraints<F>,
) -> Result<Constraints<F>, TextFault>
    requires { InPool constraints }
    ensures ok { IfOk result (λ c. (d : Data)
        × (value_at depth reader.old ≡ Some (d, reader.new))
        × ((given : GivenTrees F) → (ds : List Data)
        → AreGiven given (GainsLists F.residues (items_of ds) []) constraints
        → AreGiven (read_one_more (tree F.residues) given d)
        (GainsLists F.residues (items_of (ds ++ d ∷ [])) []) c)) }
    ensures shorter { OnOk result (length reader.new < length reader.old) }
    ensures err { result ≡ Err TextFault.Json → value_at depth reader.old ≡ None }
{
    let Constraints { mut pool, roots } = constraints;
    let root = read_root(alloc, reader, depth, &mut pool)?;
    let roots = with_root(roots, root);
    Ok(Constraints { pool, roots })
}

// The constraints in the rest of the current array.
fn read_lists<F: PrimeField64>(
    alloc: Global,
    reader: &mut Reader<'_>,
    depth: usize,
) -> Result<Constraints<F>, TextFault>
    ensures ok { IfOk result (λ c. (ds : Items)
        × (items_at depth reader.old ≡ Some (ds, reader.new))
        × AreGiven (each_from (tree F.residues) [] ds) (GainsLists F.residues ds []) c) }
    ensures shorter { OnOk result (length reader.new < length reader.old) }
    ensures err { result ≡ Err TextFault.Json → items_at depth reader.old ≡ None }
{
    let mut constraints = no_constraints(alloc);
    'items: while !reader.take_end_array() {
        constraints = read_list(alloc, reader, depth, constraints)?;
    }
    Ok(constraints)
}

// The constraints in the next value.
fn read_constraints<F: PrimeField64>(
    alloc: Global,
    reader: &mut Reader<'_>,
    depth: usize,
) -> Result<Constraints<F>, TextFault>
    ensures ok { IfOk result (λ c. (d : Data)
        × (value_at depth reader.old ≡ Some (d, reader.new))
        × AreGiven (trees F.residues d) (GainsArray F.residues d []) c) }
    ensures shorter { OnOk result (length reader.new < length reader.old) }
    ensures err { result ≡ Err TextFault.Json → value_at depth reader.old ≡ None }
{
    match read_beginning(alloc, reader, depth)? {
        Beginning::Array(inside) => read_lists(alloc, reader, inside),
        Beginning::Other(other) => Ok(constraints_listed(alloc, &other)),
    }
}

// The members in the rest of the current object, with the trace and the constraints apart.
fn read_apart<F: PrimeField64>(
    alloc: Global,
    reader: &mut Reader<'_>,
    depth: usize,
) -> Result<(Map<String, Value>, Elements<F>, Constraints<F>), TextFault>
    ensures ok { IfOk result (λ p. (ms : Members)
        × (members_at depth reader.old ≡ Some (ms, reader.new))
        × AreMembersOf F.residues ms (members_view p.0.entries) p.1 p.2) }
    ensures err { result ≡ Err TextFault.Json → members_at depth reader.old ≡ None }
{
    let mut rest = Map::new(alloc);
    let mut main = missing_elements();
    let mut constraints = missing_constraints(alloc);
    'members: while let Some(name) = reader.next_key()? {
        if name == "main" {
            main = read_elements(alloc, reader, depth)?;
        } else if name == "constraints" {
            constraints = read_constraints(alloc, reader, depth)?;
        } else {
            let key = String::from_str(alloc, name)?;
            let member = read(alloc, reader, depth)?;
            drop(rest.insert(key, member)?);
        }
    }
    Ok((rest, main, constraints))
}

// The parts of the next value.
fn read_parts<F: PrimeField64>(
    alloc: Global,
    reader: &mut Reader<'_>,
    depth: usize,
) -> Result<Parts<F>, TextFault>
    ensures ok { IfOk result (λ p. (d : Data)
        × (value_at depth reader.old ≡ Some (d, reader.new))
        × ArePartsOf F.residues d (view p.rest) p.main p.constraints) }
    ensures err { result ≡ Err TextFault.Json → value_at depth reader.old ≡ None }
{
    let token = reader.next().ok_or(TextFault::Json)?;
    if let Token::BeginObject = token {
        if depth == 0 {
            return Err(TextFault::Json);
        }
        let (rest, main, constraints) = read_apart(alloc, reader, depth - 1)?;
        return Ok(Parts {
            rest: Value::Object(rest),
            main,
            constraints,
        });
    }
    let rest = read_from(alloc, token, reader, depth)?;
    let main = elements_at(alloc, &rest, "main");
    let constraints = constraints_of(alloc, &rest);
    Ok(Parts {
        rest,
        main,
        constraints,
    })
}

/// The parts of the text's JSON value.
pub fn parts_of<F: PrimeField64>(alloc: Global, text: &str) -> Result<Parts<F>, TextFault>
    ensures ok { IfOk result (λ p. (d : Data) × (read text.now ≡ Some d)
        × ArePartsOf F.residues d (view p.rest) p.main p.constraints) }
    ensures err { result ≡ Err TextFault.Json → read text.now ≡ None }
{
    let mut scratch = Scratch::new(alloc);
    let mut reader = Reader::new(text, &mut scratch)?;
    let parts = read_parts(alloc, &mut reader, MAX_DEPTH)?;
    if reader.next().is_some() {
        return Err(TextFault::Json);
    }
    Ok(parts)
}

//! Constraints, each a list of base nodes, in one pool.
ghost use Rattle.std.specs.Prelude.{◌≡◌, [], Ok, Err, IfOk};
ghost use Rattle.serde_json.specs.Data.{item, no_items};
ghost use Rattle.serde_json.specs.View.{view, items_view};
ghost use Rattle.air_symbolic.specs.BaseLeaves.{base_reads, base_grows};
ghost use Rattle.air_symbolic.specs.Numbered.{trees_in};
ghost use Rattle.air_symbolic.specs.Pools.{tree_at};
ghost use Rattle.air_json.specs.ReadCalls.{ReadsTree, ReadsAll};
ghost use Rattle.air_json.specs.Results.{Gives};
ghost use Rattle.air_json.specs.declared.errors.FlatError.TheVariants.{Shape};
ghost use Rattle.air_object.specs.Gained.{GainsLists, GainsArray, GainsMember};
ghost use Rattle.air_object.specs.Parts.{AreGiven, and_one, root_numbers};
ghost use Rattle.air_object.specs.Readers.{each_from, tree, trees, constraints_member};

use air_field::{Field, PrimeField64};
use air_json::{FlatError, from_flat_value};
use air_symbolic::{BaseLeaf, ExprId, ExprPool};
use serde_json::Value;
use std::alloc::Global;

/// The pool of the constraints, the id of one of its expressions, and the ids of all roots.
pub type BasePool<F> = ExprPool<BaseLeaf<F>>;

pub type BaseId<F> = ExprId<BaseLeaf<F>>;

pub type Roots<F> = Vec<BaseId<F>>;

/// A root, or the first fault of its list.
pub(crate) type Root<F> = Result<BaseId<F>, FlatError>;

/// Constraints that are read ahead of other members: the pool of their lists, and their roots or the first fault.
#[derive(Drop)]
pub struct Constraints<F: Field> {
    pub pool: BasePool<F>,
    pub roots: Result<Roots<F>, FlatError>,
}

/// The root of the list in the value.
pub(crate) fn root_from<F: PrimeField64>(
    alloc: Global,
    pool: &mut BasePool<F>,
    value: &Value,
) -> Root<F>
    ensures read { ReadsTree base_grows base_reads tree_at pool.old pool.new result
        (tree F.residues (view value.now)) }
    ensures gained { IfOk result (λ _. GainsLists F.residues (item (view value.now) no_items)
        (trees_in pool.old) (trees_in pool.new)) }
{
    from_flat_value(alloc, pool, value)
}

fn roots_of<F: PrimeField64>(
    alloc: Global,
    pool: &mut BasePool<F>,
    items: &[Value],
) -> Result<Roots<F>, FlatError>
    ensures read { ReadsAll base_grows base_reads tree_at (λ v. v.items) pool.old pool.new result
        (each_from (tree F.residues) [] (items_view items.now)) }
    ensures gained { IfOk result (λ _. GainsLists F.residues (items_view items.now)
        (trees_in pool.old) (trees_in pool.new)) }
{
    let mut roots = Vec::new(alloc);
    for item in items {
        let root = root_from(alloc, pool, item)?;
        roots.push(root)?;
    }
    Ok(roots)
}

/// The roots of the lists in the value. The pool gains just the lists' new nodes, in the lists' order.
#[tactic(auto, unfolding(crate::specs::Readers::trees))]
pub fn roots_from<F: PrimeField64>(
    alloc: Global,
    pool: &mut BasePool<F>,
    value: &Value,
) -> Result<Roots<F>, FlatError>
    ensures read { ReadsAll base_grows base_reads tree_at (λ v. v.items) pool.old pool.new result
        (trees F.residues (view value.now)) }
    ensures gained { IfOk result (λ _. GainsArray F.residues (view value.now)
        (trees_in pool.old) (trees_in pool.new)) }
{
    let items = value.as_array().ok_or(FlatError::Shape { at: 0 })?;
    roots_of(alloc, pool, items)
}

/// No constraints.
pub fn no_constraints<F: PrimeField64>(alloc: Global) -> Constraints<F>
    ensures none { root_numbers result.roots ≡ Ok [] }
    ensures given { AreGiven (Ok []) (GainsLists F.residues no_items []) result }
{
    Constraints {
        pool: ExprPool::new(alloc),
        roots: Ok(Vec::new(alloc)),
    }
}

/// The fault of an object without the member.
pub fn missing_constraints<F: PrimeField64>(alloc: Global) -> Constraints<F>
    ensures fault { result.roots ≡ Err (Shape 0) }
    ensures given { AreGiven (Err (Shape 0)) (λ _. ⊥) result }
{
    Constraints {
        pool: ExprPool::new(alloc),
        roots: Err(FlatError::Shape { at: 0 }),
    }
}

/// The roots and one more, or the first fault.
pub(crate) fn with_root<F: PrimeField64>(
    roots: Result<Roots<F>, FlatError>,
    root: Root<F>,
) -> Result<Roots<F>, FlatError>
    ensures { Gives (λ v. v.items) result (and_one (root_numbers roots) root) }
{
    let mut roots = roots?;
    roots.push(root?)?;
    Ok(roots)
}

/// The constraints in the value.
pub fn constraints_listed<F: PrimeField64>(alloc: Global, value: &Value) -> Constraints<F>
    ensures { AreGiven (trees F.residues (view value.now)) (GainsArray F.residues (view value.now) [])
        result }
{
    let mut pool = ExprPool::new(alloc);
    let roots = roots_from(alloc, &mut pool, value);
    Constraints { pool, roots }
}

/// The constraints of an object.
#[tactic(auto, unfolding(crate::specs::Readers::constraints_member))]
pub fn constraints_of<F: PrimeField64>(alloc: Global, value: &Value) -> Constraints<F>
    ensures { AreGiven (constraints_member F.residues (view value.now))
        (GainsMember F.residues (view value.now)) result }
{
    match value.get("constraints") {
        Some(lists) => constraints_listed(alloc, lists),
        None => missing_constraints(alloc),
    }
}

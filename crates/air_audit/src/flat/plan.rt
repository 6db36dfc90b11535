//! The plan by which the expressions of roots are made: once it is there, nothing is searched.
ghost use Rattle.std.specs.List.{AllZip};
ghost use Rattle.std.specs.Prelude.{◌≡◌, ◌++◌, ◌∷◌, [], ◌<◌, ℕ, length, slice_index_or, All, None, Some, MatchOption, OnOk, IfOk, IfErr};
ghost use Rattle.air_symbolic.specs.BaseLeaves.{base_leaves};
ghost use Rattle.air_symbolic.specs.Nodes.{IsNode};
ghost use Rattle.air_symbolic.specs.Pools.{FitsBase, size};
ghost use Rattle.air_symbolic.specs.Reach.{EachOperand};
ghost use Rattle.air_symbolic.specs.declared.pools.expr.SymbolicExpr.{SymbolicExpr};
ghost use Rattle.air_symbolic.specs.declared.leaves.base_leaf.BaseLeaf.{BaseLeaf};
ghost use Rattle.air_core.specs.declared.errors.AirError.{AirError};
ghost use Rattle.air_audit.specs.Plans.{number_at, IsPlaceOf, StepMakes, AreSteps, HavePlaces, IsPlan};
ghost use Rattle.air_audit.specs.ExtPlans.{HaveRoots, IsOrder};

use crate::flat::pushing::push;
use crate::flat::step::Step;
use air_builder::AirError;
use air_field::Field;
use air_symbolic::{BaseEntry, BaseLeaf, ExprId, ExprPool, SymLeaf, SymbolicExpr, reached_nodes};
use std::alloc::Global;

/// How the expressions of some roots are made, one after another.
#[derive(Drop)]
pub(crate) struct Plan<F: Field> {
    /// The numbers that the roots reach, from the least up.
    pub(crate) numbers: Vec<ExprId<BaseLeaf<F>>>,
    /// How the expression of each is made.
    pub(crate) steps: Vec<Step>,
    /// The places of the roots among them.
    pub(crate) places: Vec<usize>,
}

// Adds the number that is marked at a place, if one is.
fn push_marked<A: SymLeaf>(
    numbers: &mut Vec<ExprId<A>>,
    mark: Option<ExprId<A>>,
) -> Result<(), AirError>
    ensures ok { OnOk result (MatchOption mark (numbers.new.items ≡ numbers.old.items)
        (λ i. numbers.new.items ≡ numbers.old.items ++ i ∷ [])) }
    ensures refused { IfErr result (λ e. e ≡ AirError.Memory) }
{
    match mark {
        Some(id) => push(numbers, id),
        None => Ok(()),
    }
}

// The numbers that are marked, and how many of them are less than each number.
fn number_marked<A: SymLeaf>(
    alloc: Global,
    marks: &[Option<ExprId<A>>],
) -> Result<(Vec<ExprId<A>>, Vec<usize>), AirError>
    requires own { (i j : ℕ) → slice_index_or marks.now i None ≡ Some j → j ≡ i }
    ensures numbered { IfOk result (λ both. HavePlaces marks.now both.0.items both.1.items) }
    ensures refused { IfErr result (λ e. e ≡ AirError.Memory) }
{
    let mut numbers = Vec::new(alloc);
    let mut places = Vec::new(alloc);
    for mark in marks {
        push(&mut places, numbers.len())?;
        push_marked(&mut numbers, *mark)?;
    }
    Ok((numbers, places))
}

// Whether an expression is a selector, which is 0 or 1 on most rows that are tested.
fn is_selector<F: Field>(pool: &ExprPool<BaseLeaf<F>>, id: ExprId<BaseLeaf<F>>) -> bool
    requires here { id < size pool.now }
{
    match pool.node(id) {
        SymbolicExpr::Leaf(leaf) => match leaf {
            BaseLeaf::IsFirstRow | BaseLeaf::IsLastRow | BaseLeaf::IsTransition => true,
            _ => false,
        },
        _ => false,
    }
}

// The step that makes a node, whose operands are at these places.
fn step_of<F: Field>(
    pool: &ExprPool<BaseLeaf<F>>,
    node: SymbolicExpr<BaseLeaf<F>>,
    places: &[usize],
) -> Step
    requires long { length places.now ≡ size pool.now }
    requires operands { EachOperand (λ i. i < length places.now) node }
    ensures { StepMakes base_leaves (λ p i. p ≡ slice_index_or places.now i 0) result node }
{
    match node {
        SymbolicExpr::Leaf(leaf) => match leaf {
            BaseLeaf::Variable(variable) => match variable.entry {
                BaseEntry::Main { offset } => match offset {
                    0 => Step::Current(variable.index),
                    1 => Step::Next(variable.index),
                    _ => Step::Leaf,
                },
                _ => Step::Leaf,
            },
            _ => Step::Leaf,
        },
        SymbolicExpr::Add { x, y, .. } => Step::Add(places[x.number()], places[y.number()]),
        SymbolicExpr::Sub { x, y, .. } => Step::Sub(places[x.number()], places[y.number()]),
        SymbolicExpr::Neg { x, .. } => Step::Neg(places[x.number()]),
        SymbolicExpr::Mul { x, y, .. } => {
            let (at, other) = (places[x.number()], places[y.number()]);
            if is_selector(pool, x) {
                Step::Gate(at, other)
            } else {
                Step::Mul(at, other)
            }
        }
    }
}

// The steps that make the numbers, whose operands are before them, at these places.
fn steps_of<F: Field>(
    alloc: Global,
    pool: &ExprPool<BaseLeaf<F>>,
    numbers: &[ExprId<BaseLeaf<F>>],
    places: &[usize],
) -> Result<Vec<Step>, AirError>
    requires here { All (λ i. i < size pool.now) numbers.now }
    requires long { length places.now ≡ size pool.now }
    requires before { (k : ℕ) → k < length numbers.now → (n : SymbolicExpr (BaseLeaf F)) →
        IsNode base_leaves pool.now.nodes (number_at numbers.now k) n →
        EachOperand (λ i. IsPlaceOf numbers.now k (slice_index_or places.now i 0) i) n }
    ensures made { IfOk result (λ steps.
        AreSteps base_leaves pool.now.nodes numbers.now steps.items) }
    ensures refused { IfErr result (λ e. e ≡ AirError.Memory) }
{
    let mut steps = Vec::new(alloc);
    for id in numbers {
        push(&mut steps, step_of(pool, *pool.node(*id), places))?;
    }
    Ok(steps)
}

// The places of the roots.
fn places_of<A: SymLeaf>(
    alloc: Global,
    roots: &[ExprId<A>],
    places: &[usize],
) -> Result<Vec<usize>, AirError>
    requires { All (λ i. i < length places.now) roots.now }
    ensures placed { IfOk result (λ found.
        AllZip (λ p i. p ≡ slice_index_or places.now i 0) found.items roots.now) }
    ensures refused { IfErr result (λ e. e ≡ AirError.Memory) }
{
    let mut found = Vec::new(alloc);
    for root in roots {
        push(&mut found, places[root.number()])?;
    }
    Ok(found)
}

/// The numbers that the roots reach, from the least up, and for each number of the pool the place of it among them.
pub(crate) fn order_of<A: SymLeaf>(
    alloc: Global,
    pool: &ExprPool<A>,
    roots: &[ExprId<A>],
) -> Result<(Vec<ExprId<A>>, Vec<usize>), AirError>
    requires owed { FitsBase A.reads pool.now }
    requires here { All (λ i. i < size pool.now) roots.now }
    ensures ordered { IfOk result (λ both. IsOrder (A.reads pool.now.base) pool.now.nodes
        roots.now both.0.items both.1.items) }
    ensures refused { IfErr result (λ e. e ≡ AirError.Memory) }
{
    let marks = reached_nodes(alloc, pool, roots)?;
    number_marked(alloc, &marks)
}

/// The plan of some roots, and for each number of the pool the place of its expression.
pub(crate) fn plan_with_places<F: Field>(
    alloc: Global,
    pool: &ExprPool<BaseLeaf<F>>,
    roots: &[ExprId<BaseLeaf<F>>],
) -> Result<(Plan<F>, Vec<usize>), AirError>
    requires here { All (λ i. i < size pool.now) roots.now }
    ensures planned { IfOk result (λ both. IsPlan base_leaves pool.now.nodes roots.now
        both.0.numbers.items both.0.steps.items both.0.places.items) }
    ensures placed { IfOk result (λ both. HaveRoots (size pool.now) both.0.numbers.items
        both.1.items roots.now) }
    ensures refused { IfErr result (λ e. e ≡ AirError.Memory) }
{
    let (numbers, table) = order_of(alloc, pool, roots)?;
    let steps = steps_of(alloc, pool, &numbers, &table)?;
    let places = places_of(alloc, roots, &table)?;
    let plan = Plan {
        numbers,
        steps,
        places,
    };
    Ok((plan, table))
}

/// The plan of some roots.
pub(crate) fn plan_of<F: Field>(
    alloc: Global,
    pool: &ExprPool<BaseLeaf<F>>,
    roots: &[ExprId<BaseLeaf<F>>],
) -> Result<Plan<F>, AirError>
    requires here { All (λ i. i < size pool.now) roots.now }
    ensures planned { IfOk result (λ plan. IsPlan base_leaves pool.now.nodes roots.now
        plan.numbers.items plan.steps.items plan.places.items) }
    ensures refused { IfErr result (λ e. e ≡ AirError.Memory) }
{
    let (plan, _) = plan_with_places(alloc, pool, roots)?;
    Ok(plan)
}

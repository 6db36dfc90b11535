//! Which expressions get a name.
ghost use Rattle.std.specs.Prelude.{◌≡◌, ℕ, ◌<◌, length, slice_index_or, [], ◌∷◌, ◌++◌, Some, None, option_map, All, IfOk, OnOk, if◌then◌else◌};
ghost use Rattle.std.specs.Option.{option_to_list};
ghost use Rattle.air_symbolic.specs.Pools.{FitsBase, size};
ghost use Rattle.air_print.specs.Names.{AreNames, passing_below, name_by, is_operation};
ghost use Rattle.air_print.specs.Counts.{passes, AreMarks};

use crate::counts::{Places, count_places};
use crate::names::Names;
use air_symbolic::{ExprId, ExprPool, SymLeaf, SymbolicExpr, reached_nodes};
use std::alloc::{AllocError, Global};

// Whether a node has operands.
fn is_operation<A: SymLeaf>(node: SymbolicExpr<A>) -> bool
    ensures { result ≡ is_operation node }
{
    match node {
        SymbolicExpr::Leaf(_) => false,
        _ => true,
    }
}

// The expression at this index, if it gets a name.
fn named_at<A: SymLeaf>(
    pool: &ExprPool<A>,
    marks: &[Option<ExprId<A>>],
    counts: &[Places],
    number: usize,
) -> Option<ExprId<A>>
    requires owed { FitsBase A.reads pool.now }
    requires marks { AreMarks (size pool.now) marks.now }
    requires places { length counts.now ≡ size pool.now }
    requires here { number < length marks.now }
    ensures { result
        ≡ if passes pool.now.nodes marks.now counts.now number then Some number else None }
{
    let Some(id) = marks[number] else {
        return None;
    };
    if is_operation(*pool.node(id)) && counts[number] == Places::More {
        Some(id)
    } else {
        None
    }
}

// Gives an expression the next name, if it gets one.
fn give_name<A: SymLeaf>(
    named: &mut Vec<ExprId<A>>,
    names: &mut Vec<Option<usize>>,
    id: Option<ExprId<A>>,
) -> Result<(), AllocError>
    ensures named { OnOk result (named.new.items ≡ named.old.items ++ option_to_list id) }
    ensures names { OnOk result (names.new.items ≡
        names.old.items ++ option_map (λ _. length named.old.items) id ∷ []) }
{
    match id {
        Some(id) => {
            names.push(Some(named.len()))?;
            named.push(id)?;
        }
        None => names.push(None)?,
    }
    Ok(())
}

// Names the expressions in order.
fn give_names<A: SymLeaf>(
    alloc: Global,
    pool: &ExprPool<A>,
    marks: &[Option<ExprId<A>>],
    counts: &[Places],
) -> Result<Names<A>, AllocError>
    requires owed { FitsBase A.reads pool.now }
    requires marks { AreMarks (size pool.now) marks.now }
    requires places { length counts.now ≡ size pool.now }
    ensures named { IfOk result (λ n. n.0 ≡
        passing_below (passes pool.now.nodes marks.now counts.now) (size pool.now)) }
    ensures each { IfOk result (λ n. (i : ℕ) →
        slice_index_or n.1 i None ≡ name_by (passes pool.now.nodes marks.now counts.now) i) }
{
    let mut named = Vec::new(alloc);
    let mut names = Vec::with_capacity(alloc, marks.len())?;
    for number in 0..marks.len() {
        let id = named_at(pool, marks, counts, number);
        give_name(&mut named, &mut names, id)?;
    }
    Ok(Names { named, names })
}

impl<A: SymLeaf> Names<A> {
    /// The names for showing these roots: every reachable non-leaf node used at least twice, as an operand or as a
    /// root, gets one.
    pub fn of(alloc: Global, pool: &ExprPool<A>, roots: &[ExprId<A>]) -> Result<Self, AllocError>
        requires owed { FitsBase A.reads pool.now }
        requires here { All (λ x. x < size pool.now) roots.now }
        ensures { IfOk result
            (AreNames (A.reads pool.now.base) pool.now.nodes roots.now) }
    {
        let Ok(marks) = reached_nodes(alloc, pool, roots) else {
            return Err(AllocError);
        };
        let counts = count_places(alloc, pool, roots, &marks)?;
        give_names(alloc, pool, &marks, &counts)
    }
}

//! How often each expression is used: never, once or more.
ghost use Rattle.std.specs.Prelude.{◌≡◌, ℕ, ◌+◌, ◌<◌, ◌==◌, length, All, IfOk};
ghost use Rattle.std.specs.List.{count_by};
ghost use Rattle.air_symbolic.specs.Pools.{FitsBase, size};
ghost use Rattle.air_print.specs.Names.{one_if_is, total_below, places_at, count_of_places};
ghost use Rattle.air_print.specs.Counts.{places_for, AreCounted, AreMarks};

use air_symbolic::{ExprId, ExprPool, SymLeaf};
use std::alloc::{AllocError, Global};

/// How often an expression is used.
#[derive(Clone, Copy, Debug, PartialEq, Eq)]
pub enum Places {
    Nowhere,
    Once,
    More,
}

// One more use.
fn one_more(places: Places) -> Places
    ensures { (n : ℕ) → places ≡ places_for n → result ≡ places_for (n + 1) }
{
    match places {
        Places::Nowhere => Places::Once,
        _ => Places::More,
    }
}

// Counts a use of `x`.
fn count_place<A: SymLeaf>(counts: &mut [Places], x: ExprId<A>)
    requires { x < length counts.old }
    ensures { (f : ℕ → ℕ) → AreCounted f counts.old
        → AreCounted (λ i. f i + one_if_is i x) counts.new }
{
    let number = x.number();
    counts[number] = one_more(counts[number]);
}

// Counts a use of each expression of a list.
fn count_each<A: SymLeaf>(counts: &mut [Places], used: &[ExprId<A>])
    requires { All (λ x. x < length counts.old) used.now }
    ensures { (f : ℕ → ℕ) → AreCounted f counts.old →
        AreCounted (λ i. f i + count_by (λ x. x == i) used.now) counts.new }
{
    for x in used {
        count_place(counts, *x);
    }
}

// Counts the operands of a node, if it is reached.
fn count_node<A: SymLeaf>(
    counts: &mut [Places],
    pool: &ExprPool<A>,
    marks: &[Option<ExprId<A>>],
    number: usize,
)
    requires owed { FitsBase A.reads pool.now }
    requires places { length counts.old ≡ size pool.now }
    requires marks { AreMarks (size pool.now) marks.now }
    requires here { number < length marks.now }
    ensures { (f : ℕ → ℕ) → AreCounted f counts.old →
        AreCounted (λ i. f i + places_at pool.now.nodes marks.now i number) counts.new }
{
    if let Some(id) = marks[number] {
        count_each(counts, pool.node(id).operands().as_slice());
    }
}

// Counts the operands of all reached nodes.
fn count_reached<A: SymLeaf>(counts: &mut [Places], pool: &ExprPool<A>, marks: &[Option<ExprId<A>>])
    requires owed { FitsBase A.reads pool.now }
    requires places { length counts.old ≡ size pool.now }
    requires marks { AreMarks (size pool.now) marks.now }
    ensures { (f : ℕ → ℕ) → AreCounted f counts.old → AreCounted
        (λ i. f i + total_below (places_at pool.now.nodes marks.now i) (size pool.now))
        counts.new }
{
    for number in 0..marks.len() {
        count_node(counts, pool, marks, number);
    }
}

// Counts all uses, starting from zero counts.
fn count_all<A: SymLeaf>(
    counts: &mut [Places],
    pool: &ExprPool<A>,
    roots: &[ExprId<A>],
    marks: &[Option<ExprId<A>>],
)
    requires owed { FitsBase A.reads pool.now }
    requires here { All (λ x. x < size pool.now) roots.now }
    requires places { length counts.old ≡ size pool.now }
    requires marks { AreMarks (size pool.now) marks.now }
    requires none { AreCounted (λ _. 0) counts.old }
    ensures { AreCounted (count_of_places pool.now.nodes roots.now marks.now) counts.new }
{
    count_each(counts, roots);
    count_reached(counts, pool, marks);
}

/// Counts the uses of each expression, as an operand of a reached node or as a root.
pub fn count_places<A: SymLeaf>(
    alloc: Global,
    pool: &ExprPool<A>,
    roots: &[ExprId<A>],
    marks: &[Option<ExprId<A>>],
) -> Result<Vec<Places>, AllocError>
    requires owed { FitsBase A.reads pool.now }
    requires here { All (λ x. x < size pool.now) roots.now }
    requires marks { AreMarks (size pool.now) marks.now }
    ensures places { IfOk result (λ counts. length counts.items ≡ size pool.now) }
    ensures counted { IfOk result (λ counts.
        AreCounted (count_of_places pool.now.nodes roots.now marks.now) counts.items) }
{
    let mut counts = vec![in alloc; Places::Nowhere; pool.len()]?;
    count_all(&mut counts, pool, roots, marks);
    Ok(counts)
}

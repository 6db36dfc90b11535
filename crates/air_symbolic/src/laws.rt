//! Facts that callers rely on, as contracts of functions.
ghost use Rattle.std.specs.Prelude.{◌≡◌, ℕ, ◌<◌, ◌≤◌, ◌↔◌, List, IsTrue, slice_index_or};
ghost use Rattle.std.specs.Ordering.{nat_cmp};
ghost use Rattle.air_field.specs.Ring.{AlgebraOver, AlgebraOverLaws};
ghost use Rattle.air_field.specs.Term.{Leaf, Term};
ghost use Rattle.air_field.specs.Polynomial.{polynomial, SamePolynomial, HasDegreeAtMost};
ghost use Rattle.air_field.specs.Degree.{degree_by};
ghost use Rattle.air_field.specs.Comparison.{IsExactOrder};
ghost use Rattle.air_symbolic.specs.Pools.{Pool, IsPool, FitsBase, PoolMeans, tree_at, term_at, KeepsTree, size};
ghost use Rattle.air_symbolic.specs.Numbered.{trees_in};
ghost use Rattle.air_symbolic.specs.ExtLeaves.{ext_reads};
ghost use Rattle.air_symbolic.specs.ExtPool.{GrowsWithBase};
ghost use Rattle.air_symbolic.specs.ExtTrees.{whole_tree_at, KeepsWholeTree};

use crate::leaves::ext_leaf::ExtLeaf;
use crate::leaves::sym_leaf::SymLeaf;
use crate::pools::expr::ExprId;
use crate::pools::pool::ExprPool;
use air_field::{ExtensionField, Field};
use std::cmp::Ordering;

/// Two numbers of a pool are equal exactly if their trees are: a tree has only one number.
pub fn is_same_tree<A: SymLeaf>(pool: &ExprPool<A>, x: ExprId<A>, y: ExprId<A>) -> bool
    requires owed { FitsBase A.reads pool.now }
    requires x_in { x < size pool.now }
    requires y_in { y < size pool.now }
    ensures numbers { IsTrue result ↔ (x ≡ y) }
    ensures trees { IsTrue result ↔ (tree_at pool.now x ≡ tree_at pool.now y) }
{
    pool.nodes_fit();
    x == y
}

/// Two pools over one base are equal if they have the same trees in the order of their numbers.
pub fn pools_are_their_trees<A: SymLeaf>()
    ensures { (p q : Pool A.Base A) → IsPool A.reads p → IsPool A.reads q → q.base ≡ p.base
        → trees_in q ≡ trees_in p → q ≡ p }
{}

/// Two numbers of an extension pool are equal exactly if their trees are, where a Base leaf is its whole base tree.
pub fn is_same_whole_tree<F: Field, EF: ExtensionField<F>>(
    pool: &ExprPool<ExtLeaf<F, EF>>,
    x: ExprId<ExtLeaf<F, EF>>,
    y: ExprId<ExtLeaf<F, EF>>,
) -> bool
    requires owed { FitsBase (ext_reads EF.basis) pool.now }
    requires x_in { x < size pool.now }
    requires y_in { y < size pool.now }
    ensures numbers { IsTrue result ↔ (x ≡ y) }
    ensures trees { IsTrue result ↔ (whole_tree_at pool.now x ≡ whole_tree_at pool.now y) }
{
    pool.nodes_fit();
    is_same_tree(pool, x, y)
}

/// An expression has the same polynomial as each term that it means, under every assignment over every algebra `E`.
pub fn polynomial_is_kept<E, A: SymLeaf>(_pool: &ExprPool<A>, _x: ExprId<A>)
    ensures { (a : AlgebraOver A.F E) → AlgebraOverLaws A.F.ring a → (t : Term A.F)
        → PoolMeans A.reads A.F.ring _pool.now _x t → (s : Leaf → List E) → SamePolynomial
        (polynomial a s (term_at A.reads _pool.now _x)) (polynomial a s t) }
{}

/// The degree of an expression is at most that of each term that it means, under all weights of the leaves.
pub fn degree_is_kept<A: SymLeaf>(_pool: &ExprPool<A>, _x: ExprId<A>)
    ensures { (t : Term A.F) → PoolMeans A.reads A.F.ring _pool.now _x t → (w : Leaf → ℕ)
        → degree_by w (term_at A.reads _pool.now _x) ≤ degree_by w t }
{}

/// If each leaf's polynomial is within the leaf's weight, an expression's polynomial is within its degree.
pub fn polynomial_is_within_degree<E, A: SymLeaf>(_pool: &ExprPool<A>, _x: ExprId<A>)
    ensures { (a : AlgebraOver A.F E) (s : Leaf → List E) (w : Leaf → ℕ)
        → ((l : Leaf) → HasDegreeAtMost a.ring (λ n. slice_index_or (s l) n a.ring.zero) (w l))
        → HasDegreeAtMost a.ring (polynomial a s (term_at A.reads _pool.now _x))
        (degree_by w (term_at A.reads _pool.now _x)) }
{}

/// `==` of leaves is true exactly for equal leaves, and `cmp` is a total order that answers `Equal` exactly for these.
pub fn leaf_order<A: SymLeaf>()
    ensures { IsExactOrder A.eq A.cmp }
{}

/// Compares two expressions by their numbers: a total order, and `==` is true exactly for equal numbers.
pub fn id_order<A: SymLeaf>(x: ExprId<A>, y: ExprId<A>) -> Ordering
    ensures compared { result ≡ nat_cmp x y }
    ensures by_number { (a b : ℕ) → ⟦<ExprId<A> as Ord>⟧.cmp a b ≡ nat_cmp a b }
    ensures order { IsExactOrder ⟦<ExprId<A> as PartialEq>⟧.eq ⟦<ExprId<A> as Ord>⟧.cmp }
{
    x.cmp(&y)
}

/// If the base pool of an extension pool was borrowed and has grown, the extension pool has grown.
pub fn pool_grows_with_base<F: Field, EF: ExtensionField<F>>(_pool: &ExprPool<ExtLeaf<F, EF>>)
    ensures { GrowsWithBase EF.basis _pool.now }
{}

/// A number keeps its tree and its term as the pool grows.
pub fn tree_is_kept<A: SymLeaf>(pool: &ExprPool<A>, _x: ExprId<A>)
    requires owed { FitsBase A.reads pool.now }
    requires here { _x < size pool.now }
    ensures { KeepsTree A.grows A.reads pool.now _x }
{
    pool.nodes_fit();
}

/// A number keeps its whole tree, including the base trees of its Base leaves, as the pool grows.
pub fn whole_tree_is_kept<F: Field, EF: ExtensionField<F>>(
    pool: &ExprPool<ExtLeaf<F, EF>>,
    _x: ExprId<ExtLeaf<F, EF>>,
)
    requires owed { FitsBase (ext_reads EF.basis) pool.now }
    requires here { _x < size pool.now }
    ensures { KeepsWholeTree EF.basis pool.now _x }
{
    pool.nodes_fit();
}

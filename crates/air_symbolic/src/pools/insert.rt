//! The calls that insert a node without simplification. On failure the pool is unchanged.
ghost use Rattle.std.specs.Prelude.{◌≡◌, ℕ, ◌<◌, ◌≤◌, ◌+◌, ◌^◌, ◌↔◌, true, Some, MatchOption, IfOk, IfErr, OnErr, option_map};
ghost use Rattle.std.specs.List.{slice_get};
ghost use Rattle.air_field.specs.Degree.{degree_by, cached_weight};
ghost use Rattle.air_symbolic.specs.Trees.{leaf_tree, add_tree, sub_tree, neg_tree, mul_tree, both};
ghost use Rattle.air_symbolic.specs.Nodes.{unfold_node, tree_of, NodeFits, OperandsBelow};
ghost use Rattle.air_symbolic.specs.Numbering.{IsNowhere, IsAt};
ghost use Rattle.air_symbolic.specs.declared.pools.expr.SymbolicExpr.{SymbolicExpr};
ghost use Rattle.air_symbolic.specs.Pools.{FitsBase, tree_at, term_at, Grown, HasTree, size};
ghost use Rattle.air_symbolic.specs.Numbered.{Numbers};

use crate::leaves::sym_leaf::SymLeaf;
use crate::pools::expr::{ExprId, SymbolicExpr};
use crate::pools::node_table::NodeTable;
use crate::pools::pool::ExprPool;
use air_field::RingError;

// Whether a node has the newest of `count` numbers as an operand. Then the pool can't have the node yet, since operands
// are older than their node, and the search can be skipped.
fn names_newest<A: SymLeaf>(node: &SymbolicExpr<A>, count: usize) -> bool
    ensures { result ≡ true → (i : ℕ) → i < count → OperandsBelow i node.now → ⊥ }
{
    let Some(newest) = count.checked_sub(1) else {
        return false;
    };
    node.operands().as_slice().contains(&ExprId::new(newest))
}

// The number of an equal node, whatever degree it states. The tables aren't searched if an operand is the newest
// number.
fn number_of<A: SymLeaf>(nodes: &NodeTable<A>, node: &SymbolicExpr<A>) -> Option<usize>
    requires older { (i : ℕ) (n : SymbolicExpr A) → slice_get nodes.now i ≡ Some n → OperandsBelow i
        n }
    ensures { MatchOption result (IsNowhere nodes.now node.now) (IsAt nodes.now node.now) }
{
    if names_newest(node, nodes.len()) {
        return None;
    }
    nodes.find(node)
}

impl<A: SymLeaf> ExprPool<A> {
    // The number of the equal node if there is one, else of a new node, which is the pool's last: the pool holds each
    // expression only once.
    pub(crate) fn insert(&mut self, node: SymbolicExpr<A>) -> Result<ExprId<A>, RingError>
        requires owed { FitsBase A.reads self.old }
        requires fits { NodeFits (A.reads self.old.base) self.old.nodes node }
        ensures same_base { self.new.base ≡ self.old.base }
        ensures grown { Grown A.grows A.reads self.old self.new }
        ensures made { IfOk result (HasTree self.new
            (unfold_node (tree_of self.old.nodes) node)) }
        ensures numbered { IfOk result (Numbers self.old self.new) }
        ensures refused { IfErr result (λ e. e ≡ RingError.Memory) }
        ensures kept { OnErr result (self.new ≡ self.old) }
    {
        match number_of(&self.nodes, &node) {
            Some(number) => Ok(ExprId::new(number)),
            None => {
                let number = self.nodes.push(node)?;
                Ok(ExprId::new(number))
            }
        }
    }

    /// The expression of a leaf, which must be valid over this pool's base.
    pub fn leaf(&mut self, a: A) -> Result<ExprId<A>, RingError>
        requires owed { FitsBase A.reads self.old }
        requires valid { (A.reads self.old.base).valid a }
        ensures same_base { self.new.base ≡ self.old.base }
        ensures grown { Grown A.grows A.reads self.old self.new }
        ensures made { IfOk result (HasTree self.new (Some (leaf_tree a))) }
        ensures numbered { IfOk result (Numbers self.old self.new) }
        ensures refused { IfErr result (λ e. e ≡ RingError.Memory) }
        ensures kept { OnErr result (self.new ≡ self.old) }
    {
        self.insert(SymbolicExpr::Leaf(a))
    }

    // `leaf` with a cache of 256 numbers: columns are read in every constraint, and a hit saves the search of the
    // tables.
    pub(crate) fn leaf_at(&mut self, place: usize, a: A) -> Result<ExprId<A>, RingError>
        requires owed { FitsBase A.reads self.old }
        requires valid { (A.reads self.old.base).valid a }
        ensures same_base { self.new.base ≡ self.old.base }
        ensures grown { Grown A.grows A.reads self.old self.new }
        ensures made { IfOk result (HasTree self.new (Some (leaf_tree a))) }
        ensures numbered { IfOk result (Numbers self.old self.new) }
        ensures refused { IfErr result (λ e. e ≡ RingError.Memory) }
        ensures kept { OnErr result (self.new ≡ self.old) }
    {
        if let Some(number) = self.nodes.recall(place, &SymbolicExpr::Leaf(a)) {
            return Ok(ExprId::new(number));
        }
        let id = self.leaf(a)?;
        self.nodes.remember(place, id.number());
        Ok(id)
    }

    /// The sum, not simplified.
    pub fn insert_add(&mut self, x: ExprId<A>, y: ExprId<A>) -> Result<ExprId<A>, RingError>
        requires owed { FitsBase A.reads self.old }
        requires x_in { x < size self.old }
        requires y_in { y < size self.old }
        ensures same_base { self.new.base ≡ self.old.base }
        ensures grown { Grown A.grows A.reads self.old self.new }
        ensures made { IfOk result (HasTree self.new
            (both add_tree (tree_at self.old x) (tree_at self.old y))) }
        ensures numbered { IfOk result (Numbers self.old self.new) }
        ensures refused { IfErr result (λ e. e ≡ RingError.Memory) }
        ensures kept { OnErr result (self.new ≡ self.old) }
    {
        let degree_multiple = self.degree_multiple(x).max(self.degree_multiple(y));
        self.insert(SymbolicExpr::Add {
            x,
            y,
            degree_multiple,
        })
    }

    /// The difference, not simplified.
    pub fn insert_sub(&mut self, x: ExprId<A>, y: ExprId<A>) -> Result<ExprId<A>, RingError>
        requires owed { FitsBase A.reads self.old }
        requires x_in { x < size self.old }
        requires y_in { y < size self.old }
        ensures same_base { self.new.base ≡ self.old.base }
        ensures grown { Grown A.grows A.reads self.old self.new }
        ensures made { IfOk result (HasTree self.new
            (both sub_tree (tree_at self.old x) (tree_at self.old y))) }
        ensures numbered { IfOk result (Numbers self.old self.new) }
        ensures refused { IfErr result (λ e. e ≡ RingError.Memory) }
        ensures kept { OnErr result (self.new ≡ self.old) }
    {
        let degree_multiple = self.degree_multiple(x).max(self.degree_multiple(y));
        self.insert(SymbolicExpr::Sub {
            x,
            y,
            degree_multiple,
        })
    }

    /// The negative, not simplified.
    pub fn insert_neg(&mut self, x: ExprId<A>) -> Result<ExprId<A>, RingError>
        requires owed { FitsBase A.reads self.old }
        requires x_in { x < size self.old }
        ensures same_base { self.new.base ≡ self.old.base }
        ensures grown { Grown A.grows A.reads self.old self.new }
        ensures made { IfOk result (HasTree self.new
            (option_map neg_tree (tree_at self.old x))) }
        ensures numbered { IfOk result (Numbers self.old self.new) }
        ensures refused { IfErr result (λ e. e ≡ RingError.Memory) }
        ensures kept { OnErr result (self.new ≡ self.old) }
    {
        let degree_multiple = self.degree_multiple(x);
        self.insert(SymbolicExpr::Neg { x, degree_multiple })
    }

    /// The product, not simplified. Fails with `DegreeOverflow` exactly if the sum of the operands' degrees exceeds
    /// `usize`, or with `Memory`.
    pub fn insert_mul(&mut self, x: ExprId<A>, y: ExprId<A>) -> Result<ExprId<A>, RingError>
        requires owed { FitsBase A.reads self.old }
        requires x_in { x < size self.old }
        requires y_in { y < size self.old }
        ensures same_base { self.new.base ≡ self.old.base }
        ensures grown { Grown A.grows A.reads self.old self.new }
        ensures made { IfOk result (HasTree self.new
            (both mul_tree (tree_at self.old x) (tree_at self.old y))) }
        ensures numbered { IfOk result (Numbers self.old self.new) }
        ensures overflow { (result ≡ Err RingError.DegreeOverflow)
            ↔ (2 ^ 64 ≤ degree_by cached_weight (term_at A.reads self.old x) + degree_by
            cached_weight (term_at A.reads self.old y)) }
        ensures kept { OnErr result (self.new ≡ self.old) }
    {
        match self.degree_multiple(x).checked_add(self.degree_multiple(y)) {
            Some(degree_multiple) => self.insert(SymbolicExpr::Mul {
                x,
                y,
                degree_multiple,
            }),
            None => Err(RingError::DegreeOverflow),
        }
    }
}

//! Pools of base expressions.
ghost use Rattle.std.specs.Prelude.{◌≡◌, refl, Some, IfOk, IfErr, OnErr};
ghost use Rattle.air_field.specs.Algebra.{Made};
ghost use Rattle.air_field.specs.Term.{leaf_term};
ghost use Rattle.air_core.specs.Entries.{entry_leaf};
ghost use Rattle.air_symbolic.specs.BaseLeaves.{base_term, base_reads, base_grows};
ghost use Rattle.air_symbolic.specs.Trees.{leaf_tree};
ghost use Rattle.air_symbolic.specs.Pools.{PoolHas, PoolMeans, Grown, HasTree};

use crate::leaves::base_leaf::BaseLeaf;
use crate::pools::expr::ExprId;
use crate::pools::pool::ExprPool;
use air_core::{BaseEntry, SymbolicVariable};
use air_field::{Field, FromVar, RingError};

// The index of a leaf in the cache of `leaf_at`. Columns of both rows interleave, public values and periodic columns
// begin halfway, and the selectors have the last three indexes. Leaves that share an index only cost a search of the
// tables.
fn place_of<F>(a: &BaseLeaf<F>) -> usize {
    match a {
        BaseLeaf::Variable(v) => match v.entry {
            BaseEntry::Main { offset } => v.index.wrapping_mul(2).wrapping_add(offset),
            BaseEntry::Preprocessed { offset } => v.index.wrapping_mul(2).wrapping_add(offset),
            _ => v.index.wrapping_add(128),
        },
        BaseLeaf::IsFirstRow => 253,
        BaseLeaf::IsLastRow => 254,
        BaseLeaf::IsTransition => 255,
        BaseLeaf::Constant(_) => 0,
    }
}

impl<F: Field> ExprPool<BaseLeaf<F>> {
    /// The expression of a leaf, which means the leaf's term.
    pub fn leaf_expr(&mut self, a: BaseLeaf<F>) -> Result<ExprId<BaseLeaf<F>>, RingError>
        ensures grown { Grown base_grows base_reads self.old self.new }
        ensures tree { IfOk result (HasTree self.new (Some (leaf_tree a))) }
        ensures made { IfOk result (Made (PoolHas base_reads) (PoolMeans base_reads F.ring)
            (base_term a) self.new) }
        ensures refused { IfErr result (λ e. e ≡ RingError.Memory) }
        ensures kept { OnErr result (self.new ≡ self.old) }
    {
        self.nodes_fit();
        self.leaf_at(place_of(&a), a)
    }

    /// The expression of a variable.
    pub fn variable(&mut self, v: SymbolicVariable<F>) -> Result<ExprId<BaseLeaf<F>>, RingError>
        ensures grown { Grown base_grows base_reads self.old self.new }
        ensures tree { IfOk result (HasTree self.new (Some (leaf_tree (BaseLeaf.Variable v)))) }
        ensures made { IfOk result (Made (PoolHas base_reads) (PoolMeans base_reads F.ring)
            (leaf_term (entry_leaf v.entry v.index)) self.new) }
        ensures refused { IfErr result (λ e. e ≡ RingError.Memory) }
        ensures kept { OnErr result (self.new ≡ self.old) }
    {
        self.leaf_expr(BaseLeaf::Variable(v))
    }
}

impl<F: Field> FromVar<F, SymbolicVariable<F>> for ExprPool<BaseLeaf<F>> {
    ghost var_means = { λ v t. t ≡ leaf_term (entry_leaf v.entry v.index) };

    fn from_var(&mut self, v: SymbolicVariable<F>) -> Result<ExprId<BaseLeaf<F>>, RingError> {
        self.variable(v)
    }

    ghost var_means_some = { λ v. (leaf_term (entry_leaf v.entry v.index), refl) };
}

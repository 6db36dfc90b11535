//! Pools of extension expressions.
ghost use Rattle.std.specs.Prelude.{◌≡◌, ◌<◌, refl, Some, IfOk, IfErr, OnErr};
ghost use Rattle.air_field.specs.ExtAlgebra.{Lifted};
ghost use Rattle.air_field.specs.Term.{leaf_term, ext_const_term};
ghost use Rattle.air_core.specs.ExtEntries.{ext_entry_leaf};
ghost use Rattle.air_symbolic.specs.BaseLeaves.{base_reads};
ghost use Rattle.air_symbolic.specs.ExtLeaves.{ext_reads, ext_grows};
ghost use Rattle.air_symbolic.specs.ExtPool.{BaseMeans, ExtMade};
ghost use Rattle.air_symbolic.specs.Trees.{leaf_tree};
ghost use Rattle.air_symbolic.specs.Pools.{IsPool, FitsBase, PoolHas, PoolMeans, Grown, HasTree, size};

use crate::leaves::base_leaf::BaseLeaf;
use crate::leaves::ext_leaf::ExtLeaf;
use crate::pools::expr::ExprId;
use crate::pools::pool::ExprPool;
use air_core::SymbolicVariableExt;
use air_field::{ExtAlgebra, ExtensionField, Field, FromVar, RingError};

impl<F: Field, EF: ExtensionField<F>> ExprPool<ExtLeaf<F, EF>> {
    /// The expression of a variable.
    pub fn variable(
        &mut self,
        v: SymbolicVariableExt<F, EF>,
    ) -> Result<ExprId<ExtLeaf<F, EF>>, RingError>
        requires { FitsBase (ext_reads EF.basis) self.old }
        ensures same_base { self.new.base ≡ self.old.base }
        ensures grown { Grown ext_grows (ext_reads EF.basis) self.old self.new }
        ensures tree { IfOk result (HasTree self.new (Some (leaf_tree (ExtLeaf.ExtVariable v)))) }
        ensures made { IfOk result (ExtMade F.ring EF.basis
            (leaf_term (ext_entry_leaf v.entry v.index)) self.new) }
        ensures refused { IfErr result (λ e. e ≡ RingError.Memory) }
        ensures kept { OnErr result (self.new ≡ self.old) }
    {
        self.nodes_fit();
        self.leaf(ExtLeaf::ExtVariable(v))
    }

    /// The expression of a constant of the extension, as a leaf.
    pub fn ext_constant(&mut self, c: EF) -> Result<ExprId<ExtLeaf<F, EF>>, RingError>
        requires { FitsBase (ext_reads EF.basis) self.old }
        ensures same_base { self.new.base ≡ self.old.base }
        ensures grown { Grown ext_grows (ext_reads EF.basis) self.old self.new }
        ensures tree { IfOk result (HasTree self.new (Some (leaf_tree (ExtLeaf.ExtConstant c)))) }
        ensures made { IfOk result (ExtMade F.ring EF.basis
            (ext_const_term (EF.basis.coefficients c)) self.new) }
        ensures refused { IfErr result (λ e. e ≡ RingError.Memory) }
        ensures kept { OnErr result (self.new ≡ self.old) }
    {
        self.nodes_fit();
        self.leaf(ExtLeaf::ExtConstant(c))
    }

    /// The expression of a base expression, as a single leaf.
    pub fn lift(&mut self, x: ExprId<BaseLeaf<F>>) -> Result<ExprId<ExtLeaf<F, EF>>, RingError>
        requires owed { FitsBase (ext_reads EF.basis) self.old }
        requires here { x < size self.old.base }
        ensures same_base { self.new.base ≡ self.old.base }
        ensures grown { Grown ext_grows (ext_reads EF.basis) self.old self.new }
        ensures tree { IfOk result (HasTree self.new (Some (leaf_tree (ExtLeaf.Base x)))) }
        ensures made { IfOk result (Lifted (PoolHas (ext_reads EF.basis))
            (PoolMeans (ext_reads EF.basis) F.ring)
            (BaseMeans F.ring EF.basis) self.old self.new x) }
        ensures refused { IfErr result (λ e. e ≡ RingError.Memory) }
        ensures kept { OnErr result (self.new ≡ self.old) }
    {
        self.nodes_fit();
        self.leaf(ExtLeaf::Base(x))
    }

    /// The base pool, unchanged.
    pub fn into_base(self) -> ExprPool<BaseLeaf<F>>
        ensures base { result ≡ self.base }
        ensures pool { IsPool base_reads result }
    {
        let ExprPool { base, .. } = self;
        base.nodes_fit();
        base
    }
}

impl<F: Field, EF: ExtensionField<F>> FromVar<F, SymbolicVariableExt<F, EF>>
    for ExprPool<ExtLeaf<F, EF>> {
    ghost var_means = { λ v t. t ≡ leaf_term (ext_entry_leaf v.entry v.index) };

    fn from_var(
        &mut self,
        v: SymbolicVariableExt<F, EF>,
    ) -> Result<ExprId<ExtLeaf<F, EF>>, RingError> {
        self.variable(v)
    }

    ghost var_means_some = { λ v. (leaf_term (ext_entry_leaf v.entry v.index), refl) };
}

impl<F: Field, EF: ExtensionField<F>> ExtAlgebra<F, EF> for ExprPool<ExtLeaf<F, EF>> {
    type Base = ExprId<BaseLeaf<F>>;

    ghost use Rattle.air_symbolic.specs.ExtPool.{BaseHas};
    ghost use Rattle.air_symbolic.specs.laws.ExtPool.{ext_keeps_base};

    ghost base_has = { λ p x. BaseHas EF.basis p x };

    ghost base_means = { λ p x t. BaseMeans F.ring EF.basis p x t };

    fn lift(&mut self, x: ExprId<BaseLeaf<F>>) -> Result<ExprId<ExtLeaf<F, EF>>, RingError> {
        ExprPool::lift(self, x)
    }

    fn ext_constant(&mut self, c: EF) -> Result<ExprId<ExtLeaf<F, EF>>, RingError> {
        ExprPool::ext_constant(self, c)
    }

    ghost base_laws = { ext_keeps_base F.ring EF.basis };
}

//! The degrees of all expressions of an extension pool and of its base pool.
ghost use Rattle.std.specs.Prelude.{◌≡◌, IfOk, IfErr};
ghost use Rattle.air_field.specs.Degree.{degree_by};
ghost use Rattle.air_symbolic.specs.BaseLeaves.{base_reads};
ghost use Rattle.air_symbolic.specs.DegreeTables.{AreDegrees};
ghost use Rattle.air_symbolic.specs.ExtLeaves.{ext_reads};
ghost use Rattle.air_symbolic.specs.Pools.{FitsBase, term_at, size};
ghost use Rattle.air_symbolic.specs.Weights.{leaf_weight};

use crate::leaves::ext_leaf::ExtLeaf;
use crate::pools::pool::ExprPool;
use crate::pools::weight::{DegreeTable, LeafWeight};
use air_field::{ExtensionField, Field, RingError};

impl<F: Field, EF: ExtensionField<F>> ExprPool<ExtLeaf<F, EF>> {
    /// The degrees, by the leaves' weights, of all expressions of the base pool, and of this one. Each node of either
    /// pool takes one turn.
    pub fn degree_tables(
        &self,
        weight: LeafWeight<'_>,
    ) -> Result<(DegreeTable, DegreeTable), RingError>
        requires { FitsBase (ext_reads EF.basis) self.now }
        ensures base { IfOk result (λ t. AreDegrees
            (λ i. degree_by (leaf_weight weight.entry) (term_at base_reads self.now.base i))
            (size self.now.base) t.0.degrees.items) }
        ensures degrees { IfOk result (λ t. AreDegrees
            (λ i. degree_by (leaf_weight weight.entry) (term_at (ext_reads EF.basis) self.now i))
            (size self.now) t.1.degrees.items) }
        ensures base_turns { IfOk result (λ t. t.0.turns ≡ size self.now.base) }
        ensures turns { IfOk result (λ t. t.1.turns ≡ size self.now) }
        ensures refused { IfErr result (λ e. e ≡ RingError.Memory) }
    {
        let base = self.base().degree_table(self.base().len(), weight)?;
        let degrees = self.table_over(self.len(), weight, &base)?;
        Ok((base, degrees))
    }
}

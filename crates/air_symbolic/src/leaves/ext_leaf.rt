//! The leaves of extension expressions.

use crate::leaves::base_leaf::BaseLeaf;
use crate::leaves::base_part::base_part;
use crate::leaves::sym_leaf::SymLeaf;
use crate::pools::degree_table::degree_at;
use crate::pools::expr::ExprId;
use crate::pools::pool::ExprPool;
use crate::pools::weight::{DegreeTable, LeafWeight};
use air_core::SymbolicVariableExt;
use air_field::{ExtensionField, Field, RingError};
use std::alloc::Global;

/// A leaf of an extension expression: an expression of the extension pool's base pool, an extension variable, or a
/// constant of the extension.
#[derive(Clone, Copy, Debug, PartialEq, Eq, PartialOrd, Ord)]
pub enum ExtLeaf<F, EF> {
    Base(ExprId<BaseLeaf<F>>),
    ExtVariable(SymbolicVariableExt<F, EF>),
    ExtConstant(EF),
}

impl<F: Field, EF: ExtensionField<F>> SymLeaf for ExtLeaf<F, EF> {
    type F = F;

    type Base = ExprPool<BaseLeaf<F>>;

    ghost use Rattle.std.proofs.Common.{arith};
    ghost use Rattle.air_field.specs.Degree.{degree_by};
    ghost use Rattle.air_symbolic.specs.Weights.{leaf_weight};
    ghost use Rattle.air_symbolic.specs.Pools.{term_at, size};
    ghost use Rattle.air_symbolic.specs.BaseLeaves.{base_reads};
    ghost use Rattle.air_symbolic.specs.DegreeTables.{AreDegrees};
    ghost use Rattle.air_symbolic.specs.ExtLeaves.{no_base_nodes, ext_reads, ext_grows};
    ghost use Rattle.air_symbolic.specs.laws.ExtLeaves.{ext_leaf_laws};

    ghost reads = { λ u. ext_reads EF.basis u };

    ghost grows = { λ u v. ext_grows u v };

    ghost base_length = { λ u. size u };

    ghost has_degrees = { λ u w table.
        AreDegrees (λ i. degree_by (leaf_weight w) (term_at base_reads u i)) (size u) table };

    ghost empty_base = { no_base_nodes };

    fn new_base(alloc: Global) -> ExprPool<BaseLeaf<F>> {
        ExprPool::new(alloc)
    }

    fn degree_multiple(&self, base: &ExprPool<BaseLeaf<F>>) -> usize {
        match self {
            ExtLeaf::Base(id) => base.degree_multiple(*id),
            ExtLeaf::ExtVariable(v) => v.degree_multiple(),
            ExtLeaf::ExtConstant(_) => 0,
        }
    }

    fn as_const(&self, base: &ExprPool<BaseLeaf<F>>) -> Option<F> {
        match self {
            ExtLeaf::Base(id) => base.as_const(*id),
            ExtLeaf::ExtVariable(_) => None,
            ExtLeaf::ExtConstant(c) => base_part(c),
        }
    }

    fn degree_multiple_with_transition(
        &self,
        weight: usize,
        base: &ExprPool<BaseLeaf<F>>,
    ) -> Result<usize, RingError> {
        match self {
            ExtLeaf::Base(id) => base.degree_multiple_with_transition(*id, weight),
            ExtLeaf::ExtVariable(v) => Ok(v.degree_multiple()),
            ExtLeaf::ExtConstant(_) => Ok(0),
        }
    }

    fn poly_degree(
        &self,
        trace_len: usize,
        periods: &[usize],
        base: &ExprPool<BaseLeaf<F>>,
    ) -> Result<usize, RingError> {
        match self {
            ExtLeaf::Base(id) => base.poly_degree(*id, trace_len, periods),
            ExtLeaf::ExtVariable(v) => Ok(v.poly_degree(trace_len)),
            ExtLeaf::ExtConstant(_) => Ok(0),
        }
    }

    fn degrees_of_base(
        base: &ExprPool<BaseLeaf<F>>,
        weight: LeafWeight<'_>,
        _alloc: Global,
    ) -> Result<DegreeTable, RingError> {
        base.degree_table(base.len(), weight)
    }

    fn degree_in(
        &self,
        weight: LeafWeight<'_>,
        _base: &ExprPool<BaseLeaf<F>>,
        table: &[u128],
    ) -> u128 {
        match self {
            ExtLeaf::Base(id) => degree_at(table, *id),
            ExtLeaf::ExtVariable(v) => match weight {
                LeafWeight::Trace { trace_len, .. } => v.poly_degree(trace_len) as u128,
                _ => v.degree_multiple() as u128,
            },
            ExtLeaf::ExtConstant(_) => 0,
        }
    }

    fn from_const(c: F, base: &mut ExprPool<BaseLeaf<F>>) -> Result<Self, RingError> {
        let id = base.constant(c)?;
        Ok(ExtLeaf::Base(id))
    }

    ghost eq_is = { λ x y. Prim.grind (arith, EF.eq_is) };

    ghost leaf_laws = { ext_leaf_laws EF.ExtensionField.laws };
}

//! The leaves of base expressions.

ghost use Rattle.std.specs.Prelude.{⊤};

use crate::leaves::sym_leaf::SymLeaf;
use crate::pools::weight::{DegreeTable, LeafWeight};
use air_core::SymbolicVariable;
use air_field::{Field, RingError};
use std::alloc::Global;

/// A leaf of a base expression: a variable, a row selector, or a constant.
#[derive(Clone, Copy, Debug, PartialEq, Eq, PartialOrd, Ord)]
pub enum BaseLeaf<F> {
    Variable(SymbolicVariable<F>),
    IsFirstRow,
    IsLastRow,
    IsTransition,
    Constant(F),
}

impl<F: Field> BaseLeaf<F> {
    ghost use Rattle.std.specs.Prelude.{◌≡◌};
    ghost use Rattle.air_field.specs.Degree.{degree_by, transition_weight, trace_weight};
    ghost use Rattle.air_symbolic.specs.BaseLeaves.{base_term};

    // The cached degree, with this weight for the transition selector.
    fn weighted_degree(&self, weight: usize) -> usize
        ensures { result ≡ degree_by (transition_weight weight) (base_term self.now) }
    {
        match self {
            BaseLeaf::IsTransition => weight,
            _ => self.degree_multiple(&()),
        }
    }

    // The degree of the leaf's polynomial.
    fn degree_over_rows(&self, trace_len: usize, periods: &[usize]) -> usize
        ensures { result ≡ degree_by (trace_weight trace_len periods.now) (base_term self.now) }
    {
        match self {
            BaseLeaf::Variable(v) => v.poly_degree(trace_len, periods),
            BaseLeaf::IsFirstRow | BaseLeaf::IsLastRow => trace_len.saturating_sub(1),
            BaseLeaf::IsTransition => 1,
            BaseLeaf::Constant(_) => 0,
        }
    }
}

impl<F: Field> SymLeaf for BaseLeaf<F> {
    type F = F;

    type Base = ();

    ghost use Rattle.std.proofs.Common.{arith};
    ghost use Rattle.air_symbolic.specs.BaseLeaves.{base_reads, base_grows};
    ghost use Rattle.air_symbolic.specs.laws.BaseLeaves.{base_leaf_laws};

    ghost reads = { base_reads };

    ghost grows = { base_grows };

    ghost base_length = { λ _. 0 };

    ghost has_degrees = { λ _ _ _. ⊤ };

    ghost empty_base = { tt };

    fn new_base(_alloc: Global) {}

    fn degree_multiple(&self, _under: &()) -> usize {
        match self {
            BaseLeaf::Variable(v) => v.degree_multiple(),
            BaseLeaf::IsFirstRow => 1,
            BaseLeaf::IsLastRow => 1,
            BaseLeaf::IsTransition => 0,
            BaseLeaf::Constant(_) => 0,
        }
    }

    fn as_const(&self, _under: &()) -> Option<F> {
        match self {
            BaseLeaf::Constant(c) => Some(*c),
            _ => None,
        }
    }

    fn degree_multiple_with_transition(
        &self,
        weight: usize,
        _under: &(),
    ) -> Result<usize, RingError> {
        Ok(self.weighted_degree(weight))
    }

    fn poly_degree(
        &self,
        trace_len: usize,
        periods: &[usize],
        _under: &(),
    ) -> Result<usize, RingError> {
        Ok(self.degree_over_rows(trace_len, periods))
    }

    fn degrees_of_base(
        _under: &(),
        _weight: LeafWeight<'_>,
        alloc: Global,
    ) -> Result<DegreeTable, RingError> {
        Ok(DegreeTable {
            degrees: Vec::new(alloc),
            turns: 0,
        })
    }

    fn degree_in(&self, weight: LeafWeight<'_>, base: &(), _table: &[u128]) -> u128 {
        let degree = match weight {
            LeafWeight::Cached => self.degree_multiple(base),
            LeafWeight::Transition(weight) => self.weighted_degree(weight),
            LeafWeight::Trace { trace_len, periods } => self.degree_over_rows(trace_len, periods),
        };
        degree as u128
    }

    fn from_const(c: F, _under: &mut ()) -> Result<Self, RingError> {
        Ok(BaseLeaf::Constant(c))
    }

    ghost eq_is = { λ x y. Prim.grind (arith, F.eq_is) };

    ghost leaf_laws = { base_leaf_laws F.ring };
}

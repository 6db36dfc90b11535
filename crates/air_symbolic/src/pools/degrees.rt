//! Degrees by weights of the leaves, from a table by number.
ghost use Rattle.std.specs.Prelude.{◌≡◌, ◌≢◌, ℕ, ◌<◌, ◌≤◌, ◌+◌, length, map, All, IfOk, IfErr};
ghost use Rattle.air_field.specs.Degree.{degree_by, cached_weight, transition_weight, trace_weight};
ghost use Rattle.air_symbolic.specs.Weights.{leaf_weight, turns_by, SomeOverflows};
ghost use Rattle.air_symbolic.specs.Pools.{FitsBase, term_at, size};
ghost use Rattle.air_symbolic.specs.PoolRefusals.{AnswersDegree};
ghost use Rattle.air_symbolic.specs.DegreeTables.{AreDegrees};

use crate::leaves::sym_leaf::SymLeaf;
use crate::pools::degree_table::{checked_degree, degree_at};
use crate::pools::expr::ExprId;
use crate::pools::pool::ExprPool;
use crate::pools::weight::{DegreeTable, Degrees, LeafWeight};
use air_field::RingError;

impl<A: SymLeaf> ExprPool<A> {
    // The degree of one root by the leaves' weights.
    fn root_degree(&self, id: ExprId<A>, weight: LeafWeight<'_>) -> Result<usize, RingError>
        requires owed { FitsBase A.reads self.now }
        requires here { id < size self.now }
        ensures { AnswersDegree
            (degree_by (leaf_weight weight.entry) (term_at A.reads self.now id)) result }
    {
        let count = self.len();
        let last = id.number();
        prove!(last < count);
        let table = self.degree_table(last + 1, weight)?;
        checked_degree(degree_at(&table.degrees, id))
    }

    // The degrees stated by the roots' nodes.
    fn stated_degrees(&self, roots: &[ExprId<A>]) -> Result<Degrees, RingError>
        requires owed { FitsBase A.reads self.now }
        requires all_in { All (λ x. x < size self.now) roots.now }
        ensures values { IfOk result (λ d. d.values.items ≡
            map (λ x. degree_by cached_weight (term_at A.reads self.now x)) roots.now) }
        ensures turns { IfOk result (λ d. d.turns ≡ 0) }
        ensures refused { IfErr result (λ e. e ≡ RingError.Memory) }
    {
        let mut values = Vec::with_capacity(*self.nodes.allocator(), roots.len())?;
        for root in roots {
            values.push(self.degree_multiple(*root))?;
        }
        Ok(Degrees { values, turns: 0 })
    }

    // The roots' degrees, read from a table of all numbers.
    fn degrees_from(&self, table: &DegreeTable, roots: &[ExprId<A>]) -> Result<Degrees, RingError>
        requires all_in { All (λ x. x < length table.now.degrees.items) roots.now }
        ensures values { IfOk result (λ d. (degree : ℕ → ℕ) → AreDegrees degree
            (length table.now.degrees.items) table.now.degrees.items →
            d.values.items ≡ map degree roots.now) }
        ensures turns { IfOk result (λ d. d.turns ≡ table.now.turns) }
        ensures refused { IfErr result (λ e. e ≢ RingError.Memory → (degree : ℕ → ℕ) →
            AreDegrees degree (length table.now.degrees.items) table.now.degrees.items →
            SomeOverflows (map degree roots.now)) }
    {
        let mut values = Vec::with_capacity(*self.nodes.allocator(), roots.len())?;
        for root in roots {
            let degree = checked_degree(degree_at(&table.degrees, *root))?;
            values.push(degree)?;
        }
        Ok(Degrees {
            values,
            turns: table.turns,
        })
    }

    // The roots' degrees by the leaves' weights, read from one table.
    fn table_degrees(
        &self,
        roots: &[ExprId<A>],
        weight: LeafWeight<'_>,
    ) -> Result<Degrees, RingError>
        requires owed { FitsBase A.reads self.now }
        requires all_in { All (λ x. x < size self.now) roots.now }
        ensures values { IfOk result (λ d. d.values.items ≡
            map (λ x. degree_by (leaf_weight weight.entry) (term_at A.reads self.now x)) roots.now) }
        ensures turns { IfOk result (λ d.
            d.turns ≡ size self.now + A.base_length self.now.base) }
        ensures refused { IfErr result (λ e. e ≢ RingError.Memory → SomeOverflows
            (map (λ x. degree_by (leaf_weight weight.entry) (term_at A.reads self.now x)) roots.now)) }
    {
        let table = self.degree_table(self.len(), weight)?;
        self.degrees_from(&table, roots)
    }

    /// The cached degree with the weight `weight` for the transition selector. Fails with `DegreeOverflow` only if it
    /// exceeds `usize`, or with `Memory`.
    pub fn degree_multiple_with_transition(
        &self,
        id: ExprId<A>,
        weight: usize,
    ) -> Result<usize, RingError>
        requires owed { FitsBase A.reads self.now }
        requires here { id < size self.now }
        ensures { AnswersDegree (degree_by (transition_weight weight) (term_at A.reads self.now id))
            result }
    {
        self.root_degree(id, LeafWeight::Transition(weight))
    }

    /// The degree of the expression's polynomial over `trace_len` rows; `periods` holds the lengths of the periodic
    /// columns. Fails with `DegreeOverflow` only if it exceeds `usize`, or with `Memory`.
    pub fn poly_degree(
        &self,
        id: ExprId<A>,
        trace_len: usize,
        periods: &[usize],
    ) -> Result<usize, RingError>
        requires owed { FitsBase A.reads self.now }
        requires here { id < size self.now }
        ensures { AnswersDegree (degree_by (trace_weight trace_len periods.now)
            (term_at A.reads self.now id)) result }
    {
        self.root_degree(id, LeafWeight::Trace { trace_len, periods })
    }

    /// The degree of each root by the leaves' weights. Cached degrees are read and take no turn. For other weights each
    /// node of the pool and of its base takes one turn. Fails with `DegreeOverflow` only if the degree of some root
    /// exceeds `usize`, whatever the degrees of nodes that no root reaches, or with `Memory`.
    pub fn degrees(&self, roots: &[ExprId<A>], weight: LeafWeight<'_>) -> Result<Degrees, RingError>
        requires owed { FitsBase A.reads self.now }
        requires all_in { All (λ x. x < size self.now) roots.now }
        ensures values { IfOk result (λ d. d.values.items ≡ map
            (λ x. degree_by (leaf_weight weight.entry) (term_at A.reads self.now x)) roots.now) }
        ensures turns { IfOk result (λ d. d.turns ≡
            turns_by weight.entry (size self.now + A.base_length self.now.base)) }
        ensures at_most { IfOk result (λ d.
            d.turns ≤ size self.now + A.base_length self.now.base) }
        ensures refused { IfErr result (λ e. e ≢ RingError.Memory → SomeOverflows
            (map (λ x. degree_by (leaf_weight weight.entry) (term_at A.reads self.now x))
            roots.now)) }
    {
        match weight {
            LeafWeight::Cached => self.stated_degrees(roots),
            _ => self.table_degrees(roots, weight),
        }
    }
}

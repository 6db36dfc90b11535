//! The interface of leaves.
ghost use Rattle.std.specs.Prelude.{◌≡◌, ℕ, ◌<◌, ◌^◌, List, IfOk, IfErr, ◌↔◌, true};
ghost use Rattle.air_field.specs.Degree.{degree_by, cached_weight, transition_weight, trace_weight};
ghost use Rattle.air_symbolic.specs.DegreeTables.{capped};
ghost use Rattle.air_symbolic.specs.Leaves.{Leaves, LeafLaws, IsConstLeaf};
ghost use Rattle.air_symbolic.specs.PoolRefusals.{AnswersDegree};
ghost use Rattle.air_symbolic.specs.Weights.{leaf_weight};
ghost use Rattle.air_symbolic.specs.declared.pools.weight.LeafWeight.{LeafWeight};

use crate::pools::weight::{DegreeTable, LeafWeight};
use air_field::{Field, RingError};
use std::alloc::Global;
use std::fmt::Debug;

/// A leaf of an expression. It may name something in the pool's base.
pub trait SymLeaf: Copy + Eq + Ord + Debug {
    /// The field of the constants.
    type F: Field;

    /// The base of a pool of such leaves.
    type Base: Drop;

    /// What the leaves mean over a base.
    ghost reads: { Self.Base → Leaves Self Self.F };

    /// The base has grown: what leaves name in it stays.
    ghost grows: { Self.Base → Self.Base → Type 0 };

    /// The number of nodes in the base.
    ghost base_length: { Self.Base → ℕ };

    /// The list holds, for each number of the base, its degree by this weight.
    ghost has_degrees: { Self.Base → LeafWeight → List ℕ → Type 0 };

    /// The base of a new pool.
    ghost empty_base: { Self.Base };

    /// The base of a new pool, without nodes.
    fn new_base(alloc: Global) -> Self::Base
        ensures { result ≡ empty_base };

    /// The degree that nodes state.
    fn degree_multiple(&self, base: &Self::Base) -> usize
        requires { (reads base.now).valid self.now }
        ensures { result ≡ degree_by cached_weight ((reads base.now).term self.now) };

    /// The constant that the leaf equals, which the simplified operations use.
    fn as_const(&self, base: &Self::Base) -> Option<Self::F>
        requires { (reads base.now).valid self.now }
        ensures { result ≡ (reads base.now).constant self.now };

    /// The degree that nodes state, with the weight `weight` for the transition selector. Fails with `DegreeOverflow`
    /// only if it exceeds `usize`, or with `Memory`.
    fn degree_multiple_with_transition(
        &self,
        weight: usize,
        base: &Self::Base,
    ) -> Result<usize, RingError>
        requires { (reads base.now).valid self.now }
        ensures { AnswersDegree (degree_by (transition_weight weight)
            ((reads base.now).term self.now)) result };

    /// The degree of the leaf's polynomial over `trace_len` rows; `periods` holds the lengths of the periodic columns.
    /// Fails with `DegreeOverflow` only if it exceeds `usize`, or with `Memory`.
    fn poly_degree(
        &self,
        trace_len: usize,
        periods: &[usize],
        base: &Self::Base,
    ) -> Result<usize, RingError>
        requires { (reads base.now).valid self.now }
        ensures { AnswersDegree (degree_by (trace_weight trace_len periods.now)
            ((reads base.now).term self.now)) result };

    /// The degrees of the base's nodes, each computed once for all leaves that name it. Takes one turn for each node.
    fn degrees_of_base(
        base: &Self::Base,
        weight: LeafWeight<'_>,
        alloc: Global,
    ) -> Result<DegreeTable, RingError>
        requires { (reads base.now).sound }
        ensures degrees { IfOk result (λ t. has_degrees base.now weight.entry t.degrees.items) }
        ensures turns { IfOk result (λ t. t.turns ≡ base_length base.now) }
        ensures few { IfOk result (λ t. t.turns < 2 ^ 64) }
        ensures refused { IfErr result (λ e. e ≡ RingError.Memory) };

    /// The degree by a weight, or 2^128 - 1 if it is greater than that. If the leaf names something in the base, the
    /// degree is read from `table`, which must hold the base's degrees by the same weight.
    fn degree_in(&self, weight: LeafWeight<'_>, base: &Self::Base, table: &[u128]) -> u128
        requires valid { (reads base.now).valid self.now }
        requires known { has_degrees base.now weight table.now }
        ensures { result ≡ capped
            (degree_by (leaf_weight weight.entry) ((reads base.now).term self.now)) };

    /// The leaf of a constant.
    fn from_const(c: Self::F, base: &mut Self::Base) -> Result<Self, RingError>
        requires { (reads base.old).sound }
        ensures grown { grows base.old base.new }
        ensures made { IfOk result (IsConstLeaf (reads base.new) c) }
        ensures refused { IfErr result (λ e. e ≡ RingError.Memory) };

    /// The leaf of 0.
    fn zero(base: &mut Self::Base) -> Result<Self, RingError>
        requires { (reads base.old).sound }
        ensures grown { grows base.old base.new }
        ensures made { IfOk result (IsConstLeaf (reads base.new) Self.F.ring.zero) }
        ensures refused { IfErr result (λ e. e ≡ RingError.Memory) }
    {
        Self::from_const(Self::F::ZERO, base)
    }

    /// The leaf of 1.
    fn one(base: &mut Self::Base) -> Result<Self, RingError>
        requires { (reads base.old).sound }
        ensures grown { grows base.old base.new }
        ensures made { IfOk result (IsConstLeaf (reads base.new) Self.F.ring.one) }
        ensures refused { IfErr result (λ e. e ≡ RingError.Memory) }
    {
        Self::from_const(Self::F::ONE, base)
    }

    /// The leaf of 2.
    fn two(base: &mut Self::Base) -> Result<Self, RingError>
        requires { (reads base.old).sound }
        ensures grown { grows base.old base.new }
        ensures made { IfOk result (IsConstLeaf (reads base.new)
            (Self.F.ring.add Self.F.ring.one Self.F.ring.one)) }
        ensures refused { IfErr result (λ e. e ≡ RingError.Memory) }
    {
        Self::from_const(Self::F::TWO, base)
    }

    /// The leaf of -1.
    fn neg_one(base: &mut Self::Base) -> Result<Self, RingError>
        requires { (reads base.old).sound }
        ensures grown { grows base.old base.new }
        ensures made { IfOk result (IsConstLeaf (reads base.new)
            (Self.F.ring.neg Self.F.ring.one)) }
        ensures refused { IfErr result (λ e. e ≡ RingError.Memory) }
    {
        Self::from_const(Self::F::NEG_ONE, base)
    }

    ghost eq_is: { (x y : Self) → (Self.eq x y ≡ true) ↔ (x ≡ y) };

    ghost leaf_laws: { LeafLaws Self.F.ring reads grows empty_base };
}

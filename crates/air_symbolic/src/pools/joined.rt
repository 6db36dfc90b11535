//! Simplified sums and products of lists, from the left.
ghost use Rattle.std.specs.Prelude.{◌≡◌, ◌<◌, map, All, IfOk, IfErr};
ghost use Rattle.air_field.specs.Term.{add_term, mul_term};
ghost use Rattle.air_field.specs.Same.{Simplifies};
ghost use Rattle.air_field.specs.Joins.{join_terms};
ghost use Rattle.air_symbolic.specs.Pools.{FitsBase, tree_at, term_at, Grown, size};
ghost use Rattle.air_symbolic.specs.SimplifiedLists.{IsSumOfAll, IsProductOfAll, ProductOverflows};

use crate::leaves::sym_leaf::SymLeaf;
use crate::pools::expr::ExprId;
use crate::pools::pool::ExprPool;
use air_field::{Field, RingError};

impl<A: SymLeaf> ExprPool<A> {
    /// The sum, simplified step by step from the left; 0 for the empty list.
    pub fn sum(&mut self, xs: &[ExprId<A>]) -> Result<ExprId<A>, RingError>
        requires owed { FitsBase A.reads self.old }
        requires all_in { All (λ x. x < size self.old) xs.now }
        ensures grown { Grown A.grows A.reads self.old self.new }
        ensures made { IfOk result (IsSumOfAll A.reads A.F.ring A.F.eq self.old self.new xs.now) }
        ensures simplifies { IfOk result (λ z. Simplifies A.F.ring (term_at A.reads self.new z)
            (join_terms add_term A.F.ring.zero (map (term_at A.reads self.old) xs.now))) }
        ensures refused { IfErr result (λ e. e ≡ RingError.Memory) }
    {
        self.nodes_fit();
        let [first, rest @ ..] = xs else {
            return self.constant(A::F::ZERO);
        };
        let mut total = *first;
        for x in rest {
            total = self.add(total, *x)?;
        }
        Ok(total)
    }

    /// The product, simplified step by step from the left; 1 for the empty list. Fails with `DegreeOverflow` only if a
    /// step needs a node and the sum of its degrees exceeds `usize`, and then it never succeeds; or with `Memory`.
    pub fn product(&mut self, xs: &[ExprId<A>]) -> Result<ExprId<A>, RingError>
        requires owed { FitsBase A.reads self.old }
        requires all_in { All (λ x. x < size self.old) xs.now }
        ensures grown { Grown A.grows A.reads self.old self.new }
        ensures made { IfOk result (IsProductOfAll A.reads A.F.ring A.F.eq self.old self.new
            xs.now) }
        ensures simplifies { IfOk result (λ z. Simplifies A.F.ring (term_at A.reads self.new z)
            (join_terms mul_term A.F.ring.one (map (term_at A.reads self.old) xs.now))) }
        ensures overflow { result ≡ Err RingError.DegreeOverflow → ProductOverflows A.F.ring A.F.eq
            (A.reads self.new.base) (map (tree_at self.old) xs.now) }
    {
        self.nodes_fit();
        let [first, rest @ ..] = xs else {
            return self.constant(A::F::ONE);
        };
        let mut total = *first;
        for x in rest {
            total = self.mul(total, *x)?;
        }
        Ok(total)
    }
}

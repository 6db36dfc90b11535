//! The simplified operations: each applies the first simplification that fits, or else makes a node.
ghost use Rattle.std.specs.Prelude.{◌≡◌, ◌<◌, ◌≤◌, ◌+◌, ◌^◌, ◌↔◌, IfOk, IfErr};
ghost use Rattle.air_field.specs.Term.{add_term, sub_term, neg_term, mul_term};
ghost use Rattle.air_field.specs.Degree.{degree_by, cached_weight};
ghost use Rattle.air_field.specs.Same.{Simplifies};
ghost use Rattle.air_symbolic.specs.Pools.{FitsBase, tree_at, term_at, Grown, HasConst, size};
ghost use Rattle.air_symbolic.specs.Simplification.{HasSimplified, IsSum, IsDifference, IsNegative, IsProduct, NeedsNode};

use crate::leaves::sym_leaf::SymLeaf;
use crate::pools::expr::ExprId;
use crate::pools::pool::ExprPool;
use crate::pools::simplify::{Simplified, simplify_difference, simplify_product, simplify_sum};
use air_field::{Field, RingError};

impl<A: SymLeaf> ExprPool<A> {
    /// A constant.
    pub fn constant(&mut self, c: A::F) -> Result<ExprId<A>, RingError>
        requires { FitsBase A.reads self.old }
        ensures grown { Grown A.grows A.reads self.old self.new }
        ensures made { IfOk result (HasConst A.reads self.new c) }
        ensures refused { IfErr result (λ e. e ≡ RingError.Memory) }
    {
        let a = A::from_const(c, &mut self.base)?;
        self.leaf(a)
    }

    /// The constant 0.
    pub fn zero(&mut self) -> Result<ExprId<A>, RingError>
        requires { FitsBase A.reads self.old }
        ensures grown { Grown A.grows A.reads self.old self.new }
        ensures made { IfOk result (HasConst A.reads self.new A.F.ring.zero) }
        ensures refused { IfErr result (λ e. e ≡ RingError.Memory) }
    {
        self.constant(A::F::ZERO)
    }

    // Makes the expression that an operation on x and y simplifies to.
    fn simplified_to(
        &mut self,
        simplified: Simplified<A::F>,
        x: ExprId<A>,
        y: ExprId<A>,
    ) -> Result<ExprId<A>, RingError>
        requires owed { FitsBase A.reads self.old }
        requires x_in { x < size self.old }
        requires y_in { y < size self.old }
        ensures grown { Grown A.grows A.reads self.old self.new }
        ensures made { IfOk result (HasSimplified A.reads self.new (tree_at self.old x)
            (tree_at self.old y) simplified) }
        ensures refused { IfErr result (λ e. e ≡ RingError.Memory) }
    {
        match simplified {
            Simplified::Constant(c) => self.constant(c),
            Simplified::Left => Ok(x),
            Simplified::Right => Ok(y),
            Simplified::Negated => self.insert_neg(y),
        }
    }

    /// The sum, simplified.
    pub fn add(&mut self, x: ExprId<A>, y: ExprId<A>) -> Result<ExprId<A>, RingError>
        requires owed { FitsBase A.reads self.old }
        requires x_in { x < size self.old }
        requires y_in { y < size self.old }
        ensures grown { Grown A.grows A.reads self.old self.new }
        ensures made { IfOk result (IsSum A.reads A.F.ring A.F.eq self.old self.new x y) }
        ensures simplifies { IfOk result (λ z. Simplifies A.F.ring (term_at A.reads self.new z)
            (add_term (term_at A.reads self.old x) (term_at A.reads self.old y))) }
        ensures refused { IfErr result (λ e. e ≡ RingError.Memory) }
    {
        self.nodes_fit();
        match simplify_sum(self.as_const(x), self.as_const(y)) {
            Some(simplified) => self.simplified_to(simplified, x, y),
            None => self.insert_add(x, y),
        }
    }

    /// The difference, simplified.
    pub fn sub(&mut self, x: ExprId<A>, y: ExprId<A>) -> Result<ExprId<A>, RingError>
        requires owed { FitsBase A.reads self.old }
        requires x_in { x < size self.old }
        requires y_in { y < size self.old }
        ensures grown { Grown A.grows A.reads self.old self.new }
        ensures made { IfOk result (IsDifference A.reads A.F.ring A.F.eq self.old self.new x y) }
        ensures simplifies { IfOk result (λ z. Simplifies A.F.ring (term_at A.reads self.new z)
            (sub_term (term_at A.reads self.old x) (term_at A.reads self.old y))) }
        ensures refused { IfErr result (λ e. e ≡ RingError.Memory) }
    {
        self.nodes_fit();
        match simplify_difference(self.as_const(x), self.as_const(y)) {
            Some(simplified) => self.simplified_to(simplified, x, y),
            None => self.insert_sub(x, y),
        }
    }

    /// The negative, simplified.
    pub fn neg(&mut self, x: ExprId<A>) -> Result<ExprId<A>, RingError>
        requires owed { FitsBase A.reads self.old }
        requires x_in { x < size self.old }
        ensures grown { Grown A.grows A.reads self.old self.new }
        ensures made { IfOk result (IsNegative A.reads A.F.ring A.F.eq self.old self.new x) }
        ensures simplifies { IfOk result (λ z. Simplifies A.F.ring (term_at A.reads self.new z)
            (neg_term (term_at A.reads self.old x))) }
        ensures refused { IfErr result (λ e. e ≡ RingError.Memory) }
    {
        self.nodes_fit();
        match self.as_const(x) {
            Some(c) => self.constant(c.neg()),
            None => self.insert_neg(x),
        }
    }

    /// The product, simplified. Fails with `DegreeOverflow` exactly if a node is needed and the sum of the operands'
    /// degrees exceeds `usize`, or with `Memory`.
    pub fn mul(&mut self, x: ExprId<A>, y: ExprId<A>) -> Result<ExprId<A>, RingError>
        requires owed { FitsBase A.reads self.old }
        requires x_in { x < size self.old }
        requires y_in { y < size self.old }
        ensures grown { Grown A.grows A.reads self.old self.new }
        ensures made { IfOk result (IsProduct A.reads A.F.ring A.F.eq self.old self.new x y) }
        ensures simplifies { IfOk result (λ z. Simplifies A.F.ring (term_at A.reads self.new z)
            (mul_term (term_at A.reads self.old x) (term_at A.reads self.old y))) }
        ensures overflow { (result ≡ Err RingError.DegreeOverflow)
            ↔ (NeedsNode A.reads A.F.ring A.F.eq self.old x y
            × (2 ^ 64 ≤ degree_by cached_weight (term_at A.reads self.old x) + degree_by
            cached_weight (term_at A.reads self.old y))) }
    {
        self.nodes_fit();
        match simplify_product(self.as_const(x), self.as_const(y)) {
            Some(simplified) => self.simplified_to(simplified, x, y),
            None => self.insert_mul(x, y),
        }
    }
}

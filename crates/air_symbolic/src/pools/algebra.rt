//! A pool as a ring whose elements are made by calls.

use crate::leaves::sym_leaf::SymLeaf;
use crate::pools::expr::ExprId;
use crate::pools::pool::ExprPool;
use air_field::{Algebra, RingError};

impl<A: SymLeaf> Algebra<A::F> for ExprPool<A> {
    type Elem = ExprId<A>;

    ghost use Rattle.air_symbolic.specs.Pools.{IsPool, PoolHas, PoolMeans, Grown};
    ghost use Rattle.air_symbolic.specs.PoolRefusals.{PoolRefuses};

    ghost valid = { λ p. IsPool A.reads p };

    ghost has = { λ p i. PoolHas A.reads p i };

    ghost means = { λ p i t. PoolMeans A.reads A.F.ring p i t };

    ghost extends = { λ p q. Grown A.grows A.reads p q };

    ghost refuses = { λ e t. PoolRefuses e t };

    fn contains(&self, x: ExprId<A>) -> bool {
        ExprPool::contains(self, x)
    }

    fn constant(&mut self, c: A::F) -> Result<ExprId<A>, RingError> {
        ExprPool::constant(self, c)
    }

    fn add(&mut self, x: ExprId<A>, y: ExprId<A>) -> Result<ExprId<A>, RingError> {
        ExprPool::add(self, x, y)
    }

    fn sub(&mut self, x: ExprId<A>, y: ExprId<A>) -> Result<ExprId<A>, RingError> {
        ExprPool::sub(self, x, y)
    }

    fn neg(&mut self, x: ExprId<A>) -> Result<ExprId<A>, RingError> {
        ExprPool::neg(self, x)
    }

    fn mul(&mut self, x: ExprId<A>, y: ExprId<A>) -> Result<ExprId<A>, RingError> {
        ExprPool::mul(self, x, y)
    }

    ghost use Rattle.air_symbolic.specs.laws.Pools.{pool_laws};

    ghost laws = { pool_laws A.F.ring A.reads A.grows A.empty_base A.leaf_laws };
}

//! Access to a pool's base: an extension pool owns its base pool.
ghost use Rattle.std.specs.Prelude.{◌≡◌};
ghost use Rattle.std.specs.Borrow.{Lends, sem};
ghost use Rattle.air_symbolic.specs.Pools.{on_base};
ghost use Rattle.air_symbolic.specs.contracts.pools.pool.ExprPool.{the_row};

use crate::leaves::sym_leaf::SymLeaf;
use crate::pools::pool::ExprPool;

impl<A: SymLeaf> ExprPool<A> {
    /// The pool's base, for reading: an extension pool's base pool.
    pub fn base(&self) -> &A::Base
        ensures { result.now ≡ self.now.base }
    {
        &self.base
    }

    /// The pool's base, for writing: an extension pool's base pool. The caller must only extend it, as every call of a
    /// pool does; then the pool itself has grown.
    pub fn base_mut(&mut self) -> &mut A::Base
        ensures* lends { sem 𝓛 (Lends (the_row A.row A.F.row A.Base.row A.SymLeaf.own
            A.PartialEq.own A.Ord.own A.PartialOrd.own A.Debug.own A.F.Field.own A.F.PartialEq.own
            A.F.Ord.own A.F.PartialOrd.own A.F.Debug.own) A.Base.row self.entry result
            (λ w. on_base self.old w)) }
        ensures value { result.now ≡ self.old.base }
    {
        &mut self.base
    }
}

//! The expressions of a pool in any builder.
ghost use Rattle.std.specs.Prelude.{◌<◌, map, All};
ghost use Rattle.air_symbolic.specs.BaseLeaves.{base_reads};
ghost use Rattle.air_symbolic.specs.Pools.{term_at, size};
ghost use Rattle.air_audit.specs.Tables.{MakesOrMemory, MakesAllOrMemory};

use crate::flat::nodes::expression_at;
use crate::flat::plan::plan_of;
use crate::flat::table::make_planned;
use air_builder::{AirBuilder, AirError, View};
use air_field::Algebra;
use air_symbolic::{BaseLeaf, ExprId, ExprPool};
use std::alloc::Global;

/// Makes an expression of the pool in the builder. Nothing is asserted; each node that the expression reaches is made
/// once, and no other is visited.
///
/// # Errors
///
/// The name of a leaf that the builder lacks; `RowOffset` for an offset other than 0 and 1, whatever the column; an error
/// of the builder's ring; `Memory`.
pub fn resolve<AB: AirBuilder>(
    alloc: Global,
    pool: &ExprPool<BaseLeaf<AB::F>>,
    id: ExprId<BaseLeaf<AB::F>>,
    builder: &mut AB,
) -> Result<AB::Expr, AirError>
    requires ready { AB.ready builder.old }
    requires here { id < size pool.now }
    ensures { MakesOrMemory ⟦<AB as View>⟧.view builder.old builder.new result
        (term_at base_reads pool.now id) }
{
    let expressions = resolve_all(alloc, pool, &[id], builder)?;
    Ok(expression_at(&expressions, 0))
}

/// Makes several expressions, in order; a part that they share is made once. The errors are those of `resolve`.
pub fn resolve_all<AB: AirBuilder>(
    alloc: Global,
    pool: &ExprPool<BaseLeaf<AB::F>>,
    roots: &[ExprId<BaseLeaf<AB::F>>],
    builder: &mut AB,
) -> Result<Vec<AB::Expr>, AirError>
    requires ready { AB.ready builder.old }
    requires here { All (λ i. i < size pool.now) roots.now }
    ensures { MakesAllOrMemory ⟦<AB as View>⟧.view builder.old builder.new result
        (map (term_at base_reads pool.now) roots.now) }
{
    let plan = plan_of(alloc, pool, roots)?;
    make_planned(alloc, pool, &plan, builder)
}

//! The selectors' expressions.
ghost use Rattle.std.specs.Prelude.{◌≡◌, IfOk, IfErr};
ghost use Rattle.air_symbolic.specs.Pools.{PoolMeans, Grown};
ghost use Rattle.air_symbolic.specs.BaseLeaves.{base_reads, base_grows};
ghost use Rattle.air_recording.specs.Recording.{SelectorsMean};
ghost use Rattle.air_recording.specs.SymbolicParts.{SelectorsAreLeaves};

use air_builder::AirError;
use air_core::Selectors;
use air_field::Field;
use air_symbolic::{BaseLeaf, ExprId, ExprPool};

/// Makes the selectors' leaves.
pub(crate) fn make_selectors<F: Field>(
    pool: &mut ExprPool<BaseLeaf<F>>,
) -> Result<Selectors<ExprId<BaseLeaf<F>>>, AirError>
    ensures grown { Grown base_grows base_reads pool.old pool.new }
    ensures leaves { IfOk result (SelectorsAreLeaves pool.new) }
    ensures mean { IfOk result (λ s. SelectorsMean (PoolMeans base_reads F.ring pool.new)
        s.is_first_row s.is_last_row s.is_transition) }
    ensures refused { IfErr result (λ e. e ≡ AirError.Memory) }
{
    let is_first_row = pool.leaf_expr(BaseLeaf::IsFirstRow)?;
    let is_last_row = pool.leaf_expr(BaseLeaf::IsLastRow)?;
    let is_transition = pool.leaf_expr(BaseLeaf::IsTransition)?;
    Ok(Selectors {
        is_first_row,
        is_last_row,
        is_transition,
    })
}

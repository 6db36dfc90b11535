//! The symbolic builder as a builder: an expression is a number of the pool, and an assertion appends it to the list of
//! its kind.
ghost use Rattle.std.specs.Prelude.{◌≡◌, refl};
ghost use Rattle.air_field.specs.Term.{leaf_term};
ghost use Rattle.air_field.specs.Degree.{cached_weight};
ghost use Rattle.air_field.specs.Assignment.{IsMissing};
ghost use Rattle.air_symbolic.specs.Pools.{on_base, IsPool, PoolMeans, Grown};
ghost use Rattle.air_symbolic.specs.BaseLeaves.{base_reads};
ghost use Rattle.air_symbolic.specs.laws.BasePool.{base_pool_laws};
ghost use Rattle.air_symbolic.specs.ExtLeaves.{ext_reads, ext_grows};
ghost use Rattle.air_symbolic.specs.laws.ExtPool.{ext_pool_laws, base_lent, base_grown};
ghost use Rattle.air_recording.specs.Recording.{IsReady, KeptRecording, GrewRecording, OverflowsDegree};
ghost use Rattle.air_recording.specs.laws.Recording.{recording_laws};
ghost use Rattle.air_recording.specs.RecordedLists.{lists_of};
ghost use Rattle.air_builder.specs.Refused.{Refused};
ghost use Rattle.air_recording.specs.SymbolicParts.{fixed_by};

use crate::symbolic::builder::SymbolicAirBuilder;
use crate::symbolic::row::variables_of;
use air_builder::{AirBuilder, AirError, TwoRows};
use air_field::{ExtensionField, Field};
use air_symbolic::{BaseEntry, BaseLeaf, ExprId, ExprPool, SymbolicVariable};

impl<F: Field, EF: ExtensionField<F>> AirBuilder for SymbolicAirBuilder<F, EF> {
    type F = F;

    type Expr = ExprId<BaseLeaf<F>>;

    type Var = SymbolicVariable<F>;

    type PublicVar = SymbolicVariable<F>;

    type PeriodicVar = SymbolicVariable<F>;

    type PreprocessedWindow = TwoRows<SymbolicVariable<F>>;

    type MainWindow = TwoRows<SymbolicVariable<F>>;

    type Ring = ExprPool<BaseLeaf<F>>;

    ghost ring_of = { λ b. b.pool.base };

    ghost with_ring = { λ b r. record b { pool = on_base b.pool r } };

    ghost reads_as = { λ _ l. leaf_term l };

    ghost ready = { λ b. IsReady (IsPool (ext_reads EF.basis) b.pool)
        (PoolMeans base_reads F.ring b.pool.base) (fixed_by b.selectors b.entries.base.layout) };

    ghost kept = { λ a b. KeptRecording (Grown ext_grows (ext_reads EF.basis))
        a.pool b.pool (fixed_by a.selectors a.entries.base.layout)
        (fixed_by b.selectors b.entries.base.layout) };

    ghost grew = { λ a b ts. GrewRecording (λ p. PoolMeans base_reads F.ring p.base)
        (PoolMeans (ext_reads EF.basis) F.ring)
        (Grown ext_grows (ext_reads EF.basis)) a.pool b.pool
        (fixed_by a.selectors a.entries.base.layout) (fixed_by b.selectors b.entries.base.layout)
        (lists_of a.constraints) (lists_of b.constraints) ts };

    ghost missing = { λ b l. IsMissing (fixed_by b.selectors b.entries.base.layout).shape l };

    ghost refuses = { λ b e ts. Refused
        (IsMissing (fixed_by b.selectors b.entries.base.layout).shape)
        (OverflowsDegree cached_weight) (λ _. ⊥) e ts };

    ghost laws = { recording_laws (base_pool_laws F.ring)
        (ext_pool_laws EF.ExtensionField.laws) (λ p. p.base)
        (base_grown EF.basis) (λ b. b.pool)
        (λ b r. record b { pool = on_base b.pool r }) (λ b. fixed_by b.selectors b.entries.base.layout)
        (λ b. lists_of b.constraints) (λ b r g. base_lent EF.ExtensionField.laws b.pool
        r g) (λ _ _. refl) (λ _ _. refl) (λ _ _. refl) };

    fn ring(&mut self) -> &mut ExprPool<BaseLeaf<F>> {
        self.pool.base_mut()
    }

    fn main(&self) -> Result<TwoRows<SymbolicVariable<F>>, AirError> {
        let width = self.entries.base.layout.main_width;
        let current = variables_of(self.alloc, BaseEntry::Main { offset: 0 }, width)?;
        let next = variables_of(self.alloc, BaseEntry::Main { offset: 1 }, width)?;
        Ok(TwoRows::new(current, next))
    }

    fn main_variable(&self, offset: usize, column: usize) -> Option<SymbolicVariable<F>> {
        if offset <= 1 && column < self.entries.base.layout.main_width {
            Some(SymbolicVariable::new(BaseEntry::Main { offset }, column))
        } else {
            None
        }
    }

    fn preprocessed(&self) -> &TwoRows<SymbolicVariable<F>> {
        &self.entries.base.preprocessed
    }

    fn public_values(&self) -> &[SymbolicVariable<F>] {
        self.entries.base.public_values.as_slice()
    }

    fn periodic_values(&self) -> &[SymbolicVariable<F>] {
        self.entries.base.periodic_columns.as_slice()
    }

    fn is_first_row(&mut self) -> Result<ExprId<BaseLeaf<F>>, AirError> {
        Ok(self.selectors.is_first_row)
    }

    fn is_last_row(&mut self) -> Result<ExprId<BaseLeaf<F>>, AirError> {
        Ok(self.selectors.is_last_row)
    }

    fn is_transition(&mut self) -> Result<ExprId<BaseLeaf<F>>, AirError> {
        Ok(self.selectors.is_transition)
    }

    fn assert_zero(&mut self, x: ExprId<BaseLeaf<F>>) -> Result<(), AirError> {
        self.constraints.push_base(x)
    }
}

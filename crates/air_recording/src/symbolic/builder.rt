//! The symbolic builder: assertions become expressions of a pool.
ghost use Rattle.std.specs.Prelude.{◌≡◌, IfOk, IfErr};
ghost use Rattle.air_recording.specs.RecordedLists.{no_lists, recorded_by, pool_of, selectors_of, layout_of};
ghost use Rattle.air_recording.specs.Folds.{ArePlacesOf};
ghost use Rattle.air_recording.specs.SymbolicParts.{SelectorsAreLeaves};

use crate::layouts::air_layout::AirLayout;
use crate::layouts::constraint_layout::ConstraintLayout;
use crate::symbolic::constraints::Constraints;
use crate::symbolic::row::{AllEntries, all_entries_of};
use crate::symbolic::selectors::make_selectors;
use air_builder::{AirBuilder, AirError};
use air_core::Selectors;
use air_field::{ExtensionField, Field};
use air_symbolic::{BaseLeaf, ExprId, ExprPool, ExtLeaf};
use std::alloc::Global;

/// Records each assertion as an expression of its pool, in order: base constraints in its base pool, extension
/// constraints in the whole pool.
#[derive(Drop)]
pub struct SymbolicAirBuilder<F: Field, EF: ExtensionField<F>> {
    pub(crate) alloc: Global,
    pub(crate) entries: AllEntries<F, EF>,
    pub(crate) pool: ExprPool<ExtLeaf<F, EF>>,
    pub(crate) selectors: Selectors<ExprId<BaseLeaf<F>>>,
    pub(crate) constraints: Constraints<F, EF>,
}

impl<F: Field, EF: ExtensionField<F>> SymbolicAirBuilder<F, EF> {
    /// A builder with this layout that has recorded nothing. It makes its selectors at once, so that asking for one
    /// never fails.
    pub fn new(alloc: Global, layout: AirLayout) -> Result<Self, AirError>
        ensures ready { IfOk result ⟦<SymbolicAirBuilder<F, EF> as AirBuilder>⟧.ready }
        ensures layout { IfOk result (λ b. layout_of b ≡ layout) }
        ensures selectors { IfOk result (λ b. SelectorsAreLeaves (pool_of b).base
            (selectors_of b)) }
        ensures none { IfOk result (λ b. recorded_by b ≡ no_lists) }
        ensures refused { IfErr result (λ e. e ≡ AirError.Memory) }
    {
        let mut pool = ExprPool::new(alloc);
        let selectors = make_selectors(pool.base_mut())?;
        Ok(SymbolicAirBuilder {
            alloc,
            entries: all_entries_of(alloc, layout)?,
            pool,
            selectors,
            constraints: Constraints::new(alloc),
        })
    }

    /// The recorded base constraints, in order: numbers of the pool's base pool.
    pub fn base_constraints(&self) -> &[ExprId<BaseLeaf<F>>]
        ensures { result.now ≡ (recorded_by self.now).base }
    {
        self.constraints.base.as_slice()
    }

    /// The recorded extension constraints, in order: numbers of the pool.
    pub fn extension_constraints(&self) -> &[ExprId<ExtLeaf<F, EF>>]
        ensures { result.now ≡ (recorded_by self.now).ext }
    {
        self.constraints.ext.as_slice()
    }

    /// The constraint indices of the base and of the extension constraints recorded so far.
    pub fn constraint_layout(&self) -> Result<ConstraintLayout, AirError>
        ensures places { IfOk result (λ l. ArePlacesOf (recorded_by self.now).kinds
            l.base_indices.items l.ext_indices.items) }
        ensures refused { IfErr result (λ e. e ≡ AirError.Memory) }
    {
        self.constraints.layout(self.alloc)
    }
}

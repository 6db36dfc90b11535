//! The symbolic builder over the extension, and with permutation data.
ghost use Rattle.std.specs.Prelude.{◌≡◌, refl, IfOk, IfErr};
ghost use Rattle.air_symbolic.specs.Pools.{on_base};
ghost use Rattle.air_symbolic.specs.laws.BasePool.{base_pool_laws};
ghost use Rattle.air_symbolic.specs.laws.ExtPool.{ext_pool_laws, base_lent, base_grown};
ghost use Rattle.air_core.specs.WindowShapes.{current_of, next_of};
ghost use Rattle.air_recording.specs.Rows.{IsExtRowOf};
ghost use Rattle.air_recording.specs.laws.Recording.{recording_ext_laws};
ghost use Rattle.air_recording.specs.RecordedLists.{lists_of, layout_of};
ghost use Rattle.air_recording.specs.SymbolicParts.{fixed_by, base_has_it, base_means_it};

use crate::symbolic::builder::SymbolicAirBuilder;
use crate::symbolic::row::ext_variables_of;
use air_builder::{AirBuilder, AirError, ExtensionBuilder, PermutationAirBuilder, TwoRows};
use air_field::{ExtensionField, Field};
use air_symbolic::{ExprId, ExprPool, ExtEntry, ExtLeaf, SymbolicVariableExt};

impl<F: Field, EF: ExtensionField<F>> ExtensionBuilder for SymbolicAirBuilder<F, EF> {
    type EF = EF;

    type ExprEF = ExprId<ExtLeaf<F, EF>>;

    type VarEF = SymbolicVariableExt<F, EF>;

    type ExtRing = ExprPool<ExtLeaf<F, EF>>;

    ghost ext_ring_of = { λ b. b.pool };

    ghost with_ext_ring = { λ b r. record b { pool = r } };

    ghost ext_laws = { recording_ext_laws (base_pool_laws F.ring)
        (ext_pool_laws EF.ExtensionField.laws) (λ p. p.base)
        (base_grown EF.basis) (λ b. b.pool)
        (λ b r. record b { pool = on_base b.pool r }) (λ b. fixed_by b.selectors b.entries.base.layout)
        (λ b. lists_of b.constraints) (λ b r g. base_lent EF.ExtensionField.laws b.pool
        r g) (λ _ _. refl) (λ _ _. refl) (λ _ _. refl) (λ b r. record b { pool = r }) (λ _ _. refl)
        (λ _ _. refl) (λ _ _. refl) (base_has_it EF.basis)
        (base_means_it EF.basis F.ring) };

    fn ext_ring(&mut self) -> &mut ExprPool<ExtLeaf<F, EF>> {
        &mut self.pool
    }

    fn assert_zero_ext(&mut self, x: ExprId<ExtLeaf<F, EF>>) -> Result<(), AirError> {
        self.constraints.push_ext(x)
    }
}

impl<F: Field, EF: ExtensionField<F>> PermutationAirBuilder for SymbolicAirBuilder<F, EF> {
    type MP = TwoRows<SymbolicVariableExt<F, EF>>;

    type RandomVar = SymbolicVariableExt<F, EF>;

    type PermutationVar = SymbolicVariableExt<F, EF>;

    /// The window of the permutation trace. If the layout has no permutation columns, its rows have none. Fails only
    /// with `Memory`.
    fn permutation(&self) -> Result<TwoRows<SymbolicVariableExt<F, EF>>, AirError>
        ensures current { IfOk result (λ w. IsExtRowOf (ExtEntry.Permutation 0)
            (layout_of self.now).permutation_width (current_of w)) }
        ensures next { IfOk result (λ w. IsExtRowOf (ExtEntry.Permutation 1)
            (layout_of self.now).permutation_width (next_of w)) }
        ensures refused { IfErr result (λ e. e ≡ AirError.Memory) }
    {
        let width = self.entries.ext.layout.permutation_width;
        let current = ext_variables_of(self.alloc, ExtEntry::Permutation { offset: 0 }, width)?;
        let next = ext_variables_of(self.alloc, ExtEntry::Permutation { offset: 1 }, width)?;
        Ok(TwoRows::new(current, next))
    }

    // Makes no window, so that reading many columns doesn't make one each time.
    fn permutation_variable(
        &self,
        offset: usize,
        column: usize,
    ) -> Result<Option<SymbolicVariableExt<F, EF>>, AirError> {
        if offset <= 1 && column < self.entries.ext.layout.permutation_width {
            let entry = ExtEntry::Permutation { offset };
            Ok(Some(SymbolicVariableExt::new(entry, column)))
        } else {
            Ok(None)
        }
    }

    fn permutation_randomness(&self) -> &[SymbolicVariableExt<F, EF>] {
        self.entries.ext.challenges.as_slice()
    }

    fn permutation_values(&self) -> &[SymbolicVariableExt<F, EF>] {
        self.entries.ext.permutation_values.as_slice()
    }
}

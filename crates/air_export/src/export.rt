//! Recording an AIR, and writing the recording as an object.
ghost use Rattle.std.specs.Prelude.{◌≡◌, length, IfOk, IfErr};
ghost use Rattle.serde_json.specs.View.{view};
ghost use Rattle.air_core.specs.declared.errors.AirError.{AirError};
ghost use Rattle.air_object.specs.Input.{SpellsInput, HasInputFault};
ghost use Rattle.air_object.specs.declared.input.FlatInput.{FlatInput};
ghost use Rattle.air_export.specs.Exports.{layout_for, flat_declaration, IsExportOf, IsTrial, IsTrialWithoutRows, IsOverField, ExportRefuses};

use crate::errors::ExportError;
use crate::field_names::field_with_order;
use crate::parts::{table_view, trace_view, zeros};
use air_builder::{Air, BaseAir};
use air_field::{PrimeField64, RowMajorMatrix, SelfExtension};
use air_object::{ObjectParts, object_value};
use air_recording::{AirLayout, SymbolicAirBuilder, get_all_symbolic_constraints};
use serde_json::Value;
use std::alloc::Global;

/// The AIR's own layout, but with the width of the trace and the number of these public values: a recording by it
/// refuses those that the AIR doesn't declare.
pub(crate) fn layout_for<F: Copy, A: BaseAir<F>>(
    air: &A,
    main: &RowMajorMatrix<F>,
    public_values: &[F],
) -> AirLayout
    ensures { result ≡ layout_for (A.declaration air.now) main.now.width
        (length public_values.now) }
{
    AirLayout {
        main_width: main.width(),
        num_public_values: public_values.len(),
        ..AirLayout::from_air::<F, A>(air)
    }
}

/// Records the AIR by its own layout, and writes its constraints, what it has beside them, this trace, these public
/// values, the cap and the weight as the object that `flat_input_from` reads. Whatever input the object spells, its AIR
/// has at each place a constraint that records this AIR's there, and the same width, public values, preprocessed trace,
/// periodic columns and boundary values. Labels aren't written.
///
/// # Errors
///
/// `UnknownField` if no object is over F; `BooleanTrace` if the AIR assumes a trace of bits; those of the recording,
/// which also compares the trace's width and the number of public values with the AIR's; `ExtensionConstraints` if the
/// AIR has any. `Memory` may replace any.
pub fn export_air<F: SelfExtension + PrimeField64, A: BaseAir<F> + Air<SymbolicAirBuilder<F, F>>>(
    alloc: Global,
    air: &A,
    main: &RowMajorMatrix<F>,
    public_values: &[F],
    cap: Option<usize>,
    transition_weight: usize,
) -> Result<Value, ExportError>
    ensures air { IfOk result (λ v. (input : FlatInput F) →
        SpellsInput F.residues (view v) input →
        IsExportOf F.ring (flat_declaration input) (A.declaration air.now)) }
    ensures trial { IfOk result (λ v. (input : FlatInput F) →
        SpellsInput F.residues (view v) input →
        IsTrial main.now public_values.now cap transition_weight input.trial) }
    ensures is_read { IfOk result (λ v. (e : AirError) →
        HasInputFault F.residues (view v) e → ⊥) }
    ensures field { IfOk result (λ v. IsOverField F.ORDER_U64 (view v)) }
    ensures refused { IfErr result (ExportRefuses F.ORDER_U64 (A.has_own_boolean_trace air.now)
        (A.declaration air.now) main.now.width (length public_values.now)) }
{
    let Some(field) = field_with_order(F::ORDER_U64) else {
        return Err(ExportError::UnknownField {
            order: F::ORDER_U64,
        });
    };
    if air.assumes_boolean_trace() {
        return Err(ExportError::BooleanTrace);
    }
    let layout = layout_for(air, main, public_values);
    let recorded = get_all_symbolic_constraints::<F, F, A>(alloc, air, layout)?;
    if !recorded.ext.is_empty() {
        let count = recorded.ext.len();
        return Err(ExportError::ExtensionConstraints { count });
    }
    let parts = ObjectParts {
        pool: recorded.pool.base(),
        roots: &recorded.base,
        labels: &[],
        main: trace_view(main),
        preprocessed: table_view(air.preprocessed_trace()),
        public_values,
        periodic: air.periodic_columns(),
        cells: air.public_boundary_io(),
        cap,
        transition_weight,
    };
    let object = object_value(alloc, field, &parts)?;
    Ok(object)
}

/// Exports an AIR without a trace: as `export_air` does with a trace without rows, public values that are all zero, no
/// cap and weight 0. An audit of this object lists no failure of a constraint, or refuses the height of the preprocessed
/// trace, if there is one.
pub fn export_air_alone<
    F: SelfExtension + PrimeField64,
    A: BaseAir<F> + Air<SymbolicAirBuilder<F, F>>,
>(alloc: Global, air: &A) -> Result<Value, ExportError>
    ensures air { IfOk result (λ v. (input : FlatInput F) →
        SpellsInput F.residues (view v) input →
        IsExportOf F.ring (flat_declaration input) (A.declaration air.now)) }
    ensures trial { IfOk result (λ v. (input : FlatInput F) →
        SpellsInput F.residues (view v) input →
        IsTrialWithoutRows F.ring.zero (A.declaration air.now) input.trial) }
    ensures is_read { IfOk result (λ v. (e : AirError) →
        HasInputFault F.residues (view v) e → ⊥) }
    ensures field { IfOk result (λ v. IsOverField F.ORDER_U64 (view v)) }
    ensures refused { IfErr result (ExportRefuses F.ORDER_U64 (A.has_own_boolean_trace air.now)
        (A.declaration air.now) (A.declaration air.now).width
        (A.declaration air.now).num_public_values) }
{
    let public_values = zeros::<F>(alloc, air.num_public_values())?;
    let main = match RowMajorMatrix::new(Vec::new(alloc), air.width()) {
        Ok(main) => main,
        Err(_) => unreachable!(),
    };
    export_air(alloc, air, &main, &public_values, None, 0)
}

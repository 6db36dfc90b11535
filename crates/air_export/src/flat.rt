//! AIRs made of expressions of a pool, which have a list of labels.
ghost use Rattle.std.specs.Prelude.{◌≡◌, IfOk, IfErr, length, map, take, string_bytes};
ghost use Rattle.serde_json.specs.View.{view};
ghost use Rattle.air_core.specs.declared.errors.AirError.{AirError};
ghost use Rattle.air_builder.specs.Declaration.{declaration_of};
ghost use Rattle.air_audit.specs.FlatAirs.{zero_at_roots};
ghost use Rattle.air_object.specs.Input.{SpellsInput, HasInputFault};
ghost use Rattle.air_object.specs.declared.input.FlatInput.{FlatInput};
ghost use Rattle.air_export.specs.Exports.{flat_declaration, AreSame, IsTrial, IsOverField, FlatExportRefuses};

use crate::errors::ExportError;
use crate::export::layout_for;
use crate::field_names::field_with_order;
use crate::parts::{table_view, trace_view};
use air_audit::FlatAir;
use air_field::{PrimeField64, RowMajorMatrix};
use air_object::{ObjectParts, object_value};
use serde_json::Value;
use std::alloc::Global;

/// Writes a `FlatAir` with its labels; its pool is written as it stands, without another recording. Whatever input the
/// object spells, its AIR declares the same terms, in order, and the labels are the AIR's, without those past the last
/// constraint. A trace of another width is refused as `export_air` refuses it, and so are other public values.
pub fn export_flat_air<F: PrimeField64>(
    alloc: Global,
    air: &FlatAir<F>,
    main: &RowMajorMatrix<F>,
    public_values: &[F],
    cap: Option<usize>,
    transition_weight: usize,
) -> Result<Value, ExportError>
    ensures air { IfOk result (λ v. (input : FlatInput F) →
        SpellsInput F.residues (view v) input →
        AreSame (flat_declaration input)
        (declaration_of (zero_at_roots air.now.pool air.now.roots.items) air.now.beside)) }
    ensures labels { IfOk result (λ v. (input : FlatInput F) →
        SpellsInput F.residues (view v) input → map string_bytes input.constraints.labels.items
        ≡ map string_bytes (take (length air.now.roots.items) air.now.labels.items)) }
    ensures trial { IfOk result (λ v. (input : FlatInput F) →
        SpellsInput F.residues (view v) input →
        IsTrial main.now public_values.now cap transition_weight input.trial) }
    ensures is_read { IfOk result (λ v. (e : AirError) →
        HasInputFault F.residues (view v) e → ⊥) }
    ensures field { IfOk result (λ v. IsOverField F.ORDER_U64 (view v)) }
    ensures refused { IfErr result (FlatExportRefuses F.ORDER_U64 (declaration_of
        (zero_at_roots air.now.pool air.now.roots.items) air.now.beside) main.now.width
        (length public_values.now)) }
{
    let Some(field) = field_with_order(F::ORDER_U64) else {
        return Err(ExportError::UnknownField {
            order: F::ORDER_U64,
        });
    };
    layout_for(air, main, public_values).validate_against_air(air)?;
    let labelled = air.labels.len().min(air.roots.len());
    let parts = ObjectParts {
        pool: &air.pool,
        roots: &air.roots,
        labels: &air.labels[..labelled],
        main: trace_view(main),
        preprocessed: table_view(air.beside.preprocessed.as_ref()),
        public_values,
        periodic: &air.beside.periodic,
        cells: &air.beside.cells,
        cap,
        transition_weight,
    };
    let object = object_value(alloc, field, &parts)?;
    Ok(object)
}

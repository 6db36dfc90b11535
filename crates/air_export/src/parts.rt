//! Traces as views, and values that are zero.
ghost use Rattle.std.specs.Prelude.{◌≡◌, replicate, IfOk};
ghost use Rattle.std.specs.Option.{option_copied};
ghost use Rattle.air_export.specs.Exports.{AreValuesOf, AreValuesIn};

use air_field::{Field, RowMajorMatrix, RowMajorMatrixView};
use std::alloc::{AllocError, Global};

/// The values of a trace.
pub(crate) fn trace_view<F: Copy>(trace: &RowMajorMatrix<F>) -> RowMajorMatrixView<'_, F>
    ensures { AreValuesOf trace.now result }
{
    RowMajorMatrixView::new(trace.values(), trace.width())
}

/// The values of a trace, if there is one.
pub(crate) fn table_view<F: Copy>(
    table: Option<&RowMajorMatrix<F>>,
) -> Option<RowMajorMatrixView<'_, F>>
    ensures { AreValuesIn (option_copied table.entry) result }
{
    match table {
        Some(table) => Some(trace_view(table)),
        None => None,
    }
}

/// As many zeros.
pub(crate) fn zeros<F: Field>(alloc: Global, count: usize) -> Result<Vec<F>, AllocError>
    ensures { IfOk result (λ values. values.items ≡ replicate count F.ring.zero) }
{
    let mut values = Vec::new(alloc);
    for made in 0..count {
        values.push(F::ZERO)?;
    }
    Ok(values)
}

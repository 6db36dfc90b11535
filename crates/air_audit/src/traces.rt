//! Traces made of rows of whole numbers.
ghost use Rattle.std.specs.Prelude.{◌≡◌, ◌<◌, ◌++◌, length, map, IfOk, OnOk};
ghost use Rattle.air_field.specs.Ring.{image};

use air_field::{Field, RowMajorMatrix};
use std::alloc::{AllocError, Global};

/// Adds the elements of a row's numbers.
fn push_row<F: Field, const N: usize>(values: &mut Vec<F>, row: &[u64; N]) -> Result<(), AllocError>
    ensures whole { length row.now ≡ N }
    ensures pushed { OnOk result
        (values.new.items ≡ values.old.items ++ map (image F.ring) row.now) }
{
    values.reserve(N)?;
    for number in row {
        values.push(F::from_u64(*number))?;
    }
    Ok(())
}

/// The trace of these rows, the first one on top. A number n becomes the field element n · 1. There is at least one
/// column.
pub fn trace_of_rows<F: Field, const N: usize>(
    alloc: Global,
    rows: &[[u64; N]],
) -> Result<RowMajorMatrix<F>, AllocError>
    requires { 0 < N }
    ensures { IfOk result (λ trace. trace ≡ record {
      width = N;
      rows = map (map (image F.ring)) rows.now;
    }) }
{
    let mut values = Vec::new(alloc);
    for row in rows {
        push_row(&mut values, row)?;
    }
    match RowMajorMatrix::new(values, N) {
        Ok(trace) => Ok(trace),
        Err(_) => unreachable!(),
    }
}

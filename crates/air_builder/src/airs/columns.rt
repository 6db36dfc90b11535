//! Lists of columns.
ghost use Rattle.std.specs.Prelude.{◌≡◌, IfOk, IfErr};
ghost use Rattle.std.specs.List.{range_with_len};

use air_core::errors::AirError;
use std::alloc::Global;

/// The columns 0 to `width` - 1.
pub fn columns_below(alloc: Global, width: usize) -> Result<Vec<usize>, AirError>
    ensures columns { IfOk result (λ columns. columns.items ≡ range_with_len 0 width) }
    ensures refused { IfErr result (λ e. e ≡ AirError.Memory) }
{
    let mut columns = Vec::with_capacity(alloc, width)?;
    for column in 0..width {
        columns.push(column)?;
    }
    Ok(columns)
}

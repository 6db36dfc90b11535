//! The line that explains a boundary value.
ghost use Rattle.std.specs.Prelude.{◌≡◌, ◌++◌, ◌∷◌, [], OnOk, string_bytes};
ghost use Rattle.air_field.specs.Assignment.{row_assignment};
ghost use Rattle.air_print.specs.Lines.{lines_text};
ghost use Rattle.air_print.specs.Rows.{trace_of};
ghost use Rattle.air_print.specs.Cells.{cell_line, variable_text};

use crate::leaves::{push_constant, push_variable};
use crate::rows::{TraceRows, entry_of, public_of};
use air_core::BaseEntry;
use air_field::PrimeField64;
use std::alloc::AllocError;

// Appends a variable and its value.
fn push_value<F: PrimeField64>(
    text: &mut String,
    entry: BaseEntry,
    index: usize,
    value: F,
) -> Result<(), AllocError>
    ensures { OnOk result (string_bytes text.new ≡ string_bytes text.old
        ++ variable_text F.residues entry index value) }
{
    push_variable(text, entry, index)?;
    text.push_str(" = ")?;
    push_constant(text, value)
}

/// Appends the line of a boundary value: its column and its public value, with their values at the row.
pub fn push_cell<F: PrimeField64>(
    text: &mut String,
    trace: &TraceRows<'_, F>,
    row: usize,
    column: usize,
    public_value: usize,
) -> Result<(), AllocError>
    ensures { OnOk result (string_bytes text.new ≡ string_bytes text.old ++ lines_text
        (cell_line F.residues (row_assignment F.ring (trace_of trace.now) row) column
        public_value ∷ [])) }
{
    let here = BaseEntry::Main { offset: 0 };
    text.push_str("  ")?;
    push_value(text, here, column, entry_of(trace.main, row, column))?;
    text.push_str(", ")?;
    let public = public_of(trace.public_values, public_value);
    push_value(text, BaseEntry::Public, public_value, public)?;
    text.push_str("\n")?;
    Ok(())
}

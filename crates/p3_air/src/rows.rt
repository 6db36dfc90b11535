//! Traces that are made row by row.
ghost use Rattle.std.specs.Prelude.{◌≡◌, ◌++◌, [], length, map, Ok, OnOk, OnErr, IfOk, IfErr};
ghost use Rattle.air_field.specs.Matrix.{matrix_of};
ghost use Rattle.air_field.specs.Ring.{image};
ghost use Rattle.p3_air.specs.TraceRows.{RowRefuses, TraceRefuses};

use air_core::AirError;
use air_field::{Field, RowMajorMatrix};
use std::alloc::{AllocError, Global};

/// A trace in the making: a call adds a row.
#[derive(Drop)]
pub struct TraceRows<F: Field> {
    /// The number of columns.
    pub width: usize,
    /// The cells, row after row.
    pub cells: Vec<F>,
}

// Adds the elements of whole numbers, or nothing.
fn push_elements<F: Field>(cells: &mut Vec<F>, row: &[u64]) -> Result<(), AllocError>
    ensures added { OnOk result
        (cells.new.items ≡ cells.old.items ++ map (image F.ring) row.now) }
    ensures kept { OnErr result (cells.new.items ≡ cells.old.items) }
{
    cells.reserve(row.len())?;
    for n in row {
        cells.push_reserved(F::from_u64(*n));
    }
    Ok(())
}

impl<F: Field> TraceRows<F> {
    /// No rows yet, of `width` cells each.
    pub fn new(alloc: Global, width: usize) -> Self
        ensures width { result.width ≡ width }
        ensures cells { result.cells.items ≡ [] }
    {
        TraceRows {
            width,
            cells: Vec::new(alloc),
        }
    }

    // Whether a row has the trace's width.
    fn fits(&self, len: usize) -> Result<(), AirError>
        ensures whole { OnOk result (len ≡ self.now.width) }
        ensures refused { IfErr result (RowRefuses len self.now.width) }
    {
        if len == self.width {
            return Ok(());
        }
        Err(AirError::Ragged {
            len,
            width: self.width,
        })
    }

    /// Adds a row. One of another width is refused (`Ragged`). A refusal adds nothing.
    pub fn push(&mut self, row: &[F]) -> Result<(), AirError>
        ensures width { self.new.width ≡ self.old.width }
        ensures whole { OnOk result (length row.now ≡ self.old.width) }
        ensures added { OnOk result (self.new.cells.items ≡ self.old.cells.items ++ row.now) }
        ensures kept { OnErr result (self.new.cells.items ≡ self.old.cells.items) }
        ensures refused { IfErr result (RowRefuses (length row.now) self.old.width) }
    {
        self.fits(row.len())?;
        self.cells.extend_from_slice(row)?;
        Ok(())
    }

    /// Adds a row of whole numbers: one, added n times. A row of another width is refused (`Ragged`). A refusal adds
    /// nothing.
    pub fn push_numbers(&mut self, row: &[u64]) -> Result<(), AirError>
        ensures width { self.new.width ≡ self.old.width }
        ensures whole { OnOk result (length row.now ≡ self.old.width) }
        ensures added { OnOk result (self.new.cells.items
            ≡ self.old.cells.items ++ map (image F.ring) row.now) }
        ensures kept { OnErr result (self.new.cells.items ≡ self.old.cells.items) }
        ensures refused { IfErr result (RowRefuses (length row.now) self.old.width) }
    {
        self.fits(row.len())?;
        push_elements(&mut self.cells, row)?;
        Ok(())
    }

    /// The trace of the rows. It takes no memory, and refuses only cells that don't fill whole rows (`Ragged`).
    pub fn into_trace(self) -> Result<RowMajorMatrix<F>, AirError>
        ensures trace { IfOk result (λ trace. matrix_of self.width self.cells.items ≡ Ok trace) }
        ensures refused { IfErr result (TraceRefuses self.width self.cells.items) }
    {
        let TraceRows { width, cells } = self;
        let trace = RowMajorMatrix::new(cells, width)?;
        Ok(trace)
    }
}

//! A matrix; contracts describe it by its list of rows.
ghost use Rattle.std.specs.Prelude.{◌≡◌, ◌+◌, ◌%◌, ◌<◌, Some, IfSome, Ok, length, slice_get};
ghost use Rattle.std.specs.Option.{option_copied, option_and_then};
ghost use Rattle.air_field.specs.Matrix.{matrix_of};

use crate::errors::MatrixError;
use crate::matrices::view::{RowMajorMatrixView, ViewPair};
use std::marker::Model;

/// The row after a row of a trace of this height; after the last row comes the first.
#[inline(always)]
pub fn row_after(row: usize, height: usize) -> usize
    requires { row < height }
    ensures { result ≡ (row + 1) % height }
{
    if row + 1 == height { 0 } else { row + 1 }
}

/// A matrix of `height` rows of `width` elements each. One of width 0 has no rows.
#[derive(Drop)]
pub struct RowMajorMatrix<T> {
    values: Vec<T>,
    width: usize,
    height: usize,
}

impl<T> Model for RowMajorMatrix<T> {
    ghost use Rattle.std.specs.Prelude.{◌≡◌, ℕ, ◌*◌, length};
    ghost use Rattle.air_field.specs.Grid.{Grid, rows_of};

    ghost Value = { Grid T };

    ghost view = { λ m. record { width = m.width; rows = rows_of m.height m.width m.values.items } };

    ghost invariant = { λ m.
        (length m.values.items ≡ m.height * m.width) × (m.width ≡ 0 → m.height ≡ 0) };
}

impl<T: Copy> RowMajorMatrix<T> {
    /// The matrix of these values, row by row. Fails with `Ragged` unless they make whole rows: unless the width
    /// divides the number of values, or both are 0. Allocates nothing.
    pub fn new(values: Vec<T>, width: usize) -> Result<Self, MatrixError>
        ensures { result ≡ matrix_of width values.items }
    {
        let len = values.len();
        if width == 0 {
            if len != 0 {
                return Err(MatrixError::Ragged { len, width });
            }
            return Ok(RowMajorMatrix {
                values,
                width,
                height: 0,
            });
        }
        if len % width != 0 {
            return Err(MatrixError::Ragged { len, width });
        }
        Ok(RowMajorMatrix {
            values,
            width,
            height: len / width,
        })
    }

    /// The values, row by row.
    pub fn values(&self) -> &[T]
        ensures { matrix_of self.now.width result.now ≡ Ok self.now }
    {
        &self.values
    }

    /// The number of columns.
    pub fn width(&self) -> usize
        ensures { result ≡ self.now.width }
    {
        self.width
    }

    /// The number of rows.
    pub fn height(&self) -> usize
        ensures { result ≡ length self.now.rows }
    {
        self.height
    }

    /// The elements of a row, or `None` past the last row.
    pub fn row_slice(&self, row: usize) -> Option<&[T]>
        ensures row { option_copied result ≡ slice_get self.now.rows row }
        ensures width { IfSome result (λ r. length r.now ≡ self.now.width) }
    {
        if row >= self.height {
            return None;
        }
        let start = row * self.width;
        Some(&self.values[start..start + self.width])
    }

    /// The elements of a row, which must be in range.
    #[inline(always)]
    pub fn row(&self, row: usize) -> &[T]
        requires { row < length self.now.rows }
        ensures row { slice_get self.now.rows row ≡ Some result.now }
        ensures width { length result.now ≡ self.now.width }
    {
        match self.row_slice(row) {
            Some(elements) => elements,
            None => unreachable!(),
        }
    }

    /// A row, which must be in range, and the row after it.
    #[inline(always)]
    pub fn row_pair(&self, row: usize) -> ViewPair<'_, T>
        requires { row < length self.now.rows }
        ensures top { slice_get self.now.rows row ≡ Some result.top.values.now }
        ensures bottom { slice_get self.now.rows ((row + 1) % length self.now.rows) ≡ Some
            result.bottom.values.now }
        ensures width { length result.top.values.now ≡ self.now.width }
    {
        let after = row_after(row, self.height());
        ViewPair::new(
            RowMajorMatrixView::new_row(self.row(row)),
            RowMajorMatrixView::new_row(self.row(after)),
        )
    }

    /// The element at this row and column, or `None` if either is out of range.
    pub fn get(&self, row: usize, column: usize) -> Option<T>
        ensures { result ≡ option_and_then (λ r. slice_get r column) (slice_get self.now.rows row) }
    {
        let row = self.row_slice(row)?;
        row.get(column).copied()
    }
}

//! Matrices of two rows as windows.
use crate::windows::access::WindowAccess;
use air_field::RowMajorMatrix;

impl<T: Copy> WindowAccess<T> for RowMajorMatrix<T> {
    ghost use Rattle.air_field.specs.Grid.{IsTwoRows, first_row_of, second_row_of};
    ghost use Rattle.air_field.specs.laws.Grid.{two_rows_width};

    ghost is_window = { IsTwoRows };

    ghost current_row = { first_row_of };

    ghost next_row = { second_row_of };

    ghost equal_widths = { two_rows_width };

    fn current_slice(&self) -> &[T] {
        match self.row_slice(0) {
            Some(row) => row,
            None => unreachable!(),
        }
    }

    fn next_slice(&self) -> &[T] {
        match self.row_slice(1) {
            Some(row) => row,
            None => unreachable!(),
        }
    }
}

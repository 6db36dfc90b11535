//! Views: borrowed parts of matrices.
ghost use Rattle.std.specs.Prelude.{◌≡◌, length, ⊤};

use std::alloc::AllocError;

/// A borrowed part of a matrix.
#[derive(Clone, Copy, Debug)]
pub struct RowMajorMatrixView<'a, T> {
    pub values: &'a [T],
    pub width: usize,
}

impl<'a, T: Copy> RowMajorMatrixView<'a, T> {
    /// A view of these values, row by row, as rows of `width` elements. Doesn't check that they make whole rows.
    pub fn new(values: &'a [T], width: usize) -> Self
        ensures values { result.values.now ≡ values.now }
        ensures width { result.width ≡ width }
    {
        RowMajorMatrixView { values, width }
    }

    /// One row.
    pub fn new_row(values: &'a [T]) -> Self
        ensures values { result.values.now ≡ values.now }
        ensures width { result.width ≡ length values.now }
    {
        RowMajorMatrixView {
            values,
            width: values.len(),
        }
    }
}

/// Two rows of equal width, each a view.
#[derive(Debug)]
pub struct ViewPair<'a, T> {
    pub top: RowMajorMatrixView<'a, T>,
    pub bottom: RowMajorMatrixView<'a, T>,
    pub ghost top_is_row: { length top.values.now ≡ top.width },
    pub ghost bottom_is_row: { length bottom.values.now ≡ bottom.width },
    pub ghost same_width: { top.width ≡ bottom.width },
}

impl<'a, T: Copy> Copy for ViewPair<'a, T> {}

impl<'a, T: Copy> Clone for ViewPair<'a, T> {
    ghost is_clone = { λ x y. y ≡ x };

    ghost is_infallible = { λ _. ⊤ };

    fn clone(&self) -> Result<Self, AllocError> {
        Ok(*self)
    }
}

impl<'a, T: Copy> ViewPair<'a, T> {
    /// A pair of two views, each of one row, of equal width.
    pub fn new(top: RowMajorMatrixView<'a, T>, bottom: RowMajorMatrixView<'a, T>) -> Self
        requires top_row { length top.values.now ≡ top.width }
        requires bottom_row { length bottom.values.now ≡ bottom.width }
        requires same_width { top.width ≡ bottom.width }
        ensures top { result.top ≡ top.entry }
        ensures bottom { result.bottom ≡ bottom.entry }
    {
        ViewPair { top, bottom }
    }
}

//! A builder at a row, over any fields.

use air_audit::{
    BabyBear, BinomialExtensionField, DebugConstraintBuilder, ExtensionField, Field,
    RowMajorMatrixView, ViewPair,
};
use std::alloc::Global;

/// The extension that the tests use.
pub type Element = BinomialExtensionField;

/// A builder at a row.
pub type Row<'a, F, EF> = DebugConstraintBuilder<'a, F, EF>;

/// A builder at row 7 of a trace without columns, with these permutation data.
pub fn row_with<'a, F: Field, EF: ExtensionField<F>>(
    alloc: Global,
    permutation: ViewPair<'a, EF>,
) -> Row<'a, F, EF> {
    let none = RowMajorMatrixView::new_row(&[]);
    let rows = ViewPair::new(none, none);
    DebugConstraintBuilder::new_with_permutation(
        alloc,
        7,
        rows,
        rows,
        &[],
        F::ZERO,
        F::ZERO,
        F::ONE,
        permutation,
        &[],
        &[],
        Vec::new(alloc),
    )
}

/// No permutation data.
pub fn no_rows<'a>() -> ViewPair<'a, Element> {
    let none = RowMajorMatrixView::new_row(&[]);
    ViewPair::new(none, none)
}

/// `x` times the root of the extension.
pub fn root_times(x: u32) -> Element {
    Element::from_basis_coefficients(&[0, x, 0, 0].map(BabyBear::new))
}

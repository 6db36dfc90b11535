//! The row of a folder.

use air_audit::RowWindow;
use air_core::Selectors;

/// A borrowed row and the next one, of the main and the preprocessed trace, with the values of the periodic columns,
/// the public values and the selectors.
#[derive(Drop)]
pub(crate) struct Row<'a, EF: Copy> {
    pub(crate) main: RowWindow<'a, EF>,
    pub(crate) preprocessed: RowWindow<'a, EF>,
    pub(crate) periodic: &'a [EF],
    pub(crate) public_values: &'a [EF],
    pub(crate) selectors: Selectors<EF>,
}

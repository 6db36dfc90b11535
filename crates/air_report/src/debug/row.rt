//! The row of a debug builder.
ghost use Rattle.air_report.specs.DebugRow.{IsRow};

use air_builder::RowWindow;
use air_core::Selectors;
use air_field::{Field, ViewPair};

/// A row of a trace and the next one, borrowed: of the main and of the preprocessed trace, with the public values and
/// the selectors. The values of the periodic columns are in the builder's own list.
#[derive(Drop)]
pub(crate) struct Row<'a, F: Field> {
    pub(crate) index: usize,
    pub(crate) main: ViewPair<'a, F>,
    pub(crate) preprocessed: RowWindow<'a, F>,
    pub(crate) public_values: &'a [F],
    pub(crate) selectors: Selectors<F>,
}

impl<'a, F: Field> Row<'a, F> {
    /// The row of this index: the pairs hold that row and the next one.
    #[inline(always)]
    pub(crate) fn new(
        index: usize,
        main: ViewPair<'a, F>,
        preprocessed: ViewPair<'a, F>,
        public_values: &'a [F],
        selectors: Selectors<F>,
    ) -> Self
        ensures { IsRow index main.entry preprocessed.entry public_values.now selectors result }
    {
        Row {
            index,
            main,
            preprocessed: RowWindow::from_two_rows(
                preprocessed.top.values,
                preprocessed.bottom.values,
            ),
            public_values,
            selectors,
        }
    }
}

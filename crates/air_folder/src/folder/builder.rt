//! The folder: it holds the values of one row, and folds the values of assertions.
ghost use Rattle.std.specs.Prelude.{◌≡◌};
ghost use Rattle.air_folder.specs.FolderRow.{StartsAt, accumulator_of};

use crate::folder::ring::FolderRing;
use crate::folder::row::Row;
use air_audit::{ExtensionField, Field, RowWindow, ViewPair};
use air_core::Selectors;
use std::marker::PhantomData;

/// Evaluates constraints on one row with values in the extension `EF`, and folds them: after the values v1 to vK, the
/// accumulator is the sum of alpha^(K-i) times vi. It borrows the rows and the values, and takes no memory.
#[derive(Drop)]
pub struct ConstraintFolder<'a, F: Field, EF: ExtensionField<F>> {
    pub(crate) row: Row<'a, EF>,
    pub(crate) permutation: Option<ViewPair<'a, EF>>,
    pub(crate) challenges: &'a [EF],
    pub(crate) permutation_values: &'a [EF],
    pub(crate) alpha: EF,
    pub(crate) accumulator: EF,
    pub(crate) ring: FolderRing<F, EF>,
    // zero-sized: the prover finds the borrow of the ring only if some field borrows exclusively
    exclusive: PhantomData<&'a mut EF>,
}

impl<'a, F: Field, EF: ExtensionField<F>> ConstraintFolder<'a, F, EF> {
    /// A folder at a row and the next one, both in the pairs, that has folded nothing yet. The permutation trace is
    /// optional.
    pub fn new(
        main: ViewPair<'a, EF>,
        preprocessed: ViewPair<'a, EF>,
        permutation: Option<ViewPair<'a, EF>>,
        public_values: &'a [EF],
        periodic: &'a [EF],
        challenges: &'a [EF],
        permutation_values: &'a [EF],
        is_first_row: EF,
        is_last_row: EF,
        is_transition: EF,
        alpha: EF,
    ) -> Self
        ensures { StartsAt main.entry preprocessed.entry permutation.entry public_values.now
            periodic.now challenges.now permutation_values.now is_first_row is_last_row
            is_transition alpha EF.over.ring.zero result }
    {
        let selectors = Selectors {
            is_first_row,
            is_last_row,
            is_transition,
        };
        let row = Row {
            main: RowWindow::from_two_rows(main.top.values, main.bottom.values),
            preprocessed: RowWindow::from_two_rows(
                preprocessed.top.values,
                preprocessed.bottom.values,
            ),
            periodic,
            public_values,
            selectors,
        };
        ConstraintFolder {
            row,
            permutation,
            challenges,
            permutation_values,
            alpha,
            accumulator: EF::zero(),
            ring: FolderRing::new(),
            exclusive: PhantomData,
        }
    }

    /// The fold of all assertions so far, in order.
    pub fn accumulator(&self) -> EF
        ensures { result ≡ accumulator_of self.now }
    {
        self.accumulator
    }
}

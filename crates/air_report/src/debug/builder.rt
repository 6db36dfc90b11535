//! The debug builder: it holds the values of one row, and evaluates assertions there.
ghost use Rattle.std.specs.Prelude.{◌≡◌, ◌≢◌, ◌↔◌, IsTrue, [], None, Some, IfOk, IfErr, IfSome, string_bytes};
ghost use Rattle.air_report.specs.DebugRow.{IsAtRow, IsMovedTo, StandsAt, counted_from, failures_of};
ghost use Rattle.air_report.specs.FailureTexts.{failures_text};

use crate::debug::failure::{ConstraintFailure, failures_text};
use crate::debug::row::Row;
use air_builder::{AirError, RowWindow};
use air_core::Selectors;
use air_field::{ExtFieldRing, ExtensionField, Field, FieldRing, RowMajorMatrixView, ViewPair};
use std::alloc::Global;

/// Evaluates constraints on one row: base constraints in `F`, extension constraints in `EF`. It borrows the rows and
/// the values, and owns only the periodic row.
#[derive(Drop)]
pub struct DebugConstraintBuilder<'a, F: Field, EF: ExtensionField<F>> {
    pub(crate) row: Row<'a, F>,
    pub(crate) periodic_row: Vec<F>,
    pub(crate) permutation: Option<ViewPair<'a, EF>>,
    pub(crate) permutation_challenges: &'a [EF],
    pub(crate) permutation_values: &'a [EF],
    pub(crate) ring: FieldRing<F>,
    pub(crate) ext_ring: ExtFieldRing<F, EF>,
    pub(crate) constraint_index: usize,
    pub(crate) failures: Vec<ConstraintFailure>,
}

impl<'a, F: Field + ExtensionField<F>> DebugConstraintBuilder<'a, F, F> {
    /// A builder at the row of this index, without permutation data: the pairs hold that row and the next one. Never
    /// allocates.
    pub fn new(
        alloc: Global,
        row_index: usize,
        main: ViewPair<'a, F>,
        preprocessed: ViewPair<'a, F>,
        public_values: &'a [F],
        is_first_row: F,
        is_last_row: F,
        is_transition: F,
        periodic_row: Vec<F>,
    ) -> Self
        ensures { IsAtRow row_index main.entry preprocessed.entry public_values.now is_first_row
            is_last_row is_transition periodic_row None [] [] [] result }
    {
        let selectors = Selectors {
            is_first_row,
            is_last_row,
            is_transition,
        };
        let row = Row::new(row_index, main, preprocessed, public_values, selectors);
        Self::at_row(alloc, row, periodic_row)
    }
}

impl<'a, F: Field, EF: ExtensionField<F>> DebugConstraintBuilder<'a, F, EF> {
    /// A builder that isn't at a row yet: it has no columns and no failures. Never allocates.
    #[inline(always)]
    pub(crate) fn at_no_row(alloc: Global) -> Self
        ensures counter { result.constraint_index ≡ 0 }
        ensures failures { result.failures.items ≡ [] }
    {
        let none = RowMajorMatrixView::new_row(&[]);
        DebugConstraintBuilder {
            row: Row {
                index: 0,
                main: ViewPair::new(none, none),
                preprocessed: RowWindow::from_two_rows(&[], &[]),
                public_values: &[],
                selectors: Selectors {
                    is_first_row: F::ZERO,
                    is_last_row: F::ZERO,
                    is_transition: F::ZERO,
                },
            },
            periodic_row: Vec::new(alloc),
            permutation: None,
            permutation_challenges: &[],
            permutation_values: &[],
            ring: FieldRing::new(),
            ext_ring: ExtFieldRing::new(),
            constraint_index: 0,
            failures: Vec::new(alloc),
        }
    }

    /// Moves to a row, without permutation data, and resets the counter. The failures stay, and so do the periodic
    /// values, which must already be those of the new row.
    #[inline(always)]
    pub(crate) fn move_to(&mut self, row: Row<'a, F>)
        ensures { StandsAt row.entry self.old.periodic_row self.old.failures.items self.new }
    {
        self.row = row;
        self.permutation = None;
        self.permutation_challenges = &[];
        self.permutation_values = &[];
        self.constraint_index = 0;
    }

    /// Moves to a row with permutation data, as `move_to` does without.
    #[inline(always)]
    pub(crate) fn move_to_permuted(
        &mut self,
        row: Row<'a, F>,
        permutation: ViewPair<'a, EF>,
        permutation_challenges: &'a [EF],
        permutation_values: &'a [EF],
    )
        ensures { IsMovedTo row.entry self.old.periodic_row (Some permutation.entry)
            permutation_challenges.now permutation_values.now self.old.failures.items self.new }
    {
        self.row = row;
        self.permutation = Some(permutation);
        self.permutation_challenges = permutation_challenges;
        self.permutation_values = permutation_values;
        self.constraint_index = 0;
    }

    /// A builder at a row, without permutation data, and without failures.
    fn at_row(alloc: Global, row: Row<'a, F>, periodic_row: Vec<F>) -> Self
        ensures { StandsAt row.entry periodic_row [] result }
    {
        let mut builder = Self::at_no_row(alloc);
        builder.periodic_row = periodic_row;
        builder.move_to(row);
        builder
    }

    /// A builder at the row of this index, with the two rows of the permutation trace, the challenges, and the values
    /// that the permutation argument exposes. Never allocates.
    pub fn new_with_permutation(
        alloc: Global,
        row_index: usize,
        main: ViewPair<'a, F>,
        preprocessed: ViewPair<'a, F>,
        public_values: &'a [F],
        is_first_row: F,
        is_last_row: F,
        is_transition: F,
        permutation: ViewPair<'a, EF>,
        permutation_challenges: &'a [EF],
        permutation_values: &'a [EF],
        periodic_row: Vec<F>,
    ) -> Self
        ensures { IsAtRow row_index main.entry preprocessed.entry public_values.now is_first_row
            is_last_row is_transition periodic_row (Some permutation.entry)
            permutation_challenges.now permutation_values.now [] result }
    {
        let selectors = Selectors {
            is_first_row,
            is_last_row,
            is_transition,
        };
        let row = Row::new(row_index, main, preprocessed, public_values, selectors);
        DebugConstraintBuilder {
            permutation: Some(permutation),
            permutation_challenges,
            permutation_values,
            ..Self::at_row(alloc, row, periodic_row)
        }
    }

    /// The builder with its counter set to a number, for example to continue where another builder stopped.
    pub fn counting_from(self, count: usize) -> Self
        ensures { result ≡ counted_from self.entry count }
    {
        let mut builder = self;
        builder.constraint_index = count;
        builder
    }

    /// Whether an assertion failed.
    pub fn has_failures(&self) -> bool
        ensures { IsTrue result ↔ ((failures_of self.now).items ≢ []) }
    {
        !self.failures.is_empty()
    }

    /// The failures, in order.
    pub fn failures(&self) -> &[ConstraintFailure]
        ensures { result.now ≡ (failures_of self.now).items }
    {
        self.failures.as_slice()
    }

    /// The failures in brackets, joined by `, `, as `[#0, #2 "label"]`. If a label isn't ASCII, the text is
    /// unspecified.
    pub fn formatted_failures(&self) -> Result<String, AirError>
        ensures text { IfOk result (λ text. IfSome (failures_text (failures_of self.now).items)
            (λ bytes. string_bytes text ≡ bytes)) }
        ensures refused { IfErr result (λ e. e ≡ AirError.Memory) }
    {
        let text = failures_text(*self.failures.allocator(), &self.failures)?;
        Ok(text)
    }

    /// The failures, in order.
    pub fn into_failures(self) -> Vec<ConstraintFailure>
        ensures { result ≡ failures_of self.entry }
    {
        let DebugConstraintBuilder { failures, .. } = self;
        failures
    }
}

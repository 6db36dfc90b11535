//! AIRs.
ghost use Rattle.std.specs.Prelude.{◌≡◌, None, false, length, IfOk, IfErr, OnOk, ⊤};
ghost use Rattle.std.specs.List.{range_with_len};
ghost use Rattle.std.specs.Option.{option_copied};
ghost use Rattle.air_builder.specs.Batches.{Evaluates};
ghost use Rattle.air_builder.specs.Declaration.{Declaration, table_width};
ghost use Rattle.air_core.specs.Periodic.{MatchPeriodicMatrix, MatchPeriodicValues};

use crate::airs::columns::columns_below;
use crate::builders::air_builder::AirBuilder;
use crate::builders::view::View;
use air_core::boundary::BoundaryPublic;
use air_core::errors::AirError;
use air_core::periodic::{periodic_matrix, periodic_row};
use air_field::RowMajorMatrix;
use std::alloc::Global;

/// What an AIR declares. Apart from `Memory`, each answer depends only on the AIR's value. The default lists and hints
/// are guaranteed only where the AIR doesn't override them.
pub trait BaseAir<F: Copy> {
    /// Its constraints, in order: base or extension terms, the same for all builders; the number of columns and of
    /// public values; the preprocessed trace, the periodic columns and the boundary values.
    ghost declaration: { Self → Declaration F };

    /// Set this to ⊤ when you override `main_next_row_columns`, and give the override its own contract. The next four
    /// work alike. A method that isn't overridden keeps its promise.
    ghost has_own_next_row_columns: { Self → Type 0 } = { λ _. ⊥ };

    /// As above, for `preprocessed_next_row_columns`.
    ghost has_own_preprocessed_columns: { Self → Type 0 } = { λ _. ⊥ };

    /// As above, for `num_constraints`.
    ghost has_own_constraint_count: { Self → Type 0 } = { λ _. ⊥ };

    /// As above, for `max_constraint_degree`.
    ghost has_own_degree_bound: { Self → Type 0 } = { λ _. ⊥ };

    /// As above, for `assumes_boolean_trace`.
    ghost has_own_boolean_trace: { Self → Type 0 } = { λ _. ⊥ };

    /// The number of columns of the main trace.
    fn width(&self) -> usize
        ensures { result ≡ (declaration self.now).width };

    /// The number of public values.
    fn num_public_values(&self) -> usize
        ensures { result ≡ (declaration self.now).num_public_values };

    /// The preprocessed trace, if there is one. A check compares its height with that of the main trace.
    fn preprocessed_trace(&self) -> Option<&RowMajorMatrix<F>>
        ensures { option_copied result ≡ (declaration self.now).preprocessed };

    /// The number of columns of the preprocessed trace, 0 without one.
    fn preprocessed_width(&self) -> usize
        ensures { result ≡ table_width (declaration self.now).preprocessed }
    {
        match self.preprocessed_trace() {
            Some(table) => table.width(),
            None => 0,
        }
    }

    /// The periodic columns, each the values of one period.
    fn periodic_columns(&self) -> &[Vec<F>]
        ensures { result.now ≡ (declaration self.now).periodic };

    /// The number of periodic columns.
    fn num_periodic_columns(&self) -> usize
        ensures { result ≡ length (declaration self.now).periodic }
    {
        self.periodic_columns().len()
    }

    /// Each periodic column's value at the row: the column at the row modulo its length. `EmptyPeriodicColumn` names
    /// the first empty column.
    fn periodic_values(&self, alloc: Global, row_index: usize) -> Result<Vec<F>, AirError>
        ensures { MatchPeriodicValues (declaration self.now).periodic row_index result }
    {
        periodic_row(alloc, self.periodic_columns(), row_index)
    }

    /// The periodic columns as a matrix with as many rows as the greatest period; None without columns.
    /// `EmptyPeriodicColumn` names the first empty column, where another column isn't empty.
    fn periodic_columns_matrix(&self, alloc: Global) -> Result<Option<RowMajorMatrix<F>>, AirError>
        ensures { MatchPeriodicMatrix (declaration self.now).periodic result }
    {
        periodic_matrix(alloc, self.periodic_columns())
    }

    /// The columns of the main trace whose next row the constraints read; by default all of them.
    ///
    /// # Correctness
    ///
    /// A prover opens the next row of only these columns. If an override leaves out a column that a constraint reads
    /// there, proofs fail, or nothing binds that column's next value: proofs may then be accepted for traces that break
    /// the constraint. No check here compares the list with the constraints.
    fn main_next_row_columns(&self, alloc: Global) -> Result<Vec<usize>, AirError>
        ensures all { (has_own_next_row_columns self.now → ⊥) → IfOk result
            (λ columns. columns.items ≡ range_with_len 0 (declaration self.now).width) }
        ensures refused { IfErr result (λ e. e ≡ AirError.Memory) }
    {
        columns_below(alloc, self.width())
    }

    /// The columns of the preprocessed trace whose next row the constraints read; by default all of them.
    ///
    /// # Correctness
    ///
    /// As for [`BaseAir::main_next_row_columns`].
    fn preprocessed_next_row_columns(&self, alloc: Global) -> Result<Vec<usize>, AirError>
        ensures all { (has_own_preprocessed_columns self.now → ⊥) → IfOk result
            (λ columns. columns.items ≡ range_with_len 0
            (table_width (declaration self.now).preprocessed)) }
        ensures refused { IfErr result (λ e. e ≡ AirError.Memory) }
    {
        columns_below(alloc, self.preprocessed_width())
    }

    /// The number of constraints, base and extension together, where the AIR states it. A caller then needn't record
    /// the AIR to count them.
    ///
    /// # Correctness
    ///
    /// It must be the exact number of constraints that `eval` asserts. A prover that weighs the constraints by powers
    /// of alpha trusts it: with a wrong number its proofs are invalid. No check here compares the two.
    fn num_constraints(&self) -> Option<usize>
        ensures { (has_own_constraint_count self.now → ⊥) → result ≡ None }
    {
        None
    }

    /// A bound on the constraints' degree, where the AIR gives one. Nothing here reads it: degrees are inferred from
    /// the recorded constraints. A prover that takes the greater of the bound and the inferred degree is not harmed by
    /// a bound that is too small, and works more with one that is too great.
    fn max_constraint_degree(&self) -> Option<usize>
        ensures { (has_own_degree_bound self.now → ⊥) → result ≡ None }
    {
        None
    }

    /// The boundary values: cells of the main trace that are to hold public values.
    ///
    /// # Correctness
    ///
    /// Listing a cell binds nothing by itself: no constraint is asserted for it. A check or an audit compares the cell
    /// with its public value, and a prover may do so; a prover that ignores boundary values proves nothing about them.
    /// Where that matters, assert the equality under the first or the last row. If an AIR is evaluated inside another,
    /// the outer AIR must list the inner one's cells again, with the columns that they have there.
    fn public_boundary_io(&self) -> &[BoundaryPublic]
        ensures { result.now ≡ (declaration self.now).cells };

    /// Whether the AIR is sound only if each cell of the main trace is a bit, which its constraints don't enforce.
    ///
    /// # Correctness
    ///
    /// A hint: no prover, check or audit here reads it. Whoever proves an AIR that answers true must ensure the bits,
    /// by a commitment that can hold nothing else, or reject the AIR.
    fn assumes_boolean_trace(&self) -> bool
        ensures { (has_own_boolean_trace self.now → ⊥) → result ≡ false }
    {
        false
    }
}

/// An AIR for builders of one type.
///
/// `eval` asserts the declared list. It is Ok only after the builder grew by the whole list, and only if no declared
/// term names an entry that the builder lacks. It fails only as the builder's `refuses` allows of that list, or with
/// the AIR's own `Memory`. After a failure the builder has grown by a strict prefix of the list.
pub trait Air<AB: AirBuilder>: BaseAir<AB::F> {
    /// What the AIR says of its labels: a relation of the builders before and after an `eval` that is Ok. By default
    /// it says nothing.
    ghost labels: { Self → AB → AB → Type 0 } = { λ _ _ _. ⊤ };

    /// Asserts the constraints on the builder, in the order of the declared list.
    fn eval(&self, builder: &mut AB) -> Result<(), AirError>
        requires { AB.ready builder.old }
        ensures evaluated { Evaluates ⟦<AB as View>⟧.view builder.old builder.new result
            (Self.declaration self.now).constraints }
        ensures labelled { OnOk result (labels self.now builder.old builder.new) };
}

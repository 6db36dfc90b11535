//! The interface of builders.
ghost use Rattle.std.specs.Prelude.{◌≡◌, ◌↔◌, ◌≤◌, List, [], ◌∷◌, None, length, All, IfOk, IfErr, IfSome, IsOk};
ghost use Rattle.std.specs.List.{zip};
ghost use Rattle.std.specs.Borrow.{sem, Lends};
ghost use Rattle.air_field.specs.Algebra.{MadeOf, RefusedOf, bool_check_term};
ghost use Rattle.air_field.specs.Term.{Leaf, preprocessed, main, periodic, public, first_row, last_row, transition, Term, leaf_term, sub_term};
ghost use Rattle.air_builder.specs.Assertion.{Assertion, Base};
ghost use Rattle.air_builder.specs.Builders.{MeansIn, MeansOfBoth, RefusesPartOfBoth, RowReadsAs, VariableReadsAs, BuilderLaws, less_one_term};
ghost use Rattle.air_builder.specs.Batches.{Asserts, AssertsBoth};
ghost use Rattle.air_builder.specs.Filters.{FiltersBy, condition_of};
ghost use Rattle.air_builder.specs.Refusals.{RowEnds};
ghost use Rattle.air_core.specs.declared.errors.AirError.{AirError};

use crate::builders::filtered::FilteredAirBuilder;
use crate::builders::view::View;
use air_core::errors::AirError;
use air_core::windows::access::WindowAccess;
use air_field::{Algebra, Field, FromVar, RingError};

/// x - 1
#[inline(always)]
pub(crate) fn less_one<F: Field, R: Algebra<F>>(
    ring: &mut R,
    x: R::Elem,
) -> Result<R::Elem, RingError>
    requires { R.has ring.old x }
    ensures extended { R.extends ring.old ring.new }
    ensures made { IfOk result (MadeOf R.has R.means (less_one_term F.ONE) ring.old ring.new x) }
    ensures refused { IfErr result (RefusedOf R.means R.refuses (less_one_term F.ONE) ring.old x) }
{
    let one = ring.constant(F::ONE)?;
    ring.sub(x, one)
}

/// Receives the constraints of an AIR. An AIR is written once against this interface: a builder records the constraints
/// as expressions, evaluates them on a row, or folds their values. Builders differ in how they read a leaf; in every
/// builder an assertion adds its term to the list, and nothing else.
pub trait AirBuilder {
    /// The field of the trace.
    type F: Field;

    /// The expressions that are asserted: elements of the builder's ring.
    type Expr: Copy;

    /// The entries of the main and of the preprocessed trace.
    type Var: Copy;

    /// The public values.
    type PublicVar: Copy;

    /// The values of the periodic columns.
    type PeriodicVar: Copy;

    /// The window of the preprocessed trace.
    type PreprocessedWindow: WindowAccess<Self::Var>;

    /// The window of the main trace.
    type MainWindow: WindowAccess<Self::Var> + Drop;

    /// The ring in which expressions are made.
    type Ring: Algebra<Self::F, Elem = Self::Expr>
        + FromVar<Self::F, Self::Var>
        + FromVar<Self::F, Self::PublicVar>
        + FromVar<Self::F, Self::PeriodicVar>;

    /// The ring in which this builder's expressions are made.
    ghost ring_of: { Self → Self.Ring };

    /// The builder with another ring.
    ghost with_ring: { Self → Self.Ring → Self };

    /// How this builder reads a leaf: as itself where constraints are recorded, as a constant where a row is evaluated.
    ghost reads_as: { Self → Leaf → Term Self.F };

    /// The ring is as the builder left it, or extends that.
    ghost ready: { Self → Type 0 };

    /// The second builder keeps the first one's leaves, and every element still means its term.
    ghost kept: { Self → Self → Type 0 };

    /// The builder grew by a list of assertions.
    ghost grew: { Self → Self → List (Assertion Self.F) → Type 0 };

    /// The builder has no entry for the leaf.
    ghost missing: { Self → Leaf → Type 0 };

    /// Growing by these assertions may fail with this error.
    ghost refuses: { Self → AirError → List (Assertion Self.F) → Type 0 };

    /// The ring in which this builder's expressions are made. The caller must leave an extension of the lent ring
    /// there.
    fn ring(&mut self) -> &mut Self::Ring
        ensures* lends { sem 𝓛 (Lends Self.row Self.Ring.row self.entry result
            (with_ring self.old)) }
        ensures value { result.now ≡ ring_of self.old };

    /// The number of rows of a window.
    const WINDOW: usize = 2;

    /// The window of the main trace. A builder that allocates its window may fail with `Memory`.
    fn main(&self) -> Result<Self::MainWindow, AirError>
        ensures window { IfOk result Self.MainWindow.is_window }
        ensures current { IfOk result (λ w. RowReadsAs Self.Ring.FromVar-1.var_means
            (λ i. reads_as self.now (main 0 i)) (Self.MainWindow.current_row w)) }
        ensures next { IfOk result (λ w. RowReadsAs Self.Ring.FromVar-1.var_means
            (λ i. reads_as self.now (main 1 i)) (Self.MainWindow.next_row w)) }
        ensures current_ends { IfOk result (λ w. RowEnds (missing self.now) (λ i. main 0 i)
            (Self.MainWindow.current_row w)) }
        ensures next_ends { IfOk result (λ w. RowEnds (missing self.now) (λ i. main 1 i)
            (Self.MainWindow.next_row w)) }
        ensures refused { IfErr result (λ e. refuses self.now e []) };

    /// The variable in a column of the main trace, if there is one: at offset 0 the current row's, at 1 the next row's.
    /// Never allocates, where `main` may.
    fn main_variable(&self, offset: usize, column: usize) -> Option<Self::Var>
        ensures found { IfSome result (VariableReadsAs Self.Ring.FromVar-1.var_means
            (reads_as self.now) (main offset column)) }
        ensures none { (result ≡ None) ↔ missing self.now (main offset column) };

    /// The window of the preprocessed trace; it has no columns if there is no preprocessed trace.
    fn preprocessed(&self) -> &Self::PreprocessedWindow
        ensures window { Self.PreprocessedWindow.is_window result.now }
        ensures current { RowReadsAs Self.Ring.FromVar-1.var_means
            (λ i. reads_as self.now (preprocessed 0 i))
            (Self.PreprocessedWindow.current_row result.now) }
        ensures next { RowReadsAs Self.Ring.FromVar-1.var_means
            (λ i. reads_as self.now (preprocessed 1 i))
            (Self.PreprocessedWindow.next_row result.now) }
        ensures current_ends { RowEnds (missing self.now) (λ i. preprocessed 0 i)
            (Self.PreprocessedWindow.current_row result.now) }
        ensures next_ends { RowEnds (missing self.now) (λ i. preprocessed 1 i)
            (Self.PreprocessedWindow.next_row result.now) };

    /// The variable in a column of the preprocessed trace, if there is one: at offset 0 the current row's, at 1 the
    /// next row's. Never allocates.
    #[inline(always)]
    fn preprocessed_variable(&self, offset: usize, column: usize) -> Option<Self::Var>
        ensures found { IfSome result (VariableReadsAs Self.Ring.FromVar-1.var_means
            (reads_as self.now) (preprocessed offset column)) }
        ensures none { (result ≡ None) ↔ missing self.now (preprocessed offset column) }
    {
        match offset {
            0 => self.preprocessed().current(column),
            1 => self.preprocessed().next(column),
            _ => None,
        }
    }

    /// The public values.
    fn public_values(&self) -> &[Self::PublicVar]
        ensures reads_as { RowReadsAs Self.Ring.FromVar-2.var_means
            (λ i. reads_as self.now (public i)) result.now }
        ensures ends { RowEnds (missing self.now) public result.now };

    /// The values of the periodic columns.
    fn periodic_values(&self) -> &[Self::PeriodicVar]
        ensures reads_as { RowReadsAs Self.Ring.FromVar-3.var_means
            (λ i. reads_as self.now (periodic i)) result.now }
        ensures ends { RowEnds (missing self.now) periodic result.now };

    /// One on the first row, else zero.
    fn is_first_row(&mut self) -> Result<Self::Expr, AirError>
        requires { ready self.old }
        ensures always { IsOk result }
        ensures keeps { grew self.old self.new [] }
        ensures ok { IfOk result (λ x. MeansIn ⟦<Self as View>⟧.view self.new x
            (leaf_term first_row)) };

    /// One on the last row, else zero.
    fn is_last_row(&mut self) -> Result<Self::Expr, AirError>
        requires { ready self.old }
        ensures always { IsOk result }
        ensures keeps { grew self.old self.new [] }
        ensures ok { IfOk result (λ x. MeansIn ⟦<Self as View>⟧.view self.new x
            (leaf_term last_row)) };

    /// Zero on the last row, else one.
    fn is_transition(&mut self) -> Result<Self::Expr, AirError>
        requires { ready self.old }
        ensures always { IsOk result }
        ensures keeps { grew self.old self.new [] }
        ensures ok { IfOk result (λ x. MeansIn ⟦<Self as View>⟧.view self.new x
            (leaf_term transition)) };

    /// The transition selector of windows of `size` rows, which must be at most 2: zero on the last row, else one.
    #[inline(always)]
    fn is_transition_window(&mut self, size: usize) -> Result<Self::Expr, AirError>
        requires ready { ready self.old }
        requires within { size ≤ 2 }
        ensures always { IsOk result }
        ensures keeps { grew self.old self.new [] }
        ensures ok { IfOk result (λ x. MeansIn ⟦<Self as View>⟧.view self.new x
            (leaf_term transition)) }
    {
        prove!(size <= 2);
        self.is_transition()
    }

    /// x - y in the builder's ring. The builder grows by nothing, even if this fails.
    #[inline(always)]
    final fn difference(&mut self, x: Self::Expr, y: Self::Expr) -> Result<Self::Expr, AirError>
    where
        Self: Sized,
        requires ready { ready self.old }
        requires x_in { Self.Ring.has (ring_of self.old) x }
        requires y_in { Self.Ring.has (ring_of self.old) y }
        ensures keeps { grew self.old self.new [] }
        ensures of_ring { IfOk result (λ z. Self.Ring.has (ring_of self.new) z) }
        ensures made { IfOk result (λ z. MeansOfBoth (MeansIn ⟦<Self as View>⟧.view) sub_term
            self.old self.new x y z) }
        ensures refused { IfErr result (RefusesPartOfBoth ⟦<Self as View>⟧.view sub_term self.old x
            y) }
    {
        let difference = self.ring().sub(x, y)?;
        Ok(difference)
    }

    /// Asserts that `x` is zero: growth by its one term.
    fn assert_zero(&mut self, x: Self::Expr) -> Result<(), AirError>
        requires ready { ready self.old }
        requires of_ring { Self.Ring.has (ring_of self.old) x }
        ensures { Asserts ⟦<Self as View>⟧.view Base (λ t. t) self.old self.new (x ∷ []) result };

    /// Asserts that `x` is one: growth by x - 1.
    #[inline(always)]
    final fn assert_one(&mut self, x: Self::Expr) -> Result<(), AirError>
        requires ready { ready self.old }
        requires of_ring { Self.Ring.has (ring_of self.old) x }
        ensures { Asserts ⟦<Self as View>⟧.view Base (less_one_term Self.F.ONE) self.old self.new
            (x ∷ []) result }
    {
        let less = less_one(self.ring(), x)?;
        self.assert_zero(less)
    }

    /// Asserts that `x` and `y` are equal: growth by x - y.
    #[inline(always)]
    final fn assert_eq(&mut self, x: Self::Expr, y: Self::Expr) -> Result<(), AirError>
        requires ready { ready self.old }
        requires x_in { Self.Ring.has (ring_of self.old) x }
        requires y_in { Self.Ring.has (ring_of self.old) y }
        ensures { AssertsBoth ⟦<Self as View>⟧.view Base sub_term self.old self.new ((x, y) ∷ [])
            result }
    {
        let z = self.ring().sub(x, y)?;
        self.assert_zero(z)
    }

    /// Asserts that `x` is zero or one: growth by x (x - 1).
    #[inline(always)]
    final fn assert_bool(&mut self, x: Self::Expr) -> Result<(), AirError>
        requires ready { ready self.old }
        requires of_ring { Self.Ring.has (ring_of self.old) x }
        ensures { Asserts ⟦<Self as View>⟧.view Base (bool_check_term Self.F.ONE) self.old
            self.new (x ∷ []) result }
    {
        let check = self.ring().bool_check(x)?;
        self.assert_zero(check)
    }

    /// Asserts that each element is zero, in order.
    final fn assert_zeros_slice(&mut self, elements: &[Self::Expr]) -> Result<(), AirError>
        requires ready { ready self.old }
        requires of_ring { All (Self.Ring.has (ring_of self.old)) elements.now }
        ensures { Asserts ⟦<Self as View>⟧.view Base (λ t. t) self.old self.new elements.now
            result }
    {
        for element in elements {
            self.assert_zero(*element)?;
        }
        Ok(())
    }

    /// Asserts that each element is zero or one, in order.
    final fn assert_bools_slice(&mut self, elements: &[Self::Expr]) -> Result<(), AirError>
        requires ready { ready self.old }
        requires of_ring { All (Self.Ring.has (ring_of self.old)) elements.now }
        ensures { Asserts ⟦<Self as View>⟧.view Base (bool_check_term Self.F.ONE) self.old
            self.new elements.now result }
    {
        for element in elements {
            self.assert_bool(*element)?;
        }
        Ok(())
    }

    /// Asserts that the elements at each index are equal, in order. Both lists must have the same length.
    final fn assert_eq_slices(
        &mut self,
        left: &[Self::Expr],
        right: &[Self::Expr],
    ) -> Result<(), AirError>
        requires ready { ready self.old }
        requires same_length { length left.now ≡ length right.now }
        requires left_in { All (Self.Ring.has (ring_of self.old)) left.now }
        requires right_in { All (Self.Ring.has (ring_of self.old)) right.now }
        ensures { AssertsBoth ⟦<Self as View>⟧.view Base sub_term self.old self.new
            (zip left.now right.now) result }
    {
        for (i, x) in left.iter().enumerate() {
            self.assert_eq(*x, right[i])?;
        }
        Ok(())
    }

    /// A filter with this condition: each constraint that is asserted on the filter is asserted here times `condition`.
    /// Never fails.
    #[inline(always)]
    final fn when(
        &mut self,
        condition: Self::Expr,
    ) -> Result<FilteredAirBuilder<'_, Self>, AirError>
    where
        Self: Sized,
        ensures always { IsOk result }
        ensures same_reference { IfOk result (λ f. f.inner.ghost_name ≡ self.entry.ghost_name) }
        ensures inner { IfOk result (λ f. f.inner.now ≡ self.old) }
        ensures condition { IfOk result (λ f. condition_of f ≡ condition) }
    {
        Ok(FilteredAirBuilder::new(self, condition))
    }

    /// A filter on the first row.
    #[inline(always)]
    final fn when_first_row(&mut self) -> Result<FilteredAirBuilder<'_, Self>, AirError>
    where
        Self: Sized,
        requires { ready self.old }
        ensures { FiltersBy ⟦<Self as View>⟧.view first_row self.old self.entry.ghost_name result }
    {
        let condition = self.is_first_row()?;
        self.when(condition)
    }

    /// A filter on the last row.
    #[inline(always)]
    final fn when_last_row(&mut self) -> Result<FilteredAirBuilder<'_, Self>, AirError>
    where
        Self: Sized,
        requires { ready self.old }
        ensures { FiltersBy ⟦<Self as View>⟧.view last_row self.old self.entry.ghost_name result }
    {
        let condition = self.is_last_row()?;
        self.when(condition)
    }

    /// A filter on all rows but the last.
    #[inline(always)]
    final fn when_transition(&mut self) -> Result<FilteredAirBuilder<'_, Self>, AirError>
    where
        Self: Sized,
        requires { ready self.old }
        ensures { FiltersBy ⟦<Self as View>⟧.view transition self.old self.entry.ghost_name result }
    {
        let condition = self.is_transition()?;
        self.when(condition)
    }

    /// A filter where `x` and `y` differ: its condition is x - y. If this fails, nothing is stated about the builder.
    /// Where you need to know it, make the [`difference`](AirBuilder::difference) first and then the filter.
    #[inline(always)]
    final fn when_ne(
        &mut self,
        x: Self::Expr,
        y: Self::Expr,
    ) -> Result<FilteredAirBuilder<'_, Self>, AirError>
    where
        Self: Sized,
        requires ready { ready self.old }
        requires x_in { Self.Ring.has (ring_of self.old) x }
        requires y_in { Self.Ring.has (ring_of self.old) y }
        ensures same_reference { IfOk result (λ f. f.inner.ghost_name ≡ self.entry.ghost_name) }
        ensures inner { IfOk result (λ f. grew self.old f.inner.now []) }
        ensures of_ring { IfOk result (λ f. Self.Ring.has (ring_of f.inner.now) (condition_of f)) }
        ensures condition { IfOk result (λ f. MeansOfBoth (MeansIn ⟦<Self as View>⟧.view) sub_term
            self.old f.inner.now x y (condition_of f)) }
        ensures refused { IfErr result (RefusesPartOfBoth ⟦<Self as View>⟧.view sub_term self.old x
            y) }
    {
        let condition = self.difference(x, y)?;
        self.when(condition)
    }

    /// A filter on the transitions of windows of `size` rows, which must be at most 2.
    #[inline(always)]
    final fn when_transition_window(
        &mut self,
        size: usize,
    ) -> Result<FilteredAirBuilder<'_, Self>, AirError>
    where
        Self: Sized,
        requires ready { ready self.old }
        requires within { size ≤ 2 }
        ensures { FiltersBy ⟦<Self as View>⟧.view transition self.old self.entry.ghost_name result }
    {
        let condition = self.is_transition_window(size)?;
        self.when(condition)
    }

    ghost laws: { BuilderLaws ⟦<Self as View>⟧.view };
}

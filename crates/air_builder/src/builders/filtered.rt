//! Filters: builders that assert under a condition.
ghost use Rattle.std.specs.Prelude.{◌≡◌, refl};
ghost use Rattle.air_builder.specs.Filters.{condition_of, KeptInside, GrewInside, RefusesInside};
ghost use Rattle.air_builder.specs.laws.Filters.{filter_laws};

use crate::builders::air_builder::AirBuilder;
use crate::builders::view::View;
use air_core::errors::AirError;
use air_field::Algebra;

/// Asserts under a condition: each assertion is multiplied by it.
pub struct FilteredAirBuilder<'a, AB: AirBuilder> {
    pub inner: &'a mut AB,
    pub(crate) condition: AB::Expr,
}

impl<'a, AB: AirBuilder> FilteredAirBuilder<'a, AB> {
    #[inline(always)]
    pub(crate) fn new(inner: &'a mut AB, condition: AB::Expr) -> FilteredAirBuilder<'a, AB>
        ensures same_reference { result.inner.ghost_name ≡ inner.entry.ghost_name }
        ensures inner { result.inner.now ≡ inner.old }
        ensures condition { result.condition ≡ condition }
    {
        FilteredAirBuilder { inner, condition }
    }

    /// The condition: the factor of each assertion.
    #[inline(always)]
    pub fn condition(&self) -> AB::Expr
        ensures { result ≡ condition_of self.now }
    {
        self.condition
    }
}

impl<'a, AB: AirBuilder> Drop for FilteredAirBuilder<'a, AB> {
    #[inline(always)]
    fn drop(self)
        ensures { self.exit.0.now ≡ self.entry.inner.now }
    {
        let FilteredAirBuilder {
            inner: _,
            condition: _,
        } = self;
    }
}

impl<'a, AB: AirBuilder> AirBuilder for FilteredAirBuilder<'a, AB> {
    type F = AB::F;

    type Expr = AB::Expr;

    type Var = AB::Var;

    type PublicVar = AB::PublicVar;

    type PeriodicVar = AB::PeriodicVar;

    type PreprocessedWindow = AB::PreprocessedWindow;

    type MainWindow = AB::MainWindow;

    type Ring = AB::Ring;

    ghost ring_of = { λ f. AB.ring_of f.inner.now };

    ghost with_ring = { λ f r. record f {
      inner = record f.inner
          { now = AB.with_ring f.inner.now r };
    } };

    ghost reads_as = { λ f. AB.reads_as f.inner.now };

    ghost ready = { λ f. AB.ready f.inner.now × AB.Ring.has (AB.ring_of f.inner.now) f.condition };

    ghost kept = { λ f g. KeptInside AB.kept f.inner.ghost_name g.inner.ghost_name f.condition
        g.condition f.inner.now g.inner.now };

    ghost grew = { λ f g ts. GrewInside ⟦<AB as View>⟧.view f.inner.ghost_name
        g.inner.ghost_name f.condition g.condition f.inner.now g.inner.now ts };

    ghost missing = { λ f l. AB.missing f.inner.now l };

    ghost refuses = { λ f e ts. RefusesInside ⟦<AB as View>⟧.view f.condition f.inner.now e
        ts };

    ghost laws = { filter_laws AB.Ring.Algebra.laws AB.laws (λ p. p.inner.now)
        (λ p. p.inner.ghost_name) (λ p. p.condition)
        (λ p s. record p { inner = record p.inner { now = s } }) (λ p s. refl) (λ p s. refl)
        (λ p s. refl) };

    #[inline(always)]
    fn ring(&mut self) -> &mut AB::Ring {
        self.inner.ring()
    }

    #[inline(always)]
    fn main(&self) -> Result<AB::MainWindow, AirError> {
        self.inner.main()
    }

    #[inline(always)]
    fn main_variable(&self, offset: usize, column: usize) -> Option<AB::Var> {
        self.inner.main_variable(offset, column)
    }

    #[inline(always)]
    fn preprocessed(&self) -> &AB::PreprocessedWindow {
        self.inner.preprocessed()
    }

    #[inline(always)]
    fn preprocessed_variable(&self, offset: usize, column: usize) -> Option<AB::Var> {
        self.inner.preprocessed_variable(offset, column)
    }

    #[inline(always)]
    fn public_values(&self) -> &[AB::PublicVar] {
        self.inner.public_values()
    }

    #[inline(always)]
    fn periodic_values(&self) -> &[AB::PeriodicVar] {
        self.inner.periodic_values()
    }

    #[inline(always)]
    fn is_first_row(&mut self) -> Result<AB::Expr, AirError> {
        self.inner.is_first_row()
    }

    #[inline(always)]
    fn is_last_row(&mut self) -> Result<AB::Expr, AirError> {
        self.inner.is_last_row()
    }

    #[inline(always)]
    fn is_transition(&mut self) -> Result<AB::Expr, AirError> {
        self.inner.is_transition()
    }

    #[inline(always)]
    fn assert_zero(&mut self, x: AB::Expr) -> Result<(), AirError> {
        let y = self.inner.ring().gate(self.condition, x)?;
        self.inner.assert_zero(y)
    }
}

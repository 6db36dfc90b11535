//! Filters on named builders.
ghost use Rattle.air_builder.specs.NamedFilters.{LabelledInside};
ghost use Rattle.air_builder.specs.laws.NamedFilters.{named_filter_laws};

use crate::builders::air_builder::AirBuilder;
use crate::builders::filtered::FilteredAirBuilder;
use crate::builders::named::NamedAirBuilder;
use crate::builders::view::View;
use air_core::errors::AirError;
use air_core::names::name::Name;
use air_field::Algebra;

impl<'a, AB: NamedAirBuilder> NamedAirBuilder for FilteredAirBuilder<'a, AB> {
    ghost labelled = { λ f g ls. LabelledInside ⟦<AB as View>⟧.view AB.labelled
        f.inner.ghost_name g.inner.ghost_name f.condition g.condition f.inner.now g.inner.now
        ls };

    ghost named_laws = { named_filter_laws AB.Ring.Algebra.laws AB.laws AB.named_laws
        (λ p. p.inner.now) (λ p. p.inner.ghost_name) (λ p. p.condition) };

    #[inline(always)]
    fn assert_zero_named<N: Name>(&mut self, x: AB::Expr, name: N) -> Result<(), AirError> {
        let y = self.inner.ring().gate(self.condition, x)?;
        self.inner.assert_zero_named(y, name)
    }
}

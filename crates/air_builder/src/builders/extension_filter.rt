//! Filters on builders over an extension.
ghost use Rattle.std.specs.Prelude.{IfOk, IfErr, refl};
ghost use Rattle.air_builder.specs.ExtensionFilters.{MadeUnder, RefusedUnder};
ghost use Rattle.air_builder.specs.laws.ExtensionFilters.{extension_filter_laws};

use crate::builders::air_builder::AirBuilder;
use crate::builders::extension::ExtensionBuilder;
use crate::builders::filtered::FilteredAirBuilder;
use crate::builders::permutation::PermutationAirBuilder;
use air_core::errors::AirError;
use air_field::{Algebra, ExtAlgebra, ExtensionField, Field, FromVar, RingError};

/// x times the lifted condition
#[inline(always)]
pub(crate) fn under_condition<F: Field, EF: ExtensionField<F>, R: ExtAlgebra<F, EF>>(
    ring: &mut R,
    condition: R::Base,
    x: R::Elem,
) -> Result<R::Elem, RingError>
    requires condition_in { R.base_has ring.old condition }
    requires x_in { R.has ring.old x }
    ensures extended { R.extends ring.old ring.new }
    ensures made { IfOk result (MadeUnder R.has R.means R.base_means ring.old ring.new condition
        x) }
    ensures refused { IfErr result (RefusedUnder R.means R.base_means R.refuses ring.old condition
        x) }
{
    let lifted = ring.lift(condition)?;
    ring.mul(x, lifted)
}

impl<'a, AB: ExtensionBuilder> ExtensionBuilder for FilteredAirBuilder<'a, AB> {
    type EF = AB::EF;

    type ExprEF = AB::ExprEF;

    type VarEF = AB::VarEF;

    type ExtRing = AB::ExtRing;

    ghost ext_ring_of = { λ f. AB.ext_ring_of f.inner.now };

    ghost with_ext_ring = { λ f r. record f {
      inner = record f.inner
          { now = AB.with_ext_ring f.inner.now r };
    } };

    ghost ext_laws = { extension_filter_laws AB.laws AB.ext_laws (λ p. p.inner.now)
        (λ p. p.inner.ghost_name) (λ p. p.condition)
        (λ p s. record p { inner = record p.inner { now = s } }) (λ p s. refl) (λ p s. refl)
        (λ p s. refl) };

    #[inline(always)]
    fn ext_ring(&mut self) -> &mut AB::ExtRing {
        self.inner.ext_ring()
    }

    #[inline(always)]
    fn assert_zero_ext(&mut self, x: AB::ExprEF) -> Result<(), AirError> {
        let y = under_condition(self.inner.ext_ring(), self.condition, x)?;
        self.inner.assert_zero_ext(y)
    }
}

impl<'a, AB: PermutationAirBuilder> PermutationAirBuilder for FilteredAirBuilder<'a, AB>
where
    AB::ExtRing: FromVar<AB::F, AB::RandomVar> + FromVar<AB::F, AB::PermutationVar>,
{
    type MP = AB::MP;

    type RandomVar = AB::RandomVar;

    type PermutationVar = AB::PermutationVar;

    #[inline(always)]
    fn permutation(&self) -> Result<AB::MP, AirError> {
        self.inner.permutation()
    }

    #[inline(always)]
    fn permutation_variable(
        &self,
        offset: usize,
        column: usize,
    ) -> Result<Option<AB::VarEF>, AirError> {
        self.inner.permutation_variable(offset, column)
    }

    #[inline(always)]
    fn permutation_randomness(&self) -> &[AB::RandomVar] {
        self.inner.permutation_randomness()
    }

    #[inline(always)]
    fn permutation_values(&self) -> &[AB::PermutationVar] {
        self.inner.permutation_values()
    }
}

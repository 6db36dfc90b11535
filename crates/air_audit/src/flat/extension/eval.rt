//! The constraints of the AIR on a builder.
ghost use Rattle.air_builder.specs.Labels.{LabelledBy};
ghost use Rattle.air_audit.specs.FlatExtAirs.{zero_at_ext_roots};
ghost use Rattle.air_audit.specs.RootLabels.{RootSays};

use crate::flat::extension::air::FlatExtAir;
use crate::flat::extension::table::{assert_roots, make_ext_places};
use crate::flat::table::make_places;
use air_builder::{Air, AirError, NamedExtensionBuilder, PermutationAirBuilder};
use air_field::FromVar;

impl<AB: PermutationAirBuilder + NamedExtensionBuilder> Air<AB> for FlatExtAir<AB::F, AB::EF>
where
    AB::ExtRing: FromVar<AB::F, AB::RandomVar> + FromVar<AB::F, AB::PermutationVar>,
{
    ghost labels = { λ air a b. LabelledBy AB.labelled (RootSays air.labels.items) a b
        (zero_at_ext_roots AB.EF.basis air.pool air.roots.items) };

    fn eval(&self, builder: &mut AB) -> Result<(), AirError> {
        if self.roots.is_empty() {
            return Ok(());
        }
        let alloc = *self.roots.allocator();
        let base = make_places(alloc, self.pool.base(), &self.plan.base, builder)?;
        let table = make_ext_places(alloc, builder, self, &base)?;
        assert_roots(builder, self, &base, &table)
    }
}

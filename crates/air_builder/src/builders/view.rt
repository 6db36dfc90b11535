//! The ghost members of a builder in one record, as clauses and laws use them.
ghost use Rattle.air_builder.specs.Builders.{BuilderView};
ghost use Rattle.air_builder.specs.Extensions.{ExtensionView, over_view};

use crate::builders::air_builder::AirBuilder;
use crate::builders::extension::ExtensionBuilder;
use air_field::{Algebra, ExtAlgebra};

/// A builder's view: its ghost members and its ring's, in one record.
pub trait View: AirBuilder {
    ghost view: { BuilderView Self Self.Ring Self.Expr Self.F };
}

impl<AB: AirBuilder> View for AB {
    ghost view = { record {
      valid = AB.Ring.valid;
      has = AB.Ring.has;
      means = AB.Ring.means;
      extends = AB.Ring.extends;
      ring_refuses = AB.Ring.refuses;
      ring_of = AB.ring_of;
      with_ring = AB.with_ring;
      reads_as = AB.reads_as;
      ready = AB.ready;
      kept = AB.kept;
      grew = AB.grew;
      missing = AB.missing;
      refuses = AB.refuses;
    } };
}

/// A builder's view of its ring over the extension.
pub trait ViewExt: ExtensionBuilder {
    ghost over: { ExtensionView Self Self.ExtRing Self.Expr Self.ExprEF Self.F };
}

impl<AB: ExtensionBuilder> ViewExt for AB {
    ghost over = { record {
      valid = AB.ExtRing.valid;
      has = AB.ExtRing.has;
      means = AB.ExtRing.means;
      extends = AB.ExtRing.extends;
      ring_refuses = AB.ExtRing.refuses;
      base_has = AB.ExtRing.base_has;
      base_means = AB.ExtRing.base_means;
      ring_of = AB.ext_ring_of;
      with_ring = AB.with_ext_ring;
    } };
}

/// A builder's view with its ring over the extension in place of its base ring.
pub trait ViewOver: ExtensionBuilder {
    ghost view: { BuilderView Self Self.ExtRing Self.ExprEF Self.F };
}

impl<AB: ExtensionBuilder> ViewOver for AB {
    ghost view = { over_view ⟦<AB as View>⟧.view ⟦<AB as ViewExt>⟧.over };
}

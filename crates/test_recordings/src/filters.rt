//! Recordings of an AIR whose constraints are asserted on a filter, which gives access to all that they read.
ghost use Rattle.std.specs.Prelude.{OnOk};

use crate::recordings::{Recorder, show_both};
use air_audit::finish_recording;
use air_builder::{Air, AirBuilder, AirError, NamedExtensionBuilder, PermutationAirBuilder};
use air_field::{Algebra, ExtensionField, Field, FromVar};
use air_recording::{AirLayout, Recorded, SymbolicAirBuilder};
use std::alloc::Global;
use test_airs::TableAir;
use test_lines::Fault;
use test_lines::words::{Number, element_of};

// Asserts an AIR's constraints under a condition.
fn eval_under<AB: PermutationAirBuilder + NamedExtensionBuilder>(
    builder: &mut AB,
    air: &TableAir<AB::F>,
    condition: AB::Expr,
) -> Result<(), AirError>
where
    AB::ExtRing: FromVar<AB::F, AB::RandomVar> + FromVar<AB::F, AB::PermutationVar>,
    requires ready { AB.ready builder.old }
    requires of_ring { AB.Ring.has (AB.ring_of builder.old) condition }
    ensures { OnOk result (AB.kept builder.old builder.new) }
{
    let mut filter = builder.when(condition)?;
    air.eval(&mut filter)
}

// Asserts an AIR's constraints under a constant condition. Afterwards the builder is ready.
fn eval_when<AB: PermutationAirBuilder + NamedExtensionBuilder>(
    builder: &mut AB,
    air: &TableAir<AB::F>,
    condition: AB::F,
) -> Result<(), AirError>
where
    AB::ExtRing: FromVar<AB::F, AB::RandomVar> + FromVar<AB::F, AB::PermutationVar>,
    requires { AB.ready builder.old }
    ensures { OnOk result (AB.ready builder.new) }
{
    let condition = builder.ring().constant(condition)?;
    eval_under(builder, air, condition)
}

// The recording of an AIR's constraints under a constant condition.
fn recorded_when<F: Field, EF: ExtensionField<F>>(
    alloc: Global,
    air: &TableAir<F>,
    layout: AirLayout,
    condition: F,
) -> Result<Recorded<F, EF>, AirError> {
    let mut builder: Recorder<F, EF> = SymbolicAirBuilder::new(alloc, layout)?;
    eval_when(&mut builder, air, condition)?;
    Ok(finish_recording(builder))
}

/// Adds the recording of an AIR's constraints under a constant condition.
pub fn show_when<F: Number, EF: ExtensionField<F>>(
    alloc: Global,
    air: &TableAir<F>,
    layout: AirLayout,
    condition: &str,
    text: &mut String,
) -> Result<(), Fault> {
    let recorded = recorded_when::<F, EF>(alloc, air, layout, element_of(condition)?)?;
    show_both(&recorded, text)
}

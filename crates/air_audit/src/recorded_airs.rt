//! A recording as an AIR.
ghost use Rattle.std.specs.Prelude.{◌≡◌, List, IfOk, IfErr};
ghost use Rattle.air_symbolic.specs.BaseLeaves.{base_reads};
ghost use Rattle.air_core.specs.declared.errors.AirError.{AirError};
ghost use Rattle.air_builder.specs.Assertion.{Assertion};
ghost use Rattle.air_builder.specs.Batches.{AssertedIn};
ghost use Rattle.air_author.specs.Expressions.{AlwaysAfter};
ghost use Rattle.air_recording.specs.Layouts.{first_past};
ghost use Rattle.air_recording.specs.Recorded.{RecordsBase};
ghost use Rattle.air_recording.specs.RecordedLists.{recorded_by, pool_of};
ghost use Rattle.air_audit.specs.RecordedAirs.{zero_at_recorded, RecordedAirRefuses, RecordsBaseTerms};

use crate::flat::flat_air::FlatAir;
use air_author::{Constraint, assert_these};
use air_builder::{AirBuilder, AirError, BaseAir, Beside, View};
use air_field::{ExtensionField, Field};
use air_recording::{Recorded, SymbolicAirBuilder};
use air_symbolic::ExprId;

/// Asserts the constraints on a builder, which is ready for more afterwards, also after an error. After an error a
/// strict prefix of them is asserted. On a [`SymbolicAirBuilder`] they are recorded, and no AIR has to be written.
///
/// # Errors
///
/// Those that the builder may give for these constraints.
pub fn record_these<AB: AirBuilder, C: Constraint<AB>>(
    builder: &mut AB,
    constraints: &C,
) -> Result<(), AirError>
    requires ready { AB.ready builder.old }
    requires usable { AlwaysAfter AB.kept (C.usable constraints.now) builder.old }
    ensures ready { AB.ready builder.new }
    ensures asserted { AssertedIn ⟦<AB as View>⟧.view builder.old builder.new result
        (C.asserts constraints.now (λ t. t) (λ t. t)) }
{
    assert_these(builder, constraints)
}

/// The recording of a builder that is ready, with the builder's pool.
pub fn finish_recording<F: Field, EF: ExtensionField<F>>(
    builder: SymbolicAirBuilder<F, EF>,
) -> Recorded<F, EF>
    requires { ⟦<SymbolicAirBuilder<F, EF> as AirBuilder>⟧.ready builder }
    ensures pool { result.pool ≡ pool_of builder }
    ensures base { result.base ≡ (recorded_by builder).base }
    ensures ext { result.ext ≡ (recorded_by builder).ext }
{
    builder.into_recorded()
}

// The first of these numbers at or past the total.
fn first_past<A: Copy>(numbers: &[ExprId<A>], total: usize) -> Option<ExprId<A>>
    ensures { result ≡ first_past total numbers.now }
{
    numbers.iter().copied().find(|id| id.number() >= total)
}

/// The AIR that declares the recorded base constraints, in order: each recorded term is zero. Recorded extension
/// constraints are left out. An audit or a check of a row refuses a preprocessed or periodic column or a public value
/// that a recorded term names and `beside` lacks (`MissingEntry`, or `RowOffset` at an offset past 1).
///
/// For the recording of an AIR the only error is `Memory`, and the declared list records that AIR's base constraints.
/// If you assembled the numbers yourself, the first one outside the base pool is an error (`IndexPastTotal`). The nodes
/// that the numbers reach are found here, once, which takes memory.
pub fn recorded_air<F: Field, EF: ExtensionField<F>>(
    recorded: Recorded<F, EF>,
    beside: Beside<F>,
) -> Result<FlatAir<F>, AirError>
    ensures declared { IfOk result (λ a.
        (⟦<FlatAir<F> as BaseAir<F>>⟧.declaration a).constraints ≡ zero_at_recorded recorded) }
    ensures beside { IfOk result (λ a. a.beside ≡ beside) }
    ensures of_an_air { (declared : List (Assertion F)) →
        RecordsBase F.ring EF.over base_reads recorded.pool.base recorded.base declared →
        IfOk result (λ a.
        RecordsBaseTerms F.ring (⟦<FlatAir<F> as BaseAir<F>>⟧.declaration a).constraints declared) }
    ensures only_memory { (declared : List (Assertion F)) →
        RecordsBase F.ring EF.over base_reads recorded.pool.base recorded.base declared →
        IfErr result (λ e. e ≡ AirError.Memory) }
    ensures refused { IfErr result (RecordedAirRefuses recorded) }
{
    let Recorded { pool, base, .. } = recorded;
    let pool = pool.into_base();
    let total = pool.len();
    if let Some(id) = first_past(&base, total) {
        return Err(AirError::IndexPastTotal {
            index: id.number(),
            total,
        });
    }
    let air = FlatAir::new(pool, base, beside)?;
    Ok(air)
}

//! AIRs recorded by hand.
ghost use Rattle.std.specs.Prelude.{IfOk};

use crate::reports::{given_of, show_audit};
use air_audit::author::{Boolean, Current, Equal, Next, Sum, Transition, When};
use air_audit::{
    AirBuilder, AirError, AirLayout, Beside, ExprPool, Field, FlatAir, Recorded,
    SymbolicAirBuilder, finish_recording, record_these, recorded_air,
};
use std::alloc::Global;
use test_lines::Fault;
use test_lines::words::count_of;

// Column 0 is a bit, and column 1 increases by it from each row to the next.
fn assert_counter<AB: AirBuilder>(builder: &mut AB) -> Result<(), AirError>
    requires { AB.ready builder.old }
    ensures { AB.ready builder.new }
{
    record_these(builder, &Boolean(Current(0)))?;
    let count = Equal(Next(1), Sum(Current(1), Current(0)));
    record_these(builder, &When(Transition, count))
}

// A builder with an empty recording.
fn recording_builder<F: Field>(
    alloc: Global,
    layout: AirLayout,
) -> Result<SymbolicAirBuilder<F, F>, AirError>
    ensures { IfOk result ⟦<SymbolicAirBuilder<F, F> as AirBuilder>⟧.ready }
{
    SymbolicAirBuilder::new(alloc, layout)
}

// The recording of the counter.
fn record_counter<F: Field>(alloc: Global) -> Result<Recorded<F, F>, AirError> {
    let layout = AirLayout {
        main_width: 2,
        ..AirLayout::default()
    };
    let mut builder = recording_builder::<F>(alloc, layout)?;
    assert_counter(&mut builder)?;
    Ok(finish_recording(builder))
}

// The AIR of a recording, for a trace of two columns.
fn air_of<F: Field>(alloc: Global, recorded: Recorded<F, F>) -> Result<FlatAir<F>, AirError> {
    recorded_air(recorded, Beside::new(alloc, 2, 0))
}

/// Adds the audit of the recorded counter on a trace.
pub fn recorded_counter<F: Field + 'static>(
    alloc: Global,
    main: &str,
    weight: &str,
    text: &mut String,
) -> Result<(), Fault> {
    let weight = count_of(weight)?;
    let given = given_of(alloc, main, "-")?;
    let air = air_of(alloc, record_counter::<F>(alloc)?)?;
    show_audit(alloc, &air, &given, weight, text)
}

// A recording with its pool replaced by an empty one.
fn without_pool<F: Field>(alloc: Global, recorded: Recorded<F, F>) -> Recorded<F, F> {
    let Recorded { base, ext, .. } = recorded;
    let pool = ExprPool::new(alloc);
    Recorded { pool, base, ext }
}

// Adds the error if it names the first id of the recording; returns any other error.
fn show_refusal(error: AirError, first: Option<usize>, text: &mut String) -> Result<(), Fault> {
    match error {
        AirError::IndexPastTotal { index, total } if Some(index) == first => {
            write!(text, "the first number is past {total}")?;
            Ok(())
        }
        error => Err(Fault::from(error)),
    }
}

/// Adds the error for a recording whose pool is replaced by an empty one.
pub fn recorded_elsewhere<F: Field>(alloc: Global, text: &mut String) -> Result<(), Fault> {
    let recorded = record_counter::<F>(alloc)?;
    let first = recorded.base.first().map(|x| x.number());
    match air_of(alloc, without_pool(alloc, recorded)) {
        Ok(_) => Ok(text.push_str("an AIR")?),
        Err(error) => show_refusal(error, first, text),
    }
}

//! Checks of compressions.
ghost use Rattle.std.specs.Prelude.{◌≡◌, true, IfOk, IfErr};
ghost use Rattle.air_blake3.specs.Checks.{AnswersCheck, EmptyReportsAreSound, HoldCompressions, RefusesCheck, ReportsAreEmpty};
ghost use Rattle.air_blake3.specs.Traces.{AreCompressionRows};

use crate::compression::Compression;
use crate::laws::compression_is_sound;
use air_builder::AirError;
use air_field::{Field, PrimeField, RowMajorMatrix};
use air_report::check_all_constraints;
use std::alloc::Global;

/// If each row of a trace satisfies all constraints, whatever the other values at the row are, as does each row of
/// `trace_of_blocks`, then every exact report on the trace, with any cap, lists no failure. So neither a check nor an
/// audit of such a trace lists one.
pub fn report_is_empty<F: Field>()
    ensures { ReportsAreEmpty F.ring F.eq F.ZERO }
{}

/// If an exact report without a cap lists no failure, then at each row the output columns hold the BLAKE3 compression
/// of the block in the input columns, over a field whose characteristic is above 3 · 2^16. The report of a check is
/// exact, and so is that of an audit, by the contract of `audit_air_with_cap`.
pub fn empty_report_is_sound<F: PrimeField>()
    ensures { EmptyReportsAreSound F.ring F.eq F.CHARACTERISTIC }
{
    compression_is_sound::<F>();
}

/// Whether a check of the trace lists no failure. If it lists none, then at each row the output columns hold the BLAKE3
/// compression of the block in the input columns, over a field whose characteristic is above 3 · 2^16. If each row
/// satisfies all constraints, whatever the other values at the row are, the check lists none.
///
/// # Errors
///
/// Those of `check_all_constraints`: if the trace has rows, a column that it lacks; otherwise only `Memory`.
pub fn are_compressions<F: PrimeField + 'static>(
    alloc: Global,
    trace: &RowMajorMatrix<F>,
) -> Result<bool, AirError>
    ensures answer { IfOk result (AnswersCheck F.ring F.eq trace.now) }
    ensures refused { IfErr result (RefusesCheck F.ring F.eq trace.now) }

    // consequences of the answer
    ensures sound { IfOk result (λ ok. ok ≡ true
        → HoldCompressions F.ring F.CHARACTERISTIC trace.now) }
    ensures complete { IfOk result (λ ok. AreCompressionRows F.ring F.ZERO trace.now → ok ≡ true) }
{
    compression_is_sound::<F>();
    let report = check_all_constraints(alloc, &Compression {}, trace, &[], None)?;
    Ok(report.is_ok())
}

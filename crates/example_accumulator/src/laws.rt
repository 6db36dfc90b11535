//! The theorem, as the contract of a function.
ghost use Rattle.example_accumulator.specs.Totals.{TotalIsSound};

use air_chains::empty_reports_hold;
use p3_air::Field;

/// If an exact report of `Accumulator` without a cap lists nothing, and the trace has rows, public value 0 is the sum of
/// column 0 over them. The report of an audit is exact.
pub fn total_is_sound<F: Field>()
    ensures { TotalIsSound F.ring F.eq }
{
    empty_reports_hold::<F>();
}

//! What a passing trace satisfies.
ghost use Rattle.std.specs.Prelude.{IfErr, OnOk};
ghost use Rattle.p3_air.specs.Checks.{IsFirstError, IsSatisfied};
ghost use Rattle.example_range.specs.Checks.{AllBelow, range_instance};

use crate::range::Range;
use p3_air::author::Plain;
use p3_air::{CheckError, PrimeField, RowMajorMatrix, check_constraints};
use std::alloc::Global;

/// Checks a trace. `Ok` implies that each value is below 2^16. The error is that of `check_constraints`: the first row
/// that fails, a column that the trace lacks, or `Memory`.
pub fn check_range<F: PrimeField + 'static>(
    alloc: Global,
    trace: &RowMajorMatrix<F>,
) -> Result<(), CheckError>
    ensures kept { OnOk result (IsSatisfied F.ring F.eq (range_instance F.ring trace.now)) }
    ensures below { OnOk result (AllBelow F.ring trace.now) }
    ensures error { IfErr result (IsFirstError F.ring F.eq (range_instance F.ring trace.now)) }
{
    check_constraints(alloc, &Plain(Range {}), trace, &[])
}

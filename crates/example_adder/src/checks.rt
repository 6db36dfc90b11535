//! What a passing trace satisfies.
ghost use Rattle.std.specs.Prelude.{◌^◌, ◌<◌, IfErr, OnOk};
ghost use Rattle.p3_air.specs.Checks.{IsFirstError, IsSatisfied};
ghost use Rattle.example_adder.specs.Checks.{RowsAddUp, adder_instance};

use crate::adder::Adder;
use p3_air::author::Plain;
use p3_air::laws::words_are_exact;
use p3_air::{CheckError, PrimeField, RowMajorMatrix, check_constraints};
use std::alloc::Global;

/// Checks a trace. Over a field of characteristic above 2^17, `Ok` implies that a is b + c modulo 2^32 at each row. The
/// error is that of `check_constraints`: the first row that fails, a column that the trace lacks, or `Memory`.
pub fn check_sums<F: PrimeField + 'static>(
    alloc: Global,
    trace: &RowMajorMatrix<F>,
) -> Result<(), CheckError>
    ensures kept { OnOk result (IsSatisfied F.ring F.eq (adder_instance F.ring trace.now)) }
    ensures sums { OnOk result (2 ^ 17 < F.CHARACTERISTIC → RowsAddUp F.ring trace.now) }
    ensures error { IfErr result (IsFirstError F.ring F.eq (adder_instance F.ring trace.now)) }
{
    words_are_exact::<F>();
    check_constraints(alloc, &Plain(Adder {}), trace, &[])
}

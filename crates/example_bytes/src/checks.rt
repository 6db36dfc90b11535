//! What it means that a trace passes.
ghost use Rattle.std.specs.Prelude.{◌≡◌, IsTrue, IfOk, slice_index_or};
ghost use Rattle.air_lookup.specs.Theorem.{PassesAt};
ghost use Rattle.example_bytes.specs.Bytes.{bytes_instance};
ghost use Rattle.example_bytes.specs.Checks.{BytesAreSound};

use crate::bytes::Bytes;
use air_lookup::{lists_nothing, lookups_are_sound};
use p3_air::author::Plain;
use p3_air::{AirError, DomainExtension, Field, Permutation, RowMajorMatrix};
use std::alloc::Global;

/// Whether a trace passes with this permutation data, whose first challenge is the lookup's. If the trace has 256 rows,
/// and some value isn't a byte, at most 512 challenges let it pass.
pub fn bytes_pass<F: Field + 'static, EF: DomainExtension<F> + 'static>(
    alloc: Global,
    trace: &RowMajorMatrix<F>,
    permutation: Permutation<'_, EF>,
) -> Result<bool, AirError>
    ensures passes { IfOk result (λ passes. IsTrue passes → PassesAt F.ring EF.over F.eq EF.eq
        (bytes_instance F.ring trace.now) 0
        (slice_index_or permutation.entry.challenges.now 0 EF.over.ring.zero)) }
    ensures sound { BytesAreSound F.ring EF.over F.eq EF.eq F.CHARACTERISTIC trace.now }
{
    lookups_are_sound::<F, EF>();
    lists_nothing(alloc, &Plain(Bytes {}), trace, &[], permutation)
}

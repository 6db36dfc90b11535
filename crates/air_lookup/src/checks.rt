//! Checks of traces with lookups.
ghost use Rattle.std.specs.Prelude.{◌≡◌, ◌↔◌, [], IsTrue, IfErr, IfOk, None};
ghost use Rattle.air_report.specs.Cells.{violated_cells};
ghost use Rattle.air_report.specs.Instances.{instance};
ghost use Rattle.air_report.specs.Permuted.{permutation_trace, PermutedCheckRefuses};
ghost use Rattle.air_lookup.specs.Theorem.{ListsNothing};

use air_builder::{Air, AirError};
use air_field::{ExtensionField, Field, RowMajorMatrix};
use air_report::{DebugConstraintBuilder, Permutation, check_all_constraints_with_permutation};
use std::alloc::Global;

/// Whether a check of a trace with its permutation trace lists nothing. If so, each challenge passes that the
/// permutation data has, and [`lookups_are_sound`](crate::lookups_are_sound) says how few do that needn't.
///
/// Errors: those of `check_all_constraints_with_permutation`.
pub fn lists_nothing<
    'a,
    F: Field,
    EF: ExtensionField<F> + 'static,
    A: Air<DebugConstraintBuilder<'a, F, EF>>,
>(
    alloc: Global,
    air: &'a A,
    main: &'a RowMajorMatrix<F>,
    public_values: &'a [F],
    permutation: Permutation<'a, EF>,
) -> Result<bool, AirError>
    ensures nothing { let g = instance (A.declaration air.now) main.now public_values.now in
        IfOk result (λ nothing. IsTrue nothing ↔ (ListsNothing F.ring EF.over F.eq EF.eq g
        (permutation_trace permutation.entry)
        × (violated_cells F.ring F.eq g.main g.public g.air.cells ≡ []))) }
    ensures refused { IfErr result (PermutedCheckRefuses F.ring EF.over F.eq EF.eq
        (instance (A.declaration air.now) main.now public_values.now)
        (permutation_trace permutation.entry) None) }
{
    let report = check_all_constraints_with_permutation(
        alloc,
        air,
        main,
        public_values,
        permutation,
        None,
    )?;
    Ok(report.is_ok())
}

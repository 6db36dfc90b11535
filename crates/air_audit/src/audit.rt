//! The audit: an AIR is recorded and checked in one call, so that the recorded constraints are the tested ones.
ghost use Rattle.std.specs.Prelude.{◌≡◌, ◌≤◌, ◌<◌, ◌^◌, ◌++◌, length, take, IfOk, IfErr, OnOk};
ghost use Rattle.air_report.specs.RowLabels.{LabelledRows, LabelsRows};
ghost use Rattle.air_audit.specs.Theorem.{instance, row_count, NamesOwnEntries, FitsDeclaration, RecordsEach, MeansEach, terms_in, failure_places, nonzero_places, violated_cells, violated_places, constraints_per_row, LabelsFrom, domain, degree_in, BoundsDegrees, BoundsPolynomials, IsLeast, AuditRefuses};
ghost use Rattle.air_audit.specs.Audits.{IsAuditUnder, AuditRefusesUnder};

use air_builder::{Air, AirError, BaseAir};
use air_field::{RowMajorMatrix, SelfExtension};
use air_recording::symbolic::degree::infer_degree;
use air_recording::symbolic::record::record_with_layout;
use air_recording::{AirLayout, ConstraintLayout, Recorded, SymbolicAirBuilder};
use air_report::{ConstraintReport, DebugConstraintBuilder, check_all_constraints};
use std::alloc::Global;

/// What an audit found.
#[derive(Drop)]
pub struct Audit<F: SelfExtension> {
    /// The constraints as expressions.
    pub recorded: Recorded<F, F>,
    /// The places of the recorded constraints among all of them.
    pub layout: ConstraintLayout,
    /// Where the constraints and the boundary values fail.
    pub report: ConstraintReport,
    /// The degree inferred for the trace's height, in the domain of the given weight for the transition selector.
    pub degree: usize,
}

/// Records an AIR by its own layout, checks a trace of it without a cap, and infers the degree of its constraints.
///
/// The constraints recorded for a prover are the tested ones: at each place the recorded constraint has the declared
/// one's polynomial, so on every row it has the value that the report is about.
///
/// `transition_weight` is the transition selector's weight in the prover's domain: 0 if it is a linear polynomial,
/// otherwise the number of columns that it counts as. For N rows (2 or more) and weight 0, each recorded polynomial has
/// degree at most `degree` (N - 1) + 1; for a weight from 1, at most `degree` (N - 1). Both hold if the leaves'
/// polynomials have at most the domain's degrees.
///
/// # Errors
///
/// In this order: those of the recording, a fixed column that doesn't fit, those of a row, an improper boundary value
/// or boundary values without rows, a place past `usize`, a degree past `usize`. `Memory` may replace any.
pub fn audit_air<
    'a,
    F: SelfExtension + 'static,
    A: BaseAir<F> + Air<SymbolicAirBuilder<F, F>> + Air<DebugConstraintBuilder<'a, F, F>>,
>(
    alloc: Global,
    air: &'a A,
    main: &'a RowMajorMatrix<F>,
    public_values: &'a [F],
    transition_weight: usize,
) -> Result<Audit<F>, AirError>
    // Each entry that a declared constraint names is one of the AIR's. The trace fits: each row has these entries, the
    // fixed columns have the trace's height, and the boundary values are proper. (More columns or public values than
    // declared fit too.)
    ensures there { OnOk result (NamesOwnEntries (A.declaration air.now)) }
    ensures fits { OnOk result (FitsDeclaration
        (instance (A.declaration air.now) main.now public_values.now)) }

    // At the place of each declared constraint one of its kind is recorded: it has the declared one's polynomial, its
    // value on every row, and no greater degree. It is an expression of a pool, and means the declared constraint
    // there.
    ensures recorded { IfOk result (RecordsEach F.ring F.basis (A.declaration air.now)) }
    ensures pool { IfOk result (λ a. MeansEach F.ring F.basis (A.declaration air.now) a.recorded) }

    // The failures are the rows and places at which the declared constraint isn't zero, then the violated boundary
    // values, which have their labels. The labels of the rows' failures are as the AIR says.
    ensures report { let x = instance (A.declaration air.now) main.now public_values.now in
        IfOk result (λ a. failure_places a.report
        ≡ nonzero_places F.ring F.eq x ++ violated_places F.ring F.eq x) }
    ensures labels { let x = instance (A.declaration air.now) main.now public_values.now in
        IfOk result (λ a. LabelsFrom (length (nonzero_places F.ring F.eq x))
        (violated_cells F.ring F.eq x) a.report) }
    ensures row_labels { let x = instance (A.declaration air.now) main.now public_values.now in
        IfOk result (λ a. LabelledRows (A.Air-2.labels air.now) (row_count x)
        (take (length (nonzero_places F.ring F.eq x)) a.report.failures.items)) }
    ensures counts { let x = instance (A.declaration air.now) main.now public_values.now in
        IfOk result (λ a. (a.report.total_rows ≡ row_count x)
        × (a.report.total_constraints_per_row ≡ constraints_per_row x)) }

    // The degree is that of the recorded terms in the domain. From two rows on it bounds their polynomials' degrees, if
    // the leaves' are within theirs; from three rows on it is the least that bounds the terms' degrees.
    ensures degree { let x = instance (A.declaration air.now) main.now public_values.now in
        IfOk result (λ a. (a.degree ≡ degree_in transition_weight x (terms_in F.basis a.recorded))
        × (degree_in transition_weight x (terms_in F.basis a.recorded) < 2 ^ 64)) }
    ensures bounded { let x = instance (A.declaration air.now) main.now public_values.now in
        IfOk result (λ a. 2 ≤ row_count x → BoundsPolynomials F.ring (domain transition_weight x)
        (terms_in F.basis a.recorded) a.degree) }
    ensures least { let x = instance (A.declaration air.now) main.now public_values.now in
        IfOk result (λ a. 3 ≤ row_count x → IsLeast (BoundsDegrees (domain transition_weight x)
        (terms_in F.basis a.recorded)) a.degree) }

    // The first error: of the recording, the fixed columns, the rows, the boundary values, the report, the degree.
    ensures refused { IfErr result (AuditRefuses F.ring F.eq
        (instance (A.declaration air.now) main.now public_values.now) transition_weight) }
{
    audit_air_with_cap(alloc, air, main, public_values, None, transition_weight)
}

/// Audits as `audit_air` does, but the check stops once it has `max_failures` failures: it then runs no further row and
/// lists no further boundary value. All failures of a row that runs are listed.
pub fn audit_air_with_cap<
    'a,
    F: SelfExtension + 'static,
    A: BaseAir<F> + Air<SymbolicAirBuilder<F, F>> + Air<DebugConstraintBuilder<'a, F, F>>,
>(
    alloc: Global,
    air: &'a A,
    main: &'a RowMajorMatrix<F>,
    public_values: &'a [F],
    max_failures: Option<usize>,
    transition_weight: usize,
) -> Result<Audit<F>, AirError>
    ensures audited { IfOk result (IsAuditUnder F.ring F.eq F.basis
        (instance (A.declaration air.now) main.now public_values.now)
        max_failures transition_weight) }
    ensures refused { IfErr result (AuditRefusesUnder F.ring F.eq
        (instance (A.declaration air.now) main.now public_values.now)
        max_failures transition_weight) }
    ensures labels { IfOk result (λ a. LabelsRows F.ring F.eq
        (instance (A.declaration air.now) main.now public_values.now) max_failures
        (A.Air-2.labels air.now) a.report) }
{
    let (recorded, layout) = record_with_layout(alloc, air, AirLayout::from_air::<F, A>(air))?;
    let report = check_all_constraints(alloc, air, main, public_values, max_failures)?;
    let degree = infer_degree(alloc, air, &recorded, main.height(), transition_weight)?;
    Ok(Audit {
        recorded,
        layout,
        report,
        degree,
    })
}

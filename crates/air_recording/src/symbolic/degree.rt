//! The degree inferred for the constraints of an AIR.
ghost use Rattle.std.specs.Prelude.{◌≡◌, ℕ, ◌<◌, length, map, IfOk, IfErr, OnOk, All};
ghost use Rattle.air_field.specs.Degree.{cached_weight, greatest_degree, quotient_degree};
ghost use Rattle.air_symbolic.specs.DegreeTables.{capped, AreDegrees};
ghost use Rattle.air_symbolic.specs.Pools.{FitsBase, size};
ghost use Rattle.air_symbolic.specs.Weights.{leaf_weight};
ghost use Rattle.air_recording.specs.Layouts.{LayoutSuits};
ghost use Rattle.air_recording.specs.Recorded.{terms_of};
ghost use Rattle.air_recording.specs.Inferred.{periods_of, greatest_in, recorded_terms, IsInferred, AnswersInferred, DegreeRefuses};

use crate::layouts::air_layout::AirLayout;
use crate::symbolic::builder::SymbolicAirBuilder;
use crate::symbolic::record::{Recorded, get_all_symbolic_constraints};
use air_builder::{Air, AirError, BaseAir};
use air_field::{ExtensionField, Field, RingError, SelfExtension};
use air_symbolic::{DegreeTable, ExprId, ExprPool, LeafWeight, SymLeaf, checked_degree};
use std::alloc::Global;

/// The constraint degree of a polynomial of degree `poly_degree` over `trace_len` rows: 0 for degree 0, else
/// (poly_degree - 1) / (trace_len - 1), rounded up; fewer than two rows count as two.
pub fn constraint_degree_from_poly_degree(poly_degree: usize, trace_len: usize) -> usize
    ensures { result ≡ quotient_degree poly_degree trace_len }
{
    quotient_of(poly_degree as u128, trace_len) as usize
}

/// As [`constraint_degree_from_poly_degree`], in 128 bits.
fn quotient_of(poly_degree: u128, trace_len: usize) -> u128
    ensures { result ≡ quotient_degree poly_degree trace_len }
{
    if poly_degree == 0 {
        return 0;
    }
    (poly_degree - 1).div_ceil(trace_len.saturating_sub(1).max(1) as u128)
}

/// The greatest cached degree of these expressions; 0 for the empty list.
fn greatest_cached<A: SymLeaf>(pool: &ExprPool<A>, numbers: &[ExprId<A>]) -> usize
    requires owed { FitsBase A.reads pool.now }
    requires here { All (λ i. i < size pool.now) numbers.now }
    ensures { result ≡ greatest_degree cached_weight (terms_of A.reads pool.now numbers.now) }
{
    let mut greatest = 0;
    for number in numbers {
        greatest = pool.degree_multiple(*number).max(greatest);
    }
    greatest
}

/// The greatest of the numbers' degrees in a table; 0 for the empty list.
fn greatest_at<A: Copy>(table: &DegreeTable, numbers: &[ExprId<A>]) -> u128
    requires { All (λ i. i < length table.now.degrees.items) numbers.now }
    ensures { (degree : ℕ → ℕ) →
        AreDegrees degree (length table.now.degrees.items) table.now.degrees.items →
        result ≡ capped (greatest_in (map degree numbers.now)) }
{
    let mut greatest = 0;
    for number in numbers {
        greatest = greatest.max(table.degrees[number.number()]);
    }
    greatest
}

/// The greatest degree of all recorded constraints, by the leaves' weights, or 2^128 - 1 if it is greater than that; 0
/// if there are none. One table for each pool serves all of them. The numbers must be in the pool.
pub fn greatest_degree_of<F: Field, EF: ExtensionField<F>>(
    recorded: &Recorded<F, EF>,
    weight: LeafWeight<'_>,
) -> Result<u128, RingError>
    requires base_here { All (λ i. i < size recorded.now.pool.base) recorded.now.base }
    requires ext_here { All (λ i. i < size recorded.now.pool) recorded.now.ext }
    ensures greatest { IfOk result (λ d. d ≡ capped (greatest_degree (leaf_weight weight.entry)
        (recorded_terms EF.basis recorded.now))) }
    ensures refused { IfErr result (λ e. e ≡ RingError.Memory) }
{
    let (base, ext) = recorded.pool.degree_tables(weight)?;
    Ok(greatest_at(&base, &recorded.base).max(greatest_at(&ext, &recorded.ext)))
}

/// The degree inferred for a linear transition selector: the constraint degree of the greatest polynomial degree over
/// `trace_len` rows and, if no column is periodic, at least the greatest cached degree.
fn trace_degree_of<F: Field, EF: ExtensionField<F>>(
    recorded: &Recorded<F, EF>,
    trace_len: usize,
    periods: &[usize],
) -> Result<usize, RingError>
    requires base_here { All (λ i. i < size recorded.now.pool.base) recorded.now.base }
    requires ext_here { All (λ i. i < size recorded.now.pool) recorded.now.ext }
    ensures { AnswersInferred 0 trace_len periods.now
        (recorded_terms EF.basis recorded.now) result }
{
    let weight = LeafWeight::Trace { trace_len, periods };
    let greatest = greatest_degree_of(recorded, weight)?;
    let degree = checked_degree(quotient_of(greatest, trace_len))?;
    if !periods.is_empty() {
        return Ok(degree);
    }
    let base = greatest_cached(recorded.pool.base(), &recorded.base);
    let ext = greatest_cached(&recorded.pool, &recorded.ext);
    Ok(degree.max(base.max(ext)))
}

/// The degree inferred from the recorded constraints, in a domain with this weight for the transition selector. For
/// weight 0 it is the constraint degree of their greatest polynomial degree over `trace_len` rows and, if no column is
/// periodic, at least their greatest cached degree. For a weight from 1 it is their greatest degree by the cached
/// weights, with this one for the transition selector, whatever `trace_len` and `periods` are.
///
/// The numbers must be in the pool. `DegreeOverflow` means that the inferred degree exceeds `usize`.
fn degree_of<F: Field, EF: ExtensionField<F>>(
    recorded: &Recorded<F, EF>,
    trace_len: usize,
    periods: &[usize],
    transition_weight: usize,
) -> Result<usize, RingError>
    requires base_here { All (λ i. i < size recorded.now.pool.base) recorded.now.base }
    requires ext_here { All (λ i. i < size recorded.now.pool) recorded.now.ext }
    ensures { AnswersInferred transition_weight trace_len periods.now
        (recorded_terms EF.basis recorded.now) result }
{
    if transition_weight == 0 {
        return trace_degree_of(recorded, trace_len, periods);
    }
    let weight = LeafWeight::Transition(transition_weight);
    let greatest = greatest_degree_of(recorded, weight)?;
    checked_degree(greatest)
}

/// The lengths of periodic columns, in order.
fn lengths_of<F>(alloc: Global, columns: &[Vec<F>]) -> Result<Vec<usize>, RingError>
    ensures lengths { IfOk result (λ periods. periods.items ≡ periods_of columns.now) }
    ensures refused { IfErr result (λ e. e ≡ RingError.Memory) }
{
    let mut periods = Vec::with_capacity(alloc, columns.len())?;
    for column in columns {
        periods.push(column.len())?;
    }
    Ok(periods)
}

/// The degree inferred from an AIR's recorded constraints: as [`degree_of`], for the lengths of the AIR's periodic
/// columns, with the same errors. The numbers must be in the pool.
pub fn infer_degree<F: Field, EF: ExtensionField<F>, A: BaseAir<F>>(
    alloc: Global,
    air: &A,
    recorded: &Recorded<F, EF>,
    trace_len: usize,
    transition_weight: usize,
) -> Result<usize, RingError>
    requires base_here { All (λ i. i < size recorded.now.pool.base) recorded.now.base }
    requires ext_here { All (λ i. i < size recorded.now.pool) recorded.now.ext }
    ensures { AnswersInferred transition_weight trace_len
        (periods_of (A.declaration air.now).periodic)
        (recorded_terms EF.basis recorded.now) result }
{
    let periods = lengths_of(alloc, air.periodic_columns())?;
    degree_of(recorded, trace_len, &periods, transition_weight)
}

/// The degree inferred from the recorded base and extension constraints, for a trace of `trace_len` rows in a domain
/// with the weight `transition_weight` for the transition selector.
///
/// Weight 0 means a linear selector: the degree is the constraint degree of the greatest polynomial degree and, if no
/// column is periodic, at least the greatest cached degree. For two rows or more, each recorded polynomial has degree
/// at most d (`trace_len` - 1) + 1, where d is the answer, if the leaves' polynomials have the degrees of a trace of
/// `trace_len` rows. For three rows or more, no smaller d bounds the recorded terms' degrees so.
///
/// For a weight from 1, the degree is the greatest one by the cached weights, with this weight for the selector; a
/// periodic column weighs 1, and `trace_len` plays no part. For two rows or more, each recorded polynomial has degree
/// at most d (`trace_len` - 1), where d is the answer, if each leaf's polynomial has degree at most its weight times
/// (`trace_len` - 1). No smaller d bounds the recorded terms' degrees.
///
/// It fails as the recording does, and with `DegreeOverflow` if the inferred degree exceeds `usize`.
pub fn get_max_constraint_degree_extension<
    F: Field,
    EF: ExtensionField<F>,
    A: Air<SymbolicAirBuilder<F, EF>>,
>(
    alloc: Global,
    air: &A,
    layout: AirLayout,
    trace_len: usize,
    transition_weight: usize,
) -> Result<usize, AirError>
    ensures inferred { IfOk result (IsInferred F.ring EF.over transition_weight trace_len
        (A.declaration air.now)) }
    ensures layout { OnOk result (LayoutSuits layout (A.declaration air.now)) }
    ensures refused { IfErr result (DegreeRefuses F.ring EF.over transition_weight trace_len layout
        (A.declaration air.now)) }
{
    let recorded = get_all_symbolic_constraints(alloc, air, layout)?;
    let degree = infer_degree(alloc, air, &recorded, trace_len, transition_weight)?;
    Ok(degree)
}

/// As [`get_max_constraint_degree_extension`], with the base field as its own extension.
pub fn get_max_constraint_degree<F: SelfExtension, A: Air<SymbolicAirBuilder<F, F>>>(
    alloc: Global,
    air: &A,
    layout: AirLayout,
    trace_len: usize,
    transition_weight: usize,
) -> Result<usize, AirError>
    ensures inferred { IfOk result (IsInferred F.ring F.over transition_weight trace_len
        (A.declaration air.now)) }
    ensures layout { OnOk result (LayoutSuits layout (A.declaration air.now)) }
    ensures refused { IfErr result (DegreeRefuses F.ring F.over transition_weight trace_len layout
        (A.declaration air.now)) }
{
    get_max_constraint_degree_extension(alloc, air, layout, trace_len, transition_weight)
}

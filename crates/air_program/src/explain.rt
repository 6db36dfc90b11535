//! The answer to the word `explain`: the findings of the audit of a JSON object, with an explanation below each
//! failure.

ghost use Rattle.std.specs.Prelude.{◌≡◌, ◌<◌, ◌≤◌, ◌-◌, ◌++◌, ◌∷◌, [], ℕ, List, length, map, All, IfOk, IfSome, OnOk, slice_get, slice_index_or, string_bytes};
ghost use Rattle.air_field.specs.Assignment.{row_assignment};
ghost use Rattle.air_symbolic.specs.BaseLeaves.{base_leaves};
ghost use Rattle.air_symbolic.specs.Pools.{size};
ghost use Rattle.air_symbolic.specs.Reach.{Marked};
ghost use Rattle.air_print.specs.Explained.{explained_lines};
ghost use Rattle.air_print.specs.Lines.{lines_text};
ghost use Rattle.air_print.specs.Names.{AreNames};
ghost use Rattle.air_print.specs.Reading.{Reads};
ghost use Rattle.air_print.specs.Rows.{trace_of};
ghost use Rattle.air_print.specs.Values.{AreClosed};
ghost use Rattle.air_report.specs.FailureTexts.{seen_failure};
ghost use Rattle.air_object.specs.Parts.{InPool};
ghost use Rattle.air_program.specs.AtHand.{KnownAt, AreKept};
ghost use Rattle.air_program.specs.ByField.{AnswersParts};
ghost use Rattle.air_program.specs.Explained.{failing_roots, cell_lines, PushesNames, PushesExplained, ExplainsInput, ExplainedIn};
ghost use Rattle.air_program.specs.FlatAnswer.{input_of};
ghost use Rattle.air_program.specs.Refusals.{GivesAnswer};

use crate::answer::status;
use crate::flat::{Audited, audit_object};
use crate::reasons::refused_input;
use crate::refusals::Refusal;
use crate::texts::{Answer, push_counts, push_failure};
use air_audit::{ConstraintFailure, FlatAir};
use air_field::PrimeField64;
use air_object::{BaseId, BasePool, Parts};
use air_print::{
    Names, TraceRows, push_cell, push_explained, push_reached_definitions, reads, values_at,
};
use air_symbolic::{BaseLeaf, reached_nodes};
use std::alloc::{AllocError, Global};
use std::collections::BTreeMap;

/// A row, and the values of the expressions there.
#[derive(Drop)]
pub(crate) struct RowValues<F: PrimeField64> {
    pub(crate) row: usize,
    pub(crate) values: Vec<F>,
}

// What each root that was explained reads.
type Kept<F> = BTreeMap<BaseId<F>, Vec<BaseId<F>>>;

// The values at a row: the cached ones, if they are of this row.
fn at_row<F: PrimeField64>(
    alloc: Global,
    pool: &BasePool<F>,
    marks: &[Option<BaseId<F>>],
    trace: &TraceRows<'_, F>,
    at_hand: Option<RowValues<F>>,
    row: usize,
) -> Result<RowValues<F>, AllocError>
    requires marks { AreClosed pool.now.nodes marks.now }
    requires row { row < length trace.now.main.now.rows }
    requires known { IfSome at_hand
        (KnownAt F.ring (trace_of trace.now) pool.now.nodes marks.now) }
    ensures row { IfOk result (λ at. at.row ≡ row) }
    ensures known { IfOk result
        (KnownAt F.ring (trace_of trace.now) pool.now.nodes marks.now) }
{
    if let Some(at) = at_hand {
        if at.row == row {
            return Ok(at);
        }
    }
    let values = values_at(alloc, pool, marks, trace, row)?;
    Ok(RowValues { row, values })
}

// The roots of the failures' constraints.
fn failing_roots<F: PrimeField64>(
    alloc: Global,
    roots: &[BaseId<F>],
    failures: &[ConstraintFailure],
) -> Result<Vec<BaseId<F>>, AllocError>
    ensures { IfOk result (λ failing. failing.items ≡
        failing_roots roots.now (map seen_failure failures.now)) }
{
    let mut failing = Vec::new(alloc);
    for failure in failures {
        if let Some(root) = roots.get(failure.constraint) {
            failing.push(*root)?;
        }
    }
    Ok(failing)
}

// Appends the line of the failure's boundary value, if there is one.
fn push_cell_below<F: PrimeField64>(
    text: &mut String,
    air: &FlatAir<F>,
    trace: &TraceRows<'_, F>,
    failure: &ConstraintFailure,
) -> Result<(), AllocError>
    requires { length air.now.roots.items ≤ failure.now.constraint }
    ensures { OnOk result (string_bytes text.new ≡ string_bytes text.old ++ lines_text
        (cell_lines F.residues (row_assignment F.ring (trace_of trace.now) failure.now.row)
        (slice_get air.now.beside.cells.items
        (failure.now.constraint - length air.now.roots.items)))) }
{
    match air.beside.cells.get(failure.constraint - air.roots.len()) {
        Some(cell) => push_cell(text, trace, failure.row, cell.column, cell.public_value),
        None => Ok(()),
    }
}

// Appends the lines that explain a root, and keeps what it reads.
fn push_root_below<F: PrimeField64>(
    alloc: Global,
    text: &mut String,
    pool: &BasePool<F>,
    names: &Names<BaseLeaf<F>>,
    values: &[F],
    kept: &mut Kept<F>,
    root: BaseId<F>,
) -> Result<(), AllocError>
    requires here { root < size pool.now }
    requires places { length values.now ≡ size pool.now }
    requires kept { AreKept pool.now.nodes kept.old }
    ensures pushes { OnOk result ((read : List ℕ) × Reads pool.now.nodes root read
        × (string_bytes text.new ≡ string_bytes text.old ++ lines_text (explained_lines F.residues
        pool.now names.now.1 (λ i. slice_index_or values.now i F.ring.zero) root read))) }
    ensures kept { OnOk result (AreKept pool.now.nodes kept.new) }
{
    if let Some(read) = kept.get(&root) {
        return push_explained(alloc, text, pool, names, values, root, read);
    }
    let read = reads(alloc, pool, root)?;
    push_explained(alloc, text, pool, names, values, root, &read)?;
    kept.insert(root, read)?;
    Ok(())
}

// Appends a failure and its explanation. Answers the values to cache for the next failure.
fn push_explained_failure<F: PrimeField64>(
    alloc: Global,
    text: &mut String,
    air: &FlatAir<F>,
    names: &Names<BaseLeaf<F>>,
    marks: &[Option<BaseId<F>>],
    trace: &TraceRows<'_, F>,
    at_hand: Option<RowValues<F>>,
    kept: &mut Kept<F>,
    failure: &ConstraintFailure,
) -> Result<Option<RowValues<F>>, AllocError>
    requires marks { AreClosed air.now.pool.nodes marks.now }
    requires roots { All (λ i. Marked marks.now i) air.now.roots.items }
    requires known { IfSome at_hand
        (KnownAt F.ring (trace_of trace.now) air.now.pool.nodes marks.now) }
    requires kept { AreKept air.now.pool.nodes kept.old }
    ensures pushes { OnOk result (PushesExplained F.residues air.now.pool air.now.roots.items
        air.now.beside.cells.items (trace_of trace.now) names.now.1 (seen_failure failure.now ∷ [])
        (string_bytes text.old) (string_bytes text.new)) }
    ensures known { IfOk result (λ at. IfSome at
        (KnownAt F.ring (trace_of trace.now) air.now.pool.nodes marks.now)) }
    ensures kept { OnOk result (AreKept air.now.pool.nodes kept.new) }
{
    push_failure(alloc, text, failure)?;
    let Some(root) = air.roots.get(failure.constraint) else {
        push_cell_below(text, air, trace, failure)?;
        return Ok(at_hand);
    };
    if failure.row >= trace.main.height() {
        return Ok(at_hand);
    }
    let at = at_row(alloc, &air.pool, marks, trace, at_hand, failure.row)?;
    push_root_below(alloc, text, &air.pool, names, &at.values, kept, *root)?;
    Ok(Some(at))
}

// Appends each failure and its explanation.
fn push_failures<F: PrimeField64>(
    alloc: Global,
    text: &mut String,
    air: &FlatAir<F>,
    names: &Names<BaseLeaf<F>>,
    trace: &TraceRows<'_, F>,
    failures: &[ConstraintFailure],
) -> Result<(), AllocError>
    ensures { OnOk result (PushesExplained F.residues air.now.pool air.now.roots.items
        air.now.beside.cells.items (trace_of trace.now) names.now.1 (map seen_failure failures.now)
        (string_bytes text.old) (string_bytes text.new)) }
{
    let Ok(marks) = reached_nodes(alloc, &air.pool, &air.roots) else {
        return Err(AllocError);
    };
    let mut at_hand = None;
    let mut kept = BTreeMap::new(alloc);
    for failure in failures {
        at_hand = push_explained_failure(
            alloc, text, air, names, &marks, trace, at_hand, &mut kept, failure,
        )?;
    }
    Ok(())
}

// Appends the definition of each name that a failing constraint reaches.
fn push_names<F: PrimeField64>(
    alloc: Global,
    text: &mut String,
    air: &FlatAir<F>,
    names: &Names<BaseLeaf<F>>,
    failures: &[ConstraintFailure],
) -> Result<(), AllocError>
    requires { AreNames base_leaves air.now.pool.nodes air.now.roots.items names.now }
    ensures { OnOk result (PushesNames F.residues air.now.pool air.now.roots.items names.now
        (map seen_failure failures.now) (string_bytes text.old) (string_bytes text.new)) }
{
    let failing = failing_roots(alloc, &air.roots, failures)?;
    let Ok(marks) = reached_nodes(alloc, &air.pool, &failing) else {
        return Err(AllocError);
    };
    push_reached_definitions(alloc, text, &air.pool, names, &marks)
}

// The lines of the audit's findings, explained.
fn explained_text<F: PrimeField64>(
    alloc: Global,
    audited: &Audited<F>,
) -> Result<String, AllocError>
    ensures { IfOk result (λ text. ExplainsInput F.residues
        (input_of audited.now.air.pool audited.now.air.roots audited.now.air.labels
        audited.now.air.beside audited.now.trial) audited.now.audit (string_bytes text)) }
{
    let Audited { air, trial, audit } = audited;
    let trace = TraceRows {
        main: &trial.main,
        preprocessed: &air.beside.preprocessed,
        periodic: &air.beside.periodic,
        public_values: &trial.public_values,
    };
    let failures = &audit.report.failures;
    let names = Names::of(alloc, &air.pool, &air.roots)?;
    let mut text = String::new(alloc);
    push_counts(&mut text, audit)?;
    push_names(alloc, &mut text, air, &names, failures)?;
    push_failures(alloc, &mut text, air, &names, &trace, failures)?;
    Ok(text)
}

/// The answer that explains each failure of an audit of an object over F with these parts, which were read from the
/// bytes.
pub(crate) fn explain_parts<F: PrimeField64 + 'static>(
    alloc: Global,
    bytes: &[u8],
    parts: Parts<F>,
) -> Result<Answer, Refusal>
    requires { InPool parts.constraints }
    ensures { GivesAnswer (AnswersParts ExplainedIn F.residues bytes.now parts) result }
{
    let audited = match audit_object(alloc, parts) {
        Ok(audited) => audited,
        Err(error) => return refused_input::<F>(alloc, bytes, error),
    };
    let text = explained_text(alloc, &audited)?;
    let status = status(&audited.audit);
    Ok(Answer { status, text })
}

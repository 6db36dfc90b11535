//! The answer to a whole input.

ghost use Rattle.std.specs.Prelude.{◌≡◌, ◌%◌, ◌<◌, ◌^◌, length, vec_len, IfOk, IfErr, string_bytes};
ghost use Rattle.air_field.specs.Grid.{grid_of};
ghost use Rattle.air_audit.specs.Theorem.{instance};
ghost use Rattle.air_program.specs.Texts.{found_in, findings_status, TellsFound};
ghost use Rattle.air_program.specs.Commands.{has_labels};
ghost use Rattle.air_program.specs.Grammar.{parse};
ghost use Rattle.air_program.specs.Answer.{IsCappedAudit, CappedAuditRefuses, IsAnswerTo};
ghost use Rattle.air_program.specs.Refusals.{GivesAnswer};
ghost use Rattle.air_program.specs.Requests.{Answers};

use crate::by_field::answer_object;
use crate::commands::{Command, Request, TraceAudit};
use crate::input::{Input, parse};
use crate::refusals::Refusal;
use crate::texts::{Answer, findings_text};
use air_audit::{
    Air, Audit, BaseAir, DebugConstraintBuilder, SymbolicAirBuilder, audit_air_with_cap,
};
use air_builder::AirError;
use air_field::{BabyBear, PrimeField64, RowMajorMatrix};
use air_object::Trial;
use example_fibonacci::Fibonacci;
use std::alloc::Global;

/// The trace of these values, two a row.
fn trace_of(values: Vec<BabyBear>) -> RowMajorMatrix<BabyBear>
    requires { vec_len values % 2 ≡ 0 }
    ensures trace { result ≡ grid_of 2 values.items }
    ensures height { length result.rows < 2 ^ 63 }
{
    match RowMajorMatrix::new(values, 2) {
        Ok(main) => main,
        Err(_) => unreachable!(),
    }
}

/// The AIR of a command.
fn air_of(command: Command) -> Fibonacci
    ensures { result.is_named ≡ has_labels command }
{
    match command {
        Command::Fibonacci => Fibonacci::new(),
        Command::Named => Fibonacci::with_labels(),
    }
}

/// The audit of an AIR on a trial.
pub(crate) fn audit_on<
    'a,
    F: PrimeField64 + 'static,
    A: BaseAir<F> + Air<SymbolicAirBuilder<F, F>> + Air<DebugConstraintBuilder<'a, F, F>>,
>(alloc: Global, air: &'a A, trial: &'a Trial<F>) -> Result<Audit<F>, AirError>
    ensures audited { IfOk result (IsCappedAudit F.residues
        (instance (A.declaration air.now) trial.now.main trial.now.public_values.items)
        trial.now.cap trial.now.transition_weight) }
    ensures refused { IfErr result (CappedAuditRefuses F.residues
        (instance (A.declaration air.now) trial.now.main trial.now.public_values.items)
        trial.now.cap trial.now.transition_weight) }
{
    let (cap, weight) = (trial.cap, trial.transition_weight);
    audit_air_with_cap(alloc, air, &trial.main, &trial.public_values, cap, weight)
}

/// 0 without failures, otherwise 1.
pub(crate) fn status<F: PrimeField64>(audit: &Audit<F>) -> u8
    ensures { result ≡ findings_status (found_in audit.now) }
{
    if audit.report.failures.is_empty() {
        0
    } else {
        1
    }
}

/// The answer that lists the failures of an audit.
pub(crate) fn render<F: PrimeField64>(alloc: Global, audit: &Audit<F>) -> Result<Answer, Refusal>
    ensures tells { IfOk result (λ a. TellsFound audit.now a.status (string_bytes a.text)) }
    ensures refused { IfErr result (λ why. why ≡ Refusal.Memory) }
{
    let text = findings_text(alloc, audit)?;
    let status = status(audit);
    Ok(Answer { status, text })
}

/// The answer to a trace of Fibonacci. The trace has the right shape, so the audit has only two errors: `Memory`, and
/// `DegreeOverflow` for a large weight.
fn answer_trace(alloc: Global, asked: TraceAudit, input: &[u8]) -> Result<Answer, Refusal>
    ensures { GivesAnswer (IsAnswerTo asked.cap asked.transition_weight (parse input.now)) result }
{
    let Input {
        public_values,
        values,
    } = parse(alloc, input)?;
    let main = trace_of(values);
    let trial = Trial {
        main,
        public_values,
        cap: asked.cap,
        transition_weight: asked.transition_weight,
    };
    let fibonacci = air_of(asked.command);
    let audit = audit_on(alloc, &fibonacci, &trial)?;
    render(alloc, &audit)
}

/// The answer to an input.
pub fn answer(alloc: Global, request: Request, input: &[u8]) -> Result<Answer, Refusal>
    ensures { GivesAnswer (Answers request input.now) result }
{
    match request {
        Request::Trace(asked) => answer_trace(alloc, asked, input),
        Request::Object(wanted) => answer_object(alloc, wanted, input),
    }
}

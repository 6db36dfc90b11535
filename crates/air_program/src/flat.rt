//! The audit of a JSON object: an AIR whose constraints are lists of nodes, and its trace.

ghost use Rattle.std.specs.Prelude.{◌≢◌, ℕ, List, IfOk, IfErr};
ghost use Rattle.serde_json.specs.Data.{Data};
ghost use Rattle.air_core.specs.declared.errors.AirError.{AirError};
ghost use Rattle.air_object.specs.Parts.{InPool};
ghost use Rattle.air_program.specs.ByField.{HasParts, AnswersParts};
ghost use Rattle.air_program.specs.FlatAnswer.{input_of, AuditsValue, RefusesValue, AuditedIn};
ghost use Rattle.air_program.specs.Refusals.{GivesAnswer};

use crate::answer::{audit_on, render};
use crate::refusals::Refusal;
use crate::texts::Answer;
use air_audit::{Audit, FlatAir};
use air_builder::AirError;
use air_field::PrimeField64;
use air_object::{FlatInput, Labelled, Parts, Trial, input_from};
use std::alloc::Global;

/// The AIR of an object, what it was audited on, and the audit.
#[derive(Drop)]
pub(crate) struct Audited<F: PrimeField64> {
    pub(crate) air: FlatAir<F>,
    pub(crate) trial: Trial<F>,
    pub(crate) audit: Audit<F>,
}

/// Audits the AIR of an object over F with these parts, each of whose roots must be zero, on its trace.
pub(crate) fn audit_object<F: PrimeField64 + 'static>(
    alloc: Global,
    parts: Parts<F>,
) -> Result<Audited<F>, AirError>
    requires { InPool parts.constraints }
    ensures audited { IfOk result (λ a. (d : Data) → HasParts F.residues parts d
        → AuditsValue F.residues d (input_of a.air.pool a.air.roots a.air.labels
        a.air.beside a.trial) a.audit) }
    ensures refused { IfErr result (λ e. e ≢ AirError.Memory → (d : Data)
        → HasParts F.residues parts d → RefusesValue F.residues d e) }
{
    let Parts {
        rest,
        main,
        constraints,
    } = parts;
    let FlatInput {
        constraints,
        beside,
        trial,
    } = input_from(alloc, &rest, main, constraints)?;
    let Labelled {
        pool,
        roots,
        labels,
    } = constraints;
    let air = FlatAir::new(pool, roots, beside)?;
    let air = air.with_labels(labels);
    let audit = audit_on(alloc, &air, &trial)?;
    Ok(Audited { air, trial, audit })
}

/// The answer that lists the failures of such an audit.
pub(crate) fn audit_parts<F: PrimeField64 + 'static>(
    alloc: Global,
    parts: Parts<F>,
) -> Result<Answer, Refusal>
    requires { InPool parts.constraints }
    ensures { (bytes : List ℕ) → GivesAnswer (AnswersParts AuditedIn F.residues bytes parts)
        result }
{
    let audited = audit_object(alloc, parts)?;
    render(alloc, &audited.audit)
}

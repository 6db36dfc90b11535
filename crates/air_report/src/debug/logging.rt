//! The log of a row: the number of assertions, and the failures.
ghost use Rattle.std.specs.Prelude.{◌≡◌, ◌+◌, ◌++◌, ◌^◌, ℕ, List, [], ◌∷◌, Option, false, IfOk, OnOk, OnErr, IfErr, IfSome};
ghost use Rattle.air_report.specs.DebugLabels.{KeepsText, IsNameless, MayDisplay, LogsFailure, LogsOne, LogRefuses};
ghost use Rattle.air_report.specs.DebugRow.{debug_row};

use crate::debug::builder::DebugConstraintBuilder;
use crate::debug::failure::ConstraintFailure;
use air_builder::{AirError, Name};
use air_field::{ExtensionField, Field};
use std::alloc::{AllocError, Global};
use std::mem;
use std::string::ToString;

/// The label of a name: the text that it displays, or none if that is empty.
fn label_of<N: Name>(alloc: Global, name: N) -> Result<Option<String>, AllocError>
    requires { N.can_evaluate name }
    ensures { IfOk result (λ label. (text : Option (List ℕ)) × N.displays name text × KeepsText text
        label) }
{
    let text = name.evaluate()?.to_string(alloc)?;
    if text.is_empty() {
        Ok(None)
    } else {
        Ok(Some(text))
    }
}

/// A list of this length mostly gets much longer, and copying it at each doubling costs more than the checks. When it
/// is full, it reserves room for two million more failures at once.
const LONG: usize = 1 << 15;

/// Appends a failure to a list that may be full. If the large reservation is refused, the push reserves what it needs.
#[cold]
#[inline(never)]
fn add(failures: &mut Vec<ConstraintFailure>, failure: ConstraintFailure) -> Result<(), AllocError>
    ensures ok { OnOk result (failures.new.items ≡ failures.old.items ++ failure ∷ []) }
    ensures err { OnErr result (failures.new.items ≡ failures.old.items) }
{
    if failures.len() >= LONG && failures.len() == failures.capacity() {
        let _ = failures.reserve(64 * LONG);
    }
    failures.push(failure)?;
    Ok(())
}

/// Keeps a failure with the text that its name displays. Returns `AllocError`, which is zero-sized: an `AirError` would
/// reserve a stack slot on the path where the assertion holds.
#[cold]
#[inline(never)]
fn keep_named<N: Name>(
    failures: &mut Vec<ConstraintFailure>,
    row: usize,
    constraint: usize,
    name: N,
) -> Result<(), AllocError>
    requires { N.can_evaluate name }
    ensures ok { OnOk result (LogsFailure row constraint (N.displays name)
        failures.old.items failures.new.items) }
    ensures err { OnErr result (failures.new.items ≡ failures.old.items) }
{
    let label = label_of(*failures.allocator(), name)?;
    let failure = ConstraintFailure {
        row,
        constraint,
        label,
    };
    add(failures, failure)
}

/// Keeps a failure without a name, in a list that may be full.
#[cold]
#[inline(never)]
fn keep_in_full(
    failures: &mut Vec<ConstraintFailure>,
    row: usize,
    constraint: usize,
) -> Result<(), AllocError>
    ensures ok { OnOk result (LogsFailure row constraint IsNameless
        failures.old.items failures.new.items) }
    ensures err { OnErr result (failures.new.items ≡ failures.old.items) }
{
    let failure = ConstraintFailure {
        row,
        constraint,
        label: None,
    };
    add(failures, failure)
}

/// Keeps a failure without a name. A separate function, since labels and full lists need registers, which each failure
/// would then have to save.
#[cold]
#[inline(never)]
fn keep_nameless(
    failures: &mut Vec<ConstraintFailure>,
    row: usize,
    constraint: usize,
) -> Result<(), AllocError>
    ensures ok { OnOk result (LogsFailure row constraint IsNameless
        failures.old.items failures.new.items) }
    ensures err { OnErr result (failures.new.items ≡ failures.old.items) }
{
    if failures.len() < failures.capacity() {
        failures.push_reserved(ConstraintFailure {
            row,
            constraint,
            label: None,
        });
        return Ok(());
    }
    keep_in_full(failures, row, constraint)
}

/// Keeps a failure, with the text that its name displays, if it has one.
#[inline(always)]
fn keep_failure<N: Name>(
    failures: &mut Vec<ConstraintFailure>,
    row: usize,
    constraint: usize,
    name: Option<N>,
) -> Result<(), AllocError>
    requires { IfSome name N.can_evaluate }
    ensures ok { OnOk result (LogsFailure row constraint (MayDisplay N.displays name)
        failures.old.items failures.new.items) }
    ensures err { OnErr result (failures.new.items ≡ failures.old.items) }
{
    match name {
        Some(name) => keep_named(failures, row, constraint, name),
        None => keep_nameless(failures, row, constraint),
    }
}

impl<'a, F: Field, EF: ExtensionField<F>> DebugConstraintBuilder<'a, F, EF> {
    /// Counts an assertion. If it doesn't hold, keeps its failure, and evaluates the name only then. Fails with
    /// `CountOverflow` if the counter is at its maximum, and with `Memory` only if the assertion doesn't hold.
    #[inline(always)]
    pub(crate) fn log<N: Name>(&mut self, holds: bool, name: Option<N>) -> Result<(), AirError>
        requires { holds ≡ false → IfSome name N.can_evaluate }
        ensures keeps { debug_row self.new ≡ debug_row self.old }
        ensures ok { OnOk result (LogsOne self.old.row.index self.old.constraint_index
            self.new.constraint_index (MayDisplay N.displays name) holds self.old.failures.items
            self.new.failures.items) }
        ensures err_count { OnErr result (self.new.constraint_index ≡ self.old.constraint_index) }
        ensures err { OnErr result (self.new.failures.items ≡ self.old.failures.items) }
        ensures refused { IfErr result (LogRefuses self.old.constraint_index holds) }
    {
        if self.constraint_index == usize::MAX {
            return Err(AirError::CountOverflow);
        }
        if !holds {
            // lends only the failures to the call, so that a row's builder needn't be in memory
            let none = Vec::new(*self.failures.allocator());
            let mut failures = mem::replace(&mut self.failures, none);
            let kept = keep_failure(&mut failures, self.row.index, self.constraint_index, name);
            self.failures = failures;
            kept?;
        }
        self.constraint_index += 1;
        Ok(())
    }
}

//! The state on which the lines of a table are tried.

use crate::assertions::{Answer, answer_row};
use crate::recorded::{recorded_counter, recorded_elsewhere};
use crate::reports::{Asked, Given, given_of, show_base_audit, show_check};
use crate::rows::{lend, show_resolved};
use air_audit::{ExtensionField, Field};
use std::alloc::Global;
use std::marker::PhantomData;
use test_airs::words::cap_of;
use test_airs::{Airs, TableAir};
use test_lines::words::{Number, count_of};
use test_lines::{Bench, Fault, Line, Why};

/// The AIRs that lines have made; checks are called on them. (Over any fields, like all functions here, since a call on
/// a builder over concrete fields is slow to prove.)
#[derive(Drop)]
pub struct Checks<'a, F: Field, EF> {
    airs: Airs<'a, F>,
    alloc: Global,
    extension: PhantomData<EF>,
}

// The question that a call on a row asks, or `None`.
fn asked_of_row(call: &str) -> Option<Answer> {
    match call {
        "formatted_failures" => Some(Answer::Formatted),
        "has_failures" => Some(Answer::Has),
        "failures" => Some(Answer::Shown),
        "into_failures" => Some(Answer::Copied),
        _ => None,
    }
}

// The question to a check that returns a report.
fn asked_of_report(rest: &[&str], copied: bool) -> Result<Asked, Fault> {
    let [cap] = rest else {
        return Err(Fault::Unreadable(Why::NoSuchCall));
    };
    let cap = cap_of(*cap)?;
    Ok(Asked::Report { cap, copied })
}

// The question to a check that returns the first failure.
fn asked_of_first(rest: &[&str], in_words: bool) -> Result<Asked, Fault> {
    match rest {
        [] => Ok(Asked::First { in_words }),
        _ => Err(Fault::Unreadable(Why::NoSuchCall)),
    }
}

// The question to a check.
fn asked_of_check(call: &str, rest: &[&str]) -> Result<Asked, Fault> {
    match call {
        "check_all_constraints" => asked_of_report(rest, false),
        "cloned_report" => asked_of_report(rest, true),
        "check_constraints" => asked_of_first(rest, false),
        "check_constraints_text" => asked_of_first(rest, true),
        _ => Err(Fault::Unreadable(Why::NoSuchCall)),
    }
}

// Adds the answer of an audit.
fn audit_given<F: Number + 'static>(
    alloc: Global,
    air: &TableAir<F>,
    given: &Given<F>,
    rest: &[&str],
    text: &mut String,
) -> Result<(), Fault> {
    let [weight] = rest else {
        return Err(Fault::Unreadable(Why::NoSuchCall));
    };
    let weight = count_of(*weight)?;
    show_base_audit(
        alloc,
        air,
        &given.main,
        given.public.as_slice(),
        weight,
        text,
    )
}

// Adds the answer of a check or an audit of an AIR on the given trace.
fn check_given<F: Number + 'static>(
    alloc: Global,
    air: &TableAir<F>,
    given: &Given<F>,
    call: &str,
    rest: &[&str],
    text: &mut String,
) -> Result<(), Fault> {
    match call {
        "audit_air" => audit_given(alloc, air, given, rest, text),
        _ => show_check(alloc, air, given, asked_of_check(call, rest)?, text),
    }
}

impl<'a, F: Number + 'static, EF: ExtensionField<F> + 'static> Checks<'a, F, EF> {
    // Adds the answer of a call on an AIR, a trace and public values.
    fn check(&self, call: &str, words: &[&str], text: &mut String) -> Result<(), Fault> {
        match words {
            [air, main, public, rest @ ..] => {
                let air = self.airs.air(*air)?;
                let given = given_of(self.alloc, *main, *public)?;
                check_given(self.alloc, air, &given, call, rest, text)
            }
            _ => Err(Fault::Unreadable(Why::NoSuchCall)),
        }
    }

    fn resolve(&self, words: &[&str], text: &mut String) -> Result<(), Fault> {
        let [x, words @ ..] = words else {
            return Err(Fault::Unreadable(Why::NoSuchCall));
        };
        show_resolved(self.alloc, &self.airs.pool, *x, words, text)
    }

    // Adds the answer of a call that isn't about a row.
    fn answer_other(&self, call: &str, words: &[&str], text: &mut String) -> Result<(), Fault> {
        match (call, words) {
            ("audit_recorded_counter", [main, weight]) => {
                recorded_counter::<F>(self.alloc, *main, *weight, text)
            }
            ("recorded_elsewhere", []) => recorded_elsewhere::<F>(self.alloc, text),
            _ => self.check(call, words, text),
        }
    }

    // Adds the answer of a call.
    fn answer_call(&self, call: &str, words: &[&str], text: &mut String) -> Result<(), Fault> {
        if let Some(answer) = asked_of_row(call) {
            return answer_row::<F, EF>(self.alloc, &self.airs, answer, words, text);
        }
        match call {
            "lent" => lend::<F>(self.alloc, words, text),
            "resolve" => self.resolve(words, text),
            _ => self.answer_other(call, words, text),
        }
    }
}

impl<'a, F: Number + 'static, EF: ExtensionField<F> + 'static> Bench<'a> for Checks<'a, F, EF> {
    fn new(alloc: Global) -> Self {
        Checks {
            airs: Airs::new(alloc),
            alloc,
            extension: PhantomData,
        }
    }

    fn answer(&mut self, line: &Line<'a>, text: &mut String) -> Result<(), Fault> {
        if self.airs.answer(line)? {
            return Ok(());
        }
        match line.words.as_slice() {
            [call, words @ ..] => self.answer_call(*call, words, text),
            [] => Err(Fault::Unreadable(Why::NoSuchCall)),
        }
    }

    fn show_state(&self, text: &mut String) -> Result<(), Fault> {
        self.airs.show_state(text)
    }
}

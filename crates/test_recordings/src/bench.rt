//! The state on which lines are tried.

use crate::audits::Given;
use crate::filters::show_when;
use crate::folds::{answer_hiding, row_of};
use crate::kinds::{by_base, by_extension};
use crate::layouts::{answer_layout, layout_of, show_air_layout};
use crate::lent::answer_lent;
use air_field::{ExtensionField, Field};
use air_recording::AirLayout;
use std::alloc::Global;
use std::marker::PhantomData;
use test_airs::words::{cap_of, trace_of};
use test_airs::{Airs, TableAir};
use test_lines::words::{Number, count_of, listed_elements};
use test_lines::{Bench, Fault, Line, Why};

/// The AIRs that lines have made, over these fields. (Concrete fields are named only where the tables are checked,
/// since at concrete fields each call is slow to prove.)
#[derive(Drop)]
pub struct AirBench<'a, F: Field, EF> {
    alloc: Global,
    airs: Airs<'a, F>,
    extension: PhantomData<EF>,
}

/// Calls that need no AIR.
#[derive(Drop)]
pub struct Alone<F, EF> {
    alloc: Global,
    fields: PhantomData<(F, EF)>,
}

// The public values of a word, and the weight of the transition selector.
fn values_and_weight<F: Field>(
    alloc: Global,
    public: &str,
    weight: &str,
) -> Result<(Vec<F>, usize), Fault> {
    let public_values = listed_elements(alloc, public)?;
    let weight = count_of(weight)?;
    Ok((public_values, weight))
}

// The input of an audit, from its words.
fn given_of<F: Field>(
    alloc: Global,
    trace: &str,
    public: &str,
    weight: &str,
    cap: Option<Option<usize>>,
) -> Result<Given<F>, Fault> {
    let main = trace_of(alloc, trace)?;
    let (public_values, transition_weight) = values_and_weight(alloc, public, weight)?;
    Ok(Given {
        main,
        public_values,
        transition_weight,
        cap,
    })
}

// The input of an audit with a cap, from its words.
fn given_with_cap<F: Field>(
    alloc: Global,
    trace: &str,
    public: &str,
    cap: &str,
    weight: &str,
) -> Result<Given<F>, Fault> {
    let cap = cap_of(cap)?;
    given_of(alloc, trace, public, weight, Some(cap))
}

// The input of an audit, or `None` for another call.
fn audited_of<F: Field>(
    alloc: Global,
    call: &str,
    words: &[&str],
) -> Result<Option<Given<F>>, Fault> {
    match words {
        [trace, public, weight] if call == "audit_air" => {
            Ok(Some(given_of(alloc, *trace, *public, *weight, None)?))
        }
        [trace, public, cap, weight] if call == "audit_air_with_cap" => {
            Ok(Some(given_with_cap(alloc, *trace, *public, *cap, *weight)?))
        }
        _ => Ok(None),
    }
}

// Adds the answer of an audit of an AIR.
fn show_audit_of<F: Number + 'static>(
    alloc: Global,
    air: &TableAir<F>,
    given: Given<F>,
    text: &mut String,
) -> Result<(), Fault> {
    by_base(
        alloc,
        air,
        &Some(given),
        AirLayout::default(),
        "audit_air",
        &[],
        text,
    )?;
    Ok(())
}

// The AIR's own layout, with the changes that the word gives.
fn layout_by<F: Field>(air: &TableAir<F>, word: &str) -> Result<AirLayout, Fault> {
    layout_of(AirLayout::from_air::<F, TableAir<F>>(air), word)
}

// Adds whether the layout suits the AIR. More words are an error.
fn show_validation<F: Field>(
    air: &TableAir<F>,
    layout: AirLayout,
    words: &[&str],
    text: &mut String,
) -> Result<(), Fault> {
    if !words.is_empty() {
        return Err(Fault::Unreadable(Why::NoSuchCall));
    }
    layout.validate_against_air::<F, TableAir<F>>(air)?;
    text.push_str("accepted")?;
    Ok(())
}

// Adds the answer of a call that records an AIR over the base field. Returns whether this is such a call.
fn recorded_over_base<F: Number + 'static>(
    alloc: Global,
    air: &TableAir<F>,
    layout: AirLayout,
    call: &str,
    words: &[&str],
    text: &mut String,
) -> Result<bool, Fault> {
    let no_audit = None;
    by_base(alloc, air, &no_audit, layout, call, words, text)
}

// Adds the answer of a call that records an AIR with an extension.
fn recorded_with_extension<F: Number + 'static, EF: ExtensionField<F> + 'static>(
    alloc: Global,
    air: &TableAir<F>,
    layout: AirLayout,
    call: &str,
    words: &[&str],
    text: &mut String,
) -> Result<(), Fault> {
    let no_row = None;
    by_extension::<F, EF>(alloc, air, &no_row, layout, call, words, text)
}

// Adds the answer of a call that records an AIR, over the base field or with an extension.
fn show_recording_call<F: Number + 'static, EF: ExtensionField<F> + 'static>(
    alloc: Global,
    air: &TableAir<F>,
    layout: AirLayout,
    call: &str,
    words: &[&str],
    text: &mut String,
) -> Result<(), Fault> {
    if recorded_over_base(alloc, air, layout, call, words, text)? {
        return Ok(());
    }
    recorded_with_extension::<F, EF>(alloc, air, layout, call, words, text)
}

// Adds the fold of an AIR's values at the row given by the words.
fn show_fold<F: Number + 'static, EF: ExtensionField<F> + 'static>(
    alloc: Global,
    air: &TableAir<F>,
    layout: AirLayout,
    words: &[&str],
    text: &mut String,
) -> Result<(), Fault> {
    let row = Some(row_of::<F, EF>(alloc, words)?);
    by_extension::<F, EF>(alloc, air, &row, layout, "fold_air", words, text)
}

// Adds the recording of an AIR's constraints under the constant condition given by the word.
fn recorded_when<F: Number, EF: ExtensionField<F>>(
    alloc: Global,
    air: &TableAir<F>,
    layout: AirLayout,
    words: &[&str],
    text: &mut String,
) -> Result<(), Fault> {
    let [condition] = words else {
        return Err(Fault::Unreadable(Why::NoSuchCall));
    };
    show_when::<F, EF>(alloc, air, layout, *condition, text)
}

// Adds the answer of a call on an AIR and a layout.
fn answer_by<F: Number + 'static, EF: ExtensionField<F> + 'static>(
    alloc: Global,
    air: &TableAir<F>,
    layout: AirLayout,
    call: &str,
    words: &[&str],
    text: &mut String,
) -> Result<(), Fault> {
    match call {
        "fold_air" => show_fold::<F, EF>(alloc, air, layout, words, text),
        "eval_when" => recorded_when::<F, EF>(alloc, air, layout, words, text),
        "validate_against_air" => show_validation(air, layout, words, text),
        "layout" => show_air_layout(layout, words, text),
        _ => show_recording_call::<F, EF>(alloc, air, layout, call, words, text),
    }
}

// Adds the answer of a call on an AIR, whose layout is the first word.
fn answer_by_words<F: Number + 'static, EF: ExtensionField<F> + 'static>(
    alloc: Global,
    air: &TableAir<F>,
    call: &str,
    words: &[&str],
    text: &mut String,
) -> Result<(), Fault> {
    match words {
        [layout, words @ ..] => {
            answer_by::<F, EF>(alloc, air, layout_by(air, *layout)?, call, words, text)
        }
        [] => Err(Fault::Unreadable(Why::NoSuchCall)),
    }
}

// Adds the answer of a call on an AIR.
fn answer_of<F: Number + 'static, EF: ExtensionField<F> + 'static>(
    alloc: Global,
    air: &TableAir<F>,
    call: &str,
    words: &[&str],
    text: &mut String,
) -> Result<(), Fault> {
    match audited_of(alloc, call, words)? {
        Some(given) => show_audit_of(alloc, air, given, text),
        None => answer_by_words::<F, EF>(alloc, air, call, words, text),
    }
}

impl<'a, F: Number + 'static, EF: ExtensionField<F> + 'static> Bench<'a> for AirBench<'a, F, EF> {
    fn new(alloc: Global) -> Self {
        AirBench {
            alloc,
            airs: Airs::new(alloc),
            extension: PhantomData,
        }
    }

    fn answer(&mut self, line: &Line<'a>, text: &mut String) -> Result<(), Fault> {
        if self.airs.answer(line)? {
            return Ok(());
        }
        match line.words.as_slice() {
            [call, air, words @ ..] => {
                answer_of::<F, EF>(self.alloc, self.airs.air(*air)?, *call, words, text)
            }
            _ => Err(Fault::Unreadable(Why::NoSuchCall)),
        }
    }

    fn show_state(&self, text: &mut String) -> Result<(), Fault> {
        self.airs.show_state(text)
    }
}

// Adds the answer of a call that needs no AIR.
fn answer_alone<F: Number, EF: ExtensionField<F>>(
    alloc: Global,
    call: &str,
    words: &[&str],
    text: &mut String,
) -> Result<(), Fault> {
    match call {
        "builder" => answer_lent::<F, EF>(alloc, words, text),
        "hiding_alphas" => answer_hiding(alloc, words, text),
        _ => answer_layout::<F, EF>(alloc, call, words, text),
    }
}

impl<'a, F: Number, EF: ExtensionField<F>> Bench<'a> for Alone<F, EF> {
    fn new(alloc: Global) -> Self {
        Alone {
            alloc,
            fields: PhantomData,
        }
    }

    fn answer(&mut self, line: &Line<'a>, text: &mut String) -> Result<(), Fault> {
        if line.name.is_some() {
            return Err(Fault::Unreadable(Why::MakesNothing));
        }
        match line.words.as_slice() {
            [call, words @ ..] => answer_alone::<F, EF>(self.alloc, *call, words, text),
            [] => Err(Fault::Unreadable(Why::NoSuchCall)),
        }
    }

    fn show_state(&self, _text: &mut String) -> Result<(), Fault> {
        Ok(())
    }
}

//! Calls that need no pool.

use crate::base_words::base_variable;
use crate::ext_words::ext_variable;
use air_core::{BoundaryEnd, BoundaryPublic};
use air_field::{BabyBear, BinomialExtensionField};
use air_symbolic::{BaseEntry, ExtEntry, SymbolicVariable, SymbolicVariableExt};
use std::alloc::Global;
use test_lines::words::{count_of, counts_of, show_spelt};
use test_lines::{Fault, Why};

// Adds the value of this type that a word spells.
fn show_spelling(alloc: Global, kind: &str, word: &str, text: &mut String) -> Result<(), Fault> {
    match kind {
        "BaseEntry" => show_spelt::<BaseEntry>(alloc, word, text),
        "ExtEntry" => show_spelt::<ExtEntry>(alloc, word, text),
        "SymbolicVariable" => show_spelt::<SymbolicVariable<BabyBear>>(alloc, word, text),
        "SymbolicVariableExt" => {
            show_spelt::<SymbolicVariableExt<BabyBear, BinomialExtensionField>>(alloc, word, text)
        }
        "BoundaryEnd" => show_spelt::<BoundaryEnd>(alloc, word, text),
        "BoundaryPublic" => show_spelt::<BoundaryPublic>(alloc, word, text),
        _ => Err(Fault::Unreadable(Why::NoSuchWord)),
    }
}

fn answer_spelling(alloc: Global, operands: &[&str], text: &mut String) -> Result<(), Fault> {
    match operands {
        [kind, word] => show_spelling(alloc, *kind, *word, text),
        _ => Err(Fault::Unreadable(Why::NoSuchCall)),
    }
}

// Adds the degree of a base variable that its node states, and its degree over the rows.
fn show_base_degrees(alloc: Global, operands: &[&str], text: &mut String) -> Result<(), Fault> {
    let [rows, periods, words @ ..] = operands else {
        return Err(Fault::Unreadable(Why::NoSuchCall));
    };
    let variable: SymbolicVariable<BabyBear> = base_variable(words)?;
    let rows = count_of(*rows)?;
    let periods = counts_of(alloc, *periods)?;
    let stated = variable.degree_multiple();
    let over_rows = variable.poly_degree(rows, periods.as_slice());
    write!(text, "{stated}, over {rows} rows {over_rows}")?;
    Ok(())
}

// Adds the degree of an extension variable that its node states, and its degree over the rows.
fn show_ext_degrees(operands: &[&str], text: &mut String) -> Result<(), Fault> {
    let [rows, words @ ..] = operands else {
        return Err(Fault::Unreadable(Why::NoSuchCall));
    };
    let variable: SymbolicVariableExt<BabyBear, BinomialExtensionField> = ext_variable(words)?;
    let rows = count_of(*rows)?;
    let stated = variable.degree_multiple();
    let over_rows = variable.poly_degree(rows);
    write!(text, "{stated}, over {rows} rows {over_rows}")?;
    Ok(())
}

/// Adds the answer of a call that needs no pool.
pub fn answer_alone(
    alloc: Global,
    call: &str,
    operands: &[&str],
    text: &mut String,
) -> Result<(), Fault> {
    match call {
        "spelling" => answer_spelling(alloc, operands, text),
        "variable_degrees" => show_base_degrees(alloc, operands, text),
        "ext_variable_degrees" => show_ext_degrees(operands, text),
        _ => Err(Fault::Unreadable(Why::NoSuchCall)),
    }
}

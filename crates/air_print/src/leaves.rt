//! The text of leaves.
ghost use Rattle.std.specs.Prelude.{◌≡◌, ◌++◌, OnOk, codes, decimal, string_bytes};
ghost use Rattle.air_print.specs.Infix.{rows_text, entry_text, constant_text, leaf_text, opening_text, closing_text};

use crate::binding::Binding;
use air_core::BaseEntry;
use air_field::PrimeField64;
use air_symbolic::BaseLeaf;
use std::alloc::AllocError;

// Appends the name of a trace at the row `offset` rows further on.
fn push_rows(text: &mut String, here: &str, next: &str, offset: usize) -> Result<(), AllocError>
    ensures { OnOk result (string_bytes text.new ≡
        string_bytes text.old ++ rows_text here.now next.now offset) }
{
    match offset {
        0 => text.push_str(here),
        1 => text.push_str(next),
        _ => write!(text, "{here}@{offset}"),
    }
}

// Appends the name of an entry.
fn push_entry(text: &mut String, entry: BaseEntry) -> Result<(), AllocError>
    ensures { OnOk result (string_bytes text.new ≡ string_bytes text.old ++ entry_text entry) }
{
    match entry {
        BaseEntry::Preprocessed { offset } => {
            push_rows(text, "preprocessed", "preprocessed_next", offset)
        }
        BaseEntry::Main { offset } => push_rows(text, "main", "next", offset),
        BaseEntry::Periodic => text.push_str("periodic"),
        BaseEntry::Public => text.push_str("public"),
    }
}

/// Appends a constant as its canonical number n, or as -(p - n) if n > p/2.
pub fn push_constant<F: PrimeField64>(text: &mut String, c: F) -> Result<(), AllocError>
    ensures { OnOk result (string_bytes text.new ≡
        string_bytes text.old ++ constant_text F.residues c) }
{
    let number = c.as_canonical_u64();
    let below_zero = F::ORDER_U64 - number;
    if below_zero < number {
        write!(text, "-{below_zero}")
    } else {
        write!(text, "{number}")
    }
}

/// Appends an opening parenthesis if `wrap` is set.
pub fn push_opening(text: &mut String, wrap: bool) -> Result<(), AllocError>
    ensures { OnOk result (string_bytes text.new ≡ string_bytes text.old ++ opening_text wrap) }
{
    if wrap {
        text.push_str("(")?;
    }
    Ok(())
}

// Appends a closing parenthesis if `wrap` is set.
fn push_closing(text: &mut String, wrap: bool) -> Result<(), AllocError>
    ensures { OnOk result (string_bytes text.new ≡ string_bytes text.old ++ closing_text wrap) }
{
    if wrap {
        text.push_str(")")?;
    }
    Ok(())
}

/// Appends a column, a public value or a periodic column.
pub fn push_variable(text: &mut String, entry: BaseEntry, index: usize) -> Result<(), AllocError>
    ensures { OnOk result (string_bytes text.new ≡ string_bytes text.old
        ++ (entry_text entry ++ (codes "[" ++ (decimal index ++ codes "]")))) }
{
    push_entry(text, entry)?;
    write!(text, "[{index}]")
}

/// Appends a leaf.
pub fn push_leaf<F: PrimeField64>(
    text: &mut String,
    leaf: &BaseLeaf<F>,
    within: Binding,
) -> Result<(), AllocError>
    ensures { OnOk result (string_bytes text.new ≡
        string_bytes text.old ++ leaf_text F.residues within leaf.now) }
{
    match leaf {
        BaseLeaf::Variable(v) => push_variable(text, v.entry, v.index),
        BaseLeaf::IsFirstRow => text.push_str("is_first_row"),
        BaseLeaf::IsLastRow => text.push_str("is_last_row"),
        BaseLeaf::IsTransition => text.push_str("is_transition"),
        BaseLeaf::Constant(c) => {
            let wrap = within.wraps_constant();
            push_opening(text, wrap)?;
            push_constant(text, *c)?;
            push_closing(text, wrap)
        }
    }
}

//! Words as numbers, elements, values and texts.
ghost use Rattle.std.specs.Prelude.{◌≡◌, ◌≢◌, ◌⊎◌, ℕ, ◌<◌, ◌++◌, ◌==◌, if◌then◌else◌, [], length, map, All};
ghost use Rattle.std.specs.Prelude.{OkIff, OnOk, IfOk, IfErr, IfSome, ok_or, Some, None, codes, string_bytes};
ghost use Rattle.std.specs.List.{AllZip, flat_map};
ghost use Rattle.std.specs.Str.{chars};
ghost use Rattle.air_field.specs.Ring.{image};
ghost use Rattle.serde_json.specs.View.{view};
ghost use Rattle.serde_json.specs.Read.{read as read_text};
ghost use Rattle.test_lines.specs.Words.{IsNumber, decimal_number, SpellsNumber, SpellsElement};
ghost use Rattle.test_lines.specs.Listed.{parts_at, comma_parts, coefficients_listed};
ghost use Rattle.test_lines.specs.Spelled.{escaped_letter, SpellsText, SpellsNoText, IsTextOf, shown_letter};
ghost use Rattle.test_lines.specs.Spelled.{elements_text};
ghost use Rattle.test_lines.specs.Values.{IsSpeltBy, IsCompactText, beside_text, ShowsBeside};
ghost use Rattle.test_lines.specs.Numbers.{AreNumbers};
ghost use Rattle.test_lines.specs.laws.Numbers.{are_values};

use crate::faults::{Fault, Why};
use air_field::{ExtensionField, Field, PrimeField64};
use air_json::{FlatError, Spelled};
use serde_json::Value;
use std::alloc::Global;
use std::fmt::Debug;

/// A field whose elements are written as numbers.
pub trait Number: Field {
    ghost least: { Self → ℕ };

    /// The least number of the element.
    fn number(self) -> u64
        ensures { result ≡ least self };

    ghost least_is: { AreNumbers Self.Field.ring Self.Field.CHARACTERISTIC Self.least };
}

impl<F: PrimeField64> Number for F {
    ghost least = { F.residues.value };

    ghost least_is = { are_values F.residues F.order_is F.ring_is };

    fn number(self) -> u64 {
        self.as_canonical_u64()
    }
}

/// Parses a count.
pub fn count_of(word: &str) -> Result<usize, Fault>
    ensures number { OkIff result (IsNumber word.now) (decimal_number word.now) }
    ensures refused { IfErr result (λ e. e ≡ Fault.Unreadable Why.NoNumber) }
{
    match word.parse::<usize>() {
        Ok(n) => Ok(n),
        Err(_) => Err(Fault::Unreadable(Why::NoNumber)),
    }
}

/// Parses a number.
pub fn number_of(word: &str) -> Result<u64, Fault>
    ensures number { OkIff result (IsNumber word.now) (decimal_number word.now) }
    ensures refused { IfErr result (λ e. e ≡ Fault.Unreadable Why.NoNumber) }
{
    match word.parse::<u64>() {
        Ok(n) => Ok(n),
        Err(_) => Err(Fault::Unreadable(Why::NoNumber)),
    }
}

// The parts of a word, separated by an ASCII character.
fn parts_of<'a>(alloc: Global, word: &'a str, separator: char) -> Result<Vec<&'a str>, Fault>
    ensures parts { separator < 128
        → IfOk result (λ ps. map (λ p. p.now) ps.items ≡ parts_at separator word.now) }
    ensures refused { IfErr result (λ e. e ≡ Fault.Memory) }
{
    let parts = word.split(separator).collect(alloc)?;
    Ok(parts)
}

// The parts of a word, separated by commas; none if the word is `-`.
fn listed_parts<'a>(alloc: Global, word: &'a str) -> Result<Vec<&'a str>, Fault>
    ensures parts { IfOk result (λ ps. map (λ p. p.now) ps.items ≡ comma_parts word.now) }
    ensures refused { IfErr result (λ e. e ≡ Fault.Memory) }
{
    if word == "-" {
        Ok(Vec::new(alloc))
    } else {
        parts_of(alloc, word, ',')
    }
}

/// Counts separated by commas; none if the word is `-`.
pub fn counts_of(alloc: Global, word: &str) -> Result<Vec<usize>, Fault>
    ensures counts { IfOk result (λ ns. AllZip SpellsNumber ns.items (comma_parts word.now)) }
    ensures refused { IfErr result (λ e. (e ≡ Fault.Memory)
        ⊎ ((e ≡ Fault.Unreadable Why.NoNumber) × (¬ All IsNumber (comma_parts word.now)))) }
{
    let parts = listed_parts(alloc, word)?;
    let mut all = Vec::new(alloc);
    for part in &parts {
        all.push(count_of(*part)?)?;
    }
    Ok(all)
}

/// The element of a number.
pub fn element_of<F: Field>(word: &str) -> Result<F, Fault>
    ensures element { OkIff result (IsNumber word.now) (image F.ring (decimal_number word.now)) }
    ensures refused { IfErr result (λ e. e ≡ Fault.Unreadable Why.NoNumber) }
{
    Ok(F::from_u64(number_of(word)?))
}

/// Elements, one for each word.
pub fn elements_of<F: Field>(alloc: Global, words: &[&str]) -> Result<Vec<F>, Fault>
    ensures elements { IfOk result (λ xs.
        AllZip (λ x w. SpellsElement F.ring x w.now) xs.items words.now) }
    ensures refused { IfErr result (λ e. (e ≡ Fault.Memory)
        ⊎ ((e ≡ Fault.Unreadable Why.NoNumber) × (¬ All (λ w. IsNumber w.now) words.now))) }
{
    let mut all = Vec::new(alloc);
    for word in words {
        all.push(element_of(*word)?)?;
    }
    Ok(all)
}

/// The elements of one word, separated by commas; none if the word is `-`.
pub fn listed_elements<F: Field>(alloc: Global, word: &str) -> Result<Vec<F>, Fault>
    ensures elements { IfOk result (λ xs.
        AllZip (SpellsElement F.ring) xs.items (comma_parts word.now)) }
    ensures refused { IfErr result (λ e. (e ≡ Fault.Memory)
        ⊎ ((e ≡ Fault.Unreadable Why.NoNumber) × (¬ All IsNumber (comma_parts word.now)))) }
{
    let parts = listed_parts(alloc, word)?;
    elements_of(alloc, parts.as_slice())
}

/// An element of an extension, given by its coefficients.
pub fn extension_of<F: Field, EF: ExtensionField<F>>(
    alloc: Global,
    words: &[&str],
) -> Result<EF, Fault>
    ensures coefficients { IfOk result (λ x.
        AllZip (λ c w. SpellsElement F.ring c w.now) (EF.basis.coefficients x) words.now) }
    ensures refused { IfErr result (λ e. (e ≡ Fault.Memory)
        ⊎ ((e ≡ Fault.Unreadable Why.NoNumber) × (¬ All (λ w. IsNumber w.now) words.now))
        ⊎ ((e ≡ Fault.Unreadable Why.OtherDimension) × (length words.now ≢ EF.DIMENSION))) }
{
    let all: Vec<F> = elements_of(alloc, words)?;
    if all.len() == EF::DIMENSION {
        Ok(EF::from_basis_coefficients(all.as_slice()))
    } else {
        Err(Fault::Unreadable(Why::OtherDimension))
    }
}

// The parts of a word, separated by dots if it has one, otherwise by commas.
fn coefficient_parts<'a>(alloc: Global, word: &'a str) -> Result<Vec<&'a str>, Fault>
    ensures parts { IfOk result (λ ps. map (λ p. p.now) ps.items ≡ coefficients_listed word.now) }
    ensures refused { IfErr result (λ e. e ≡ Fault.Memory) }
{
    if word.contains('.') {
        parts_of(alloc, word, '.')
    } else {
        parts_of(alloc, word, ',')
    }
}

/// An element of an extension, given by its coefficients, separated by dots if the word has one, otherwise by commas.
pub fn listed_extension<F: Field, EF: ExtensionField<F>>(
    alloc: Global,
    word: &str,
) -> Result<EF, Fault>
    ensures coefficients { IfOk result (λ x.
        AllZip (SpellsElement F.ring) (EF.basis.coefficients x) (coefficients_listed word.now)) }
    ensures refused { IfErr result (λ e. (e ≡ Fault.Memory)
        ⊎ ((e ≡ Fault.Unreadable Why.NoNumber) × (¬ All IsNumber (coefficients_listed word.now)))
        ⊎ ((e ≡ Fault.Unreadable Why.OtherDimension)
        × (length (coefficients_listed word.now) ≢ EF.DIMENSION))) }
{
    let parts = coefficient_parts(alloc, word)?;
    extension_of::<F, EF>(alloc, parts.as_slice())
}

/// The JSON value of a word.
pub fn value_of(alloc: Global, word: &str) -> Result<Value, Fault>
    ensures value { IfOk result (λ v. read_text word.now ≡ Some (view v)) }
    ensures refused { IfErr result (λ e. (e ≡ Fault.Memory)
        ⊎ ((e ≡ Fault.Unreadable Why.NoJson) × (read_text word.now ≡ None))) }
{
    match Value::from_str(alloc, word) {
        Ok(value) => Ok(value),
        Err(error) if error.is_memory() => Err(Fault::Memory),
        Err(_) => Err(Fault::Unreadable(Why::NoJson)),
    }
}

// The character that `\` followed by this letter spells.
fn unescape(letter: char) -> Result<char, Fault>
    ensures { result ≡ ok_or (escaped_letter letter) (Fault.Unreadable Why.NoText) }
{
    match letter {
        's' => Ok(' '),
        'n' => Ok('\n'),
        'r' => Ok('\r'),
        't' => Ok('\t'),
        'z' => Ok('\0'),
        '\\' => Ok('\\'),
        _ => Err(Fault::Unreadable(Why::NoText)),
    }
}

/// The text of a word: `\s` is a space, `\n` and `\r` end a line, `\t` is a tab, `\z` is zero, `\\` is a backslash. The
/// word `-` is the empty text.
pub fn text_of(alloc: Global, word: &str) -> Result<String, Fault>
    ensures none { word.now ≡ codes "-" → IfOk result (λ text. string_bytes text ≡ []) }
    ensures text { word.now ≢ codes "-"
        → IfOk result (λ text. SpellsText word.now (string_bytes text)) }
    ensures refused { IfErr result (λ e. (e ≡ Fault.Memory)
        ⊎ ((e ≡ Fault.Unreadable Why.NoText) × SpellsNoText word.now)) }
{
    let mut text = String::new(alloc);
    if word == "-" {
        return Ok(text);
    }
    let mut behind = false;
    for letter in word.chars() {
        if behind {
            text.push(unescape(letter)?)?;
            behind = false;
        } else if letter == '\\' {
            behind = true;
        } else {
            text.push(letter)?;
        }
    }
    if behind {
        return Err(Fault::Unreadable(Why::NoText));
    }
    Ok(text)
}

/// The texts of words.
pub fn texts_of(alloc: Global, words: &[&str]) -> Result<Vec<String>, Fault>
    ensures texts { IfOk result (λ texts.
        AllZip (λ text word. IsTextOf (string_bytes text) word.now) texts.items words.now) }
    ensures refused { IfErr result (λ e. (e ≡ Fault.Memory)
        ⊎ ((e ≡ Fault.Unreadable Why.NoText) × (¬ All (λ w. ¬ SpellsNoText w.now) words.now))) }
{
    let mut texts = Vec::new(alloc);
    for word in words {
        texts.push(text_of(alloc, *word)?)?;
    }
    Ok(texts)
}

/// Adds a text on one line: line ends become `\n` and `\r`, and a backslash is doubled.
pub fn show_text(shown: &str, text: &mut String) -> Result<(), Fault>
    ensures added { OnOk result (string_bytes text.new
        ≡ string_bytes text.old ++ flat_map shown_letter (chars shown.now)) }
    ensures refused { IfErr result (λ e. e ≡ Fault.Memory) }
{
    for letter in shown.chars() {
        match letter {
            '\n' => text.push_str("\\n")?,
            '\r' => text.push_str("\\r")?,
            '\\' => text.push_str("\\\\")?,
            _ => text.push(letter)?,
        }
    }
    Ok(())
}

// Adds a space, except before the first number.
fn show_space(place: usize, text: &mut String) -> Result<(), Fault>
    ensures added { OnOk result (string_bytes text.new
        ≡ string_bytes text.old ++ (if place == 0 then [] else codes " ")) }
    ensures refused { IfErr result (λ e. e ≡ Fault.Memory) }
{
    if place > 0 {
        text.push_str(" ")?;
    }
    Ok(())
}

/// Adds the numbers of elements, as in `[1 2 3]`.
pub fn show_elements<F: Number>(elements: &[F], text: &mut String) -> Result<(), Fault>
    ensures added { OnOk result (string_bytes text.new
        ≡ string_bytes text.old ++ elements_text (map F.least elements.now)) }
    ensures refused { IfErr result (λ e. e ≡ Fault.Memory) }
{
    text.push_str("[")?;
    for (place, element) in elements.iter().enumerate() {
        show_space(place, text)?;
        let number = element.number();
        write!(text, "{number}")?;
    }
    text.push_str("]")?;
    Ok(())
}

// The value that a word spells.
fn spelt_of<S: Spelled>(alloc: Global, word: &str) -> Result<S, Fault>
    ensures spelt { IfOk result (IsSpeltBy S.spells word.now) }
    ensures refused { IfErr result (λ e. (e ≡ Fault.Memory)
        ⊎ ((e ≡ Fault.Unreadable Why.NoJson) × (read_text word.now ≡ None))
        ⊎ ((e ≡ Fault.List (FlatError.Shape 0)) × ((x : S) → ¬ IsSpeltBy S.spells word.now x))) }
{
    let value = value_of(alloc, word)?;
    Ok(S::from_value(alloc, &value)?)
}

// The spelling of a value.
fn spelling_of<S: Spelled>(alloc: Global, x: &S) -> Result<String, Fault>
    ensures written { IfOk result (λ written.
        IsCompactText (S.spelling x.now) (string_bytes written)) }
    ensures refused { IfErr result (λ e. e ≡ Fault.Memory) }
{
    let value = x.to_value(alloc)?;
    Ok(value.to_string(alloc)?)
}

// Adds the debug text of a value, followed by its spelling if that differs from the word.
fn show_beside<S: Debug>(x: &S, written: &str, word: &str, text: &mut String) -> Result<(), Fault>
    ensures added { OnOk result (IfSome (S.debug_output x.now) (λ shown. string_bytes text.new
        ≡ string_bytes text.old ++ beside_text shown written.now word.now)) }
    ensures refused { IfErr result (λ e. e ≡ Fault.Memory) }
{
    if written == word {
        write!(text, "{x:?}")?;
    } else {
        write!(text, "{x:?}, which is spelt {written}")?;
    }
    Ok(())
}

/// Adds the value that a word spells, followed by its spelling if that differs from the word.
pub fn show_spelt<S: Spelled + Debug + Drop>(
    alloc: Global,
    word: &str,
    text: &mut String,
) -> Result<(), Fault>
    ensures added { OnOk result ((x : S) × IsSpeltBy S.spells word.now x
        × ShowsBeside (S.debug_output x) (S.spelling x) word.now (string_bytes text.old)
        (string_bytes text.new)) }
    ensures refused { IfErr result (λ e. (e ≡ Fault.Memory)
        ⊎ ((e ≡ Fault.Unreadable Why.NoJson) × (read_text word.now ≡ None))
        ⊎ ((e ≡ Fault.List (FlatError.Shape 0)) × ((x : S) → ¬ IsSpeltBy S.spells word.now x))) }
{
    let x: S = spelt_of(alloc, word)?;
    let written = spelling_of(alloc, &x)?;
    show_beside(&x, written.as_str(), word, text)
}

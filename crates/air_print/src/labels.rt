//! How labels are shown.
ghost use Rattle.std.specs.Prelude.{◌≡◌, map, IfOk, string_bytes};
ghost use Rattle.std.specs.List.{AllZip};
ghost use Rattle.air_print.specs.Labels.{ShowsLabel, StandsBehind, text_at};

use std::alloc::{AllocError, Global};

/// A space and the label's debug text, or nothing if that text contains a line end: so no label can imitate a further
/// line.
pub fn shown_label(alloc: Global, label: &str) -> Result<String, AllocError>
    ensures { IfOk result (λ shown. ShowsLabel label.now (string_bytes shown)) }
{
    let shown = format!(in alloc; " {label:?}")?;
    if shown.as_bytes().contains(&b'\n') {
        return Ok(String::new(alloc));
    }
    Ok(shown)
}

// The text after the index of an expression with this label: nothing if the label is empty.
fn text_behind(alloc: Global, label: &str) -> Result<String, AllocError>
    ensures { IfOk result (λ shown. StandsBehind label.now (string_bytes shown)) }
{
    if label.is_empty() {
        return Ok(String::new(alloc));
    }
    shown_label(alloc, label)
}

/// The text after the index, for each label.
pub(crate) fn shown_labels(alloc: Global, labels: &[String]) -> Result<Vec<String>, AllocError>
    ensures { IfOk result (λ shown. AllZip StandsBehind (map string_bytes labels.now)
        (map string_bytes shown.items)) }
{
    let mut shown = Vec::new(alloc);
    for label in labels {
        shown.push(text_behind(alloc, label)?)?;
    }
    Ok(shown)
}

/// The text at an index, empty past the end.
pub(crate) fn text_at(texts: &[String], place: usize) -> &str
    ensures { result.now ≡ text_at (map string_bytes texts.now) place }
{
    match texts.get(place) {
        Some(text) => text,
        None => "",
    }
}

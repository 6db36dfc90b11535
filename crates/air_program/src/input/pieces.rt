//! The lines of an input, and the fields of a line.

ghost use Rattle.std.specs.Prelude.{◌≡◌, ◌∷◌, ◌<◌, ◌==◌, [], length, IfSome, IfNone, position};
ghost use Rattle.std.specs.List.{slice_split};
ghost use Rattle.std.specs.Str.Lines.{lines, strip_carriage_return};
ghost use Rattle.air_program.specs.Grammar.{fields_of};

/// The first index of a byte.
fn find(bytes: &[u8], byte: u8) -> Option<usize>
    ensures { result ≡ position (λ b. b == byte) bytes.now }
{
    bytes.iter().position(|b| *b == byte)
}

/// The bytes before the first occurrence of `byte`, and those after it, if it occurs.
fn cut(bytes: &[u8], byte: u8) -> Option<(&[u8], &[u8])>
    ensures some { IfSome result (λ p. slice_split (λ b. b == byte) bytes.now ≡ p.0.now
        ∷ slice_split (λ b. b == byte) p.1.now) }
    ensures shorter { IfSome result (λ p. length p.1.now < length bytes.now) }
    ensures none { IfNone result (slice_split (λ b. b == byte) bytes.now ≡ bytes.now ∷ []) }
{
    let end = find(bytes, byte)?;
    Some((&bytes[..end], &bytes[end + 1..]))
}

/// A line without one trailing byte 13.
fn without_return(line: &[u8]) -> &[u8]
    ensures { result.now ≡ strip_carriage_return line.now }
{
    match line {
        [text @ .., b'\r'] => text,
        _ => line,
    }
}

/// The first line and the bytes after it, if there is one.
#[tactic(auto, using(crate::proofs::Pieces::ended_line))]
pub fn next_line(bytes: &[u8]) -> Option<(&[u8], &[u8])>
    ensures some { IfSome result (λ p. lines bytes.now ≡ p.0.now ∷ lines p.1.now) }
    ensures none { IfNone result (lines bytes.now ≡ []) }
{
    match cut(bytes, b'\n') {
        Some((line, rest)) => Some((without_return(line), rest)),
        None if bytes.is_empty() => None,
        None => Some((bytes, &[])),
    }
}

/// The first field of a line and the bytes after it, if there is one.
#[tactic(auto, using(crate::proofs::Pieces::empty_field, crate::proofs::Pieces::some_field), unfolding(crate::specs::Grammar::fields_of))]
pub fn next_field(line: &[u8]) -> Option<(&[u8], &[u8])>
    ensures some { IfSome result (λ p. fields_of line.now ≡ p.0.now ∷ fields_of p.1.now) }
    ensures none { IfNone result (fields_of line.now ≡ []) }
{
    let mut rest = line;
    'parts: while let Some((field, after)) = cut(rest, b' ') {
        if !field.is_empty() {
            return Some((field, after));
        }
        rest = after;
    }
    if rest.is_empty() {
        None
    } else {
        Some((rest, &[]))
    }
}

//! The answer to a JSON object, over the field that its member `field` names.

ghost use Rattle.std.specs.Prelude.{◌≡◌, ◌⊎◌, ℕ, List, IfOk, IfErr};
ghost use Rattle.serde_json.specs.Data.{Data};
ghost use Rattle.air_object.specs.Fields.{OverField};
ghost use Rattle.air_object.specs.Parts.{InPool};
ghost use Rattle.air_program.specs.ByField.{StandsFor, HasNoValue, HasParts, AnswersValue, AnswersOver, AnswersParts, AnswersBytes};
ghost use Rattle.air_program.specs.Refusals.{GivesAnswer};
ghost use Rattle.air_program.specs.Wanted.{AnswersIn};

use crate::commands::Wanted;
use crate::explain::explain_parts;
use crate::flat::audit_parts;
use crate::reasons::{refused_field, refused_text};
use crate::refusals::Refusal;
use crate::show::show_parts;
use crate::texts::Answer;
use air_field::{BabyBear, Goldilocks, KoalaBear, Mersenne31, PrimeField64};
use air_object::{FieldName, Parts, TextFault, field_of, parts_of};
use std::alloc::Global;

/// The parts of the JSON value whose text the bytes are; the trace and the constraints are read over F.
fn parts_from<F: PrimeField64>(alloc: Global, bytes: &[u8]) -> Result<Parts<F>, Refusal>
    ensures parts { IfOk result (λ p. (d : Data) × StandsFor bytes.now d
        × HasParts F.residues p d) }
    ensures refused { IfErr result (λ why. (why ≡ Refusal.Memory)
        ⊎ ((why ≡ Refusal.Json) × HasNoValue bytes.now)) }
{
    let Ok(text) = str::from_utf8(bytes) else {
        return Err(Refusal::Json);
    };
    match parts_of(alloc, text) {
        Ok(parts) => Ok(parts),
        Err(TextFault::Memory) => Err(Refusal::Memory),
        Err(TextFault::Json) => Err(Refusal::Json),
    }
}

/// The answer for an object over F, given its bytes and its parts.
fn answer_parts<F: PrimeField64 + 'static>(
    alloc: Global,
    wanted: Wanted,
    bytes: &[u8],
    parts: Parts<F>,
) -> Result<Answer, Refusal>
    requires { InPool parts.constraints }
    ensures { GivesAnswer (AnswersParts (AnswersIn wanted) F.residues bytes.now parts) result }
{
    match wanted {
        Wanted::Audit => audit_parts(alloc, parts),
        Wanted::Explain => explain_parts(alloc, bytes, parts),
        Wanted::Show => show_parts(alloc, bytes, parts),
    }
}

/// The answer for an object over F, given its bytes.
fn answer_over<F: PrimeField64 + 'static>(
    alloc: Global,
    wanted: Wanted,
    bytes: &[u8],
) -> Result<Answer, Refusal>
    ensures { GivesAnswer (AnswersValue wanted (AnswersIn wanted F F.ORDER_U64 F.residues)
        bytes.now) result }
{
    match parts_from::<F>(alloc, bytes) {
        Ok(parts) => answer_parts(alloc, wanted, bytes, parts),
        Err(why) => refused_text(alloc, wanted, bytes, why),
    }
}

/// The answer for an object over the field of this name, given its bytes.
fn answer_named(
    alloc: Global,
    wanted: Wanted,
    field: FieldName,
    bytes: &[u8],
) -> Result<Answer, Refusal>
    ensures { GivesAnswer (AnswersOver wanted (AnswersIn wanted) field bytes.now) result }
{
    match field {
        FieldName::BabyBear => answer_over::<BabyBear>(alloc, wanted, bytes),
        FieldName::KoalaBear => answer_over::<KoalaBear>(alloc, wanted, bytes),
        FieldName::Mersenne31 => answer_over::<Mersenne31>(alloc, wanted, bytes),
        FieldName::Goldilocks => answer_over::<Goldilocks>(alloc, wanted, bytes),
    }
}

/// The answer to an object that is first read over F, the field of this name. If the object names another field, it is
/// read again over that one.
fn answer_first<F: PrimeField64 + 'static>(
    alloc: Global,
    wanted: Wanted,
    field: FieldName,
    bytes: &[u8],
) -> Result<Answer, Refusal>
    requires { (d : Data) (status : ℕ) (text : List ℕ)
        → AnswersIn wanted F F.ORDER_U64 F.residues d status text
        → OverField (λ G p m. AnswersIn wanted G p m d status text) field }
    ensures { GivesAnswer (AnswersBytes wanted (AnswersIn wanted) bytes.now) result }
{
    let parts = match parts_from::<F>(alloc, bytes) {
        Ok(parts) => parts,
        Err(why) => return refused_text(alloc, wanted, bytes, why),
    };
    let Some(named) = field_of(&parts.rest) else {
        return refused_field(alloc, wanted);
    };
    if named == field {
        return answer_parts(alloc, wanted, bytes, parts);
    }
    drop(parts);
    answer_named(alloc, wanted, named, bytes)
}

// The bytes after this piece, if they begin with it.
fn after<'a>(bytes: &'a [u8], piece: &[u8]) -> Option<&'a [u8]> {
    bytes.trim_ascii_start().strip_prefix(piece)
}

// The bytes of the first member's value, if that member is `field`.
fn first_field(bytes: &[u8]) -> Option<&[u8]> {
    let inside = after(bytes, b"{")?;
    let named = after(inside, b"\"field\"")?;
    let value = after(named, b":")?;
    Some(value.trim_ascii_start())
}

// The field over which an object is read first: the one that its first member names, or else `BabyBear`.
fn field_ahead(bytes: &[u8]) -> FieldName {
    match first_field(bytes) {
        Some(name) if name.starts_with(b"\"KoalaBear\"") => FieldName::KoalaBear,
        Some(name) if name.starts_with(b"\"Mersenne31\"") => FieldName::Mersenne31,
        Some(name) if name.starts_with(b"\"Goldilocks\"") => FieldName::Goldilocks,
        _ => FieldName::BabyBear,
    }
}

/// The answer to a JSON object. It is read once if its first member is `field`, or if it is over `BabyBear`.
pub fn answer_object(alloc: Global, wanted: Wanted, bytes: &[u8]) -> Result<Answer, Refusal>
    ensures { GivesAnswer (AnswersBytes wanted (AnswersIn wanted) bytes.now) result }
{
    let first = field_ahead(bytes);
    match first {
        FieldName::BabyBear => answer_first::<BabyBear>(alloc, wanted, first, bytes),
        FieldName::KoalaBear => answer_first::<KoalaBear>(alloc, wanted, first, bytes),
        FieldName::Mersenne31 => answer_first::<Mersenne31>(alloc, wanted, first, bytes),
        FieldName::Goldilocks => answer_first::<Goldilocks>(alloc, wanted, first, bytes),
    }
}

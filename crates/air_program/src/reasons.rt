//! Refusals of a JSON object, with their reasons for the words that print them.

ghost use Rattle.std.specs.Prelude.{◌≡◌, ◌≢◌, ◌⊎◌, Option, IfOk, string_bytes};
ghost use Rattle.serde_json.specs.Data.{Data};
ghost use Rattle.serde_json.specs.View.{view};
ghost use Rattle.air_reason.specs.Reasons.{Reason, Tells};
ghost use Rattle.air_program.specs.ByField.{StandsFor, HasNoValue, RefusesText};
ghost use Rattle.air_program.specs.Reasons.{IsPlaceText, field_reason, reason_or, input_refusal, labelled_refusal, Refuses};
ghost use Rattle.air_program.specs.Refusals.{name_of, air_name, AnswersReason, GivesAnswer};

use crate::commands::Wanted;
use crate::refusals::Refusal;
use crate::texts::Answer;
use air_builder::AirError;
use air_field::PrimeField64;
use air_reason::{error_text, input_reason, labelled_reason};
use serde_json::Value;
use std::alloc::{AllocError, Global};

// The answer of two lines.
fn with_reason(alloc: Global, why: Refusal, reason: &str) -> Result<Answer, AllocError>
    ensures { IfOk result (λ a. AnswersReason (name_of why) reason.now a.status
        (string_bytes a.text)) }
{
    let name = why.name();
    let text = format!(in alloc; "refused: {name}\n{reason}\n")?;
    Ok(Answer { status: 2, text })
}

// The refusal, with its reason unless the word is `flat`.
fn refused(alloc: Global, wanted: Wanted, why: Refusal, reason: &str) -> Result<Answer, Refusal>
    ensures { GivesAnswer (Refuses wanted (name_of why) reason.now) result }
{
    match wanted {
        Wanted::Audit => Err(why),
        Wanted::Explain | Wanted::Show => Ok(with_reason(alloc, why, reason)?),
    }
}

// The place at which the bytes stop being JSON.
fn place_text(alloc: Global, bytes: &[u8]) -> Result<String, AllocError>
    requires { HasNoValue bytes.now }
    ensures { IfOk result (λ text. IsPlaceText (string_bytes text)) }
{
    let Err(error) = Value::from_slice(alloc, bytes) else {
        return Err(AllocError);
    };
    if error.is_memory() {
        return Err(AllocError);
    }
    let (line, column) = (error.line(), error.column());
    format!(in alloc; "no JSON at line {line} column {column}")
}

// The refusal of bytes that are no JSON.
fn no_json(alloc: Global, wanted: Wanted, bytes: &[u8]) -> Result<Answer, Refusal>
    requires { HasNoValue bytes.now }
    ensures { GivesAnswer (RefusesText wanted bytes.now) result }
{
    let place = place_text(alloc, bytes)?;
    refused(alloc, wanted, Refusal::Json, &place)
}

/// The refusal of bytes that are no JSON, or for which memory ran out.
pub(crate) fn refused_text(
    alloc: Global,
    wanted: Wanted,
    bytes: &[u8],
    why: Refusal,
) -> Result<Answer, Refusal>
    requires { (why ≡ Refusal.Memory) ⊎ ((why ≡ Refusal.Json) × HasNoValue bytes.now) }
    ensures { GivesAnswer (RefusesText wanted bytes.now) result }
{
    match why {
        Refusal::Json => no_json(alloc, wanted, bytes),
        _ => Err(Refusal::Memory),
    }
}

/// The refusal of an object that names no field.
pub(crate) fn refused_field(alloc: Global, wanted: Wanted) -> Result<Answer, Refusal>
    ensures { GivesAnswer (Refuses wanted (name_of Refusal.Field) field_reason) result }
{
    let reason = "\"field\": no such field, one of BabyBear, KoalaBear, Mersenne31, Goldilocks";
    refused(alloc, wanted, Refusal::Field, reason)
}

// The reason, or else the error's text.
fn reason_or(alloc: Global, reason: Option<String>, error: AirError) -> Result<String, AllocError>
    ensures { IfOk result (λ text. (r : Option Reason) → Tells r reason
        → string_bytes text ≡ reason_or r error) }
{
    match reason {
        Some(reason) => Ok(reason),
        None => error_text(alloc, error),
    }
}

// The answer for an object with an error that isn't `Memory`, by the word `explain`.
fn told_input<F: PrimeField64>(
    alloc: Global,
    bytes: &[u8],
    error: AirError,
) -> Result<Answer, Refusal>
    ensures { GivesAnswer (λ status text. (d : Data) → StandsFor bytes.now d
        → AnswersReason (air_name error) (input_refusal F.residues d error) status text) result }
{
    let Ok(value) = Value::from_slice(alloc, bytes) else {
        return Err(Refusal::Memory);
    };
    let reason = reason_or(alloc, input_reason::<F>(alloc, &value)?, error)?;
    Ok(with_reason(alloc, Refusal::Air(error), &reason)?)
}

/// The refusal of an object with this error, by the word `explain`.
pub(crate) fn refused_input<F: PrimeField64>(
    alloc: Global,
    bytes: &[u8],
    error: AirError,
) -> Result<Answer, Refusal>
    ensures { GivesAnswer (λ status text. (error ≢ AirError.Memory) × ((d : Data)
        → StandsFor bytes.now d → AnswersReason (air_name error)
        (input_refusal F.residues d error) status text)) result }
{
    match error {
        AirError::Memory => Err(Refusal::Memory),
        _ => told_input::<F>(alloc, bytes, error),
    }
}

// The answer for an object with an error that isn't `Memory`, by the word `show`.
fn told_labelled<F: PrimeField64>(
    alloc: Global,
    bytes: &[u8],
    error: AirError,
) -> Result<Answer, Refusal>
    ensures { GivesAnswer (λ status text. (d : Data) → StandsFor bytes.now d
        → AnswersReason (air_name error) (labelled_refusal F.residues d error) status text) result }
{
    let Ok(value) = Value::from_slice(alloc, bytes) else {
        return Err(Refusal::Memory);
    };
    let reason = reason_or(alloc, labelled_reason::<F>(alloc, &value)?, error)?;
    Ok(with_reason(alloc, Refusal::Air(error), &reason)?)
}

/// The refusal of an object with this error, by the word `show`.
pub(crate) fn refused_labelled<F: PrimeField64>(
    alloc: Global,
    bytes: &[u8],
    error: AirError,
) -> Result<Answer, Refusal>
    ensures { GivesAnswer (λ status text. (error ≢ AirError.Memory) × ((d : Data)
        → StandsFor bytes.now d → AnswersReason (air_name error)
        (labelled_refusal F.residues d error) status text)) result }
{
    match error {
        AirError::Memory => Err(Refusal::Memory),
        _ => told_labelled::<F>(alloc, bytes, error),
    }
}

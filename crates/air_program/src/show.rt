//! The answer to the word `show`: the constraints of a JSON object, with their labels, in infix notation.

ghost use Rattle.air_object.specs.Parts.{InPool};
ghost use Rattle.air_program.specs.ByField.{AnswersParts};
ghost use Rattle.air_program.specs.Refusals.{GivesAnswer};
ghost use Rattle.air_program.specs.Shown.{ShownIn};

use crate::reasons::refused_labelled;
use crate::refusals::Refusal;
use crate::texts::Answer;
use air_builder::AirError;
use air_field::PrimeField64;
use air_object::{Parts, labelled_from};
use air_print::show;
use std::alloc::Global;

/// The answer that shows the constraints, with their labels, of an object over F with these parts, which were read from the
/// bytes; or the first fault of these two members.
pub(crate) fn show_parts<F: PrimeField64 + 'static>(
    alloc: Global,
    bytes: &[u8],
    parts: Parts<F>,
) -> Result<Answer, Refusal>
    requires { InPool parts.constraints }
    ensures { GivesAnswer (AnswersParts ShownIn F.residues bytes.now parts) result }
{
    let Parts {
        rest,
        main: _,
        constraints,
    } = parts;
    let labelled = match labelled_from(alloc, &rest, constraints) {
        Ok(labelled) => labelled,
        Err(fault) => return refused_labelled::<F>(alloc, bytes, AirError::from(fault)),
    };
    let text = show(alloc, &labelled.pool, &labelled.roots, &labelled.labels)?;
    Ok(Answer { status: 0, text })
}

//! The program over streams.

ghost use Rattle.std.specs.Prelude.{◌≡◌, ℕ, List, false, IfOk, OnOk, is_err, map, string_bytes};
ghost use Rattle.std.specs.Io.KnownBytes.{Appends};
ghost use Rattle.air_program.specs.Refusals.{name_of, refusal_text};
ghost use Rattle.air_program.specs.Requests.{Answers};
ghost use Rattle.air_program.specs.Commands.{request_of};
ghost use Rattle.air_program.specs.Outcome.{IsOutcome};

use crate::answer::answer;
use crate::commands::request_of;
use crate::refusals::Refusal;
use crate::texts::Answer;
use air_streams::{ReadFault, Sink, Source, StreamFault, read_all, write_all};
use std::alloc::Global;

/// Writes the line of a refusal, in pieces, so that the line needs no memory, and answers the status 2; answers an
/// `Err` exactly if the writer fails. The writer must not have failed before.
pub fn refuse<W: Sink>(writer: &mut W, why: Refusal) -> Result<u8, StreamFault>
    requires { W.has_failed writer.old ≡ false }
    ensures status { IfOk result (λ status. status ≡ 2) }
    ensures ok { OnOk result (Appends (W.contents writer.old) (W.contents writer.new)
        (refusal_text (name_of why))) }
    ensures failed { W.has_failed writer.new ≡ is_err result }
{
    write_all(writer, b"refused: ")?;
    write_all(writer, why.name().as_bytes())?;
    write_all(writer, b"\n")?;
    Ok(2)
}

/// Checks the words, reads the whole input if they are a request, writes the answer, and returns the exit status; an
/// `Err` exactly if the writer fails. Neither stream may have failed before.
pub fn run<R: Source, W: Sink>(
    alloc: Global,
    words: &[String],
    reader: &mut R,
    writer: &mut W,
) -> Result<u8, StreamFault>
    requires reader { R.has_failed reader.old ≡ false }
    requires writer { W.has_failed writer.old ≡ false }
    ensures outcome { IfOk result (λ status. (text : List ℕ)
        × Appends (W.contents writer.old) (W.contents writer.new) text
        × IsOutcome Answers
        (request_of (map string_bytes words.now)) (R.has_failed reader.new)
        (R.remaining reader.old) (R.remaining reader.new) status text) }
    ensures failed { W.has_failed writer.new ≡ is_err result }
{
    let Some(request) = request_of(words) else {
        return refuse(writer, Refusal::Usage);
    };
    let input = match read_all(alloc, reader) {
        Ok(input) => input,
        Err(ReadFault::Failed) => return refuse(writer, Refusal::Read),
        Err(ReadFault::Memory) => return refuse(writer, Refusal::Memory),
    };
    match answer(alloc, request, &input) {
        Ok(Answer { status, text }) => {
            write_all(writer, text.as_bytes())?;
            Ok(status)
        }
        Err(why) => refuse(writer, why),
    }
}

//! Reads a message of at most 1,024 bytes from standard input, makes the trace of its blocks, and prints the message's
//! digest, the counts and the findings of an audit. With a row and a column as words, that cell is changed before the
//! audit. With the word `object`, it prints the AIR and the trace as an object instead.
#![tactic(auto)]

ghost use Rattle.std.specs.Prelude.{◌≤◌, ◌^◌, IfOk, length};

mod findings;
mod object;
mod refusals;
mod words;

use findings::{Findings, findings_of};
use object::object_of_message;
use p3_air::BabyBear;
use refusals::Refusal;
use std::io::{ErrorKind, Read};
use std::process::ExitCode;
use std::{env, io};
use words::{Cell, cell_of};

/// The words after the program's name.
fn given_words(rt: &HostRuntime) -> io::Result<Vec<String>> {
    let mut words = Vec::new(rt.alloc());
    for word in env::args(rt)?.skip(1) {
        words.push(word)?;
    }
    Ok(words)
}

/// Whether the only word is `object`.
fn asks_for_object(rt: &HostRuntime) -> bool {
    match given_words(rt) {
        Ok(words) => match words.as_slice() {
            [word] => word.as_str() == "object",
            _ => false,
        },
        Err(_) => false,
    }
}

/// The cell that the words name, if there are any. A word that isn't UTF-8 is not a number.
fn cell_to_spoil(rt: &HostRuntime) -> Result<Option<Cell>, Refusal> {
    match given_words(rt) {
        Ok(words) => cell_of(&words),
        Err(error) if error.kind() == ErrorKind::OutOfMemory => Err(Refusal::Memory),
        Err(_) => Err(Refusal::NotANumber),
    }
}

/// The whole input, if it is at most one chunk.
fn read_message(rt: &HostRuntime) -> Result<Vec<u8>, Refusal>
    ensures { IfOk result (λ message. length message.items ≤ 2 ^ 10) }
{
    let mut message = Vec::new(rt.alloc());
    match rt.stdin().take(1025).read_to_end(&mut message) {
        Ok(_) => {
            if message.len() <= 1024 {
                Ok(message)
            } else {
                Err(Refusal::TooLong)
            }
        }
        Err(error) if error.kind() == ErrorKind::OutOfMemory => Err(Refusal::Memory),
        Err(_) => Err(Refusal::Read),
    }
}

/// The findings about the input.
fn read_findings(rt: &HostRuntime) -> Result<Findings, Refusal> {
    let cell = cell_to_spoil(rt)?;
    let message = read_message(rt)?;
    findings_of::<BabyBear>(rt.alloc(), &message, cell)
}

/// The object of the input, as text.
fn read_object(rt: &HostRuntime) -> Result<String, Refusal> {
    let message = read_message(rt)?;
    let object = object_of_message(rt.alloc(), &message)?;
    Ok(object.to_string(rt.alloc())?)
}

/// Prints a name and eight words, each little-endian.
fn show_words(rt: &HostRuntime, name: &str, words: [u32; 8]) -> io::Result<()> {
    print!(rt; "{name} ")?;
    for word in words {
        print!(rt; "{:08x}", word.swap_bytes())?;
    }
    println!(rt; "")
}

/// Prints the findings; the status is 0 if the audit lists no failure, otherwise 1.
fn show(rt: &HostRuntime, found: &Findings) -> io::Result<u8> {
    show_words(rt, "digest", found.digest)?;
    show_words(rt, "output", found.output)?;
    println!(rt; "blocks {}", found.blocks)?;
    println!(rt; "rows {}", found.report.total_rows)?;
    println!(rt; "constraints {}", found.report.total_constraints_per_row)?;
    println!(rt; "degree {}", found.degree)?;
    if found.report.is_ok() {
        println!(rt; "the audit lists nothing")?;
        return Ok(0);
    }
    println!(rt; "failures {}", found.report.failures.len())?;
    for failure in &found.report.failures {
        println!(rt; "row {}: {failure}", failure.row)?;
    }
    Ok(1)
}

/// Prints why there is no answer; the status is 2.
fn show_refusal(rt: &HostRuntime, why: Refusal) -> io::Result<u8> {
    println!(rt; "refused: {}", why.name())?;
    Ok(2)
}

/// Prints the object of the input.
fn show_object(rt: &HostRuntime) -> io::Result<u8> {
    match read_object(rt) {
        Ok(text) => {
            println!(rt; "{text}")?;
            Ok(0)
        }
        Err(why) => show_refusal(rt, why),
    }
}

/// Prints the findings about the input.
fn show_findings(rt: &HostRuntime) -> io::Result<u8> {
    match read_findings(rt) {
        Ok(found) => show(rt, &found),
        Err(why) => show_refusal(rt, why),
    }
}

/// Returns a status, never an `Err`, which would print to standard error.
fn main(rt: HostRuntime) -> ExitCode {
    let shown = if asks_for_object(&rt) {
        show_object(&rt)
    } else {
        show_findings(&rt)
    };
    match shown {
        Ok(status) => ExitCode::from(status),
        Err(_) => ExitCode::from(2),
    }
}

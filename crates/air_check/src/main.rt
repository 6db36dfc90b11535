//! Reads a trace for Fibonacci, or a JSON object with an AIR and its trace, from standard input, audits it, and reports
//! on standard output.
#![tactic(auto)]

ghost use Rattle.std.specs.Prelude.{◌≡◌};

use air_program::{ReadSource, Refusal, WriteSink, refuse, run};
use std::io::ErrorKind;
use std::process::ExitCode;
use std::{env, io};

/// The words after the program's name.
fn words(rt: &HostRuntime) -> io::Result<Vec<String>> {
    let mut words = Vec::new(rt.alloc());
    for word in env::args(rt)?.skip(1) {
        words.push(word)?;
    }
    Ok(words)
}

/// The refusal when the words aren't available. A word that isn't UTF-8 is a usage error.
fn refusal_of(kind: ErrorKind) -> Refusal
    ensures memory { kind ≡ ErrorKind.OutOfMemory → result ≡ Refusal.Memory }
    ensures other { (kind ≡ ErrorKind.OutOfMemory → ⊥) → result ≡ Refusal.Usage }
{
    match kind {
        ErrorKind::OutOfMemory => Refusal::Memory,
        _ => Refusal::Usage,
    }
}

/// Returns a status, never an `Err`, which would print to standard error.
fn main(rt: HostRuntime) -> ExitCode {
    let mut reader = ReadSource::new(rt.stdin());
    let mut writer = WriteSink::new(rt.stdout());
    let outcome = match words(&rt) {
        Ok(words) => run(rt.alloc(), &words, &mut reader, &mut writer),
        Err(error) => refuse(&mut writer, refusal_of(error.kind())),
    };
    match outcome {
        Ok(status) => ExitCode::from(status),
        Err(_) => ExitCode::from(2),
    }
}

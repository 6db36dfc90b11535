//! Reading whole inputs and writing whole texts, over streams that move them in pieces.

ghost use Rattle.std.specs.Prelude.{◌≡◌, false, IfOk, OnOk, is_err};
ghost use Rattle.std.specs.Io.KnownBytes.{Consumes, Appends, IsAtEnd};
ghost use Rattle.air_streams.specs.Whole.{is_failed};

use crate::stream::{Sink, Source, StreamFault};
use std::alloc::Global;

/// Why there is no whole input.
#[derive(Clone, Copy, Debug, PartialEq, Eq, Drop)]
pub enum ReadFault {
    Failed,
    Memory,
}

/// All bytes up to a pull that answers 0. A source without an end leads to `Memory`. The source must not have failed
/// before.
pub fn read_all<R: Source>(alloc: Global, reader: &mut R) -> Result<Vec<u8>, ReadFault>
    requires { R.has_failed reader.old ≡ false }
    ensures ok { IfOk result (λ input. Consumes (R.remaining reader.old) (R.remaining reader.new)
        input.items) }
    ensures end { OnOk result (IsAtEnd (R.remaining reader.new)) }
    ensures failed { R.has_failed reader.new ≡ is_failed result }
{
    let mut input = Vec::new(alloc);
    let mut buf = [0; 4096];
    'pulls: loop {
        let Ok(count) = reader.pull(&mut buf) else {
            return Err(ReadFault::Failed);
        };
        if count == 0 {
            return Ok(input);
        }
        if input.extend_from_slice(&buf[..count]).is_err() {
            return Err(ReadFault::Memory);
        }
    }
}

/// Writes all bytes, in as many pieces as the sink needs. The sink must not have failed before.
pub fn write_all<W: Sink>(writer: &mut W, text: &[u8]) -> Result<(), StreamFault>
    requires { W.has_failed writer.old ≡ false }
    ensures ok { OnOk result (Appends (W.contents writer.old) (W.contents writer.new) text.now) }
    ensures failed { W.has_failed writer.new ≡ is_err result }
{
    let mut done = 0;
    'pieces: while done < text.len() {
        done += writer.push(&text[done..])?;
    }
    Ok(())
}

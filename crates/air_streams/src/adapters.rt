//! Sources and sinks over std's readers and writers.

ghost use Rattle.std.specs.Prelude.{◌≡◌, ◌≢◌, ◌↔◌, false, is_some, IfSome, IsTrue};
ghost use Rattle.std.specs.IoError.{error_kind};
ghost use Rattle.std.specs.declared.io.ErrorKind.TheVariants.{Interrupted};
ghost use Rattle.std.specs.Option.{ForSome};

use crate::stream::{Sink, Source, StreamFault};
use std::io::{Error, ErrorKind, Read, Write};

// Whether a signal interrupted the call.
fn is_interrupted(error: &Error) -> bool
    ensures { IsTrue result ↔ (error_kind error.now ≡ Interrupted) }
{
    error.kind() == ErrorKind::Interrupted
}

/// A reader as a source. A read that a signal interrupts is repeated.
#[derive(Drop)]
pub struct ReadSource<R> {
    inner: R,
    fault: Option<Error>,
    // An interrupted read is no fault: it is repeated.
    ghost repeats: { ForSome fault (λ e. error_kind e ≢ Interrupted) },
}

impl<R: Read> ReadSource<R> {
    /// A source of the reader's remaining bytes.
    pub fn new(inner: R) -> ReadSource<R>
        ensures remaining { ⟦<ReadSource<R> as Source>⟧.remaining result ≡ R.remaining inner }
        ensures failed { ⟦<ReadSource<R> as Source>⟧.has_failed result ≡ false }
    {
        ReadSource { inner, fault: None }
    }

    /// The error of the read that failed. It is no interruption by a signal, since such a read is repeated.
    pub fn fault(&self) -> Option<Error>
        ensures some { is_some result ≡ ⟦<ReadSource<R> as Source>⟧.has_failed self.now }
        ensures repeats { IfSome result (λ e. error_kind e ≢ Interrupted) }
    {
        self.fault
    }
}

impl<R: Read> Source for ReadSource<R> {
    ghost remaining = { λ s. R.remaining s.inner };

    ghost has_failed = { λ s. is_some s.fault };

    fn pull(&mut self, buf: &mut [u8]) -> Result<usize, StreamFault> {
        for _ in 0..u64::MAX {
            match self.inner.read(buf) {
                Ok(count) => return Ok(count),
                Err(e) if is_interrupted(&e) => {}
                Err(e) => {
                    self.fault = Some(e);
                    return Err(StreamFault);
                }
            }
        }
        self.fault = Some(Error::new(ErrorKind::TimedOut, "each read was interrupted"));
        Err(StreamFault)
    }

    fn has_failed(&self) -> bool {
        self.fault.is_some()
    }
}

/// A writer as a sink, which accepts each piece completely.
#[derive(Drop)]
pub struct WriteSink<W> {
    inner: W,
    failed: bool,
}

impl<W: Write> WriteSink<W> {
    /// A sink that appends to the writer's contents.
    pub fn new(inner: W) -> WriteSink<W>
        ensures contents { ⟦<WriteSink<W> as Sink>⟧.contents result ≡ W.contents inner }
        ensures failed { ⟦<WriteSink<W> as Sink>⟧.has_failed result ≡ false }
    {
        WriteSink {
            inner,
            failed: false,
        }
    }
}

impl<W: Write> Sink for WriteSink<W> {
    ghost contents = { λ s. W.contents s.inner };

    ghost has_failed = { λ s. s.failed };

    fn push(&mut self, bytes: &[u8]) -> Result<usize, StreamFault> {
        // A buffering writer may hold bytes back until it is flushed.
        if self.inner.write_all(bytes).is_err() || self.inner.flush().is_err() {
            self.failed = true;
            return Err(StreamFault);
        }
        Ok(bytes.len())
    }

    fn has_failed(&self) -> bool {
        self.failed
    }
}

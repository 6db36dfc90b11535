//! Readers and writers that fail in mid-stream, that a signal interrupts, and that hold bytes back.

ghost use Rattle.std.specs.Prelude.{◌≡◌, false};

use air_program::{ReadSource, Sink, Source, StreamFault, WriteSink, run};
use air_streams::{read_all, write_all};
use std::alloc::Global;
use std::io;
use std::io::{Error, ErrorKind, Read, Write};
use std::test::*;

/// Gives three bytes a call, and fails after a number of calls.
#[derive(Drop)]
struct Pieces<'a> {
    bytes: &'a [u8],
    calls_left: u64,
    failed: bool,
}

impl Source for Pieces<'_> {
    ghost use Rattle.std.specs.Prelude.{Some};

    ghost remaining = { λ s. Some s.bytes.now };

    ghost has_failed = { λ s. s.failed };

    fn pull(&mut self, buf: &mut [u8]) -> Result<usize, StreamFault> {
        if self.calls_left == 0 {
            self.failed = true;
            return Err(StreamFault);
        }
        self.calls_left -= 1;
        let bytes = self.bytes;
        let count = bytes.len().min(buf.len()).min(3);
        let (front, rest) = bytes.split_at(count);
        buf[..count].copy_from_slice(front);
        self.bytes = rest;
        Ok(count)
    }

    fn has_failed(&self) -> bool {
        self.failed
    }
}

/// Keeps three bytes a call, and fails after a number of calls.
#[derive(Drop)]
struct Kept {
    bytes: Vec<u8>,
    calls_left: u64,
    failed: bool,
}

impl Sink for Kept {
    ghost use Rattle.std.specs.Prelude.{Some};

    ghost contents = { λ s. Some s.bytes.items };

    ghost has_failed = { λ s. s.failed };

    fn push(&mut self, bytes: &[u8]) -> Result<usize, StreamFault> {
        let count = bytes.len().min(3);
        if self.calls_left == 0 || self.bytes.extend_from_slice(&bytes[..count]).is_err() {
            self.failed = true;
            return Err(StreamFault);
        }
        self.calls_left -= 1;
        Ok(count)
    }

    fn has_failed(&self) -> bool {
        self.failed
    }
}

const INPUT: &[u8] = b"0 1 3\n0 1\n1 1\n1 2\n2 3\n";

const OBJECT: &[u8] = b"{\"main_width\":1,\"main\":[0],\"public_values\":[],\"constraints\":[]}";

/// The words of a text, separated by single spaces.
fn words_of(alloc: Global, text: &str) -> Result<Vec<String>, Fail> {
    let mut words = Vec::new(alloc);
    for word in text.split(' ') {
        words.push(String::from_str(alloc, word)?)?;
    }
    Ok(words)
}

/// The status of a run; `None` if a write failed.
fn status_of(
    alloc: Global,
    words: &[String],
    reader: &mut Pieces<'_>,
    writer: &mut Kept,
) -> Option<u8>
    requires reader { reader.old.failed ≡ false }
    requires writer { writer.old.failed ≡ false }
{
    run(alloc, words, reader, writer).ok()
}

/// The status of a run whose reader and writer fail after a number of calls, and the bytes written. There is no status
/// if a write failed.
fn run_cut(
    alloc: Global,
    text: &str,
    bytes: &[u8],
    reads: u64,
    writes: u64,
) -> Result<(Option<u8>, Vec<u8>), Fail> {
    let words = words_of(alloc, text)?;
    let mut reader = Pieces {
        bytes,
        calls_left: reads,
        failed: false,
    };
    let mut writer = Kept {
        bytes: Vec::new(alloc),
        calls_left: writes,
        failed: false,
    };
    let status = status_of(alloc, &words, &mut reader, &mut writer);
    Ok((status, writer.bytes))
}

const MANY: u64 = 10_000;

/// Each read fails in turn, up to the one that would report the end.
#[test]
fn tells_failed_reads(rt: HostRuntime) -> Result<(), Fail> {
    for (text, input) in [
        ("fibonacci", INPUT),
        ("named 1 w=2", INPUT),
        ("flat", OBJECT),
    ] {
        let reads = input.len().div_ceil(3) as u64;
        for calls in 0..=reads {
            let (status, written) = run_cut(rt.alloc(), text, input, calls, MANY)?;
            assert_eq!(rt;
                written.as_slice(),
                b"refused: Read\n".as_slice(),
                "{text} after {calls} reads"
            );
            assert_eq!(rt; status, Some(2), "{text} after {calls} reads");
        }
        let (status, _) = run_cut(rt.alloc(), text, input, reads.saturating_add(1), MANY)?;
        assert_eq!(rt; status, Some(0), "{text}");
    }
    Ok(())
}

/// Each write of an answer and of a refusal fails in turn, until a run has as many as it needs.
#[test]
fn tells_failed_writes(rt: HostRuntime) -> Result<(), Fail> {
    for (text, input, writes, status) in [
        ("fibonacci", INPUT, 10, 0),
        ("named 1 w=2", INPUT, 10, 0),
        ("flat", OBJECT, 10, 0),
        ("flat", INPUT, 6, 2),
        ("other", INPUT, 6, 2),
    ] {
        for calls in 0..writes {
            let (answered, _) = run_cut(rt.alloc(), text, input, MANY, calls)?;
            assert_eq!(rt; answered, None, "{text} after {calls} writes");
        }
        let (answered, _) = run_cut(rt.alloc(), text, input, MANY, writes)?;
        assert_eq!(rt; answered, Some(status), "{text}");
    }
    Ok(())
}

/// Gives three bytes a call. A signal interrupts its first reads.
#[derive(Drop)]
struct Interrupted<'a> {
    bytes: &'a [u8],
    interruptions: u64,
}

impl Read for Interrupted<'_> {
    fn read(&mut self, buf: &mut [u8]) -> io::Result<usize> {
        if self.interruptions > 0 {
            self.interruptions -= 1;
            return Err(Error::from(ErrorKind::Interrupted));
        }
        let bytes = self.bytes;
        let count = bytes.len().min(buf.len()).min(3);
        let (front, rest) = bytes.split_at(count);
        buf[..count].copy_from_slice(front);
        self.bytes = rest;
        Ok(count)
    }
}

/// Holds back what isn't flushed.
#[derive(Drop)]
struct HoldsBack {
    held: Vec<u8>,
    written: Vec<u8>,
}

impl Write for HoldsBack {
    fn write(&mut self, buf: &[u8]) -> io::Result<usize> {
        self.held.extend_from_slice(buf)?;
        Ok(buf.len())
    }

    fn flush(&mut self) -> io::Result<()> {
        self.written.extend_from_slice(&self.held)?;
        self.held.clear();
        Ok(())
    }
}

/// A read that is interrupted twice is made again twice.
#[test]
fn repeats_interrupted_reads(rt: HostRuntime) -> Result<(), Fail> {
    let mut source = ReadSource::new(Interrupted {
        bytes: INPUT,
        interruptions: 2,
    });
    let input = read_all(rt.alloc(), &mut source).ok();
    assert_eq!(rt; input.as_deref(), Some(INPUT));
    assert!(rt; source.fault().is_none());
    Ok(())
}

/// A writer that holds bytes back until it is flushed has all of them after the call.
#[test]
fn flushes_what_it_writes(rt: HostRuntime) -> Result<(), Fail> {
    let mut writer = HoldsBack {
        held: Vec::new(rt.alloc()),
        written: Vec::new(rt.alloc()),
    };
    let done = write_all(&mut WriteSink::new(&mut writer), INPUT);
    assert_eq!(rt; done, Ok(()));
    assert_eq!(rt; writer.written.as_slice(), INPUT);
    Ok(())
}

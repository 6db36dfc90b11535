//! A reader and a writer in memory that move small pieces.

ghost use Rattle.std.specs.Prelude.{◌≡◌, false};

use air_program::{Sink, Source, StreamFault};
use std::alloc::Global;

/// Gives bytes, at most `most` a call.
#[derive(Drop)]
pub struct Pieces<'a> {
    bytes: &'a [u8],
    most: usize,
}

impl Pieces<'_> {
    pub fn new(bytes: &[u8], most: usize) -> Pieces<'_> {
        Pieces { bytes, most }
    }

    pub fn bytes_left(&self) -> usize {
        self.bytes.len()
    }
}

impl Source for Pieces<'_> {
    ghost use Rattle.std.specs.Prelude.{Some};

    ghost remaining = { λ s. Some s.bytes.now };

    ghost has_failed = { λ _. false };

    fn pull(&mut self, buf: &mut [u8]) -> Result<usize, StreamFault> {
        let bytes = self.bytes;
        let count = bytes.len().min(buf.len()).min(self.most.max(1));
        let (front, rest) = bytes.split_at(count);
        buf[..count].copy_from_slice(front);
        self.bytes = rest;
        Ok(count)
    }

    fn has_failed(&self) -> bool {
        false
    }
}

/// Keeps bytes, at most `most` a call. It fails only when out of memory.
#[derive(Drop)]
pub struct Kept {
    bytes: Vec<u8>,
    most: usize,
    failed: bool,
}

impl Kept {
    pub fn new(alloc: Global, most: usize) -> Kept
        ensures { result.failed ≡ false }
    {
        Kept {
            bytes: Vec::new(alloc),
            most,
            failed: false,
        }
    }

    pub fn bytes(&self) -> &[u8] {
        self.bytes.as_slice()
    }
}

impl Sink for Kept {
    ghost use Rattle.std.specs.Prelude.{Some};

    ghost contents = { λ s. Some s.bytes.items };

    ghost has_failed = { λ s. s.failed };

    fn push(&mut self, bytes: &[u8]) -> Result<usize, StreamFault> {
        let count = bytes.len().min(self.most.max(1));
        if self.bytes.extend_from_slice(&bytes[..count]).is_err() {
            self.failed = true;
            return Err(StreamFault);
        }
        Ok(count)
    }

    fn has_failed(&self) -> bool {
        self.failed
    }
}

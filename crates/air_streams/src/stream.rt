//! Sources and sinks of bytes.

ghost use Rattle.std.specs.Prelude.{◌≡◌, ◌≤◌, ◌<◌, ℕ, List, Bool, true, Option, Ok, length, take, IfOk, OnOk, OnErr};
ghost use Rattle.std.specs.Io.KnownBytes.{Consumes, Appends, IsAtEnd};

/// A stream failed.
#[derive(Clone, Copy, Debug, PartialEq, Eq, Drop)]
pub struct StreamFault;

/// A stream of bytes to read, in pieces, up to its end.
pub trait Source {
    // The bytes that further pulls will give, if the source specifies them.
    ghost remaining: { Self → Option (List ℕ) };

    // A call has answered an `Err`.
    ghost has_failed: { Self → Bool };

    /// Fills the front of `buf`, which must not be empty, and answers how many bytes it filled: 0 only at the end.
    fn pull(&mut self, buf: &mut [u8]) -> Result<usize, StreamFault>
        requires { 0 < length buf.old }
        ensures bound { IfOk result (λ count. count ≤ length buf.new) }
        ensures bytes { IfOk result (λ count. Consumes (remaining self.old) (remaining self.new)
            (take count buf.new)) }
        ensures end { result ≡ Ok 0 → IsAtEnd (remaining self.new) }
        ensures ok { OnOk result (has_failed self.new ≡ has_failed self.old) }
        ensures err { OnErr result (has_failed self.new ≡ true) };

    /// Whether a call has answered an `Err`.
    fn has_failed(&self) -> bool
        ensures { result ≡ has_failed self.now };
}

/// A stream of bytes to write, in pieces.
pub trait Sink {
    // The bytes that the sink holds, if the sink specifies them.
    ghost contents: { Self → Option (List ℕ) };

    // A call has answered an `Err`.
    ghost has_failed: { Self → Bool };

    /// Takes bytes from the front of `bytes`, and answers how many: at least one, unless `bytes` is empty.
    fn push(&mut self, bytes: &[u8]) -> Result<usize, StreamFault>
        ensures bound { IfOk result (λ count. count ≤ length bytes.now) }
        ensures some { IfOk result (λ count. 0 < length bytes.now → 0 < count) }
        ensures bytes { IfOk result (λ count. Appends (contents self.old) (contents self.new)
            (take count bytes.now)) }
        ensures ok { OnOk result (has_failed self.new ≡ has_failed self.old) }
        ensures err { OnErr result (has_failed self.new ≡ true) };

    /// Whether a call has answered an `Err`.
    fn has_failed(&self) -> bool
        ensures { result ≡ has_failed self.now };
}

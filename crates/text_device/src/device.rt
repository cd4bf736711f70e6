//! Devices: what a text is read from, and what a report is written to.
ghost use Rattle.std.specs.Prelude.{◌≡◌, ℕ, ◌+◌, ◌<◌, ◌≤◌, ◌^◌, ◌||◌, Bool, false, List, length, Option, IfOk, IfSome, IsTrue, is_err, Err};
ghost use Rattle.std.specs.Prelude.{Some, None};
ghost use Rattle.std.specs.Io.KnownBytes.{ReadConsumes, WriteAppends, Keeps};
ghost use Rattle.text_device.specs.Devices.{TakesAtMost, took_none, failed_text};

use std::alloc::Global;
use std::fmt;
use std::io::{Read, Write};
use std::marker::Model;
use thiserror::Error;

/// A call of a device has failed. The error of the operating system is not kept.
#[derive(Clone, Copy, Debug, PartialEq, Eq, Error)]
pub struct Failed;

impl fmt::Display for Failed {
    ghost output = { λ _. Some failed_text };

    fn fmt<W: fmt::Write>(&self, f: &mut fmt::Formatter<W>) -> fmt::Result {
        write!(f, "the device has failed")
    }
}

/// A device that bytes are read from. A read that answers `Failed` has read no bytes.
pub trait Source {
    // The bytes that reads will still give; None if nothing is known of them.
    ghost remaining: { Self → Option (List ℕ) };
    // Whether a call so far has answered `Failed`.
    ghost has_failed: { Self → Bool };
    // The path at which the device was opened; None if nothing is known of it.
    ghost origin: { Self → Option (List ℕ) } = { λ _. None };

    /// Reads bytes to the front of the buffer and returns how many. If the buffer is not empty, 0 is the end.
    fn read(&mut self, buf: &mut [u8]) -> Result<usize, Failed>
        ensures count { IfOk result (λ n. n ≤ length buf.new) }
        ensures bytes { ReadConsumes (remaining self.old) (remaining self.new) result buf.new }
        ensures failed { has_failed self.new ≡ (has_failed self.old || is_err result) }
        ensures origin { origin self.new ≡ origin self.old };
}

/// A device that bytes are written to. A write that answers `Failed` has written no bytes.
pub trait Sink {
    // The bytes that the device holds; None if nothing is known of them.
    ghost contents: { Self → Option (List ℕ) };
    // Whether a call so far has answered `Failed`.
    ghost has_failed: { Self → Bool };
    // Whether a write so far has written none of the bytes that it was given, though there were some.
    ghost has_stopped: { Self → Bool };

    /// Writes bytes from the front of `bytes` and returns how many.
    fn write(&mut self, bytes: &[u8]) -> Result<usize, Failed>
        ensures count { IfOk result (λ n. n ≤ length bytes.now) }
        ensures bytes { WriteAppends (contents self.old) (contents self.new) result bytes.now }
        ensures failed { has_failed self.new ≡ (has_failed self.old || is_err result) }
        ensures stopped { has_stopped self.new ≡ (has_stopped self.old || took_none result bytes.now) };

    /// Passes on the bytes that the device still holds in a buffer.
    fn flush(&mut self) -> Result<(), Failed>
        ensures bytes { Keeps (contents self.old) (contents self.new) }
        ensures failed { has_failed self.new ≡ (has_failed self.old || is_err result) }
        ensures stopped { has_stopped self.new ≡ has_stopped self.old };
}

/// A reader or writer of std as a device.
#[derive(Drop)]
pub struct StdDevice<T> {
    inner: T,
    failed: bool,
    stopped: bool,
}

impl<T> Model for StdDevice<T> {
    ghost use Rattle.std.specs.Prelude.{Bool};

    ghost Value = { T × Bool × Bool };

    ghost view = { λ d. (d.inner, d.failed, d.stopped) };
}

impl<T> StdDevice<T> {
    /// The device over this reader or writer. It has neither failed nor stopped yet.
    pub fn new(inner: T) -> StdDevice<T>
        ensures fresh { result ≡ (inner, false, false) }
    {
        StdDevice {
            inner,
            failed: false,
            stopped: false,
        }
    }
}

impl<T: Read> Source for StdDevice<T> {
    ghost remaining = { λ d. T.remaining d.0 };

    ghost has_failed = { λ d. d.1 };

    fn read(&mut self, buf: &mut [u8]) -> Result<usize, Failed> {
        match self.inner.read(buf) {
            Ok(n) => Ok(n),
            Err(_) => {
                self.failed = true;
                Err(Failed)
            }
        }
    }
}

impl<T: Write> Sink for StdDevice<T> {
    ghost contents = { λ d. T.contents d.0 };

    ghost has_failed = { λ d. d.1 };

    ghost has_stopped = { λ d. d.2 };

    fn write(&mut self, bytes: &[u8]) -> Result<usize, Failed> {
        match self.inner.write(bytes) {
            Ok(n) => {
                if n == 0 && !bytes.is_empty() {
                    self.stopped = true;
                }
                Ok(n)
            }
            Err(_) => {
                self.failed = true;
                Err(Failed)
            }
        }
    }

    fn flush(&mut self) -> Result<(), Failed> {
        match self.inner.flush() {
            Ok(()) => Ok(()),
            Err(_) => {
                self.failed = true;
                Err(Failed)
            }
        }
    }
}

/// A text in memory, as a device that cannot fail.
#[derive(Drop)]
pub struct InMemory<'a> {
    rest: &'a [u8],
}

impl<'a> Model for InMemory<'a> {
    ghost use Rattle.std.specs.Prelude.{List, ℕ};

    ghost Value = { List ℕ };

    ghost view = { λ d. d.rest.now };
}

impl<'a> InMemory<'a> {
    /// The device whose bytes are this text.
    pub fn new(text: &'a [u8]) -> InMemory<'a>
        ensures { result ≡ text.now }
    {
        InMemory { rest: text }
    }
}

impl<'a> Source for InMemory<'a> {
    ghost remaining = { λ d. Some d };

    ghost has_failed = { λ _. false };

    fn read(&mut self, buf: &mut [u8]) -> Result<usize, Failed> {
        match self.rest.read(buf) {
            Ok(n) => Ok(n),
            Err(_) => unreachable!(),
        }
    }
}

/// Why a text could not be read.
#[derive(Clone, Copy, Debug, PartialEq, Eq)]
pub enum TextFault {
    /// The device failed.
    Read,
    /// The text is longer than the limit.
    TooLong,
    /// An allocation was refused.
    OutOfMemory,
}

/// The most bytes that one read asks for.
const CHUNK: usize = 65_536;

/// The whole text of the device, of at most `limit` bytes. At most `limit + 1` bytes are read: the last of them shows
/// that the text is too long.
pub fn read_text<R: Source>(
    alloc: Global,
    device: &mut R,
    limit: usize,
) -> Result<Vec<u8>, TextFault>
    requires { limit < 2 ^ 40 }
    ensures whole { IfOk result (λ v. IfSome (R.remaining device.old) (λ given_bytes. v.items ≡ given_bytes)) }
    ensures within { IfOk result (λ v. length v.items ≤ limit) }
    ensures long { result ≡ Err TextFault.TooLong → IfSome (R.remaining device.old) (λ given_bytes. limit < length given_bytes) }
    ensures taken { TakesAtMost (limit + 1) (R.remaining device.old) (R.remaining device.new) }
    ensures read { result ≡ Err TextFault.Read → IsTrue (R.has_failed device.new) }
    ensures kept { (result ≡ Err TextFault.Read → ⊥) → R.has_failed device.new ≡ R.has_failed device.old }
    ensures origin { R.origin device.new ≡ R.origin device.old }
{
    let mut text = Vec::new(alloc);
    let mut chunk = [0u8; CHUNK];
    while text.len() <= limit {
        let room = usize::min(limit + 1 - text.len(), CHUNK);
        let taken = match device.read(&mut chunk[..room]) {
            Ok(taken) => taken,
            Err(_) => return Err(TextFault::Read),
        };
        if taken == 0 {
            return Ok(text);
        }
        if text.extend_from_slice(&chunk[..taken]).is_err() {
            return Err(TextFault::OutOfMemory);
        }
    }
    Err(TextFault::TooLong)
}

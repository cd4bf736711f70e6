//! Readers and writers in memory, which fail at a given place.
ghost use Rattle.std.specs.Prelude.{◌≡◌, None, Some, false};

use check_tool::terminal::TerminalSink;
use std::alloc::Global;
use text_device::{Failed, Sink, Source};

/// A reader of a text that gives one byte a read, and fails after so many reads.
#[derive(Drop)]
pub struct ByteReader {
    left: &'static [u8],
    reads_left: usize,
    pub(crate) failed: bool,
}

/// A reader at the beginning of a text, which fails after `good_reads` reads.
pub fn byte_reader(text: &'static str, good_reads: usize) -> ByteReader
    ensures { result.failed ≡ false }
{
    ByteReader {
        left: text.as_bytes(),
        reads_left: good_reads,
        failed: false,
    }
}

impl Source for ByteReader {
    ghost remaining = { λ _. None };

    ghost has_failed = { λ s. s.failed };

    fn read(&mut self, buf: &mut [u8]) -> Result<usize, Failed> {
        if self.reads_left == 0 {
            self.failed = true;
            return Err(Failed);
        }
        self.reads_left -= 1;
        let Some((byte, after)) = self.left.split_first() else {
            return Ok(0);
        };
        let Some(first) = buf.first_mut() else {
            return Ok(0);
        };
        *first = *byte;
        self.left = after;
        Ok(1)
    }
}

/// A reader that gives blanks without end.
#[derive(Drop)]
pub struct Endless;

impl Source for Endless {
    ghost remaining = { λ _. None };

    ghost has_failed = { λ _. false };

    fn read(&mut self, buf: &mut [u8]) -> Result<usize, Failed> {
        for byte in buf.iter_mut() {
            *byte = b' ';
        }
        Ok(buf.len())
    }
}

/// What a writer does when its room is used up.
#[derive(Clone, Copy, Drop)]
pub enum End {
    /// It fails.
    Fails,
    /// It takes none of the bytes that it is given.
    TakesNone,
}

/// A writer that takes at most seven bytes at once, as long as it has room. Its flush may fail.
#[derive(Drop)]
pub struct BoundedWriter {
    pub written: Vec<u8>,
    capacity: usize,
    end: End,
    flushes: bool,
    failed: bool,
    stopped: bool,
    pub(crate) seen: bool,
}

/// A writer that has written nothing, and is no terminal.
pub fn new_writer(alloc: Global, capacity: usize, end: End, flushes: bool) -> BoundedWriter {
    BoundedWriter {
        written: Vec::new(alloc),
        capacity,
        end,
        flushes,
        failed: false,
        stopped: false,
        seen: false,
    }
}

impl Sink for BoundedWriter {
    ghost contents = { λ s. Some s.written.items };

    ghost has_failed = { λ s. s.failed };

    ghost has_stopped = { λ s. s.stopped };

    fn write(&mut self, bytes: &[u8]) -> Result<usize, Failed> {
        let count = bytes.len().min(self.capacity).min(7);
        if count == 0 && matches!(self.end, End::TakesNone) {
            if !bytes.is_empty() {
                self.stopped = true;
            }
            return Ok(0);
        }
        if count == 0 || self.written.extend_from_slice(&bytes[..count]).is_err() {
            self.failed = true;
            return Err(Failed);
        }
        self.capacity -= count;
        Ok(count)
    }

    fn flush(&mut self) -> Result<(), Failed> {
        if !self.flushes {
            self.failed = true;
            return Err(Failed);
        }
        Ok(())
    }
}

impl TerminalSink for BoundedWriter {
    ghost on_terminal = { λ s. s.seen };

    fn is_on_terminal(&self) -> bool {
        self.seen
    }
}

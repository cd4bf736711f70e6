// Devices that give one byte a read, fail, or never end.
ghost use Rattle.std.specs.Prelude.{None, false};

use std::io;
use text_device::{Failed, Source};

/// A device that gives one byte a read, and fails when `fails_at` bytes are left.
#[derive(Drop)]
pub struct OneByte<'a> {
    pub left: &'a [u8],
    pub fails_at: usize,
    pub failed: bool,
}

impl<'a> Source for OneByte<'a> {
    ghost remaining = { λ _. None };

    ghost has_failed = { λ s. s.failed };

    fn read(&mut self, buf: &mut [u8]) -> Result<usize, Failed> {
        if self.left.len() == self.fails_at {
            self.failed = true;
            return Err(Failed);
        }
        let count = self.left.len().min(buf.len()).min(1);
        let (bytes, after) = self.left.split_at(count);
        buf[..count].copy_from_slice(bytes);
        self.left = after;
        Ok(count)
    }
}

/// A device that gives blanks without end. It notes how many bytes it gave, and the most that were asked for, those
/// that it gave included.
#[derive(Drop)]
pub struct Endless {
    pub given: usize,
    pub asked: usize,
}

impl Source for Endless {
    ghost remaining = { λ _. None };

    ghost has_failed = { λ _. false };

    fn read(&mut self, buf: &mut [u8]) -> Result<usize, Failed> {
        buf.fill(b' ');
        self.given = self.given.saturating_add(buf.len());
        self.asked = usize::max(self.asked, self.given);
        Ok(buf.len())
    }
}

/// A reader and writer of std whose calls all fail.
#[derive(Drop)]
pub struct AlwaysFailing;

impl io::Read for AlwaysFailing {
    fn read(&mut self, _buf: &mut [u8]) -> io::Result<usize> {
        Err(io::Error::from(io::ErrorKind::ConnectionReset))
    }
}

impl io::Write for AlwaysFailing {
    fn write(&mut self, _buf: &[u8]) -> io::Result<usize> {
        Err(io::Error::from(io::ErrorKind::ConnectionReset))
    }

    fn flush(&mut self) -> io::Result<()> {
        Err(io::Error::from(io::ErrorKind::ConnectionReset))
    }
}

//! Output devices that may be terminals.
ghost use Rattle.std.specs.Prelude.{◌≡◌, Bool};

use std::io::{IsTerminal, Write};
use text_device::{Failed, Sink, StdDevice};

/// A sink that may be a terminal.
pub trait TerminalSink: Sink {
    // Whether it is a terminal.
    ghost on_terminal: { Self → Bool };

    /// Returns whether the sink is a terminal.
    fn is_on_terminal(&self) -> bool
        ensures { result ≡ on_terminal self.now };
}

/// A writer of the standard library as a device. Whether it is a terminal is asked once, when the device is made.
#[derive(Drop)]
pub struct TerminalWriter<T> {
    device: StdDevice<T>,
    on_terminal: bool,
}

impl<T: IsTerminal> TerminalWriter<T> {
    /// Returns the device over this writer.
    pub fn new(inner: T) -> TerminalWriter<T> {
        let on_terminal = inner.is_terminal();
        TerminalWriter {
            device: StdDevice::new(inner),
            on_terminal,
        }
    }
}

impl<T: Write> Sink for TerminalWriter<T> {
    ghost contents = { λ d. T.contents d.device.0 };

    ghost has_failed = { λ d. d.device.1 };

    ghost has_stopped = { λ d. d.device.2 };

    fn write(&mut self, bytes: &[u8]) -> Result<usize, Failed> {
        self.device.write(bytes)
    }

    fn flush(&mut self) -> Result<(), Failed> {
        self.device.flush()
    }
}

impl<T: Write> TerminalSink for TerminalWriter<T> {
    ghost on_terminal = { λ d. d.on_terminal };

    fn is_on_terminal(&self) -> bool {
        self.on_terminal
    }
}

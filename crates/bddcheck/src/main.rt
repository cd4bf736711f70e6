//! The program: it reads two netlists, and ends with a report and a status.
//!
//! **Promises.** The exit status is that of the run (`code_of`), whose report and faults are promised by `check_tool`
//! (`status_of`: `ending`). **Only tests show** what `main` gives to it, in one expression. **Begin** with
//! `check_tool`.
#![tactic(auto)]

ghost use Rattle.std.specs.Prelude.{◌≡◌};
ghost use Rattle.std.specs.Process.{exit_status};

use check_tool::folder::Disk;
use check_tool::process::{arguments, status_of};
use check_tool::terminal::TerminalWriter;
use std::process::ExitCode;
use text_device::StdDevice;

/// The exit code with this status.
fn code_of(status: u8) -> ExitCode
    ensures { exit_status result ≡ status }
{
    ExitCode::from(status)
}

fn main(rt: HostRuntime) -> ExitCode {
    code_of(status_of(
        &rt,
        arguments(&rt),
        &mut Disk::new(&rt),
        &mut StdDevice::new(rt.stdin()),
        &mut StdDevice::new(rt.stdout()),
        &mut TerminalWriter::new(rt.stderr()),
    ))
}

//! The file in which a run saves the VCD of a difference.
ghost use Rattle.std.specs.Prelude.{◌≡◌, IfErr, is_ok, option_map};
ghost use Rattle.check_tool.specs.Opening.{Extends};
ghost use Rattle.check_tool.specs.Saving.{IsSaveFault, saves_of, vcd_in};

use crate::done::Done;
use crate::fault::ToolFault;
use crate::folder::Folder;
use command_line::Options;

/// Returns the VCD of a run, if it has one.
fn vcd_in(done: &Done) -> Option<&[u8]>
    ensures { option_map (λ bytes. bytes.now) result ≡ vcd_in done.now }
{
    match done {
        Done::Compared(_, _, Some(vcd)) => Some(vcd.as_slice()),
        Done::Compared(_, _, None) | Done::OrderPrinted(_) => None,
    }
}

/// Saves the VCD of a run in the file that the options name. Does nothing if there is no VCD or no file is named.
#[tactic(auto, using(crate::proofs::Composing::extends_none))]
pub(crate) fn save<F: Folder>(
    folder: &mut F,
    options: &Options<'_>,
    done: &Done,
) -> Result<(), ToolFault>
    ensures saved { Extends (F.saves folder.old) (F.saves folder.new) (saves_of options.now done.now (is_ok result)) }
    ensures fault { IfErr result (IsSaveFault options.now done.now) }
    ensures unopened { F.tries folder.new ≡ F.tries folder.old }
    ensures files_unchanged { F.bytes_at folder.new ≡ F.bytes_at folder.old }
{
    let Some(path) = options.vcd else {
        return Ok(());
    };
    let Some(vcd) = vcd_in(done) else {
        return Ok(());
    };
    match folder.save(path, vcd) {
        Ok(()) => Ok(()),
        Err(obstacle) => Err(ToolFault::CannotSave(obstacle)),
    }
}

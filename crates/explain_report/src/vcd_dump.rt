//! The values at the first difference, as a VCD.
ghost use Rattle.std.specs.Prelude.{◌≡◌, IfOk, option_map};
ghost use Rattle.explain_report.specs.Dumping.{IsVcdDump, IsVcdAt, bytes_in, first_difference_at, difference_of};
ghost use Rattle.explain_report.specs.Explaining.{OfReport};
ghost use Rattle.compare_built.specs.Findings.{found_of};

use compare_built::found::Verdicts;
use compare_built::task::Task;
use net_explain::{values, vcd_of};
use net_order::naming::Naming;
use net_order::netlist_role::NetlistRole;
use report_text::Verdict;
use std::alloc::AllocError;

/// The assignment of a verdict; None unless its pair differs.
fn difference_of(verdict: &Verdict) -> Option<&[bool]>
    ensures { option_map (λ bits. bits.now) result ≡ difference_of verdict.now }
{
    match verdict {
        Verdict::Differs { at, .. } => Some(at.as_slice()),
        Verdict::Equal { .. } | Verdict::Unmatched { .. } | Verdict::Undecided { .. } => None,
    }
}

/// The assignment of the first pair that differs; None if none does.
fn first_difference_at(verdicts: &[Verdict]) -> Option<&[bool]>
    ensures { option_map (λ bits. bits.now) result ≡ first_difference_at verdicts.now }
{
    for place in 0..verdicts.len() {
        if let Some(at) = difference_of(&verdicts[place]) {
            return Some(at);
        }
    }
    None
}

/// The values of all signals of both netlists at an assignment, as a VCD.
fn vcd_at<H>(task: &Task<'_, H>, naming: &Naming, at: &[bool]) -> Result<Vec<u8>, AllocError>
    ensures { IfOk result (λ text. IsVcdAt task.now.first.now task.now.second.now naming.now at.now text.items) }
{
    let bits = values(task.alloc, task.first, naming, NetlistRole::First, at)?;
    let others = values(task.alloc, task.second, naming, NetlistRole::Second, at)?;
    let (bits, others) = (bits.as_slice(), others.as_slice());
    vcd_of(task.alloc, task.first, bits, task.second, others)
}

/// The VCD at the assignment of the first of these verdicts that has one, over their naming; None if there is none, or
/// the settings do not ask for it.
pub fn dump<H>(task: &Task<'_, H>, verdicts: &Verdicts) -> Result<Option<Vec<u8>>, AllocError>
    ensures dump { OfReport task.now verdicts.now (λ input s tried.
        IfOk result (λ vcd. IsVcdDump s.vcd input s tried (found_of verdicts.now) (bytes_in vcd))) }
{
    if !task.settings.vcd {
        return Ok(None);
    }
    let Some(at) = first_difference_at(verdicts.as_slice()) else {
        return Ok(None);
    };
    let text = vcd_at(task, verdicts.naming(), at)?;
    Ok(Some(text))
}

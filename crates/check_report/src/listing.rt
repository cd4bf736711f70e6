//! The order of the variables of what two readers hold, written as an order file. (`ordering` makes
//! its text from the netlists.) As nothing is compared, the monitor is not notified of variables
//! that only one netlist has.
ghost use Rattle.std.specs.Prelude.{◌≡◌, ◌≢◌, ℕ, List, Option, IfOk, IfErr, OnOk, OnErr, IsTrue, Err};
ghost use Rattle.std.specs.Io.KnownBytes.{Appends};
ghost use Rattle.report_text.specs.Writing.{AppendsFront};
ghost use Rattle.compare_built.specs.declared.strategy.Attempt.{Attempt as AttemptValue};
ghost use Rattle.compare_built.specs.Devices.{HasFailedIn, device_text, device_texts};
ghost use Rattle.check_report.specs.Decisions.{AreGivenUpBefore, HasCause};
ghost use Rattle.check_report.specs.Listing.{IsListing};
ghost use Rattle.check_report.specs.Refusals.{MayList};

use crate::ordering::text_for;
use crate::reading::read_netlists;
use compare_built::fault::CheckFault;
use compare_built::strategy::Attempt;
use compare_built::task::Context;
use expand_work::Monitor;
use report_text::write_whole;
use std::sync::Wait;
use std::thread::Threads;
use text_device::{Sink, Source};

/// Returns the order file of the variables of what is read, in the order that the settings name, or in the best order,
/// and the attempt that found it if several orders were tried.
fn listed<H: Threads + Wait + Sync, R1: Source, R2: Source, R3: Source, G: Monitor>(
    context: &Context<'_, H, G>,
    first: &mut R1,
    second: &mut R2,
    given: &mut Option<R3>,
) -> Result<(Vec<u8>, Option<Attempt>), CheckFault>
    ensures text { let input = device_texts (R1.remaining first.old) (R2.remaining second.old) (device_text R3.remaining given.old) in
        let s = context.now.settings.now in
        IfOk result (λ r. IsListing input s r.1 r.0.items) }
    ensures earlier_given_up { let input = device_texts (R1.remaining first.old) (R2.remaining second.old) (device_text R3.remaining given.old) in
        let s = context.now.settings.now in
        IfOk result (λ r. AreGivenUpBefore input s (G.bound context.now.monitor.now) r.1) }
    ensures answer { let input = device_texts (R1.remaining first.old) (R2.remaining second.old) (device_text R3.remaining given.old) in
        let s = context.now.settings.now in
        IfErr result (MayList input s (G.bound context.now.monitor.now)) }
    ensures fault { let input = device_texts (R1.remaining first.old) (R2.remaining second.old) (device_text R3.remaining given.old) in
        let s = context.now.settings.now in
        IfErr result (HasCause input (IsTrue (R1.has_failed first.new)) (IsTrue (R2.has_failed second.new))
        (HasFailedIn R3.has_failed given.new) s) }
    ensures unwritten { result ≢ Err CheckFault.Write }
    ensures origins { (R1.origin first.new ≡ R1.origin first.old) × (R2.origin second.new ≡ R2.origin second.old)
        × (device_text R3.origin given.new ≡ device_text R3.origin given.old) }
{
    let netlists = read_netlists(context.alloc, first, second, given)?;
    let task = netlists.task(context.rt, context.alloc, context.settings);
    text_for(&task, context.monitor)
}

/// Reads two netlists, and a condition if there is one, and writes the names of their variables in level order, one in
/// a line, as an order file has them. Nothing is compared, and diagrams are built only to find the best order. Returns
/// the attempt that found it, if several orders were tried. Fails with the first cause in the order of `CheckFault`.
pub fn print_order<
    H: Threads + Wait + Sync,
    R1: Source,
    R2: Source,
    R3: Source,
    G: Monitor,
    W: Sink,
>(
    context: &Context<'_, H, G>,
    first: &mut R1,
    second: &mut R2,
    given: &mut Option<R3>,
    out: &mut W,
) -> Result<Option<Attempt>, CheckFault>
    // What was written is an order of the variables of what was read that the settings allow, and nothing else.
    ensures order { let input = device_texts (R1.remaining first.old) (R2.remaining second.old) (device_text R3.remaining given.old) in
        let s = context.now.settings.now in
        IfOk result (λ tried. (bytes : List ℕ) × IsListing input s tried bytes × Appends (W.contents out.old) (W.contents out.new) bytes) }
    // Each attempt within a smaller budget than that of the reported one was given up, and within the first budget each
    // attempt before it.
    ensures earlier_given_up { let input = device_texts (R1.remaining first.old) (R2.remaining second.old) (device_text R3.remaining given.old) in
        let s = context.now.settings.now in
        IfOk result (AreGivenUpBefore input s (G.bound context.now.monitor.now)) }
    // The table of faults allows the fault. Full: the nodes that the netlists need are not within the limit, in the
    // order that is named or in that of each candidate. GivenUp: orders are tried, each attempt within the limit was
    // given up, and one of them for its requests or because the run may stop. Stopped: the monitor may stop the run.
    // Only attempts build diagrams, and no pairs are selected.
    ensures answer { let input = device_texts (R1.remaining first.old) (R2.remaining second.old) (device_text R3.remaining given.old) in
        let s = context.now.settings.now in
        IfErr result (MayList input s (G.bound context.now.monitor.now)) }
    // A fault has its cause, and everything that is examined before it was accepted.
    ensures fault { let input = device_texts (R1.remaining first.old) (R2.remaining second.old) (device_text R3.remaining given.old) in
        let s = context.now.settings.now in
        IfErr result (HasCause input (IsTrue (R1.has_failed first.new)) (IsTrue (R2.has_failed second.new))
        (HasFailedIn R3.has_failed given.new) s) }
    // If writing has failed, a front part of the order was written, and the device has failed or has taken nothing of
    // the rest.
    ensures unwritten { let input = device_texts (R1.remaining first.old) (R2.remaining second.old) (device_text R3.remaining given.old) in
        let s = context.now.settings.now in
        result ≡ Err CheckFault.Write → (tried : Option AttemptValue) × (bytes : List ℕ) × IsListing input s tried bytes
        × AppendsFront (W.contents out.old) (W.contents out.new) (W.has_failed out.new) (W.has_stopped out.new) bytes }
    // With any other fault nothing was written.
    ensures untouched { OnErr result (result ≢ Err CheckFault.Write → out.new ≡ out.old) }
    // A writer that took the whole order has not failed, and took some bytes at each write.
    ensures written { OnOk result ((W.has_failed out.new ≡ W.has_failed out.old) × (W.has_stopped out.new ≡ W.has_stopped out.old)) }
    ensures origins { (R1.origin first.new ≡ R1.origin first.old) × (R2.origin second.new ≡ R2.origin second.old)
        × (device_text R3.origin given.new ≡ device_text R3.origin given.old) }
{
    let (text, tried) = listed(context, first, second, given)?;
    match write_whole(out, text.as_slice()) {
        Ok(()) => Ok(tried),
        Err(_) => Err(CheckFault::Write),
    }
}

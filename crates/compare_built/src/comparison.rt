//! The comparison of two netlists in one order of the variables, within a limit of nodes.
ghost use Rattle.std.specs.Prelude.{◌≡◌, ◌≢◌, ◌<◌, ◌-◌, ◌^◌, false, IfOk, IfErr, IsSomeAnd, OnOk, Err};
ghost use Rattle.expand_work.specs.Bounds.{MayStop, most_of};
ghost use Rattle.compare_built.specs.Check.{IsComparisonFault};
ghost use Rattle.compare_built.specs.Comparing.{IsVerdictOrder, as_built, as_reported, details_of};
ghost use Rattle.compare_built.specs.Details.{details_in};
ghost use Rattle.compare_built.specs.Tasks.{AreComparedIn, ArePairingsOf, AreVerdictsOf, HasWaveBeyond, IsEnough, IsPairingOf, NeedsMore};

use crate::arrangement::arrangement;
use crate::compared_pairs::{ComparedPairs, compared_pairs_of};
use crate::fault::CheckFault;
use crate::task::Task;
use crate::verdict_order::{VerdictOrder, details_in, wants_support};
use crate::verdicts::{Comparison, verdicts_of};
use dd_store::Store;
use expand_work::{Crew, Monitor, WaveFault, Workers};
use gate_plan::{Circuits, build};
use net_order::pairing::Pairing;
use report_text::Verdict;
use std::sync::Wait;
use std::thread::Threads;

/// Builds the diagrams of two netlists in a new store of at most `limit` nodes, and returns the store with the pairs
/// that are compared and their diagrams. Fails as `gate_plan::build` does, and if memory is refused.
fn built_within<H: Threads + Wait + Sync, G: Monitor>(
    task: &Task<'_, H>,
    pairing: &Pairing,
    limit: u64,
    monitor: &G,
) -> Result<(Store, ComparedPairs), CheckFault>
    requires paired { IsPairingOf task.now pairing.now }
    requires small { limit < 2 ^ 32 }
    ensures compared { IfOk result (λ r. AreComparedIn as_built task.now pairing.now r.0 r.1) }
    ensures err { IfErr result IsComparisonFault }
    ensures within { OnOk result (IsEnough task.now limit pairing.now) }
    ensures full { result ≡ Err (CheckFault.Wave WaveFault.Full) → NeedsMore task.now limit pairing.now }
    ensures past { result ≡ Err (CheckFault.Wave WaveFault.TooManyRequests)
        → IsSomeAnd (G.bound monitor.now).requests (λ n. HasWaveBeyond task.now n pairing.now) }
    ensures needs_no_thread { most_of (G.bound monitor.now).requests < 2 ^ 64 - 1 → result ≢ Err (CheckFault.Wave WaveFault.NoWorker) }
    ensures stopped { result ≡ Err (CheckFault.Wave WaveFault.Stopped) → MayStop (G.bound monitor.now) }
{
    let _ = task.first.inputs(); // For the proof.
    let _ = task.second.inputs(); // For the proof.
    let levels = pairing.names().len() as u16;
    let mut store = Store::new(task.alloc, levels, limit)?;
    let crew = Crew {
        rt: task.rt,
        alloc: task.alloc,
        workers: Workers::new(task.settings.workers),
        monitor,
    };
    let circuits = Circuits {
        first: task.first,
        second: task.second,
        given: task.given,
        pairing,
    };
    let built = build(&crew, &mut store, &circuits)?;
    let shown = compared_pairs_of(task, &mut store, &built, pairing, &crew)?;
    Ok((store, shown))
}

/// Returns the verdicts of the pairs whose diagrams a store has, then those of outputs and registers without a partner.
/// Their assignments are over the variables of `pairing`, in the order that `verdict_order` says. No wave is needed, so
/// it fails only if memory is refused.
fn verdicts_in<H>(
    task: &Task<'_, H>,
    pairing: &Pairing,
    verdict_order: VerdictOrder<'_>,
    store: &Store,
    shown: &ComparedPairs,
) -> Result<Vec<Verdict>, CheckFault>
    requires compared { AreComparedIn (as_reported verdict_order) task.now pairing.now store.now shown.now }
    requires order { IsVerdictOrder store.now.levels verdict_order }
    ensures ok { IfOk result (λ v. AreVerdictsOf task.now (details_of verdict_order.entry) pairing.now v.items) }
    ensures err { IfErr result IsComparisonFault }
    ensures never_out_of_nodes { result ≢ Err (CheckFault.Wave WaveFault.Full) }
    ensures never_too_many_requests { result ≢ Err (CheckFault.Wave WaveFault.TooManyRequests) }
    ensures needs_no_thread { result ≢ Err (CheckFault.Wave WaveFault.NoWorker) }
    ensures never_stopped { result ≢ Err (CheckFault.Wave WaveFault.Stopped) }
{
    let comparison = Comparison {
        first: task.first,
        second: task.second,
        given: task.given,
        pairing,
        store,
        subjects: shown.subjects.as_slice(),
        references: shown.references.as_slice(),
        verdict_order,
    };
    Ok(verdicts_of(task.alloc, &comparison)?)
}

/// Compares two netlists within `limit` nodes, and returns a verdict for each line of the report. Their assignments are
/// over the variables of `pairing`, by level.
///
/// The diagrams are built by waves (Ochi, Yasuoka and Yajima 1993), as shared diagrams with complement edges, so a pair
/// is equal exactly if its two references are (Bryant 1986). Each comparison has a store of its own.
///
/// Fails with Full if the limit is too small, with TooManyRequests if a wave has more requests than the monitor allows,
/// with Stopped if the monitor has stopped the run, with NoWorker if there is no bound and a thread could not be
/// started, and with OutOfMemory.
pub fn compare<H: Threads + Wait + Sync, G: Monitor>(
    task: &Task<'_, H>,
    pairing: &Pairing,
    limit: u64,
    monitor: &G,
) -> Result<Vec<Verdict>, CheckFault>
    requires paired { IsPairingOf task.now pairing.now }
    requires small { limit < 2 ^ 32 }
    ensures ok { IfOk result (λ v. AreVerdictsOf task.now (details_in task.now.settings.now) pairing.now v.items) }
    ensures err { IfErr result IsComparisonFault }
    ensures within { OnOk result (IsEnough task.now limit pairing.now) }
    ensures full { result ≡ Err (CheckFault.Wave WaveFault.Full) → NeedsMore task.now limit pairing.now }
    ensures past { result ≡ Err (CheckFault.Wave WaveFault.TooManyRequests)
        → IsSomeAnd (G.bound monitor.now).requests (λ n. HasWaveBeyond task.now n pairing.now) }
    ensures needs_no_thread { most_of (G.bound monitor.now).requests < 2 ^ 64 - 1 → result ≢ Err (CheckFault.Wave WaveFault.NoWorker) }
    ensures stopped { result ≡ Err (CheckFault.Wave WaveFault.Stopped) → MayStop (G.bound monitor.now) }
{
    let (store, shown) = built_within(task, pairing, limit, monitor)?;
    let asked = details_in(task.settings);
    verdicts_in(
        task,
        pairing,
        VerdictOrder::ByLevel { asked },
        &store,
        &shown,
    )
}

/// Compares two netlists as `compare` does, but returns verdicts whose assignments are over the variables of
/// `declared`, another pairing of the same netlists: the least difference is the least in that order. The diagrams, and
/// so the limit and the faults, are those of `pairing`. The sizes of diagrams depend on their order, so they cannot be
/// asked for.
pub fn compare_as_declared<H: Threads + Wait + Sync, G: Monitor>(
    task: &Task<'_, H>,
    pairing: &Pairing,
    declared: &Pairing,
    limit: u64,
    monitor: &G,
) -> Result<Vec<Verdict>, CheckFault>
    requires paired { ArePairingsOf task.now pairing.now declared.now }
    requires no_sizes { task.now.settings.now.sizes ≡ false }
    requires small { limit < 2 ^ 32 }
    ensures ok { IfOk result (λ v. AreVerdictsOf task.now (details_in task.now.settings.now) declared.now v.items) }
    ensures err { IfErr result IsComparisonFault }
    ensures within { OnOk result (IsEnough task.now limit pairing.now) }
    ensures full { result ≡ Err (CheckFault.Wave WaveFault.Full) → NeedsMore task.now limit pairing.now }
    ensures past { result ≡ Err (CheckFault.Wave WaveFault.TooManyRequests)
        → IsSomeAnd (G.bound monitor.now).requests (λ n. HasWaveBeyond task.now n pairing.now) }
    ensures needs_no_thread { most_of (G.bound monitor.now).requests < 2 ^ 64 - 1 → result ≢ Err (CheckFault.Wave WaveFault.NoWorker) }
    ensures stopped { result ≡ Err (CheckFault.Wave WaveFault.Stopped) → MayStop (G.bound monitor.now) }
{
    let (store, shown) = built_within(task, pairing, limit, monitor)?;
    let order = arrangement(task.alloc, pairing, declared)?;
    let verdict_order = VerdictOrder::Arranged {
        order: order.as_slice(),
        support: wants_support(task.settings.assignment),
    };
    verdicts_in(task, declared, verdict_order, &store, &shown)
}

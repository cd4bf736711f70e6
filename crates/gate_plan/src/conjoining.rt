//! Functions conjoined with the condition, so that they are compared only at assignments at which
//! it holds.
ghost use Rattle.std.specs.Prelude.{◌≡◌, ◌≢◌, ◌-◌, ◌^◌, ◌<◌, ◌≤◌, true, Err, IfOk, IfErr, OnOk, All};
ghost use Rattle.dd_store.specs.Nodes.{IsSound, count_of};
ghost use Rattle.dd_store.specs.View.{Has};
ghost use Rattle.expand_work.specs.Bounds.{most_of};
ghost use Rattle.reduce_up.specs.Reducing.{AddsDescribed};
ghost use Rattle.reduce_up.specs.Waves.{IsWanted, IsWaveFault, IsWithinLimit};
ghost use Rattle.wave_engine.specs.Bounds.{AreAtMost, ArePast};
ghost use Rattle.gate_plan.specs.Conjoining.{AreConjoined, conjunctions};

use dd_store::{Ref, Store};
use expand_work::{Crew, Monitor, WaveFault};
use req_table::{ComputedTable, Op};
use std::alloc::{AllocError, Global};
use std::sync::Wait;
use std::thread::Threads;
use wave_engine::wave;

/// Returns the entries of the wave: the And of each reference and the condition's.
fn conjunctions(
    alloc: Global,
    references: &[Ref],
    given: Ref,
) -> Result<Vec<(Op, Ref, Ref)>, AllocError>
    ensures { IfOk result (λ entries. entries.items ≡ conjunctions references.now given) }
{
    let mut entries = Vec::new(alloc);
    for reference in references {
        entries.push((Op::And, *reference, given))?;
    }
    Ok(entries)
}

/// Returns the diagram of the And of each reference and the condition's, by one wave with an engine and a computed
/// table of its own. Fails as `build` does.
pub fn conjoin<R: Threads + Wait + Sync, G: Monitor>(
    crew: &Crew<'_, R, G>,
    store: &mut Store,
    references: &[Ref],
    given: Ref,
) -> Result<Vec<Ref>, WaveFault>
    requires references { All (Has store.old) references.now }
    requires given { Has store.old given }
    ensures sound { IsSound store.new }
    // Each reference gets the diagram of the And of its function and the condition's.
    ensures conjoined { IfOk result (λ answers. AreConjoined store.old references.now given store.new answers.items) }
    // Each node that is added is wanted for one of these functions, also if the wave fails.
    ensures adds { AddsDescribed store.old store.new (IsWanted store.old (conjunctions references.now given)) }
    // A store that is over its limit after the wave is as before, and no entry needed a request.
    ensures within { OnOk result (IsWithinLimit store.old (conjunctions references.now given) store.new) }
    // Full is the fault only if the store has more nodes than its limit, or as many and lacks one that is wanted.
    ensures fault { IfErr result (IsWaveFault store.old (conjunctions references.now given) store.new) }
    // The fault is TooManyRequests only if the wave reaches more than the monitor allows.
    ensures past { result ≡ Err WaveFault.TooManyRequests → ArePast (G.bound crew.now.monitor.now).requests store.old
        (conjunctions references.now given) }
    // A wave that was done reached no more than the monitor allows.
    ensures within_bound { most_of (G.bound crew.now.monitor.now).requests < 2 ^ 64 - 1
        → OnOk result (AreAtMost (most_of (G.bound crew.now.monitor.now).requests) store.old (conjunctions references.now given)) }
    // With a bound, a thread that cannot be started is no cause of failure.
    ensures bounded_needs_no_worker { most_of (G.bound crew.now.monitor.now).requests < 2 ^ 64 - 1 → result ≢ Err WaveFault.NoWorker }
    // The wave is stopped only if the monitor may stop it.
    ensures stopped { result ≡ Err WaveFault.Stopped → (G.bound crew.now.monitor.now).stops ≡ true }
    // OutOfMemory leaves a store within its limit that was within it before, since Full is reported first.
    ensures memory { count_of store.old ≤ store.old.limit → result ≡ Err WaveFault.OutOfMemory → count_of store.new ≤ store.new.limit }
{
    let _ = store.levels(); // For the proof.
    let entries = conjunctions(crew.alloc, references, given)?;
    let mut computed = ComputedTable::new(crew.alloc, 1)?;
    wave(crew, store, &mut computed, entries.as_slice())
}

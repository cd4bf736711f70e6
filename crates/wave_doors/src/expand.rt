//! The records of all requests that the roots of a wave ask for, found by workers in threads.
ghost use Rattle.std.specs.Prelude.{◌≡◌, ◌≢◌, ◌+◌, ◌*◌, ◌<◌, ◌≤◌, length, All, IfOk, IfErr};
ghost use Rattle.req_table.specs.Keys.{IsKey, wave_of};
ghost use Rattle.req_table.specs.Settled.{IsClosure};
ghost use Rattle.req_table.specs.Tables.{row_at};
ghost use Rattle.lane_queue.specs.Joining.{sent_from};
ghost use Rattle.expand_work.specs.WavePorts.{AreByNumber, put_by, bundles_between};
ghost use Rattle.wave_doors.specs.Expanded.{IsSettledFor};

use crate::merge::merge_rows;
use dd_store::Store;
use expand_work::{Crew, MemoryPool, Monitor, WaveFault, Workers, expand_parts};
use lane_queue::Port;
use req_table::Key;
use std::alloc::Global;
use std::marker::Model;
use std::sync::Wait;
use std::thread::Threads;
use wave_core::Records;

/// What the workers of a wave have at their end.
#[derive(Drop)]
pub struct Expanded {
    records: Records,
    ports: Vec<Port>,
}

impl Model for Expanded {
    ghost use Rattle.wave_doors.specs.Expanded.{ExpandedView};

    ghost Value = { ExpandedView };

    ghost view = { λ e. record { records = e.records; ports = e.ports.items } };
}

impl Expanded {
    /// Returns the records of all requests, by level. Those of a level are worker by worker, and those of a worker in
    /// the order of their admission, which depends on the schedule.
    pub fn records(&self) -> &Records
        ensures { result.now ≡ self.now.records }
    {
        &self.records
    }

    /// Returns the ports by worker. They have no lanes any more; contracts see what was sent and taken.
    pub fn ports(&self) -> &[Port]
        ensures { result.now ≡ self.now.ports }
    {
        self.ports.as_slice()
    }
}

/// Returns the records of all requests that the roots ask for, directly or through children. The caller's thread does
/// the last worker's part, each other of the 1 to 16 workers has a thread of its own, and root i is sent by worker i
/// modulo their number (Ochi, Yasuoka and Yajima 1993 for the levels, van Dijk 2016 for the workers).
///
/// Fails with NoWorker if a thread could not be started, after the others were stopped; with OutOfMemory if memory was
/// refused and every thread was started; and with Stopped if the monitor says that the run has stopped. All threads
/// have ended before the call returns.
pub fn expand_all<R: Threads + Wait + Sync, G: Monitor>(
    rt: &R,
    alloc: Global,
    store: &Store,
    roots: &[Key],
    workers: u32,
    monitor: &G,
) -> Result<Expanded, WaveFault>
    requires workers { (0 < workers) × (workers ≤ 16) }
    requires roots { All (IsKey store.now) roots.now }
    ensures levels { IfOk result (λ e. length e.records ≡ store.now.levels) }
    ensures ports { IfOk result (λ e. AreByNumber workers e.ports) }
    ensures settled { IfOk result (λ e. IsSettledFor (wave_of store.now workers) roots.now e) }
    ensures closure { IfOk result (λ e. IsClosure (wave_of store.now workers) roots.now (row_at e.records)) }
    ensures put { IfOk result (λ e. put_by e.ports
        ≡ bundles_between workers store.now.levels (sent_from e.ports) + workers * (workers * store.now.levels)) }
    ensures fault { IfErr result (λ f. f ≢ WaveFault.Full) }
    ensures never_too_many_requests { IfErr result (λ f. f ≢ WaveFault.TooManyRequests) }
{
    let _ = store.levels(); // For the proof.
    let crew = Crew {
        rt,
        alloc,
        workers: Workers::new(workers),
        monitor,
    };
    let (parts, ports) = expand_parts(
        &crew,
        store,
        roots,
        usize::MAX,
        &mut MemoryPool::keeping(alloc),
    )?;
    let records = merge_rows(alloc, store, roots, &parts, workers)?;
    Ok(Expanded { records, ports })
}

//! The way down on the caller's thread, from the first level: the children of each request are
//! placed in the tables of their levels at once.
ghost use Rattle.std.specs.Prelude.{◌≡◌, ◌≢◌, ◌<◌, ◌≤◌, ◌+◌, ◌-◌, ◌^◌, ℕ, true, [], length, replicate, Err, IfOk, IfErr, OnOk, All};
ghost use Rattle.std.specs.List.{AllZip};
ghost use Rattle.req_table.specs.Keys.{child as child_spec};
ghost use Rattle.reduce_up.specs.Waves.{IsEntry};
ghost use Rattle.req_table.specs.Places.{row, IsPlaced};
ghost use Rattle.wave_engine.specs.Bounds.{AreMoreThan, AreAtMost};
ghost use Rattle.reduce_up.specs.ByPlace.{AreAdmitted, AreExpanded};
ghost use Rattle.wave_engine.specs.ExpansionPhase.{IsExpandedTo, IsExpandedWithin};

use crate::workspace::ExpansionPhase;
use dd_store::{Ref, Store};
use expand_work::{ChildSink, Monitor, WaveFault, expand_row};
use req_table::requests::child;
use req_table::{Op, PackedChild, Table, Waiting};
use std::alloc::AllocError;

/// Places the request of each entry, or notes its answer if it has a terminal case. An entry is
/// looked at as a child of a request is: both come to an answer, or to a request of some level,
/// with a complement bit.
pub(crate) fn place_roots(
    store: &Store,
    entries: &[(Op, Ref, Ref)],
    requests: &mut Waiting,
    roots: &mut Vec<PackedChild>,
) -> Result<(), AllocError>
    requires operands { All (IsEntry store.now) entries.now }
    requires levels { length requests.old ≡ store.now.levels }
    requires empty { (w : ℕ) → row requests.old w ≡ [] }
    requires fresh { roots.old.items ≡ [] }
    ensures admitted { OnOk result (AreAdmitted store.now entries.now requests.new) }
    ensures placed { OnOk result (AllZip (λ e p. IsPlaced requests.new p (child_spec store.now e.0 e.1 e.2)) entries.now roots.new.items) }
{
    for entry in entries {
        let (op, f, g) = *entry;
        let asked = child(store, op, f, g);
        let root = requests.ask(store, asked)?;
        roots.push(root)?;
    }
    Ok(())
}

/// How far the caller's thread goes down.
#[derive(Clone, Copy, Drop)]
pub(crate) struct Limits {
    /// The most requests of one level; before a level with more, the workers are called in.
    pub(crate) level: usize,
    /// The most requests of all levels together, or the greatest number if there is no bound. A
    /// wave with more is refused.
    pub(crate) wave: usize,
}

impl Limits {
    /// Returns how many requests the workers may expand after the caller's thread has split `split`, or the greatest
    /// number if there is no bound.
    pub(crate) fn left(self, split: usize) -> usize
        ensures { self.wave < 2 ^ 64 - 1 → result ≡ self.wave - split }
    {
        if self.wave == usize::MAX {
            usize::MAX
        } else {
            self.wave.saturating_sub(split)
        }
    }
}

/// If the caller may have so many requests of a level, workers are called in only if the levels
/// that are left are wide on average. A monitor that lets the caller have fewer wants workers at
/// narrow levels too, and the average does not matter. (`WIDE` of `expand_work::monitor` is another
/// number: the limit of `NoMonitor` itself.)
const WIDE: usize = 1 << 10;

/// Levels are wide on average if each has so many requests. Workers wait for one another at each
/// level, and if all processors are busy such a meeting takes as long as thousands of requests.
/// `NARROW` in `sizes` is the same number for the same reason, but for what is expected of a wave
/// before it begins; this one is for what waits in it.
const AVERAGE: usize = 1 << 7;

/// Returns the most requests that the caller's thread may expand of a level with `count`: the
/// limit, or no limit if few requests wait from there on. These are counted only if the other two
/// conditions leave it open, since that visits each level that is left.
fn most_at(limits: Limits, requests: &Waiting, level: u16, count: usize) -> usize
    ensures least { limits.level ≤ result }
{
    if count <= limits.level || limits.level < WIDE || requests.are_many(level, AVERAGE) {
        limits.level
    } else {
        usize::MAX
    }
}

/// Expands one level after the other, of those that have requests, and stops before the first with more than its limit
/// if the levels from there on are wide on average. Returns this level, or the number of levels: all before it are
/// expanded, and their requests are not kept. A level's table is taken out while the children of its requests
/// are placed in the tables of deeper levels, and its memory may serve one of these. Only the contract speaks of
/// `entries`.
///
/// Fails with TooManyRequests before a level with which there would be more
/// requests than the wave's limit, with Stopped before a level if the run has stopped, and with OutOfMemory.
pub(crate) fn expand<G: Monitor>(
    store: &Store,
    entries: &[(Op, Ref, Ref)],
    down: &mut ExpansionPhase,
    limits: Limits,
    monitor: &G,
) -> Result<u16, WaveFault>
    requires start { AreExpanded store.now entries.now down.old.roots.items 0 down.old.requests down.old.rows }
    requires rows { down.old.rows ≡ replicate store.now.levels [] }
    ensures down { IfOk result (λ v. IsExpandedTo store.now entries.now v down.new.requests down.new.rows down.new.roots.items
        down.old.splits down.new.splits) }
    ensures few { limits.wave < 2 ^ 64 - 1 → IfOk result (λ v. IsExpandedWithin limits.wave store.now entries.now v down.new.requests
        down.new.rows down.new.roots.items down.old.splits down.new.splits) }
    ensures wide { IfOk result (λ v. v < store.now.levels → limits.level < length (row down.new.requests v)) }
    ensures unlimited_level_reaches_the_end { limits.level ≡ 2 ^ 64 - 1 → IfOk result (λ v. v ≡ store.now.levels) }
    ensures never_full { IfErr result (λ e. e ≢ WaveFault.Full) }
    ensures never_no_worker { IfErr result (λ e. e ≢ WaveFault.NoWorker) }
    ensures bounded { result ≡ Err WaveFault.TooManyRequests → limits.wave < 2 ^ 64 - 1 }
    ensures past { result ≡ Err WaveFault.TooManyRequests → AreMoreThan limits.wave store.now entries.now }
    ensures within_bound { limits.wave < 2 ^ 64 - 1 → IfOk result (λ v. v ≡ store.now.levels
        → AreAtMost limits.wave store.now entries.now) }
    ensures stopped { result ≡ Err WaveFault.Stopped → (G.bound monitor.now).stops ≡ true }
{
    let _ = entries.len(); // For the proof.
    let levels = store.levels();
    let mut keys = Table::new(*down.roots.allocator());
    let mut level = 0;
    let mut left = limits.wave;
    while let Some(next) = down.requests.next_level(level) {
        if monitor.has_stopped() {
            return Err(WaveFault::Stopped);
        }
        let count = down.requests.count(next);
        // Before a wide level is left to the workers: so the caller's own count refuses whatever it
        // can.
        if limits.wave < usize::MAX && count > left {
            return Err(WaveFault::TooManyRequests);
        }
        let most = most_at(limits, &down.requests, next, count);
        if count > most {
            return Ok(next);
        }
        left = left.saturating_sub(count);
        down.requests.take(next, &mut keys);
        let mut pairs = down.rows.take(next);
        expand_row(
            store,
            &keys,
            &mut down.requests,
            &mut pairs,
            &mut down.splits,
        )?;
        down.rows.put(next, pairs);
        down.requests.recycle(&mut keys)?;
        level = next + 1;
    }
    Ok(levels)
}

//! One worker of a wave, level by level.
ghost use Rattle.std.specs.Prelude.{◌≡◌, ◌+◌, ◌<◌, ◌%◌, ◌^◌, [], length, All, IfOk, OnOk};
ghost use Rattle.req_table.specs.Keys.{IsKey};
ghost use Rattle.req_table.specs.Sizes.{sizes_of};
ghost use Rattle.lane_queue.specs.PortView.{IsPortOf};
ghost use Rattle.expand_work.specs.Due.{BecomesDue};
ghost use Rattle.expand_work.specs.TakenChildren.{AreTaken};
ghost use Rattle.req_table.specs.Places.{row as at};
ghost use Rattle.expand_work.specs.WorkerState.{IsWorking, HasSentLevel, IsClosing};
ghost use Rattle.expand_work.specs.WorkerResult.{IsFresh, IsWorked};

use crate::context::WaveContext;
use crate::due::Due;
use crate::end_counts::EndCounts;
use crate::expand::{DueByOwner, deal_roots, expand_row};
use crate::receive::{Senders, keep_own, take_until_closed};
use crate::send::{send_due, send_ends};
use crate::tables::Tables;
use crate::{Monitor, Part, Splits, WorkFault, WorkerMemory};
use lane_queue::Port;
use req_table::{Row, Rows};
use std::alloc::AllocError;
use std::sync::Wait;
use std::sync::atomic::Ordering;

/// What a worker has between two levels.
#[derive(Drop)]
pub struct Worker {
    /// The worker's end of all lanes.
    pub port: Port,
    /// What it knows of each sender.
    pub senders: Senders,
    /// The requests that it was asked for, by level.
    pub tables: Tables,
    /// Their children, by level.
    pub rows: Rows,
    /// By owner what it has to ask for next.
    pub due: Due,
}

// Sends what is due to the others, keeps what the worker owns itself, and ends the level on every lane.
fn send_level<R: Wait>(
    rt: &R,
    context: WaveContext<'_>,
    worker: &mut Worker,
    level: u16,
) -> Result<(), AllocError>
    requires level { level < context.store.now.levels }
    requires working { IsWorking context.lanes.now context.store.now context.roots.now level worker.old }
    ensures { OnOk result (HasSentLevel context.entry.lanes.now level worker.old worker.new) }
{
    let Worker {
        port,
        senders,
        tables,
        due,
        ..
    } = worker;
    send_due(rt, context.lanes, port, due)?;
    let _ = port.number(); // For the proof.
    keep_own(context.lanes, port, senders, tables, due)?;
    send_ends(rt, context.lanes, port, level)
}

// Expands the level's requests into the row, and returns how many they were.
fn expand_keys(
    context: WaveContext<'_>,
    tables: &mut Tables,
    level: u16,
    asks: &mut DueByOwner,
    row: &mut Row,
) -> Result<usize, AllocError>
    requires level { level < length tables.old }
    requires keys { All (IsKey context.store.now) (at tables.old level) }
    requires asks { (length asks.old.due ≡ asks.old.workers) × (0 < asks.old.workers) }
    requires empty { row.old ≡ [] }
    ensures tables { OnOk result (tables.new ≡ tables.old) }
    ensures taken { OnOk result (AreTaken BecomesDue context.entry.store.now asks.old (at tables.old level) row.new asks.new) }
    ensures count { IfOk result (λ n. n ≡ length (at tables.old level) % 2 ^ 64) }
{
    let Some(keys) = tables.take(level) else {
        // This does not happen: no level is expanded twice. The contract of `take` does not say so.
        return Err(AllocError);
    };
    let mut splits = Splits::new();
    expand_row(context.store, &keys, asks, row, &mut splits)?;
    tables.leave(level, keys, context.keeps)?;
    Ok(splits.count())
}

// Expands the requests of the level, which is closed, and notifies the monitor of their number.
fn expand_level<G: Monitor>(
    context: WaveContext<'_>,
    worker: Worker,
    level: u16,
    monitor: &G,
) -> Result<Worker, AllocError>
    requires level { level < context.store.now.levels }
    requires closing { IsClosing context.lanes.now context.store.now context.roots.now level worker }
    ensures working { IfOk result (IsWorking context.entry.lanes.now context.entry.store.now context.entry.roots.now (level + 1)) }
    ensures number { IfOk result (λ w. w.port.number ≡ worker.port.number) }
{
    let Worker {
        port,
        senders,
        mut tables,
        mut rows,
        due,
    } = worker;
    let Senders {
        clock,
        noted,
        spare,
    } = senders;
    let mut row = rows.take(level);
    row.clear();
    let workers = context.lanes.count();
    let mut asks = DueByOwner {
        due,
        spare,
        workers,
    };
    let count = expand_keys(context, &mut tables, level, &mut asks, &mut row)?;
    monitor.at_requests(count);
    rows.put(level, row);
    let DueByOwner { due, spare, .. } = asks;
    let senders = Senders {
        clock,
        noted,
        spare,
    };
    Ok(Worker {
        port,
        senders,
        tables,
        rows,
        due,
    })
}

// Does one level: sends and keeps what is due, ends the level, takes until it is closed, notifies the monitor, and
// expands the level's requests. If the workers would expand more requests than they may, it expands nothing and stops
// them all.
fn do_level<R: Wait, G: Monitor>(
    rt: &R,
    context: WaveContext<'_>,
    worker: Worker,
    level: u16,
    monitor: &G,
) -> Result<Worker, WorkFault>
    requires level { level < context.store.now.levels }
    requires working { IsWorking context.lanes.now context.store.now context.roots.now level worker }
    ensures { IfOk result (λ w. IsWorking context.entry.lanes.now context.entry.store.now context.entry.roots.now (level + 1) w
        × (w.port.number ≡ worker.port.number)) }
{
    let mut worker = worker;
    send_level(rt, context, &mut worker, level)?;
    let Worker {
        port,
        senders,
        tables,
        ..
    } = &mut worker;
    take_until_closed(rt, context, port, senders, tables, level)?;
    if !context.admits(tables.count(level)) {
        context.stop.store(true, Ordering::SeqCst);
        return Err(WorkFault::Stopped);
    }
    monitor.at_level(worker.port.number(), level);
    Ok(expand_level(context, worker, level, monitor)?)
}

// Returns a worker before its first level, from which its share of the roots is due.
fn begin(
    context: WaveContext<'_>,
    port: Port,
    used: Option<WorkerMemory>,
) -> Result<Worker, AllocError>
    requires port { IsPortOf context.lanes.now port }
    requires fresh { IsFresh port }
    requires sizes { context.lanes.now.sizes ≡ sizes_of context.store.now }
    requires roots { All (IsKey context.store.now) context.roots.now }
    ensures { IfOk result (λ w. IsWorking context.entry.lanes.now context.entry.store.now context.entry.roots.now 0 w
        × (w.port.number ≡ port.number)) }
{
    let WaveContext {
        alloc,
        lanes,
        store,
        roots,
        ..
    } = context;
    let workers = lanes.count();
    let number = port.number();
    let levels = store.levels();
    let clock = EndCounts::new(alloc, workers, levels)?;
    let WorkerMemory {
        tables,
        rows,
        noted,
        spare,
    } = WorkerMemory::open(alloc, used, levels, workers)?;
    let mut asks = DueByOwner {
        due: Due::new(alloc, workers)?,
        spare,
        workers,
    };
    deal_roots(store, roots, number, &mut asks)?;
    let DueByOwner { due, spare, .. } = asks;
    Ok(Worker {
        port,
        senders: Senders {
            clock,
            noted,
            spare,
        },
        tables,
        rows,
        due,
    })
}

// Goes through all levels.
fn run_levels<R: Wait, G: Monitor>(
    rt: &R,
    context: WaveContext<'_>,
    port: Port,
    used: Option<WorkerMemory>,
    monitor: &G,
) -> Result<Part, WorkFault>
    requires port { IsPortOf context.lanes.now port }
    requires fresh { IsFresh port }
    requires sizes { context.lanes.now.sizes ≡ sizes_of context.store.now }
    requires roots { All (IsKey context.store.now) context.roots.now }
    ensures { IfOk result (λ p. IsWorked context.entry.lanes.now context.entry.store.now context.entry.roots.now port.number p) }
{
    let mut worker = begin(context, port, used)?;
    for level in 0..context.store.levels() {
        if context.is_stopped(monitor) {
            return Err(WorkFault::Stopped);
        }
        worker = do_level(rt, context, worker, level, monitor)?;
    }
    let own = worker.port.number();
    let Worker {
        port,
        senders,
        tables,
        rows,
        ..
    } = worker;
    let Senders { noted, spare, .. } = senders;
    Ok(Part {
        port,
        space: WorkerMemory {
            tables,
            rows,
            noted,
            spare,
        },
    })
}

/// Does one worker's part of a wave over the lanes' store. At each level it sends all that is due to the other workers,
/// in bundles of 64 and one with the rest, and keeps what it owns itself; at level 0 its share of the roots is due, at
/// each other level the children of the level before. Then it ends the level on every lane, takes until every sender
/// has ended it, notifies the monitor, and splits the distinct requests that it was asked for at this level.
///
/// It reads the flag when a level begins and whenever its lane is empty, and fails with Stopped once the flag is set.
/// It sets the flag itself before it fails: if memory is refused, if its level would take the workers past the most
/// requests that they may expand, or if the run has stopped when a level begins. It uses the memory `used` of an
/// earlier wave as far as there is any. After a failure this memory and the port are gone.
pub fn work<R: Wait, G: Monitor>(
    rt: &R,
    context: WaveContext<'_>,
    port: Port,
    used: Option<WorkerMemory>,
    monitor: &G,
) -> Result<Part, WorkFault>
    requires port { IsPortOf context.lanes.now port }
    requires fresh { IsFresh port }
    requires sizes { context.lanes.now.sizes ≡ sizes_of context.store.now }
    requires roots { All (IsKey context.store.now) context.roots.now }
    ensures { IfOk result (λ p. IsWorked context.entry.lanes.now context.entry.store.now context.entry.roots.now port.number p) }
{
    let result = run_levels(rt, context, port, used, monitor);
    if matches!(result, Err(WorkFault::OutOfMemory)) {
        context.stop.store(true, Ordering::SeqCst);
    }
    result
}

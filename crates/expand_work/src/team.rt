//! The workers of a wave: the last one is the caller's thread, and each other one has a thread of
//! its own.
ghost use Rattle.std.specs.Prelude.{◌≡◌, ◌≢◌, ◌≤◌, true, [], length, All, IfOk, IfErr, Err, if◌then◌else◌, vec_capacity};
ghost use Rattle.std.specs.List.{AllZip};
ghost use Rattle.req_table.specs.Keys.{IsKey};
ghost use Rattle.req_table.specs.Sizes.{sizes_of};
ghost use Rattle.lane_queue.specs.PortView.{IsPortOf};
ghost use Rattle.expand_work.specs.WorkerResult.{IsFresh, IsWorked};
ghost use Rattle.expand_work.specs.Team.{AreNew, AreStarted, AreWorked, AreJoined, IsPromised, WorksFor};

use crate::context::WaveContext;
use crate::worker::work;
use crate::{MemoryPool, Monitor, Part, WaveFault, WorkFault, WorkerMemory};
use dd_store::Store;
use lane_queue::{Lanes, Port};
use req_table::Key;
use std::alloc::{AllocError, Global};
use std::sync::Wait;
use std::sync::atomic::{AtomicBool, AtomicU64, Ordering};
use std::thread;
use std::thread::{Promise, PromisedHandle, Scope, Threads};

/// What the thread of a worker promises: the worker's part of the wave.
#[derive(Clone, Copy)]
pub struct PartPromise<'a> {
    lanes: &'a Lanes,
    store: &'a Store,
    roots: &'a [Key],
    number: u32,
}

impl<'a> Promise<Result<Part, WorkFault>> for PartPromise<'a> {
    ghost use Rattle.std.specs.Prelude.{IfOk};
    ghost use Rattle.expand_work.specs.WorkerResult.{IsWorked};

    ghost kept_by = { λ p r. IfOk r (λ part. IsWorked p.lanes.now p.store.now p.roots.now p.number part) };
}

// The thread of a worker.
type WorkerThread<'a> = PromisedHandle<Result<Part, WorkFault>, PartPromise<'a>>;

// Joins all these threads. Returns their parts in order, if each has ended with one.
fn join_all<'a, R: Threads>(
    rt: &R,
    children: Vec<WorkerThread<'a>>,
    parts: Vec<Part>,
) -> Result<Vec<Part>, WaveFault>
    requires empty { parts.items ≡ [] }
    requires room { length children.items ≤ vec_capacity parts }
    ensures parts { IfOk result (λ v. AllZip IsPromised children.entry.items v.items) }
    ensures fault { IfErr result (λ f. f ≡ WaveFault.OutOfMemory) }
{
    let mut parts = parts;
    let mut refused = false;
    for child in children {
        match child.join(rt) {
            Ok(part) => parts.push_reserved(part),
            Err(_) => refused = true,
        }
    }
    if refused {
        Err(WaveFault::OutOfMemory)
    } else {
        Ok(parts)
    }
}

// Whether the workers may have done the whole wave: each was started, and they have found no more requests than they
// may expand.
fn have_done(started: bool, context: WaveContext<'_>) -> bool
    ensures { result ≡ true → started ≡ true }
{
    started && !context.is_past_bound()
}

// Returns the outcome after all threads were joined. If the run has stopped, that is reported rather than any other
// fault; then that the workers have not done the whole wave.
fn outcome_of(
    stopped: bool,
    done: bool,
    joined: Result<Vec<Part>, WaveFault>,
) -> Result<Vec<Part>, WaveFault>
    ensures { result ≡ (if stopped then Err WaveFault.Stopped else (if done then joined else Err WaveFault.NoWorker)) }
{
    if stopped {
        Err(WaveFault::Stopped)
    } else if done {
        joined
    } else {
        Err(WaveFault::NoWorker)
    }
}

// Returns the parts of the other workers, and after them the last worker's.
fn with_last(
    others: Result<Vec<Part>, WaveFault>,
    last: Result<Part, WorkFault>,
) -> Result<Vec<Part>, WaveFault>
    requires fault { IfErr others (λ f. f ≡ WaveFault.OutOfMemory) }
    ensures parts { IfOk result (λ v. AreJoined others last v.items) }
    ensures fault { IfErr result (λ f. f ≡ WaveFault.OutOfMemory) }
{
    let mut parts = others?;
    let Ok(part) = last else {
        return Err(WaveFault::OutOfMemory);
    };
    match parts.push(part) {
        Ok(()) => Ok(parts),
        Err(_) => Err(WaveFault::OutOfMemory),
    }
}

// Starts the thread of the worker that the port belongs to.
fn start<'s, E, R: Wait + Sync, G: Monitor>(
    scope: &Scope<'s, E>,
    rt: &'s R,
    context: WaveContext<'s>,
    port: Port,
    space: Option<WorkerMemory>,
    monitor: &'s G,
) -> Result<WorkerThread<'s>, WaveFault>
    requires port { IsPortOf context.lanes.now port }
    requires fresh { IsFresh port }
    requires sizes { context.lanes.now.sizes ≡ sizes_of context.store.now }
    requires roots { All (IsKey context.store.now) context.roots.now }
    ensures works { IfOk result (λ h. WorksFor context.entry.lanes.now context.entry.store.now context.entry.roots.now h port) }
    ensures fault { IfErr result (λ f. f ≡ WaveFault.NoWorker) }
{
    let WaveContext {
        alloc,
        lanes,
        store,
        roots,
        stop,
        found,
        most,
        keeps,
    } = context;
    let promise = PartPromise {
        lanes,
        store,
        roots,
        number: port.number(),
    };
    let work = move || -> Result<Part, WorkFault>
        requires port { IsPortOf lanes.now port }
        requires fresh { IsFresh port }
        requires sizes { lanes.now.sizes ≡ sizes_of store.now }
        requires roots { All (IsKey store.now) roots.now }
        ensures { IfOk result (λ p. IsWorked lanes.entry.now store.entry.now roots.entry.now port.number p) }
    {
        let context = WaveContext {
            alloc,
            lanes,
            store,
            roots,
            stop,
            found,
            most,
            keeps,
        };
        work(rt, context, port, space, monitor)
    };
    match scope.spawn_with(promise, work) {
        Ok(child) => Ok(child),
        Err(_) => Err(WaveFault::NoWorker),
    }
}

// Starts a thread for each port. If one cannot be started, no further one is, and the flag stops those that run.
fn start_all<'s, E, R: Wait + Sync, G: Monitor>(
    scope: &Scope<'s, E>,
    rt: &'s R,
    context: WaveContext<'s>,
    ports: Vec<Port>,
    used: MemoryPool,
    monitor: &'s G,
) -> Result<Vec<WorkerThread<'s>>, AllocError>
    requires ports { All (IsPortOf context.lanes.now) ports.items }
    requires fresh { All IsFresh ports.items }
    requires sizes { context.lanes.now.sizes ≡ sizes_of context.store.now }
    requires roots { All (IsKey context.store.now) context.roots.now }
    ensures { IfOk result (λ v.
        AreStarted context.entry.lanes.now context.entry.store.now context.entry.roots.now v.items ports.items) }
{
    let mut used = used;
    let mut children = Vec::with_capacity(context.alloc, ports.len())?;
    for port in ports {
        let space = used.take();
        let Ok(child) = start(scope, rt, context, port, space, monitor) else {
            context.stop.store(true, Ordering::SeqCst);
            break;
        };
        children.push_reserved(child);
    }
    Ok(children)
}

/// What the workers of a wave are given. `most` is the most requests that they may expand together, or the greatest
/// number if there is no bound.
#[derive(Clone, Copy)]
pub struct WaveInput<'a> {
    pub alloc: Global,
    pub lanes: &'a Lanes,
    pub store: &'a Store,
    pub roots: &'a [Key],
    pub most: u64,
}

// Returns the parts of all workers by number, after all threads were joined. The caller's thread does the last worker's
// part, so there are no more threads than workers, and none is started for one worker.
fn work_all<'s, E, R: Threads + Wait + Sync, G: Monitor>(
    scope: &Scope<'s, E>,
    rt: &'s R,
    context: WaveContext<'s>,
    ports: Vec<Port>,
    used: MemoryPool,
    monitor: &'s G,
) -> Result<Vec<Part>, WaveFault>
    requires ports { AreNew context.lanes.now ports.items }
    requires sizes { context.lanes.now.sizes ≡ sizes_of context.store.now }
    requires roots { All (IsKey context.store.now) context.roots.now }
    ensures parts { IfOk result (λ v. AreWorked context.entry.lanes.now context.entry.store.now context.entry.roots.now v.items) }
    ensures fault { IfErr result (λ f. f ≢ WaveFault.Full) }
    ensures never_too_many_requests { IfErr result (λ f. f ≢ WaveFault.TooManyRequests) }
    ensures stopped { result ≡ Err WaveFault.Stopped → (G.bound monitor.now).stops ≡ true }
{
    let parts = Vec::with_capacity(context.alloc, ports.len())?;
    let mut ports = ports;
    let Some(own) = ports.pop() else {
        return Ok(parts);
    };
    let mut used = used;
    let space = used.take();
    let count = ports.len();
    let children = start_all(scope, rt, context, ports, used, monitor)?;
    let started = children.len() == count;
    let last = work(rt, context, own, space, monitor);
    let others = join_all(rt, children, parts);
    let joined = with_last(others, last);
    let stopped = monitor.has_stopped();
    let done = have_done(started, context);
    outcome_of(stopped, done, joined)
}

/// Returns the parts of all workers by number, after all threads have ended.
pub fn run_workers<R: Threads + Wait + Sync, G: Monitor>(
    rt: &R,
    wave: WaveInput<'_>,
    ports: Vec<Port>,
    used: MemoryPool,
    monitor: &G,
) -> Result<Vec<Part>, WaveFault>
    requires ports { AreNew wave.lanes.now ports.items }
    requires sizes { wave.lanes.now.sizes ≡ sizes_of wave.store.now }
    requires roots { All (IsKey wave.store.now) wave.roots.now }
    ensures parts { IfOk result (λ v. AreWorked wave.entry.lanes.now wave.entry.store.now wave.entry.roots.now v.items) }
    ensures fault { IfErr result (λ f. f ≢ WaveFault.Full) }
    ensures never_too_many_requests { IfErr result (λ f. f ≢ WaveFault.TooManyRequests) }
    ensures stopped { result ≡ Err WaveFault.Stopped → (G.bound monitor.now).stops ≡ true }
{
    let WaveInput {
        alloc,
        lanes,
        store,
        roots,
        most,
    } = wave;
    let stop = AtomicBool::new(false);
    let stop = &stop;
    let found = AtomicU64::new(0);
    let found = &found;
    let keeps = used.keeps();
    thread::scope(
        thread::scope_env(),
        rt,
        |scope| -> Result<Vec<Part>, WaveFault>
            requires ports { AreNew lanes.now ports.items }
            requires sizes { lanes.now.sizes ≡ sizes_of store.now }
            requires roots { All (IsKey store.now) roots.now }
            ensures parts { IfOk result (λ v. AreWorked lanes.entry.now store.entry.now roots.entry.now v.items) }
            ensures fault { IfErr result (λ f. f ≢ WaveFault.Full) }
            ensures never_too_many_requests { IfErr result (λ f. f ≢ WaveFault.TooManyRequests) }
            ensures stopped { result ≡ Err WaveFault.Stopped → (G.bound monitor.entry.now).stops ≡ true }
        {
            let context = WaveContext {
                alloc,
                lanes,
                store,
                roots,
                stop,
                found,
                most,
                keeps,
            };
            work_all(scope, rt, context, ports, used, monitor)
        },
    )
}

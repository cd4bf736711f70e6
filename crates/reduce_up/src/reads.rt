//! Reading the children of a level, each part by a thread: the pairs of their diagrams, divided by
//! shard.
ghost use Rattle.std.specs.Prelude.{◌≡◌, ◌<◌, length, All, IfOk, OnOk};
ghost use Rattle.dd_store.specs.Graph.{Pair};
ghost use Rattle.req_table.specs.Places.{row};
ghost use Rattle.reduce_up.specs.Steps.{BothResolveTo, MayReadLevel, IsPartRead, IsTaskRead, AreAllRead, AreRead};

use crate::division::{Origins, PairsByShard};
use crate::list_pool::ListPool;
use crate::up::{LevelToReduce, resolve};
use dd_store::Ref;
use req_table::{Refs, Row};
use std::alloc::{AllocError, Global};
use std::thread::Threads;
use thread_map::fork_if_much;

/// The task for one part: the pairs of its requests, and whether there was memory for them.
#[derive(Drop)]
pub(crate) struct ReadTask {
    pub(crate) divided: PairsByShard,
    pub(crate) done: Result<(), AllocError>,
}

/// What was read of all parts of a level: the pairs by part and shard, and the origins of the requests by part.
#[derive(Drop)]
pub(crate) struct LevelRead {
    pub(crate) parts: Vec<Vec<Vec<(Ref, Ref)>>>,
    pub(crate) origins: Vec<Origins>,
}

/// Reads the children of a part: finds their diagrams, and puts the pairs into the lists of their shards.
fn read_part(
    alloc: Global,
    answers: &[Refs],
    children: &Row,
    divided: &mut PairsByShard,
) -> Result<(), AllocError>
    requires resolvable { All (λ d. (p : Pair) × BothResolveTo answers.now d p) children.now }
    ensures { OnOk result (IsPartRead answers.now children.now divided.new.lists divided.new.origins) }
{
    divided.empty(alloc, children.len())?;
    for place in 0..children.len() {
        let pair = children.at(place);
        let low = resolve(answers, pair.0);
        let high = resolve(answers, pair.1);
        divided.put((low, high))?;
    }
    Ok(())
}

impl ReadTask {
    /// Reads the part of the level that this task is for.
    fn read(&mut self, alloc: Global, level: &LevelToReduce<'_>, part: usize)
        requires part { part < length level.now.parts.now }
        requires may { MayReadLevel level.now }
        ensures { IsTaskRead level.now part self.new }
    {
        let children = level.parts[part].row(level.number);
        self.done = read_part(alloc, level.answers, children, &mut self.divided);
    }
}

/// Returns a task for each part, of which nothing is done yet.
fn read_tasks(
    alloc: Global,
    parts: usize,
    spare: &mut ListPool,
) -> Result<Vec<ReadTask>, AllocError>
    ensures { IfOk result (λ tasks. length tasks.items ≡ parts) }
{
    let mut tasks = Vec::with_capacity(alloc, parts)?;
    for _ in 0..parts {
        tasks.push(ReadTask {
            divided: spare.divided(),
            done: Err(AllocError),
        })?;
    }
    Ok(tasks)
}

/// Fewer requests are read on the caller's thread, because to start threads would take as long.
const FEWEST_READ: u64 = 1 << 14;

/// Reads all parts, each by a thread of its own if there are many requests.
fn read_all<R: Threads + Sync>(
    rt: &R,
    alloc: Global,
    level: &LevelToReduce<'_>,
    tasks: &mut [ReadTask],
)
    requires long { length tasks.old ≡ length level.now.parts.now }
    requires may { MayReadLevel level.now }
    ensures { AreAllRead level.now tasks.new }
{
    let read = |part: usize, task: &mut ReadTask|
        requires { (part < length level.now.parts.now) × MayReadLevel level.now }
        ensures { IsTaskRead level.entry.now part task.exit.now }
    { task.read(alloc, level, part) };
    fork_if_much(rt, level.len() >= FEWEST_READ, tasks, &read);
}

/// Returns what was read of all parts, unless memory was refused for one.
fn join_reads(
    alloc: Global,
    level: &LevelToReduce<'_>,
    tasks: Vec<ReadTask>,
) -> Result<LevelRead, AllocError>
    requires { AreAllRead level.now tasks.items }
    ensures { IfOk result (λ r. AreRead level.now (length tasks.items) r.parts.items r.origins.items) }
{
    let _ = level.number; // For the proof.
    let mut parts = Vec::with_capacity(alloc, tasks.len())?;
    let mut origins = Vec::with_capacity(alloc, tasks.len())?;
    for task in tasks {
        let ReadTask { divided, done } = task;
        done?;
        parts.push(divided.lists)?;
        origins.push(divided.origins)?;
    }
    Ok(LevelRead { parts, origins })
}

/// Reads all children of a level, each part's by a thread of its own if there are many requests.
pub(crate) fn read_level<R: Threads + Sync>(
    rt: &R,
    alloc: Global,
    level: &LevelToReduce<'_>,
    spare: &mut ListPool,
) -> Result<LevelRead, AllocError>
    requires { MayReadLevel level.now }
    ensures { IfOk result (λ r. AreRead level.now (length level.now.parts.now) r.parts.items r.origins.items) }
{
    let mut tasks = read_tasks(alloc, level.parts.len(), spare)?;
    read_all(rt, alloc, level, tasks.as_mut_slice());
    join_reads(alloc, level, tasks)
}

//! Picking the diagrams of a part's requests from those of all pairs of a level, which are by
//! shard.
ghost use Rattle.std.specs.Prelude.{◌≡◌, ◌+◌, ◌<◌, ◌≤◌, ◌++◌, ℕ, length, slice_get, slice_index_or, Some, All, IfOk, OnOk};
ghost use Rattle.dd_store.specs.Levels.{all_at};
ghost use Rattle.reduce_up.specs.declared.division.Origins.{Origins as OriginsValue};
ghost use Rattle.reduce_up.specs.Division.{chosen, source, begin_of, IsPicked, IsPickedOf, ArePicked, AreInPartOrder};
ghost use Rattle.reduce_up.specs.Division.{AreRefsOf, HaveSixteen, MayPick};
ghost use Rattle.reduce_up.specs.AnswersByLevel.{joined};
ghost use Rattle.reduce_up.specs.Steps.{IsTaskPicked, AreAllPicked};

use crate::division::{Origins, REDUNDANT};
use crate::list_pool::ListPool;
use dd_store::{Ref, SHARDS};
use req_table::Refs;
use std::alloc::{AllocError, Global};
use std::thread::Threads;
use thread_map::fork_if_much;

/// The task for one part: the diagrams of its requests, and whether there was memory for them.
#[derive(Drop)]
pub(crate) struct PickTask {
    pub(crate) answers: Refs,
    pub(crate) done: Result<(), AllocError>,
}

/// Returns the diagram at a place of those of an origin.
fn diagram_at(origins: &Origins, refs: &[Vec<Ref>], origin: u8, place: usize) -> Ref
    requires sixteen { length refs.now ≡ 16 }
    requires origin { origin ≤ 16 }
    requires place { place < length (source refs.now origins.now origin) }
    ensures { slice_get (source refs.now origins.now origin) place ≡ Some result }
{
    if origin == REDUNDANT {
        return origins.equal[place];
    }
    refs[origin as usize][place]
}

/// Adds the diagram of each request: the next one of its origin, from the places in `starts` on.
fn pick(
    origins: &Origins,
    refs: &[Vec<Ref>],
    starts: &[usize],
    answers: &mut Refs,
) -> Result<(), AllocError>
    requires sixteen { length refs.now ≡ 16 }
    requires starts { length starts.now ≡ 17 }
    requires origins { All (λ h. h ≤ 16) origins.now.numbers.items }
    requires room { (s : ℕ) → s ≤ 16 → slice_index_or starts.now s 0 + length
        (chosen s origins.now.numbers.items origins.now.numbers.items) ≤ length (source refs.now origins.now s) }
    ensures { OnOk result (IsPicked origins.now.numbers.items (λ s. slice_index_or starts.now s 0) (source refs.now origins.now)
        answers.new) }
{
    let mut places = Vec::with_capacity(*origins.numbers.allocator(), starts.len())?;
    places.extend_from_slice(starts)?;
    answers.restart(origins.numbers.len())?;
    for origin in &origins.numbers {
        let place = places[*origin as usize];
        let Some(next) = place.checked_add(1) else {
            return Err(AllocError);
        };
        places[*origin as usize] = next;
        answers.push(diagram_at(origins, refs, *origin, place))?;
    }
    Ok(())
}

/// Returns where the references of a part's pairs begin among those of a shard.
fn start_of(parts: &[Vec<Vec<(Ref, Ref)>>], part: usize, shard: usize, total: usize) -> usize
    requires part { part < length parts.now }
    requires lists { HaveSixteen parts.now }
    requires shard { shard < 16 }
    requires total { total ≡ length (all_at parts.now shard) }
    ensures { result ≡ begin_of parts.now part shard }
{
    let mut start = 0;
    for before in 0..part {
        start += parts[before][shard].len();
    }
    start
}

/// Returns where a part's references begin in each shard, and 0 for its redundant requests, whose diagrams are its own.
fn starts_of(
    alloc: Global,
    parts: &[Vec<Vec<(Ref, Ref)>>],
    part: usize,
    refs: &[Vec<Ref>],
) -> Result<Vec<usize>, AllocError>
    requires part { part < length parts.now }
    requires lists { HaveSixteen parts.now }
    requires refs { AreRefsOf parts.now refs.now }
    ensures seventeen { IfOk result (λ starts. length starts.items ≡ 17) }
    ensures starts { IfOk result (λ starts. (s : ℕ) → s ≤ 16 → slice_index_or starts.items s 0 ≡ begin_of parts.now part s) }
{
    let mut starts = Vec::with_capacity(alloc, SHARDS + 1)?;
    for shard in 0..SHARDS {
        starts.push(start_of(parts, part, shard, refs[shard].len()))?;
    }
    starts.push(0)?;
    Ok(starts)
}

/// Adds the diagrams of a part's requests, in the order of the requests.
fn pick_part(
    parts: &[Vec<Vec<(Ref, Ref)>>],
    origins: &[Origins],
    refs: &[Vec<Ref>],
    part: usize,
    answers: &mut Refs,
) -> Result<(), AllocError>
    requires part { part < length origins.now }
    requires may { MayPick parts.now origins.now refs.now }
    ensures { (h : OriginsValue) → OnOk result (IsPickedOf parts.now refs.now part (slice_index_or origins.now part h) answers.new) }
{
    let own = &origins[part];
    let starts = starts_of(*own.numbers.allocator(), parts, part, refs)?;
    pick(own, refs, starts.as_slice(), answers)
}

/// Returns a task for each part, of which nothing is done yet.
fn pick_tasks(
    alloc: Global,
    parts: usize,
    spare: &mut ListPool,
) -> Result<Vec<PickTask>, AllocError>
    ensures { IfOk result (λ tasks. length tasks.items ≡ parts) }
{
    let mut tasks = Vec::with_capacity(alloc, parts)?;
    for _ in 0..parts {
        tasks.push(PickTask {
            answers: spare.picked(),
            done: Err(AllocError),
        })?;
    }
    Ok(tasks)
}

/// The diagrams of fewer requests are picked on the caller's thread, because to start threads would take as long.
const FEWEST_PICKED: usize = 1 << 16;

/// Returns the number of requests, or the greatest `usize` if they are more. It only decides whether threads are
/// started.
fn request_count(origins: &[Origins]) -> usize {
    let mut total: usize = 0;
    for part in origins {
        total = total.saturating_add(part.numbers.len());
    }
    total
}

/// Picks the diagrams of all parts, each part's by a thread of its own if there are many.
fn pick_each<R: Threads + Sync>(
    rt: &R,
    parts: &[Vec<Vec<(Ref, Ref)>>],
    origins: &[Origins],
    refs: &[Vec<Ref>],
    tasks: &mut [PickTask],
)
    requires long { length tasks.old ≡ length origins.now }
    requires may { MayPick parts.now origins.now refs.now }
    ensures { AreAllPicked parts.now origins.now refs.now tasks.new }
{
    let pick = |part: usize, task: &mut PickTask|
        requires { (part < length origins.now) × MayPick parts.now origins.now refs.now }
        ensures { IsTaskPicked parts.entry.now origins.entry.now refs.entry.now part task.exit.now }
    { task.done = pick_part(parts, origins, refs, part, &mut task.answers) };
    fork_if_much(rt, request_count(origins) >= FEWEST_PICKED, tasks, &pick);
}

/// Returns the diagrams by part, unless memory was refused for one.
fn join_picked(
    parts: &[Vec<Vec<(Ref, Ref)>>],
    origins: &[Origins],
    refs: &[Vec<Ref>],
    tasks: Vec<PickTask>,
) -> Result<Vec<Refs>, AllocError>
    requires { AreAllPicked parts.now origins.now refs.now tasks.items }
    ensures { IfOk result (λ answers. ArePicked parts.now origins.now refs.now (length tasks.items) answers.items) }
{
    let _ = (parts.len(), origins.len(), refs.len()); // For the proof.
    let mut answers = Vec::with_capacity(*tasks.allocator(), tasks.len())?;
    for task in tasks {
        let PickTask {
            answers: picked,
            done,
        } = task;
        done?;
        answers.push(picked)?;
    }
    Ok(answers)
}

/// Adds the diagrams of all parts, one part after the other.
fn add_all(own: &mut Refs, picked: &[Refs]) -> Result<(), AllocError>
    ensures { OnOk result (own.new ≡ own.old ++ joined picked.now) }
{
    for part in picked {
        own.append(part)?;
    }
    Ok(())
}

/// Puts the diagrams of all parts, one part after the other, into `own`, whose memory is used again.
pub(crate) fn pick_level<R: Threads + Sync>(
    rt: &R,
    parts: &[Vec<Vec<(Ref, Ref)>>],
    origins: &[Origins],
    refs: &[Vec<Ref>],
    own: &mut Refs,
    spare: &mut ListPool,
) -> Result<(), AllocError>
    requires may { MayPick parts.now origins.now refs.now }
    ensures { OnOk result (AreInPartOrder parts.now origins.now refs.now own.new) }
{
    let mut tasks = pick_tasks(spare.allocator(), origins.len(), spare)?;
    pick_each(rt, parts, origins, refs, tasks.as_mut_slice());
    let picked = join_picked(parts, origins, refs, tasks)?;
    own.restart(request_count(origins))?;
    add_all(own, picked.as_slice())?;
    for part in picked {
        spare.keep_picked(part);
    }
    Ok(())
}

//! The places of children that are requests of other workers. On the way down a worker's row has
//! only the owner for such a child. Of what the worker has asked of this owner, in order, the child
//! is the next, and the owner has noted its place, in the same order. Here each child gets its
//! place among all requests of its level, which are those of the workers, one worker after the
//! other.
ghost use Rattle.std.specs.Prelude.{◌≡◌, ◌+◌, ◌<◌, ◌^◌, [], length, slice_index_or, All, List, IfOk, IsOk, OnOk};
ghost use Rattle.std.specs.List.{AllZip};
ghost use Rattle.req_table.specs.declared.Key.{Key as KeyValue};
ghost use Rattle.req_table.specs.declared.Child.{Child as ChildValue};
ghost use Rattle.req_table.specs.Keys.{IsKey};
ghost use Rattle.req_table.specs.Places.{IsPlaced};
ghost use Rattle.expand_work.specs.WavePorts.{row_of};
ghost use Rattle.expand_work.specs.WaveParts.{AreParts};
ghost use Rattle.expand_work.specs.OwnerRows.{row_by_owner, AreRowsByOwner};
ghost use Rattle.reduce_up.specs.Numbers.{keys_in, asked_from, IsNumberingInput, IsSender, IsNext, AreNext, AreNoted};
ghost use Rattle.reduce_up.specs.Numbers.{IsRowNumbered, IsNumberedTo, IsTaskNumbered, AreNew, AreTasks, IsRootPlaced, MayNumberAll};
ghost use Rattle.reduce_up.specs.Numbers.{AreAllNumbered, AreRowsNumbered, AreNumbered};

use crate::starts::{all_starts, are_many, worker_count};
use dd_store::Store;
use expand_work::WorkerNotes;
use req_table::requests::{level_of, owner};
use req_table::{Key, PackedChild, PlacedChild, Row, Rows};
use std::alloc::{AllocError, Global};
use std::marker::Sync;
use std::mem;
use std::thread::Threads;
use thread_map::fork_if_much;

/// What is read while children are numbered: what the workers have noted, and by level and worker how many requests of
/// the level the workers before this one have.
#[derive(Clone, Copy)]
pub(crate) struct NumberingInput<'a> {
    alloc: Global,
    store: &'a Store,
    notes: &'a WorkerNotes,
    starts: &'a [u32],
    workers: u32,
}

/// The task for one worker's children: its rows; of each owner the noted places of the requests that the worker has
/// still to ask of it; an empty row for the next level, with the number of requests that its memory was for; and
/// whether there was memory.
#[derive(Drop)]
pub(crate) struct NumberingTask<'a> {
    rows: Rows,
    left: Vec<&'a [u32]>,
    spare_row: Row,
    spare_row_size: usize,
    done: Result<(), AllocError>,
}

/// Returns a child with its place for its owner: the next of the places that the owner has noted for this sender.
#[inline(always)]
fn number<'a>(
    input: NumberingInput<'_>,
    left: &mut Vec<&'a [u32]>,
    child: PackedChild,
) -> PackedChild
    requires input { IsNumberingInput input }
    requires child { (c : ChildValue) × (rest : List KeyValue) × IsNext input left.old.items child c rest }
    ensures left { (c : ChildValue) (rest : List KeyValue) → IsNext input.entry left.old.items child c rest
        → AreNext input.entry rest left.new.items }
    ensures placed { (c : ChildValue) (rest : List KeyValue) → IsNext input.entry left.old.items child c rest
        → IsPlaced (keys_in input.entry) result c }
{
    match child.view() {
        PlacedChild::Done(_) => child,
        PlacedChild::Ask {
            level,
            number: owner,
            complement,
        } => {
            let noted = left[owner as usize];
            left[owner as usize] = &noted[1..];
            let start = input.starts[level as usize * input.workers as usize + owner as usize];
            PackedChild::ask(level, start + noted[0], complement)
        }
    }
}

/// Adds the children of a sender's requests of a level, with places for owners, to an empty row.
fn number_row<'a>(
    input: NumberingInput<'_>,
    sender: u32,
    level: u16,
    by_owner: &Row,
    left: &mut Vec<&'a [u32]>,
    spare_row: &mut Row,
) -> Result<(), AllocError>
    requires sender { IsSender input sender }
    requires level { level < input.store.now.levels }
    requires by_owner { by_owner.now ≡ row_by_owner input.workers (row_of input.notes.now.rows sender level) }
    requires left { AreNext input (asked_from input sender level) left.old.items }
    requires spare_row { spare_row.old ≡ [] }
    ensures row { OnOk result (IsRowNumbered input.entry sender level spare_row.new) }
    ensures left { OnOk result (AreNext input.entry (asked_from input.entry sender (level + 1)) left.new.items) }
{
    let _ = sender; // For the proof.
    spare_row.reserve(by_owner.len())?;
    for place in 0..by_owner.len() {
        let (low, high) = by_owner.at(place);
        let low = number(input, left, low);
        let high = number(input, left, high);
        spare_row.push((low, high))?;
    }
    Ok(())
}

/// Returns an empty row for `count` requests: the spare row, unless its memory is for more than twice as many, which a
/// small level would keep without need.
fn fitting_row(alloc: Global, spare_row: Row, size: usize, count: usize) -> Row
    requires { spare_row ≡ [] }
    ensures { result ≡ [] }
{
    if size / 2 > count {
        return Row::new(alloc);
    }
    spare_row
}

impl<'a> NumberingTask<'a> {
    /// Puts places for owners in the row of a level. The old row's memory will be used for the next level's.
    fn number_level(
        &mut self,
        input: NumberingInput<'_>,
        sender: u32,
        level: u16,
    ) -> Result<(), AllocError>
        requires sender { IsSender input sender }
        requires level { level < input.store.now.levels }
        requires task { IsNumberedTo input sender level self.old }
        ensures { OnOk result (IsNumberedTo input.entry sender (level + 1) self.new) }
    {
        let count = self.rows.row(level).len();
        if count == 0 {
            return Ok(());
        }
        let mut by_owner = self.rows.take(level);
        let spare_row = mem::replace(&mut self.spare_row, Row::new(input.alloc));
        let mut spare_row = fitting_row(input.alloc, spare_row, self.spare_row_size, count);
        number_row(
            input,
            sender,
            level,
            &by_owner,
            &mut self.left,
            &mut spare_row,
        )?;
        self.rows.put(level, spare_row);
        by_owner.clear();
        self.spare_row = by_owner;
        self.spare_row_size = count;
        Ok(())
    }

    /// Puts places for owners in the rows of all levels.
    fn number_rows(&mut self, input: NumberingInput<'_>, sender: u32) -> Result<(), AllocError>
        requires sender { IsSender input sender }
        requires task { IsNumberedTo input sender 0 self.old }
        ensures { OnOk result (IsNumberedTo input.entry sender input.entry.store.now.levels self.new) }
    {
        for level in 0..input.store.levels() {
            self.number_level(input, sender, level)?;
        }
        Ok(())
    }

    /// Returns the rows, unless memory was refused.
    fn into_rows(self) -> Result<Rows, AllocError>
        ensures { IfOk result (λ rows. (rows ≡ self.entry.rows) × IsOk self.entry.done) }
    {
        let NumberingTask {
            rows,
            left: _,
            spare_row: _,
            spare_row_size: _,
            done,
        } = self;
        done?;
        Ok(rows)
    }
}

/// The room that is left unused after each worker's list, 16 bytes an element, so two cache lines: threads that advance
/// in their lists at the same time then never write to one cache line.
const LISTS_APART: usize = 8;

/// Returns, for each owner, what it has noted of the requests that a sender asked of it.
fn all_noted<'a>(input: NumberingInput<'a>, sender: u32) -> Result<Vec<&'a [u32]>, AllocError>
    requires { IsSender input sender }
    ensures { IfOk result (λ left. AreNoted input.entry sender left.items) }
{
    let mut left = Vec::with_capacity(input.alloc, input.workers as usize + LISTS_APART)?;
    for owner in 0..input.workers {
        left.push(input.notes.noted(owner, sender))?;
    }
    Ok(left)
}

/// Returns a task for each worker, of which nothing is done yet.
fn new_tasks<'a>(
    input: NumberingInput<'a>,
    rows: Vec<Rows>,
) -> Result<Vec<NumberingTask<'a>>, AllocError>
    requires input { IsNumberingInput input }
    requires many { length rows.items ≡ input.workers }
    ensures { IfOk result (λ tasks. AreNew input.entry (length rows.items) rows.items tasks.items) }
{
    let mut tasks = Vec::with_capacity(input.alloc, rows.len())?;
    let mut sender: u32 = 0;
    for own in rows {
        let left = all_noted(input, sender)?;
        tasks.push(NumberingTask {
            rows: own,
            left,
            spare_row: Row::new(input.alloc),
            spare_row_size: 0,
            done: Err(AllocError),
        })?;
        sender += 1;
    }
    Ok(tasks)
}

/// Returns a root with its place. Root i was asked for by worker i modulo their number.
fn number_root(
    input: NumberingInput<'_>,
    roots: &[Key],
    root: usize,
    tasks: &mut [NumberingTask<'_>],
) -> PackedChild
    requires input { IsNumberingInput input }
    requires root { root < length roots.now }
    requires tasks { AreTasks input roots.now root tasks.old }
    ensures tasks { AreTasks input.entry roots.now (root + 1) tasks.new }
    ensures placed { (x : KeyValue) → IsRootPlaced input.entry (slice_index_or roots.now root x) result }
{
    let key = roots[root];
    let sender = root % input.workers as usize;
    let child = PackedChild::ask(level_of(input.store, key), owner(key, input.workers), false);
    let task = &mut tasks[sender];
    number(input, &mut task.left, child)
}

/// Returns the roots with their places.
fn number_roots(
    input: NumberingInput<'_>,
    roots: &[Key],
    tasks: &mut [NumberingTask<'_>],
) -> Result<Vec<PackedChild>, AllocError>
    requires input { IsNumberingInput input }
    requires tasks { AreTasks input roots.now 0 tasks.old }
    ensures tasks { OnOk result (AreTasks input.entry roots.now (length roots.now) tasks.new) }
    ensures placed { IfOk result (λ placed. AllZip (IsRootPlaced input.entry) roots.now placed.items) }
{
    let mut placed = Vec::with_capacity(input.alloc, roots.len())?;
    for root in 0..roots.len() {
        let child = number_root(input, roots, root, tasks);
        placed.push(child)?;
    }
    Ok(placed)
}

/// Numbers the children of all workers, each worker's by a thread of its own if there is much to do.
fn number_tasks<R: Threads + Sync>(
    rt: &R,
    much: bool,
    input: NumberingInput<'_>,
    tasks: &mut [NumberingTask<'_>],
)
    requires input { IsNumberingInput input }
    requires tasks { MayNumberAll input tasks.old }
    ensures { AreAllNumbered input.entry tasks.new }
{
    let run = |sender: usize, task: &mut NumberingTask<'_>|
        requires { IsSender input sender × (sender < 2 ^ 32) × IsNumberedTo input sender 0 task.now }
        ensures { IsTaskNumbered input.entry sender task.exit.now }
    { task.done = task.number_rows(input, sender as u32) };
    fork_if_much(rt, much, tasks, &run);
}

/// Returns the rows of all tasks, unless memory was refused for one.
fn rows_of_tasks(
    input: NumberingInput<'_>,
    tasks: Vec<NumberingTask<'_>>,
) -> Result<Vec<Rows>, AllocError>
    requires { AreAllNumbered input tasks.items }
    ensures { IfOk result (λ rows. AreRowsNumbered input.entry input.entry.workers rows.items) }
{
    let mut all = Vec::with_capacity(input.alloc, tasks.len())?;
    for task in tasks {
        all.push(task.into_rows()?)?;
    }
    Ok(all)
}

/// Gives each child of the workers' requests its place among all requests of its level, worker
/// after worker, and returns the rows and the roots with places. Each worker's rows are read from
/// the first level on, which is the order in which the worker has asked; if there are many
/// requests, each worker's by a thread of its own. Fails if memory is refused, or if a level has
/// 2^32 requests or more.
pub(crate) fn number_all<R: Threads + Sync>(
    rt: &R,
    alloc: Global,
    store: &Store,
    notes: &WorkerNotes,
    roots: &[Key],
    rows: Vec<Rows>,
) -> Result<(Vec<Rows>, Vec<PackedChild>), AllocError>
    requires roots { All (IsKey store.now) roots.now }
    requires some { 0 < length rows.items }
    requires parts { AreParts store.now (length rows.items) roots.now notes.now }
    requires by_owner { AreRowsByOwner notes.now.rows rows.items }
    ensures { IfOk result (λ r. AreNumbered store.now (length rows.items) roots.now notes.now r.0.items r.1.items) }
{
    let workers = worker_count(&rows)?;
    let starts = all_starts(alloc, rows.as_slice(), store.levels())?;
    let input = NumberingInput {
        alloc,
        store,
        notes,
        starts: starts.as_slice(),
        workers,
    };
    let much = are_many(rows.as_slice());
    let mut tasks = new_tasks(input, rows)?;
    let all = tasks.as_mut_slice();
    let placed = number_roots(input, roots, all)?;
    number_tasks(rt, much, input, all);
    Ok((rows_of_tasks(input, tasks)?, placed))
}

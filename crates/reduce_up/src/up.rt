//! Reduction, from the last level up: the diagram of each request is made from those of its
//! children, which are read by place. The children of a level's requests are in parts, one for each
//! worker or a single one; its diagrams are in one list, those of the parts one after the other.
ghost use Rattle.std.specs.Prelude.{◌≡◌, ◌≢◌, ◌<◌, ◌≤◌, ◌+◌, ◌%◌, ◌^◌, ℕ, List, length, All, Err, IfOk, IfErr, OnOk};
ghost use Rattle.std.specs.List.{AllZip};
ghost use Rattle.dd_store.specs.declared.reference.Ref.{Ref as RefValue};
ghost use Rattle.dd_store.specs.Nodes.{IsSound, count_of};
ghost use Rattle.req_table.specs.declared.Key.{Key};
ghost use Rattle.req_table.specs.Places.{row};
ghost use Rattle.reduce_up.specs.OverParts.{level_over, over_parts};
ghost use Rattle.reduce_up.specs.Reducing.{AddsDescribed};
ghost use Rattle.reduce_up.specs.ReductionPhase.{ResolvesTo, children_of, IsReadyAt, MayReduceLevel, ReducesLevel, AreMore, AreReducedBelow, AreCounted, MayReduce};
ghost use Rattle.reduce_up.specs.Waves.{Entry, IsWanted, IsWaveFault};

use crate::list_pool::ListPool;
use crate::parts::{last_level, leave_level};
use crate::reductions::Reductions;
use crate::wide::share_level;
use dd_store::{Ref, Store};
use expand_work::{Crew, Monitor, WaveFault};
use req_table::{PackedChild, PlacedChild, Refs, Rows};
use std::alloc::{AllocError, Global};
use std::mem;
use std::thread::Threads;

/// The state of reductions, whose memory lasts from wave to wave.
#[derive(Drop)]
pub struct ReductionPhase {
    /// By level the diagrams of the requests, by place.
    pub answers: Vec<Refs>,
    /// The count of all requests that were ever reduced one by one or by threads.
    pub reductions: Reductions,
    /// Memory for levels that threads share.
    pub(crate) spare: ListPool,
}

impl ReductionPhase {
    /// Returns a state of no levels, which takes no memory yet.
    pub fn new(alloc: Global) -> ReductionPhase
        ensures { result.reductions ≡ 0 }
    {
        ReductionPhase {
            answers: Vec::new(alloc),
            reductions: Reductions::new(),
            spare: ListPool::new(alloc),
        }
    }

    /// Makes a list of diagrams for each of `levels` levels.
    pub fn fit(&mut self, levels: u16) -> Result<(), AllocError>
        ensures levels { OnOk result (length self.new.answers.items ≡ levels) }
        ensures counted { self.new.reductions ≡ self.old.reductions }
    {
        if self.answers.len() == levels as usize {
            return Ok(());
        }
        let alloc = *self.answers.allocator();
        let mut fresh = Vec::new(alloc);
        for made in 0..levels {
            fresh.push(Refs::new(alloc))?;
        }
        self.answers = fresh;
        Ok(())
    }
}

/// Returns the diagram of a child: the answer itself, or the one at the request's place, complemented if the child is.
#[inline(always)]
pub(crate) fn resolve(answers: &[Refs], child: PackedChild) -> Ref
    requires { (r : RefValue) × ResolvesTo answers.now child r }
    ensures { ResolvesTo answers.now child result }
{
    match child.view() {
        PlacedChild::Done(answer) => answer,
        PlacedChild::Ask {
            level,
            number: place,
            complement,
        } => answers[level as usize]
            .at(place as usize)
            .complement_if(complement),
    }
}

/// A level that is to be reduced: the children of its requests, by part, and the diagrams of the levels below it.
#[derive(Clone, Copy)]
pub(crate) struct LevelToReduce<'a> {
    pub(crate) parts: &'a [Rows],
    pub(crate) answers: &'a [Refs],
    pub(crate) number: u16,
}

impl<'a> LevelToReduce<'a> {
    /// Returns the number of its requests, modulo 2^64.
    pub(crate) fn len(&self) -> u64
        requires { All (λ rows. self.now.number < length rows) self.now.parts.now }
        ensures { result ≡ length (children_of self.now) % 2 ^ 64 }
    {
        let mut total: u64 = 0;
        for part in self.parts {
            total = total.wrapping_add(part.row(self.number).len() as u64);
        }
        total
    }
}

/// Makes the diagrams of a level's requests on this thread, one after the other, and adds them to `own`.
fn reduce_level(
    store: &mut Store,
    level: &LevelToReduce<'_>,
    own: &mut Refs,
    reductions: &mut Reductions,
) -> Result<(), WaveFault>
    requires { MayReduceLevel store.old level.now.parts.now level.now.answers.now level.now.number }
    ensures sound { IsSound store.new }
    ensures level { (tables : List (List Key)) → IsReadyAt store.old tables (children_of level.now) level.now.answers.now level.now.number
        → ReducesLevel store.old tables level.now.number result store.new own.new }
    ensures counted { OnOk result (AreMore (length (children_of level.now)) reductions.old reductions.new) }
{
    if own.restart(level.len() as usize).is_err() {
        return Err(WaveFault::OutOfMemory);
    }
    for part in level.parts {
        let children = part.row(level.number);
        for place in 0..children.len() {
            let pair = children.at(place);
            let low = resolve(level.answers, pair.0);
            let high = resolve(level.answers, pair.1);
            let answer = match reductions.make(store, level.number, low, high) {
                Ok(answer) => answer,
                Err(fault) => return Err(WaveFault::from(fault)),
            };
            if own.push(answer).is_err() {
                return Err(WaveFault::OutOfMemory);
            }
        }
    }
    Ok(())
}

/// A level with fewer requests is reduced on the caller's thread, because to start threads would take as long.
const FEWEST_SHARED: u64 = 4096;

/// Makes the diagrams of a level's requests: by threads if there are several parts and many requests.
fn answer_level<R: Threads + Sync, G: Monitor>(
    crew: &Crew<'_, R, G>,
    store: &mut Store,
    level: &LevelToReduce<'_>,
    own: &mut Refs,
    reductions: &mut Reductions,
    spare: &mut ListPool,
) -> Result<(), WaveFault>
    requires { MayReduceLevel store.old level.now.parts.now level.now.answers.now level.now.number }
    ensures sound { IsSound store.new }
    ensures level { (tables : List (List Key)) → IsReadyAt store.old tables (children_of level.now) level.now.answers.now level.now.number
        → ReducesLevel store.old tables level.now.number result store.new own.new }
    ensures counted { OnOk result (AreMore (length (children_of level.now)) reductions.old reductions.new) }
{
    if level.parts.len() < 2 || level.len() < FEWEST_SHARED {
        return reduce_level(store, level, own, reductions);
    }
    share_level(crew, store, level, own, spare)?;
    reductions.add(level.len());
    Ok(())
}

/// Makes the diagrams of a level that has requests, and checks that the store is within its limit. If it is not, the
/// fault is Full, whatever else has failed.
fn reduce_at<R: Threads + Sync, G: Monitor>(
    crew: &Crew<'_, R, G>,
    store: &mut Store,
    parts: &[Rows],
    up: &mut ReductionPhase,
    number: u16,
) -> Result<(), WaveFault>
    requires may { MayReduceLevel store.old parts.now up.old.answers.items number }
    requires known { number < length up.old.answers.items }
    requires some { 0 < length (level_over parts.now number) }
    ensures sound { IsSound store.new }
    ensures level { (tables : List (List Key)) → IsReadyAt store.old tables (level_over parts.now number) up.old.answers.items number
        → ReducesLevel store.old tables number result store.new (row up.new.answers.items number) }
    ensures others { (w : ℕ) → w ≢ number → row up.new.answers.items w ≡ row up.old.answers.items w }
    ensures lists { length up.new.answers.items ≡ length up.old.answers.items }
    ensures counted { OnOk result (AreMore (length (level_over parts.now number)) up.old.reductions up.new.reductions) }
    ensures within { OnOk result (count_of store.new ≤ store.new.limit) }
    ensures memory { result ≡ Err WaveFault.OutOfMemory → count_of store.new ≤ store.new.limit }
{
    // The level's own list is moved out, because the lists of the levels below are borrowed meanwhile.
    let fresh = Refs::new(crew.alloc);
    let mut own = mem::replace(&mut up.answers[number as usize], fresh);
    let level = LevelToReduce {
        parts,
        answers: up.answers.as_slice(),
        number,
    };
    let done = answer_level(
        crew,
        store,
        &level,
        &mut own,
        &mut up.reductions,
        &mut up.spare,
    );
    up.answers[number as usize] = own;
    if store.count() > store.limit() {
        return Err(WaveFault::Full);
    }
    done
}

/// Makes the diagrams of all requests of the levels before `from`, from the last of them up, and checks after each
/// level that the store is within its limit. A level's children are removed once it has its diagrams. The clauses hold
/// for every list of requests that have these children.
pub fn reduce<R: Threads + Sync, G: Monitor>(
    crew: &Crew<'_, R, G>,
    store: &mut Store,
    parts: &mut [Rows],
    up: &mut ReductionPhase,
    from: u16,
) -> Result<(), WaveFault>
    requires held { IsSound store.old }
    requires bound { from ≤ store.old.levels }
    requires levels { All (λ rows. length rows ≡ store.old.levels) parts.old }
    requires ready { (entries : List Entry) × (tables : List (List Key))
        × MayReduce store.old entries from (over_parts store.old.levels parts.old) up.old.answers.items tables }
    ensures sound { IsSound store.new }
    ensures adds { (entries : List Entry) (tables : List (List Key))
        → MayReduce store.old entries from (over_parts store.old.levels parts.old) up.old.answers.items tables
        → AddsDescribed store.old store.new (IsWanted store.old entries) }
    ensures reduced { (entries : List Entry) (tables : List (List Key))
        → MayReduce store.old entries from (over_parts store.old.levels parts.old) up.old.answers.items tables
        → OnOk result (AreReducedBelow store.old entries tables 0 store.new up.new.answers.items) }
    ensures counted { (entries : List Entry) (tables : List (List Key))
        → MayReduce store.old entries from (over_parts store.old.levels parts.old) up.old.answers.items tables
        → OnOk result (AreCounted tables 0 from up.old.reductions up.new.reductions) }
    ensures fault { (entries : List Entry) (tables : List (List Key))
        → MayReduce store.old entries from (over_parts store.old.levels parts.old) up.old.answers.items tables
        → IfErr result (λ e. IsWaveFault store.old entries store.new e) }
    ensures never_no_worker { IfErr result (λ e. e ≢ WaveFault.NoWorker) }
    ensures never_too_many_requests { IfErr result (λ e. e ≢ WaveFault.TooManyRequests) }
    ensures never_stopped { IfErr result (λ e. e ≢ WaveFault.Stopped) }
    ensures memory { result ≡ Err WaveFault.OutOfMemory → count_of store.new ≤ store.new.limit }
{
    let mut end = from;
    while let Some(number) = last_level(parts, end) {
        reduce_at(crew, store, parts, up, number)?;
        leave_level(parts, number);
        end = number;
    }
    Ok(())
}

/// Returns the diagrams of the roots.
pub fn root_answers(
    alloc: Global,
    roots: &[PackedChild],
    answers: &[Refs],
) -> Result<Vec<Ref>, AllocError>
    requires { All (λ p. (r : RefValue) × ResolvesTo answers.now p r) roots.now }
    ensures { IfOk result (λ refs. AllZip (ResolvesTo answers.now) roots.now refs.items) }
{
    let mut refs = Vec::with_capacity(alloc, roots.len())?;
    for root in roots {
        refs.push(resolve(answers, *root))?;
    }
    Ok(refs)
}

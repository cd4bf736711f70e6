//! The requests that are handed over to the workers at a wide level, and their answers.
ghost use Rattle.std.specs.Prelude.{◌≡◌, ◌≢◌, ◌<◌, ◌≤◌, ◌-◌, ◌^◌, true, length, Err, All, IfOk, IfErr, OnOk, ◌+◌, ◌++◌};
ghost use Rattle.dd_store.specs.Nodes.{IsSound, count_of};
ghost use Rattle.expand_work.specs.Bounds.{AreFew};
ghost use Rattle.expand_work.specs.WaveParts.{HaveExpanded};
ghost use Rattle.reduce_up.specs.Reducing.{AddsDescribed};
ghost use Rattle.reduce_up.specs.Waves.{IsEntry, IsWanted, IsWaveFault};
ghost use Rattle.reduce_up.specs.ByPlace.{AreAdmitted};
ghost use Rattle.reduce_up.specs.ReductionPhase.{AreReducedBelow, IsWithinBelow};
ghost use Rattle.wave_engine.specs.Front.{keys_from, IsCopied, ArePut};

use dd_store::{Ref, Store};
use expand_work::{Crew, Monitor, WaveFault};
use reduce_up::{WaveMemory, wave_by_workers};
use req_table::{Key, Op, Refs, Table, Waiting};
use std::alloc::{AllocError, Global};
use std::sync::Wait;
use std::thread::Threads;

/// The requests of the levels from `from` on, and the most that the workers may expand, or the greatest number if there
/// is no bound.
#[derive(Drop)]
pub(crate) struct Frontier<'a> {
    pub(crate) requests: &'a Waiting,
    pub(crate) from: u16,
    pub(crate) most: usize,
}

/// Adds the requests of a table at the end of a list.
fn push_all(front: &mut Vec<Key>, keys: &Table) -> Result<(), AllocError>
    ensures { OnOk result (front.new.items ≡ front.old.items ++ keys.now) }
{
    let count = keys.len();
    front.reserve(count)?;
    for place in 0..count {
        front.push(keys.key_at(place))?;
    }
    Ok(())
}

/// Returns the requests of the levels from `from` on, in one list: by level, and those of one level by place. The
/// workers answer in this order, and `put_answers` takes their answers apart by it.
fn frontier_of(alloc: Global, requests: &Waiting, from: u16) -> Result<Vec<Key>, AllocError>
    requires { from ≤ length requests.now }
    ensures { IfOk result (λ ks. ks.items ≡ keys_from from requests.now) }
{
    let mut front = Vec::new(alloc);
    for level in from as usize..requests.levels() {
        push_all(&mut front, requests.keys(level))?;
    }
    Ok(front)
}

/// Replaces the diagrams of a level by `count` of the workers' answers, from the place `at` on. Returns the place after
/// them.
fn put_level(
    answers: &mut Refs,
    count: usize,
    found: &[Ref],
    at: usize,
) -> Result<usize, AllocError>
    requires room { at + count ≤ length found.now }
    ensures next { IfOk result (λ n. n ≡ at + count) }
    ensures copied { OnOk result (IsCopied found.now at count answers.new) }
{
    answers.restart(count)?;
    for place in 0..count {
        answers.push(found[at + place])?;
    }
    Ok(at + count)
}

/// Puts the workers' answers into the lists of their levels.
fn put_answers(
    answers: &mut Vec<Refs>,
    requests: &Waiting,
    from: u16,
    found: &[Ref],
) -> Result<(), AllocError>
    requires bound { from ≤ length requests.now }
    requires levels { length answers.old.items ≡ length requests.now }
    requires all { length found.now ≡ length (keys_from from requests.now) }
    ensures { OnOk result (ArePut requests.now from found.now (length requests.now) answers.new.items) }
{
    let mut at = 0;
    for level in from as usize..requests.levels() {
        let count = requests.keys(level).len();
        at = put_level(&mut answers[level], count, found, at)?;
    }
    Ok(())
}

/// Has the requests of the levels from `from` on answered by the workers, in one wave, and puts the
/// answers into the lists of their levels. Returns how many requests the workers have expanded. If
/// no request waits there, it is 0, and no thread is started. The memory of earlier waves is used.
/// `entries` are those of the whole wave; only the contract speaks of them. The requests are copied
/// into one list because `wave_by_workers` takes a list, from any caller.
///
/// Fails with NoWorker if a thread could not be started or if there are more requests than the
/// workers may expand: with a bound, `Workspace::wave` does the same in both cases. Fails with
/// Stopped if the run has stopped. In all these cases the store is as before. It also fails with
/// Full and OutOfMemory, as `wave_by_workers` does.
pub(crate) fn hand_over<R: Threads + Wait + Sync, G: Monitor>(
    crew: &Crew<'_, R, G>,
    wave_memory: &mut WaveMemory,
    store: &mut Store,
    entries: &[(Op, Ref, Ref)],
    frontier: &Frontier<'_>,
    answers: &mut Vec<Refs>,
) -> Result<usize, WaveFault>
    requires operands { All (IsEntry store.old) entries.now }
    requires admitted { AreAdmitted store.old entries.now frontier.now.requests.now }
    requires bound { frontier.now.from ≤ store.old.levels }
    requires levels { length answers.old.items ≡ store.old.levels }
    ensures sound { IsSound store.new }
    ensures adds { AddsDescribed store.old store.new (IsWanted store.old entries.now) }
    ensures reduced { OnOk result (AreReducedBelow store.new entries.now frontier.now.requests.now frontier.now.from store.new
        answers.new.items) }
    ensures within { OnOk result (IsWithinBelow store.old frontier.now.requests.now frontier.now.from store.new) }
    ensures expanded { OnOk result (HaveExpanded store.old crew.now.workers.count
        (keys_from frontier.now.from frontier.now.requests.now) wave_memory.old wave_memory.new) }
    ensures few { frontier.now.most < 2 ^ 64 - 1 → OnOk result (AreFew store.old crew.now.workers.count
        (keys_from frontier.now.from frontier.now.requests.now) frontier.now.most) }
    ensures untouched { result ≡ Err WaveFault.NoWorker → store.new ≡ store.old }
    ensures wave_memory { result ≡ Err WaveFault.NoWorker → wave_memory.new ≡ wave_memory.old }
    ensures fault { IfErr result (λ e. IsWaveFault store.old entries.now store.new e) }
    ensures never_too_many_requests { IfErr result (λ e. e ≢ WaveFault.TooManyRequests) }
    ensures stopped { result ≡ Err WaveFault.Stopped → (G.bound crew.now.monitor.now).stops ≡ true }
    ensures memory { count_of store.old ≤ store.old.limit → result ≡ Err WaveFault.OutOfMemory → count_of store.new ≤ store.new.limit }
    ensures idle { frontier.now.from ≡ store.old.levels → result ≢ Err WaveFault.NoWorker }
{
    let _ = store.levels(); // For the proof.
    let _ = entries.len(); // For the proof.
    let Ok(front) = frontier_of(crew.alloc, frontier.requests, frontier.from) else {
        return Err(WaveFault::OutOfMemory);
    };
    let asked = front.as_slice();
    if asked.is_empty() {
        return Ok(0);
    }
    let before = wave_memory.expanded();
    let found = wave_by_workers(crew, store, asked, frontier.most, wave_memory)?;
    match put_answers(answers, frontier.requests, frontier.from, found.as_slice()) {
        Ok(()) => Ok(wave_memory.expanded().wrapping_sub(before) as usize),
        Err(_) => Err(WaveFault::OutOfMemory),
    }
}

//! Waves on the caller's thread, by the state machine of `wave_core`: the diagrams of a list of
//! operations.
ghost use Rattle.std.specs.Prelude.{◌≡◌, ◌≢◌, ℕ, ◌<◌, ◌≤◌, All, IfOk, IfErr, OnErr, None};
ghost use Rattle.std.specs.List.{AllZip};
ghost use Rattle.req_table.specs.TerminalCase.{terminal_of};
ghost use Rattle.req_table.specs.Keys.{normal_of, IsKey};
ghost use Rattle.req_table.specs.ComputedTables.{IsRight};
ghost use Rattle.wave_engine.specs.CacheProbe.{unknown, IsKeptWave};
ghost use Rattle.reduce_up.specs.Reducing.{HasAnswer};
ghost use Rattle.reduce_up.specs.Waves.{IsEntry, AnswersWave, IsClosureOf, requests_of, IsTakenFrom};

use crate::levels::reduce;
use crate::results::Results;
use dd_store::{Ref, Store, Watch};
use expand_work::{Crew, Monitor, WaveFault};
use req_table::requests::{normal, terminal_case};
use req_table::{ComputedTable, Key, Op};
use std::alloc::{AllocError, Global};
use std::thread::Threads;
use wave_core::{Core, Records};
use wave_engine::CacheProbe;

/// Returns the requests of the entries that have no terminal case.
fn requests_of(alloc: Global, entries: &[(Op, Ref, Ref)]) -> Result<Vec<Key>, AllocError>
    ensures { IfOk result (λ keys. keys.items ≡ requests_of entries.now) }
{
    let mut keys = Vec::new(alloc);
    for entry in entries {
        let (op, f, g) = *entry;
        if terminal_case(op, f, g).is_none() {
            let (key, _) = normal(op, f, g);
            keys.push(key)?;
        }
    }
    Ok(keys)
}

/// Returns the diagram of an entry: its terminal case, or that of its request.
fn answer_of(op: Op, f: Ref, g: Ref, results: &Results) -> Ref
    requires { terminal_of op f g ≡ None → HasAnswer results.now (normal_of op f g).0 }
    ensures { IsTakenFrom results.now (terminal_of op f g) (op, f, g) result }
{
    match terminal_case(op, f, g) {
        Some(answer) => answer,
        None => {
            let (key, complement) = normal(op, f, g);
            results.get(&key).complement_if(complement)
        }
    }
}

/// Returns the diagrams of the entries.
fn answers_of(
    alloc: Global,
    entries: &[(Op, Ref, Ref)],
    results: &Results,
) -> Result<Vec<Ref>, AllocError>
    requires { All (HasAnswer results.now) (requests_of entries.now) }
    ensures { IfOk result (λ answers. AllZip (λ e r. IsTakenFrom results.now (terminal_of e.0 e.1 e.2) e r) entries.now answers.items) }
{
    let mut answers = Vec::new(alloc);
    for entry in entries {
        let (op, f, g) = *entry;
        answers.push(answer_of(op, f, g, results))?;
    }
    Ok(answers)
}

/// Returns the records of all requests that the roots ask for, by the state machine, which the choices drive.
fn closure_of(
    alloc: Global,
    store: &Store,
    workers: u32,
    roots: &[Key],
    choices: &[u8],
) -> Result<Records, AllocError>
    requires workers { (0 < workers) × (workers ≤ 16) }
    requires roots { All (IsKey store.now) roots.now }
    ensures { IfOk result (λ records. IsClosureOf store.now workers roots.now records) }
{
    let mut core = Core::new(alloc, store, workers, roots)?;
    if core.drive(choices).is_err() {
        return Err(AllocError);
    }
    core.into_records()
}

/// Returns the diagram of each operation, by reducing the records of all requests that they ask for.
fn answer_closure<R: Threads + Sync, H: Watch + Sync>(
    rt: &R,
    alloc: Global,
    store: &mut Store,
    entries: &[(Op, Ref, Ref)],
    records: &Records,
    watch: &H,
) -> Result<Vec<Ref>, WaveFault>
    requires operands { All (IsEntry store.old) entries.now }
    requires closure { (workers : ℕ) × (0 < workers) × IsClosureOf store.old workers (requests_of entries.now) records.now }
    ensures wave { AnswersWave store.old entries.now entries.now result store.new }
    ensures never_no_worker { IfErr result (λ e. e ≢ WaveFault.NoWorker) }
    ensures never_too_many_requests { IfErr result (λ e. e ≢ WaveFault.TooManyRequests) }
{
    let _ = store.levels(); // For the proof.
    let results = match reduce(rt, alloc, store, records, watch) {
        Ok(results) => results,
        Err(fault) => return Err(fault),
    };
    match answers_of(alloc, entries, &results) {
        Ok(answers) => Ok(answers),
        Err(_) => Err(WaveFault::OutOfMemory),
    }
}

/// Returns the diagram of each operation, if nothing is known of them.
fn wave_without_computed<R: Threads + Sync, G: Monitor>(
    crew: &Crew<'_, R, G>,
    store: &mut Store,
    entries: &[(Op, Ref, Ref)],
    choices: &[u8],
) -> Result<Vec<Ref>, WaveFault>
    requires operands { All (IsEntry store.old) entries.now }
    ensures wave { AnswersWave store.old entries.now entries.now result store.new }
    ensures never_no_worker { IfErr result (λ e. e ≢ WaveFault.NoWorker) }
    ensures never_too_many_requests { IfErr result (λ e. e ≢ WaveFault.TooManyRequests) }
{
    let _ = store.levels(); // For the proof.
    let (rt, alloc, monitor) = (crew.rt, crew.alloc, crew.monitor);
    let workers = crew.workers.count();
    let Ok(roots) = requests_of(alloc, entries) else {
        return Err(WaveFault::OutOfMemory);
    };
    let Ok(records) = closure_of(alloc, store, workers, roots.as_slice(), choices) else {
        return Err(WaveFault::OutOfMemory);
    };
    answer_closure(rt, alloc, store, entries, &records, monitor)
}

/// Returns the diagram of each operation on its two operands.
///
/// An operation that has a terminal case or a held answer is answered at once. The requests of all others together are
/// expanded on the caller's thread by the state machine of the workers, whose next event each choice chooses, and
/// reduced from the last level up. Afterwards the computed table has their answers. The monitor is only notified of the
/// shards of levels that threads share. Fails with Full and OutOfMemory.
pub fn wave_on_one_thread<R: Threads + Sync, G: Monitor>(
    crew: &Crew<'_, R, G>,
    store: &mut Store,
    computed: &mut ComputedTable,
    entries: &[(Op, Ref, Ref)],
    choices: &[u8],
) -> Result<Vec<Ref>, WaveFault>
    requires operands { All (IsEntry store.old) entries.now }
    requires right { IsRight store.old computed.old }
    ensures wave { AnswersWave store.old entries.now (unknown computed.old entries.now) result store.new }
    ensures never_no_worker { IfErr result (λ e. e ≢ WaveFault.NoWorker) }
    ensures never_too_many_requests { IfErr result (λ e. e ≢ WaveFault.TooManyRequests) }
    ensures kept { IfOk result (λ answers. IsKeptWave computed.old entries.now answers.items computed.new) }
    ensures refused { OnErr result (computed.new ≡ computed.old) }
    ensures right { IsRight store.new computed.new }
{
    let _ = store.levels(); // For the proof.
    let mut cache_probe = CacheProbe::new(crew.alloc);
    let Ok(_) = cache_probe.probe(computed, entries) else {
        return Err(WaveFault::OutOfMemory);
    };
    let found = wave_without_computed(crew, store, cache_probe.requests(), choices)?;
    match cache_probe.complete_answers(crew.alloc, computed, found.as_slice()) {
        Ok(answers) => Ok(answers),
        Err(_) => Err(WaveFault::OutOfMemory),
    }
}

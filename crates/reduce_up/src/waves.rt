//! Waves by workers: the diagrams of a list of requests (Ochi, Yasuoka and Yajima 1993).
ghost use Rattle.std.specs.Prelude.{◌≡◌, ◌≢◌, ◌<◌, ◌≤◌, ◌-◌, ◌^◌, true, All, Err, IfErr, OnOk};
ghost use Rattle.dd_store.specs.Nodes.{count_of};
ghost use Rattle.req_table.specs.Keys.{IsKey};
ghost use Rattle.expand_work.specs.Bounds.{AreFew};
ghost use Rattle.expand_work.specs.WaveParts.{AreParts, HaveExpanded};
ghost use Rattle.reduce_up.specs.Waves.{AnswersWave, entries_for};

use crate::numbers::number_all;
use crate::up::{ReductionPhase, reduce, root_answers};
use dd_store::{Ref, Store};
use expand_work::{Crew, MemoryPool, Monitor, Parts, WaveFault, expand_parts};
use req_table::Key;
use std::alloc::Global;
use std::marker::Model;
use std::sync::Wait;
use std::thread::Threads;

/// The memory of waves by workers, which lasts from wave to wave. Contracts see only how many requests the workers have
/// expanded, modulo 2^64.
#[derive(Drop)]
pub struct WaveMemory {
    spaces: MemoryPool,
    up: ReductionPhase,
}

impl Model for WaveMemory {
    ghost use Rattle.std.specs.Prelude.{ℕ};

    ghost Value = { ℕ };

    ghost view = { λ r. r.spaces };
}

impl WaveMemory {
    /// Returns memory that is empty.
    pub fn new(alloc: Global) -> WaveMemory
        ensures { result ≡ 0 }
    {
        WaveMemory {
            spaces: MemoryPool::new(alloc),
            up: ReductionPhase::new(alloc),
        }
    }

    /// Returns how many requests the workers have expanded in all these waves, modulo 2^64.
    pub fn expanded(&self) -> u64
        ensures { result ≡ self.now }
    {
        self.spaces.expanded()
    }
}

/// Returns the diagram of each root: gives each child its place, and reduces what the workers have recorded.
fn answer_parts<R: Threads + Sync, G: Monitor>(
    crew: &Crew<'_, R, G>,
    store: &mut Store,
    roots: &[Key],
    parts: Parts,
    wave_memory: &mut WaveMemory,
) -> Result<Vec<Ref>, WaveFault>
    requires roots { All (IsKey store.old) roots.now }
    requires parts { AreParts store.old crew.now.workers.count roots.now parts }
    ensures wave { AnswersWave store.old (entries_for roots.now) (entries_for roots.now) result store.new }
    ensures never_no_worker { IfErr result (λ e. e ≢ WaveFault.NoWorker) }
    ensures never_too_many_requests { IfErr result (λ e. e ≢ WaveFault.TooManyRequests) }
    ensures never_stopped { IfErr result (λ e. e ≢ WaveFault.Stopped) }
    ensures memory { count_of store.old ≤ store.old.limit → result ≡ Err WaveFault.OutOfMemory → count_of store.new ≤ store.new.limit }
    ensures expanded { wave_memory.new ≡ wave_memory.old }
{
    let levels = store.levels();
    let alloc = crew.alloc;
    let _ = crew.workers.count(); // For the proof.
    let (rows, notes) = parts.open();
    let Ok((mut rows, placed)) = number_all(crew.rt, alloc, store, &notes, roots, rows) else {
        return Err(WaveFault::OutOfMemory);
    };
    if wave_memory.up.fit(levels).is_err() {
        return Err(WaveFault::OutOfMemory);
    }
    reduce(
        crew,
        store,
        rows.as_mut_slice(),
        &mut wave_memory.up,
        levels,
    )?;
    let known = wave_memory.up.answers.as_slice();
    let Ok(answers) = root_answers(alloc, placed.as_slice(), known) else {
        return Err(WaveFault::OutOfMemory);
    };
    notes.give_back(rows, &mut wave_memory.spaces);
    Ok(answers)
}

/// Returns the diagram of each request. No computed table is used.
///
/// The requests, and all that they ask for, are expanded by workers in threads, and reduced from the last level up
/// (Ochi, Yasuoka and Yajima 1993). `most` is the most requests that the workers may expand, or the greatest number for
/// no bound.
///
/// Fails with NoWorker if a worker's thread could not be started or if there are more requests than `most`, and with
/// Stopped if the run has stopped before the workers have done their part; in these cases nothing was reduced. A
/// reduction is not stopped, and if a thread cannot be started in it, the caller's thread does that thread's work.
/// Fails with Full as `reduce` does, and with OutOfMemory. The memory of earlier waves is used; after a failure that of
/// the workers is given back.
pub fn wave_by_workers<R: Threads + Wait + Sync, G: Monitor>(
    crew: &Crew<'_, R, G>,
    store: &mut Store,
    roots: &[Key],
    most: usize,
    wave_memory: &mut WaveMemory,
) -> Result<Vec<Ref>, WaveFault>
    requires roots { All (IsKey store.old) roots.now }
    ensures wave { AnswersWave store.old (entries_for roots.now) (entries_for roots.now) result store.new }
    ensures few { most < 2 ^ 64 - 1 → OnOk result (AreFew store.old crew.now.workers.count roots.now most) }
    ensures untouched { result ≡ Err WaveFault.NoWorker → store.new ≡ store.old }
    ensures wave_memory { result ≡ Err WaveFault.NoWorker → wave_memory.new ≡ wave_memory.old }
    ensures expanded { OnOk result (HaveExpanded store.old crew.now.workers.count roots.now wave_memory.old wave_memory.new) }
    ensures never_too_many_requests { IfErr result (λ e. e ≢ WaveFault.TooManyRequests) }
    ensures stopped { result ≡ Err WaveFault.Stopped → (G.bound crew.now.monitor.now).stops ≡ true }
    ensures memory { count_of store.old ≤ store.old.limit → result ≡ Err WaveFault.OutOfMemory → count_of store.new ≤ store.new.limit }
{
    let _ = store.levels(); // For the proof.
    let (parts, _) = expand_parts(crew, store, roots, most, &mut wave_memory.spaces)?;
    answer_parts(crew, store, roots, parts, wave_memory)
}

//! One wave: the diagrams of a list of operations (Ochi, Yasuoka and Yajima 1993).
ghost use Rattle.std.specs.Prelude.{◌≡◌, ◌≢◌, ◌<◌, ◌≤◌, ◌-◌, ◌^◌, true, Err, All, IfOk, OnOk, OnErr};
ghost use Rattle.dd_store.specs.Nodes.{count_of};
ghost use Rattle.req_table.specs.ComputedTables.{IsRight};
ghost use Rattle.wave_engine.specs.CacheProbe.{unknown, IsKeptWave};
ghost use Rattle.reduce_up.specs.Waves.{IsEntry, AnswersWave};
ghost use Rattle.expand_work.specs.Bounds.{most_of};
ghost use Rattle.wave_engine.specs.Bounds.{AreAtMost, ArePast};

use crate::engine::Runner;
use dd_store::{Ref, Store};
use expand_work::{Crew, Monitor, WaveFault};
use req_table::{ComputedTable, Op};
use std::sync::Wait;
use std::thread::Threads;

/// Returns the diagram of each operation on its two operands, with the caller's computed table. An
/// operation that has a terminal case or a held answer is answered at once, and afterwards the
/// table has the answers of the others. Fails as `Engine::wave` does. This is for a caller that has
/// only one wave to do, as `gate_plan::conjoin` has: the memory of the wave is freed after it, and
/// an `Engine` keeps it for the next. No value outlives the wave in which counts could be, so there
/// is no clause on what was expanded.
pub fn wave<R: Threads + Wait + Sync, G: Monitor>(
    crew: &Crew<'_, R, G>,
    store: &mut Store,
    computed: &mut ComputedTable,
    entries: &[(Op, Ref, Ref)],
) -> Result<Vec<Ref>, WaveFault>
    requires operands { All (IsEntry store.old) entries.now }
    requires right { IsRight store.old computed.old }
    ensures wave { AnswersWave store.old entries.now (unknown computed.old entries.now) result store.new }
    ensures past { result ≡ Err WaveFault.TooManyRequests → ArePast (G.bound crew.now.monitor.now).requests store.old
        (unknown computed.old entries.now) }
    ensures within_bound { most_of (G.bound crew.now.monitor.now).requests < 2 ^ 64 - 1
        → OnOk result (AreAtMost (most_of (G.bound crew.now.monitor.now).requests) store.old (unknown computed.old entries.now)) }
    ensures bounded_needs_no_worker { most_of (G.bound crew.now.monitor.now).requests < 2 ^ 64 - 1 → result ≢ Err WaveFault.NoWorker }
    ensures stopped { result ≡ Err WaveFault.Stopped → (G.bound crew.now.monitor.now).stops ≡ true }
    ensures memory { count_of store.old ≤ store.old.limit → result ≡ Err WaveFault.OutOfMemory → count_of store.new ≤ store.new.limit }
    ensures kept { IfOk result (λ answers. IsKeptWave computed.old entries.now answers.items computed.new) }
    ensures refused { OnErr result (computed.new ≡ computed.old) }
    ensures right { IsRight store.new computed.new }
{
    let most = crew.monitor.most_requests();
    Runner::new(crew).wave(store, computed, entries, most)
}

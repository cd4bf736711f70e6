//! A level with many requests, which threads reduce in three steps: each reads a part's children
//! and divides the pairs of their diagrams by shard; the store makes the nodes of all pairs; and
//! each picks its part's diagrams. Each pair is searched for once.
ghost use Rattle.std.specs.Prelude.{List};
ghost use Rattle.dd_store.specs.Nodes.{IsSound};
ghost use Rattle.req_table.specs.declared.Key.{Key};
ghost use Rattle.reduce_up.specs.ReductionPhase.{children_of, IsReadyAt, MayReduceLevel, ReducesLevel};

use crate::division::{Origins, PairsByShard};
use crate::list_pool::ListPool;
use crate::picking::pick_level;
use crate::reads::read_level;
use crate::up::LevelToReduce;
use dd_store::{Makers, Ref, Store};
use expand_work::{Crew, Monitor, WaveFault};
use req_table::Refs;
use std::thread::Threads;

/// Keeps the memory of what was read, for another level.
fn keep_read(spare: &mut ListPool, parts: Vec<Vec<Vec<(Ref, Ref)>>>, origins: Vec<Origins>) {
    for (lists, origins) in parts.into_iter().zip(origins) {
        spare.keep_divided(PairsByShard { lists, origins });
    }
}

/// Makes the diagrams of a level's requests by threads, and puts them into `own`, those of the parts one after the
/// other. The clauses hold for every list of requests that have these children.
pub(crate) fn share_level<R: Threads + Sync, G: Monitor>(
    crew: &Crew<'_, R, G>,
    store: &mut Store,
    level: &LevelToReduce<'_>,
    own: &mut Refs,
    spare: &mut ListPool,
) -> Result<(), WaveFault>
    requires { MayReduceLevel store.old level.now.parts.now level.now.answers.now level.now.number }
    ensures sound { IsSound store.new }
    ensures level { (tables : List (List Key)) → IsReadyAt store.old tables (children_of level.now) level.now.answers.now level.now.number
        → ReducesLevel store.old tables level.now.number result store.new own.new }
{
    let Ok(read) = read_level(crew.rt, crew.alloc, level, spare) else {
        return Err(WaveFault::OutOfMemory);
    };
    let makers = Makers {
        rt: crew.rt,
        watch: crew.monitor,
        count: crew.workers.count(),
    };
    let lists = read.parts.as_slice();
    let refs = match store.make_all(&makers, level.number, lists) {
        Ok(refs) => refs,
        Err(fault) => return Err(WaveFault::from(fault)),
    };
    let origins = read.origins.as_slice();
    if pick_level(crew.rt, lists, origins, refs.as_slice(), own, spare).is_err() {
        return Err(WaveFault::OutOfMemory);
    }
    keep_read(spare, read.parts, read.origins);
    Ok(())
}

//! The reduction of the records of a core.
ghost use Rattle.std.specs.Prelude.{ℕ, All, Contains};
ghost use Rattle.req_table.specs.declared.Record.{Record};
ghost use Rattle.req_table.specs.Keys.{IsKey};
ghost use Rattle.req_table.specs.Tables.{row_at};
ghost use Rattle.reduce_up.specs.Reducing.{HasAnswer};
ghost use Rattle.reduce_up.specs.Waves.{IsClosureOf};

use crate::waves::{A, C, D, known_at, node, request, start};
use dd_store::{Ref, Store};
use expand_work::{NoMonitor, WaveFault};
use req_table::{Key, Op};
use std::alloc::Global;
use std::process::Abort;
use std::sync::Wait;
use std::test::Fail;
use std::thread::Threads;
use wave_core::{Core, Records};
use wave_doors::law::closures_are_records;
use wave_doors::{Results, reduce};

/// Returns the records of all that the roots ask for, by a core of two workers.
fn closure_of<R: Abort>(
    rt: &R,
    alloc: Global,
    store: &Store,
    roots: &[Key],
    choices: &[u8],
) -> Records
    requires { All (IsKey store.now) roots.now }
    ensures { IsClosureOf store.now 2 roots.now result }
{
    let mut core = Core::new(alloc, store, 2, roots).expect(rt, "memory");
    assert!(rt; core.drive(choices).is_ok());
    core.into_records().expect(rt, "memory")
}

/// Returns the diagram of the only record of a level, which has this key.
pub(crate) fn only<R: Abort>(
    rt: &R,
    records: &Records,
    results: &Results,
    level: u16,
    key: Key,
) -> Ref
    requires { (v : ℕ) (r : Record) → Contains (row_at records.now v) r → HasAnswer results.now r.key }
{
    assert!(rt; (level as usize) < records.levels());
    let row = records.level(level);
    assert!(rt; row.len() == 1);
    let record = row[0];
    assert!(rt; record.key == key);
    results.get(&record.key)
}

/// Reduces the records of a driven core in a store of at most `limit` nodes: at the first and at the third level one
/// node is added.
fn reduced_within<R: Threads + Wait + Abort + Sync>(
    rt: &R,
    alloc: Global,
    limit: u32,
    choices: &[u8],
) -> Result<(), WaveFault> {
    let mut store = Store::new(alloc, 4, limit as u64)?;
    let known = start(rt, alloc, &mut store);
    let c = known_at(rt, &store, known.as_slice(), C);
    let d = known_at(rt, &store, known.as_slice(), D);
    let roots = [
        request(rt, &store, known.as_slice(), (Op::And, A, C)),
        request(rt, &store, known.as_slice(), (Op::And, C, D)),
    ];
    let records = closure_of(rt, alloc, &store, &roots, choices);
    closures_are_records(&store, &roots, &records); // For the proof.
    assert!(rt; store.count() == 4);
    let results = reduce(rt, alloc, &mut store, &records, &NoMonitor)?;
    let first = node(rt, &store, 0, Ref::FALSE, c);
    let last = node(rt, &store, 2, Ref::FALSE, d);
    assert!(rt; only(rt, &records, &results, 0, roots[0]) == first);
    assert!(rt; only(rt, &records, &results, 2, roots[1]) == last);
    assert!(rt; store.count() == 6);
    Ok(())
}

// The four variables and the two added nodes need a limit of six nodes; with five the store is full.
#[test]
fn core_reduced(rt: HostRuntime) -> Result<(), Fail> {
    for choices in [[].as_slice(), [0, 1, 2].as_slice(), [255; 200].as_slice()] {
        reduced_within(&rt, rt.alloc(), 6, choices)?;
        assert!(rt; reduced_within(&rt, rt.alloc(), 5, choices) == Err(WaveFault::Full));
    }
    Ok(())
}

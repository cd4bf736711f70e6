//! A whole caller of the store and its waves, to start from: it builds "a and b and c", grouped in
//! two ways, in one store, and proves that both are the same diagram.
//!
//! **Promises.** `two_ways` returns the diagram of "a and b and c" (`meaning`), both times
//! (`same`).
//!
//! **Only a test shows** that nothing is refused if there is ample memory, and how many nodes the
//! store has.
//!
//! **Begin** here, with docs/CALLING.md: copy it, and change what is built.
#![tactic(auto)]

ghost use Rattle.std.specs.Prelude.{◌≡◌, ◌&&◌, Bool, List, IfOk};
ghost use Rattle.dd_store.specs.Graph.{bit};
ghost use Rattle.dd_store.specs.declared.reference.Ref.{Ref as RefValue};
ghost use Rattle.dd_store.specs.Nodes.{IsSound, den, IsDiagram};
ghost use Rattle.dd_store.specs.View.{Has};
ghost use Rattle.req_table.specs.ComputedTables.{IsRight};
ghost use Rattle.reduce_up.specs.Waves.{IsEntry, entry_value};

#[cfg(test)]
use counter_walk::{least_difference, same};
use dd_store::{Ref, Store};
use expand_work::{Crew, NoMonitor, WaveFault, Workers};
use req_table::Op;
use std::alloc::Global;
use std::sync::Wait;
#[cfg(test)]
use std::test::Fail;
use std::thread::Threads;
use wave_engine::Engine;

/// Returns the diagrams of two operations, by one wave. All references that the store had keep their functions.
#[tactic(auto, using(dd_store::proofs::View::kept_den))]
fn both<R: Threads + Wait + Sync>(
    engine: &mut Engine<'_, R, NoMonitor>,
    store: &mut Store,
    one: (Op, Ref, Ref),
    two: (Op, Ref, Ref),
) -> Result<(Ref, Ref), WaveFault>
    requires right { IsRight store.old engine.old.held }
    requires one { IsEntry store.old one }
    requires two { IsEntry store.old two }
    ensures sound { IsSound store.new }
    ensures right { IsRight store.new engine.new.held }
    ensures kept { (r : RefValue) → Has store.old r → Has store.new r × ((x : List Bool) → den store.new r x ≡ den store.old r x) }
    ensures levels { store.new.levels ≡ store.old.levels }
    ensures first { IfOk result (λ r. IsDiagram store.new r.0 (entry_value store.old one)) }
    ensures second { IfOk result (λ r. IsDiagram store.new r.1 (entry_value store.old two)) }
{
    let _ = store.levels(); // For the proof.
    let answers = engine.wave(store, &[one, two])?;
    Ok((answers[0], answers[1]))
}

/// Builds "(a and b) and c" and "a and (b and c)" in a new store, and returns this store and both diagrams.
pub fn two_ways<R: Threads + Wait + Sync>(
    rt: &R,
    alloc: Global,
) -> Result<(Store, Ref, Ref), WaveFault>
    ensures meaning { IfOk result (λ r. IsDiagram r.0 r.1 (λ x. bit x 0 && (bit x 1 && bit x 2))) }
    ensures same { IfOk result (λ r. r.1 ≡ r.2) }
{
    let mut store = Store::new(alloc, 3, 1_000)?;
    let a = store.variable(0)?;
    let b = store.variable(1)?;
    let c = store.variable(2)?;
    let crew = Crew {
        rt,
        alloc,
        workers: Workers::new(1),
        monitor: &NoMonitor,
    };
    let mut engine = Engine::new(&crew)?;
    let (ab, bc) = both(&mut engine, &mut store, (Op::And, a, b), (Op::And, b, c))?;
    let ways = both(&mut engine, &mut store, (Op::And, ab, c), (Op::And, a, bc))?;
    let _ = store.levels(); // For the proof.
    Ok((store, ways.0, ways.1))
}

// Both are equal, and 1 if a, b and c are 1. The nodes are those of a, b, c, "a and b", "b and c" and "a and b and c".
#[test]
fn both_ways_are_equal(rt: HostRuntime) -> Result<(), Fail> {
    let (store, first, second) = two_ways(&rt, rt.alloc())?;
    assert!(rt; same(first, second) && store.count() == 6);
    let found = least_difference(rt.alloc(), &store, first, Ref::FALSE)?;
    assert!(rt; found.is_some_and(|bits| bits.as_slice() == [true, true, true].as_slice()));
    Ok(())
}

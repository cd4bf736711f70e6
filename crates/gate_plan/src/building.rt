//! Building the diagrams of netlists in one store, rank by rank.
ghost use Rattle.std.specs.Prelude.{◌≡◌, ◌≢◌, ◌+◌, ◌-◌, ◌^◌, ◌<◌, ◌≤◌, true, Err, [], Contains, length, map, min, IfOk, IfErr, IfSome, OnOk};
ghost use Rattle.std.specs.Prelude.{slice_get, slice_index_or, Some};
ghost use Rattle.dd_store.specs.Nodes.{IsSound, count_of};
ghost use Rattle.dd_store.specs.View.{Keeps};
ghost use Rattle.net_bench.specs.Circuit.{greatest};
ghost use Rattle.net_order.specs.Order.{first_level, second_level, given_level};
ghost use Rattle.expand_work.specs.Bounds.{most_of};
ghost use Rattle.reduce_up.specs.Reducing.{AddsDescribed};
ghost use Rattle.gate_plan.specs.Folds.{IsVariable};
ghost use Rattle.gate_plan.specs.Need.{IsCounted};
ghost use Rattle.gate_plan.specs.Needing.{IsNeeded, IsNeededValue, HasNeed, IsBuildFault, IsPlannedValue, IsStillWithin};
ghost use Rattle.gate_plan.specs.Asking.{AnyAsks, AnyAsksAt, AnyAsksIn, AnyAsksBelow, IsWithinOrUnasked, IsRightAndWithinLimit, IsPast};
ghost use Rattle.gate_plan.specs.Asking.{IsNarrow, IsNarrowAt, AreNarrowTo, AreNarrowBelow};
ghost use Rattle.wave_engine.specs.EngineView.{CountsAll};
ghost use Rattle.gate_plan.specs.Plans.{IsPlan};
ghost use Rattle.gate_plan.specs.Building.{PlannedNet, IsPaired, AreDiagrams, AllRight, AllFolded, IsBuildStart, circuits_of, levelled};
ghost use Rattle.gate_plan.specs.Building.{levelled_of, folds_at, ranks_of};

use crate::circuits::Circuits;
use crate::inputs::make_variables;
use crate::sides::{
    NetlistDiagrams, PlannedNetlist, copy_rank, entries_of, input_diagrams, last_rank, most_folds,
    sides_of,
};
use dd_store::{Ref, Store};
use expand_work::{Crew, Monitor, WaveFault};
use net_bench::netlist::Signal;
use std::alloc::Global;
use std::marker::Model;
use std::sync::Wait;
use std::thread::Threads;
use wave_engine::Engine;

/// A reference for each signal of two netlists, and of the condition if there is one.
#[derive(Drop)]
pub struct CircuitDiagrams {
    list: Vec<NetlistDiagrams>,
}

impl Model for CircuitDiagrams {
    ghost use Rattle.std.specs.Prelude.{[], slice_index_or};
    ghost use Rattle.gate_plan.specs.Building.{References};

    ghost Value = { References };

    ghost view = { λ b. record {
      first = slice_index_or b.list.items 0 [];
      second = slice_index_or b.list.items 1 [];
      given = slice_index_or b.list.items 2 [];
    } };
}

/// Returns the diagram of a signal of the netlist at this place of the list.
fn diagram_at(list: &[NetlistDiagrams], place: usize, signal: Signal) -> Ref
    requires { signal < length (slice_index_or list.now place []) }
    ensures { slice_get (slice_index_or list.now place []) signal ≡ Some result }
{
    let diagrams = &list[place];
    diagrams.as_slice()[signal.number() as usize]
}

impl CircuitDiagrams {
    /// Returns the diagram of a signal of the first netlist.
    pub fn first(&self, signal: Signal) -> Ref
        requires { signal < length self.now.first }
        ensures { slice_get self.now.first signal ≡ Some result }
    {
        diagram_at(self.list.as_slice(), 0, signal)
    }

    /// Returns the diagram of a signal of the second netlist.
    pub fn second(&self, signal: Signal) -> Ref
        requires { signal < length self.now.second }
        ensures { slice_get self.now.second signal ≡ Some result }
    {
        diagram_at(self.list.as_slice(), 1, signal)
    }

    /// Returns the diagram of a signal of the condition.
    pub fn given(&self, signal: Signal) -> Ref
        requires { signal < length self.now.given }
        ensures { slice_get self.now.given signal ≡ Some result }
    {
        diagram_at(self.list.as_slice(), 2, signal)
    }
}

/// Does the wave of one fold number of a rank: one wave for the steps of all netlists.
fn build_fold<R: Threads + Wait + Sync, G: Monitor>(
    engine: &mut Engine<'_, R, G>,
    store: &mut Store,
    sides: &[PlannedNetlist<'_>],
    built: &mut [NetlistDiagrams],
    rank: usize,
    fold: usize,
) -> Result<(), WaveFault>
    requires rank { 1 ≤ rank }
    requires plans { (one : PlannedNet) → Contains sides.now one → IsPlan one.net one.plan }
    requires held { IsRightAndWithinLimit store.old engine.old.held }
    requires counts_all { CountsAll store.old engine.old }
    requires folded { AllFolded sides.now store.old built.old rank fold }
    ensures sound { IsSound store.new }
    ensures adds { AddsDescribed store.old store.new (IsCounted store.old.levels (IsPlannedValue store.old.levels sides.now)) }
    ensures held { OnOk result (IsRightAndWithinLimit store.new engine.new.held) }
    ensures counts_all { OnOk result (CountsAll store.new engine.new) }
    ensures bound { engine.new.bound ≡ engine.old.bound }
    ensures next { OnOk result (AllFolded sides.now store.new built.new rank (fold + 1)) }
    ensures within { OnOk result (IsWithinOrUnasked (AnyAsksAt sides.now store.new rank fold) store.old store.new) }
    ensures fault { IfErr result (IsBuildFault store.old.levels (IsPlannedValue store.old.levels sides.now) store.new) }
    ensures past { result ≡ Err WaveFault.TooManyRequests → IsPast engine.old.bound.requests store.old.levels (map levelled_of sides.now) }
    ensures within_bound { most_of engine.old.bound.requests < 2 ^ 64 - 1
        → OnOk result (IsNarrowAt (most_of engine.old.bound.requests) store.old.levels (map levelled_of sides.now) rank fold) }
    ensures bounded_needs_no_worker { most_of engine.old.bound.requests < 2 ^ 64 - 1 → result ≢ Err WaveFault.NoWorker }
    ensures stopped { result ≡ Err WaveFault.Stopped → engine.old.bound.stops ≡ true }
    ensures memory { count_of store.old ≤ store.old.limit → result ≡ Err WaveFault.OutOfMemory → count_of store.new ≤ store.new.limit }
{
    let _ = store.levels(); // For the proof.
    let entries = match entries_of(engine.alloc(), sides, built, rank, fold) {
        Ok(entries) => entries,
        Err(_) => return Err(WaveFault::OutOfMemory),
    };
    let answers = engine.wave_counting_all(store, entries.as_slice())?;
    let mut rest = answers.as_slice();
    for i in 0..sides.len() {
        let side = &sides[i];
        let steps = side.steps(rank, fold);
        let (ours, remaining) = rest.split_at(steps.len());
        let diagrams = &mut built[i];
        diagrams.take(steps, ours);
        rest = remaining;
    }
    Ok(())
}

/// Does the copies and all folds of one rank.
fn build_rank<R: Threads + Wait + Sync, G: Monitor>(
    engine: &mut Engine<'_, R, G>,
    store: &mut Store,
    sides: &[PlannedNetlist<'_>],
    built: &mut [NetlistDiagrams],
    rank: usize,
) -> Result<(), WaveFault>
    requires rank { 1 ≤ rank }
    requires plans { (one : PlannedNet) → Contains sides.now one → IsPlan one.net one.plan }
    requires held { IsRightAndWithinLimit store.old engine.old.held }
    requires counts_all { CountsAll store.old engine.old }
    requires right { AllRight sides.now store.old built.old rank }
    ensures sound { IsSound store.new }
    ensures adds { AddsDescribed store.old store.new (IsCounted store.old.levels (IsPlannedValue store.old.levels sides.now)) }
    ensures held { OnOk result (IsRightAndWithinLimit store.new engine.new.held) }
    ensures counts_all { OnOk result (CountsAll store.new engine.new) }
    ensures bound { engine.new.bound ≡ engine.old.bound }
    ensures next { OnOk result (AllRight sides.now store.new built.new (rank + 1)) }
    ensures within { OnOk result (IsWithinOrUnasked (AnyAsksIn sides.now store.new rank) store.old store.new) }
    ensures fault { IfErr result (IsBuildFault store.old.levels (IsPlannedValue store.old.levels sides.now) store.new) }
    ensures past { result ≡ Err WaveFault.TooManyRequests → IsPast engine.old.bound.requests store.old.levels (map levelled_of sides.now) }
    ensures within_bound { most_of engine.old.bound.requests < 2 ^ 64 - 1
        → OnOk result (AreNarrowTo (most_of engine.old.bound.requests) store.old.levels sides.now rank (greatest (map (folds_at rank) sides.now))) }
    ensures bounded_needs_no_worker { most_of engine.old.bound.requests < 2 ^ 64 - 1 → result ≢ Err WaveFault.NoWorker }
    ensures stopped { result ≡ Err WaveFault.Stopped → engine.old.bound.stops ≡ true }
    ensures memory { count_of store.old ≤ store.old.limit → result ≡ Err WaveFault.OutOfMemory → count_of store.new ≤ store.new.limit }
{
    let _ = store.levels(); // For the proof.
    copy_rank(sides, built, rank);
    for fold in 0..most_folds(sides, rank) {
        build_fold(engine, store, sides, built, rank, fold)?;
    }
    Ok(())
}

/// Returns a number as a monitor takes it, or the greatest u32 if it is greater.
fn clamp_to_u32(number: usize) -> u32
    ensures { result ≡ min number (2 ^ 32 - 1) }
{
    u32::try_from(number).unwrap_or(u32::MAX)
}

/// Does all ranks, one after the other.
fn build_ranks<R: Threads + Wait + Sync, G: Monitor>(
    engine: &mut Engine<'_, R, G>,
    store: &mut Store,
    sides: &[PlannedNetlist<'_>],
    built: &mut [NetlistDiagrams],
    monitor: &G,
) -> Result<(), WaveFault>
    requires plans { (one : PlannedNet) → Contains sides.now one → IsPlan one.net one.plan }
    requires held { IsRightAndWithinLimit store.old engine.old.held }
    requires counts_all { CountsAll store.old engine.old }
    requires right { AllRight sides.now store.old built.old 1 }
    ensures sound { IsSound store.new }
    ensures adds { AddsDescribed store.old store.new (IsCounted store.old.levels (IsPlannedValue store.old.levels sides.now)) }
    ensures built { OnOk result (AllRight sides.now store.new built.new (greatest (map ranks_of sides.now) + 1)) }
    ensures within { OnOk result (IsWithinOrUnasked (AnyAsksBelow sides.now store.new
        (greatest (map ranks_of sides.now))) store.old store.new) }
    ensures fault { IfErr result (IsBuildFault store.old.levels (IsPlannedValue store.old.levels sides.now) store.new) }
    ensures past { result ≡ Err WaveFault.TooManyRequests → IsPast engine.old.bound.requests store.old.levels (map levelled_of sides.now) }
    ensures within_bound { most_of engine.old.bound.requests < 2 ^ 64 - 1
        → OnOk result (AreNarrowBelow (most_of engine.old.bound.requests) store.old.levels sides.now (greatest (map ranks_of sides.now))) }
    ensures bounded_needs_no_worker { most_of engine.old.bound.requests < 2 ^ 64 - 1 → result ≢ Err WaveFault.NoWorker }
    ensures stopped { result ≡ Err WaveFault.Stopped → engine.old.bound.stops ≡ true }
    ensures memory { count_of store.old ≤ store.old.limit → result ≡ Err WaveFault.OutOfMemory → count_of store.new ≤ store.new.limit }
{
    let _ = store.levels(); // For the proof.
    let ranks = last_rank(sides);
    for below in 0..ranks {
        monitor.at_rank(clamp_to_u32(below + 1), clamp_to_u32(ranks), store.count());
        build_rank(engine, store, sides, built, below + 1)?;
    }
    Ok(())
}

/// Does all ranks, with a new engine.
fn build_all<R: Threads + Wait + Sync, G: Monitor>(
    crew: &Crew<'_, R, G>,
    store: &mut Store,
    sides: &[PlannedNetlist<'_>],
    built: &mut [NetlistDiagrams],
) -> Result<(), WaveFault>
    requires plans { (one : PlannedNet) → Contains sides.now one → IsPlan one.net one.plan }
    requires right { AllRight sides.now store.old built.old 1 }
    ensures sound { IsSound store.new }
    ensures adds { AddsDescribed store.old store.new (IsCounted store.old.levels (IsPlannedValue store.old.levels sides.now)) }
    ensures built { OnOk result (AllRight sides.now store.new built.new (greatest (map ranks_of sides.now) + 1)) }
    ensures within { OnOk result (IsWithinOrUnasked (AnyAsksBelow sides.now store.new
        (greatest (map ranks_of sides.now))) store.old store.new) }
    ensures fault { IfErr result (IsBuildFault store.old.levels (IsPlannedValue store.old.levels sides.now) store.new) }
    ensures past { result ≡ Err WaveFault.TooManyRequests → IsPast (G.bound crew.now.monitor.now).requests store.old.levels
        (map levelled_of sides.now) }
    ensures within_bound { most_of (G.bound crew.now.monitor.now).requests < 2 ^ 64 - 1 → OnOk result
        (AreNarrowBelow (most_of (G.bound crew.now.monitor.now).requests) store.old.levels sides.now (greatest (map ranks_of sides.now))) }
    ensures bounded_needs_no_worker { most_of (G.bound crew.now.monitor.now).requests < 2 ^ 64 - 1 → result ≢ Err WaveFault.NoWorker }
    ensures stopped { result ≡ Err WaveFault.Stopped → (G.bound crew.now.monitor.now).stops ≡ true }
    ensures memory { count_of store.old ≤ store.old.limit → result ≡ Err WaveFault.OutOfMemory → count_of store.new ≤ store.new.limit }
{
    let _ = store.levels(); // For the proof.
    let mut engine = Engine::new(crew)?;
    build_ranks(&mut engine, store, sides, built, crew.monitor)
}

/// What is there before the first rank: the netlists with their plans, and the diagrams of their inputs and registers.
#[derive(Drop)]
struct BuildStart<'a> {
    sides: Vec<PlannedNetlist<'a>>,
    built: Vec<NetlistDiagrams>,
}

/// Makes the variables, the plans, and the references that the first rank is built on.
fn begin<'a>(
    alloc: Global,
    store: &mut Store,
    circuits: &Circuits<'a>,
) -> Result<BuildStart<'a>, WaveFault>
    requires paired { let c = circuits_of circuits.now in IsPaired c.first c.second c.given c.pairing }
    requires levels { let c = circuits_of circuits.now in store.old.levels ≡ length c.pairing.names }
    ensures sound { IsSound store.new }
    ensures adds { AddsDescribed store.old store.new (IsCounted store.old.levels (IsVariable store.old.levels)) }
    ensures begun { IfOk result (λ b. IsBuildStart (circuits_of circuits.now) store.new b.sides.items b.built.items) }
    ensures within { IsStillWithin store.old store.new }
    ensures fault { IfErr result (IsBuildFault store.old.levels (IsVariable store.old.levels) store.new) }
    ensures never_no_worker { IfErr result (λ e. e ≢ WaveFault.NoWorker) }
    ensures never_too_many_requests { IfErr result (λ e. e ≢ WaveFault.TooManyRequests) }
    ensures never_stopped { IfErr result (λ e. e ≢ WaveFault.Stopped) }
{
    let variables = make_variables(alloc, store)?;
    let sides = sides_of(alloc, circuits)?;
    let built = input_diagrams(alloc, sides.as_slice(), variables.as_slice())?;
    Ok(BuildStart { sides, built })
}

/// Builds the diagrams of all signals of two netlists, and of the condition if there is one, over the variables of
/// their pairing. It makes all variables in the order of their levels; then, rank by rank, it copies the references of
/// gates with one operand, and does one wave for each fold number, for all netlists together.
///
/// An operation that an earlier wave of the build was asked for is answered at once as long as its answer is held. A
/// bound of the monitor counts all requests that a wave's operations reach, held or not; so whether it fails with
/// TooManyRequests depends only on the netlists, their pairing and the bound. Fails with NoWorker only if the monitor
/// sets no bound, and a thread could not be started; with Stopped if the run has stopped before all requests of a wave
/// were expanded; with Full if the store is past its limit, or at it and lacks a node that is needed; and with
/// OutOfMemory.
pub fn build<R: Threads + Wait + Sync, G: Monitor>(
    crew: &Crew<'_, R, G>,
    store: &mut Store,
    circuits: &Circuits<'_>,
) -> Result<CircuitDiagrams, WaveFault>
    requires paired { let c = circuits_of circuits.now in IsPaired c.first c.second c.given c.pairing }
    requires levels { let c = circuits_of circuits.now in store.old.levels ≡ length c.pairing.names }
    ensures sound { IsSound store.new }
    ensures keeps { Keeps store.old store.new }
    // Each signal of the netlists has the diagram of its function.
    ensures first { let c = circuits_of circuits.now in IfOk result (λ b. AreDiagrams c.first (first_level c.pairing) store.new b.first) }
    ensures second { let c = circuits_of circuits.now in IfOk result
        (λ b. AreDiagrams c.second (second_level c.pairing) store.new b.second) }
    ensures given { let c = circuits_of circuits.now in IfOk result
        (λ b. IfSome c.given (λ holds. AreDiagrams holds (given_level c.pairing) store.new b.given)) }
    // Each node that is added is needed, also if the build fails.
    ensures adds { let c = circuits_of circuits.now in AddsDescribed store.old store.new (IsNeeded c.first c.second c.given c.pairing) }
    // A store that is over its limit after a build is as before, and no step of a gate had to be asked for.
    ensures within { let c = circuits_of circuits.now in OnOk result
        (IsWithinOrUnasked (AnyAsks c.first c.second c.given c.pairing store.new) store.old store.new) }
    // A store without nodes gets the nodes that are needed and no others, within its limit.
    ensures need { let c = circuits_of circuits.now in count_of store.old ≡ 0
        → OnOk result (HasNeed c.first c.second c.given c.pairing store.new) }
    // Full is the fault only if the store has more nodes than its limit, or as many and lacks one that is needed.
    ensures fault { let c = circuits_of circuits.now in IfErr result
        (IsBuildFault (length c.pairing.names) (IsNeededValue c.first c.second c.given c.pairing) store.new) }
    // The fault is TooManyRequests only if one wave of the build reaches more than the monitor allows.
    ensures past { let c = circuits_of circuits.now in result ≡ Err WaveFault.TooManyRequests
        → IsPast (G.bound crew.now.monitor.now).requests (length c.pairing.names) (levelled c.first c.second c.given c.pairing) }
    // A build that was done had no wave that reaches more than the monitor allows, whatever was held.
    ensures within_bound { let c = circuits_of circuits.now in most_of (G.bound crew.now.monitor.now).requests < 2 ^ 64 - 1 → OnOk result
        (IsNarrow (most_of (G.bound crew.now.monitor.now).requests) (length c.pairing.names) (levelled c.first c.second c.given c.pairing)) }
    // With a bound, a thread that cannot be started is no cause of failure.
    ensures bounded_needs_no_worker { most_of (G.bound crew.now.monitor.now).requests < 2 ^ 64 - 1 → result ≢ Err WaveFault.NoWorker }
    // The build is stopped only if the monitor may stop a wave.
    ensures stopped { result ≡ Err WaveFault.Stopped → (G.bound crew.now.monitor.now).stops ≡ true }
    // OutOfMemory leaves a store within its limit that was within it before, since Full is reported first.
    ensures memory { count_of store.old ≤ store.old.limit → result ≡ Err WaveFault.OutOfMemory → count_of store.new ≤ store.new.limit }
{
    let begun = begin(crew.alloc, store, circuits)?;
    let BuildStart { sides, mut built } = begun;
    build_all(crew, store, sides.as_slice(), built.as_mut_slice())?;
    Ok(CircuitDiagrams { list: built })
}

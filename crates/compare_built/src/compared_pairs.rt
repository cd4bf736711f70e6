//! The pairs that a comparison compares, and their diagrams restricted to the condition.
ghost use Rattle.std.specs.Prelude.{◌≡◌, ◌≢◌, ◌++◌, ◌-◌, ◌^◌, ◌<◌, length, map, All, OnOk, IfOk, IfErr, IsSomeAnd};
ghost use Rattle.expand_work.specs.Bounds.{MayStop, most_of};
ghost use Rattle.net_bench.specs.Circuit.{circuit};
ghost use Rattle.net_order.specs.Order.{condition};
ghost use Rattle.dd_store.specs.Nodes.{IsSound};
ghost use Rattle.dd_store.specs.View.{Keeps};
ghost use Rattle.gate_plan.specs.Building.{reference_of};
ghost use Rattle.gate_plan.specs.Needing.{HasNeed};
ghost use Rattle.compare_built.specs.Check.{IsComparisonFault};
ghost use Rattle.compare_built.specs.Comparing.{AreBuilt, AreCompared, as_built, references};
ghost use Rattle.compare_built.specs.Limits.{HasAll, IsOver};
ghost use Rattle.compare_built.specs.Widths.{IsWideWhere};
ghost use Rattle.compare_built.specs.Report.{next_of, next_subject, output_subject, subjects};

use crate::fault::CheckFault;
use crate::subject::Subject;
use crate::task::Task;
use dd_store::{Ref, Store};
use expand_work::{Crew, Monitor, WaveFault};
use gate_plan::{CircuitDiagrams, conjoin};
use net_bench::netlist::{Netlist, Role, Signal};
use net_order::naming::Naming;
use net_order::pairing::Pairing;
use report_text::PairKind;
use std::alloc::{AllocError, Global};
use std::sync::Wait;
use std::thread::Threads;

/// The pairs that are compared, in the order of the report, and their diagrams: those of the first netlist's signals,
/// then those of the second's, each in the order of the pairs.
#[derive(Drop)]
pub struct ComparedPairs {
    pub subjects: Vec<Subject>,
    pub references: Vec<Ref>,
}

/// Returns the signal whose value the register takes next: its operand. It looks the register up by its role, in
/// constant time. For a signal that is no register of the netlist it returns signal 0, so that no caller has to show
/// that it is one.
fn next_state(net: &Netlist, register: Signal) -> Signal
    ensures { result ≡ next_of (circuit net.now) register }
{
    if net.count() <= register.number() as usize {
        return Signal::of(0);
    }
    match net.role(register) {
        Role::Register(place) => net.registers()[place as usize].operands.as_slice()[0],
        _ => Signal::of(0),
    }
}

/// Appends the pairs of outputs.
fn add_outputs(naming: &Naming, subjects: &mut Vec<Subject>) -> Result<(), AllocError>
    ensures { OnOk result (subjects.new.items ≡ subjects.old.items ++ map output_subject naming.now.outputs.pairs) }
{
    let pairs = naming.output_pairs();
    for i in 0..pairs.len() {
        let (first, second) = pairs[i];
        subjects.push(Subject {
            role: PairKind::Output,
            named: first,
            first,
            second,
        })?;
    }
    Ok(())
}

/// Appends, for each pair of registers, the pair of their next states, under the name of the first netlist's register.
fn add_next_states(
    one: &Netlist,
    two: &Netlist,
    naming: &Naming,
    subjects: &mut Vec<Subject>,
) -> Result<(), AllocError>
    ensures { OnOk result (subjects.new.items ≡ subjects.old.items
        ++ map (next_subject (circuit one.now) (circuit two.now)) naming.now.registers.pairs) }
{
    let pairs = naming.next_pairs();
    for i in 0..pairs.len() {
        let (first, second) = pairs[i];
        subjects.push(Subject {
            role: PairKind::NextState,
            named: first,
            first: next_state(one, first),
            second: next_state(two, second),
        })?;
    }
    Ok(())
}

/// Returns all pairs of two netlists, in the order of the report: outputs, then next states. Fails if memory is
/// refused.
pub fn subjects_of(
    alloc: Global,
    first: &Netlist,
    second: &Netlist,
    naming: &Naming,
) -> Result<Vec<Subject>, AllocError>
    ensures { IfOk result (λ v. v.items ≡ subjects (circuit first.now) (circuit second.now) naming.now) }
{
    let mut subjects = Vec::new(alloc);
    add_outputs(naming, &mut subjects)?;
    add_next_states(first, second, naming, &mut subjects)?;
    Ok(subjects)
}

/// Appends the diagram of each pair's first signal.
fn add_first(
    built: &CircuitDiagrams,
    subjects: &[Subject],
    references: &mut Vec<Ref>,
) -> Result<(), AllocError>
    requires { All (λ subject. subject.first < length built.now.first) subjects.now }
    ensures { OnOk result (references.new.items ≡ references.old.items
        ++ map (λ subject. reference_of built.now.first subject.first) subjects.now) }
{
    for i in 0..subjects.len() {
        references.push(built.first(subjects[i].first))?;
    }
    Ok(())
}

/// Appends the diagram of each pair's second signal.
fn add_second(
    built: &CircuitDiagrams,
    subjects: &[Subject],
    references: &mut Vec<Ref>,
) -> Result<(), AllocError>
    requires { All (λ subject. subject.second < length built.now.second) subjects.now }
    ensures { OnOk result (references.new.items ≡ references.old.items
        ++ map (λ subject. reference_of built.now.second subject.second) subjects.now) }
{
    for i in 0..subjects.len() {
        references.push(built.second(subjects[i].second))?;
    }
    Ok(())
}

/// Returns the diagrams of all first signals, then those of all second signals.
fn references_of(
    alloc: Global,
    built: &CircuitDiagrams,
    subjects: &[Subject],
) -> Result<Vec<Ref>, AllocError>
    requires first { All (λ subject. subject.first < length built.now.first) subjects.now }
    requires second { All (λ subject. subject.second < length built.now.second) subjects.now }
    ensures { IfOk result (λ v. v.items ≡ references built.now subjects.now) }
{
    let mut references = Vec::new(alloc);
    add_first(built, subjects, &mut references)?;
    add_second(built, subjects, &mut references)?;
    Ok(references)
}

/// Returns all pairs and their diagrams. With a condition, one wave makes the And of each diagram and the condition's,
/// so that two references are equal exactly if the functions agree wherever the condition holds (Bryant 1986). Without
/// one, the diagrams are those of the build. Fails as `gate_plan::conjoin` does, and if memory is refused.
pub fn compared_pairs_of<H: Threads + Wait + Sync, G: Monitor>(
    task: &Task<'_, H>,
    store: &mut Store,
    built: &CircuitDiagrams,
    pairing: &Pairing,
    crew: &Crew<'_, H, G>,
) -> Result<ComparedPairs, CheckFault>
    requires built { AreBuilt (circuit task.now.first.now) (circuit task.now.second.now)
        (condition task.now.given) pairing.now store.old built.now }
    ensures sound { IsSound store.new }
    ensures keeps { Keeps store.old store.new }
    ensures compared { IfOk result (λ shown. AreCompared as_built (circuit task.now.first.now) (circuit task.now.second.now)
        (condition task.now.given) pairing.now store.new shown.subjects.items shown.references.items) }
    ensures need { HasNeed (circuit task.now.first.now) (circuit task.now.second.now) (condition task.now.given) pairing.now store.old →
        OnOk result (HasAll (circuit task.now.first.now) (circuit task.now.second.now) (condition task.now.given) pairing.now store.new) }
    ensures full { HasNeed (circuit task.now.first.now) (circuit task.now.second.now) (condition task.now.given) pairing.now store.old →
        result ≡ Err (CheckFault.Wave WaveFault.Full) → IsOver (circuit task.now.first.now) (circuit task.now.second.now)
        (condition task.now.given) pairing.now store.new }
    ensures past { result ≡ Err (CheckFault.Wave WaveFault.TooManyRequests)
        → IsSomeAnd (G.bound crew.now.monitor.now).requests (λ n. IsSomeAnd
        (condition task.now.given) (λ c. IsWideWhere n (circuit task.now.first.now) (circuit task.now.second.now) c pairing.now)) }
    ensures needs_no_thread { most_of (G.bound crew.now.monitor.now).requests < 2 ^ 64 - 1 → result ≢ Err (CheckFault.Wave WaveFault.NoWorker) }
    ensures stopped { result ≡ Err (CheckFault.Wave WaveFault.Stopped) → MayStop (G.bound crew.now.monitor.now) }
    ensures err { IfErr result IsComparisonFault }
{
    let _ = store.levels(); // For the proof.
    let _ = task.first.inputs(); // For the proof.
    let _ = task.second.inputs(); // For the proof.
    let subjects = subjects_of(task.alloc, task.first, task.second, pairing.naming())?;
    let references = references_of(task.alloc, built, subjects.as_slice())?;
    let Some(given) = task.given else {
        return Ok(ComparedPairs {
            subjects,
            references,
        });
    };
    let holds = built.given(given.outputs()[0]);
    let restricted = conjoin(crew, store, references.as_slice(), holds)?;
    Ok(ComparedPairs {
        subjects,
        references: restricted,
    })
}

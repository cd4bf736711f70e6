//! Plans of netlists, and the building of the diagrams of two netlists.
ghost use Rattle.std.specs.Prelude.{◌≡◌, ◌<◌, ◌≤◌, length, None, IfOk};
ghost use Rattle.net_bench.specs.Circuit.{circuit};
ghost use Rattle.gate_plan.specs.Building.{AreDiagrams, IsPaired};
ghost use Rattle.net_order.specs.Order.{first_level, second_level};

use crate::waves::crew_of;
use dd_store::{Ref, Store};
use expand_work::{Crew, Monitor, NoMonitor, WaveFault};
use gate_plan::{CircuitDiagrams, Circuits, Plan, build};
use net_bench::netlist::{Netlist, Signal};
use net_bench::reader::parse_bench;
use net_names::order::{Match, Order};
use net_order::pairing::{Pairing, pair};
use req_table::Op;
use std::alloc::Global;
use std::process::Abort;
use std::sync::Wait;
use std::test::Fail;
use std::thread::Threads;

/// The smallest circuit of ISCAS-85, six NAND gates.
pub(crate) static C17: &str =
    "INPUT(1)\nINPUT(2)\nINPUT(3)\nINPUT(6)\nINPUT(7)\nOUTPUT(22)\nOUTPUT(23)\n10 = NAND(1, 3)\n11 = NAND(3, 6)\n16 = NAND(2, 11)\n19 = NAND(11, 7)\n22 = NAND(10, 16)\n23 = NAND(16, 19)\n";

/// The same with an error: gate 19 has the operand 6 in place of 7.
pub(crate) static C17B: &str =
    "INPUT(1)\nINPUT(2)\nINPUT(3)\nINPUT(6)\nINPUT(7)\nOUTPUT(22)\nOUTPUT(23)\n10 = NAND(1, 3)\n11 = NAND(3, 6)\n16 = NAND(2, 11)\n19 = NAND(11, 6)\n22 = NAND(10, 16)\n23 = NAND(16, 19)\n";

/// Returns the netlist of a text that is one.
pub(crate) fn read<R: Abort>(rt: &R, alloc: Global, text: &str) -> Netlist {
    parse_bench(alloc, text.as_bytes()).expect(rt, "a netlist")
}

fn signal<R: Abort>(rt: &R, netlist: &Netlist, name: &str) -> Signal
    ensures { result < length netlist.now.names }
{
    let signal = netlist.find(name.as_bytes()).expect(rt, "no such signal");
    assert!(rt; (signal.number() as usize) < netlist.count());
    signal
}

/// Checks that a rank has exactly these two steps, both by Nand: each with its output and its operands.
pub(crate) fn are_nands<R: Abort>(
    rt: &R,
    netlist: &Netlist,
    plan: &Plan,
    rank: usize,
    named: &[(&'static str, &'static str, &'static str)],
) {
    assert!(rt; 1 <= rank && rank <= plan.ranks());
    assert!(rt; plan.folds(rank) == 1);
    let steps = plan.steps(rank, 0);
    assert!(rt; steps.len() == 2 && named.len() == 2);
    for i in 0..2 {
        let step = steps[i];
        let (out, first, second) = named[i];
        assert!(rt;
            step.op == Op::Nand && step.out == signal(rt, netlist, out),
            "{out}"
        );
        assert!(rt; step.first == Some(signal(rt, netlist, first)), "{out}");
        assert!(rt; step.second == signal(rt, netlist, second), "{out}");
    }
}

#[test]
fn plan_of_c17(rt: HostRuntime) -> Result<(), Fail> {
    let netlist = read(&rt, rt.alloc(), C17);
    let plan = Plan::new(rt.alloc(), &netlist)?;
    assert!(rt; plan.ranks() == 3);
    are_nands(
        &rt,
        &netlist,
        &plan,
        1,
        &[("10", "1", "3"), ("11", "3", "6")],
    );
    are_nands(
        &rt,
        &netlist,
        &plan,
        2,
        &[("16", "2", "11"), ("19", "11", "7")],
    );
    are_nands(
        &rt,
        &netlist,
        &plan,
        3,
        &[("22", "10", "16"), ("23", "16", "19")],
    );
    Ok(())
}

/// Two netlists without a condition, and the variables that their pairing gives them.
#[derive(Clone, Copy)]
pub(crate) struct NamingModel<'a> {
    pub(crate) first: &'a Netlist,
    pub(crate) second: &'a Netlist,
    pub(crate) pairing: &'a Pairing,
}

/// Builds two netlists.
pub(crate) fn built<R: Threads + Wait + Sync, G: Monitor>(
    crew: &Crew<'_, R, G>,
    store: &mut Store,
    both: NamingModel<'_>,
) -> Result<CircuitDiagrams, WaveFault>
    requires paired { IsPaired (circuit both.first.now) (circuit both.second.now) None both.pairing.now }
    requires levels { store.old.levels ≡ length both.pairing.now.names }
    ensures first { IfOk result (λ b. AreDiagrams (circuit both.entry.first.now) (first_level both.entry.pairing.now) store.new b.first) }
    ensures second { IfOk result
        (λ b. AreDiagrams (circuit both.entry.second.now) (second_level both.entry.pairing.now) store.new b.second) }
{
    let NamingModel {
        first,
        second,
        pairing,
    } = both;
    let circuits = Circuits {
        first,
        second,
        given: None,
        pairing,
    };
    build(crew, store, &circuits)
}

/// Returns the diagrams of a signal of both netlists.
fn diagrams<R: Abort>(
    rt: &R,
    store: &Store,
    both: NamingModel<'_>,
    built: &CircuitDiagrams,
    name: &str,
) -> (Ref, Ref)
    requires first { AreDiagrams (circuit both.first.now) (first_level both.pairing.now) store.now built.now.first }
    requires second { AreDiagrams (circuit both.second.now) (second_level both.pairing.now) store.now built.now.second }
{
    let ours = signal(rt, both.first, name);
    let theirs = signal(rt, both.second, name);
    (built.first(ours), built.second(theirs))
}

/// The expected outcome of a build of two netlists: how many nodes they need, and whether their outputs 23 are equal.
#[derive(Clone, Copy)]
struct Wanted {
    need: u64,
    same: bool,
}

/// Builds two netlists in a store with exactly as many nodes as they need, and in one with a node less.
fn compare_builds<R: Abort + Threads + Wait + Sync>(
    rt: &R,
    alloc: Global,
    first: &Netlist,
    second: &Netlist,
    wanted: Wanted,
    workers: u32,
) -> Result<(), Fail>
    requires some_node { 1 ≤ wanted.need }
    requires few_nodes { wanted.need ≤ 1000 }
    requires some_worker { 1 ≤ workers }
    requires few_workers { workers ≤ 16 }
{
    let Wanted { need, same } = wanted;
    let pairing = pair(alloc, first, second, None, Match::Name, &Order::Declared)?;
    let both = NamingModel {
        first,
        second,
        pairing: &pairing,
    };
    let crew = crew_of(rt, alloc, workers, &NoMonitor);
    let levels = pairing.names().len() as u16;
    let mut store = Store::new(alloc, levels, need)?;
    let made = built(&crew, &mut store, both)?;
    assert!(rt; store.count() == need);
    let equal = diagrams(rt, &store, both, &made, "22");
    assert!(rt; equal.0 == equal.1);
    let other = diagrams(rt, &store, both, &made, "23");
    assert!(rt; (other.0 == other.1) == same);
    let mut small = Store::new(alloc, levels, need - 1)?;
    let refused = built(&crew, &mut small, both);
    assert!(rt; refused.err() == Some(WaveFault::Full));
    Ok(())
}

// The numbers of nodes are from a program that counts distinct subtables, with a subtable and its complement as one.
#[test]
fn built_netlists(rt: HostRuntime) -> Result<(), Fail> {
    let first = read(&rt, rt.alloc(), C17);
    let second = read(&rt, rt.alloc(), C17B);
    for workers in [1_u32, 2, 3, 16] {
        let workers = workers.clamp(1, 16);
        let same = Wanted {
            need: 13,
            same: true,
        };
        compare_builds(&rt, rt.alloc(), &first, &first, same, workers)?;
        let other = Wanted {
            need: 15,
            same: false,
        };
        compare_builds(&rt, rt.alloc(), &first, &second, other, workers)?;
    }
    Ok(())
}

// Rounds of merging over netlists whose inner signals are equal, and over a wrong one.
ghost use Rattle.std.specs.Prelude.{◌≡◌, All, IfOk, None};
ghost use Rattle.net_bench.specs.Circuit.{circuit};
ghost use Rattle.net_names.specs.declared.order.Match.TheVariants.{Name};
ghost use Rattle.net_names.specs.declared.order.Order.TheVariants.{Declared};
ghost use Rattle.net_order.specs.Order.{IsNaming};
ghost use Rattle.compare_built.specs.Comparing.{IsInside};

use compare_built::compared_pairs::subjects_of;
use compare_built::settings::Settings;
use compare_built::strategy::Strategy;
use compare_built::subject::Subject;
use compare_built::task::Task;
use dd_store::Watch;
use expand_work::{MergeRound, Monitor};
use inside_check::{Merging, equal_inside};
use net_bench::netlist::Netlist;
use net_bench::reader::parse_bench;
use net_names::order::Match;
use net_order::naming::{Naming, naming_of};
use report_text::{Difference, PairFilter};
use std::alloc::{AllocError, Global};
use std::sync::Wait;
use std::sync::atomic::{AtomicUsize, Ordering};
use std::test::Fail;
use std::thread::Threads;

/// An adder of one bit, and a register that takes its carry.
static XORS: &[u8] =
    b"INPUT(a)\nINPUT(b)\nINPUT(c)\nOUTPUT(s)\nOUTPUT(k)\nr = DFF(k)\nt = XOR(a, b)\ns = XOR(t, c)\nu = AND(a, b)\nv = AND(t, c)\nk = OR(u, v)\n";

/// The same, made of nine NANDs.
static NANDS: &[u8] =
    b"INPUT(a)\nINPUT(b)\nINPUT(c)\nOUTPUT(s)\nOUTPUT(k)\nr = DFF(k)\ne = NAND(a, b)\nf = NAND(a, e)\ng = NAND(b, e)\nt = NAND(f, g)\nh = NAND(t, c)\ni = NAND(t, h)\nj = NAND(c, h)\ns = NAND(i, j)\nk = NAND(e, h)\n";

/// The same with a wrong sum.
static WRONG: &[u8] =
    b"INPUT(a)\nINPUT(b)\nINPUT(c)\nOUTPUT(s)\nOUTPUT(k)\nr = DFF(k)\ne = NAND(a, b)\nf = NAND(a, e)\ng = NAND(b, e)\nt = NAND(f, g)\nh = NAND(t, c)\ni = NAND(t, h)\ns = NAND(i, h)\nk = NAND(e, h)\n";

/// A monitor that keeps what it is notified of after the last round, and counts the rounds.
#[derive(Drop)]
struct RoundMonitor {
    rounds: AtomicUsize,
    decided: AtomicUsize,
    pairs: AtomicUsize,
    gates: AtomicUsize,
}

impl RoundMonitor {
    fn new() -> RoundMonitor {
        RoundMonitor {
            rounds: AtomicUsize::new(0),
            decided: AtomicUsize::new(0),
            pairs: AtomicUsize::new(0),
            gates: AtomicUsize::new(0),
        }
    }
}

impl Watch for RoundMonitor {
    fn at_shard(&self, _shard: u8, _level: u16) {}
}

impl Monitor for RoundMonitor {
    fn at_level(&self, _worker: u32, _level: u16) {}

    fn caller_level_limit(&self, _workers: u32, _expected: usize) -> usize {
        usize::MAX
    }

    fn most_requests(&self) -> usize {
        usize::MAX
    }

    fn at_merge(&self, round: MergeRound) {
        self.rounds.fetch_add(1, Ordering::SeqCst);
        self.decided.store(round.decided, Ordering::SeqCst);
        self.pairs.store(round.pairs, Ordering::SeqCst);
        self.gates.store(round.gates, Ordering::SeqCst);
    }
}

/// The settings of a comparison by names.
fn settings_of(alloc: Global) -> Settings {
    Settings {
        matching: Match::Name,
        order: Strategy::Auto,
        picked: PairFilter::All,
        difference: Difference::Least,
        workers: 1,
        limit: 1_000,
        sizes: false,
        json: false,
        explain: Vec::new(alloc),
        assignment: None,
        vcd: false,
        causes: false,
    }
}

/// The comparison of two netlists by these settings.
fn task_of<'a, R>(
    rt: &'a R,
    alloc: Global,
    first: &'a Netlist,
    second: &'a Netlist,
    settings: &'a Settings,
) -> Task<'a, R>
    ensures first { result.first.now ≡ first.now }
    ensures second { result.second.now ≡ second.now }
    ensures given { result.given ≡ None }
    ensures settings { result.settings.now ≡ settings.now }
{
    let given = None;
    Task {
        rt,
        alloc,
        first,
        second,
        given,
        settings,
    }
}

/// All pairs of two netlists, in the order of the report.
fn subjects_in<R>(task: &Task<'_, R>, naming: &Naming) -> Result<Vec<Subject>, AllocError>
    requires { IsNaming Name (circuit task.now.first.now) (circuit task.now.second.now) None Declared naming.now }
    ensures { IfOk result (λ v. All (IsInside (circuit task.now.first.now) (circuit task.now.second.now)) v.items) }
{
    let _ = task.first.inputs(); // For the proof.
    let _ = task.second.inputs(); // For the proof.
    let subjects = subjects_of(task.alloc, task.first, task.second, naming)?;
    Ok(subjects)
}

/// What two rounds find for all pairs of two netlists, in the order of the report.
fn found<R: Threads + Wait + Sync>(
    rt: &R,
    alloc: Global,
    first: &Netlist,
    second: &Netlist,
    monitor: &RoundMonitor,
) -> Result<(Vec<bool>, Vec<bool>), Fail> {
    let settings = settings_of(alloc);
    let task = task_of(rt, alloc, first, second, &settings);
    let naming = naming_of(alloc, task.first, task.second, None, Match::Name)?;
    let subjects = subjects_in(&task, &naming)?;
    let mut merging = Merging::new(alloc);
    let once = equal_inside(
        &task,
        &naming,
        subjects.as_slice(),
        &mut merging,
        4_000,
        monitor,
    )?;
    let twice = equal_inside(
        &task,
        &naming,
        subjects.as_slice(),
        &mut merging,
        32_000,
        monitor,
    )?;
    Ok((once, twice))
}

#[test]
fn adders_of_one_bit(rt: HostRuntime) -> Result<(), Fail> {
    let alloc = rt.alloc();
    let first = parse_bench(alloc, XORS)?;
    let second = parse_bench(alloc, NANDS)?;
    let monitor = RoundMonitor::new();
    let (once, twice) = found(&rt, alloc, &first, &second, &monitor)?;
    assert!(rt; once.as_slice() == [true, true, true].as_slice());
    assert!(rt; twice.as_slice() == [true, true, true].as_slice());
    assert!(rt; monitor.rounds.load(Ordering::SeqCst) == 2);
    assert!(rt;
        monitor.decided.load(Ordering::SeqCst) == 3 && monitor.pairs.load(Ordering::SeqCst) == 3
    );
    assert!(rt; monitor.gates.load(Ordering::SeqCst) > 8);
    Ok(())
}

// The sum is wrong. The carry and the register that takes it are right.
#[test]
fn wrong_sum(rt: HostRuntime) -> Result<(), Fail> {
    let alloc = rt.alloc();
    let first = parse_bench(alloc, XORS)?;
    let second = parse_bench(alloc, WRONG)?;
    let monitor = RoundMonitor::new();
    let (once, twice) = found(&rt, alloc, &first, &second, &monitor)?;
    assert!(rt; once.as_slice() == [false, true, true].as_slice());
    assert!(rt; twice.as_slice() == [false, true, true].as_slice());
    assert!(rt; monitor.decided.load(Ordering::SeqCst) == 2);
    Ok(())
}

//! Reports of comparisons that a monitor stops.
ghost use Rattle.std.specs.Prelude.{None, true, ◌<◌, ◌≤◌};

use crate::monitoring::C17;
use check_report::{
    Candidate, CheckFault, Context, Difference, PairFilter, Settings, Strategy, check,
};
use dd_store::Watch;
use expand_work::{AttemptEnd, MergeRound, Monitor, WaveFault};
use net_names::order::Match;
use std::sync::Wait;
use std::sync::atomic::{AtomicUsize, Ordering};
use std::test::Fail;
use std::thread::Threads;
use text_device::StdDevice;

/// A monitor that stops a run once it was asked so often whether the run has stopped, or once a round of merging has
/// ended. It counts how often it was asked, how attempts ended (stopped, or because nodes or requests were too many), and
/// the pairs that rounds of merging have decided.
#[derive(Drop)]
struct StopAfter {
    asks: usize,
    stops_after_merging: bool,
    asked: AtomicUsize,
    stopped: AtomicUsize,
    limited: AtomicUsize,
    merged: AtomicUsize,
}

impl StopAfter {
    /// A monitor that stops a run once it was asked so often.
    fn new(asks: usize) -> StopAfter {
        StopAfter::of(asks, false)
    }

    /// A monitor that stops a run once a round of merging has ended.
    fn after_merging() -> StopAfter {
        StopAfter::of(1_000_000, true)
    }

    fn of(asks: usize, stops_after_merging: bool) -> StopAfter {
        StopAfter {
            asks,
            stops_after_merging,
            asked: AtomicUsize::new(0),
            stopped: AtomicUsize::new(0),
            limited: AtomicUsize::new(0),
            merged: AtomicUsize::new(0),
        }
    }
}

impl Watch for StopAfter {
    fn at_shard(&self, _shard: u8, _level: u16) {}
}

impl Monitor for StopAfter {
    ghost bound = { λ _. record { requests = None; stops = true } };

    fn at_level(&self, _worker: u32, _level: u16) {}

    fn caller_level_limit(&self, _workers: u32, _expected: usize) -> usize {
        1
    }

    fn most_requests(&self) -> usize {
        usize::MAX
    }

    fn has_stopped(&self) -> bool {
        self.asked.fetch_add(1, Ordering::SeqCst) >= self.asks
    }

    fn was_stopped(&self) -> bool {
        self.asked.load(Ordering::SeqCst) > self.asks
    }

    fn at_merge(&self, round: MergeRound) {
        self.merged.fetch_add(round.decided, Ordering::SeqCst);
        if self.stops_after_merging {
            self.asked.store(self.asks, Ordering::SeqCst);
        }
    }

    fn at_attempt(&self, _budget: u64, end: AttemptEnd) {
        match end {
            AttemptEnd::Stopped { .. } => {
                self.stopped.fetch_add(1, Ordering::SeqCst);
            }
            AttemptEnd::MoreNodes { .. } | AttemptEnd::TooManyRequests { .. } => {
                self.limited.fetch_add(1, Ordering::SeqCst);
            }
            AttemptEnd::Decided { .. } | AttemptEnd::Left { .. } => {}
        }
    }
}

/// How a run compares: its order, whether its report is JSON, and how many workers it has.
#[derive(Drop)]
struct Run {
    order: Strategy,
    json: bool,
    workers: u32,
}

/// The report of the comparison of two netlists under this monitor, or why there is none.
fn report_of<R: AllocGlobal + Threads + Wait + Sync>(
    rt: &R,
    first: &str,
    second: &str,
    run: Run,
    monitor: &StopAfter,
) -> Result<Vec<u8>, CheckFault>
    requires workers { (0 < run.workers) × (run.workers ≤ 16) }
{
    let Run {
        order,
        json,
        workers,
    } = run;
    let settings = Settings {
        matching: Match::Name,
        order,
        picked: PairFilter::All,
        difference: Difference::Least,
        workers,
        limit: 70_000,
        sizes: false,
        json,
        explain: Vec::new(rt.alloc()),
        assignment: None,
        vcd: false,
        causes: false,
    };
    let context = Context {
        rt,
        alloc: rt.alloc(),
        settings: &settings,
        monitor,
    };
    let mut first = StdDevice::new(first.as_bytes());
    let mut second = StdDevice::new(second.as_bytes());
    let mut nothing: Option<StdDevice<&[u8]>> = None;
    let mut written = Vec::new(rt.alloc());
    check(
        &context,
        &mut first,
        &mut second,
        &mut nothing,
        &mut StdDevice::new(&mut written),
    )?;
    Ok(written)
}

/// The report of the comparison of C17 with the other netlist of its functions under this monitor, or why there is none.
fn reported<R: AllocGlobal + Threads + Wait + Sync>(
    rt: &R,
    run: Run,
    monitor: &StopAfter,
) -> Result<Vec<u8>, CheckFault>
    requires workers { (0 < run.workers) × (run.workers ≤ 16) }
{
    report_of(rt, C17, OTHER_C17, run, monitor)
}

/// C17 by other gates, of the same functions.
static OTHER_C17: &str =
    "INPUT(1)\nINPUT(2)\nINPUT(3)\nINPUT(6)\nINPUT(7)\nOUTPUT(22)\nOUTPUT(23)\na = AND(1, 3)\nb = NAND(3, 6)\nc = AND(2, b)\nd = AND(b, 7)\n22 = OR(a, c)\n23 = OR(c, d)\n";

static UNDECIDED: &str =
    "UNDECIDED 22\nUNDECIDED 23\n0 equal, 0 different, 0 unmatched, 2 undecided\n";

static DECIDED: &str = "EQUAL 22\nEQUAL 23\n2 equal, 0 different, 0 unmatched\n";

/// The orders that may leave a pair undecided.
fn leaving() -> [Strategy; 3] {
    [Strategy::Auto, Strategy::Cones, Strategy::Merge]
}

// No attempt is begun: each pair is undecided.
#[test]
fn stopped_at_once(rt: HostRuntime) -> Result<(), Fail> {
    for order in leaving() {
        let monitor = StopAfter::new(0);
        let run = Run {
            order,
            json: false,
            workers: 1,
        };
        let report = reported(&rt, run, &monitor)?;
        assert!(rt; report.as_slice() == UNDECIDED.as_bytes());
        assert!(rt; monitor.was_stopped());
        assert!(rt; monitor.limited.load(Ordering::SeqCst) == 0);
    }
    Ok(())
}

// The report as JSON says that the run was stopped, if it was.
#[test]
fn stopped_as_json(rt: HostRuntime) -> Result<(), Fail> {
    for (asks, end) in [
        (0, "\"undecided\":2,\"stopped\":true}\n"),
        (usize::MAX, "\"unmatched\":0}\n"),
    ] {
        for order in leaving() {
            let run = Run {
                order,
                json: true,
                workers: 1,
            };
            let report = reported(&rt, run, &StopAfter::new(asks))?;
            assert!(rt; report.as_slice().ends_with(end.as_bytes()));
        }
    }
    Ok(())
}

// An order that is named and the best order leave no pair undecided: a run of them that is stopped has no report.
#[test]
fn stopped_without_a_report(rt: HostRuntime) -> Result<(), Fail> {
    for asks in [0, 1, 2, 3] {
        for order in [Strategy::Computed(Candidate::MsbFirst), Strategy::Best] {
            let run = Run {
                order,
                json: false,
                workers: 1,
            };
            let fault = reported(&rt, run, &StopAfter::new(asks)).err();
            assert!(rt; fault == Some(CheckFault::Wave(WaveFault::Stopped)));
        }
    }
    Ok(())
}

static FIRST_DECIDED: &str =
    "EQUAL 22\nUNDECIDED 23\n1 equal, 0 different, 0 unmatched, 1 undecided\n";

static SECOND_DECIDED: &str =
    "UNDECIDED 22\nEQUAL 23\n1 equal, 0 different, 0 unmatched, 1 undecided\n";

/// Whether each verdict of a report is either that of a run that is not stopped, or undecided.
fn is_among(report: &[u8]) -> bool {
    report == DECIDED.as_bytes()
        || report == FIRST_DECIDED.as_bytes()
        || report == SECOND_DECIDED.as_bytes()
        || report == UNDECIDED.as_bytes()
}

// Whenever a run is stopped, its verdicts are those of a run that is not stopped, and no attempt was given up for nodes or requests.
#[test]
fn stopped_at_any_time(rt: HostRuntime) -> Result<(), Fail> {
    for workers in [1, 2] {
        for asks in 1..60 {
            for order in leaving() {
                let monitor = StopAfter::new(asks);
                let run = Run {
                    order,
                    json: false,
                    workers,
                };
                let report = reported(&rt, run, &monitor)?;
                assert!(rt; is_among(report.as_slice()));
                assert!(rt; monitor.limited.load(Ordering::SeqCst) == 0);
            }
        }
    }
    Ok(())
}

// A monitor that stops nothing does not change the report.
#[test]
fn never_stopped(rt: HostRuntime) -> Result<(), Fail> {
    for order in leaving() {
        let monitor = StopAfter::new(usize::MAX);
        let run = Run {
            order,
            json: false,
            workers: 2,
        };
        let report = reported(&rt, run, &monitor)?;
        assert!(rt; report.as_slice() == DECIDED.as_bytes());
        assert!(rt; !monitor.was_stopped() && monitor.stopped.load(Ordering::SeqCst) == 0);
    }
    Ok(())
}

/// An exclusive or, and an AND that is 1 at one of a million assignments.
static RARELY_ONE: &str =
    "INPUT(a)\nINPUT(b)\nINPUT(c)\nINPUT(d)\nINPUT(e)\nINPUT(f)\nINPUT(g)\nINPUT(h)\nINPUT(i)\nINPUT(j)\nINPUT(k)\nINPUT(l)\nINPUT(m)\nINPUT(n)\nINPUT(o)\nINPUT(p)\nINPUT(q)\nINPUT(r)\nINPUT(s)\nINPUT(t)\nOUTPUT(x)\nOUTPUT(y)\nx = XOR(a, b)\nnb = NOT(b)\nnd = NOT(d)\nnf = NOT(f)\nnh = NOT(h)\nnj = NOT(j)\nnl = NOT(l)\nnn = NOT(n)\nnp = NOT(p)\nnr = NOT(r)\nnt = NOT(t)\ny = AND(a, nb, c, nd, e, nf, g, nh, i, nj, k, nl, m, nn, o, np, q, nr, s, nt)\n";

/// The same exclusive or by NANDs, and an AND that is never 1.
static NEVER_ONE: &str =
    "INPUT(a)\nINPUT(b)\nINPUT(c)\nINPUT(d)\nINPUT(e)\nINPUT(f)\nINPUT(g)\nINPUT(h)\nINPUT(i)\nINPUT(j)\nINPUT(k)\nINPUT(l)\nINPUT(m)\nINPUT(n)\nINPUT(o)\nINPUT(p)\nINPUT(q)\nINPUT(r)\nINPUT(s)\nINPUT(t)\nOUTPUT(x)\nOUTPUT(y)\nu = NAND(a, b)\nv = NAND(a, u)\nw = NAND(b, u)\nx = NAND(v, w)\nz = NOT(a)\ny = AND(a, z)\n";

static EQUAL_KEPT: &str = "EQUAL x\nUNDECIDED y\n1 equal, 0 different, 0 unmatched, 1 undecided\n";

// A pair that a round of merging has found equal stays equal if the run is stopped after that round.
#[test]
fn stopped_after_merging(rt: HostRuntime) -> Result<(), Fail> {
    let monitor = StopAfter::after_merging();
    let run = Run {
        order: Strategy::Merge,
        json: false,
        workers: 1,
    };
    let report = report_of(&rt, RARELY_ONE, NEVER_ONE, run, &monitor)?;
    assert!(rt; report.as_slice() == EQUAL_KEPT.as_bytes());
    assert!(rt; monitor.merged.load(Ordering::SeqCst) == 1);
    assert!(rt; monitor.was_stopped());
    Ok(())
}

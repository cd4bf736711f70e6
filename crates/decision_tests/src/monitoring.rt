//! Of what a monitor is notified in a comparison, in one order, in the best, and with workers.
ghost use Rattle.std.specs.Prelude.{◌<◌, ◌≤◌};

use check_report::{
    Candidate, CheckFault, Context, Difference, PairFilter, Settings, Strategy, judge,
};
use dd_store::Watch;
use expand_work::{AttemptEnd, Monitor};
use net_names::order::Match;
use std::alloc::{AllocError, Global};
use std::sync::Wait;
use std::sync::atomic::{AtomicU64, AtomicUsize, Ordering};
use std::test::Fail;
use std::thread::Threads;
use text_device::StdDevice;

/// The smallest circuit of ISCAS-85: six NAND gates.
pub(crate) static C17: &str =
    "INPUT(1)\nINPUT(2)\nINPUT(3)\nINPUT(6)\nINPUT(7)\nOUTPUT(22)\nOUTPUT(23)\n10 = NAND(1, 3)\n11 = NAND(3, 6)\n16 = NAND(2, 11)\n19 = NAND(11, 7)\n22 = NAND(10, 16)\n23 = NAND(16, 19)\n";

/// A monitor that adds up what it is notified of: how often of a rank, the numbers of these ranks and of the last
/// ranks, the nodes, the requests, the attempts that decided, those that were given up because a wave had too many
/// requests, and how often a worker came to a level. The caller's thread may have `caller_limit` requests of a level.
#[derive(Drop)]
struct CountingMonitor {
    caller_limit: usize,
    times: AtomicUsize,
    ranks: AtomicU64,
    last_ranks: AtomicU64,
    nodes: AtomicU64,
    requests: AtomicUsize,
    decided: AtomicUsize,
    wide: AtomicUsize,
    levels: AtomicUsize,
}

impl CountingMonitor {
    /// A monitor that has not been notified of anything.
    fn new(caller_limit: usize) -> CountingMonitor {
        CountingMonitor {
            caller_limit,
            times: AtomicUsize::new(0),
            ranks: AtomicU64::new(0),
            last_ranks: AtomicU64::new(0),
            nodes: AtomicU64::new(0),
            requests: AtomicUsize::new(0),
            decided: AtomicUsize::new(0),
            wide: AtomicUsize::new(0),
            levels: AtomicUsize::new(0),
        }
    }
}

impl Watch for CountingMonitor {
    fn at_shard(&self, _shard: u8, _level: u16) {}
}

impl Monitor for CountingMonitor {
    fn at_level(&self, _worker: u32, _level: u16) {
        self.levels.fetch_add(1, Ordering::SeqCst);
    }

    fn caller_level_limit(&self, _workers: u32, _expected: usize) -> usize {
        self.caller_limit
    }

    fn most_requests(&self) -> usize {
        usize::MAX
    }

    fn at_rank(&self, rank: u32, ranks: u32, nodes: u64) {
        self.times.fetch_add(1, Ordering::SeqCst);
        self.ranks.fetch_add(u64::from(rank), Ordering::SeqCst);
        self.last_ranks
            .fetch_add(u64::from(ranks), Ordering::SeqCst);
        self.nodes.fetch_add(nodes, Ordering::SeqCst);
    }

    fn at_requests(&self, requests: usize) {
        self.requests.fetch_add(requests, Ordering::SeqCst);
    }

    fn at_attempt(&self, _budget: u64, end: AttemptEnd) {
        if matches!(end, AttemptEnd::Decided { .. }) {
            self.decided.fetch_add(1, Ordering::SeqCst);
        }
        if matches!(end, AttemptEnd::TooManyRequests { .. }) {
            self.wide.fetch_add(1, Ordering::SeqCst);
        }
    }
}

/// What a monitor was notified of, added up as by `CountingMonitor`.
#[derive(Clone, Copy, Drop, Debug, PartialEq, Eq)]
struct Counts {
    times: usize,
    ranks: u64,
    last_ranks: u64,
    nodes: u64,
    requests: usize,
    decided: usize,
    wide: usize,
    levels: usize,
}

/// By how many workers a netlist is compared, and the most requests of a level before they are called in.
#[derive(Clone, Copy, Drop)]
struct WorkerSetup {
    workers: u32,
    caller_limit: usize,
}

/// By the caller's thread only.
const CALLER_ONLY: WorkerSetup = WorkerSetup {
    workers: 1,
    caller_limit: usize::MAX,
};

/// Of what a monitor is notified in the comparison of a netlist with itself, within so many nodes.
fn counts_of<R: Threads + Wait + Sync>(
    rt: &R,
    alloc: Global,
    text: &str,
    order: Strategy,
    limit: u32,
    called: WorkerSetup,
) -> Result<Counts, CheckFault>
    requires workers { (0 < called.workers) × (called.workers ≤ 16) }
{
    let settings = Settings {
        matching: Match::Name,
        order,
        picked: PairFilter::All,
        difference: Difference::Least,
        workers: called.workers,
        limit: u64::from(limit.max(1)),
        sizes: false,
        json: false,
        explain: Vec::new(alloc),
        assignment: None,
        vcd: false,
        causes: false,
    };
    let monitor = CountingMonitor::new(called.caller_limit);
    let mut first = StdDevice::new(text.as_bytes());
    let mut second = StdDevice::new(text.as_bytes());
    let mut nothing: Option<StdDevice<&[u8]>> = None;
    let context = Context {
        rt,
        alloc,
        settings: &settings,
        monitor: &monitor,
    };
    judge(&context, &mut first, &mut second, &mut nothing)?;
    Ok(Counts {
        times: monitor.times.load(Ordering::SeqCst),
        ranks: monitor.ranks.load(Ordering::SeqCst),
        last_ranks: monitor.last_ranks.load(Ordering::SeqCst),
        nodes: monitor.nodes.load(Ordering::SeqCst),
        requests: monitor.requests.load(Ordering::SeqCst),
        decided: monitor.decided.load(Ordering::SeqCst),
        wide: monitor.wide.load(Ordering::SeqCst),
        levels: monitor.levels.load(Ordering::SeqCst),
    })
}

// C17 has three ranks. The limit is above the first budget, so the only attempt of the best order is bounded by that budget.
#[test]
fn counts_of_a_bounded_attempt(rt: HostRuntime) -> Result<(), Fail> {
    let single = counts_of(
        &rt,
        rt.alloc(),
        C17,
        Strategy::Computed(Candidate::MsbFirst),
        70_000,
        CALLER_ONLY,
    )?;
    assert!(rt; single.times == 3 && single.ranks == 6 && single.last_ranks == 9);
    assert!(rt; single.nodes > 15 && single.requests > 0);
    let best = counts_of(&rt, rt.alloc(), C17, Strategy::Best, 70_000, CALLER_ONLY)?;
    assert!(rt; single.decided == 0 && single.wide == 0);
    assert!(rt;
        best == Counts {
            decided: 1,
            ..single
        }
    );
    Ok(())
}

// Workers are called into the waves of an attempt, each of which is bounded, and expand the same requests.
#[test]
fn workers_in_an_attempt(rt: HostRuntime) -> Result<(), Fail> {
    let called = WorkerSetup {
        workers: 2,
        caller_limit: 0,
    };
    let best = counts_of(&rt, rt.alloc(), C17, Strategy::Best, 70_000, CALLER_ONLY)?;
    let shared = counts_of(&rt, rt.alloc(), C17, Strategy::Best, 70_000, called)?;
    let auto = counts_of(&rt, rt.alloc(), C17, Strategy::Auto, 70_000, called)?;
    assert!(rt; best.levels == 0 && shared.levels > 0 && auto.levels > 0);
    let levels = shared.levels;
    assert!(rt; shared == Counts { levels, ..best });
    assert!(rt; auto.decided == 1 && auto.requests == best.requests);
    Ok(())
}

/// So many nodes are enough in each order that is tried.
const LIMIT: u32 = 4_000;

/// How many pairs of inputs each of the two products compares.
const COMPARED: usize = 8;

/// Appends the inputs whose names begin with these letters, one after the other, between two texts.
fn add_list(
    text: &mut String,
    alloc: Global,
    front: &str,
    letters: &[&str],
    back: &str,
) -> Result<(), AllocError> {
    text.push_str(front)?;
    for letter in letters {
        for place in 0..COMPARED {
            text.push_str(&format!(in alloc; "{letter}{place}, ")?)?;
        }
    }
    text.push_str(back)
}

/// Two products, which exclude each other, of sums of two inputs. By falling number at the end of their names the two
/// inputs are far apart, and as declared they are neighbours.
fn far_apart(alloc: Global) -> Result<String, AllocError> {
    let mut text = String::new(alloc);
    text.push_str("OUTPUT(p)\nOUTPUT(o)\nINPUT(z0)\ny = NOT(z0)\no = AND(f, g)\n")?;
    for place in 0..COMPARED {
        for letter in ["a4", "b2", "c3", "d1"] {
            text.push_str(&format!(in alloc; "INPUT({letter}{place})\n")?)?;
        }
        text.push_str(&format!(in alloc; "e{place} = OR(a4{place}, b2{place})\n")?)?;
        text.push_str(&format!(in alloc; "h{place} = OR(c3{place}, d1{place})\n")?)?;
    }
    add_list(
        &mut text,
        alloc,
        "q = XOR(",
        &["a4", "c3", "b2", "d1"],
        "z0)\n",
    )?;
    text.push_str("r = NOT(q)\ns = NOT(r)\nt = NOT(s)\np = NOT(t)\n")?;
    add_list(&mut text, alloc, "f = AND(", &["e"], "z0)\n")?;
    add_list(&mut text, alloc, "g = AND(", &["h"], "y)\n")?;
    Ok(text)
}

// In the first order that is tried the nodes are within the limit, but the last wave has more than two requests for
// each node of the limit. So this attempt is given up, and one in another order decides.
#[test]
fn requests_for_each_node(rt: HostRuntime) -> Result<(), Fail> {
    let text = far_apart(rt.alloc())?;
    let single = counts_of(
        &rt,
        rt.alloc(),
        &text,
        Strategy::Computed(Candidate::MsbFirst),
        LIMIT,
        CALLER_ONLY,
    )?;
    assert!(rt; single.requests > 2 * LIMIT as usize);
    let best = counts_of(&rt, rt.alloc(), &text, Strategy::Best, LIMIT, CALLER_ONLY)?;
    assert!(rt; best.decided == 1 && best.wide == 1);
    Ok(())
}

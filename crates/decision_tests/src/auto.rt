//! Reports in an order that was found, and what is reported if none is.
use check_report::{
    Candidate, CheckFault, Context, Difference, PairFilter, Settings, Strategy, check,
};
use expand_work::{NoMonitor, WaveFault};
use net_names::order::{Match, Order};
use std::sync::Wait;
use std::test::Fail;
use std::thread::Threads;
use text_device::StdDevice;

static CROSSED: &str =
    "INPUT(a1)\nINPUT(b2)\nINPUT(c3)\nOUTPUT(o)\nx = XOR(b2, c3, a1)\nn = NOT(c3)\no = AND(x, n)\n";

/// The same inputs, and an output that is never 1.
static NEVER: &str = "INPUT(a1)\nINPUT(b2)\nINPUT(c3)\nOUTPUT(o)\no = XOR(b2, b2)\n";

static AS_DECLARED: &str =
    "DIFFER o at a1=0 b2=1 c3=0 first=1 second=0\n0 equal, 1 different, 0 unmatched\n";

static INTERLEAVED: &str =
    "DIFFER o at b2=0 c3=0 a1=1 first=1 second=0\n0 equal, 1 different, 0 unmatched\n";

static MSB_FIRST: &str =
    "DIFFER o at c3=0 b2=0 a1=1 first=1 second=0\n0 equal, 1 different, 0 unmatched\n";

/// A pattern shows a difference, which was made small.
static NOT_THE_LEAST: &str =
    "DIFFER o at a1=0 b2=1 c3=0 first=1 second=0 (may not be the least)\n0 equal, 1 different, 0 unmatched\n";

/// The report of the two netlists within so many nodes, or why there is none.
fn reported<R: AllocGlobal + Threads + Wait + Sync>(
    rt: &R,
    order: Strategy,
    limit: u32,
) -> Result<Vec<u8>, CheckFault> {
    let settings = Settings {
        matching: Match::Name,
        order,
        picked: PairFilter::All,
        difference: Difference::Least,
        workers: 1,
        limit: u64::from(limit.max(1)),
        sizes: false,
        json: false,
        explain: Vec::new(rt.alloc()),
        assignment: None,
        vcd: false,
        causes: false,
    };
    let context = Context {
        rt,
        alloc: rt.alloc(),
        settings: &settings,
        monitor: &NoMonitor,
    };
    let mut first = StdDevice::new(CROSSED.as_bytes());
    let mut second = StdDevice::new(NEVER.as_bytes());
    let mut nothing: Option<StdDevice<&[u8]>> = None;
    let mut written = Vec::new(rt.alloc());
    check(
        &context,
        &mut first,
        &mut second,
        &mut nothing,
        &mut StdDevice::new(&mut written),
    )?;
    Ok(written)
}

// The first order that is tried is not the declared one, and the least difference in it is another assignment.
#[test]
fn found_order_and_declared_report(rt: HostRuntime) -> Result<(), Fail> {
    for (order, wanted) in [
        (Strategy::One(Order::Interleave), INTERLEAVED),
        (Strategy::Computed(Candidate::MsbFirst), MSB_FIRST),
        (Strategy::Best, MSB_FIRST),
        (Strategy::One(Order::Declared), AS_DECLARED),
        (Strategy::Auto, AS_DECLARED),
        (Strategy::Cones, AS_DECLARED),
        (Strategy::Merge, AS_DECLARED),
    ] {
        let report = reported(&rt, order, 1_000)?;
        assert!(rt; report.as_slice() == wanted.as_bytes());
    }
    Ok(())
}

// Three variables need three nodes by themselves, so no order fits within one node.
#[test]
fn no_order_is_found(rt: HostRuntime) -> Result<(), Fail> {
    assert!(rt; reported(&rt, Strategy::Best, 1).err() == Some(CheckFault::Wave(WaveFault::Full)));
    for order in [Strategy::Auto, Strategy::Cones, Strategy::Merge] {
        let report = reported(&rt, order, 1)?;
        assert!(rt; report.as_slice() == NOT_THE_LEAST.as_bytes());
    }
    Ok(())
}

//! Reports of some of the pairs.
use check_report::{
    CheckFault, Context, Difference, Name, PairFilter, PairKind, PairName, Settings, Share,
    Strategy, check,
};
use expand_work::NoMonitor;
use net_names::order::Match;
use net_names::order_file::read_order;
use std::alloc::{AllocError, Global};
use std::sync::Wait;
use std::test::Fail;
use std::thread::Threads;
use text_device::StdDevice;

/// Two outputs that the other netlist has, and one that it does not have.
static THREE: &str =
    "INPUT(a)\nINPUT(b)\nOUTPUT(x)\nOUTPUT(y)\nOUTPUT(z)\nx = AND(a, b)\ny = OR(a, x)\nz = NOT(a)\n";

/// The two outputs; the second has another function.
static TWO: &str = "INPUT(a)\nINPUT(b)\nOUTPUT(x)\nOUTPUT(y)\nx = AND(b, a)\ny = XOR(a, b)\n";

/// The second pair has three gates, and so comes before the first, which has two.
static OF_FIRST_SHARE: &str =
    "DIFFER y at a=0 b=1 first=0 second=1\nONLY FIRST z\n0 equal, 1 different, 1 unmatched, share 1 of 2\n";

static OF_LAST_SHARE: &str = "EQUAL x\n1 equal, 0 different, 0 unmatched, share 2 of 2\n";

static NAMED: &str = "EQUAL x\nONLY FIRST z\n1 equal, 0 different, 1 unmatched\n";

static ALL: &str =
    "EQUAL x\nDIFFER y at a=0 b=1 first=0 second=1\nONLY FIRST z\n1 equal, 1 different, 1 unmatched\n";

/// Each of a0 to a5 is used so often that the orders which are tried have these first, which makes the diagrams large.
static HARD: &str = "INPUT(a0)\nINPUT(a1)\nINPUT(a2)\nINPUT(a3)\nINPUT(a4)\nINPUT(a5)\n\
INPUT(b0)\nINPUT(b1)\nINPUT(b2)\nINPUT(b3)\nINPUT(b4)\nINPUT(b5)\n\
INPUT(c0)\nINPUT(c1)\nINPUT(c2)\nINPUT(c3)\nINPUT(c4)\nINPUT(c5)\nOUTPUT(o)\nOUTPUT(p)\n\
n0 = NOT(a0)\nr0 = AND(a0, n0)\nm0 = AND(a0, b0, c0)\nn1 = NOT(a1)\nr1 = AND(a1, n1)\nm1 = AND(a1, b1, c1)\n\
n2 = NOT(a2)\nr2 = AND(a2, n2)\nm2 = AND(a2, b2, c2)\nn3 = NOT(a3)\nr3 = AND(a3, n3)\nm3 = AND(a3, b3, c3)\n\
n4 = NOT(a4)\nr4 = AND(a4, n4)\nm4 = AND(a4, b4, c4)\nn5 = NOT(a5)\nr5 = AND(a5, n5)\nm5 = AND(a5, b5, c5)\n\
o = OR(m0, m1, m2, m3, m4, m5, r0, r1, r2, r3, r4, r5)\np = NOT(a0)\n";

/// All variables in an order in which the diagrams are small.
static BY_HAND: &str = "a0 b0 c0 a1 b1 c1 a2 b2 c2 a3 b3 c3 a4 b4 c4 a5 b5 c5";

/// All but the last three, between foreign names and a repeated one. The others follow as they are declared, so the
/// order is the same.
static PART_BY_HAND: &str = "z a0 b0 c0 a0 a1 b1 c1 o a2 b2 c2 a3 b3 c3 a4 b4 c4";

static DECIDED: &str = "EQUAL o\n1 equal, 0 different, 0 unmatched\n";

static LEFT: &str = "UNDECIDED o\n0 equal, 0 different, 0 unmatched, 1 undecided\n";

/// The report of the pairs that are picked, or why there is none.
fn reported<R: AllocGlobal + Threads + Wait + Sync>(
    rt: &R,
    picked: PairFilter<PairName>,
) -> Result<Vec<u8>, CheckFault> {
    let settings = Settings {
        matching: Match::Name,
        order: Strategy::Cones,
        picked,
        difference: Difference::Least,
        workers: 2,
        limit: 1_000,
        sizes: false,
        json: false,
        explain: Vec::new(rt.alloc()),
        assignment: None,
        vcd: false,
        causes: false,
    };
    report_of(rt, &settings, THREE, TWO)
}

/// The report of the pairs of two texts that the settings pick, or why there is none.
fn report_of<R: AllocGlobal + Threads + Wait + Sync>(
    rt: &R,
    settings: &Settings,
    first: &str,
    second: &str,
) -> Result<Vec<u8>, CheckFault> {
    let context = Context {
        rt,
        alloc: rt.alloc(),
        settings,
        monitor: &NoMonitor,
    };
    let mut first = StdDevice::new(first.as_bytes());
    let mut second = StdDevice::new(second.as_bytes());
    let mut nothing: Option<StdDevice<&[u8]>> = None;
    let mut written = Vec::new(rt.alloc());
    check(
        &context,
        &mut first,
        &mut second,
        &mut nothing,
        &mut StdDevice::new(&mut written),
    )?;
    Ok(written)
}

/// The report of one output, which is tried in the order of a list first.
fn reported_by_list<R: AllocGlobal + Threads + Wait + Sync>(
    rt: &R,
    list: &str,
    limit: u32,
) -> Result<Vec<u8>, CheckFault> {
    let mut file = StdDevice::new(list.as_bytes());
    let names = read_order(rt.alloc(), &mut file)?;
    let picked = both(rt.alloc(), "o", "o")?;
    let settings = Settings {
        matching: Match::Name,
        order: Strategy::ConesByList(names),
        picked,
        difference: Difference::Least,
        workers: 2,
        limit: u64::from(limit.max(1)),
        sizes: false,
        json: false,
        explain: Vec::new(rt.alloc()),
        assignment: None,
        vcd: false,
        causes: false,
    };
    report_of(rt, &settings, HARD, HARD)
}

/// A pattern of outputs and registers.
fn pattern(alloc: Global, name: &str) -> Result<PairName, AllocError> {
    let name = Name::copied(alloc, name.as_bytes())?;
    Ok(PairName {
        role: PairKind::Output,
        name,
    })
}

/// Two patterns.
fn both(alloc: Global, first: &str, second: &str) -> Result<PairFilter<PairName>, AllocError> {
    let mut patterns = Vec::new(alloc);
    patterns.push(pattern(alloc, first)?)?;
    patterns.push(pattern(alloc, second)?)?;
    Ok(PairFilter::Only(patterns))
}

/// A pattern of registers.
fn registers(alloc: Global, name: &str) -> Result<PairFilter<PairName>, AllocError> {
    let mut patterns = Vec::new(alloc);
    patterns.push(PairName {
        role: PairKind::NextState,
        name: Name::copied(alloc, name.as_bytes())?,
    })?;
    Ok(PairFilter::Only(patterns))
}

#[test]
fn pairs_by_name(rt: HostRuntime) -> Result<(), Fail> {
    let report = reported(&rt, both(rt.alloc(), "z", "x")?)?;
    assert!(rt; report.as_slice() == NAMED.as_bytes());
    let unknown = reported(&rt, both(rt.alloc(), "x", "a")?);
    assert!(rt; unknown.err() == Some(CheckFault::Only));
    Ok(())
}

#[test]
fn pairs_by_pattern(rt: HostRuntime) -> Result<(), Fail> {
    let report = reported(&rt, both(rt.alloc(), "*", "z*")?)?;
    assert!(rt; report.as_slice() == ALL.as_bytes());
    let unknown = reported(&rt, both(rt.alloc(), "*", "z*z")?);
    assert!(rt; unknown.err() == Some(CheckFault::Only));
    let no_register = reported(&rt, registers(rt.alloc(), "*")?);
    assert!(rt; no_register.err() == Some(CheckFault::Only));
    Ok(())
}

#[test]
fn pairs_in_an_order_by_hand(rt: HostRuntime) -> Result<(), Fail> {
    for (list, limit, wanted) in [
        ("", 600, LEFT),
        (BY_HAND, 600, DECIDED),
        (PART_BY_HAND, 600, DECIDED),
        (BY_HAND, 60, LEFT),
        ("", 4_000, DECIDED),
    ] {
        let report = reported_by_list(&rt, list, limit)?;
        assert!(rt; report.as_slice() == wanted.as_bytes());
    }
    Ok(())
}

#[test]
fn pairs_by_share(rt: HostRuntime) -> Result<(), Fail> {
    for (number, wanted) in [(1, OF_FIRST_SHARE), (2, OF_LAST_SHARE)] {
        let report = reported(&rt, PairFilter::Share(Share { number, of: 2 }))?;
        assert!(rt; report.as_slice() == wanted.as_bytes());
    }
    Ok(())
}

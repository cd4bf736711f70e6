//! Pairs whose verdict is known before they are judged, by patterns or since they are equal inside, and pairs that remain.
use check_report::{CheckFault, Context, Difference, PairFilter, Settings, Strategy, check};
use expand_work::NoMonitor;
use net_names::order::Match;
use std::sync::Wait;
use std::test::Fail;
use std::thread::Threads;
use text_device::StdDevice;

/// Which netlists are compared, and how.
#[derive(Drop)]
struct Comparison {
    first: &'static str,
    second: &'static str,
    given: Option<&'static str>,
    order: Strategy,
    difference: Difference,
    limit: u32,
}

/// The report of a comparison, or why there is none.
fn reported<R: AllocGlobal + Threads + Wait + Sync>(
    rt: &R,
    compared: Comparison,
) -> Result<Vec<u8>, CheckFault> {
    let Comparison {
        first,
        second,
        given,
        order,
        difference,
        limit,
    } = compared;
    let settings = Settings {
        matching: Match::Name,
        order,
        picked: PairFilter::All,
        difference,
        workers: 2,
        limit: u64::from(limit.max(1)),
        sizes: false,
        json: false,
        explain: Vec::new(rt.alloc()),
        assignment: None,
        vcd: false,
        causes: false,
    };
    let context = Context {
        rt,
        alloc: rt.alloc(),
        settings: &settings,
        monitor: &NoMonitor,
    };
    let mut first = StdDevice::new(first.as_bytes());
    let mut second = StdDevice::new(second.as_bytes());
    let mut given = match given {
        Some(text) => Some(StdDevice::new(text.as_bytes())),
        None => None,
    };
    let mut written = Vec::new(rt.alloc());
    check(
        &context,
        &mut first,
        &mut second,
        &mut given,
        &mut StdDevice::new(&mut written),
    )?;
    Ok(written)
}

/// A sum of three operands, and another in which other two come first.
static SUM: &str = "INPUT(a)\nINPUT(b)\nINPUT(c)\nOUTPUT(o)\nt = XOR(a, b)\no = XOR(t, c)\n";

static OTHER_SUM: &str = "INPUT(a)\nINPUT(b)\nINPUT(c)\nOUTPUT(o)\nt = XOR(b, c)\no = XOR(a, t)\n";

/// The complement of the sum.
static NO_SUM: &str = "INPUT(a)\nINPUT(b)\nINPUT(c)\nOUTPUT(o)\nt = XOR(b, c)\no = XNOR(a, t)\n";

/// A function that is 1 at one assignment of 24 variables, which is no pattern.
static RARE: &str =
    "INPUT(a)\nINPUT(b)\nINPUT(c)\nINPUT(d)\nINPUT(e)\nINPUT(f)\nINPUT(g)\nINPUT(h)\nINPUT(i)\nINPUT(j)\nINPUT(k)\nINPUT(l)\nINPUT(m)\nINPUT(n)\nINPUT(p)\nINPUT(q)\nINPUT(r)\nINPUT(s)\nINPUT(t)\nINPUT(u)\nINPUT(v)\nINPUT(w)\nINPUT(x)\nINPUT(y)\nOUTPUT(o)\nones = AND(a, c, d, g, h, i, m, q, r, t, w, x)\nzeros = NOR(b, e, f, j, k, l, n, p, s, u, v, y)\no = AND(ones, zeros)\n";

static NEVER: &str =
    "INPUT(a)\nINPUT(b)\nINPUT(c)\nINPUT(d)\nINPUT(e)\nINPUT(f)\nINPUT(g)\nINPUT(h)\nINPUT(i)\nINPUT(j)\nINPUT(k)\nINPUT(l)\nINPUT(m)\nINPUT(n)\nINPUT(p)\nINPUT(q)\nINPUT(r)\nINPUT(s)\nINPUT(t)\nINPUT(u)\nINPUT(v)\nINPUT(w)\nINPUT(x)\nINPUT(y)\nOUTPUT(o)\nones = AND(a, b)\nzeros = NOT(a)\no = AND(ones, zeros)\n";

/// The condition that a is 0.
static LOW: &str = "INPUT(a)\nOUTPUT(holds)\nholds = NOT(a)\n";

static EQUAL: &str = "EQUAL o\n1 equal, 0 different, 0 unmatched\n";

static UNDECIDED: &str = "UNDECIDED o\n0 equal, 0 different, 0 unmatched, 1 undecided\n";

/// Whether a report has one line, of a difference that may not be the least.
fn is_of_a_difference(report: &[u8]) -> bool {
    match std::str::from_utf8(report) {
        Ok(text) => {
            text.starts_with("DIFFER o at a=0 b=0 c=0 first=0 second=1 (may not be the least)\n")
                && text.ends_with("\n0 equal, 1 different, 0 unmatched\n")
        }
        Err(_) => false,
    }
}

// Merging decides what no attempt does within one node.
#[test]
fn equal_inside(rt: HostRuntime) -> Result<(), Fail> {
    for (order, limit, wanted) in [
        (Strategy::Auto, 1, EQUAL),
        (Strategy::Merge, 1, EQUAL),
        (Strategy::Cones, 1, UNDECIDED),
        (Strategy::Auto, 1_000, EQUAL),
        (Strategy::Merge, 1_000, EQUAL),
        (Strategy::Cones, 1_000, EQUAL),
    ] {
        let report = reported(
            &rt,
            Comparison {
                first: SUM,
                second: OTHER_SUM,
                given: None,
                order,
                difference: Difference::Least,
                limit,
            },
        )?;
        assert!(rt; report.as_slice() == wanted.as_bytes());
    }
    Ok(())
}

// If any difference is asked for, one that a pattern shows is enough; and within one node it is all that is known.
#[test]
fn differences_of_patterns(rt: HostRuntime) -> Result<(), Fail> {
    for (order, difference, limit, is_least) in [
        (Strategy::Auto, Difference::Least, 1_000, true),
        (Strategy::Cones, Difference::Least, 1_000, true),
        (Strategy::Merge, Difference::Least, 1_000, true),
        (Strategy::Auto, Difference::Least, 1, false),
        (Strategy::Merge, Difference::Least, 1, false),
        (Strategy::Auto, Difference::AnyOne, 1_000, false),
        (Strategy::Cones, Difference::AnyOne, 1_000, false),
        (Strategy::Merge, Difference::AnyOne, 1_000, false),
    ] {
        let report = reported(
            &rt,
            Comparison {
                first: SUM,
                second: NO_SUM,
                given: None,
                order,
                difference,
                limit,
            },
        )?;
        assert!(rt; is_of_a_difference(report.as_slice()) != is_least);
    }
    Ok(())
}

// A difference that no pattern shows is found as the least, and within one node not at all.
#[test]
fn differences_of_no_pattern(rt: HostRuntime) -> Result<(), Fail> {
    let least =
        "DIFFER o at a=1 b=0 c=1 d=1 e=0 f=0 g=1 h=1 i=1 j=0 k=0 l=0 m=1 n=0 p=0 q=1 r=1 s=0 t=1 u=0 v=0 w=1 x=1 y=0 first=1 second=0\n0 equal, 1 different, 0 unmatched\n";
    for (order, difference, limit, wanted) in [
        (Strategy::Auto, Difference::AnyOne, 1_000, least),
        (Strategy::Cones, Difference::AnyOne, 1_000, least),
        (Strategy::Auto, Difference::Least, 1_000, least),
        (Strategy::Auto, Difference::AnyOne, 1, UNDECIDED),
        (Strategy::Auto, Difference::Least, 1, UNDECIDED),
        (Strategy::Merge, Difference::Least, 1, UNDECIDED),
    ] {
        let report = reported(
            &rt,
            Comparison {
                first: RARE,
                second: NEVER,
                given: None,
                order,
                difference,
                limit,
            },
        )?;
        assert!(rt; report.as_slice() == wanted.as_bytes());
    }
    Ok(())
}

// No difference counts if the condition is 0 there; and what is equal everywhere is equal under any condition.
#[test]
fn pairs_under_a_condition(rt: HostRuntime) -> Result<(), Fail> {
    for (first, second, order, limit, wanted) in [
        (SUM, OTHER_SUM, Strategy::Auto, 1, EQUAL),
        (SUM, OTHER_SUM, Strategy::Merge, 1, EQUAL),
        (RARE, NEVER, Strategy::Auto, 1_000, EQUAL),
        (RARE, NEVER, Strategy::Cones, 1_000, EQUAL),
        (RARE, NEVER, Strategy::Merge, 1, UNDECIDED),
    ] {
        let report = reported(
            &rt,
            Comparison {
                first,
                second,
                given: Some(LOW),
                order,
                difference: Difference::AnyOne,
                limit,
            },
        )?;
        assert!(rt; report.as_slice() == wanted.as_bytes());
    }
    Ok(())
}

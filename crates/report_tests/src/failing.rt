//! Comparisons over devices that fail at each place.
use crate::devices::{BoundedWriter, ByteReader, End, Endless, byte_reader, new_writer};
use check_report::{CheckFault, Context, Difference, PairFilter, Settings, Strategy, check};
use expand_work::{Monitor, NoMonitor};
use net_bench::fault::BenchFault;
use net_names::order::{Match, Order};
use std::sync::Wait;
use std::test::Fail;
use std::thread::Threads;
use text_device::Source;

/// The smallest circuit of ISCAS-85: six NAND gates.
pub(crate) static C17: &str =
    "INPUT(1)\nINPUT(2)\nINPUT(3)\nINPUT(6)\nINPUT(7)\nOUTPUT(22)\nOUTPUT(23)\n10 = NAND(1, 3)\n11 = NAND(3, 6)\n16 = NAND(2, 11)\n19 = NAND(11, 7)\n22 = NAND(10, 16)\n23 = NAND(16, 19)\n";

/// C17 with gate 19 reading 6 instead of 7.
pub(crate) static C17B: &str =
    "INPUT(1)\nINPUT(2)\nINPUT(3)\nINPUT(6)\nINPUT(7)\nOUTPUT(22)\nOUTPUT(23)\n10 = NAND(1, 3)\n11 = NAND(3, 6)\n16 = NAND(2, 11)\n19 = NAND(11, 6)\n22 = NAND(10, 16)\n23 = NAND(16, 19)\n";

/// The report of these two.
pub(crate) static REPORT: &str =
    "EQUAL 22\nDIFFER 23 at 1=0 2=0 3=0 6=0 7=1 first=1 second=0\n1 equal, 1 different, 0 unmatched\n";

/// A condition that is 1 unless the first and the second input are both 1.
static NOT_BOTH: &str = "INPUT(1)\nINPUT(2)\nOUTPUT(c)\nc = NAND(1, 2)\n";

/// More reads, or bytes, than any text here needs.
pub(crate) const AMPLE: usize = 1_000;

/// The fault of a comparison by name, in declared order, with two workers.
pub(crate) fn checked<R: AllocGlobal + Threads + Wait + Sync, R1: Source, R2: Source, G: Monitor>(
    rt: &R,
    first: &mut R1,
    second: &mut R2,
    given: &mut Option<ByteReader>,
    monitor: &G,
    out: &mut BoundedWriter,
) -> Option<CheckFault> {
    let settings = Settings {
        matching: Match::Name,
        order: Strategy::One(Order::Declared),
        picked: PairFilter::All,
        difference: Difference::Least,
        workers: 2,
        limit: 67_108_864,
        sizes: false,
        json: false,
        explain: Vec::new(rt.alloc()),
        assignment: None,
        vcd: false,
        causes: false,
    };
    let context = Context {
        rt,
        alloc: rt.alloc(),
        settings: &settings,
        monitor,
    };
    check(&context, first, second, given, out).err()
}

/// The fault of a comparison of two texts without a condition.
fn fault_of<R: AllocGlobal + Threads + Wait + Sync, R1: Source, R2: Source>(
    rt: &R,
    first: &mut R1,
    second: &mut R2,
    out: &mut BoundedWriter,
) -> Option<CheckFault> {
    checked(rt, first, second, &mut None, &NoMonitor, out)
}

/// A reader of the text that never fails.
pub(crate) fn good_reader(text: &'static str) -> ByteReader {
    byte_reader(text, AMPLE)
}

// A text takes as many reads as it has bytes, and one more that reports its end.
#[test]
fn failing_readers(rt: HostRuntime) -> Result<(), Fail> {
    let mut out = new_writer(rt.alloc(), AMPLE, End::Fails, true);
    for reads in 0..C17.len() + 1 {
        let first = fault_of(
            &rt,
            &mut byte_reader(C17, reads),
            &mut good_reader(C17B),
            &mut out,
        );
        assert!(rt;
            first == Some(CheckFault::First(BenchFault::Read)),
            "{reads}"
        );
        let second = fault_of(
            &rt,
            &mut good_reader(C17),
            &mut byte_reader(C17B, reads),
            &mut out,
        );
        assert!(rt;
            second == Some(CheckFault::Second(BenchFault::Read)),
            "{reads}"
        );
    }
    assert!(rt; out.written.is_empty());
    assert!(rt; fault_of(&rt, &mut good_reader(C17), &mut good_reader(C17B), &mut out).is_none());
    assert!(rt; out.written.as_slice() == REPORT.as_bytes());
    Ok(())
}

/// The fault of a comparison with a condition that fails after so many reads.
fn fault_given<R: AllocGlobal + Threads + Wait + Sync>(
    rt: &R,
    reads: usize,
    out: &mut BoundedWriter,
) -> Option<CheckFault> {
    let mut given = Some(byte_reader(NOT_BOTH, reads));
    checked(
        rt,
        &mut good_reader(C17),
        &mut good_reader(C17B),
        &mut given,
        &NoMonitor,
        out,
    )
}

#[test]
fn failing_condition(rt: HostRuntime) -> Result<(), Fail> {
    let mut out = new_writer(rt.alloc(), AMPLE, End::Fails, true);
    for reads in 0..NOT_BOTH.len() + 1 {
        let fault = fault_given(&rt, reads, &mut out);
        assert!(rt;
            fault == Some(CheckFault::Given(BenchFault::Read)),
            "{reads}"
        );
    }
    assert!(rt; out.written.is_empty());
    assert!(rt; fault_given(&rt, AMPLE, &mut out).is_none());
    assert!(rt; out.written.as_slice() == REPORT.as_bytes());
    Ok(())
}

#[test]
fn endless_readers(rt: HostRuntime) -> Result<(), Fail> {
    let mut out = new_writer(rt.alloc(), AMPLE, End::Fails, true);
    let first = fault_of(&rt, &mut Endless, &mut good_reader("x"), &mut out);
    assert!(rt; first == Some(CheckFault::First(BenchFault::TooLong)));
    let second = fault_of(&rt, &mut good_reader(C17), &mut Endless, &mut out);
    assert!(rt; second == Some(CheckFault::Second(BenchFault::TooLong)));
    assert!(rt; out.written.is_empty());
    Ok(())
}

// A writer fails, or takes nothing, after each front part of the report.
#[test]
fn failing_writers(rt: HostRuntime) -> Result<(), Fail> {
    for capacity in 0..REPORT.len() {
        for end in [End::Fails, End::TakesNone] {
            let mut out = new_writer(rt.alloc(), capacity, end, true);
            let fault = fault_of(&rt, &mut good_reader(C17), &mut good_reader(C17B), &mut out);
            assert!(rt; fault == Some(CheckFault::Write), "{capacity}");
            assert!(rt;
                out.written.as_slice() == &REPORT.as_bytes()[..capacity],
                "{capacity}"
            );
        }
    }
    Ok(())
}

#[test]
fn failing_flush(rt: HostRuntime) -> Result<(), Fail> {
    let mut out = new_writer(rt.alloc(), AMPLE, End::Fails, false);
    let fault = fault_of(&rt, &mut good_reader(C17), &mut good_reader(C17B), &mut out);
    assert!(rt; fault == Some(CheckFault::Write));
    assert!(rt; out.written.as_slice() == REPORT.as_bytes());
    Ok(())
}

//! Threads that are at the same place at the same time while a netlist is compared with itself.
use crate::devices::{End, new_writer};
use crate::failing::{AMPLE, C17, C17B, REPORT, checked, good_reader};
use dd_store::Watch;
use expand_work::Monitor;
use std::sync::atomic::{AtomicBool, Ordering};
use std::test::Fail;

/// A meeting of two threads, each of which waits at its first arrival until the other has arrived.
#[derive(Drop)]
struct Rendezvous {
    arrived: [AtomicBool; 2],
    timed_out: AtomicBool,
}

impl Rendezvous {
    fn new() -> Rendezvous {
        Rendezvous {
            arrived: [AtomicBool::new(false), AtomicBool::new(false)],
            timed_out: AtomicBool::new(false),
        }
    }

    /// The first or the last of the two arrives, and waits until the other has, but only for so many turns.
    fn arrive(&self, is_last: bool) {
        let [first, last] = &self.arrived;
        let (own, other) = if is_last {
            (last, first)
        } else {
            (first, last)
        };
        if own.swap(true, Ordering::SeqCst) {
            return;
        }
        for _ in 0..50_000_000 {
            if other.load(Ordering::SeqCst) {
                return;
            }
        }
        self.timed_out.store(true, Ordering::SeqCst);
    }

    /// Whether both arrived, and neither waited in vain.
    fn both_arrived(&self) -> bool {
        let [first, last] = &self.arrived;
        first.load(Ordering::SeqCst)
            && last.load(Ordering::SeqCst)
            && !self.timed_out.load(Ordering::SeqCst)
    }
}

/// The workers 0 and 1 meet at level 0.
#[derive(Drop)]
struct AtLevel(Rendezvous);

impl Watch for AtLevel {
    fn at_shard(&self, _shard: u8, _level: u16) {}
}

impl Monitor for AtLevel {
    fn at_level(&self, worker: u32, level: u16) {
        if level == 0 && worker <= 1 {
            self.0.arrive(worker == 1);
        }
    }

    fn most_requests(&self) -> usize {
        usize::MAX
    }
}

/// The threads of the shards 0 and 15 meet.
#[derive(Drop)]
struct AtShards(Rendezvous);

impl Watch for AtShards {
    fn at_shard(&self, shard: u8, _level: u16) {
        if shard == 0 || shard == 15 {
            self.0.arrive(shard == 15);
        }
    }
}

impl Monitor for AtShards {
    fn at_level(&self, _worker: u32, _level: u16) {}

    fn most_requests(&self) -> usize {
        usize::MAX
    }
}

/// The variables of each pair are far apart, which makes the diagram large.
static PAIRS15: &str =
    "INPUT(x1)\nINPUT(x2)\nINPUT(x3)\nINPUT(x4)\nINPUT(x5)\nINPUT(x6)\nINPUT(x7)\nINPUT(x8)\nINPUT(x9)\nINPUT(x10)\nINPUT(x11)\nINPUT(x12)\nINPUT(x13)\nINPUT(x14)\nINPUT(x15)\nINPUT(y1)\nINPUT(y2)\nINPUT(y3)\nINPUT(y4)\nINPUT(y5)\nINPUT(y6)\nINPUT(y7)\nINPUT(y8)\nINPUT(y9)\nINPUT(y10)\nINPUT(y11)\nINPUT(y12)\nINPUT(y13)\nINPUT(y14)\nINPUT(y15)\nOUTPUT(o)\na1 = AND(x1, y1)\na2 = AND(x2, y2)\na3 = AND(x3, y3)\na4 = AND(x4, y4)\na5 = AND(x5, y5)\na6 = AND(x6, y6)\na7 = AND(x7, y7)\na8 = AND(x8, y8)\na9 = AND(x9, y9)\na10 = AND(x10, y10)\na11 = AND(x11, y11)\na12 = AND(x12, y12)\na13 = AND(x13, y13)\na14 = AND(x14, y14)\na15 = AND(x15, y15)\no = OR(a1, a2, a3, a4, a5, a6, a7, a8, a9, a10, a11, a12, a13, a14, a15)\n";

#[test]
fn two_at_a_level(rt: HostRuntime) -> Result<(), Fail> {
    let monitor = AtLevel(Rendezvous::new());
    let mut out = new_writer(rt.alloc(), AMPLE, End::Fails, true);
    let fault = checked(
        &rt,
        &mut good_reader(C17),
        &mut good_reader(C17B),
        &mut None,
        &monitor,
        &mut out,
    );
    assert!(rt; fault.is_none() && out.written.as_slice() == REPORT.as_bytes());
    assert!(rt; monitor.0.both_arrived());
    Ok(())
}

// A level of this netlist has so many requests that threads share its shards.
#[test]
fn two_at_shards(rt: HostRuntime) -> Result<(), Fail> {
    let monitor = AtShards(Rendezvous::new());
    let mut out = new_writer(rt.alloc(), AMPLE, End::Fails, true);
    let (mut first, mut second) = (good_reader(PAIRS15), good_reader(PAIRS15));
    let fault = checked(&rt, &mut first, &mut second, &mut None, &monitor, &mut out);
    let equal = "EQUAL o\n1 equal, 0 different, 0 unmatched\n";
    assert!(rt; fault.is_none() && out.written.as_slice() == equal.as_bytes());
    assert!(rt; monitor.0.both_arrived());
    Ok(())
}

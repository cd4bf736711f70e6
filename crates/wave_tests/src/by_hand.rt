//! The wave of rank 2 of C17 and its wrong copy, which docs/ARCHITECTURE.md works by hand: the rows
//! of the page's two tables are what this trace writes.
ghost use Rattle.std.specs.Prelude.{◌≡◌, ◌<◌, length, All};
ghost use Rattle.dd_store.specs.View.{Has};
ghost use Rattle.req_table.specs.Keys.{IsKey};

use crate::plans::{C17, C17B, are_nands, read};
use crate::waves::{How, Step, Way, known_at, request, run, start};
use dd_store::{Ref, Store};
use expand_work::NoMonitor;
use gate_plan::Plan;
use net_names::order::{Match, Order};
use net_order::pairing::pair;
use req_table::requests::owner;
use req_table::{Child, Key, Op, Record};
use std::alloc::{AllocError, Global};
use std::process::Abort;
use std::test::Fail;
use wave_core::Records;
use wave_doors::expand_all;

/// The inputs by level.
const INPUTS: [&str; 5] = ["1", "2", "3", "6", "7"];

/// The gates 10 and 11 of both netlists. Operands are places in the list of known references: the constants, the inputs
/// by level, and the answers so far.
const RANK_ONE: [Step; 4] = [
    (Op::Nand, 2, 4),
    (Op::Nand, 4, 5),
    (Op::Nand, 2, 4),
    (Op::Nand, 4, 5),
];

/// The gates 16 and 19 of both netlists.
const RANK_TWO: [Step; 4] = [
    (Op::Nand, 3, 8),
    (Op::Nand, 8, 6),
    (Op::Nand, 3, 10),
    (Op::Nand, 10, 5),
];

/// Places in the list of known references, and the names of the signals there.
const NAMES: [(usize, &str); 7] = [
    (0, "False"),
    (2, "1"),
    (3, "2"),
    (4, "3"),
    (5, "6"),
    (6, "7"),
    (8, "11"),
];

/// The rows of the way down: level, request, child for 0, child for 1.
static DOWN: &str = "| 1 | AND(2, 11) | False | 11 |
| 2 | AND(11, 7) | 7 | AND(¬6, 7) |
| 2 | AND(11, 6) | 6 | False |
| 3 | AND(¬6, 7) | 7 | False |
";

/// The rows of the way up: level, request, and the children of the node whose complement is the request's diagram.
static UP: &str = "| 3 | AND(¬6, 7) | ¬7 | ¬False |
| 2 | AND(11, 7) | ¬7 | ¬AND(¬6, 7) |
| 2 | AND(11, 6) | ¬6 | ¬False |
| 1 | AND(2, 11) | ¬False | ¬11 |
";

/// The rows that were written, the names of references in them, and the diagrams of the requests so far.
#[derive(Drop)]
struct Trace {
    rows: String,
    named: Vec<(Ref, String)>,
    found: Vec<(Key, Ref)>,
}

impl Trace {
    /// Returns a trace without rows, in which the constants, the inputs and gate 11 have names.
    fn new(alloc: Global, known: &[Ref]) -> Result<Trace, AllocError> {
        let mut named = Vec::new(alloc);
        for (place, name) in NAMES {
            if let Some(reference) = known.get(place) {
                named.push((*reference, String::from_str(alloc, name)?))?;
            }
        }
        Ok(Trace {
            rows: String::new(alloc),
            named,
            found: Vec::new(alloc),
        })
    }

    /// Gives the diagram of AND(¬6, 7) its name. It is found by its children.
    fn name_inner(
        &mut self,
        rt: &impl Abort,
        alloc: Global,
        store: &Store,
        seven: Ref,
    ) -> Result<(), AllocError>
        requires { 3 < store.now.levels }
    {
        let inner = store.find(3, seven, Ref::FALSE).expect(rt, "no such node");
        let name = String::from_str(alloc, "AND(¬6, 7)")?;
        self.named.push((inner, name))?;
        Ok(())
    }

    /// Writes the name of a reference, or of its complement after a ¬.
    fn write_name(&mut self, reference: Ref) -> Result<(), AllocError> {
        for (known, name) in self.named.as_slice() {
            if *known == reference {
                return self.rows.push_str(name.as_str());
            }
            if known.negate() == reference {
                self.rows.push_str("¬")?;
                return self.rows.push_str(name.as_str());
            }
        }
        self.rows.push_str("?")
    }

    /// Writes a request, which is by And.
    fn write_request(&mut self, key: Key) -> Result<(), AllocError> {
        self.rows.push_str("AND(")?;
        self.write_name(key.f())?;
        self.rows.push_str(", ")?;
        self.write_name(key.g())?;
        self.rows.push_str(")")
    }

    /// Writes a child: its answer, or its request.
    fn write_child(&mut self, child: Child) -> Result<(), AllocError> {
        match child {
            Child::Done(answer) => self.write_name(answer),
            Child::Ask { key, .. } => self.write_request(key),
        }
    }

    /// Writes the row of a request on the way down.
    fn write_down(&mut self, level: u16, row: Record) -> Result<(), AllocError> {
        write!(self.rows, "| {level} | ")?;
        self.write_request(row.key)?;
        self.rows.push_str(" | ")?;
        self.write_child(row.low)?;
        self.rows.push_str(" | ")?;
        self.write_child(row.high)?;
        self.rows.push_str(" |\n")
    }

    /// Returns the diagram of a child, by those of the requests so far.
    fn diagram_of(&self, child: Child) -> Option<Ref> {
        match child {
            Child::Done(answer) => Some(answer),
            Child::Ask {
                key,
                complement,
                ..
            } => {
                for (other, answer) in self.found.as_slice() {
                    if *other == key {
                        return Some(answer.complement_if(complement));
                    }
                }
                None
            }
        }
    }

    /// Writes the row of a request on the way up. The store has the node whose complement is the request's diagram.
    fn write_up(
        &mut self,
        rt: &impl Abort,
        store: &Store,
        level: u16,
        row: Record,
    ) -> Result<(), AllocError>
        requires { level < store.now.levels }
    {
        let low = self.diagram_of(row.low).expect(rt, "no diagram");
        let high = self.diagram_of(row.high).expect(rt, "no diagram");
        let diagram = store.find(level, low, high).expect(rt, "no such node");
        assert!(rt; diagram.is_complement());
        write!(self.rows, "| {level} | ")?;
        self.write_request(row.key)?;
        self.rows.push_str(" | ")?;
        self.write_name(low.negate())?;
        self.rows.push_str(" | ")?;
        self.write_name(high.negate())?;
        self.rows.push_str(" |\n")?;
        self.found.push((row.key, diagram))?;
        Ok(())
    }
}

/// Returns the requests of the entries of rank 2.
fn roots_of(rt: &impl Abort, store: &Store, known: &[Ref]) -> [Key; 4]
    requires { All (Has store.now) known.now }
    ensures { All (IsKey store.now) result }
{
    [
        request(rt, store, known, RANK_TWO[0]),
        request(rt, store, known, RANK_TWO[1]),
        request(rt, store, known, RANK_TWO[2]),
        request(rt, store, known, RANK_TWO[3]),
    ]
}

/// Checks that the rows of the way down are those of the page.
fn see_down(
    rt: &impl Abort,
    mut trace: Trace,
    levels: u16,
    records: &Records,
) -> Result<(), AllocError>
    requires { levels ≡ length records.now }
{
    for level in 0..levels {
        for row in records.level(level) {
            trace.write_down(level, *row)?;
        }
    }
    assert!(rt; trace.rows.as_str() == DOWN, "{}", trace.rows);
    Ok(())
}

/// Checks that the rows of the way up are those of the page.
fn see_up(
    rt: &impl Abort,
    mut trace: Trace,
    store: &Store,
    records: &Records,
) -> Result<(), AllocError>
    requires { store.now.levels ≡ length records.now }
{
    let levels = store.levels();
    for below in 0..levels {
        let level = levels - 1 - below;
        for row in records.level(level) {
            trace.write_up(rt, store, level, *row)?;
        }
    }
    assert!(rt; trace.rows.as_str() == UP, "{}", trace.rows);
    Ok(())
}

// Two workers reach four requests. Each puts one bundle, and at each of 5 levels an End on both lanes. The same wave on
// the caller's thread makes a node for each request.
#[test]
fn rank_two_of_c17(rt: HostRuntime) -> Result<(), Fail> {
    let mut store = Store::new(rt.alloc(), 5, 100)?;
    let mut known = start(&rt, rt.alloc(), &mut store);
    // The program does so small a wave on the caller's thread.
    let how = How {
        workers: 1,
        way: Way::Threads,
    };
    run(&rt, rt.alloc(), &mut store, &mut known, &RANK_ONE, how)?;
    assert!(rt; store.count() == 7);
    let roots = roots_of(&rt, &store, known.as_slice());
    let [first, second, third, fourth] = roots;
    assert!(rt; first == third);
    assert!(rt; owner(first, 2) == 1 && owner(second, 2) == 0 && owner(fourth, 2) == 1);
    let expanded = expand_all(&rt, rt.alloc(), &store, &roots, 2, &NoMonitor)?;
    let [first_port, second_port] = expanded.ports() else {
        return Err(Fail::from("there are not two ports"));
    };
    assert!(rt; first_port.put() == 11 && second_port.put() == 11);
    let records = expanded.records();
    see_down(
        &rt,
        Trace::new(rt.alloc(), known.as_slice())?,
        store.levels(),
        records,
    )?;
    run(&rt, rt.alloc(), &mut store, &mut known, &RANK_TWO, how)?;
    assert!(rt; store.count() == 11);
    assert!(rt; store.levels() == 5);
    let mut trace = Trace::new(rt.alloc(), known.as_slice())?;
    trace.name_inner(
        &rt,
        rt.alloc(),
        &store,
        known_at(&rt, &store, known.as_slice(), 6),
    )?;
    see_up(&rt, trace, &store, records)?;
    Ok(())
}

// The gates of rank 2 of both netlists are the operations of this wave, over the variables in declared order.
#[test]
fn rank_two_is_planned(rt: HostRuntime) -> Result<(), Fail> {
    let first = read(&rt, rt.alloc(), C17);
    let second = read(&rt, rt.alloc(), C17B);
    let pairing = pair(
        rt.alloc(),
        &first,
        &second,
        None,
        Match::Name,
        &Order::Declared,
    )?;
    let names = pairing.names();
    assert!(rt; names.len() == 5);
    for level in 0..5 {
        assert!(rt; names.at(level) == INPUTS[level].as_bytes());
    }
    let plan = Plan::new(rt.alloc(), &first)?;
    are_nands(
        &rt,
        &first,
        &plan,
        2,
        &[("16", "2", "11"), ("19", "11", "7")],
    );
    let plan = Plan::new(rt.alloc(), &second)?;
    are_nands(
        &rt,
        &second,
        &plan,
        2,
        &[("16", "2", "11"), ("19", "11", "6")],
    );
    Ok(())
}

// Explanations of a difference, and the values as a VCD, for a few netlists and with ample memory.
use net_bench::netlist::{Netlist, Signal};
use net_bench::reader::parse_bench;
use net_explain::{explain, explanation_of, values, vcd_of};
use net_names::order::Match;
use net_order::naming::{Naming, naming_of};
use net_order::netlist_role::NetlistRole;
use std::alloc::Global;
use std::test::Fail;

/// A full adder.
static ADDER: &str =
    "INPUT(a)\nINPUT(b)\nINPUT(c)\nOUTPUT(s)\nx = XOR(a, b)\nn = AND(a, b)\nm = AND(x, c)\ns = XOR(x, c)\nOUTPUT(k)\nk = OR(n, m)\n";

/// The same with an OR instead of the first XOR, with the inputs in another order, and with a gate of another name.
static BROKEN: &str =
    "OUTPUT(k)\nOUTPUT(s)\nINPUT(c)\nINPUT(b)\nINPUT(a)\nn = AND(b, a)\nx = OR(b, a)\nmm = AND(c, x)\ns = XOR(c, x)\nk = OR(mm, n)\n";

/// A register whose next state is a gate.
static TOGGLED: &str = "INPUT(e)\nOUTPUT(q)\nq = DFF(d)\nd = XOR(e, q)\n";

static HELD: &str = "INPUT(e)\nOUTPUT(q)\nq = DFF(d)\nd = OR(w, q)\nw = BUFF(e)\n";

/// Each kind of a gate, of two operands and of three.
static KINDS: &str =
    "INPUT(a)\nINPUT(b)\nINPUT(c)\nOUTPUT(g1)\ng1 = AND(a, b)\ng2 = NAND(a, b, c)\ng3 = OR(a, b)\ng4 = NOR(a, b, c)\ng5 = XOR(a, b)\ng6 = XNOR(a, b, c)\ng7 = NOT(a)\ng8 = BUFF(a)\n";

/// Two netlists and their naming, by name.
#[derive(Drop)]
struct Both {
    first: Netlist,
    second: Netlist,
    naming: Naming,
}

fn nets_of(alloc: Global, first: &str, second: &str) -> Result<Both, Fail> {
    let first = parse_bench(alloc, first.as_bytes())?;
    let second = parse_bench(alloc, second.as_bytes())?;
    let naming = naming_of(alloc, &first, &second, None, Match::Name)?;
    Ok(Both {
        first,
        second,
        naming,
    })
}

/// The signal of this name; the first one if there is none.
fn signal(net: &Netlist, name: &str) -> Signal {
    net.find(name.as_bytes()).unwrap_or(Signal::of(0))
}

/// The lines of the explanation of the signals of this name.
fn explained(alloc: Global, both: &Both, name: &str, at: &[bool]) -> Result<Vec<u8>, Fail> {
    let first = signal(&both.first, name);
    let second = signal(&both.second, name);
    if first.number() as usize >= both.first.count()
        || second.number() as usize >= both.second.count()
    {
        return Ok(Vec::new(alloc));
    }
    let explanation = explain(
        alloc,
        &both.first,
        &both.second,
        &both.naming,
        (first, second),
        at,
    )?;
    Ok(explanation_of(alloc, name.as_bytes(), &both.first, &explanation)?)
}

// At a = b = 1 the XOR is 0 and the OR is 1. Below the carry, n and x have the same names in both netlists: n is equal, x differs.
#[test]
fn adders_explained(rt: HostRuntime) -> Result<(), Fail> {
    let adders = nets_of(rt.alloc(), ADDER, BROKEN)?;
    let sum = explained(rt.alloc(), &adders, "s", &[true, true, false])?;
    assert!(rt;
        sum.as_slice()
            == b"EXPLAIN s inner signals that differ: 1\n  x first=0 second=1 line 5 line 7\n  1 of 2 gates in the first netlist and 1 of 2 in the second are outside the cone of x\n".as_slice()
    );
    let carry = explained(rt.alloc(), &adders, "k", &[true, true, true])?;
    assert!(rt;
        carry.as_slice()
            == b"EXPLAIN k inner signals that differ: 1\n  x first=0 second=1 line 5 line 7\n  3 of 4 gates in the first netlist and 3 of 4 in the second are outside the cone of x\n".as_slice()
    );
    let same = explained(rt.alloc(), &adders, "s", &[true, false, false])?;
    assert!(rt; same.as_slice() == b"EXPLAIN s inner signals that differ: 0\n".as_slice());
    Ok(())
}

// The outputs are registers, with no gate below them. The next states are the pair itself, so they are no inner signals of it.
#[test]
fn registers_explained(rt: HostRuntime) -> Result<(), Fail> {
    let nets = nets_of(rt.alloc(), TOGGLED, HELD)?;
    let output = explained(rt.alloc(), &nets, "q", &[true, true])?;
    assert!(rt; output.as_slice() == b"EXPLAIN q inner signals that differ: 0\n".as_slice());
    let next = explained(rt.alloc(), &nets, "d", &[true, true])?;
    assert!(rt; next.as_slice() == b"EXPLAIN d inner signals that differ: 0\n".as_slice());
    Ok(())
}

/// The bit of the signal of this name.
fn value_of(net: &Netlist, bits: &[bool], name: &str) -> Option<bool> {
    bits.get(signal(net, name).number() as usize).copied()
}

#[test]
fn kinds_of_gates(rt: HostRuntime) -> Result<(), Fail> {
    let nets = nets_of(rt.alloc(), KINDS, KINDS)?;
    let bits = values(
        rt.alloc(),
        &nets.first,
        &nets.naming,
        NetlistRole::First,
        &[true, false, true],
    )?;
    let names = ["g1", "g2", "g3", "g4", "g5", "g6", "g7", "g8"];
    let expected = [false, true, true, false, true, true, false, true];
    for place in 0..names.len() {
        let value = value_of(&nets.first, bits.as_slice(), names[place]);
        assert!(rt; value == Some(expected[place]));
    }
    Ok(())
}

// tests/vcd.py reads the expected text from this file.
#[test]
fn values_as_vcd(rt: HostRuntime) -> Result<(), Fail> {
    let nets = nets_of(rt.alloc(), TOGGLED, HELD)?;
    let at = [true, false];
    let first = values(
        rt.alloc(),
        &nets.first,
        &nets.naming,
        NetlistRole::First,
        &at,
    )?;
    let second = values(
        rt.alloc(),
        &nets.second,
        &nets.naming,
        NetlistRole::Second,
        &at,
    )?;
    if first.len() != nets.first.count() || second.len() != nets.second.count() {
        return Ok(());
    }
    let text = vcd_of(
        rt.alloc(),
        &nets.first,
        first.as_slice(),
        &nets.second,
        second.as_slice(),
    )?;
    assert!(rt;
        text.as_slice()
            == b"$timescale 1 ns $end\n$scope module first $end\n$var wire 1 ! e $end\n$var wire 1 \" q $end\n$var wire 1 # d $end\n$upscope $end\n$scope module second $end\n$var wire 1 $ e $end\n$var wire 1 % q $end\n$var wire 1 & d $end\n$var wire 1 ' w $end\n$upscope $end\n$enddefinitions $end\n#0\n1!\n0\"\n1#\n1$\n0%\n1&\n1'\n#1\n".as_slice()
    );
    Ok(())
}

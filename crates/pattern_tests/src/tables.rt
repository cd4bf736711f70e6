// Truth tables: bit i of the words of a, b and c is row i.
use net_bench::netlist::Netlist;
use net_bench::reader::parse_bench;
use net_simulate::{Block, Packed, gates_by_rank, schedule_of, simulate};
use std::alloc::{AllocError, Global};
use std::test::Fail;

/// Each kind of a gate, of two operands and of three.
static KINDS: &str =
    "INPUT(a)\nINPUT(b)\nINPUT(c)\nOUTPUT(g1)\ng1 = AND(a, b)\ng2 = NAND(a, b, c)\ng3 = OR(a, b)\ng4 = NOR(a, b, c)\ng5 = XOR(a, b)\ng6 = XNOR(a, b, c)\ng7 = NOT(a)\ng8 = BUFF(a)\n";

/// A register whose next state is a gate.
static TOGGLED: &str = "INPUT(e)\nOUTPUT(q)\nq = DFF(d)\nd = XOR(e, q)\n";

/// A netlist whose gates come before the gates of their operands.
static BACKWARDS: &str = "OUTPUT(z)\nz = NOT(y)\ny = NOT(x)\nx = NOT(a)\nINPUT(a)\n";

const A: u64 = 0xaaaa_aaaa_aaaa_aaaa;

const B: u64 = 0xcccc_cccc_cccc_cccc;

const C: u64 = 0xf0f0_f0f0_f0f0_f0f0;

/// The values of all signals, if the first variable has level 0, the second level 1, and so on.
fn values_of<V: Packed>(alloc: Global, net: &Netlist, at: &[V]) -> Result<Vec<V>, AllocError> {
    let schedule = schedule_of(alloc, net)?;
    let mut levels = Vec::new(alloc);
    for level in 0..net.variables().len() {
        levels.push(u32::try_from(level).unwrap_or(0))?;
    }
    let mut values = Vec::new(alloc);
    for _ in 0..net.count() {
        values.push(V::ones())?;
    }
    if levels.len() == net.variables().len() && values.len() == net.count() {
        simulate(net, &schedule, levels.as_slice(), at, values.as_mut_slice());
    }
    Ok(values)
}

/// The number of the signal of this name.
fn place_of(net: &Netlist, name: &str) -> usize {
    match net.find(name.as_bytes()) {
        Some(signal) => signal.number() as usize,
        None => usize::MAX,
    }
}

/// The word of the signal of this name.
fn word_of(net: &Netlist, words: &[u64], name: &str) -> Option<u64> {
    words.get(place_of(net, name)).copied()
}

#[test]
fn each_kind(rt: HostRuntime) -> Result<(), Fail> {
    let net = parse_bench(rt.alloc(), KINDS.as_bytes())?;
    let table = values_of(rt.alloc(), &net, &[A, B, C])?;
    let words = table.as_slice();
    assert!(rt; word_of(&net, words, "g1") == Some(0x8888_8888_8888_8888));
    assert!(rt; word_of(&net, words, "g2") == Some(0x7f7f_7f7f_7f7f_7f7f));
    assert!(rt; word_of(&net, words, "g3") == Some(0xeeee_eeee_eeee_eeee));
    assert!(rt; word_of(&net, words, "g4") == Some(0x0101_0101_0101_0101));
    assert!(rt; word_of(&net, words, "g5") == Some(0x6666_6666_6666_6666));
    assert!(rt; word_of(&net, words, "g6") == Some(0x6969_6969_6969_6969));
    assert!(rt; word_of(&net, words, "g7") == Some(0x5555_5555_5555_5555));
    assert!(rt; word_of(&net, words, "g8") == Some(A));
    Ok(())
}

#[test]
fn register_is_a_variable(rt: HostRuntime) -> Result<(), Fail> {
    let net = parse_bench(rt.alloc(), TOGGLED.as_bytes())?;
    let table = values_of(rt.alloc(), &net, &[A, B])?;
    assert!(rt; word_of(&net, table.as_slice(), "q") == Some(B));
    assert!(rt; word_of(&net, table.as_slice(), "d") == Some(A ^ B));
    Ok(())
}

#[test]
fn by_rank(rt: HostRuntime) -> Result<(), Fail> {
    let net = parse_bench(rt.alloc(), BACKWARDS.as_bytes())?;
    let table = values_of(rt.alloc(), &net, &[A])?;
    assert!(rt; word_of(&net, table.as_slice(), "z") == Some(!A));
    let rows = gates_by_rank(rt.alloc(), &net)?;
    assert!(rt; rows.len() == 3);
    let schedule = schedule_of(rt.alloc(), &net)?;
    assert!(rt; schedule.len() == 3 && !schedule.is_empty());
    let first = schedule.gate(0);
    assert!(rt; Some(first.out) == net.find(b"x") && first.operands.len() == 1);
    Ok(())
}

#[test]
fn one_bit(rt: HostRuntime) -> Result<(), Fail> {
    let net = parse_bench(rt.alloc(), KINDS.as_bytes())?;
    let bits = values_of(rt.alloc(), &net, &[true, false, true])?;
    let names = ["g1", "g2", "g3", "g4", "g5", "g6", "g7", "g8"];
    let expected = [false, true, true, false, true, true, false, true];
    for place in 0..names.len() {
        let bit = bits.as_slice().get(place_of(&net, names[place])).copied();
        assert!(rt; bit == Some(expected[place]));
    }
    Ok(())
}

#[test]
fn each_word_of_a_block(rt: HostRuntime) -> Result<(), Fail> {
    let net = parse_bench(rt.alloc(), TOGGLED.as_bytes())?;
    let e: Block = [A, 0, 0, 0, 0, 0, B, C];
    let q: Block = [B, 0, 0, 0, 0, 0, B, A];
    let blocks = values_of(rt.alloc(), &net, &[e, q])?;
    let sum: Block = [A ^ B, 0, 0, 0, 0, 0, 0, A ^ C];
    assert!(rt; blocks.as_slice().get(place_of(&net, "d")).copied() == Some(sum));
    Ok(())
}

#[test]
fn missing_values_are_0(rt: HostRuntime) -> Result<(), Fail> {
    let net = parse_bench(rt.alloc(), KINDS.as_bytes())?;
    let table = values_of(rt.alloc(), &net, &[A, B])?;
    assert!(rt; word_of(&net, table.as_slice(), "c") == Some(0));
    assert!(rt; word_of(&net, table.as_slice(), "g6") == Some(!(A ^ B)));
    Ok(())
}

// Of what is merged: each signal's literal has its truth table, in netlists that are rewritten at random by local rules, and in wrong ones.
use crate::merging::merged;
use net_bench::netlist::Netlist;
use net_bench::reader::parse_bench;
use net_merge::MergedNetlists;
use pair_graph::{Graph, Literal, Node};
use std::alloc::Global;
use std::test::Fail;

/// The truth tables of six variables: bit i is the value at the assignment whose number is i.
const TABLES: [u64; 6] = [
    0xAAAA_AAAA_AAAA_AAAA,
    0xCCCC_CCCC_CCCC_CCCC,
    0xF0F0_F0F0_F0F0_F0F0,
    0xFF00_FF00_FF00_FF00,
    0xFFFF_0000_FFFF_0000,
    0xFFFF_FFFF_0000_0000,
];

/// How many gates a netlist has.
const GATES: usize = 40;

/// How many pairs of netlists are tried.
const PAIRS: u64 = 60;

/// Random numbers by SplitMix64 (Steele, Lea and Flood 2014).
#[derive(Drop)]
struct Random {
    state: u64,
}

impl Random {
    /// A number below `end`, which is not 0.
    fn below(&mut self, end: u64) -> u64 {
        self.state = self.state.wrapping_add(0x9E37_79B9_7F4A_7C15);
        let mixed = (self.state ^ (self.state >> 30)).wrapping_mul(0xBF58_476D_1CE4_E5B9);
        let mixed = (mixed ^ (mixed >> 27)).wrapping_mul(0x94D0_49BB_1331_11EB);
        (mixed ^ (mixed >> 31)) % end.max(1)
    }
}

/// A gate of two signals by number: the kind 0 is AND, 1 is OR, any other XOR.
#[derive(Clone, Copy, Drop)]
struct Gate {
    kind: u64,
    first: usize,
    second: usize,
}

/// The table of the signal at a place.
fn table_at(tables: &[u64], place: usize) -> u64 {
    match tables.get(place) {
        Some(table) => *table,
        None => 0,
    }
}

/// The table of a gate.
fn table_of(tables: &[u64], gate: Gate) -> u64 {
    let (one, two) = (table_at(tables, gate.first), table_at(tables, gate.second));
    match gate.kind {
        0 => one & two,
        1 => one | two,
        _ => one ^ two,
    }
}

/// Random gates, each of signals before it.
fn random_gates(alloc: Global, random: &mut Random) -> Result<Vec<Gate>, Fail> {
    let mut gates = Vec::new(alloc);
    for place in 0..GATES {
        let signals = place.saturating_add(TABLES.len()) as u64;
        gates.push(Gate {
            kind: random.below(3),
            first: random.below(signals) as usize,
            second: random.below(signals) as usize,
        })?;
    }
    Ok(gates)
}

/// The line of a gate as it is.
fn plain(alloc: Global, place: usize, gate: Gate) -> Result<String, Fail> {
    let (a, b) = (gate.first, gate.second);
    let word = match gate.kind {
        0 => "AND",
        1 => "OR",
        _ => "XOR",
    };
    let line = format!(in alloc; "s{place} = {word}(s{a}, s{b})\n")?;
    Ok(line)
}

/// Lines of a gate by other gates.
fn rewritten(alloc: Global, place: usize, gate: Gate) -> Result<String, Fail> {
    let (a, b) = (gate.first, gate.second);
    let lines = match gate.kind {
        0 => format!(in alloc; "p{place} = NAND(s{a}, s{b})\ns{place} = NOT(p{place})\n")?,
        1 => format!(in alloc;
            "p{place} = NOT(s{a})\nq{place} = NOT(s{b})\ns{place} = NAND(p{place}, q{place})\n"
        )?,
        _ => format!(in alloc;
            "p{place} = NAND(s{a}, s{b})\nq{place} = OR(s{a}, s{b})\ns{place} = AND(p{place}, q{place})\n"
        )?,
    };
    Ok(lines)
}

/// A netlist of gates, of which so many halves are rewritten.
fn netlist_of(
    alloc: Global,
    gates: &[Gate],
    halves: u64,
    random: &mut Random,
) -> Result<Netlist, Fail> {
    let mut text = String::new(alloc);
    for place in 0..TABLES.len() {
        text.push_str(&format!(in alloc; "INPUT(s{place})\n")?)?;
    }
    let mut place = TABLES.len();
    for gate in gates {
        text.push_str(&format!(in alloc; "OUTPUT(s{place})\n")?)?;
        let lines = if random.below(2) < halves {
            rewritten(alloc, place, *gate)?
        } else {
            plain(alloc, place, *gate)?
        };
        text.push_str(&lines)?;
        place = place.saturating_add(1);
    }
    let net = parse_bench(alloc, text.as_str().as_bytes())?;
    Ok(net)
}

/// The tables of the signals s0, s1, .. of gates, the variables first.
fn tables_of(alloc: Global, gates: &[Gate]) -> Result<Vec<u64>, Fail> {
    let mut tables = Vec::from_slice(alloc, TABLES.as_slice())?;
    for gate in gates {
        let table = table_of(tables.as_slice(), *gate);
        tables.push(table)?;
    }
    Ok(tables)
}

/// The tables of a graph's nodes.
fn graph_tables(alloc: Global, graph: &Graph) -> Result<Vec<u64>, Fail> {
    let mut tables = Vec::new(alloc);
    for node in graph.as_slice() {
        let known = tables.as_slice();
        let table = match node {
            Node::Constant => 0,
            Node::Variable(level) => table_at(TABLES.as_slice(), *level as usize),
            Node::And(a, b) => literal_table(*a, known) & literal_table(*b, known),
            Node::Xor(a, b) => literal_table(*a, known) ^ literal_table(*b, known),
        };
        tables.push(table)?;
    }
    Ok(tables)
}

/// The table of a literal.
fn literal_table(literal: Literal, tables: &[u64]) -> u64 {
    let table = table_at(tables, literal.node() as usize);
    if literal.is_complemented() {
        !table
    } else {
        table
    }
}

/// How many of the signals s0, s1, .. of a netlist have a literal without their table.
fn count_wrong(
    alloc: Global,
    both: &MergedNetlists,
    net: &Netlist,
    is_first: bool,
    tables: &[u64],
) -> Result<usize, Fail> {
    let nodes = graph_tables(alloc, both.graph())?;
    let mut wrong = 0usize;
    for place in 0..tables.len() {
        let name = format!(in alloc; "s{place}")?;
        let Some(signal) = net.find(name.as_str().as_bytes()) else {
            wrong = wrong.saturating_add(1);
            continue;
        };
        let literal = if is_first {
            both.first(signal)
        } else {
            both.second(signal)
        };
        if literal_table(literal, nodes.as_slice()) != table_at(tables, place) {
            wrong = wrong.saturating_add(1);
        }
    }
    Ok(wrong)
}

// In each second pair one gate is another one. An output is found equal only if its tables are.
#[test]
fn random_netlists(rt: HostRuntime) -> Result<(), Fail> {
    let alloc = rt.alloc();
    let mut found = 0usize;
    for number in 0..PAIRS {
        let mut random = Random { state: number };
        let gates = random_gates(alloc, &mut random)?;
        let first = netlist_of(alloc, gates.as_slice(), 0, &mut random)?;
        let tables = tables_of(alloc, gates.as_slice())?;
        let mut others = gates.clone()?;
        let place = random.below(GATES as u64) as usize;
        if number % 2 == 1 && place < others.len() {
            others[place].kind = others[place].kind.wrapping_add(1) % 3;
        }
        let second = netlist_of(alloc, others.as_slice(), 1, &mut random)?;
        let other_tables = tables_of(alloc, others.as_slice())?;
        let both = merged(&rt, alloc, &first, &second)?;
        assert!(rt; count_wrong(alloc, &both, &first, true, tables.as_slice())? == 0);
        assert!(rt; count_wrong(alloc, &both, &second, false, other_tables.as_slice())? == 0);
        assert!(rt; both.equal().len() == GATES);
        let mut place = TABLES.len();
        for equal in both.equal() {
            let same = table_at(tables.as_slice(), place)
                == table_at(other_tables.as_slice(), place);
            assert!(rt; same || !*equal);
            found = found.saturating_add(*equal as usize);
            place = place.saturating_add(1);
        }
    }
    // Most of them are: the windows of netlists of six variables are small.
    assert!(rt; found > 1200);
    Ok(())
}

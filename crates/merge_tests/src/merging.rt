// Merging: the outputs of a multiplier and of one with other adders get the same literals, and those of a wrong one do not.
use expand_work::NoMonitor;
use net_bench::netlist::{Netlist, Signal};
use net_bench::reader::parse_bench;
use net_merge::{Learned, LevelledNetlist, MergeTask, MergedNetlists, merge_netlists};
use std::alloc::{AllocError, Global};
use std::sync::Wait;
use std::test::Fail;
use std::thread::Threads;

/// How many bits each factor has.
const BITS: usize = 4;

/// The gates of which an adder is made: its sum and its carry from x, y and c.
#[derive(Clone, Copy, Drop)]
pub(crate) enum Adder {
    /// Two Xors, two Ands and an Or.
    Xors,
    /// Nine Nands.
    Nands,
    /// As `Xors`, with the carry of x and c only.
    Wrong,
}

/// Appends the lines of an adder at a place.
fn add_adder(
    text: &mut String,
    alloc: Global,
    adder: Adder,
    place: &str,
    inputs: (&str, &str, &str),
) -> Result<(), Fail> {
    let (x, y, c) = inputs;
    let lines = match adder {
        Adder::Xors => format!(in alloc;
            "t{place} = XOR({x}, {y})\ns{place} = XOR(t{place}, {c})\nu{place} = AND({x}, {y})\nv{place} = AND(t{place}, {c})\nk{place} = OR(u{place}, v{place})\n"
        )?,
        Adder::Nands => format!(in alloc;
            "e{place} = NAND({x}, {y})\nf{place} = NAND({x}, e{place})\ng{place} = NAND({y}, e{place})\nt{place} = NAND(f{place}, g{place})\nh{place} = NAND(t{place}, {c})\ni{place} = NAND(t{place}, h{place})\nj{place} = NAND({c}, h{place})\ns{place} = NAND(i{place}, j{place})\nk{place} = NAND(e{place}, h{place})\n"
        )?,
        Adder::Wrong => format!(in alloc;
            "t{place} = XOR({x}, {y})\ns{place} = XOR(t{place}, {c})\nk{place} = AND({x}, {c})\n"
        )?,
    };
    text.push_str(&lines)?;
    Ok(())
}

/// The name of the signal that a place gets from the row above: in row 1 a product, at the end of a row a carry.
fn from_above(alloc: Global, row: usize, column: usize) -> Result<String, AllocError> {
    let (above, next) = (row.wrapping_sub(1), column.wrapping_add(1));
    if next == BITS && row == 1 {
        return String::from_str(alloc, "zero");
    }
    if next == BITS {
        return format!(in alloc; "k{above}_{column}");
    }
    if row == 1 {
        format!(in alloc; "p0_{next}")
    } else {
        format!(in alloc; "s{above}_{next}")
    }
}

/// The text of an array multiplier; `last` is the adder at the end of the last row.
pub(crate) fn multiplier(alloc: Global, adder: Adder, last: Adder) -> Result<String, Fail> {
    let mut text = String::new(alloc);
    for place in 0..BITS {
        text.push_str(&format!(in alloc;
            "INPUT(a{place})\nINPUT(b{place})\nOUTPUT(m{place})\nOUTPUT(n{place})\n"
        )?)?;
    }
    text.push_str("zero = XOR(a0, a0)\n")?;
    for row in 0..BITS {
        for column in 0..BITS {
            text.push_str(&format!(in alloc; "p{row}_{column} = AND(a{row}, b{column})\n")?)?;
        }
    }
    for row in 1..BITS {
        for column in 0..BITS {
            let place = format!(in alloc; "{row}_{column}")?;
            let x = format!(in alloc; "p{row}_{column}")?;
            let y = from_above(alloc, row, column)?;
            let c = if column == 0 {
                String::from_str(alloc, "zero")?
            } else {
                format!(in alloc; "k{row}_{}", column - 1)?
            };
            let here = if row + 1 == BITS && column + 1 == BITS {
                last
            } else {
                adder
            };
            add_adder(
                &mut text,
                alloc,
                here,
                place.as_str(),
                (x.as_str(), y.as_str(), c.as_str()),
            )?;
        }
    }
    text.push_str(
        "m0 = BUFF(p0_0)\nm1 = BUFF(s1_0)\nm2 = BUFF(s2_0)\nm3 = BUFF(s3_0)\nn0 = BUFF(s3_1)\nn1 = BUFF(s3_2)\nn2 = BUFF(s3_3)\nn3 = BUFF(k3_3)\n",
    )?;
    Ok(text)
}

/// For the signal of each variable its level, which is its place among the variables.
pub(crate) fn levels_of(alloc: Global, net: &Netlist) -> Result<Vec<u32>, AllocError> {
    let mut levels = Vec::from_elem(alloc, 0u32, net.count())?;
    let mut level = 0u32;
    for variable in net.variables() {
        let place = variable.number() as usize;
        if place < levels.len() {
            levels[place] = level;
        }
        level = level.wrapping_add(1);
    }
    Ok(levels)
}

/// The two netlists merged in one graph by one round. Their outputs are wanted equal.
pub(crate) fn merged<R: Threads + Wait + Sync>(
    rt: &R,
    alloc: Global,
    first: &Netlist,
    second: &Netlist,
) -> Result<MergedNetlists, Fail> {
    let first_levels = levels_of(alloc, first)?;
    let second_levels = levels_of(alloc, second)?;
    let one = LevelledNetlist {
        net: first,
        levels: first_levels.as_slice(),
    };
    let two = LevelledNetlist {
        net: second,
        levels: second_levels.as_slice(),
    };
    let mut wanted = Vec::new(alloc);
    for pair in first.outputs().iter().zip(second.outputs()) {
        wanted.push((*pair.0, *pair.1))?;
    }
    let task = MergeTask {
        first: one,
        second: two,
        wanted: wanted.as_slice(),
        workers: 2,
    };
    let mut learned = Learned::new(alloc);
    let both = merge_netlists(rt, alloc, &task, 4000, &mut learned, &NoMonitor)?;
    Ok(both)
}

/// How many of the outputs have the same literal.
fn equal_outputs(both: &MergedNetlists, first: &Netlist, second: &Netlist) -> usize {
    let pairs = first.outputs().iter().zip(second.outputs());
    pairs
        .filter(|pair| both.have_same_literal(*pair.0, *pair.1))
        .count()
}

#[test]
fn multipliers_of_other_adders(rt: HostRuntime) -> Result<(), Fail> {
    let alloc = rt.alloc();
    let first = parse_bench(
        alloc,
        multiplier(alloc, Adder::Xors, Adder::Xors)?
            .as_str()
            .as_bytes(),
    )?;
    let second = parse_bench(
        alloc,
        multiplier(alloc, Adder::Nands, Adder::Nands)?
            .as_str()
            .as_bytes(),
    )?;
    let both = merged(&rt, alloc, &first, &second)?;
    assert!(rt; first.outputs().len() == 8 && equal_outputs(&both, &first, &second) == 8);
    Ok(())
}

// The carry of the last adder is wrong, which is only the last output.
#[test]
fn wrong_multiplier(rt: HostRuntime) -> Result<(), Fail> {
    let alloc = rt.alloc();
    let first = parse_bench(
        alloc,
        multiplier(alloc, Adder::Xors, Adder::Xors)?
            .as_str()
            .as_bytes(),
    )?;
    let wrong = parse_bench(
        alloc,
        multiplier(alloc, Adder::Nands, Adder::Wrong)?
            .as_str()
            .as_bytes(),
    )?;
    let both = merged(&rt, alloc, &first, &wrong)?;
    assert!(rt; equal_outputs(&both, &first, &wrong) == 7);
    Ok(())
}

// An output and its complement have complementary literals, and not the same.
#[test]
fn complement_is_not_equal(rt: HostRuntime) -> Result<(), Fail> {
    let alloc = rt.alloc();
    let first = parse_bench(alloc, b"INPUT(a)\nINPUT(b)\nOUTPUT(z)\nz = OR(a, b)\n")?;
    let second = parse_bench(alloc, b"INPUT(a)\nINPUT(b)\nOUTPUT(z)\nz = NOR(a, b)\n")?;
    let both = merged(&rt, alloc, &first, &second)?;
    assert!(rt; equal_outputs(&both, &first, &second) == 0);
    let signals: (Option<Signal>, Option<Signal>) = (first.find(b"z"), second.find(b"z"));
    if let (Some(one), Some(two)) = signals {
        assert!(rt; both.first(one) == both.second(two).negate());
        assert!(rt; both.graph().len() == 4);
    }
    Ok(())
}

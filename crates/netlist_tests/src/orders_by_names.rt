// Orders by the numbers at the end of names, and FORCE, which begins with them. Another program has found the expected
// orders of FORCE from its definition.
use net_bench::netlist::Netlist;
use net_bench::reader::parse_bench;
use net_names::order::{Match, Order};
use net_order::pairing::pair;
use std::alloc::Global;
use std::test::Fail;

const C17: &str =
    "INPUT(1) INPUT(2) INPUT(3) INPUT(6) INPUT(7) OUTPUT(22) OUTPUT(23) 10 = NAND(1, 3) 11 = NAND(3, 6) 16 = NAND(2, 11) 19 = NAND(11, 7) 22 = NAND(10, 16) 23 = NAND(16, 19)";

/// The numbers come after letters, brackets and dashes, or there are none.
const MIXED: &str =
    "INPUT(a[10]) INPUT(b[2]) INPUT(clk) INPUT(a[2]) INPUT(x_3) INPUT(b10) INPUT(n7z) INPUT(5) INPUT(a007) OUTPUT(clk)";

/// Numbers of 18 digits, and longer ones, which all count the same.
const LONG: &str =
    "INPUT(z99999999999999999999999) INPUT(y1000000000000000000) INPUT(x999999999999999999) INPUT(w18446744073709551616) OUTPUT(x999999999999999999)";

/// The bits of one bus are declared after those of the other.
const WORDS: &str =
    "INPUT(a[0]) INPUT(a[1]) INPUT(a[2]) INPUT(b[0]) INPUT(b[1]) INPUT(b[2]) OUTPUT(s) h0 = AND(a[0], b[0]) h1 = OR(a[1], b[1], h0) s = AND(a[2], b[2], h1)";

/// Three pairs whose numbers are far apart.
const APART: &str =
    "INPUT(x1) INPUT(x3) INPUT(x5) INPUT(x2) INPUT(x4) INPUT(x6) OUTPUT(o) a = AND(x1, x4) b = AND(x2, x5) c = AND(x3, x6) o = OR(a, b, c)";

/// An order that depends on how means are rounded.
const CLOSE: &str =
    "INPUT(a) INPUT(b) INPUT(c) OUTPUT(w) u = AND(a, b, c) v = AND(u, a) w = AND(a, c)";

const OTHER: &str = "INPUT(x) INPUT(y) INPUT(z) OUTPUT(o) o = AND(x, z)";

const THROUGH: &str = "INPUT(a) OUTPUT(a)";

const TOGGLED: &str = "OUTPUT(q) q = DFF(n) n = XOR(q, c) INPUT(c)";

const HELD: &str = "INPUT(d) r = DFF(d) OUTPUT(r) INPUT(c)";

/// A condition with a variable of its own.
const GIVEN: &str = "INPUT(b) INPUT(k) INPUT(a) OUTPUT(g) g = AND(b, k)";

fn netlist(alloc: Global, text: &str) -> Result<Netlist, Fail> {
    Ok(parse_bench(alloc, text.as_bytes())?)
}

/// The names of the variables by level, with a blank after each.
fn ordered(
    alloc: Global,
    first: &str,
    second: &str,
    given: Option<&Netlist>,
    how: Match,
    order: &Order,
) -> Result<Vec<u8>, Fail> {
    let first = netlist(alloc, first)?;
    let second = netlist(alloc, second)?;
    let pairing = pair(alloc, &first, &second, given, how, order)?;
    let names = pairing.names();
    let mut text = Vec::new(alloc);
    for i in 0..names.len() {
        text.extend_from_slice(names.at(i))?;
        text.push(b' ')?;
    }
    Ok(text)
}

#[test]
fn by_number(rt: HostRuntime) -> Result<(), Fail> {
    let alloc = rt.alloc();
    let rows = [
        (MIXED, MIXED, "clk n7z b[2] a[2] x_3 5 a007 a[10] b10 "),
        (
            LONG,
            LONG,
            "x999999999999999999 z99999999999999999999999 y1000000000000000000 w18446744073709551616 ",
        ),
        (WORDS, WORDS, "a[0] b[0] a[1] b[1] a[2] b[2] "),
        (C17, THROUGH, "a 1 2 3 6 7 "),
        (TOGGLED, HELD, "c d q r "),
        ("", "", ""),
    ];
    for (first, second, names) in rows {
        let found = ordered(alloc, first, second, None, Match::Name, &Order::Index)?;
        assert!(rt; found.as_slice() == names.as_bytes());
    }
    Ok(())
}

#[test]
fn by_force(rt: HostRuntime) -> Result<(), Fail> {
    let alloc = rt.alloc();
    let rows = [
        (C17, C17, Match::Name, "7 2 6 3 1 "),
        (WORDS, WORDS, Match::Name, "b[2] a[2] b[1] a[1] b[0] a[0] "),
        (APART, APART, Match::Name, "x6 x3 x5 x2 x4 x1 "),
        (CLOSE, CLOSE, Match::Name, "b c a "),
        (CLOSE, OTHER, Match::Name, "z x y b c a "),
        (CLOSE, OTHER, Match::Position, "b c a "),
        (TOGGLED, HELD, Match::Name, "r q c d "),
        ("", "", Match::Position, ""),
    ];
    for (first, second, how, names) in rows {
        let found = ordered(alloc, first, second, None, how, &Order::Force)?;
        assert!(rt; found.as_slice() == names.as_bytes());
    }
    Ok(())
}

// The condition's variables are numbered among the others, and its gates move variables.
#[test]
fn with_condition(rt: HostRuntime) -> Result<(), Fail> {
    let alloc = rt.alloc();
    let given = netlist(alloc, GIVEN)?;
    let index = ordered(
        alloc,
        CLOSE,
        CLOSE,
        Some(&given),
        Match::Name,
        &Order::Index,
    )?;
    assert!(rt; index.as_slice() == b"a b c k ".as_slice());
    let force = ordered(
        alloc,
        CLOSE,
        CLOSE,
        Some(&given),
        Match::Name,
        &Order::Force,
    )?;
    assert!(rt; force.as_slice() == b"k b c a ".as_slice());
    Ok(())
}

// Orders of small circuits.
use group_order::{force_groups, msb_first, weights};
use net_bench::netlist::Netlist;
use net_bench::reader::parse_bench;
use net_names::names::Names;
use net_names::order::{Match, Order, OrderFault};
use net_order::pairing::pair;
use std::alloc::Global;
use std::test::Fail;

const C17: &str =
    "INPUT(1) INPUT(2) INPUT(3) INPUT(6) INPUT(7) OUTPUT(22) OUTPUT(23) 10 = NAND(1, 3) 11 = NAND(3, 6) 16 = NAND(2, 11) 19 = NAND(11, 7) 22 = NAND(10, 16) 23 = NAND(16, 19)";

/// The numbers come after letters, brackets and dashes, or there are none.
const MIXED: &str =
    "INPUT(a[10]) INPUT(b[2]) INPUT(clk) INPUT(a[2]) INPUT(x_3) INPUT(b10) INPUT(n7z) INPUT(5) INPUT(a007) OUTPUT(clk)";

/// Numbers of 18 digits, and longer ones, which all count the same.
const LONG: &str =
    "INPUT(z9999999999999999999999999999999999999999) INPUT(y1000000000000000000) INPUT(x999999999999999999) INPUT(w18446744073709551616) OUTPUT(x999999999999999999)";

/// All numbers are the same.
const SAME: &str = "INPUT(b7) INPUT(a7) INPUT(c7) OUTPUT(c7)";

const THROUGH: &str = "INPUT(a) OUTPUT(a)";

/// An XOR of two variables, written by NAND gates.
const JOINED: &str =
    "INPUT(a0) INPUT(a1) INPUT(b0) INPUT(b1) OUTPUT(o) p = NAND(a1, b0) q = NAND(a1, p) r = NAND(b0, p) x = NAND(q, r) o = AND(x, a0, b1)";

/// A variable that exclusive ors join with each other one is in no group.
const HUB: &str =
    "INPUT(x0) INPUT(x1) INPUT(x2) INPUT(s3) OUTPUT(o) p = XOR(s3, x0) q = XOR(x1, s3) r = XNOR(s3, x2) o = AND(p, q, r)";

/// A selector, which is used through a NOT as well.
const CHOSEN: &str =
    "INPUT(d3) INPUT(d2) INPUT(d1) INPUT(d0) INPUT(k0) OUTPUT(o) n = NOT(k0) w = AND(n, d3) x = AND(k0, d2) y = AND(n, d1) z = AND(k0, d0) o = OR(w, x, y, z)";

const CLOSE: &str =
    "INPUT(a) INPUT(b) INPUT(c) OUTPUT(w) u = AND(a, b, c) v = AND(u, a) w = AND(a, c)";

const OTHER: &str = "INPUT(x) INPUT(y) INPUT(z) OUTPUT(o) o = AND(x, z)";

const TREE: &str = "INPUT(c) INPUT(b) INPUT(a) OUTPUT(o) t = AND(b, c) o = AND(a, t)";

const TOGGLED: &str = "OUTPUT(q) q = DFF(n) n = XOR(q, c) INPUT(c)";

const HELD: &str = "INPUT(d) r = DFF(d) OUTPUT(r) INPUT(c)";

/// A condition with a variable of its own.
const GIVEN: &str = "INPUT(b) INPUT(k) INPUT(a) OUTPUT(g) g = AND(b, k)";

/// Which order is asked for.
#[derive(Clone, Copy)]
enum Rule {
    MsbFirst,
    ForceGroups,
    Weights,
}

fn netlist(alloc: Global, text: &str) -> Result<Netlist, Fail> {
    Ok(parse_bench(alloc, text.as_bytes())?)
}

fn order_by(
    alloc: Global,
    rule: Rule,
    first: &Netlist,
    second: &Netlist,
    given: Option<&Netlist>,
    how: Match,
) -> Result<Order, OrderFault> {
    match rule {
        Rule::MsbFirst => msb_first(alloc, first, second, given, how),
        Rule::ForceGroups => force_groups(alloc, first, second, given, how),
        Rule::Weights => weights(alloc, first, second, given, how),
    }
}

/// The names of the variables by level, with a blank after each.
fn text_of(alloc: Global, names: &Names) -> Result<Vec<u8>, Fail> {
    let mut text = Vec::new(alloc);
    for i in 0..names.len() {
        text.extend_from_slice(names.at(i))?;
        text.push(b' ')?;
    }
    Ok(text)
}

/// The order of two netlists by a rule, as a pairing in this order has it.
fn ordered(
    alloc: Global,
    rule: Rule,
    first: &str,
    second: &str,
    given: Option<&Netlist>,
    how: Match,
) -> Result<Vec<u8>, Fail> {
    let first = netlist(alloc, first)?;
    let second = netlist(alloc, second)?;
    let order = order_by(alloc, rule, &first, &second, given, how)?;
    let pairing = pair(alloc, &first, &second, given, how, &order)?;
    text_of(alloc, pairing.names())
}

#[test]
fn by_falling_number(rt: HostRuntime) -> Result<(), Fail> {
    let alloc = rt.alloc();
    let rows = [
        (MIXED, MIXED, "clk n7z a[10] b10 a007 5 x_3 b[2] a[2] "),
        (
            LONG,
            LONG,
            "z9999999999999999999999999999999999999999 y1000000000000000000 w18446744073709551616 x999999999999999999 ",
        ),
        (SAME, SAME, "b7 a7 c7 "),
        (THROUGH, THROUGH, "a "),
        (JOINED, TREE, "a1 b0 c b a b1 a0 "),
        (HUB, HUB, "s3 x2 x1 x0 "),
        (CHOSEN, CHOSEN, "k0 d3 d2 d1 d0 "),
        (C17, C17, "3 7 6 2 1 "),
        (TOGGLED, HELD, "c q d r "),
        ("", "", ""),
    ];
    for (first, second, names) in rows {
        let found = ordered(alloc, Rule::MsbFirst, first, second, None, Match::Name)?;
        assert!(rt; found.as_slice() == names.as_bytes());
    }
    Ok(())
}

#[test]
fn by_force(rt: HostRuntime) -> Result<(), Fail> {
    let alloc = rt.alloc();
    let rows = [
        (THROUGH, THROUGH, "a "),
        (JOINED, TREE, "b0 a1 a b c b1 a0 "),
        (HUB, HUB, "s3 x2 x1 x0 "),
        (CHOSEN, CHOSEN, "k0 d2 d0 d3 d1 "),
        (C17, C17, "3 6 7 2 1 "),
        (CLOSE, OTHER, "a c z x y b "),
        (TOGGLED, HELD, "r q c d "),
        ("", "", ""),
    ];
    for (first, second, names) in rows {
        let found = ordered(alloc, Rule::ForceGroups, first, second, None, Match::Name)?;
        assert!(rt; found.as_slice() == names.as_bytes());
    }
    Ok(())
}

#[test]
fn by_weights(rt: HostRuntime) -> Result<(), Fail> {
    let alloc = rt.alloc();
    let rows = [
        (SAME, SAME, "c7 b7 a7 "),
        (THROUGH, THROUGH, "a "),
        (TREE, TREE, "a c b "),
        (JOINED, TREE, "a c b a0 b1 a1 b0 "),
        (HUB, HUB, "s3 x0 x1 x2 "),
        (CHOSEN, CHOSEN, "k0 d3 d2 d1 d0 "),
        (C17, C17, "3 1 2 6 7 "),
        (CLOSE, OTHER, "x z a c b y "),
        (TOGGLED, HELD, "r d c q "),
        ("", "", ""),
    ];
    for (first, second, names) in rows {
        let found = ordered(alloc, Rule::Weights, first, second, None, Match::Name)?;
        assert!(rt; found.as_slice() == names.as_bytes());
    }
    Ok(())
}

// The condition's variables are among the others.
#[test]
fn with_condition(rt: HostRuntime) -> Result<(), Fail> {
    let alloc = rt.alloc();
    let given = netlist(alloc, GIVEN)?;
    let rows = [(Rule::MsbFirst, "a c b k "), (Rule::Weights, "a c b k ")];
    for (rule, names) in rows {
        let found = ordered(alloc, rule, CLOSE, CLOSE, Some(&given), Match::Name)?;
        assert!(rt; found.as_slice() == names.as_bytes());
    }
    Ok(())
}

// Netlists with different numbers of inputs have no pairing by position, and so no order.
#[test]
fn refused(rt: HostRuntime) -> Result<(), Fail> {
    let alloc = rt.alloc();
    let first = netlist(alloc, CLOSE)?;
    let second = netlist(alloc, TOGGLED)?;
    for rule in [Rule::MsbFirst, Rule::ForceGroups, Rule::Weights] {
        let found = order_by(alloc, rule, &first, &second, None, Match::Position);
        assert!(rt; matches!(found, Err(OrderFault::CountsDiffer)));
    }
    Ok(())
}

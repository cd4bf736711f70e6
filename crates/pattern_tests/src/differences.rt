// Differences that patterns show, and how small they become. The expected numbers are counted by hand: the first
// patterns are all 0, all 1, and then for each variable, as declared, one with only this variable at 1, and one with
// only this variable at 0.
ghost use Rattle.std.specs.Prelude.{IfSome, IsTrue};
ghost use Rattle.net_bench.specs.Circuit.{circuit};
ghost use Rattle.net_order.specs.Order.{condition};
ghost use Rattle.net_patterns.specs.Differences.{HasOutput, IsPairOf};

use net_bench::netlist::{Netlist, Signal};
use net_bench::reader::parse_bench;
use net_names::order::Match;
use net_order::naming::{Naming, naming_of};
use net_patterns::{
    Counterexample, Netlists, Patterns, ShownPattern, first_differences, make_small,
};
use std::alloc::Global;
use std::test::Fail;

static AND: &str = "INPUT(a)\nINPUT(b)\nOUTPUT(z)\nz = AND(a, b)\n";

static OR: &str = "INPUT(a)\nINPUT(b)\nOUTPUT(z)\nz = OR(a, b)\n";

/// The same function as AND.
static NOR: &str = "INPUT(b)\nINPUT(a)\nOUTPUT(z)\nna = NOT(a)\nnb = NOT(b)\nz = NOR(na, nb)\n";

/// The values of a and of b, which differ if a and b do.
static A: &str = "INPUT(a)\nINPUT(b)\nOUTPUT(z)\nz = BUFF(a)\n";

static B_OF_BOTH: &str = "INPUT(a)\nINPUT(b)\nOUTPUT(z)\nz = BUFF(b)\n";

/// Conditions: b is 1, and never.
static B: &str = "INPUT(b)\nOUTPUT(b)\n";

static NEVER: &str = "INPUT(b)\nOUTPUT(n)\nnb = NOT(b)\nn = AND(b, nb)\n";

/// A register that is held, and one that toggles if e is 1.
static HELD: &str = "INPUT(e)\nOUTPUT(d)\nq = DFF(d)\nd = BUFF(q)\n";

static TOGGLED: &str = "INPUT(e)\nOUTPUT(d)\nq = DFF(d)\nd = XOR(e, q)\n";

/// Two netlists and a condition, if there is one, with their naming.
#[derive(Drop)]
struct Texts {
    first: Netlist,
    second: Netlist,
    given: Option<Netlist>,
    naming: Naming,
}

fn texts_of(alloc: Global, first: &str, second: &str, given: Option<&str>) -> Result<Texts, Fail> {
    let first = parse_bench(alloc, first.as_bytes())?;
    let second = parse_bench(alloc, second.as_bytes())?;
    let given = match given {
        Some(text) => Some(parse_bench(alloc, text.as_bytes())?),
        None => None,
    };
    let naming = naming_of(alloc, &first, &second, given.as_ref(), Match::Name)?;
    Ok(Texts {
        first,
        second,
        given,
        naming,
    })
}

/// The signal of this name; the first one if there is none.
fn signal(net: &Netlist, name: &str) -> Signal {
    net.find(name.as_bytes()).unwrap_or(Signal::of(0))
}

/// Whether both are signals of their netlists.
fn is_pair(first: &Netlist, second: &Netlist, pair: &(Signal, Signal)) -> bool
    ensures { IsTrue result → IsPairOf (circuit first.now) (circuit second.now) pair.now }
{
    let (one, two) = *pair;
    (one.number() as usize) < first.count() && (two.number() as usize) < second.count()
}

/// Whether the condition, if there is one, has an output.
fn has_output(given: Option<&Netlist>) -> bool
    ensures { IsTrue result → IfSome (condition given.entry) HasOutput }
{
    match given {
        None => true,
        Some(net) => !net.outputs().is_empty(),
    }
}

/// The first pattern that shows a difference of the signals of this name, and the difference made small.
fn shown(
    alloc: Global,
    texts: &Texts,
    name: &str,
) -> Result<Option<(ShownPattern, Counterexample)>, Fail> {
    let pair = (signal(&texts.first, name), signal(&texts.second, name));
    let netlists = Netlists {
        first: &texts.first,
        second: &texts.second,
        given: texts.given.as_ref(),
        naming: &texts.naming,
    };
    if !is_pair(netlists.first, netlists.second, &pair) {
        return Ok(None);
    }
    if !has_output(netlists.given) {
        return Ok(None);
    }
    let patterns = Patterns::of(texts.naming.names().len(), texts.first.gates().len());
    let found = first_differences(alloc, &netlists, &[pair], &patterns)?;
    let Some(pattern) = found[0] else {
        return Ok(None);
    };
    let at = patterns.assignment(alloc, pattern.number)?;
    let first = pattern.first;
    let small = make_small(alloc, &netlists, pair, 16, Counterexample { at, first })?;
    Ok(Some((pattern, small)))
}

/// Whether this pattern shows the difference, and it becomes this assignment, at which the first signal has this value.
fn is_shown(
    found: &Option<(ShownPattern, Counterexample)>,
    shown: ShownPattern,
    at: &[bool],
    first: bool,
) -> bool {
    match found {
        Some((pattern, small)) => {
            *pattern == shown && small.at.as_slice() == at && small.first == first
        }
        None => false,
    }
}

/// The pattern of this number, at which the first signal has this value.
fn pattern(number: usize, first: bool) -> ShownPattern {
    ShownPattern { number, first }
}

// Pattern 2 is a = 1, b = 0. The least difference is a = 0, b = 1.
#[test]
fn one_1_among_0s(rt: HostRuntime) -> Result<(), Fail> {
    let texts = texts_of(rt.alloc(), AND, OR, None)?;
    let found = shown(rt.alloc(), &texts, "z")?;
    assert!(rt; is_shown(&found, pattern(2, false), &[false, true], false));
    Ok(())
}

// At pattern 2 the first signal is 1, and at the least difference 0.
#[test]
fn value_of_each_assignment(rt: HostRuntime) -> Result<(), Fail> {
    let texts = texts_of(rt.alloc(), A, B_OF_BOTH, None)?;
    let found = shown(rt.alloc(), &texts, "z")?;
    assert!(rt; is_shown(&found, pattern(2, true), &[false, true], false));
    Ok(())
}

// At pattern 2 the condition does not hold; pattern 3 is a = 0, b = 1.
#[test]
fn under_a_condition(rt: HostRuntime) -> Result<(), Fail> {
    let texts = texts_of(rt.alloc(), AND, OR, Some(B))?;
    let found = shown(rt.alloc(), &texts, "z")?;
    assert!(rt; is_shown(&found, pattern(3, false), &[false, true], false));
    let never = texts_of(rt.alloc(), AND, OR, Some(NEVER))?;
    assert!(rt; shown(rt.alloc(), &never, "z")?.is_none());
    Ok(())
}

#[test]
fn equal_functions(rt: HostRuntime) -> Result<(), Fail> {
    let texts = texts_of(rt.alloc(), AND, NOR, None)?;
    assert!(rt; shown(rt.alloc(), &texts, "z")?.is_none());
    Ok(())
}

// The variables are e and q. The next states differ if e is 1, so pattern 1 shows it, and the least difference has q = 0.
#[test]
fn next_states(rt: HostRuntime) -> Result<(), Fail> {
    let texts = texts_of(rt.alloc(), HELD, TOGGLED, None)?;
    let found = shown(rt.alloc(), &texts, "d")?;
    assert!(rt; is_shown(&found, pattern(1, true), &[true, false], false));
    Ok(())
}

#[test]
fn numbers_of_patterns(rt: HostRuntime) -> Result<(), Fail> {
    let few = Patterns::of(3, 10);
    assert!(rt; few.count() == 32768);
    let many = Patterns::of(3, 1_000_000);
    assert!(rt; many.count() == 4096);
    let one = many.assignment(rt.alloc(), 6)?;
    assert!(rt; one.as_slice() == [false, false, true].as_slice());
    let zero = many.assignment(rt.alloc(), 7)?;
    assert!(rt; zero.as_slice() == [true, true, false].as_slice());
    let drawn = many.assignment(rt.alloc(), 4095)?;
    assert!(rt; drawn.len() == 3);
    Ok(())
}

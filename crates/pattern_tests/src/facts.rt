// What is known of pairs before any attempt, by the public calls of `pair_facts`. The expected numbers are counted by
// hand: the first patterns are all 0, all 1, and then for each variable, as declared, one with only this variable at 1,
// and one with only it at 0.
ghost use Rattle.std.specs.Prelude.{◌≡◌, All, None};
ghost use Rattle.std.specs.List.{AllZip};
ghost use Rattle.net_bench.specs.Circuit.{circuit};
ghost use Rattle.net_names.specs.declared.order.Match.TheVariants.{Name};
ghost use Rattle.net_names.specs.declared.order.Order.TheVariants.{Declared};
ghost use Rattle.net_order.specs.Order.{IsNaming, condition};
ghost use Rattle.compare_built.specs.Comparing.{AreSignals, IsInside};
ghost use Rattle.pair_facts.specs.PairFacts.{IsFirstShown};

use compare_built::settings::Settings;
use compare_built::strategy::Strategy;
use compare_built::task::Task;
use expand_work::NoMonitor;
use net_bench::netlist::Netlist;
use net_bench::reader::parse_bench;
use net_names::order::Match;
use net_order::naming::{Naming, naming_of};
use net_patterns::ShownPattern;
use pair_facts::{PairFacts, facts_of, shown_verdict};
use report_text::{Difference, PairFilter, Verdict};
use std::alloc::{AllocError, Global};
use std::test::Fail;

/// The first outputs differ if a and b differ, the second outputs never.
static BOTH: &str = "INPUT(a)\nINPUT(b)\nOUTPUT(y)\nOUTPUT(z)\ny = AND(a, b)\nz = XOR(a, b)\n";

static EITHER: &str =
    "INPUT(a)\nINPUT(b)\nOUTPUT(y)\nOUTPUT(z)\ny = OR(a, b)\nnz = XNOR(a, b)\nz = NOT(nz)\n";

/// The settings of a comparison by cones.
fn settings_of(alloc: Global) -> Settings {
    Settings {
        matching: Match::Name,
        order: Strategy::Cones,
        picked: PairFilter::All,
        difference: Difference::Least,
        workers: 1,
        limit: 1_000,
        sizes: false,
        json: false,
        explain: Vec::new(alloc),
        assignment: None,
        vcd: false,
        causes: false,
    }
}

/// The verdict of the pair at this place, if a pattern shows that it differs.
fn verdict_at<H>(
    task: &Task<'_, H>,
    naming: &Naming,
    facts: &PairFacts,
    place: usize,
) -> Result<Option<Verdict>, AllocError>
    requires inside { All (IsInside (circuit task.now.first.now) (circuit task.now.second.now)) facts.now.subjects.items }
    requires shown { AllZip (IsFirstShown (circuit task.now.first.now) (circuit task.now.second.now) (condition task.now.given)
        naming.now) facts.now.subjects.items facts.now.shown.items }
{
    if place >= facts.subjects.len() || place >= facts.shown.len() {
        return Ok(None);
    }
    let subject = facts.subjects[place];
    let Some(pattern) = facts.shown[place] else {
        return Ok(None);
    };
    let verdict = shown_verdict(task, naming, &subject, pattern)?;
    Ok(Some(verdict))
}

/// The comparison of two netlists by these settings.
fn task_of<'a, R>(
    rt: &'a R,
    alloc: Global,
    first: &'a Netlist,
    second: &'a Netlist,
    settings: &'a Settings,
) -> Task<'a, R>
    ensures first { result.first.now ≡ first.now }
    ensures second { result.second.now ≡ second.now }
    ensures given { result.given ≡ None }
    ensures settings { result.settings.now ≡ settings.now }
{
    let given = None;
    Task {
        rt,
        alloc,
        first,
        second,
        given,
        settings,
    }
}

/// For contracts only: what a naming compares are signals of the netlists.
fn note_signals<R>(task: &Task<'_, R>, naming: &Naming)
    requires { IsNaming Name (circuit task.now.first.now) (circuit task.now.second.now) None Declared naming.now }
    ensures { AreSignals (circuit task.now.first.now) (circuit task.now.second.now) naming.now }
{
    let _ = task.first.inputs(); // For the proof.
    let _ = task.second.inputs(); // For the proof.
    let _ = naming; // For the proof.
}

/// What patterns show of the pairs of two netlists, and the verdict of the first pair.
fn judged_nets<R: AllocGlobal>(
    rt: &R,
    alloc: Global,
    first: &Netlist,
    second: &Netlist,
) -> Result<(Vec<Option<ShownPattern>>, Option<Verdict>), Fail> {
    let settings = settings_of(alloc);
    let task = task_of(rt, alloc, first, second, &settings);
    let naming = naming_of(alloc, task.first, task.second, None, Match::Name)?;
    note_signals(&task, &naming); // For the proof.
    let facts = facts_of(&task, &naming, &NoMonitor)?;
    let verdict = verdict_at(&task, &naming, &facts, 0)?;
    let PairFacts { shown, .. } = facts;
    Ok((shown, verdict))
}

/// What patterns show of the pairs of two texts, and the verdict of the first pair.
fn judged<R: AllocGlobal>(
    rt: &R,
    first: &str,
    second: &str,
) -> Result<(Vec<Option<ShownPattern>>, Option<Verdict>), Fail> {
    let alloc = rt.alloc();
    let first = parse_bench(alloc, first.as_bytes())?;
    let second = parse_bench(alloc, second.as_bytes())?;
    judged_nets(rt, alloc, &first, &second)
}

/// Whether a verdict is a difference at this assignment that may not be the least, the first function has this value
/// there, and the second the complement.
fn is_difference(verdict: &Option<Verdict>, at: &[bool], value: bool) -> bool {
    match verdict {
        Some(
            Verdict::Differs {
                at: bits,
                first,
                second,
                extras,
                ..
            },
        ) => !extras.least && bits.as_slice() == at && *first == value && *second != value,
        _ => false,
    }
}

// Pattern 2 is a = 1, b = 0, and the least difference is a = 0, b = 1.
#[test]
fn a_pair_that_differs(rt: HostRuntime) -> Result<(), Fail> {
    let (shown, verdict) = judged(&rt, BOTH, EITHER)?;
    let pattern = ShownPattern {
        number: 2,
        first: false,
    };
    assert!(rt; shown.as_slice() == [Some(pattern), None].as_slice());
    assert!(rt; is_difference(&verdict, &[false, true], false));
    Ok(())
}

#[test]
fn pairs_that_are_equal(rt: HostRuntime) -> Result<(), Fail> {
    let (shown, verdict) = judged(&rt, BOTH, BOTH)?;
    assert!(rt; shown.as_slice() == [None, None].as_slice());
    assert!(rt; verdict.is_none());
    Ok(())
}

//! The verdict of a pair that a pattern shows to differ.
ghost use Rattle.std.specs.Prelude.{◌<◌, IfOk, IfSome};
ghost use Rattle.net_bench.specs.Circuit.{circuit};
ghost use Rattle.net_order.specs.Order.{condition};
ghost use Rattle.net_patterns.specs.Differences.{HasOutput, IsCounterexample, IsPairOf};
ghost use Rattle.net_patterns.specs.Patterns.{pattern_count};
ghost use Rattle.compare_built.specs.Comparing.{IsInside};
ghost use Rattle.compare_built.specs.Facts.{IsShownVerdict, patterns_of};
ghost use Rattle.compare_built.specs.Scatter.{IsOfNet};
ghost use Rattle.pair_facts.specs.PairFacts.{IsShownWith};

use crate::facts::patterns_of;
use compare_built::subject::Subject;
use compare_built::task::Task;
use net_bench::netlist::{Netlist, Signal};
use net_order::naming::Naming;
use net_patterns::{Counterexample, Netlists, ShownPattern, make_small};
use report_text::{Bits, Extras, Name, Verdict};
use std::alloc::{AllocError, Global};

/// The most gates that are evaluated for the windows of one size, for all pairs together. With this number the
/// assignments of all pairs are made small in less than a second.
const GATE_WINDOWS: usize = 2_000_000;

/// Returns how many windows of each size are tried for each pair of two netlists with so many gates and pairs.
fn windows_for(gates: usize, pairs: usize) -> usize {
    GATE_WINDOWS / gates.max(1) / pairs.max(1)
}

/// Returns the same for two netlists and the pairs of their naming. The larger netlist counts, and the more numerous
/// kind of pairs.
fn windows_of(netlists: &Netlists<'_, '_>) -> usize {
    let naming = netlists.naming;
    let gates = netlists
        .first
        .gates()
        .len()
        .max(netlists.second.gates().len());
    let pairs = naming.output_pairs().len().max(naming.next_pairs().len());
    windows_for(gates, pairs)
}

/// Returns a counterexample of the pair that is nearer to the least, or the given one if no window may be tried or none
/// shows another.
fn made_small(
    alloc: Global,
    netlists: &Netlists<'_, '_>,
    pair: (Signal, Signal),
    found: Counterexample,
) -> Result<Counterexample, AllocError>
    requires pair { IsPairOf (circuit netlists.now.first.now) (circuit netlists.now.second.now) pair }
    requires condition { IfSome (condition netlists.now.given) HasOutput }
    requires difference { IsCounterexample (circuit netlists.now.first.now) (circuit netlists.now.second.now)
        (condition netlists.now.given) netlists.now.naming.now pair found }
    ensures { IfOk result (IsCounterexample (circuit netlists.now.first.now) (circuit netlists.now.second.now)
        (condition netlists.now.given) netlists.now.naming.now pair) }
{
    let windows = windows_of(netlists);
    if windows == 0 {
        return Ok(found);
    }
    let small = make_small(alloc, netlists, pair, windows, found)?;
    Ok(small)
}

/// For the proof: a condition that is given is the circuit of a netlist.
fn note_condition(given: Option<&Netlist>)
    ensures { IfSome (condition given.entry) IsOfNet }
{
    let Some(net) = given else {
        return;
    };
    let _ = net.outputs(); // For the proof.
}

/// Returns the verdict of a pair that a pattern shows to differ. Its assignment is the pattern, made smaller as far as
/// `GATE_WINDOWS` allows, so it may not be the least. The values of the functions at the pattern are known from
/// `shown`, and are not computed again. Fails if memory is refused.
pub fn shown_verdict<H>(
    task: &Task<'_, H>,
    naming: &Naming,
    subject: &Subject,
    shown: ShownPattern,
) -> Result<Verdict, AllocError>
    requires inside { IsInside (circuit task.now.first.now) (circuit task.now.second.now) subject.now }
    requires number { shown.number < pattern_count (patterns_of (circuit task.now.first.now) (circuit task.now.second.now) naming.now) }
    requires shown { IsShownWith (circuit task.now.first.now) (circuit task.now.second.now) (condition task.now.given) naming.now subject.now shown }
    ensures { IfOk result (IsShownVerdict (circuit task.now.first.now) (circuit task.now.second.now) (condition task.now.given)
        naming.now subject.now) }
{
    let alloc = task.alloc;
    let _ = task.first.inputs(); // For the proof.
    let _ = task.second.inputs(); // For the proof.
    note_condition(task.given); // For the proof.
    let netlists = Netlists {
        first: task.first,
        second: task.second,
        given: task.given,
        naming,
    };
    let patterns = patterns_of(task.first, task.second, naming);
    let pattern = patterns.assignment(alloc, shown.number)?;
    let found = Counterexample {
        at: pattern,
        first: shown.first,
    };
    let small = made_small(alloc, &netlists, (subject.first, subject.second), found)?;
    let name = Name::copied(alloc, task.first.name(subject.named))?;
    Ok(Verdict::Differs {
        role: subject.role,
        name,
        at: Bits::of(small.at),
        first: small.first,
        second: !small.first,
        extras: Extras {
            least: false,
            support: None,
            sizes: None,
        },
    })
}

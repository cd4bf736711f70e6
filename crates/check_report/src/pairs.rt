//! The comparisons that judge pairs one by one: by cones, by merging, and auto, which also makes
//! attempts at the whole netlists.
//!
//! docs/ORDERS.md numbers the steps of auto from 1 to 7. `compare_whole_first` does step 1,
//! `compare_after_search` the steps 2 to 4, `compare_pairs` 5 and 6, and `with_last_attempts` 7. If
//! any difference is enough, `compare_pairs_first` begins with 2 and 3, and step 7 makes up for 1
//! and 4. If there are more variables than a pairing can have, `merged_verdicts` does 2, 3, 5 and
//! 6.
//!
//! A `Naming` says which variables there are and which pairs are compared; a `Pairing` is a naming
//! of at most 4,096 variables, so that each of them can be a level of a diagram. Both are here in
//! declared order, that of the report, whatever orders are tried. `equal[place]` is of the pair
//! `facts.subjects[place]`.
ghost use Rattle.std.specs.Prelude.{◌≡◌, IfOk, IfErr};
ghost use Rattle.std.specs.List.{list_any};
ghost use Rattle.net_bench.specs.Circuit.{circuit};
ghost use Rattle.compare_built.specs.Attempts.{first_whole_limit};
ghost use Rattle.compare_built.specs.Comparing.{AreSignals};
ghost use Rattle.compare_built.specs.Findings.{found_of};
ghost use Rattle.compare_built.specs.Picking.{TakesPicks};
ghost use Rattle.compare_built.specs.declared.strategy.Strategy.{Strategy};
ghost use Rattle.order_search.specs.Trials.{AreAllGivenUp, AreTrials, IsDeclaredNaming, IsDeclaredPairing};
ghost use Rattle.cone_check.specs.ConeRounds.{EndsPairs, IsFoundByCones};
ghost use Rattle.cone_check.specs.KnownPairs.{AreFacts};
ghost use Rattle.explain_report.specs.Deciding.{is_open};
ghost use Rattle.check_report.specs.Decisions.{IfDecided, IfNamed, IfRefused};
ghost use Rattle.check_report.specs.Pairs.{AreEqualIf, EndsComparison};
ghost use Rattle.check_report.specs.Wholes.{AreTriedBefore};

use crate::merging::{Merged, equal_pairs, first_round, is_enough, none_equal, second_round};
use crate::whole::{
    FIRST_WHOLE_LIMIT, TriedBefore, WholeEnd, search_again, search_within, try_rest, whole_verdicts,
};
use compare_built::fault::CheckFault;
use compare_built::found::Verdicts;
use compare_built::strategy::Attempt;
use compare_built::task::Task;
use cone_check::cone_comparison::verdicts_by_cones;
use cone_check::pair_cones::as_comparison_fault;
use expand_work::Monitor;
use net_order::naming::Naming;
use net_order::pairing::Pairing;
use order_search::trials::{Trial, named};
use pair_facts::{PairFacts, facts_of};
use report_text::{Difference, Verdict};
use std::sync::Wait;
use std::thread::Threads;

/// Does nothing. Its contract says that the pairs of a naming are signals of the netlists.
fn note_signals<H>(task: &Task<'_, H>, naming: &Naming)
    requires { IsDeclaredNaming task.now naming.now }
    ensures { AreSignals (circuit task.now.first.now) (circuit task.now.second.now) naming.now }
{
    let _ = task.first.inputs(); // For the proof.
    let _ = task.second.inputs(); // For the proof.
    let _ = naming; // For the proof.
}

/// Returns the naming of a pairing in declared order.
fn naming_in<'a, H>(task: &Task<'_, H>, declared: &'a Pairing) -> &'a Naming
    requires { IsDeclaredPairing task.now declared.now }
    ensures same { result.now ≡ declared.entry.now }
    ensures naming { IsDeclaredNaming task.now result.now }
{
    let _ = task; // For the proof.
    declared.naming()
}

/// Returns the pairs that are selected, with what patterns show of them.
fn facts_in<H, G: Monitor>(
    task: &Task<'_, H>,
    naming: &Naming,
    monitor: &G,
) -> Result<PairFacts, CheckFault>
    requires { IsDeclaredNaming task.now naming.now }
    ensures facts { IfOk result (AreFacts task.now naming.now) }
    ensures ends { IfErr result (EndsComparison task.now) }
{
    note_signals(task, naming); // For the proof.
    let facts = facts_of(task, naming, monitor)?;
    Ok(facts)
}

/// Returns whether another attempt could improve the verdict of a pair: it is Undecided, or the least difference is
/// asked for and this one need not be the least.
fn is_open(difference: Difference, verdict: &Verdict) -> bool
    ensures { result ≡ is_open difference verdict.now }
{
    match verdict {
        Verdict::Undecided { .. } => true,
        Verdict::Differs { extras, .. } => match difference {
            Difference::Least => !extras.least,
            Difference::AnyOne => false,
        },
        Verdict::Equal { .. } => false,
        Verdict::Unmatched { .. } => false,
    }
}

/// Returns whether another attempt could improve one of the verdicts.
fn is_any_open(difference: Difference, verdicts: &[Verdict]) -> bool
    ensures { result ≡ list_any (is_open difference) verdicts.now }
{
    for verdict in verdicts {
        if is_open(difference, verdict) {
            return true;
        }
    }
    false
}

/// Makes the remaining attempts at the whole netlists if another attempt could improve a verdict, and returns their
/// verdicts if one of them succeeds, and the given verdicts otherwise.
fn with_last_attempts<H: Threads + Wait + Sync, G: Monitor>(
    task: &Task<'_, H>,
    verdicts: Verdicts,
    before: TriedBefore,
    monitor: &G,
) -> Result<(Verdicts, Option<Attempt>), CheckFault>
    requires auto { task.now.settings.now.order ≡ Strategy.Auto }
    requires naming { IsDeclaredNaming task.now verdicts.naming }
    requires found { IsFoundByCones task.now (G.bound monitor.now) verdicts.naming (found_of verdicts) }
    requires before { AreTriedBefore task.now (G.bound monitor.now) before }
    ensures decision { IfDecided task.now (G.bound monitor.now) result }
    ensures named { IfNamed task.now result }
    ensures ends { IfErr result EndsPairs }
{
    if !is_any_open(task.settings.difference, verdicts.as_slice()) {
        return Ok((verdicts, None));
    }
    // The first naming is in the verdicts, which are the result if no attempt succeeds. So there is
    // a second one, for which only memory can be refused, since the first was made.
    let naming = match named(task) {
        Ok(naming) => naming,
        Err(fault) => return Err(as_comparison_fault(fault)),
    };
    let declared = match Pairing::of(naming) {
        Ok(pairing) => pairing,
        Err(_) => return Ok((verdicts, None)),
    };
    match try_rest(task, &declared, before, monitor) {
        Ok(Some(decided)) => Ok(whole_verdicts(declared, decided)),
        Ok(None) => Ok((verdicts, None)),
        Err(fault) => Err(as_comparison_fault(fault)),
    }
}

/// Does the second round of merging, judges the pairs that are left by their cones, and makes the last attempts at the
/// whole netlists.
fn compare_pairs<H: Threads + Wait + Sync, G: Monitor>(
    task: &Task<'_, H>,
    naming: Naming,
    facts: PairFacts,
    merged: Merged,
    before: TriedBefore,
    monitor: &G,
) -> Result<(Verdicts, Option<Attempt>), CheckFault>
    requires auto { task.now.settings.now.order ≡ Strategy.Auto }
    requires naming { IsDeclaredNaming task.now naming }
    requires facts { AreFacts task.now naming facts }
    requires merged { AreEqualIf task.now naming facts merged.equal.items }
    requires before { AreTriedBefore task.now (G.bound monitor.now) before }
    ensures decision { IfDecided task.now (G.bound monitor.now) result }
    ensures named { IfNamed task.now result }
    ensures ends { IfErr result EndsPairs }
{
    let equal = second_round(task, &naming, &facts, merged, monitor)?;
    let verdicts = verdicts_by_cones(task, naming, facts, equal.as_slice(), monitor)?;
    with_last_attempts(task, verdicts, before, monitor)
}

/// Continues after each attempt at the whole netlists within the first limit was given up: with patterns and a first
/// round of merging, then with attempts within the second limit if that round has not decided enough, and then pair by
/// pair.
fn compare_after_search<H: Threads + Wait + Sync, G: Monitor>(
    task: &Task<'_, H>,
    declared: Pairing,
    trials: Vec<Trial>,
    monitor: &G,
) -> Result<(Verdicts, Option<Attempt>), CheckFault>
    requires auto { task.now.settings.now.order ≡ Strategy.Auto }
    requires pairing { IsDeclaredPairing task.now declared }
    requires trials { AreTrials task.now trials.items }
    requires given_up { AreAllGivenUp task.now (first_whole_limit task.now.settings.now.limit) (G.bound monitor.now) }
    ensures decision { IfDecided task.now (G.bound monitor.now) result }
    ensures named { IfNamed task.now result }
    ensures ends { IfErr result (EndsComparison task.now) }
{
    let naming = naming_in(task, &declared);
    let facts = facts_in(task, naming, monitor)?;
    let merged = first_round(task, naming, &facts, monitor)?;
    if is_enough(merged.equal.as_slice()) {
        let before = TriedBefore::First(trials);
        return compare_pairs(task, declared.into_naming(), facts, merged, before, monitor);
    }
    match search_again(task, &declared, trials, monitor) {
        Ok(WholeEnd::Decided(decided)) => Ok(whole_verdicts(declared, decided)),
        Ok(WholeEnd::GivenUp(trials)) => {
            let before = TriedBefore::Second(trials);
            compare_pairs(task, declared.into_naming(), facts, merged, before, monitor)
        }
        Err(fault) => Err(as_comparison_fault(fault)),
    }
}

/// Makes attempts at the whole netlists within the first limit, and continues if each was given up. The least
/// difference is searched for, whatever patterns show.
fn compare_whole_first<H: Threads + Wait + Sync, G: Monitor>(
    task: &Task<'_, H>,
    declared: Pairing,
    monitor: &G,
) -> Result<(Verdicts, Option<Attempt>), CheckFault>
    requires auto { task.now.settings.now.order ≡ Strategy.Auto }
    requires pairing { IsDeclaredPairing task.now declared }
    ensures decision { IfDecided task.now (G.bound monitor.now) result }
    ensures named { IfNamed task.now result }
    ensures ends { IfErr result (EndsComparison task.now) }
{
    match search_within(task, &declared, FIRST_WHOLE_LIMIT, monitor) {
        Ok(WholeEnd::Decided(decided)) => Ok(whole_verdicts(declared, decided)),
        Ok(WholeEnd::GivenUp(trials)) => compare_after_search(task, declared, trials, monitor),
        Err(fault) => Err(as_comparison_fault(fault)),
    }
}

/// Judges the pairs before any attempt at the whole netlists. This is done if any difference is enough, since patterns
/// may show most of them at once.
fn compare_pairs_first<H: Threads + Wait + Sync, G: Monitor>(
    task: &Task<'_, H>,
    naming: Naming,
    monitor: &G,
) -> Result<(Verdicts, Option<Attempt>), CheckFault>
    requires auto { task.now.settings.now.order ≡ Strategy.Auto }
    requires any { task.now.settings.now.difference ≡ Difference.AnyOne }
    requires naming { IsDeclaredNaming task.now naming }
    ensures decision { IfDecided task.now (G.bound monitor.now) result }
    ensures named { IfNamed task.now result }
    ensures ends { IfErr result (EndsComparison task.now) }
{
    let facts = facts_in(task, &naming, monitor)?;
    let merged = first_round(task, &naming, &facts, monitor)?;
    compare_pairs(task, naming, facts, merged, TriedBefore::Nothing, monitor)
}

/// Does both rounds of merging, and judges the pairs that are left by their cones.
fn merged_verdicts<H: Threads + Wait + Sync, G: Monitor>(
    task: &Task<'_, H>,
    naming: Naming,
    monitor: &G,
) -> Result<Verdicts, CheckFault>
    requires naming { IsDeclaredNaming task.now naming }
    ensures verdicts { IfOk result (λ v. IsFoundByCones task.now (G.bound monitor.now) naming (found_of v)) }
    ensures named { IfOk result (λ v. v.naming ≡ naming) }
    ensures ends { IfErr result (EndsComparison task.now) }
{
    let facts = facts_in(task, &naming, monitor)?;
    let equal = equal_pairs(task, &naming, &facts, monitor)?;
    let verdicts = verdicts_by_cones(task, naming, facts, equal.as_slice(), monitor)?;
    Ok(verdicts)
}

/// Judges pairs by their cones, without merging.
fn cone_verdicts<H: Threads + Wait + Sync, G: Monitor>(
    task: &Task<'_, H>,
    naming: Naming,
    monitor: &G,
) -> Result<Verdicts, CheckFault>
    requires naming { IsDeclaredNaming task.now naming }
    ensures verdicts { IfOk result (λ v. IsFoundByCones task.now (G.bound monitor.now) naming (found_of v)) }
    ensures named { IfOk result (λ v. v.naming ≡ naming) }
    ensures ends { IfErr result (EndsComparison task.now) }
{
    let facts = facts_in(task, &naming, monitor)?;
    let equal = none_equal(task.alloc, &facts)?;
    let verdicts = verdicts_by_cones(task, naming, facts, equal.as_slice(), monitor)?;
    Ok(verdicts)
}

/// Compares two netlists by several methods: attempts at the whole netlists within budgets that grow, patterns that
/// show differences, merging that shows pairs to be equal inside, and for each pair that is left its cones. If there
/// are more variables than a pairing can have, there are no attempts at the whole netlists. The report is in declared
/// order, whatever method decides.
pub(crate) fn compare_auto<H: Threads + Wait + Sync, G: Monitor>(
    task: &Task<'_, H>,
    monitor: &G,
) -> Result<(Verdicts, Option<Attempt>), CheckFault>
    requires auto { task.now.settings.now.order ≡ Strategy.Auto }
    ensures decision { IfDecided task.now (G.bound monitor.now) result }
    ensures no_decision { IfRefused task.now (G.bound monitor.now) result }
    ensures named { IfNamed task.now result }
{
    let naming = named(task)?;
    let declared = match Pairing::of(naming) {
        Ok(pairing) => pairing,
        Err(naming) => {
            let verdicts = merged_verdicts(task, naming, monitor)?;
            return Ok((verdicts, None));
        }
    };
    match task.settings.difference {
        Difference::AnyOne => compare_pairs_first(task, declared.into_naming(), monitor),
        Difference::Least => compare_whole_first(task, declared, monitor),
    }
}

/// Compares each selected pair by its cones. The report is in declared order.
pub(crate) fn compare_by_cones<H: Threads + Wait + Sync, G: Monitor>(
    task: &Task<'_, H>,
    monitor: &G,
) -> Result<(Verdicts, Option<Attempt>), CheckFault>
    requires picks { TakesPicks task.now.settings.now.order }
    ensures decision { IfDecided task.now (G.bound monitor.now) result }
    ensures no_decision { IfRefused task.now (G.bound monitor.now) result }
    ensures named { IfNamed task.now result }
{
    let naming = named(task)?;
    let verdicts = cone_verdicts(task, naming, monitor)?;
    Ok((verdicts, None))
}

/// Merges equal signals of both netlists, and compares the pairs that this does not decide by their cones. The report
/// is in declared order.
pub(crate) fn compare_by_merging<H: Threads + Wait + Sync, G: Monitor>(
    task: &Task<'_, H>,
    monitor: &G,
) -> Result<(Verdicts, Option<Attempt>), CheckFault>
    requires merge { task.now.settings.now.order ≡ Strategy.Merge }
    ensures decision { IfDecided task.now (G.bound monitor.now) result }
    ensures no_decision { IfRefused task.now (G.bound monitor.now) result }
    ensures named { IfNamed task.now result }
{
    let naming = named(task)?;
    let verdicts = merged_verdicts(task, naming, monitor)?;
    Ok((verdicts, None))
}

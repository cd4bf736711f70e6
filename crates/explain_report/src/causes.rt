//! The causes of differences: the first inner signals of the pairs that differ, each with all pairs of which it is the first.
ghost use Rattle.std.specs.Prelude.{◌≡◌, ◌<◌, ◌≤◌, ◌++◌, ◌∷◌, [], length, map, filter, take, zip, option_map, All, IfOk, OnOk};
ghost use Rattle.std.specs.List.{list_any};
ghost use Rattle.net_bench.specs.Circuit.{circuit};
ghost use Rattle.compare_built.specs.Comparing.{AreSignals};
ghost use Rattle.compare_built.specs.Findings.{found_of};
ghost use Rattle.order_search.specs.Tasks.{IsInTask};
ghost use Rattle.explain_report.specs.Causing.{AreCauses, AreCausesOf, ArePickedPairs, IsSignalKnown, cause_of, causes_in, causes_of};
ghost use Rattle.explain_report.specs.Causing.{first_time, has_first_signal};
ghost use Rattle.explain_report.specs.Explaining.{HaveSomeReportNaming, OfReport};

use crate::first_differences::{FirstDifference, all_first_differences};
use compare_built::compared_pairs::subjects_of;
use compare_built::found::Verdicts;
use compare_built::subject::Subject;
use compare_built::task::Task;
use net_bench::netlist::{Netlist, Signal};
use net_explain::InnerSignal;
use net_order::naming::Naming;
use pair_facts::{Selection, select_pairs};
use report_text::{Cause, Name, PairFilter, PairName, Verdict};
use std::alloc::{AllocError, Global};

/// Whether this is the first inner signal of a pair.
fn has_first_signal(signal: Signal, difference: &FirstDifference) -> bool
    ensures { result ≡ has_first_signal signal difference.now }
{
    difference.inner.first.number() == signal.number()
}

/// Whether it is that of one of these pairs.
fn any_has_first_signal(signal: Signal, differences: &[FirstDifference]) -> bool
    ensures { result ≡ list_any (has_first_signal signal) differences.now }
{
    for one in differences {
        if has_first_signal(signal, one) {
            return true;
        }
    }
    false
}

/// A copy of a pair's name.
fn copied(alloc: Global, pair: &PairName) -> Result<PairName, AllocError>
    ensures { IfOk result (λ name. name ≡ pair.now) }
{
    let name = Name::copied(alloc, pair.name.as_slice())?;
    Ok(PairName {
        role: pair.role,
        name,
    })
}

/// Appends the name of a pair, if this is its first inner signal.
fn add_if_caused_by(
    alloc: Global,
    signal: Signal,
    difference: &FirstDifference,
    pairs: &mut Vec<PairName>,
) -> Result<(), AllocError>
    ensures { OnOk result (pairs.new.items ≡ pairs.old.items ++ map (λ one. one.pair) (filter (has_first_signal signal) (difference.now ∷ []))) }
{
    if !has_first_signal(signal, difference) {
        return Ok(());
    }
    let name = copied(alloc, &difference.pair)?;
    pairs.push(name)?;
    Ok(())
}

/// The names of those of the pairs that have this first inner signal.
fn pairs_caused_by(
    alloc: Global,
    signal: Signal,
    differences: &[FirstDifference],
) -> Result<Vec<PairName>, AllocError>
    ensures { IfOk result (λ pairs. pairs.items ≡ map (λ one. one.pair) (filter (has_first_signal signal) differences.now)) }
{
    let mut pairs = Vec::new(alloc);
    for place in 0..differences.len() {
        add_if_caused_by(alloc, signal, &differences[place], &mut pairs)?;
    }
    Ok(pairs)
}

/// The cause that an inner signal is, with those of the pairs that have it as their first.
fn cause_of(
    alloc: Global,
    net: &Netlist,
    differences: &[FirstDifference],
    inner: InnerSignal,
) -> Result<Cause, AllocError>
    requires { inner.first < length net.now.names }
    ensures { IfOk result (λ cause. cause ≡ cause_of net.now.names differences.now inner) }
{
    let signal = Name::copied(alloc, net.name(inner.first))?;
    let pairs = pairs_caused_by(alloc, inner.first, differences)?;
    Ok(Cause::of(signal, (inner.first_line, inner.second_line), pairs))
}

/// Appends the cause that an inner signal is, unless it is already there for one of the pairs before.
fn add_cause(
    alloc: Global,
    net: &Netlist,
    differences: &[FirstDifference],
    before: &[FirstDifference],
    inner: InnerSignal,
    causes: &mut Vec<Cause>,
) -> Result<(), AllocError>
    requires { inner.first < length net.now.names }
    ensures { OnOk result (causes.new.items ≡ causes.old.items ++ map (cause_of net.now.names differences.now) (first_time before.now inner)) }
{
    if any_has_first_signal(inner.first, before) {
        return Ok(());
    }
    let cause = cause_of(alloc, net, differences, inner)?;
    causes.push(cause)?;
    Ok(())
}

/// The pairs before a place.
fn before(differences: &[FirstDifference], place: usize) -> &[FirstDifference]
    requires { place ≤ length differences.now }
    ensures { result.now ≡ take place differences.now }
{
    differences.split_at(place).0
}

/// The causes of the pairs, in the order of the first pair of each. Time is quadratic in the number of pairs.
fn causes_of(
    alloc: Global,
    net: &Netlist,
    differences: &[FirstDifference],
) -> Result<Vec<Cause>, AllocError>
    requires { All (IsSignalKnown net.now) differences.now }
    ensures { IfOk result (λ causes. causes.items ≡ causes_of net.now.names differences.now) }
{
    let mut causes = Vec::new(alloc);
    for place in 0..differences.len() {
        let inner = differences[place].inner;
        add_cause(
            alloc,
            net,
            differences,
            before(differences, place),
            inner,
            &mut causes,
        )?;
    }
    Ok(causes)
}

/// The causes of those of these pairs that differ; the verdict at a place is that of the pair at this place.
fn all_causes<H>(
    task: &Task<'_, H>,
    naming: &Naming,
    pairs: &[Subject],
    verdicts: &[Verdict],
) -> Result<Vec<Cause>, AllocError>
    requires { All (IsInTask task.now) pairs.now }
    ensures { IfOk result (λ causes. AreCausesOf task.now.first.now task.now.second.now naming.now (zip pairs.now verdicts.now) causes.items) }
{
    let differences = all_first_differences(task, naming, pairs, verdicts)?;
    causes_of(task.alloc, task.first, differences.as_slice())
}

/// The pairs that the settings pick, in the order of the report. A name pattern that picks nothing has ended the
/// comparison before this is called; here it fails as if memory were refused.
fn picked_pairs<H>(task: &Task<'_, H>, naming: &Naming) -> Result<Vec<Subject>, AllocError>
    requires { AreSignals (circuit task.now.first.now) (circuit task.now.second.now) naming.now }
    ensures picked { IfOk result (λ v. ArePickedPairs (circuit task.now.first.now) (circuit task.now.second.now) naming.now
        task.now.settings.now v.items) }
    ensures inside { IfOk result (λ v. All (IsInTask task.now) v.items) }
{
    if let PairFilter::All = &task.settings.picked {
        return subjects_of(task.alloc, task.first, task.second, naming);
    }
    match select_pairs(task, naming) {
        Ok(Selection { subjects, .. }) => Ok(subjects),
        Err(_) => Err(AllocError),
    }
}

/// These causes as a slice, if there are any.
pub fn listed(causes: &Option<Vec<Cause>>) -> Option<&[Cause]>
    ensures { option_map (λ list. list.now) result ≡ causes_in causes.now }
{
    match causes {
        Some(causes) => Some(causes.as_slice()),
        None => None,
    }
}

/// The causes of the pairs of these verdicts, over their naming; None if the settings do not ask for them. The verdict at
/// a place is taken to be that of the picked pair at this place.
pub fn causes<H>(task: &Task<'_, H>, verdicts: &Verdicts) -> Result<Option<Vec<Cause>>, AllocError>
    requires { HaveSomeReportNaming task.now verdicts.now }
    ensures causes { OfReport task.now verdicts.now (λ input s tried.
        IfOk result (λ causes. AreCauses s.causes input s tried (found_of verdicts.now) (causes_in causes))) }
{
    if !task.settings.causes {
        return Ok(None);
    }
    let _ = task.first.inputs(); // For the proof.
    let _ = task.second.inputs(); // For the proof.
    let naming = verdicts.naming();
    let pairs = picked_pairs(task, naming)?;
    let causes = all_causes(task, naming, pairs.as_slice(), verdicts.as_slice())?;
    Ok(Some(causes))
}

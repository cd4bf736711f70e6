//! The pairs of outputs and of next states that are picked, and the outputs and registers without a partner that are.
ghost use Rattle.std.specs.Prelude.{◌≡◌, ◌⊎◌, ◌<◌, [], true, false, if◌then◌else◌, ◌==◌, All, Contains, Err, IfErr, IfOk};
ghost use Rattle.std.specs.Prelude.{filter, length, zip};
ghost use Rattle.net_bench.specs.Circuit.{circuit};
ghost use Rattle.report_text.specs.declared.pair_filter.PairFilter.TheVariants.{All as AllPairs, Only as OnlyNamed, Share as InShare};
ghost use Rattle.report_text.specs.declared.cause.PairName.{PairName as NameOfPair};
ghost use Rattle.compare_built.specs.Comparing.{AreSignals};
ghost use Rattle.compare_built.specs.PairSelection.{ArePicked, HasPicked, HasUnknown, is_picked, is_unmatched_of, is_one_of, is_pair_of, of_share};
ghost use Rattle.compare_built.specs.Report.{unmatched_of_side, unmatched_verdicts, subjects};

use crate::shares::shares_of;
use compare_built::compared_pairs::subjects_of;
use compare_built::fault::CheckFault;
use compare_built::named_signals::{has_picked, is_picked_by};
use compare_built::subject::Subject;
use compare_built::task::Task;
use compare_built::unmatched::{add_first_unmatched, add_second_unmatched, add_unmatched};
use net_bench::netlist::{Netlist, Signal};
use net_order::naming::Naming;
use report_text::{PairFilter, PairKind, PairName, Share, Side, Verdict};
use std::alloc::{AllocError, Global};

/// The pairs that are picked, and the verdicts of the outputs and registers without a partner that are picked, both in
/// the order of the report.
#[derive(Drop)]
pub struct Selection {
    pub subjects: Vec<Subject>,
    pub unmatched_lines: Vec<Verdict>,
}

/// Whether one of the patterns picks a pair of this kind and name.
fn is_picked(patterns: &[PairName], kind: PairKind, name: &[u8]) -> bool
    ensures { result ≡ is_picked patterns.now kind name.now }
{
    for pattern in patterns {
        if is_picked_by(kind, name, pattern) {
            return true;
        }
    }
    false
}

/// Whether each of the patterns picks an output or a register of the netlist.
fn are_known(net: &Netlist, patterns: &[PairName]) -> bool
    ensures known { result ≡ true → (p : NameOfPair) → Contains patterns.now p → HasPicked (circuit net.now) p }
    ensures unknown { result ≡ false → (p : NameOfPair) × Contains patterns.now p × (HasPicked (circuit net.now) p → ⊥) }
{
    for pattern in patterns {
        if !has_picked(net, pattern) {
            return false;
        }
    }
    true
}

/// Returns the pairs that one of the patterns picks.
fn named_subjects(
    alloc: Global,
    net: &Netlist,
    patterns: &[PairName],
    subjects: &[Subject],
) -> Result<Vec<Subject>, AllocError>
    requires { All (λ subject. subject.named < length net.now.names) subjects.now }
    ensures { IfOk result (λ v. v.items ≡ filter (is_pair_of (circuit net.now) patterns.now) subjects.now) }
{
    let mut picked = Vec::new(alloc);
    for place in 0..subjects.len() {
        let subject = subjects[place];
        if is_picked(patterns, subject.role, net.name(subject.named)) {
            picked.push(subject)?;
        }
    }
    Ok(picked)
}

/// Returns the signals that one of the patterns picks, taken as pairs of this kind.
fn named_signals(
    alloc: Global,
    net: &Netlist,
    patterns: &[PairName],
    kind: PairKind,
    signals: &[Signal],
) -> Result<Vec<Signal>, AllocError>
    requires { All (λ s. s < length net.now.names) signals.now }
    ensures { IfOk result (λ v. v.items ≡ filter (is_one_of (circuit net.now) patterns.now kind) signals.now) }
{
    let mut picked = Vec::new(alloc);
    for place in 0..signals.len() {
        let signal = signals[place];
        if is_picked(patterns, kind, net.name(signal)) {
            picked.push(signal)?;
        }
    }
    Ok(picked)
}

/// Returns the verdicts of the first netlist's outputs and registers without a partner that one of the patterns picks.
/// Patterns pick nothing of the second netlist, as pairs have the first netlist's names.
fn named_unmatched(
    alloc: Global,
    net: &Netlist,
    patterns: &[PairName],
    naming: &Naming,
) -> Result<Vec<Verdict>, AllocError>
    requires outputs { All (λ s. s < length net.now.names) naming.now.outputs.only_first }
    requires registers { All (λ s. s < length net.now.names) naming.now.registers.only_first }
    ensures { IfOk result (λ v. v.items ≡ filter (is_unmatched_of patterns.now)
        (unmatched_of_side Side.First (circuit net.now) naming.now.outputs.only_first naming.now.registers.only_first)) }
{
    let outputs = named_signals(alloc, net, patterns, PairKind::Output, naming.only_first())?;
    let registers = named_signals(
        alloc,
        net,
        patterns,
        PairKind::NextState,
        naming.only_first_next(),
    )?;
    let mut unmatched_lines = Vec::new(alloc);
    add_unmatched(
        alloc,
        &mut unmatched_lines,
        Side::First,
        PairKind::Output,
        net,
        outputs.as_slice(),
    )?;
    add_unmatched(
        alloc,
        &mut unmatched_lines,
        Side::First,
        PairKind::NextState,
        net,
        registers.as_slice(),
    )?;
    Ok(unmatched_lines)
}

/// Returns the verdicts of all outputs and registers without a partner.
fn all_unmatched(
    alloc: Global,
    first: &Netlist,
    second: &Netlist,
    naming: &Naming,
) -> Result<Vec<Verdict>, AllocError>
    requires { AreSignals (circuit first.now) (circuit second.now) naming.now }
    ensures { IfOk result (λ v. v.items ≡ unmatched_verdicts (circuit first.now) (circuit second.now) naming.now) }
{
    let mut unmatched_lines = Vec::new(alloc);
    add_first_unmatched(alloc, &mut unmatched_lines, first, naming)?;
    add_second_unmatched(alloc, &mut unmatched_lines, second, naming)?;
    Ok(unmatched_lines)
}

/// Returns the pairs whose share is `share`; `shares` has the share of each pair.
fn pairs_in(
    alloc: Global,
    share: u32,
    shares: &[u32],
    subjects: &[Subject],
) -> Result<Vec<Subject>, AllocError>
    requires { length shares.now ≡ length subjects.now }
    ensures { IfOk result (λ v. v.items ≡ of_share share (zip subjects.now shares.now)) }
{
    let mut pairs = Vec::new(alloc);
    for place in 0..subjects.len() {
        if shares[place] == share {
            pairs.push(subjects[place])?;
        }
    }
    Ok(pairs)
}

/// Returns the verdicts of all outputs and registers without a partner for the first share, and none for any other
/// share. So together the shares have each of them once.
fn unmatched_in(
    alloc: Global,
    first: &Netlist,
    second: &Netlist,
    naming: &Naming,
    share: u32,
) -> Result<Vec<Verdict>, AllocError>
    requires { AreSignals (circuit first.now) (circuit second.now) naming.now }
    ensures { IfOk result (λ v. v.items ≡ (if share == 1 then unmatched_verdicts (circuit first.now) (circuit second.now) naming.now else [])) }
{
    if share == 1 {
        let unmatched_lines = all_unmatched(alloc, first, second, naming)?;
        Ok(unmatched_lines)
    } else {
        Ok(Vec::new(alloc))
    }
}

/// Returns the pairs of a share and, with the first share, all outputs and registers without a partner.
fn shared<H>(
    task: &Task<'_, H>,
    naming: &Naming,
    pairs: Vec<Subject>,
    share: Share,
) -> Result<Selection, AllocError>
    requires signals { AreSignals (circuit task.now.first.now) (circuit task.now.second.now) naming.now }
    requires all { pairs.items ≡ subjects (circuit task.now.first.now) (circuit task.now.second.now) naming.now }
    ensures { IfOk result (λ r. ArePicked (circuit task.now.first.now) (circuit task.now.second.now) naming.now
        (InShare share) r.subjects.items r.unmatched_lines.items) }
{
    let alloc = task.alloc;
    let shares = shares_of(alloc, task.first, task.second, pairs.as_slice(), share.of)?;
    let subjects = pairs_in(alloc, share.number, shares.as_slice(), pairs.as_slice())?;
    let unmatched_lines = unmatched_in(alloc, task.first, task.second, naming, share.number)?;
    Ok(Selection {
        subjects,
        unmatched_lines,
    })
}

/// Returns the pairs that the patterns pick, and the first netlist's outputs and registers without a partner that they
/// pick.
fn named<H>(
    task: &Task<'_, H>,
    naming: &Naming,
    pairs: Vec<Subject>,
    patterns: &Vec<PairName>,
) -> Result<Selection, AllocError>
    requires signals { AreSignals (circuit task.now.first.now) (circuit task.now.second.now) naming.now }
    requires all { pairs.items ≡ subjects (circuit task.now.first.now) (circuit task.now.second.now) naming.now }
    requires known { (p : NameOfPair) → Contains patterns.now.items p → HasPicked (circuit task.now.first.now) p }
    ensures { IfOk result (λ r. ArePicked (circuit task.now.first.now) (circuit task.now.second.now) naming.now
        (OnlyNamed patterns.now) r.subjects.items r.unmatched_lines.items) }
{
    let subjects = named_subjects(
        task.alloc,
        task.first,
        patterns.as_slice(),
        pairs.as_slice(),
    )?;
    let unmatched_lines = named_unmatched(task.alloc, task.first, patterns.as_slice(), naming)?;
    Ok(Selection {
        subjects,
        unmatched_lines,
    })
}

/// Returns all pairs, and all outputs and registers without a partner.
fn all_pairs<H>(
    task: &Task<'_, H>,
    naming: &Naming,
    pairs: Vec<Subject>,
) -> Result<Selection, AllocError>
    requires signals { AreSignals (circuit task.now.first.now) (circuit task.now.second.now) naming.now }
    requires all { pairs.items ≡ subjects (circuit task.now.first.now) (circuit task.now.second.now) naming.now }
    ensures { IfOk result (λ r. ArePicked (circuit task.now.first.now)
        (circuit task.now.second.now) naming.now AllPairs r.subjects.items r.unmatched_lines.items) }
{
    let unmatched_lines = all_unmatched(task.alloc, task.first, task.second, naming)?;
    Ok(Selection {
        subjects: pairs,
        unmatched_lines,
    })
}

/// Returns the pairs of a task's netlists, and the outputs and registers without a partner, that the task's settings
/// pick. Fails with Only if a name pattern picks no output and no register of the first netlist, and with OutOfMemory.
pub fn select_pairs<H>(task: &Task<'_, H>, naming: &Naming) -> Result<Selection, CheckFault>
    requires { AreSignals (circuit task.now.first.now) (circuit task.now.second.now) naming.now }
    ensures picked { IfOk result (λ r. ArePicked (circuit task.now.first.now)
        (circuit task.now.second.now) naming.now task.now.settings.now.picked r.subjects.items r.unmatched_lines.items) }
    ensures unknown { result ≡ Err CheckFault.Only → HasUnknown (circuit task.now.first.now) task.now.settings.now.picked }
    ensures err { IfErr result (λ fault. (fault ≡ CheckFault.Only) ⊎ (fault ≡ CheckFault.OutOfMemory)) }
{
    let pairs = subjects_of(task.alloc, task.first, task.second, naming)?;
    match &task.settings.picked {
        PairFilter::All => Ok(all_pairs(task, naming, pairs)?),
        PairFilter::Only(patterns) => {
            if !are_known(task.first, patterns.as_slice()) {
                return Err(CheckFault::Only);
            }
            Ok(named(task, naming, pairs, patterns)?)
        }
        PairFilter::Share(share) => Ok(shared(task, naming, pairs, *share)?),
    }
}

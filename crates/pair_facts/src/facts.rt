//! The pairs that are picked, with what patterns show of them.
ghost use Rattle.std.specs.Prelude.{◌≡◌, ◌⊎◌, ◌<◌, All, Err, IfErr, IfOk, length, map};
ghost use Rattle.std.specs.List.{AllZip};
ghost use Rattle.net_bench.specs.Circuit.{circuit};
ghost use Rattle.net_order.specs.Order.{condition};
ghost use Rattle.compare_built.specs.Comparing.{AreSignals, IsInside};
ghost use Rattle.compare_built.specs.Facts.{patterns_of, signals_of};
ghost use Rattle.compare_built.specs.PairSelection.{ArePicked, HasUnknown};
ghost use Rattle.pair_facts.specs.PairFacts.{IsFirstShown};

use crate::pair_selection::{Selection, select_pairs};
use compare_built::fault::CheckFault;
use compare_built::subject::Subject;
use compare_built::task::Task;
use expand_work::Monitor;
use net_bench::netlist::{Netlist, Signal};
use net_order::naming::Naming;
use net_patterns::{Netlists, Patterns, ShownPattern, first_differences};
use report_text::Verdict;
use std::alloc::{AllocError, Global};

/// What is known of the pairs that are picked before an attempt is made.
#[derive(Drop)]
pub struct PairFacts {
    /// The pairs that are picked, in the order of the report.
    pub subjects: Vec<Subject>,
    /// The verdicts of the outputs and registers without a partner that are picked, in the order of the report.
    pub unmatched_lines: Vec<Verdict>,
    /// For each pair the first pattern at which it differs, or none if no pattern shows that it differs.
    pub shown: Vec<Option<ShownPattern>>,
}

/// Returns the patterns at which two netlists are evaluated. They depend only on the numbers of variables and of gates.
pub(crate) fn patterns_of(first: &Netlist, second: &Netlist, naming: &Naming) -> Patterns
    ensures { result ≡ patterns_of (circuit first.now) (circuit second.now) naming.now }
{
    Patterns::of(
        naming.names().len(),
        first.gates().len() + second.gates().len(),
    )
}

/// Returns the two signals of each pair.
fn signals_of(alloc: Global, subjects: &[Subject]) -> Result<Vec<(Signal, Signal)>, AllocError>
    ensures { IfOk result (λ v. v.items ≡ map signals_of subjects.now) }
{
    subjects
        .iter()
        .map(|subject| (subject.first, subject.second))
        .collect(alloc)
}

/// Returns, for each of these pairs, the first pattern at which the condition holds and the pair differs; none if no
/// pattern shows that it differs.
fn first_shown<H>(
    task: &Task<'_, H>,
    naming: &Naming,
    subjects: &[Subject],
) -> Result<Vec<Option<ShownPattern>>, AllocError>
    requires { All (IsInside (circuit task.now.first.now) (circuit task.now.second.now)) subjects.now }
    ensures { IfOk result (λ v. AllZip (IsFirstShown (circuit task.now.first.now) (circuit task.now.second.now) (condition task.now.given)
        naming.now) subjects.now v.items) }
{
    let pairs = signals_of(task.alloc, subjects)?;
    let patterns = patterns_of(task.first, task.second, naming);
    let netlists = Netlists {
        first: task.first,
        second: task.second,
        given: task.given,
        naming,
    };
    let shown = first_differences(task.alloc, &netlists, pairs.as_slice(), &patterns)?;
    Ok(shown)
}

/// Returns the name of the first pair that a pattern shows to differ, or the empty name if there is none.
fn first_name<'a>(
    first: &'a Netlist,
    subjects: &[Subject],
    shown: &[Option<ShownPattern>],
) -> &'a [u8]
    requires { All (λ s. s.named < length first.now.names) subjects.now }
{
    for place in 0..subjects.len().min(shown.len()) {
        if shown[place].is_some() {
            return first.name(subjects[place].named);
        }
    }
    b""
}

/// Notifies the monitor how many of the pairs are shown to differ, and the name of the first of them.
fn notify_shown<G: Monitor>(
    first: &Netlist,
    subjects: &[Subject],
    shown: &[Option<ShownPattern>],
    monitor: &G,
)
    requires named { All (λ s. s.named < length first.now.names) subjects.now }
{
    let different = shown.iter().filter(|pattern| pattern.is_some()).count();
    let name = first_name(first, subjects, shown);
    monitor.at_patterns(different, subjects.len(), name);
}

/// Picks the pairs of a task by its settings, and evaluates both netlists at patterns, 512 at a time, to find pairs
/// that differ. No diagram is built for that. The monitor is notified how many pairs are shown to differ. Fails with
/// Only if a name pattern picks nothing of the first netlist, and with OutOfMemory.
pub fn facts_of<H, G: Monitor>(
    task: &Task<'_, H>,
    naming: &Naming,
    monitor: &G,
) -> Result<PairFacts, CheckFault>
    requires { AreSignals (circuit task.now.first.now) (circuit task.now.second.now) naming.now }
    ensures picked { IfOk result (λ f. ArePicked (circuit task.now.first.now)
        (circuit task.now.second.now) naming.now task.now.settings.now.picked f.subjects.items f.unmatched_lines.items) }
    ensures inside { IfOk result (λ f. All (IsInside (circuit task.now.first.now) (circuit task.now.second.now)) f.subjects.items) }
    ensures shown { IfOk result (λ f. AllZip (IsFirstShown (circuit task.now.first.now) (circuit task.now.second.now) (condition task.now.given)
        naming.now) f.subjects.items f.shown.items) }
    ensures unknown { result ≡ Err CheckFault.Only → HasUnknown (circuit task.now.first.now) task.now.settings.now.picked }
    ensures err { IfErr result (λ fault. (fault ≡ CheckFault.Only) ⊎ (fault ≡ CheckFault.OutOfMemory)) }
{
    let Selection {
        subjects,
        unmatched_lines,
    } = select_pairs(task, naming)?;
    let shown = first_shown(task, naming, subjects.as_slice())?;
    notify_shown(task.first, subjects.as_slice(), shown.as_slice(), monitor);
    Ok(PairFacts {
        subjects,
        unmatched_lines,
        shown,
    })
}

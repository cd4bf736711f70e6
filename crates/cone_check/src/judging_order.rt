//! The order in which the pairs of a round are judged. Those that no pattern shows to differ come first: if the run is
//! stopped before a pair is judged, it is Undecided, unless a pattern shows a difference, which is then reported.
ghost use Rattle.std.specs.Prelude.{◌≡◌, [], length, All, IfOk, IsPermutation, OnOk};
ghost use Rattle.net_bench.specs.Circuit.{circuit};
ghost use Rattle.net_order.specs.Force.{numbers_below};
ghost use Rattle.cone_check.specs.ConeRounds.{IsInContext};
ghost use Rattle.cone_check.specs.JudgingOrder.{IsJudgingOrder, flags_after, is_shown, unshown_first, with_flag};

use crate::pair_cones::ConeContext;
use compare_built::subject::Subject;
use net_patterns::ShownPattern;
use pair_facts::weight_order;
use std::alloc::{AllocError, Global};

/// Adds the flag of a pair if it is judged itself, and so has the next number.
fn add_flag(flags: &mut Vec<bool>, number: usize, shown: bool) -> Result<(), AllocError>
    ensures { OnOk result (flags.new.items ≡ with_flag number shown flags.old.items) }
{
    if number == flags.len() {
        flags.push(shown)?;
    }
    Ok(())
}

/// Returns for each judged pair whether a pattern shows that it differs. `numbers` has for each of all pairs the number
/// of the pair that is judged for it, and `shown` the pattern, if there is one. Fails if memory is refused.
pub(crate) fn shown_flags(
    alloc: Global,
    numbers: &[usize],
    shown: &[Option<ShownPattern>],
) -> Result<Vec<bool>, AllocError>
    requires { length shown.now ≡ length numbers.now }
    ensures { IfOk result (λ flags. flags.items ≡ flags_after numbers.now shown.now []) }
{
    let mut flags = Vec::new(alloc);
    for place in 0..numbers.len() {
        add_flag(&mut flags, numbers[place], shown[place].is_some())?;
    }
    Ok(flags)
}

/// Whether a pattern shows that the pair at this place differs. A place without a flag counts as not shown.
fn is_shown(flags: &[bool], place: usize) -> bool
    ensures { result ≡ is_shown flags.now place }
{
    place < flags.len() && flags[place]
}

/// Returns these places, first those of pairs that no pattern shows to differ, and each group in the same sequence as
/// before.
fn unshown_first(alloc: Global, order: &[usize], flags: &[bool]) -> Result<Vec<usize>, AllocError>
    ensures { IfOk result (λ v. v.items ≡ unshown_first flags.now order.now) }
{
    let mut first = Vec::new(alloc);
    let mut last = Vec::new(alloc);
    for position in 0..order.len() {
        let place = order[position];
        if is_shown(flags, place) {
            last.push(place)?;
        } else {
            first.push(place)?;
        }
    }
    first.append(&mut last)?;
    Ok(first)
}

/// Returns the places of the pairs in the order in which each round judges them: first the pairs that no pattern shows
/// to differ, then the others, and in each group those with the most gates in their cones first. Fails if memory is
/// refused.
pub(crate) fn judging_order<H>(
    context: &ConeContext<'_, H>,
    subjects: &[Subject],
    flags: &[bool],
) -> Result<Vec<usize>, AllocError>
    requires { All (IsInContext context.now) subjects.now }
    ensures order { IfOk result (λ v. IsJudgingOrder (circuit context.now.task.now.first.now) (circuit context.now.task.now.second.now)
        subjects.now flags.now v.items) }
    ensures places { IfOk result (λ v. IsPermutation (numbers_below (length subjects.now)) v.items) }
{
    let task = context.task;
    let weighed = weight_order(task.alloc, task.first, task.second, subjects)?;
    let order = unshown_first(task.alloc, weighed.as_slice(), flags)?;
    Ok(order)
}

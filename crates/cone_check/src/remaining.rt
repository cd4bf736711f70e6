//! By place, the verdicts of pairs that are known, and the pairs that are left, which have none yet.
ghost use Rattle.std.specs.Prelude.{◌≡◌, ◌<◌, count_by, is_some, length, not, set, filter, None, Ok, Err, All, IfOk, IfErr};
ghost use Rattle.cone_check.specs.declared.batches.PairJob.{PairJob as PairJobValue};
ghost use Rattle.cone_check.specs.Batches.{is_left, written};

use crate::batches::PairJob;
use compare_built::fault::CheckFault;
use report_text::Verdict;
use std::alloc::{AllocError, Global};

/// Returns no verdict for each of `count` pairs. Fails if memory is refused.
pub fn no_verdicts(alloc: Global, count: usize) -> Result<Vec<Option<Verdict>>, AllocError>
    ensures one_for_each { IfOk result (λ v. length v.items ≡ count) }
    ensures none { IfOk result (λ v. All (λ o. o ≡ None) v.items) }
{
    let mut known = Vec::with_capacity(alloc, count)?;
    for _ in 0..count {
        known.push(None)?;
    }
    Ok(known)
}

/// Returns those of these places at which no verdict is known, in the same order. Fails if memory is refused.
pub fn left_in(
    alloc: Global,
    order: &[usize],
    known: &[Option<Verdict>],
) -> Result<Vec<usize>, AllocError>
    requires { All (λ place. place < length known.now) order.now }
    ensures { IfOk result (λ left. left.items ≡ filter (is_left known.now) order.now) }
{
    let mut left = Vec::new(alloc);
    for position in 0..order.len() {
        let place = order[position];
        if known[place].is_none() {
            left.push(place)?;
        }
    }
    Ok(left)
}

/// Sets the verdict at a place.
fn put(all: &mut Vec<Option<Verdict>>, place: usize, one: Option<Verdict>)
    requires { place < length all.old.items }
    ensures { all.new.items ≡ set all.old.items place one }
{
    all[place] = one;
}

/// Returns the verdicts with the results of these jobs, each at the place of its pair. Fails with the first fault among
/// the results; a pair without a verdict is no fault.
pub fn written(
    known: Vec<Option<Verdict>>,
    jobs: Vec<PairJob>,
) -> Result<Vec<Option<Verdict>>, CheckFault>
    requires { All (λ (job : PairJobValue). job.place < length known.items) jobs.items }
    ensures ok { IfOk result (λ all. written known.items jobs.items ≡ Ok all.items) }
    ensures err { IfErr result (λ fault. written known.items jobs.items ≡ Err fault) }
{
    let mut all = known;
    for job in jobs {
        let PairJob { place, ended, .. } = job;
        let one = ended?;
        put(&mut all, place, one);
    }
    Ok(all)
}

/// Returns the number of pairs that have no verdict yet.
pub fn count_left(known: &[Option<Verdict>]) -> usize
    ensures { result ≡ count_by (λ o. not (is_some o)) known.now }
{
    let mut left = 0;
    for place in 0..known.len() {
        if known[place].is_none() {
            left += 1;
        }
    }
    left
}

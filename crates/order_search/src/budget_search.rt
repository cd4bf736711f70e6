//! The search for the attempt that decides, within budgets of nodes that grow up to the limit.
ghost use Rattle.std.specs.Prelude.{◌≡◌, ◌<◌, ◌^◌, [], IfOk, IfErr};
ghost use Rattle.compare_built.specs.declared.strategy.Candidate.{Candidate as CandidateValue};
ghost use Rattle.order_search.specs.Trials.{AreTrials, IsCandidateGivenUp, IsFoundWithin, IsGivingUp, IsReportedIn, IsSearchFault};

use crate::attempt_end::fault_of;
use crate::attempts::{Decided, Round, try_again, try_first};
use crate::trials::Trial;
use compare_built::fault::CheckFault;
use compare_built::task::Task;
use expand_work::Monitor;
use net_order::pairing::Pairing;
use std::sync::Wait;
use std::thread::Threads;

/// The first budget, in nodes. The choice of the budgets is explained in docs/decisions/orders-and-attempts.md.
pub const FIRST_BUDGET: u64 = 16_384;

/// The ratio of each budget to the one before it.
pub const GROWTH: u64 = 32;

/// Goes on with the search within the budgets after the first one, up to the limit.
fn find_later<H: Threads + Wait + Sync, G: Monitor>(
    task: &Task<'_, H>,
    declared: Option<&Pairing>,
    trials: &mut Vec<Trial>,
    limit: u64,
    monitor: &G,
) -> Result<Decided, CheckFault>
    requires small { limit < 2 ^ 32 }
    requires verdict_order { IsReportedIn task.now declared }
    requires trials { AreTrials task.now trials.old.items }
    requires more { FIRST_BUDGET < limit }
    requires first { (c : CandidateValue) → IsCandidateGivenUp task.now FIRST_BUDGET (G.bound monitor.now) c }
    ensures found { IfOk result (IsFoundWithin task.now declared.entry limit (G.bound monitor.now)) }
    ensures fault { IfErr result (IsSearchFault task.now limit (G.bound monitor.now)) }
    ensures trials { IfErr result (λ fault. IsGivingUp fault → AreTrials task.now trials.new.items) }
{
    let mut budget = FIRST_BUDGET * GROWTH;
    while budget < limit {
        match try_again(task, declared, trials, budget, monitor)? {
            Round::Decided(decided) => return Ok(decided),
            Round::GivenUp { .. } => {}
        }
        budget *= GROWTH;
    }
    match try_again(task, declared, trials, limit, monitor)? {
        Round::Decided(decided) => Ok(decided),
        Round::GivenUp { full } => Err(fault_of(full, monitor)),
    }
}

/// Searches for the order in which two netlists can be compared: it tries all candidates within one budget before it
/// goes on with the next, which is 32 times as large, until one decides or all were given up within the limit. The
/// verdicts are reported over the variables of the order that decides, or over those of `declared` if it is given.
///
/// The list of trials is empty at first. If each attempt was given up, it has a trial of each order, with which a
/// caller can go on within a larger budget (`attempts::try_again`). The fault is then Full, Stopped or GivenUp
/// (`fault_of`). Also fails if an order or memory is refused.
pub fn search<H: Threads + Wait + Sync, G: Monitor>(
    task: &Task<'_, H>,
    declared: Option<&Pairing>,
    trials: &mut Vec<Trial>,
    limit: u64,
    monitor: &G,
) -> Result<Decided, CheckFault>
    requires small { limit < 2 ^ 32 }
    requires verdict_order { IsReportedIn task.now declared }
    requires none { trials.old.items ≡ [] }
    ensures found { IfOk result (IsFoundWithin task.now declared.entry limit (G.bound monitor.now)) }
    ensures fault { IfErr result (IsSearchFault task.now limit (G.bound monitor.now)) }
    ensures trials { IfErr result (λ fault. IsGivingUp fault → AreTrials task.now trials.new.items) }
{
    let budget = FIRST_BUDGET.min(limit);
    match try_first(task, declared, trials, budget, monitor)? {
        Round::Decided(decided) => Ok(decided),
        Round::GivenUp { full } if limit <= FIRST_BUDGET => Err(fault_of(full, monitor)),
        Round::GivenUp { .. } => find_later(task, declared, trials, limit, monitor),
    }
}

/// Searches as `search` does, and keeps no trials.
pub fn find_attempt<H: Threads + Wait + Sync, G: Monitor>(
    task: &Task<'_, H>,
    declared: Option<&Pairing>,
    limit: u64,
    monitor: &G,
) -> Result<Decided, CheckFault>
    requires small { limit < 2 ^ 32 }
    requires verdict_order { IsReportedIn task.now declared }
    ensures found { IfOk result (IsFoundWithin task.now declared.entry limit (G.bound monitor.now)) }
    ensures fault { IfErr result (IsSearchFault task.now limit (G.bound monitor.now)) }
{
    let mut trials = Vec::new(task.alloc);
    search(task, declared, &mut trials, limit, monitor)
}

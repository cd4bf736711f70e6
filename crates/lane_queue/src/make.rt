//! New lanes and ports.
ghost use Rattle.std.specs.Prelude.{◌≡◌, ◌<◌, ◌+◌, [], length, IfOk, OnOk};
ghost use Rattle.crossbeam_queue.specs.SegTies.{IsSegPassOf};
ghost use Rattle.lane_queue.specs.Rule.{issuer, port, MayIssue};
ghost use Rattle.lane_queue.specs.Ports.{terms_of};
ghost use Rattle.req_table.specs.Sizes.{sizes_of};
ghost use Rattle.lane_queue.specs.Make.{AreIssuers, AreNewEndpoints};

use crate::endpoint::{Endpoint, PassState};
use crate::rule::{HasTerms, Lane, LanePass};
use crate::steps;
use dd_store::Store;
use std::alloc::{AllocError, Global};
use std::marker::Brand;

/// The one pass of a lane that was opened: it issues the ports' passes at the beginning, and the ports' are joined at
/// the end.
#[derive(Drop)]
pub struct RootPass {
    pub pass: LanePass,
}

/// Returns a lane for each worker, and for each lane the pass that issues the passes of its ports.
pub fn open_all(
    alloc: Global,
    store: &Store,
    workers: u32,
) -> Result<(Vec<Lane>, Vec<RootPass>), AllocError>
    ensures lengths { IfOk result (λ r. length r.0.items ≡ workers) }
    ensures roots { IfOk result (λ r. AreIssuers workers (sizes_of store.now) 0 r.0.items r.1.items) }
{
    let mut lanes = Vec::new(alloc);
    let mut roots = Vec::new(alloc);
    for _ in 0..workers {
        let (lane, pass) = steps::open(alloc)?;
        lanes.push(lane)?;
        roots.push(RootPass { pass })?;
    }
    Ok((lanes, roots))
}

// Issues the next port's pass of the lane of the worker `owner`. The clause `terms` ties the lane's terms to the type
// J, which the rule's step reads.
fn issue_for<J: HasTerms>(
    lane: &Lane,
    root: &mut LanePass,
    store: &Store,
    workers: u32,
    owner: u32,
) -> LanePass
    requires terms { terms_of workers owner (sizes_of store.now) ≡ J.terms }
    requires queue { IsSegPassOf lane.now.queue root.old }
    requires ready { MayIssue (terms_of workers owner (sizes_of store.now)) root.old.me.view.client }
    ensures queue { IsSegPassOf lane.now.queue root.new × IsSegPassOf lane.now.queue result }
    ensures root { root.new.me.view.client
        ≡ issuer (terms_of workers owner (sizes_of store.now)) (root.old.me.view.client.low + 1) }
    ensures port { result.me.view.client
        ≡ port (terms_of workers owner (sizes_of store.now)) root.old.me.view.client.low [] [] }
{
    steps::issue::<J>(lane, root)
}

/// Returns the endpoints of the next port, one on each lane.
pub fn issue_endpoints(
    alloc: Global,
    lanes: &Vec<Lane>,
    roots: &mut Vec<RootPass>,
    store: &Store,
    workers: u32,
    number: u32,
) -> Result<Vec<Endpoint>, AllocError>
    requires lengths { length lanes.now.items ≡ workers }
    requires number { number < workers }
    requires roots { AreIssuers workers (sizes_of store.now) number lanes.now.items roots.old.items }
    ensures roots { OnOk result (AreIssuers workers (sizes_of store.now) (number + 1) lanes.now.items roots.new.items) }
    ensures endpoints { IfOk result (λ v. AreNewEndpoints workers (sizes_of store.now) number lanes.now.items v.items) }
{
    let mut endpoints = Vec::new(alloc);
    for owner in 0..workers {
        let at = owner as usize;
        let pass = issue_for::<Brand>(&lanes[at], &mut roots[at].pass, store, workers, owner);
        endpoints.push(Endpoint {
            pass_state: PassState::Live(pass),
            ends: 0,
            put: 0,
        })?;
    }
    Ok(endpoints)
}

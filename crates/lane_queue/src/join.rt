//! Joining the passes of all ports, lane by lane, so that one pass of each lane knows the lists of
//! all ports.
ghost use Rattle.std.specs.Prelude.{◌≡◌, length, IfOk, OnErr};
ghost use Rattle.crossbeam_queue.specs.SegTies.{IsSegPassOf};
ghost use Rattle.lane_queue.specs.Endpoint.{endpoint_view, IsLiveOn};
ghost use Rattle.lane_queue.specs.Joining.{Retired, MayJoinAll, HaveJoined, HaveBegun, AllLive};

use crate::endpoint::{Endpoint, PassState};
use crate::make::RootPass;
use crate::rule::{Lane, LanePass};
use crate::steps;
use std::alloc::{AllocError, Global};
use std::mem;
use std::snapshot::Snapshot;

// Moves the pass out of the endpoint, which remembers for contracts what the pass knew.
fn retire(lane: &Lane, endpoint: &mut Endpoint) -> LanePass
    requires { IsLiveOn lane.now.queue endpoint.old.pass_state }
    ensures pass { IsSegPassOf lane.now.queue result × (result.me.view.client ≡ endpoint_view endpoint.old) }
    ensures endpoint { Retired endpoint.old endpoint.new }
{
    let _lane = lane; // For the proof.
    let was = match &endpoint.pass_state {
        PassState::Live(pass) => Snapshot::of(pass),
        PassState::Joined(_) => unreachable!(),
    };
    match mem::replace(&mut endpoint.pass_state, PassState::Joined(was)) {
        PassState::Live(pass) => pass,
        PassState::Joined(_) => unreachable!(),
    }
}

/// Takes the passes of the first port, to which those of the others will be joined.
pub fn begin(
    alloc: Global,
    lanes: &Vec<Lane>,
    endpoints: &mut Vec<Endpoint>,
    workers: u32,
) -> Result<Vec<RootPass>, AllocError>
    requires lengths { (length lanes.now.items ≡ workers) × (length endpoints.old.items ≡ workers) }
    requires live { AllLive workers lanes.now.items endpoints.old.items }
    ensures lengths { IfOk result (λ r. (length r.items ≡ workers) × (length endpoints.new.items ≡ workers)) }
    ensures err { OnErr result (endpoints.new.items ≡ endpoints.old.items) }
    ensures begun { IfOk result (λ r. HaveBegun workers lanes.now.items r.items endpoints.old.items endpoints.new.items) }
{
    let mut roots = Vec::with_capacity(alloc, workers as usize)?;
    for lane in 0..workers {
        let at = lane as usize;
        let pass = retire(&lanes[at], &mut endpoints[at]);
        roots.push_reserved(RootPass { pass });
    }
    Ok(roots)
}

/// Joins a port's passes, lane by lane, to those of the ports with lower numbers.
pub fn join_endpoints(
    lanes: &Vec<Lane>,
    roots: &mut Vec<RootPass>,
    endpoints: &mut Vec<Endpoint>,
    workers: u32,
)
    requires lengths { (length lanes.now.items ≡ workers) × (length roots.old.items ≡ workers)
        × (length endpoints.old.items ≡ workers) }
    requires may_join { MayJoinAll workers lanes.now.items roots.old.items endpoints.old.items }
    ensures lengths { (length roots.new.items ≡ workers) × (length endpoints.new.items ≡ workers) }
    ensures joined { HaveJoined workers lanes.now.items roots.old.items roots.new.items endpoints.old.items endpoints.new.items }
{
    for lane in 0..workers {
        let at = lane as usize;
        let queue = &lanes[at];
        let pass = retire(queue, &mut endpoints[at]);
        steps::join(queue, &mut roots[at].pass, pass);
    }
}

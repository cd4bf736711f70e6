//! The end of the lanes: the passes of all ports are joined, and what is left is read out.
ghost use Rattle.std.specs.Prelude.{◌≡◌, ◌<◌, [], map, length, slice_index_or, IfOk, OnOk};
ghost use Rattle.crossbeam_queue.specs.SegTies.{IsSegPassOf};
ghost use Rattle.req_table.specs.Lanes.{LaneLaw};
ghost use Rattle.lane_queue.specs.Lists.{FairLane};
ghost use Rattle.lane_queue.specs.Loads.{flat};
ghost use Rattle.lane_queue.specs.Rule.{scope, IsOfAllPorts};
ghost use Rattle.lane_queue.specs.declared.rule.Lane.{Lane};
ghost use Rattle.req_table.specs.Sizes.{sizes_of};
ghost use Rattle.lane_queue.specs.Joining.{ArePassesOfAll, ArePorts, AreRetired, AllAgreeWithOwnLane, LawOfLanes};

use crate::load::Load;
use crate::make::RootPass;
use crate::port::Port;
use crate::rule::{Lane, LanePass};
use crate::steps;
use dd_store::Store;
use std::alloc::{AllocError, Global};
use std::snapshot::Snapshot;
use std::sync::Wait;

/// Joins the passes of all ports, lane by lane.
pub fn join_all(
    alloc: Global,
    lanes: &Vec<Lane>,
    store: &Snapshot<Store>,
    ports: &mut Vec<Port>,
    workers: u32,
) -> Result<Vec<RootPass>, AllocError>
    requires workers { (0 < workers) × (length lanes.now.items ≡ workers) }
    requires ports { ArePorts workers (sizes_of store.now.value) (map (λ (x : Lane). x.queue) lanes.now.items) ports.old.items }
    ensures roots { IfOk result (λ r.
        ArePassesOfAll workers (sizes_of store.now.value) ports.old.items lanes.now.items r.items) }
    ensures ports { OnOk result (AreRetired workers ports.old.items ports.new.items) }
    ensures kept { OnOk result (AllAgreeWithOwnLane workers ports.old.items) }
{
    let _store = store; // For the proof.
    let mut roots = ports[0].begin_join(alloc, lanes, workers)?;
    for next in 1..workers {
        ports[next as usize].join_to(lanes, &mut roots, workers);
    }
    Ok(roots)
}

// Returns what is left in the lane, and by the last read, which finds it empty, the law of the lane.
fn read_all<R: Wait>(
    rt: &R,
    alloc: Global,
    lane: &Lane,
    root: &mut LanePass,
) -> Result<Vec<Load>, AllocError>
    requires queue { IsSegPassOf lane.now.queue root.old }
    requires all_ports_joined { IsOfAllPorts root.old.me.view.client × (root.old.me.view.client.left ≡ []) }
    ensures { let v = root.old.me.view.client in
        IfOk result (λ r.
        LaneLaw (scope v.terms) (λ s. slice_index_or v.sent s []) v.taken (flat r.items)
        × FairLane (scope v.terms) (λ s. slice_index_or v.sent s [])) }
{
    let mut left = Vec::new(alloc);
    for _ in rt.forever() {
        let Some(load) = steps::read(rt, lane, root) else {
            return Ok(left);
        };
        left.push(load)?;
    }
    unreachable!()
}

/// Returns what is left in each lane, once all ports are joined.
pub fn read_lanes<R: Wait>(
    rt: &R,
    lanes: &Vec<Lane>,
    store: &Snapshot<Store>,
    ports: &Vec<Port>,
    mut roots: Vec<RootPass>,
    workers: u32,
) -> Result<Vec<Vec<Load>>, AllocError>
    requires lengths { (length lanes.now.items ≡ workers) × (length ports.now.items ≡ workers) }
    requires roots { ArePassesOfAll workers (sizes_of store.now.value) ports.now.items lanes.now.items roots.items }
    ensures lengths { IfOk result (λ r. length r.items ≡ workers) }
    ensures law { IfOk result (λ r.
        LawOfLanes workers (sizes_of store.now.value) ports.now.items (map (λ v. v.items) r.items)) }
{
    let _store = store; // For the proof.
    let _ports = ports; // For the proof.
    let alloc = *roots.allocator();
    let mut left = Vec::new(alloc);
    for lane in 0..workers {
        let at = lane as usize;
        left.push(read_all(rt, alloc, &lanes[at], &mut roots[at].pass)?)?;
    }
    Ok(left)
}

//! A port's end of one lane: its pass, and how much the port has put there.
ghost use Rattle.std.specs.Prelude.{◌≡◌, ◌<◌, ◌≤◌, ◌+◌, ◌^◌, [], ◌++◌, MatchResult, MatchOption, MatchBool};
ghost use Rattle.req_table.specs.Lanes.{ends};
ghost use Rattle.lane_queue.specs.Loads.{load_from, items_in, IsNonEmpty, MayFollowAll};
ghost use Rattle.crossbeam_queue.specs.SegTies.{IsSegPassOf};
ghost use Rattle.lane_queue.specs.Rule.{scope, port, own_sent, IsNext, OwnSentInOrder};
ghost use Rattle.std.specs.List.{sum_by};
ghost use Rattle.lane_queue.specs.declared.endpoint.Endpoint.{Endpoint};
ghost use Rattle.lane_queue.specs.Endpoint.{endpoint_view, IsEndpoint, IsLiveOn};

use crate::load::Load;
use crate::rule::{Lane, LanePass};
use crate::steps;
use std::snapshot::Snapshot;
use std::sync::Wait;

// The most loads that a port may put on one lane, far below the greatest `u64`, so that the count of its loads never
// overflows.
const MAX_LOADS: u64 = 1 << 62;

/// A port's pass of one lane, until it is joined with the others; then what it knew, for contracts.
#[derive(Drop)]
pub enum PassState {
    Live(LanePass),
    Joined(Snapshot<LanePass>),
}

/// A port's end of one lane: its pass, and how many Ends and how many loads the port has put there.
#[derive(Drop)]
pub struct Endpoint {
    pub pass_state: PassState,
    pub ends: u16,
    pub put: u64,
}

impl Endpoint {
    // Whether the port has put as many loads on the lane as it may.
    fn is_full(&self) -> bool
        ensures { MatchBool result (2 ^ 62 ≤ self.now.put) (self.now.put < 2 ^ 62) }
    {
        self.put >= MAX_LOADS
    }

    /// Puts a load on the lane. The load is returned if memory is refused, if the port has put `MAX_LOADS` loads there,
    /// or if the queue's numbers have run out.
    pub fn send<R: Wait>(&mut self, rt: &R, lane: &Lane, load: Load) -> Result<(), Load>
        requires live { IsLiveOn lane.now.queue self.old.pass_state }
        requires endpoint { IsEndpoint self.old }
        requires some { IsNonEmpty load }
        requires sender { load_from load ≡ (endpoint_view self.old).low }
        requires may_follow { let v = endpoint_view self.old in MayFollowAll (scope v.terms) (ends (own_sent v)) load }
        requires levels { (endpoint_view self.old).terms.sizes.levels < 2 ^ 16 }
        ensures live { IsLiveOn lane.now.queue self.new.pass_state }
        ensures endpoint { IsEndpoint self.new }
        ensures sent { let v = endpoint_view self.old in
            MatchResult result
            (λ _. endpoint_view self.new ≡ port v.terms v.low (own_sent v ++ items_in load) v.taken)
            (λ x. (x ≡ load) × (endpoint_view self.new ≡ v)) }
        ensures put { MatchResult result (λ _. self.new.put ≡ self.old.put + 1) (λ _. self.new.put ≡ self.old.put) }
    {
        if self.is_full() {
            return Err(load);
        }
        let is_end = matches!(load, Load::End { .. });
        let PassState::Live(pass) = &mut self.pass_state else {
            unreachable!();
        };
        steps::send(rt, lane, pass, load)?;
        self.put += 1;
        if is_end {
            self.ends += 1;
        }
        Ok(())
    }

    /// Takes the first load of the lane, or none if the lane was empty at some moment of the call. Only the lane's
    /// owner may call it.
    pub fn take<R: Wait>(&mut self, rt: &R, lane: &Lane) -> Option<Load>
        requires live { IsLiveOn lane.now.queue self.old.pass_state }
        requires endpoint { IsEndpoint self.old }
        requires owner { (endpoint_view self.old).low ≡ (endpoint_view self.old).terms.owner }
        ensures live { IsLiveOn lane.now.queue self.new.pass_state }
        ensures endpoint { IsEndpoint self.new }
        ensures put { self.new.put ≡ self.old.put }
        ensures taken { let v = endpoint_view self.old in
            MatchOption result
            ((endpoint_view self.new ≡ v) × OwnSentInOrder v [])
            (λ x. (endpoint_view self.new ≡ port v.terms v.low (own_sent v) (v.taken ++ items_in x)) × IsNext v x) }
    {
        let PassState::Live(pass) = &mut self.pass_state else {
            unreachable!();
        };
        steps::take(rt, lane, pass)
    }

    /// Returns the pass, which must not have been joined yet.
    pub fn pass(&self, lane: &Lane) -> &LanePass
        requires { IsLiveOn lane.now.queue self.now.pass_state }
        ensures queue { IsSegPassOf lane.now.queue result.now }
        ensures knows { result.now.me.view.client ≡ endpoint_view self.now }
    {
        let _lane = lane; // For the proof.
        match &self.pass_state {
            PassState::Live(pass) => pass,
            PassState::Joined(_) => unreachable!(),
        }
    }
}

/// Returns the number of loads that were put by all of these endpoints together.
pub fn count_loads(endpoints: &Vec<Endpoint>) -> u128
    ensures { result ≡ sum_by (λ (l : Endpoint). l.put) endpoints.now.items }
{
    let mut total: u128 = 0;
    for endpoint in endpoints {
        total += endpoint.put as u128;
    }
    total
}

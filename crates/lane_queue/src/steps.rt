//! The kinds of step on the queue of one lane. No other code steps on a queue.
ghost use Rattle.std.specs.Prelude.{◌≡◌, ◌≢◌, ◌<◌, ◌+◌, [], ◌∷◌, ◌++◌, IfOk, MatchResult, MatchOption};
ghost use Rattle.crossbeam_queue.specs.SegTies.{IsSegPassOf};
ghost use Rattle.req_table.specs.Lanes.{ends};
ghost use Rattle.lane_queue.specs.Loads.{load_from, items_in, IsNonEmpty, MayFollowAll};
ghost use Rattle.lane_queue.specs.Rule.{scope, blank, issuer, joined, port, own_sent};
ghost use Rattle.lane_queue.specs.Rule.{IsPort, IsJoined, IsOfAllPorts, MayIssue, IsNext, OwnSentInOrder, AllPortsLawful};

use crate::load::Load;
use crate::rule::{HasTerms, Issue, Lane, LanePass, Merge, Put, Queue, Read, Take};
use std::alloc::{AllocError, Global};
use std::sync::Wait;

/// Returns an empty lane without terms yet, and the pass that will issue its ports' passes.
pub fn open(alloc: Global) -> Result<(Lane, LanePass), AllocError>
    ensures { IfOk result (λ q. IsSegPassOf q.0.queue q.1 × (q.1.me.view.client ≡ blank)) }
{
    let (queue, pass) = Queue::with_rule(alloc)?;
    Ok((Lane { queue }, pass))
}

/// Issues the pass of the next port.
pub fn issue<J: HasTerms>(lane: &Lane, root: &mut LanePass) -> LanePass
    requires queue { IsSegPassOf lane.now.queue root.old }
    requires ready { MayIssue J.terms root.old.me.view.client }
    ensures queue { IsSegPassOf lane.now.queue root.new × IsSegPassOf lane.now.queue result }
    ensures root { root.new.me.view.client ≡ issuer J.terms (root.old.me.view.client.low + 1) }
    ensures port { result.me.view.client ≡ port J.terms root.old.me.view.client.low [] [] }
{
    lane.queue.another::<Issue<J>>(root)
}

/// Puts a load on the lane. The load is returned if memory is refused or the queue's numbers have run out.
pub fn send<R: Wait>(rt: &R, lane: &Lane, pass: &mut LanePass, load: Load) -> Result<(), Load>
    requires queue { IsSegPassOf lane.now.queue pass.old }
    requires port { IsPort pass.old.me.view.client }
    requires some { IsNonEmpty load }
    requires sender { load_from load ≡ pass.old.me.view.client.low }
    requires may_follow { let v = pass.old.me.view.client in MayFollowAll (scope v.terms) (ends (own_sent v)) load }
    ensures queue { IsSegPassOf lane.now.queue pass.new }
    ensures sent { let v = pass.old.me.view.client in
        MatchResult result
        (λ _. pass.new.me.view.client ≡ port v.terms v.low (own_sent v ++ items_in load) v.taken)
        (λ x. (x ≡ load) × (pass.new.me.view.client ≡ v)) }
{
    lane.queue.push_as::<Put, R>(rt, pass, load)
}

/// Takes the first load of the lane, or none if the lane was empty at some moment of the call.
pub fn take<R: Wait>(rt: &R, lane: &Lane, pass: &mut LanePass) -> Option<Load>
    requires queue { IsSegPassOf lane.now.queue pass.old }
    requires port { IsPort pass.old.me.view.client }
    requires owner { pass.old.me.view.client.low ≡ pass.old.me.view.client.terms.owner }
    ensures queue { IsSegPassOf lane.now.queue pass.new }
    ensures taken { let v = pass.old.me.view.client in
        MatchOption result
        ((pass.new.me.view.client ≡ v) × OwnSentInOrder v [])
        (λ x. (pass.new.me.view.client ≡ port v.terms v.low (own_sent v) (v.taken ++ items_in x)) × IsNext v x) }
{
    lane.queue.pop_as::<Take, R>(rt, pass)
}

/// Joins the next port's pass to that of the ports with lower numbers.
pub fn join(lane: &Lane, root: &mut LanePass, next: LanePass)
    requires queue { IsSegPassOf lane.now.queue root.old × IsSegPassOf lane.now.queue next }
    requires root { IsJoined root.old.me.view.client × (root.old.me.view.client.left ≡ []) }
    requires next { IsPort next.me.view.client × (next.me.view.client.terms ≡ root.old.me.view.client.terms)
        × (next.me.view.client.low ≡ root.old.me.view.client.high) }
    requires next_took_nothing { root.old.me.view.client.high ≢ root.old.me.view.client.terms.owner → next.me.view.client.taken ≡ [] }
    requires root_took_nothing { ¬ root.old.me.view.client.terms.owner < root.old.me.view.client.high
        → root.old.me.view.client.taken ≡ [] }
    ensures queue { IsSegPassOf lane.now.queue root.new }
    ensures joined { let v = root.old.me.view.client in
        let w = next.me.view.client in
        root.new.me.view.client ≡ joined v.terms (v.high + 1) (v.sent ++ own_sent w ∷ []) (v.taken ++ w.taken) [] }
{
    lane.queue.absorb::<Merge>(root, next)
}

/// Reads out the first load that is left, or none if nothing is; then the law of the lane is known.
pub fn read<R: Wait>(rt: &R, lane: &Lane, root: &mut LanePass) -> Option<Load>
    requires queue { IsSegPassOf lane.now.queue root.old }
    requires root { IsOfAllPorts root.old.me.view.client }
    ensures queue { IsSegPassOf lane.now.queue root.new }
    ensures left { let v = root.old.me.view.client in
        MatchOption result
        ((root.new.me.view.client ≡ v) × AllPortsLawful v [])
        (λ x. root.new.me.view.client ≡ joined v.terms v.terms.workers v.sent v.taken (v.left ++ items_in x)) }
{
    lane.queue.pop_as::<Read, R>(rt, root)
}

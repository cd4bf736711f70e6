//! A port: one worker's end of all lanes.
ghost use Rattle.std.specs.Prelude.{◌≡◌, ◌<◌, length, Some, None, OnOk, IfOk, MatchResult, MatchOption, slice_index_or, map};
ghost use Rattle.req_table.specs.Lanes.{sent_by, ends, MayFollow};
ghost use Rattle.req_table.specs.declared.Item.TheVariants.{Ask};
ghost use Rattle.lane_queue.specs.Loads.{load_from, IsNonEmpty, MayFollowAll};
ghost use Rattle.crossbeam_queue.specs.SegTies.{IsSegPassOf};
ghost use Rattle.lane_queue.specs.PortView.{sent_to, IsTaken, AgreesWithOwnLane, IsOpen, MayBeSent, has_put, has_taken, has_kept, port_scope};
ghost use Rattle.req_table.specs.Sizes.{sizes_of};
ghost use Rattle.std.specs.List.{sum_by};
ghost use Rattle.lane_queue.specs.declared.rule.Lane.{Lane};
ghost use Rattle.lane_queue.specs.Joining.{pass_view, retired, ArePassesOf, ArePassesBelow, ArePassesJoinedWith};
ghost use Rattle.lane_queue.specs.Make.{AreNewEndpoints, new_port};
ghost use Rattle.lane_queue.specs.Lists.{IsPrefix};

use crate::endpoint::{Endpoint, count_loads};
use crate::join;
use crate::load::Load;
use crate::make::RootPass;
use crate::port_history::PortHistory;
use crate::rule::{Lane, LanePass};
use dd_store::Store;
use req_table::{Item, Key};
use std::alloc::{AllocError, Global};
use std::marker::Model;
use std::snapshot::Snapshot;
use std::sync::Wait;

/// One worker's end of all lanes, through which it sends, takes and keeps all requests. Contracts see what it has sent
/// to each worker and what it has taken; when the program runs, the port has only counts of them.
#[derive(Drop)]
pub struct Port {
    number: u32,
    endpoints: Vec<Endpoint>,
    store: Snapshot<Store>,
    own: PortHistory,
}

impl Model for Port {
    ghost use Rattle.lane_queue.specs.PortView.{PortView, AgreesWithOwnLane};
    ghost use Rattle.req_table.specs.Sizes.{sizes_of};

    ghost Value = { PortView };

    ghost use Rattle.lane_queue.specs.Ports.{view_of, IsValidPort};

    ghost view = { λ p. view_of p.number (sizes_of p.store.value) p.endpoints.items p.own.sent p.own.taken };

    ghost invariant = { λ p. IsValidPort p.number (sizes_of p.store.value) p.endpoints.items
        × AgreesWithOwnLane (view_of p.number (sizes_of p.store.value) p.endpoints.items p.own.sent p.own.taken) };
}

impl Port {
    /// Returns the port that has these new endpoints.
    pub(crate) fn of_endpoints(
        number: u32,
        endpoints: Vec<Endpoint>,
        lanes: &Vec<Lane>,
        store: &Store,
        workers: u32,
    ) -> Port
        requires lengths { length lanes.now.items ≡ workers }
        requires endpoints { AreNewEndpoints workers (sizes_of store.now) number lanes.now.items endpoints.items }
        requires number { number < workers }
        ensures { result ≡ new_port number (sizes_of store.now) (map (λ (x : Lane). x.queue) lanes.now.items) }
    {
        let _lanes = lanes; // For the proof.
        let _workers = workers; // For the proof.
        let _levels = store.levels(); // For the proof.
        let store = Snapshot::of(store);
        let own = PortHistory::new();
        Port {
            number,
            endpoints,
            store,
            own,
        }
    }

    /// Returns the number of the worker that the port belongs to. By `own`, what the port has taken of its own is a
    /// prefix of what it has sent to itself.
    pub fn number(&self) -> u32
        ensures number { result ≡ self.now.number }
        ensures within { self.now.number < length self.now.lanes }
        ensures lists { length self.now.put ≡ length self.now.lanes }
        ensures own { let p = self.now in IsPrefix (sent_by p.number p.taken) (sent_to p p.number) }
    {
        self.number
    }

    /// Returns how many Ends the port has put on the lane of the worker `to`, which is the level of the next End.
    pub fn ends(&self, to: u32) -> u16
        requires { to < length self.now.lanes }
        ensures { result ≡ ends (sent_to self.now to) }
    {
        self.endpoints[to as usize].ends
    }

    /// Returns how many loads the port has put on all lanes together.
    pub fn put(&self) -> u128
        ensures { result ≡ sum_by (λ n. n) self.now.put }
    {
        count_loads(&self.endpoints)
    }

    /// Keeps a request to itself: it counts as sent and taken at once, and goes through no lane. The port must have
    /// taken all that it has sent to itself (`taken`). As with `Lanes::take`, the request's level is not closed
    /// (`open`).
    pub fn keep(&mut self, level: u16, key: Key)
        requires may_follow { let p = self.old in
            MayFollow (port_scope p) (ends (sent_to p p.number)) (Ask p.number level key) }
        requires may_be_sent { let p = self.old in
            MayBeSent (port_scope p) p.taken (ends (sent_to p p.number)) (Ask p.number level key) }
        requires taken { let p = self.old in sent_by p.number p.taken ≡ sent_to p p.number }
        ensures kept { self.new ≡ has_kept self.old (Ask self.old.number level key) }
        ensures open { let p = self.old in IsOpen (port_scope p) p.taken (Ask p.number level key) }
    {
        let from = self.number;
        let ask = Item::Ask { from, level, key };
        self.own.kept(Snapshot::of(&ask));
    }

    /// Puts a load on `lane`, which has to be that of the worker `to`.
    pub(crate) fn send_on<R: Wait>(
        &mut self,
        rt: &R,
        lane: &Lane,
        to: usize,
        load: Load,
    ) -> Result<(), Load>
        requires lane { (to < length self.old.lanes) × (slice_index_or self.old.lanes to None ≡ Some lane.now.queue) }
        requires some { IsNonEmpty load }
        requires sender { load_from load ≡ self.old.number }
        requires may_follow { MayFollowAll (port_scope self.old) (ends (sent_to self.old to)) load }
        ensures port { MatchResult result (λ _. self.new ≡ has_put self.old to load) (λ x. (x ≡ load) × (self.new ≡ self.old)) }
        ensures wide { (length self.old.passed ≡ length self.old.lanes) × (length self.old.put ≡ length self.old.lanes) }
    {
        let note = Snapshot::of(&load);
        if let Err(load) = self.endpoints[to].send(rt, lane, load) {
            return Err(load);
        }
        if to == self.number as usize {
            self.own.sent(note);
        }
        Ok(())
    }

    /// Takes the first load of `lane`, which has to be the port's own.
    pub(crate) fn take_on<R: Wait>(&mut self, rt: &R, lane: &Lane) -> Option<Load>
        requires { slice_index_or self.old.lanes self.old.number None ≡ Some lane.now.queue }
        ensures { MatchOption result
            ((self.new ≡ self.old)
            × (sent_by self.old.number self.old.taken ≡ sent_to self.old self.old.number))
            (λ x. (self.new ≡ has_taken self.old x) × IsTaken self.old x) }
    {
        let own = self.number as usize;
        let Some(load) = self.endpoints[own].take(rt, lane) else {
            return None;
        };
        self.own.took(Snapshot::of(&load));
        Some(load)
    }

    /// Returns the pass with which the port steps on the lane of the worker `owner`.
    pub(crate) fn pass_on(&self, lanes: &Vec<Lane>, workers: u32, owner: u32) -> &LanePass
        requires lengths { length lanes.now.items ≡ workers }
        requires lanes { self.now.lanes ≡ map (λ q. Some q) (map (λ (x : Lane). x.queue) lanes.now.items) }
        requires owner { owner < workers }
        ensures queue { (d : Lane) → IsSegPassOf (slice_index_or lanes.now.items owner d).queue result.now }
        ensures knows { result.now.me.view.client ≡ pass_view workers self.now owner }
        ensures kept { AgreesWithOwnLane self.now }
    {
        let at = owner as usize;
        self.endpoints[at].pass(&lanes[at])
    }

    /// Takes the passes out of the first port, to begin the joined ones.
    pub(crate) fn begin_join(
        &mut self,
        alloc: Global,
        lanes: &Vec<Lane>,
        workers: u32,
    ) -> Result<Vec<RootPass>, AllocError>
        requires lengths { length lanes.now.items ≡ workers }
        requires lanes { self.old.lanes ≡ map (λ q. Some q) (map (λ (x : Lane). x.queue) lanes.now.items) }
        ensures port { OnOk result (self.new ≡ retired self.old) }
        ensures kept { AgreesWithOwnLane self.old }
        ensures roots { IfOk result (λ r. (length r.items ≡ workers) × ArePassesOf workers self.old lanes.now.items r.items) }
    {
        join::begin(alloc, lanes, &mut self.endpoints, workers)
    }

    /// Joins the port's passes to those of the ports with lower numbers.
    pub(crate) fn join_to(&mut self, lanes: &Vec<Lane>, roots: &mut Vec<RootPass>, workers: u32)
        requires lengths { (length lanes.now.items ≡ workers) × (length roots.old.items ≡ workers) }
        requires lanes { self.old.lanes ≡ map (λ q. Some q) (map (λ (x : Lane). x.queue) lanes.now.items) }
        requires below { ArePassesBelow workers self.old lanes.now.items roots.old.items }
        ensures port { self.new ≡ retired self.old }
        ensures kept { AgreesWithOwnLane self.old }
        ensures roots { (length roots.new.items ≡ workers)
            × ArePassesJoinedWith workers self.old lanes.now.items roots.old.items roots.new.items }
    {
        join::join_endpoints(lanes, roots, &mut self.endpoints, workers);
    }
}

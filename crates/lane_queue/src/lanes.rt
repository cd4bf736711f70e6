//! The lanes of all workers of a wave.
ghost use Rattle.std.specs.Prelude.{◌≡◌, ◌≢◌, ℕ, ◌+◌, ◌<◌, ◌≤◌, ◌++◌, length, map, slice_index_or, All, IfOk, OnOk, MatchResult};
ghost use Rattle.std.specs.Prelude.{MatchOption, IfSome};
ghost use Rattle.req_table.specs.Lanes.{sent_by, ends};
ghost use Rattle.lane_queue.specs.Loads.{load_from, items_in, IsNonEmpty, MayFollowAll};
ghost use Rattle.lane_queue.specs.PortView.{PortView, sent_to, put_to, has_put, has_taken, IsPortOf, IsTaken, AgreesWithOwnLane, MayBeSent, IsOpen};
ghost use Rattle.lane_queue.specs.PortView.{lanes_scope};
ghost use Rattle.req_table.specs.Sizes.{sizes_of};
ghost use Rattle.lane_queue.specs.Make.{new_port};
ghost use Rattle.crossbeam_queue.specs.SegTies.{SegId, IsSegPassOf};
ghost use Rattle.std.specs.declared.alloc.Global.{Global};
ghost use Rattle.lane_queue.specs.Joining.{pass_view, ArePorts, AreRetired, LawOfAll};

use crate::load::Load;
use crate::port::Port;
use crate::rule::{Lane, LanePass, Queue};
use crate::{make, settle};
use dd_store::Store;
use std::alloc::{AllocError, Global};
use std::marker::Model;
use std::snapshot::Snapshot;
use std::sync::Wait;

/// A lane for each of 1 to 16 workers: every port puts loads on it, and only its owner's port takes them.
#[derive(Drop)]
pub struct Lanes {
    lanes: Vec<Lane>,
    store: Snapshot<Store>,
}

impl Model for Lanes {
    ghost use Rattle.std.specs.Prelude.{map, length, ◌<◌, ◌≤◌};
    ghost use Rattle.lane_queue.specs.declared.rule.Lane.{Lane};
    ghost use Rattle.lane_queue.specs.PortView.{LanesView};
    ghost use Rattle.req_table.specs.Sizes.{sizes_of};

    ghost Value = { LanesView };

    ghost view = { λ l. record { lanes = map (λ (x : Lane). x.queue) l.lanes.items; sizes = sizes_of l.store.value } };

    ghost invariant = { λ l. (0 < length l.lanes.items) × (length l.lanes.items ≤ 16) };
}

/// The lanes and ports once all workers have ended.
#[derive(Drop)]
pub struct SettledLanes {
    /// What was left in each lane, by worker, the first load first.
    pub left: Vec<Vec<Load>>,
    /// The ports by number. They are no longer connected to the lanes; contracts still see their lists.
    pub ports: Vec<Port>,
}

impl Lanes {
    /// Returns the number of lanes, which is that of the workers.
    pub fn count(&self) -> u32
        ensures count { result ≡ length self.now.lanes }
        ensures some { 0 < length self.now.lanes }
        ensures few { length self.now.lanes ≤ 16 }
    {
        self.lanes.len() as u32
    }

    /// Returns a lane and a port for each worker, by number. The lanes do not borrow the store: for contracts they keep
    /// its number of levels and of nodes, against which all requests are checked. Fails if memory is refused.
    pub fn new(alloc: Global, store: &Store, workers: u32) -> Result<(Lanes, Vec<Port>), AllocError>
        requires { (0 < workers) × (workers ≤ 16) }
        ensures lanes { IfOk result (λ r. (length r.0.lanes ≡ workers) × (r.0.sizes ≡ sizes_of store.now)) }
        ensures ports { IfOk result (λ r. (length r.1.items ≡ workers)
            × ((i : ℕ) (d : PortView) → i < workers
            → slice_index_or r.1.items i d ≡ new_port i r.0.sizes r.0.lanes)) }
    {
        let (lanes, mut roots) = make::open_all(alloc, store, workers)?;
        let mut ports = Vec::new(alloc);
        for number in 0..workers {
            let endpoints = make::issue_endpoints(
                alloc, &lanes, &mut roots, store, workers, number,
            )?;
            ports.push(Port::of_endpoints(number, endpoints, &lanes, store, workers))?;
        }
        let store = Snapshot::of(store);
        Ok((Lanes { lanes, store }, ports))
    }

    /// Puts a load on the lane of the worker `to`. The load is returned, and the port is as before, only if memory is
    /// refused, if the port has put 2^62 loads on this lane, or if the queue's numbers have run out, which happens
    /// after nearly 2^62 loads of all ports.
    pub fn send<R: Wait>(&self, rt: &R, port: &mut Port, to: u32, load: Load) -> Result<(), Load>
        requires port { IsPortOf self.now port.old }
        requires to { to < length self.now.lanes }
        requires some { IsNonEmpty load }
        requires from { load_from load ≡ port.old.number }
        requires may_follow { MayFollowAll (lanes_scope self.now) (ends (sent_to port.old to)) load }
        requires may_be_sent { All (MayBeSent (lanes_scope self.now) port.old.taken (ends (sent_to port.old to))) (items_in load) }
        ensures port { MatchResult result
            (λ _. port.new ≡ has_put port.old to load)
            (λ x. (x ≡ load) × (port.new ≡ port.old)) }
        ensures sent { OnOk result (sent_to port.new to ≡ sent_to port.old to ++ items_in load) }
        ensures others { OnOk result ((k : ℕ) → k ≢ to → sent_to port.new k ≡ sent_to port.old k) }
        ensures put { OnOk result (put_to port.new to ≡ put_to port.old to + 1) }
        ensures others_put { OnOk result ((k : ℕ) → k ≢ to → put_to port.new k ≡ put_to port.old k) }
    {
        port.send_on(rt, &self.lanes[to as usize], to as usize, load)
    }

    /// Returns the pass with which a port steps on the lane of the worker `owner`; its queue has the lanes' rule.
    pub(crate) fn pass_of<'a>(&self, port: &'a Port, owner: u32) -> &'a LanePass
        requires port { IsPortOf self.now port.now }
        requires owner { owner < length self.now.lanes }
        ensures queue { (q : SegId Global) → IsSegPassOf (slice_index_or self.now.lanes owner q) result.now }
        ensures knows { result.now.me.view.client ≡ pass_view (length self.now.lanes) port.now owner }
        ensures kept { AgreesWithOwnLane port.now }
    {
        let _queue: &Queue = &self.lanes[owner as usize].queue;
        port.pass_on(&self.lanes, self.lanes.len() as u32, owner)
    }

    /// Takes the first load of the port's own lane, or none if the lane was empty at some moment of the call. It takes
    /// no memory.
    pub fn take<R: Wait>(&self, rt: &R, port: &mut Port) -> Option<Load>
        requires { IsPortOf self.now port.old }
        ensures some { MatchOption result
            ((port.new ≡ port.old)
            × (sent_by port.old.number port.old.taken ≡ sent_to port.old port.old.number))
            (λ x. (port.new ≡ has_taken port.old x) × IsTaken port.old x) }
        ensures open { IfSome result (λ x. All (IsOpen (lanes_scope self.now) port.old.taken) (items_in x)) }
    {
        let own = port.number() as usize;
        port.take_on(rt, &self.lanes[own])
    }

    /// Ends the lanes, once all threads have ended: returns what was left in each lane, and the ports, and in `law`
    /// that all lists fit together. If memory is refused, lanes and ports are gone.
    pub fn settle<R: Wait>(self, rt: &R, ports: Vec<Port>) -> Result<SettledLanes, AllocError>
        requires { ArePorts (length self.lanes) self.sizes self.lanes ports.items }
        ensures ports { IfOk result (λ r. AreRetired (length self.lanes) ports.items r.ports.items) }
        ensures left { IfOk result (λ r. length r.left.items ≡ length self.lanes) }
        ensures law { IfOk result (λ r.
            LawOfAll (length self.lanes) self.sizes r.ports.items (map (λ v. v.items) r.left.items)) }
    {
        let Lanes { lanes, store } = self;
        let mut ports = ports;
        let alloc = *ports.allocator();
        let workers = lanes.len() as u32;
        let roots = settle::join_all(alloc, &lanes, &store, &mut ports, workers)?;
        let left = settle::read_lanes(rt, &lanes, &store, &ports, roots, workers)?;
        Ok(SettledLanes { left, ports })
    }
}

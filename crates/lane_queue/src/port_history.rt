//! What a port has sent to itself and taken, for contracts only. It consists of snapshots, so it
//! takes no memory when the program runs.
ghost use Rattle.std.specs.Prelude.{◌≡◌, ◌∷◌, [], ◌++◌};
ghost use Rattle.lane_queue.specs.Loads.{items_in};
ghost use Rattle.lane_queue.specs.PortHistory.{sent_in, taken_in};

use crate::load::Load;
use req_table::Item;
use std::marker::Model;
use std::mem;
use std::snapshot::Snapshot;

/// The last step of a port, as far as its own lane is concerned.
#[derive(Drop)]
pub enum PortEvent {
    Nothing,
    Sent(Snapshot<Load>),
    Taken(Snapshot<Load>),
    Kept(Snapshot<Item>),
}

/// The steps of a port in their order, sends to itself, takes and kept requests: the history before the last step, and
/// this step.
#[derive(Drop)]
pub struct History {
    before: Option<Snapshot<History>>,
    last: PortEvent,
}

impl Model for History {
    ghost use Rattle.lane_queue.specs.PortHistory.{HistoryView, history};

    ghost Value = { HistoryView };

    ghost view = { λ o. history o.before o.last };

    ghost size = { λ v. v.steps };

    ghost use Rattle.std.proofs.Common.{arith};

    ghost size_decreases = { λ a h. Prim.grind (arith) };
}

/// What a port has sent to itself and taken. It takes no bytes.
#[derive(Drop)]
pub struct PortHistory {
    now: Snapshot<History>,
}

impl Model for PortHistory {
    ghost use Rattle.lane_queue.specs.PortHistory.{HistoryView};

    ghost Value = { HistoryView };

    ghost view = { λ o. o.now.value };
}

impl PortHistory {
    /// Returns the history in which nothing was sent or taken.
    pub fn new() -> PortHistory
        ensures { (result.sent ≡ []) × (result.taken ≡ []) }
    {
        let history = History {
            before: None,
            last: PortEvent::Nothing,
        };
        PortHistory {
            now: Snapshot::of(&history),
        }
    }

    /// Notes that a load was put on the port's own lane.
    pub fn sent(&mut self, load: Snapshot<Load>)
        ensures { (self.new.sent ≡ self.old.sent ++ items_in load.value) × (self.new.taken ≡ self.old.taken) }
    {
        self.push(PortEvent::Sent(load));
    }

    /// Notes that a load was taken.
    pub fn took(&mut self, load: Snapshot<Load>)
        ensures { (self.new.sent ≡ self.old.sent) × (self.new.taken ≡ self.old.taken ++ items_in load.value) }
    {
        self.push(PortEvent::Taken(load));
    }

    /// Notes that a request was kept, that is, sent and taken.
    pub fn kept(&mut self, ask: Snapshot<Item>)
        ensures { (self.new.sent ≡ self.old.sent ++ ask.value ∷ [])
            × (self.new.taken ≡ self.old.taken ++ ask.value ∷ []) }
    {
        self.push(PortEvent::Kept(ask));
    }

    // Adds a step to the history.
    fn push(&mut self, last: PortEvent)
        ensures { (self.new.sent ≡ self.old.sent ++ sent_in last) × (self.new.taken ≡ self.old.taken ++ taken_in last) }
    {
        let PortHistory { now: before } = mem::replace(self, PortHistory::new());
        let history = History {
            before: Some(before),
            last,
        };
        self.now = Snapshot::of(&history);
    }
}

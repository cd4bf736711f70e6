//! The rule of the lanes' queues, and what each kind of step does to a pass. Values of these types
//! exist only in contracts, except for queues and passes.
use crate::load::Load;
use crossbeam_queue::protocol::{Join, Lesson, Outcome, Protocol, Split};
use crossbeam_queue::{RuledSegQueue, SegPass};
use req_table::{Item, Sizes};
use std::collections::LinkedList;
use std::marker::{Brand, PhantomData};

/// What never changes of a lane, and each pass of it knows: the number of workers, the lane's owner, and the sizes of
/// the store.
pub struct Terms {
    pub workers: u32,
    pub owner: u32,
    pub sizes: Sizes,
}

/// What a pass knows. It is the pass of one port, or, after passes were joined, of several ports with consecutive
/// numbers.
pub struct View {
    /// Whether the lane has its terms. It gets them with the first port's pass.
    pub begun: bool,
    pub terms: Terms,
    /// The number of the first port whose pass this is.
    pub low: u32,
    /// The number after that of the last port.
    pub high: u32,
    /// What each of these ports has sent on the lane, port by port.
    pub sent: LinkedList<LinkedList<Item>>,
    /// What the lane's owner has taken, if it is one of these ports.
    pub taken: LinkedList<Item>,
    /// What was read out of the lane after all ports were joined.
    pub left: LinkedList<Item>,
}

/// The rule of a lane: what was taken and then what waits, each load read as its items, is, of each port, what this
/// port has sent, and that list is fair.
pub struct LaneRule;

impl Protocol<Load, View> for LaneRule {
    ghost use Rattle.lane_queue.specs.Rule.{Holds, blank};

    ghost holds = { Holds };

    ghost first = { blank };
}

/// The terms of the lane whose passes are issued. They are a type parameter, because a kind of step is a type; each
/// call chooses them.
pub trait HasTerms {
    ghost use Rattle.lane_queue.specs.declared.rule.Terms.{Terms};

    ghost terms: { Terms };
}

impl HasTerms for Brand {
    ghost use Rattle.lane_queue.specs.Rule.{no_terms};

    ghost terms = { no_terms };
}

/// The step that issues the pass of the next port.
pub struct Issue<J> {
    of: PhantomData<J>,
}

impl<J: HasTerms> Split<View> for Issue<J> {
    ghost use Rattle.std.specs.Prelude.{◌+◌, []};
    ghost use Rattle.lane_queue.specs.Rule.{issuer, port};

    ghost left = { λ v. issuer J.terms (v.low + 1) };

    ghost right = { λ v. port J.terms v.low [] [] };
}

/// The step that joins a port's pass to that of the ports with lower numbers.
pub struct Merge;

impl Join<View> for Merge {
    ghost use Rattle.std.specs.Prelude.{◌+◌, ◌++◌, []};
    ghost use Rattle.lane_queue.specs.Rule.{joined, spent};

    ghost both = { λ v w. joined v.terms (v.high + 1) (v.sent ++ w.sent) (v.taken ++ w.taken) [] };

    ghost spent = { spent };
}

/// The step by which a port puts a load on the lane.
pub struct Put;

impl Outcome<Load, View> for Put {
    ghost use Rattle.lane_queue.specs.Rule.{Sends};

    ghost then = { Sends };
}

/// The step by which the owner takes the first load.
pub struct Take;

impl Outcome<Load, View> for Take {
    ghost use Rattle.lane_queue.specs.Rule.{Takes};

    ghost then = { Takes };
}

impl Lesson<Load, View> for Take {
    ghost use Rattle.lane_queue.specs.Rule.{OwnSentInOrder};

    ghost fact = { OwnSentInOrder };
}

/// The step that reads out what is left, after all ports were joined.
pub struct Read;

impl Outcome<Load, View> for Read {
    ghost use Rattle.lane_queue.specs.Rule.{Reads};

    ghost then = { Reads };
}

impl Lesson<Load, View> for Read {
    ghost use Rattle.lane_queue.specs.Rule.{AllPortsLawful};

    ghost fact = { AllPortsLawful };
}

/// The queue of one lane.
pub type Queue = RuledSegQueue<Load, View, LaneRule>;

/// What a port needs for its steps on one lane. It takes no bytes.
pub type LanePass = SegPass<Load, View>;

/// A queue that has a rule: what holds of its loads and of what its passes know, between any two atomic steps.
pub trait HasRule {
    ghost use Rattle.std.specs.Prelude.{List};
    ghost use Rattle.lane_queue.specs.declared.load.Load.{Load};
    ghost use Rattle.lane_queue.specs.declared.rule.View.{View};

    ghost rule: { List Load → List View → Type 0 };
}

impl<P: Protocol<Load, View>> HasRule for RuledSegQueue<Load, View, P> {
    ghost rule = { P.holds };
}

/// The lane of one worker.
pub struct Lane {
    pub queue: Queue,
}

impl Drop for Lane {
    fn drop(self) {
        let Lane { queue } = self;
        queue.destroy();
    }
}

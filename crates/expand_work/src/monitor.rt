//! Monitors: what a caller hands in to see progress, to bound waves, and to say when workers are
//! called in.
ghost use Rattle.std.specs.Prelude.{◌≡◌, None, true, false};
ghost use Rattle.expand_work.specs.Bounds.{WaveBound, most_of};

use dd_store::Watch;

/// How an attempt within some budget of nodes has ended: on the whole netlists in one order, whose name is `order`, or
/// a round of pairs by their cones.
#[derive(Clone, Copy, Drop, Debug, PartialEq, Eq)]
pub enum AttemptEnd {
    /// The attempt in this order has decided.
    Decided { order: &'static str },
    /// The attempt needs more nodes than its budget.
    MoreNodes { order: &'static str },
    /// One wave of the attempt has too many requests.
    TooManyRequests { order: &'static str },
    /// The run was stopped before the attempt had ended.
    Stopped { order: &'static str },
    /// The round has ended, and `left` of the `pairs` have no verdict yet.
    Left { left: usize, pairs: usize },
}

/// What a round of merging equal signals has reached.
#[derive(Clone, Copy, Drop, Debug, PartialEq, Eq)]
pub struct MergeRound {
    /// The most nodes that the diagrams of a window may have.
    pub budget: u64,
    /// The number of gates in the graph of both netlists.
    pub gates: usize,
    /// How many gates were merged with older ones, in all rounds so far.
    pub merged: usize,
    /// How many windows were judged, in all rounds so far.
    pub windows: usize,
    /// How many gates have an older one with the same values at all assignments that were tried, but no window that
    /// shows them equal.
    pub candidates: usize,
    /// How many of the pairs are equal because their signals have the same literal.
    pub decided: usize,
    /// How many pairs there are.
    pub pairs: usize,
}

/// What a caller sees of its waves, and how it steers them. The methods with a body do nothing unless a monitor defines
/// them.
pub trait Monitor: Watch + Sync {
    // The most requests that a wave of an engine may have, if they are bounded, and whether a wave may be stopped
    // before its end.
    ghost bound: { Self → WaveBound } = { λ _. record { requests = None; stops = false } };

    /// Is called by a worker that has closed a level, before it expands the level. Of the levels that the caller's
    /// thread expands before it calls the workers in, the monitor is not notified.
    fn at_level(&self, worker: u32, level: u16);

    /// Returns the most requests that a level may have before a wave that has begun on the caller's thread calls in
    /// `workers` workers, if `expected` requests are expected of the whole wave. If it is 0, as it is unless a monitor
    /// defines it, the workers do the whole wave.
    fn caller_level_limit(&self, _workers: u32, _expected: usize) -> usize {
        0
    }

    /// Returns the most requests that a wave of an engine may have, or the greatest number if there is no bound. No
    /// more requests than that are expanded, and each asks for two others at most, so a wave never holds more requests
    /// than those of its entries and twice the bound. Which waves are refused depends neither on the workers nor on
    /// their number.
    fn most_requests(&self) -> usize
        ensures bound { result ≡ most_of (bound self.now).requests };

    /// Whether the run has stopped. The caller's thread and each worker ask before each level that they expand, and so
    /// does a comparison before it begins an attempt; a wave that is stopped fails with `WaveFault::Stopped`. Once the
    /// result is true it has to stay true: the wave asks again after a worker has ended early, and if the result is
    /// false then, the cause is taken to be want of memory.
    fn has_stopped(&self) -> bool
        ensures stops { result ≡ true → (bound self.now).stops ≡ true }
    {
        false
    }

    /// Whether `has_stopped` has returned true, so that an attempt was stopped or not begun. It is asked when all
    /// attempts have ended, and the report says the result. It does not look at the clock again: a run whose time is
    /// over only after its last attempt was not stopped.
    fn was_stopped(&self) -> bool
        ensures stops { result ≡ true → (bound self.now).stops ≡ true }
    {
        false
    }

    /// Is called before each rank of a build: with the rank, from 1 on, how many ranks the build has, and how many
    /// nodes the store has.
    fn at_rank(&self, _rank: u32, _ranks: u32, _nodes: u64) {}

    /// Is called with a number of requests that were expanded: by the caller's thread once for all its levels of a
    /// wave, by a worker for each level. Requests of a wave that the workers have not finished, and the caller's thread
    /// does again, are counted twice.
    fn at_requests(&self, _requests: usize) {}

    /// Is called by the caller's thread when an attempt within `budget` nodes has ended, or a round of pairs by their
    /// cones.
    fn at_attempt(&self, _budget: u64, _end: AttemptEnd) {}

    /// Is called by the caller's thread, before the first round of cones, with how many of the pairs have the same
    /// cones as a pair before them, whose verdict they take. The rounds count only the others.
    fn at_equal_cones(&self, _same: usize, _pairs: usize) {}

    /// Is called by the caller's thread, after the last round of cones, for each pair that is still undecided, with the
    /// number of variables of its cones and the condition. Calls may be missing if the run has stopped.
    fn at_undecided(&self, _variables: usize) {}

    /// Is called if some inputs or registers are, by their names, only in one of two netlists: with their number and
    /// the first of these names, each after a blank.
    fn at_lone_variables(&self, _count: usize, _names: &[u8]) {}

    /// Is called with how many of the pairs were shown to differ by patterns, and the name of the first of these, or an
    /// empty one.
    fn at_patterns(&self, _different: usize, _pairs: usize, _first: &[u8]) {}

    /// Is called when a round of merging equal signals has ended.
    fn at_merge(&self, _round: MergeRound) {}
}

/// A wave of more requests is large. This number and the two below were chosen by measuring (docs/PERFORMANCE.md).
const LARGE: usize = 3 << 14;

/// The most requests of a level that the caller's thread expands if the wave is expected to be large.
const WIDE_IN_LARGE: usize = 1 << 12;

/// The most requests of a level that the caller's thread expands in any other wave.
const WIDE: usize = 1 << 16;

/// A monitor that does nothing, bounds nothing and stops nothing. It leaves a wave to the caller's thread as long as
/// that is faster by measurement.
#[derive(Clone, Copy, Drop, Debug, PartialEq, Eq)]
pub struct NoMonitor;

impl Watch for NoMonitor {
    fn at_shard(&self, _shard: u8, _level: u16) {}
}

impl Monitor for NoMonitor {
    fn at_level(&self, _worker: u32, _level: u16) {}

    fn caller_level_limit(&self, workers: u32, expected: usize) -> usize {
        if workers <= 1 {
            usize::MAX
        } else if expected > LARGE {
            WIDE_IN_LARGE
        } else {
            WIDE
        }
    }

    fn most_requests(&self) -> usize {
        usize::MAX
    }
}

//! The notes that a run takes of the pairs that it leaves undecided, and the cause that follows from them.
ghost use Rattle.std.specs.Prelude.{◌≡◌, ◌+◌, ◌-◌, ◌<◌, ◌≤◌, ◌^◌, true, false, max, min};
ghost use Rattle.check_tool.specs.Ending.{IsCauseOf};

use std::sync::{Mutex, Wait};

/// The most variables that a pairing can have.
const MAX_VARIABLES: usize = 4_096;

/// Pairs that are undecided by their cones.
#[derive(Clone, Copy, Drop, Debug, PartialEq, Eq)]
struct UndecidedPairs {
    // How many have more variables than a pairing can have.
    wide: u64,
    // How many others there are, and the most variables that one of them has.
    given_up: u64,
    variables: u64,
}

impl UndecidedPairs {
    fn none() -> UndecidedPairs
        ensures wide { result.wide ≡ 0 }
        ensures given_up { result.given_up ≡ 0 }
        ensures variables { result.variables ≡ 0 }
    {
        UndecidedPairs {
            wide: 0,
            given_up: 0,
            variables: 0,
        }
    }

    /// Adds a pair whose cones have this number of variables.
    fn add(&mut self, variables: usize)
        ensures wide { MAX_VARIABLES < variables → self.new ≡ record self.old { wide = min (self.old.wide + 1) (2 ^ 64 - 1) } }
        ensures given_up { variables ≤ MAX_VARIABLES → self.new ≡ record self.old {
          given_up = min (self.old.given_up + 1) (2 ^ 64 - 1);
          variables = max self.old.variables variables;
        } }
    {
        if variables > MAX_VARIABLES {
            self.wide = self.wide.saturating_add(1);
            return;
        }
        self.given_up = self.given_up.saturating_add(1);
        self.variables = self.variables.max(variables as u64);
    }
}

/// What was noted so far.
#[derive(Clone, Copy, Drop)]
struct Noted {
    pairs: UndecidedPairs,
    has_stopped: bool,
}

impl Noted {
    fn add(&mut self, variables: usize)
        ensures wide { MAX_VARIABLES < variables → self.new.pairs ≡ record self.old.pairs {
          wide = min (self.old.pairs.wide + 1) (2 ^ 64 - 1);
        } }
        ensures given_up { variables ≤ MAX_VARIABLES → self.new.pairs ≡ record self.old.pairs {
          given_up = min (self.old.pairs.given_up + 1) (2 ^ 64 - 1);
          variables = max self.old.pairs.variables variables;
        } }
        ensures stopped { self.new.has_stopped ≡ self.old.has_stopped }
    {
        self.pairs.add(variables);
    }

    /// Forgets the pairs that were noted before.
    fn begin_anew(&mut self)
        ensures wide { self.new.pairs.wide ≡ 0 }
        ensures given_up { self.new.pairs.given_up ≡ 0 }
        ensures variables { self.new.pairs.variables ≡ 0 }
        ensures stopped { self.new.has_stopped ≡ self.old.has_stopped }
    {
        self.pairs = UndecidedPairs::none();
    }

    /// Notes that the run has ended, and whether it was stopped.
    fn end(&mut self, stopped: bool)
        ensures { self.new ≡ record self.old { has_stopped = stopped } }
    {
        self.has_stopped = stopped;
    }

    /// Returns why pairs are undecided. Only a run that may stop is said to have been stopped.
    fn cause(&self, may_stop: bool) -> UndecidedCause
        ensures stopped { result ≡ UndecidedCause.Stopped → may_stop ≡ true }
        ensures may { let pairs = self.now.pairs in
            may_stop ≡ true → IsCauseOf self.now.has_stopped pairs.wide pairs.given_up pairs.variables result }
        ensures may_not { let pairs = self.now.pairs in
            may_stop ≡ false → IsCauseOf false pairs.wide pairs.given_up pairs.variables result }
    {
        if may_stop {
            cause_of(self.has_stopped, self.pairs)
        } else {
            cause_of(false, self.pairs)
        }
    }
}

/// The notes of a run while its pairs are judged. Threads of the run share them, so that each note is taken under a
/// lock.
#[derive(Drop)]
pub struct RunNotes {
    noted: Mutex<Noted>,
}

impl RunNotes {
    /// Returns notes of no pair.
    pub fn new() -> RunNotes {
        RunNotes {
            noted: Mutex::new(Noted {
                pairs: UndecidedPairs::none(),
                has_stopped: false,
            }),
        }
    }

    /// Notes a pair that is undecided after the last round of cones, with the number of variables of its cones.
    pub(crate) fn note_undecided<H: Wait>(&self, rt: &H, variables: usize) {
        self.noted.lock(rt).add(variables);
    }

    /// Notes that a round of cones has ended. Pairs that were noted before it no longer count.
    pub(crate) fn note_round<H: Wait>(&self, rt: &H) {
        self.noted.lock(rt).begin_anew();
    }

    /// Notes that the run has ended, and whether it was stopped.
    pub(crate) fn note_end<H: Wait>(&self, rt: &H, stopped: bool) {
        self.noted.lock(rt).end(stopped);
    }

    /// Returns why pairs are undecided, if some are. Only a run that may stop is said to have been stopped.
    pub(crate) fn cause<H: Wait>(&self, rt: &H, may_stop: bool) -> UndecidedCause
        ensures { result ≡ UndecidedCause.Stopped → may_stop ≡ true }
    {
        self.noted.lock(rt).cause(may_stop)
    }
}

/// Why pairs are undecided, by the notes of a run.
#[derive(Clone, Copy, Drop, Debug, PartialEq, Eq)]
pub enum UndecidedCause {
    /// The run was stopped before all attempts had ended.
    Stopped,
    /// The cones of each pair have more variables than a pairing can have.
    Wide,
    /// Each attempt was given up. `variables` is the greatest number of variables of one pair.
    GivenUp { variables: u64 },
    /// `wide` pairs have more variables than a pairing can have. The attempts at the others were given up, and
    /// `variables` is the greatest number of variables of one of them.
    Both { wide: u64, variables: u64 },
}

/// Returns why these pairs are undecided.
fn cause_of(has_stopped: bool, pairs: UndecidedPairs) -> UndecidedCause
    ensures stopped { result ≡ UndecidedCause.Stopped → has_stopped ≡ true }
    ensures cause { IsCauseOf has_stopped pairs.wide pairs.given_up pairs.variables result }
{
    if has_stopped {
        return UndecidedCause::Stopped;
    }
    let UndecidedPairs {
        wide,
        given_up,
        variables,
    } = pairs;
    match (wide, given_up) {
        (0, _) => UndecidedCause::GivenUp { variables },
        (_, 0) => UndecidedCause::Wide,
        _ => UndecidedCause::Both { wide, variables },
    }
}

//! The progress of a run, as it is printed on standard error: builds, attempts, patterns and rounds of merging.
ghost use Rattle.std.specs.Prelude.{◌≡◌, ◌||◌, is_some};

use crate::folder::{Disk, Folder};
use crate::quote::excerpt;
use crate::say::say;
use crate::terminal::TerminalSink;
use dd_store::Watch;
use expand_work::{AttemptEnd, MergeRound, Monitor, NoMonitor};
use std::alloc::{AllocError, Global};
use std::fmt;
use std::rt::Clock;
use std::sync::atomic::{AtomicU64, Ordering};
use std::sync::{Mutex, Wait};
use text_device::{Sink, read_text};

/// The file in which Linux has the memory of a process in pages of 4,096 bytes: first its address space, then the
/// resident part of it.
const STATM: &str = "/proc/self/statm";

/// The most bytes that are read of this file.
const MAX_STATM: usize = 4_096;

/// A runtime that knows how much memory its process has.
pub trait MemoryMeter {
    /// Returns the resident memory in megabytes (2^20 bytes), rounded down, if it is known.
    fn megabytes(&self, alloc: Global) -> Option<u64>;
}

/// Returns the second number of a text, which is a number of pages, in megabytes.
fn megabytes_of(text: &[u8]) -> Option<u64> {
    let text = std::str::from_utf8(text).ok()?;
    let pages: u64 = text.split(' ').nth(1)?.parse().ok()?;
    Some(pages / 256)
}

/// The memory that Linux reports.
impl MemoryMeter for HostRuntime {
    fn megabytes(&self, alloc: Global) -> Option<u64> {
        let mut file = Disk::new(self).open(STATM).ok()?;
        let text = read_text(alloc, &mut file, MAX_STATM).ok()?;
        megabytes_of(text.as_slice())
    }
}

/// How progress is printed.
#[derive(Clone, Copy, Drop, Debug, PartialEq, Eq)]
pub enum Form {
    /// As lines, each below the one before.
    Lines,
    /// As one line of a terminal, which is written anew each time.
    InPlace,
}

/// Returns how progress is printed on this device: as lines if they are asked for, in place on a terminal, and
/// otherwise not at all.
pub(crate) fn form_on<E: TerminalSink>(asked: bool, errors: &E) -> Option<Form>
    ensures { is_some result ≡ (asked || E.on_terminal errors.now) }
{
    if asked {
        Some(Form::Lines)
    } else if errors.is_on_terminal() {
        Some(Form::InPlace)
    } else {
        None
    }
}

/// How far a build is. `memory` is in megabytes.
#[derive(Clone, Copy, Drop)]
struct BuildStatus {
    rank: u32,
    ranks: u32,
    nodes: u64,
    requests: u64,
    memory: Option<u64>,
}

impl fmt::Display for BuildStatus {
    fn fmt<W: fmt::Write>(&self, f: &mut fmt::Formatter<W>) -> fmt::Result {
        write!(
            f,
            "building rank {} of {}: {} nodes and {} requests so far",
            self.rank, self.ranks, self.nodes, self.requests
        )?;
        match self.memory {
            Some(memory) => write!(f, " in {memory} MB"),
            None => Ok(()),
        }
    }
}

/// How an attempt within `budget` nodes has ended, or how many pairs a round of cones has left.
#[derive(Clone, Copy, Drop)]
struct EndedAttempt {
    budget: u64,
    end: AttemptEnd,
}

impl fmt::Display for EndedAttempt {
    fn fmt<W: fmt::Write>(&self, f: &mut fmt::Formatter<W>) -> fmt::Result {
        let budget = self.budget;
        match self.end {
            AttemptEnd::Decided { order } => {
                write!(f, "order {order} decided within {budget} nodes")
            }
            AttemptEnd::MoreNodes { order } => {
                write!(f, "order {order} needs more than {budget} nodes")
            }
            AttemptEnd::TooManyRequests { order } => write!(
                f,
                "order {order} needs too many requests in one wave for a budget of {budget} nodes"
            ),
            AttemptEnd::Stopped { order } => write!(
                f,
                "order {order} was stopped within a budget of {budget} nodes"
            ),
            AttemptEnd::Left { left, pairs } => write!(
                f,
                "{left} of {pairs} pairs are undecided by cones within {budget} nodes"
            ),
        }
    }
}

/// How many pairs patterns have shown to differ, and the name of the first of these.
#[derive(Drop)]
struct Shown {
    different: usize,
    pairs: usize,
    first: String,
}

impl fmt::Display for Shown {
    fn fmt<W: fmt::Write>(&self, f: &mut fmt::Formatter<W>) -> fmt::Result {
        write!(
            f,
            "patterns show that {} of {} pairs differ",
            self.different, self.pairs
        )?;
        if self.different == 0 {
            return Ok(());
        }
        write!(f, ", the first is {}", self.first)
    }
}

/// How many pairs have the same cones as an earlier pair.
#[derive(Clone, Copy, Drop)]
struct EqualCones {
    same: usize,
    pairs: usize,
}

impl fmt::Display for EqualCones {
    fn fmt<W: fmt::Write>(&self, f: &mut fmt::Formatter<W>) -> fmt::Result {
        write!(
            f,
            "{} of {} pairs have the same cones as another pair, and take its verdict",
            self.same, self.pairs
        )
    }
}

/// How many inputs and registers only one netlist has, and the first of their names, each after a blank.
#[derive(Drop)]
struct Lone {
    count: usize,
    names: String,
}

impl fmt::Display for Lone {
    fn fmt<W: fmt::Write>(&self, f: &mut fmt::Formatter<W>) -> fmt::Result {
        write!(
            f,
            "inputs and registers that only one netlist has: {}, the first are{}",
            self.count, self.names
        )
    }
}

/// The result of a round of merging.
#[derive(Clone, Copy, Drop)]
struct RoundStatus {
    round: MergeRound,
}

impl fmt::Display for RoundStatus {
    fn fmt<W: fmt::Write>(&self, f: &mut fmt::Formatter<W>) -> fmt::Result {
        let round = self.round;
        write!(
            f,
            "merging, budget {}: {} gates, {} merged by {} windows, {} candidates left",
            round.budget, round.gates, round.merged, round.windows, round.candidates
        )?;
        write!(f, "; {} of {} pairs decided", round.decided, round.pairs)
    }
}

/// The bytes that erase the line of a terminal.
const CLEAN: &[u8] = b"\r\x1b[K";

/// The device on which progress is printed, and what was printed there.
#[derive(Drop)]
struct ProgressDisplay<'a, E> {
    errors: &'a mut E,
    form: Form,
    // When progress was last printed, or the monitor was made, in milliseconds of the clock.
    shown_at: u64,
    // How many builds have begun, and whether the terminal has a line of progress now.
    attempts: u32,
    shown: bool,
}

impl<E: Sink> ProgressDisplay<'_, E> {
    fn write(&mut self, text: &[u8]) {
        say(&mut *self.errors, text);
    }

    /// Erases the line of progress from the terminal, if there is one.
    fn clean(&mut self) {
        if self.shown {
            self.shown = false;
            self.write(CLEAN);
        }
    }

    /// Notes that a rank begins, and returns whether that is to be printed: at most once a second. On a terminal the
    /// line is erased at the last rank, since the report may follow.
    fn note_rank(&mut self, now: u64, rank: u32, ranks: u32) -> bool {
        if rank == 1 {
            self.attempts = self.attempts.saturating_add(1);
        }
        if rank == ranks {
            self.clean();
        }
        let is_last_in_place = self.form == Form::InPlace && rank == ranks;
        if is_last_in_place || now.saturating_sub(self.shown_at) < 1_000 {
            return false;
        }
        self.shown_at = now;
        true
    }

    /// Prints this as a line, or in place of the line before.
    fn show<D: fmt::Display + Drop>(&mut self, alloc: Global, update: D) -> Result<(), AllocError> {
        let line = match self.form {
            Form::Lines => format!(in alloc; "bddcheck: {update}\n")?,
            Form::InPlace => {
                let attempt = self.attempts;
                self.shown = true;
                format!(in alloc; "\rbddcheck: attempt {attempt} is {update}\u{1b}[K")?
            }
        };
        self.write(line.as_bytes());
        Ok(())
    }

    /// Prints this as a line that stays, also on a terminal.
    fn announce<D: fmt::Display + Drop>(
        &mut self,
        alloc: Global,
        update: D,
    ) -> Result<(), AllocError> {
        let line = format!(in alloc; "bddcheck: {update}\n")?;
        self.clean();
        self.write(line.as_bytes());
        Ok(())
    }
}

/// A monitor that prints which rank a build has reached, at most once a second: as lines, or as one line in place. It
/// neither bounds nor stops waves. A lock keeps what it writes apart, since builds of several threads may report at the
/// same time.
#[derive(Drop)]
pub struct Progress<'a, 'e, H, E> {
    rt: &'a H,
    alloc: Global,
    display: Mutex<ProgressDisplay<'e, E>>,
    // The number of requests that were expanded so far.
    requests: AtomicU64,
}

/// Returns the time of the clock in milliseconds, if it can be read.
pub(crate) fn millis_of<H: Clock>(rt: &H) -> Option<u64> {
    match rt.monotonic() {
        Ok(now) => Some(
            now.as_secs()
                .saturating_mul(1_000)
                .saturating_add(u64::from(now.subsec_millis())),
        ),
        Err(_) => None,
    }
}

/// Returns the same time, or 0 if it cannot be read.
fn millis<H: Clock>(rt: &H) -> u64 {
    millis_of(rt).unwrap_or(0)
}

impl<'a, 'e, H: Clock + MemoryMeter + Wait, E: Sink> Progress<'a, 'e, H, E> {
    /// Returns a monitor that prints in this form on this device. Its first line comes a second from now at the
    /// earliest.
    pub fn new(rt: &'a H, alloc: Global, form: Form, errors: &'e mut E) -> Progress<'a, 'e, H, E> {
        let shown_at = millis(rt);
        Progress {
            rt,
            alloc,
            display: Mutex::new(ProgressDisplay {
                errors,
                form,
                shown_at,
                attempts: 0,
                shown: false,
            }),
            requests: AtomicU64::new(0),
        }
    }

    /// Erases the line of progress from the terminal, if there is one, and releases the device.
    pub fn end(self) {
        let Progress { display, .. } = self;
        let mut display = display.into_inner();
        display.clean();
    }

    /// Prints this, if there is memory for its line.
    fn show<D: fmt::Display + Drop>(&self, update: D) {
        let _ = self.display.lock(self.rt).show(self.alloc, update);
    }

    /// Prints this as a line that stays, if there is memory for it.
    fn announce<D: fmt::Display + Drop>(&self, update: D) {
        let _ = self.display.lock(self.rt).announce(self.alloc, update);
    }

    /// Returns whether lines were asked for, so that more is printed than a terminal shows by itself.
    fn is_by_lines(&self) -> bool {
        self.display.lock(self.rt).form == Form::Lines
    }
}

impl<H: Clock + MemoryMeter + Wait + Sync, E: Sink + Send> Watch for Progress<'_, '_, H, E> {
    fn at_shard(&self, _shard: u8, _level: u16) {}
}

impl<H: Clock + MemoryMeter + Wait + Sync, E: Sink + Send> Monitor for Progress<'_, '_, H, E> {
    fn at_level(&self, _worker: u32, _level: u16) {}

    fn caller_level_limit(&self, workers: u32, expected: usize) -> usize {
        NoMonitor.caller_level_limit(workers, expected)
    }

    fn most_requests(&self) -> usize {
        usize::MAX
    }

    fn at_rank(&self, rank: u32, ranks: u32, nodes: u64) {
        let now = millis(self.rt);
        let is_shown = self.display.lock(self.rt).note_rank(now, rank, ranks);
        if is_shown {
            self.show(BuildStatus {
                rank,
                ranks,
                nodes,
                requests: self.requests.load(Ordering::SeqCst),
                memory: self.rt.megabytes(self.alloc),
            });
        }
    }

    fn at_requests(&self, requests: usize) {
        self.requests.fetch_add(requests as u64, Ordering::SeqCst);
    }

    // The attempt that succeeds is not printed here, but after the report.
    fn at_attempt(&self, budget: u64, end: AttemptEnd) {
        if self.is_by_lines() && !matches!(end, AttemptEnd::Decided { .. }) {
            self.show(EndedAttempt { budget, end });
        }
    }

    fn at_equal_cones(&self, same: usize, pairs: usize) {
        if self.is_by_lines() {
            self.announce(EqualCones { same, pairs });
        }
    }

    fn at_lone_variables(&self, count: usize, names: &[u8]) {
        if !self.is_by_lines() {
            return;
        }
        if let Ok(names) = excerpt(self.alloc, names) {
            self.announce(Lone { count, names });
        }
    }

    // If lines are not asked for, a terminal shows only that there are differences.
    fn at_patterns(&self, different: usize, pairs: usize, first: &[u8]) {
        if different == 0 && !self.is_by_lines() {
            return;
        }
        let Ok(first) = excerpt(self.alloc, first) else {
            return;
        };
        self.announce(Shown {
            different,
            pairs,
            first,
        });
    }

    fn at_merge(&self, round: MergeRound) {
        if self.is_by_lines() {
            self.announce(RoundStatus { round });
        }
    }
}

//! What is reported while diagrams are built.
use crate::devices::{End, byte_reader, new_writer};
use crate::failing::AMPLE;
use crate::memory_folder::MemoryFolder;
use crate::runs::ran;
use check_tool::progress::{Form, MemoryMeter, Progress};
use expand_work::{MergeRound, Monitor, NoMonitor};
use std::alloc::{Alloc, Global};
use std::io;
use std::rt::Clock;
use std::sync::Wait;
use std::sync::atomic::{AtomicU64, Ordering};
use std::test::Fail;
use std::thread::Threads;
use std::time::Duration;

/// A runtime whose clock is `step` milliseconds later each time that it is read, and which reports `megabytes` of memory.
#[derive(Drop)]
struct Ticks<'a, R> {
    rt: &'a R,
    step: u64,
    megabytes: Option<u64>,
    looks: AtomicU64,
}

impl<'a, R> Ticks<'a, R> {
    fn new(rt: &'a R, step: u64, megabytes: Option<u64>) -> Ticks<'a, R> {
        Ticks {
            rt,
            step,
            megabytes,
            looks: AtomicU64::new(0),
        }
    }
}

impl<R: AllocGlobal> Alloc for Ticks<'_, R> {
    type A = Global;

    fn alloc(&self) -> Global {
        self.rt.alloc()
    }
}

impl<R: Threads> Threads for Ticks<'_, R> {}

impl<R: Wait> Wait for Ticks<'_, R> {}

impl<R> Clock for Ticks<'_, R> {
    fn monotonic(&self) -> io::Result<Duration> {
        let looks = self.looks.fetch_add(1, Ordering::SeqCst) % 1_000;
        Ok(Duration::from_millis(looks.wrapping_mul(self.step)))
    }

    fn since_1970(&self) -> io::Result<Duration> {
        self.monotonic()
    }
}

impl<R> MemoryMeter for Ticks<'_, R> {
    fn megabytes(&self, _alloc: Global) -> Option<u64> {
        self.megabytes
    }
}

/// The lines that are written at so many ranks.
fn lines_at<R: AllocGlobal + Wait + Sync>(rt: &R, ranks: u32) -> Vec<u8> {
    let mut errors = new_writer(rt.alloc(), AMPLE, End::Fails, true);
    let ticks = Ticks::new(rt, 400, None);
    let progress = Progress::new(&ticks, rt.alloc(), Form::Lines, &mut errors);
    for rank in 1..=ranks {
        progress.at_rank(rank, ranks, 5);
    }
    progress.end();
    errors.written
}

#[test]
fn lines_a_second(rt: HostRuntime) -> Result<(), Fail> {
    for (ranks, lines) in [(2, 0), (3, 1), (5, 1), (6, 2)] {
        let output = lines_at(&rt, ranks);
        let ends = output.as_slice().iter().filter(|byte| **byte == b'\n');
        assert!(rt; ends.count() == lines, "{ranks}");
    }
    let mut errors = new_writer(rt.alloc(), AMPLE, End::Fails, true);
    let progress = Progress::new(&rt, rt.alloc(), Form::Lines, &mut errors);
    for workers in [1, 2, 16] {
        for expected in [0, 1_000, 1_000_000_000] {
            let most = progress.caller_level_limit(workers, expected);
            assert!(rt; most == NoMonitor.caller_level_limit(workers, expected));
        }
    }
    progress.end();
    Ok(())
}

/// The line that is written at the third of seven ranks.
fn line_of_third<R: AllocGlobal + Wait + Sync>(rt: &R, megabytes: Option<u64>) -> Vec<u8> {
    let mut errors = new_writer(rt.alloc(), AMPLE, End::Fails, true);
    let ticks = Ticks::new(rt, 400, megabytes);
    let progress = Progress::new(&ticks, rt.alloc(), Form::Lines, &mut errors);
    progress.at_rank(1, 7, 2);
    progress.at_requests(5);
    progress.at_rank(2, 7, 40);
    progress.at_requests(0);
    progress.at_requests(7);
    progress.at_rank(3, 7, 90);
    progress.end();
    errors.written
}

#[test]
fn line_of_progress(rt: HostRuntime) -> Result<(), Fail> {
    for (megabytes, wanted) in [
        (
            None,
            "bddcheck: building rank 3 of 7: 90 nodes and 12 requests so far\n",
        ),
        (
            Some(41),
            "bddcheck: building rank 3 of 7: 90 nodes and 12 requests so far in 41 MB\n",
        ),
    ] {
        let output = line_of_third(&rt, megabytes);
        assert!(rt; output.as_slice() == wanted.as_bytes());
    }
    Ok(())
}

/// What is written in place for two builds, the second of which comes to its end or not.
fn bytes_in_place<R: AllocGlobal + Wait + Sync>(rt: &R, ends: bool) -> Vec<u8> {
    let mut errors = new_writer(rt.alloc(), AMPLE, End::Fails, true);
    let ticks = Ticks::new(rt, 400, Some(41));
    let progress = Progress::new(&ticks, rt.alloc(), Form::InPlace, &mut errors);
    progress.at_requests(12);
    progress.at_rank(1, 7, 2);
    progress.at_rank(1, 7, 40);
    progress.at_rank(2, 7, 90);
    if ends {
        progress.at_rank(7, 7, 100);
        progress.at_rank(7, 7, 100);
    }
    progress.end();
    errors.written
}

// On a terminal the line is written in place, and removed once: before the last rank, after which a report may come, or at the end.
#[test]
fn line_in_place(rt: HostRuntime) -> Result<(), Fail> {
    let wanted =
        "\rbddcheck: attempt 2 is building rank 2 of 7: 90 nodes and 12 requests so far in 41 MB\u{1b}[K\r\u{1b}[K";
    for ends in [true, false] {
        let output = bytes_in_place(&rt, ends);
        assert!(rt; output.as_slice() == wanted.as_bytes());
    }
    Ok(())
}

/// What is written in this form about patterns, of which some show differences, and a round of merging.
fn patterns_and_round<R: AllocGlobal + Wait + Sync>(rt: &R, form: Form) -> Vec<u8> {
    let mut errors = new_writer(rt.alloc(), AMPLE, End::Fails, true);
    let ticks = Ticks::new(rt, 400, None);
    let progress = Progress::new(&ticks, rt.alloc(), form, &mut errors);
    progress.at_patterns(0, 2, b"");
    progress.at_patterns(3, 40, b"out\x1b7");
    progress.at_merge(MergeRound {
        budget: 4_000,
        gates: 15_023,
        merged: 331,
        windows: 2_077,
        candidates: 272,
        decided: 256,
        pairs: 256,
    });
    progress.end();
    errors.written
}

// In place, only patterns that show differences are reported, and no rounds of merging. A name is written without control characters.
#[test]
fn lines_of_patterns_and_merging(rt: HostRuntime) -> Result<(), Fail> {
    for (form, wanted) in [
        (
            Form::Lines,
            "bddcheck: patterns show that 0 of 2 pairs differ\nbddcheck: patterns show that 3 of 40 pairs differ, the first is out?7\nbddcheck: merging, budget 4000: 15023 gates, 331 merged by 2077 windows, 272 candidates left; 256 of 256 pairs decided\n",
        ),
        (
            Form::InPlace,
            "bddcheck: patterns show that 3 of 40 pairs differ, the first is out?7\n",
        ),
    ] {
        let output = patterns_and_round(&rt, form);
        assert!(rt; output.as_slice() == wanted.as_bytes());
    }
    Ok(())
}

/// What a run with these arguments writes on standard error, if that is a terminal or not and each rank could have a line.
fn said_on<R: AllocGlobal + Threads + Wait + Sync>(
    rt: &R,
    line: &str,
    seen: bool,
) -> Result<(u8, Vec<u8>), Fail> {
    let ticks = Ticks::new(rt, 2_000, None);
    let mut out = new_writer(rt.alloc(), AMPLE, End::Fails, true);
    let mut errors = new_writer(rt.alloc(), AMPLE, End::Fails, true);
    errors.seen = seen;
    let status = ran(
        &ticks,
        line,
        &mut MemoryFolder::new(rt.alloc()),
        &mut byte_reader("", 1),
        &mut out,
        &mut errors,
    )?;
    Ok((status, errors.written))
}

// Nothing is written while diagrams are built, unless `--verbose` is given, or standard error is a terminal.
#[test]
fn silence(rt: HostRuntime) -> Result<(), Fail> {
    for (line, seen, first) in [
        ("first second", false, ""),
        ("--order declared first second", false, ""),
        ("--order cones first second", false, ""),
        (
            "first second",
            true,
            "\rbddcheck: attempt 1 is building rank 1 of ",
        ),
        (
            "--verbose first second",
            false,
            "bddcheck: building rank 1 of ",
        ),
    ] {
        let (status, said) = said_on(&rt, line, seen)?;
        assert!(rt; status == 1, "{line}");
        assert!(rt; said.as_slice().starts_with(first.as_bytes()), "{line}");
        assert!(rt; said.is_empty() == first.is_empty(), "{line}");
    }
    Ok(())
}

#[test]
fn memory_of_the_process(rt: HostRuntime) -> Result<(), Fail> {
    let megabytes = rt.megabytes(rt.alloc());
    assert!(rt; megabytes.is_some_and(|megabytes| megabytes < 1_000_000));
    Ok(())
}

/// The status of a run whose time is over the second time that it reads the clock, its report, and what it writes on standard error.
fn stopped_on<R: AllocGlobal + Threads + Wait + Sync>(
    rt: &R,
    line: &str,
) -> Result<(u8, Vec<u8>, Vec<u8>), Fail> {
    let ticks = Ticks::new(rt, 2_000, None);
    let mut out = new_writer(rt.alloc(), AMPLE, End::Fails, true);
    let mut errors = new_writer(rt.alloc(), AMPLE, End::Fails, true);
    let status = ran(
        &ticks,
        line,
        &mut MemoryFolder::new(rt.alloc()),
        &mut byte_reader("", 1),
        &mut out,
        &mut errors,
    )?;
    Ok((status, out.written, errors.written))
}

/// What a run writes that is stopped before its first attempt, if a pattern shows that one pair differs.
static STOPPED: &str = "UNDECIDED 22\nDIFFER 23 at ";

// Standard error has a line for a run that is stopped, before that on undecided pairs, and the report has what was known by then.
#[test]
fn stopped_run(rt: HostRuntime) -> Result<(), Fail> {
    for (line, said) in [
        (
            "--seconds 1 first second",
            "bddcheck: stopped after 1 second\n",
        ),
        (
            "--seconds 2 --order cones first second",
            "bddcheck: stopped after 2 seconds\n",
        ),
        (
            "--seconds 2 --order merge first second",
            "bddcheck: stopped after 2 seconds\n",
        ),
    ] {
        let (status, report, errors) = stopped_on(&rt, line)?;
        assert!(rt; status == 1, "{line}");
        assert!(rt; report.as_slice().starts_with(STOPPED.as_bytes()), "{line}");
        assert!(rt; errors.as_slice().starts_with(said.as_bytes()), "{line}");
    }
    Ok(())
}

// In a named order, and in the best one, a run that is stopped ends with a fault and without a report.
#[test]
fn stopped_run_in_one_order(rt: HostRuntime) -> Result<(), Fail> {
    let said = "bddcheck: stopped after 2 seconds\nbddcheck: build: stopped before its end\n";
    for order in ["declared", "msb-first", "best"] {
        let line = format!(in rt.alloc(); "--seconds 2 --order {order} first second")?;
        let (status, report, errors) = stopped_on(&rt, line.as_str())?;
        assert!(rt; status == 3 && report.is_empty(), "{order}");
        assert!(rt; errors.as_slice().starts_with(said.as_bytes()), "{order}");
    }
    Ok(())
}

// A run that ends before its time is over does not mention it.
#[test]
fn run_that_ends_in_time(rt: HostRuntime) -> Result<(), Fail> {
    let (status, report, errors) = stopped_on(&rt, "--seconds 4000000 first second")?;
    assert!(rt; status == 1 && !report.is_empty() && errors.is_empty());
    Ok(())
}

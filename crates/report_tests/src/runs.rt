//! Runs of the program over a folder and devices in memory, which fail at a given place.
use crate::devices::{BoundedWriter, ByteReader, End, byte_reader, new_writer};
use crate::failing::{AMPLE, C17, C17B, REPORT};
use crate::memory_folder::MemoryFolder;
use check_report::CheckFault;
use check_tool::fault::{FileRole, ToolFault};
use check_tool::folder::Obstacle;
use check_tool::process::{ArgumentsError, status_of};
use check_tool::progress::MemoryMeter;
use check_tool::tool::{refuse, run_tool};
use expand_work::WaveFault;
use net_bench::fault::BenchFault;
use net_names::order::OrderFault;
use std::alloc::{AllocError, Global};
use std::process::Abort;
use std::rt::Clock;
use std::sync::Wait;
use std::test::Fail;
use std::thread::Threads;

/// The arguments of a line.
fn words_of(alloc: Global, line: &str) -> Result<Vec<String>, AllocError> {
    let mut words = Vec::new(alloc);
    for word in line.split_ascii_whitespace() {
        words.push(String::from_str(alloc, word)?)?;
    }
    Ok(words)
}

/// The status of a run with the arguments of a line.
pub(crate) fn ran<R: AllocGlobal + Clock + MemoryMeter + Threads + Wait + Sync>(
    rt: &R,
    line: &str,
    folder: &mut MemoryFolder,
    input: &mut ByteReader,
    out: &mut BoundedWriter,
    errors: &mut BoundedWriter,
) -> Result<u8, AllocError> {
    let words = words_of(rt.alloc(), line)?;
    Ok(run_tool(rt, words.as_slice(), folder, input, out, errors))
}

/// Arguments, the file that fails, standard input, which fails too, the status, the line after the program's name, and what helps.
type Row = (
    &'static str,
    &'static str,
    &'static str,
    u8,
    &'static str,
    &'static str,
);

static MORE: &str = "more memory is needed";

static FAILED: &str = "the device failed, or the path is a folder";

fn rows() -> [Row; 8] {
    [
        ("forbidden second", "", "", 3, "out of memory", MORE),
        ("first forbidden", "", "", 3, "out of memory", MORE),
        (
            "--order-file forbidden first second",
            "",
            "",
            3,
            "out of memory",
            MORE,
        ),
        (
            "first second",
            "first",
            "",
            2,
            "first: cannot be read",
            "first: ",
        ),
        (
            "first second",
            "second",
            "",
            2,
            "second: cannot be read",
            "second: ",
        ),
        (
            "--order-file list first second",
            "list",
            "",
            2,
            "order: cannot be read",
            "list: ",
        ),
        (
            "",
            "",
            "%%\n",
            2,
            "standard input: cannot be read",
            "standard input failed, or is a folder",
        ),
        (
            "first -",
            "",
            C17,
            2,
            "second: cannot be read",
            "standard input: ",
        ),
    ]
}

#[test]
fn files_that_fail(rt: HostRuntime) -> Result<(), Fail> {
    for (line, failing, input, status, fault, helps) in rows() {
        let mut folder = MemoryFolder::new(rt.alloc());
        folder.failing = failing;
        let mut input = byte_reader(input, input.len());
        let mut out = new_writer(rt.alloc(), AMPLE, End::Fails, true);
        let mut errors = new_writer(rt.alloc(), AMPLE, End::Fails, true);
        let ended = ran(&rt, line, &mut folder, &mut input, &mut out, &mut errors)?;
        let why = if helps.ends_with(": ") { FAILED } else { "" };
        let want = format!(in rt.alloc(); "bddcheck: {fault}\nbddcheck: {helps}{why}\n")?;
        assert!(rt; errors.written.as_slice() == want.as_bytes(), "{line}");
        assert!(rt; ended == status && out.written.is_empty(), "{line}");
    }
    Ok(())
}

/// The status of a run with these arguments and this output, and what it writes on standard error, which has so much room.
fn ended_on<R: AllocGlobal + Clock + MemoryMeter + Threads + Wait + Sync>(
    rt: &R,
    line: &str,
    mut out: BoundedWriter,
    capacity: usize,
) -> Result<(u8, Vec<u8>), AllocError> {
    let mut folder = MemoryFolder::new(rt.alloc());
    let mut errors = new_writer(rt.alloc(), capacity, End::Fails, true);
    let status = ran(
        rt,
        line,
        &mut folder,
        &mut byte_reader("", 1),
        &mut out,
        &mut errors,
    )?;
    Ok((status, errors.written))
}

#[test]
fn outputs_that_fail(rt: HostRuntime) -> Result<(), Fail> {
    let unwritten =
        b"bddcheck: report: cannot be written\nbddcheck: standard output is full, or closed\n".as_slice();
    for (capacity, end, flushes) in [
        (0, End::Fails, true),
        (5, End::Fails, true),
        (5, End::TakesNone, true),
        (AMPLE, End::Fails, false),
    ] {
        let out = new_writer(rt.alloc(), capacity, end, flushes);
        let (status, said) = ended_on(&rt, "first second", out, AMPLE)?;
        assert!(rt; status == 3 && said.as_slice() == unwritten, "{capacity}");
    }
    let help = new_writer(rt.alloc(), 5, End::Fails, true);
    let (status, _) = ended_on(&rt, "--help", help, AMPLE)?;
    assert!(rt; status == 3);
    Ok(())
}

// The status is the same if nothing can be written on standard error.
#[test]
fn errors_that_fail(rt: HostRuntime) -> Result<(), Fail> {
    for (line, want) in [
        ("first second", 1),
        ("first", 2),
        ("--limit x", 2),
        ("--limit 12 first second", 3),
    ] {
        let out = new_writer(rt.alloc(), AMPLE, End::Fails, true);
        let (status, said) = ended_on(&rt, line, out, 0)?;
        assert!(rt; status == want && said.is_empty(), "{line}");
    }
    Ok(())
}

#[test]
fn no_words(rt: HostRuntime) -> Result<(), Fail> {
    let mut out = new_writer(rt.alloc(), AMPLE, End::Fails, true);
    let mut errors = new_writer(rt.alloc(), AMPLE, End::Fails, true);
    let status = status_of(
        &rt,
        Err(ArgumentsError::OutOfMemory),
        &mut MemoryFolder::new(rt.alloc()),
        &mut byte_reader("", 1),
        &mut out,
        &mut errors,
    );
    assert!(rt; errors.written.as_slice() == b"bddcheck: out of memory\n".as_slice());
    assert!(rt; status == 3 && out.written.is_empty());
    Ok(())
}

/// Faults of a comparison with their lines, after the program's name, and their statuses. No run of the program ends
/// with the last fault: too many requests only end an attempt.
fn check_faults() -> [(CheckFault, &'static str, u8); 5] {
    [
        (
            CheckFault::Order(OrderFault::NotAPermutation { place: 0 }),
            "order: name 0 of the list does not fit",
            2,
        ),
        (
            CheckFault::Second(BenchFault::BadByte {
                line: 4_294_967_295,
            }),
            "second: line 4294967295: a byte that no statement has",
            2,
        ),
        (
            CheckFault::First(BenchFault::OutOfMemory),
            "first: out of memory",
            3,
        ),
        (
            CheckFault::GivenUp,
            "build: given up in each order; more memory, or a good order by --order-file, may help",
            3,
        ),
        (
            CheckFault::Wave(WaveFault::TooManyRequests),
            "build: more requests than the bound allows",
            3,
        ),
    ]
}

/// Expects that a fault is reported by this line, after the program's name, and has this status.
fn expect_fault_line<R: AllocGlobal + Abort>(
    rt: &R,
    fault: ToolFault,
    line: &str,
    want: u8,
) -> Result<(), Fail> {
    let mut errors = new_writer(rt.alloc(), AMPLE, End::Fails, true);
    let status = refuse(rt.alloc(), fault, &mut errors);
    let said = format!(in rt.alloc(); "bddcheck: {line}\n")?;
    assert!(rt; errors.written.as_slice() == said.as_bytes(), "{line}");
    assert!(rt; status == want, "{line}");
    Ok(())
}

#[test]
fn lines_of_faults(rt: HostRuntime) -> Result<(), Fail> {
    let links = ToolFault::CannotOpen(FileRole::Given, Obstacle::Links);
    expect_fault_line(&rt, links, "given: cannot be opened", 2)?;
    let order = ToolFault::BadOrder(OrderFault::NotAPermutation { place: 0 });
    expect_fault_line(&rt, order, "order: name 0 of the list does not fit", 2)?;
    for (fault, line, want) in check_faults() {
        expect_fault_line(&rt, ToolFault::Check(fault), line, want)?;
    }
    Ok(())
}

#[test]
fn plain_run(rt: HostRuntime) -> Result<(), Fail> {
    let mut folder = MemoryFolder::new(rt.alloc());
    let mut out = new_writer(rt.alloc(), AMPLE, End::Fails, true);
    let mut errors = new_writer(rt.alloc(), AMPLE, End::Fails, true);
    let words = "--order-file list first -";
    let status = ran(
        &rt,
        words,
        &mut folder,
        &mut byte_reader(C17B, AMPLE),
        &mut out,
        &mut errors,
    )?;
    assert!(rt; status == 1 && errors.written.is_empty());
    assert!(rt; out.written.as_slice() == REPORT.as_bytes());
    Ok(())
}

/// What a run with these arguments writes, saves, and writes on standard error, with its status.
fn saved_by<R: AllocGlobal + Clock + MemoryMeter + Threads + Wait + Sync>(
    rt: &R,
    line: &str,
) -> Result<(Vec<u8>, Vec<u8>, Vec<u8>, u8), AllocError> {
    let mut folder = MemoryFolder::new(rt.alloc());
    let mut out = new_writer(rt.alloc(), AMPLE, End::Fails, true);
    let mut errors = new_writer(rt.alloc(), AMPLE, End::Fails, true);
    let mut input = byte_reader("", 1);
    let status = ran(rt, line, &mut folder, &mut input, &mut out, &mut errors)?;
    Ok((out.written, folder.wave, errors.written, status))
}

// The whole text of the file is in tests/vcd.py.
#[test]
fn differences_as_vcd(rt: HostRuntime) -> Result<(), Fail> {
    let (report, wave, said, status) = saved_by(&rt, "--vcd wave --order declared first second")?;
    assert!(rt; status == 1 && said.is_empty());
    assert!(rt; report.as_slice() == REPORT.as_bytes());
    assert!(rt;
        wave.as_slice()
            .starts_with(b"$timescale 1 ns $end\n$scope module first $end\n")
    );
    let (_, wave, said, status) = saved_by(&rt, "--vcd wave first first")?;
    assert!(rt; status == 0 && said.is_empty() && wave.is_empty());
    let (_, wave, _, status) = saved_by(&rt, "--vcd wave --only 22 first second")?;
    assert!(rt; status == 0 && wave.is_empty());
    Ok(())
}

#[test]
fn files_that_are_not_saved(rt: HostRuntime) -> Result<(), Fail> {
    for (words, helps) in [
        (
            "--vcd full first second",
            "bddcheck: full: its device is full, or has failed\n",
        ),
        (
            "--verbose --order declared --vcd full first second",
            "bddcheck: full: its device is full, or has failed\n",
        ),
        (
            "--verbose --order declared --vcd nowhere/wave first second",
            "bddcheck: nowhere/wave: there is no such file or folder\n",
        ),
    ] {
        let (report, _, said, status) = saved_by(&rt, words)?;
        let want = format!(in rt.alloc(); "bddcheck: vcd: cannot be written\n{helps}")?;
        assert!(rt;
            status == 3 && report.as_slice() == REPORT.as_bytes(),
            "{words}"
        );
        assert!(rt; said.as_slice() == want.as_bytes(), "{words}");
    }
    Ok(())
}

//! What is written after a fault: where it is, what helps, and the refused line or name.
use crate::devices::{End, byte_reader, new_writer};
use crate::failing::{AMPLE, C17};
use crate::memory_folder::{AfterOpen, MemoryFolder};
use crate::runs::ran;
use check_tool::quote::quotation;
use std::test::Fail;

#[test]
fn lines_of_texts(rt: HostRuntime) -> Result<(), Fail> {
    let three: &[u8] = b"one\ntwo\r\n\xff\x00 ~three";
    for (line, want) in [(1, "one"), (2, "two "), (3, "?? ~three"), (4, "")] {
        let seen = quotation(rt.alloc(), three, line)?;
        assert!(rt; seen.as_str() == want, "{line}");
    }
    let wide = quotation(rt.alloc(), &[b'x'; 101], 1)?;
    assert!(rt; wide.as_bytes().len() == 109 && wide.as_bytes().ends_with(b"x... (cut)"));
    Ok(())
}

static C17_CUT: &str =
    "INPUT(1)\nINPUT(2)\nINPUT(3)\nINPUT(6)\nINPUT(7)\nOUTPUT(22)\nOUTPUT(23)\n10 = NAND(1,";

static BROKEN: &str =
    "bddcheck: second: line 8: broken statement\nbddcheck: second:8: a statement is INPUT(a), OUTPUT(a) or a = GATE(b, c)";

static BAD_NAME: &str =
    "bddcheck: order: line 2: not a signal name\nbddcheck: list:2: a list has only names and blanks, as --print-order writes it";

static UNKNOWN: &str =
    "bddcheck: only: no such output or register\nbddcheck: first: the first netlist has no output or register, or after NEXT no register, of ";

static UNEXPLAINED: &str =
    "bddcheck: explain: no such output or register\nbddcheck: first: the first netlist has no output, or after NEXT no register, of ";

/// Arguments, the second text, what happens to the files, what is written, what is quoted after it, and the paths that are asked for.
type Row = (
    &'static str,
    &'static str,
    AfterOpen,
    &'static str,
    &'static str,
    &'static str,
);

/// The list has a name and then something that is none. With `--verbose` the same is written as without it.
fn rows() -> [Row; 15] {
    let files = "--verbose first second";
    let plain = "first second";
    let one = "--only 5 first second";
    let two = "--only 22 --only 5 --only 6 first second";
    let explained = "--explain 22 --explain 5 first second";
    let again = "first second first ";
    let both = "first second ";
    let listed = "--verbose --order-file list first second";
    let thrice = "first second second ";
    let twice = "first second list list ";
    let (stays, gone, no_file) = (AfterOpen::Stays, AfterOpen::Gone, AfterOpen::NoFile);
    [
        (files, C17_CUT, stays, BROKEN, ": 10 = NAND(1,", thrice),
        (plain, C17_CUT, stays, BROKEN, ": 10 = NAND(1,", thrice),
        (plain, C17_CUT, gone, BROKEN, "", thrice),
        (one, C17, stays, UNKNOWN, "this name: 5", both),
        (two, C17, stays, UNKNOWN, "this name: 5", again),
        (two, C17, gone, UNKNOWN, "one of these names: 22 5 6", again),
        (
            two,
            C17,
            no_file,
            UNKNOWN,
            "one of these names: 22 5 6",
            both,
        ),
        (explained, C17, stays, UNEXPLAINED, "this name: 5", again),
        (
            explained,
            C17,
            gone,
            UNEXPLAINED,
            "one of these names: 22 5",
            again,
        ),
        (
            explained,
            C17,
            no_file,
            UNEXPLAINED,
            "one of these names: 22 5",
            both,
        ),
        (files, C17_CUT, gone, BROKEN, "", thrice),
        (files, C17_CUT, no_file, BROKEN, "", "first second "),
        (listed, C17, stays, BAD_NAME, ": x2 (", twice),
        (listed, C17, gone, BAD_NAME, "", twice),
        (listed, C17, no_file, BAD_NAME, "", "first second list "),
    ]
}

#[test]
fn refused_lines(rt: HostRuntime) -> Result<(), Fail> {
    for (line, second, later, said, shown, asked) in rows() {
        let mut folder = MemoryFolder::new(rt.alloc());
        folder.second = second;
        folder.list = "1\nx2 (";
        folder.later = later;
        let mut out = new_writer(rt.alloc(), AMPLE, End::Fails, true);
        let mut errors = new_writer(rt.alloc(), AMPLE, End::Fails, true);
        let status = ran(
            &rt,
            line,
            &mut folder,
            &mut byte_reader("", 1),
            &mut out,
            &mut errors,
        )?;
        let want = format!(in rt.alloc(); "{said}{shown}\n")?;
        assert!(rt; errors.written.as_slice() == want.as_bytes(), "{line}");
        assert!(rt; folder.asked.as_slice() == asked.as_bytes(), "{line}");
        assert!(rt; status == 2 && out.written.is_empty(), "{line}");
    }
    Ok(())
}

// Pairs of names, and texts with other names: that each call succeeds if memory is ample, each fault, and what happens
// with devices that fail or never end.
use crate::devices::{Endless, OneByte};
use net_bench::netlist::Netlist;
use net_bench::reader::parse_bench;
use net_rename::fault::PairsFault;
use net_rename::pair_file::read_pairs;
use net_rename::renaming::rename_text;
use std::alloc::Global;
use std::test::Fail;
use text_device::StdDevice;

const FIRST: &str = "INPUT(a)\nINPUT(b)\nOUTPUT(y)\nq = DFF(n)\nn = AND(a, b)\ny = OR(n, q)\n";

/// The same with other names of an input, an output and a register.
const SECOND: &str =
    "INPUT(a_in) # a_in is a\nINPUT(b)\nOUTPUT(y_out)\nq_reg = DFF( n )\nn = AND (b, a_in)\ny_out = OR(q_reg, n)\n";

/// A netlist in which a gate that is no output has the first netlist's name of its output.
const INNER: &str = "INPUT(a)\nINPUT(b)\nOUTPUT(y_out)\ny = NOT(b)\ny_out = AND(a, y)\n";

fn netlist(alloc: Global, text: &str) -> Result<Netlist, PairsFault> {
    match parse_bench(alloc, text.as_bytes()) {
        Ok(net) => Ok(net),
        Err(_) => Err(PairsFault::Read),
    }
}

/// The second text with the first netlist's names for what the file pairs.
fn renamed(alloc: Global, file: &str) -> Result<Vec<u8>, PairsFault> {
    let first = netlist(alloc, FIRST)?;
    let second = netlist(alloc, SECOND)?;
    let pairs = read_pairs(alloc, &mut StdDevice::new(file.as_bytes()))?;
    rename_text(alloc, &first, &second, SECOND.as_bytes(), pairs.as_slice())
}

#[test]
fn pairs_of_a_file(rt: HostRuntime) -> Result<(), Fail> {
    let file = "# first and second\na a_in\r\n\n\tq  q_reg # a register";
    let pairs = read_pairs(rt.alloc(), &mut StdDevice::new(file.as_bytes()))?;
    assert!(rt; pairs.len() == 2);
    assert!(rt;
        pairs[0].first.as_slice() == b"a".as_slice()
            && pairs[0].second.as_slice() == b"a_in".as_slice()
    );
    assert!(rt;
        pairs[1].first.as_slice() == b"q".as_slice()
            && pairs[1].second.as_slice() == b"q_reg".as_slice()
    );
    assert!(rt; pairs[0].line == 2 && pairs[1].line == 4);
    Ok(())
}

#[test]
fn renamed_texts(rt: HostRuntime) -> Result<(), Fail> {
    let rows = [
        ("", SECOND),
        (
            "a a_in\ny y_out\nq q_reg\n",
            "INPUT(a) # a_in is a\nINPUT(b)\nOUTPUT(y)\nq = DFF( n )\nn = AND (b, a)\ny = OR(q, n)\n",
        ),
        (
            "a b\nb a_in\n",
            "INPUT(b) # a_in is a\nINPUT(a)\nOUTPUT(y_out)\nq_reg = DFF( n )\nn = AND (a, b)\ny_out = OR(q_reg, n)\n",
        ),
    ];
    for (file, text) in rows {
        let found = renamed(rt.alloc(), file)?;
        assert!(rt; found.as_slice() == text.as_bytes());
    }
    Ok(())
}

/// The text in which an inner gate has the name of the output, with the first netlist's name of the output.
fn exchanged(alloc: Global) -> Result<Vec<u8>, PairsFault> {
    let first = netlist(alloc, FIRST)?;
    let second = netlist(alloc, INNER)?;
    let pairs = read_pairs(alloc, &mut StdDevice::new(b"y y_out".as_slice()))?;
    rename_text(alloc, &first, &second, INNER.as_bytes(), pairs.as_slice())
}

#[test]
fn exchanged_names(rt: HostRuntime) -> Result<(), Fail> {
    let found = exchanged(rt.alloc())?;
    let text = "INPUT(a)\nINPUT(b)\nOUTPUT(y)\ny_out = NOT(b)\ny = AND(a, y_out)\n";
    assert!(rt; found.as_slice() == text.as_bytes());
    Ok(())
}

#[test]
fn refused_pairs(rt: HostRuntime) {
    let rows = [
        ("a", PairsFault::BadLine { line: 1 }),
        ("a\na_in", PairsFault::BadLine { line: 1 }),
        ("a a_in\ny y_out q", PairsFault::BadLine { line: 2 }),
        ("a (b)", PairsFault::BadLine { line: 1 }),
        ("a a_in\nn y_out", PairsFault::UnknownFirst { line: 2 }),
        ("y n", PairsFault::UnknownSecond { line: 1 }),
        ("a a_in\n\na b", PairsFault::Repeated { line: 3 }),
        ("a a_in\nb a_in", PairsFault::Repeated { line: 2 }),
        ("b a_in", PairsFault::Taken { line: 1 }),
    ];
    for (file, fault) in rows {
        let found = renamed(rt.alloc(), file);
        assert!(rt; found.err() == Some(fault));
    }
}

/// The fault of a file of pairs from a device that gives one byte a read, and fails when so many bytes are left.
fn fault_when_failing_at(alloc: Global, file: &str, fails_at: usize) -> Option<PairsFault> {
    let mut device = OneByte {
        left: file.as_bytes(),
        fails_at,
        failed: false,
    };
    read_pairs(alloc, &mut device).err()
}

#[test]
fn pair_devices(rt: HostRuntime) -> Result<(), Fail> {
    let file = "a a_in\ny y_out";
    assert!(rt; fault_when_failing_at(rt.alloc(), file, 1000).is_none());
    for fails_at in 0..file.len() + 1 {
        let fault = fault_when_failing_at(rt.alloc(), file, fails_at);
        assert!(rt;
            fault == Some(PairsFault::Read),
            "with {fails_at} bytes left"
        );
    }
    let mut device = Endless { given: 0, asked: 0 };
    let read = read_pairs(rt.alloc(), &mut device);
    assert!(rt; read.err() == Some(PairsFault::TooLong));
    assert!(rt; device.asked == 67_108_865);
    Ok(())
}

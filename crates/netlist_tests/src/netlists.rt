// What no contract says of the reader: that each call succeeds if memory is ample, and what happens with devices that
// give one byte a read, fail, or never end.
use crate::devices::{AlwaysFailing, Endless, OneByte};
use net_bench::fault::BenchFault;
use net_bench::name_table::NameTable;
use net_bench::netlist::{Netlist, Signal};
use net_bench::reader::{parse_bench, read_bench};
use std::alloc::{AllocError, Global};
use std::test::Fail;
use text_device::{Failed, InMemory, Sink, StdDevice, TextFault, read_text};

/// The smallest circuit of ISCAS-85: six NAND gates.
pub(crate) static C17: &str =
    "INPUT(1)\nINPUT(2)\nINPUT(3)\nINPUT(6)\nINPUT(7)\nOUTPUT(22)\nOUTPUT(23)\n10 = NAND(1, 3)\n11 = NAND(3, 6)\n16 = NAND(2, 11)\n19 = NAND(11, 7)\n22 = NAND(10, 16)\n23 = NAND(16, 19)\n";

/// A gate on a cycle, and an input.
static LOOP: &str = "INPUT(c)\nOUTPUT(a)\na = AND(b, c)\nb = NOT(a)\n";

/// The same with an output that has no definition.
static LOOP_AND_MORE: &str = "INPUT(c)\nOUTPUT(a)\na = AND(b, c)\nb = NOT(a)\nOUTPUT(z)\n";

/// The fault of a text; None if it is a netlist.
fn fault_of(alloc: Global, text: &str) -> Option<BenchFault> {
    parse_bench(alloc, text.as_bytes()).err()
}

#[test]
fn undefined_and_cycle(rt: HostRuntime) -> Result<(), Fail> {
    let undefined = fault_of(rt.alloc(), "OUTPUT(z)");
    assert!(rt; undefined == Some(BenchFault::Undefined { line: 1 }));
    let round = fault_of(rt.alloc(), LOOP);
    assert!(rt; round == Some(BenchFault::Cycle { line: 3 }));
    let both = fault_of(rt.alloc(), LOOP_AND_MORE);
    assert!(rt; both == Some(BenchFault::Undefined { line: 5 }));
    assert!(rt; fault_of(rt.alloc(), C17).is_none());
    Ok(())
}

/// The rank of the signal of this name.
fn rank_of(net: &Netlist, name: &str) -> Option<u32> {
    let signal = net.find(name.as_bytes())?;
    if (signal.number() as usize) < net.count() {
        return Some(net.rank(signal));
    }
    None
}

// Signals are numbered as the text first mentions them: here the outputs before the gates that define them.
#[test]
fn c17_read(rt: HostRuntime) -> Result<(), Fail> {
    let net = parse_bench(rt.alloc(), C17.as_bytes())?;
    assert!(rt; net.count() == 11 && net.gates().len() == 6);
    assert!(rt; net.find(b"23") == Some(Signal::of(6)));
    assert!(rt; net.find(b"10") == Some(Signal::of(7)));
    assert!(rt; rank_of(&net, "7") == Some(0) && rank_of(&net, "23") == Some(3));
    Ok(())
}

/// The fault of a text from a device that gives one byte a read, and fails when so many bytes are left.
fn fault_when_failing_at(alloc: Global, text: &str, fails_at: usize) -> Option<BenchFault> {
    let mut device = OneByte {
        left: text.as_bytes(),
        fails_at,
        failed: false,
    };
    read_bench(alloc, &mut device).err()
}

#[test]
fn devices(rt: HostRuntime) -> Result<(), Fail> {
    let mut whole = StdDevice::new(C17.as_bytes());
    assert!(rt; read_bench(rt.alloc(), &mut whole)?.count() == 11);
    assert!(rt; fault_when_failing_at(rt.alloc(), C17, 1000).is_none());
    for fails_at in 0..C17.len() + 1 {
        let fault = fault_when_failing_at(rt.alloc(), C17, fails_at);
        assert!(rt;
            fault == Some(BenchFault::Read),
            "with {fails_at} bytes left"
        );
    }
    Ok(())
}

#[test]
fn texts_in_memory(rt: HostRuntime) -> Result<(), Fail> {
    let whole = read_text(rt.alloc(), &mut InMemory::new(b"abc"), 3)?;
    assert!(rt; whole.as_slice() == b"abc".as_slice());
    let longer = read_text(rt.alloc(), &mut InMemory::new(b"abc"), 2);
    assert!(rt; longer.err() == Some(TextFault::TooLong));
    Ok(())
}

#[test]
fn failing_devices(rt: HostRuntime) -> Result<(), Fail> {
    let read = read_bench(rt.alloc(), &mut StdDevice::new(AlwaysFailing));
    assert!(rt; read.err() == Some(BenchFault::Read));
    let mut sink = StdDevice::new(AlwaysFailing);
    assert!(rt; sink.write(b"ab") == Err(Failed));
    assert!(rt; StdDevice::new(AlwaysFailing).flush() == Err(Failed));
    Ok(())
}

#[test]
fn endless_device(rt: HostRuntime) -> Result<(), Fail> {
    let mut device = Endless { given: 0, asked: 0 };
    let read = read_bench(rt.alloc(), &mut device);
    assert!(rt; read.err() == Some(BenchFault::TooLong));
    assert!(rt; device.asked == 67_108_865);
    Ok(())
}

#[test]
fn name_tables(rt: HostRuntime) -> Result<(), Fail> {
    let alloc = rt.alloc();
    let mut table = NameTable::new(alloc);
    for (name, number) in [("b", 0), ("a", 1), ("b", 0)] {
        assert!(rt; table.intern(alloc, name.as_bytes())? == number);
    }
    let names = table.to_names(alloc)?;
    assert!(rt; names.len() == 2);
    assert!(rt; names[1].as_slice() == b"a".as_slice());
    Ok(())
}

/// An input, and after it a chain of so many gates, each the complement of the signal before it.
fn chain(alloc: Global, gates: u32) -> Result<String, AllocError> {
    let mut text = String::from_str(alloc, "INPUT(s0)\n")?;
    for before in 0..gates {
        let gate = format!(in alloc; "s{} = NOT(s{})\n", u64::from(before) + 1, before)?;
        text.push_str(&gate)?;
    }
    Ok(text)
}

#[test]
fn deep_chain(rt: HostRuntime) -> Result<(), Fail> {
    let text = chain(rt.alloc(), 999_999)?;
    let net = parse_bench(rt.alloc(), text.as_bytes())?;
    assert!(rt; net.count() == 1_000_000);
    assert!(rt; rank_of(&net, "s999999") == Some(999_999));
    Ok(())
}

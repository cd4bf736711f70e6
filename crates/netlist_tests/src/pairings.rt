// Pairings and order files: that each call succeeds if memory is ample, and what happens with devices that fail or never end.
use crate::devices::{Endless, OneByte};
use crate::netlists::C17;
use net_bench::netlist::{Netlist, Signal};
use net_bench::reader::parse_bench;
use net_names::order::{Match, Order, OrderFault};
use net_names::order_file::{order_text, read_order};
use net_order::pairing::{Pairing, pair};
use net_order::unfit::{Misfit, Unfit, unfit_name};
use std::alloc::Global;
use std::test::Fail;
use text_device::StdDevice;

static C17C: &str =
    "INPUT(1)\nINPUT(2)\nINPUT(3)\nINPUT(6)\nINPUT(7)\nOUTPUT(22)\nOUTPUT(24)\n10 = NAND(1, 3)\n11 = NAND(3, 6)\n16 = NAND(2, 11)\n19 = NAND(11, 7)\n22 = NAND(10, 16)\n24 = NAND(16, 19)\n";

/// C17 without an input that no gate reads.
static C17_SHORT: &str =
    "INPUT(1)\nINPUT(2)\nINPUT(3)\nINPUT(6)\nOUTPUT(22)\nOUTPUT(23)\n10 = NAND(1, 3)\n11 = NAND(3, 6)\n16 = NAND(2, 11)\n19 = NAND(11, 6)\n22 = NAND(10, 16)\n23 = NAND(16, 19)\n";

static PAIRS: &str =
    "INPUT(x1)\nINPUT(x2)\nINPUT(x3)\nINPUT(x4)\nINPUT(x5)\nINPUT(x6)\nOUTPUT(o)\na = AND(x1, x2)\nb = AND(x3, x4)\nc = AND(x5, x6)\no = OR(a, b, c)\n";

fn netlist(alloc: Global, text: &str) -> Result<Netlist, OrderFault> {
    match parse_bench(alloc, text.as_bytes()) {
        Ok(net) => Ok(net),
        Err(_) => Err(OrderFault::Read),
    }
}

/// Two texts paired.
fn pair_texts(
    alloc: Global,
    first: &str,
    second: &str,
    how: Match,
    order: &Order,
) -> Result<Pairing, OrderFault> {
    let first = netlist(alloc, first)?;
    let second = netlist(alloc, second)?;
    pair(alloc, &first, &second, None, how, order)
}

/// The names of the variables of a text against itself, in the order of the file, each on a line.
fn listed(alloc: Global, file: &str) -> Result<Vec<u8>, OrderFault> {
    let names = read_order(alloc, &mut StdDevice::new(file.as_bytes()))?;
    let pairing = pair_texts(alloc, PAIRS, PAIRS, Match::Name, &Order::Listed(names))?;
    Ok(order_text(alloc, pairing.names())?)
}

#[test]
fn listed_orders(rt: HostRuntime) -> Result<(), Fail> {
    let apart = listed(rt.alloc(), "x1 x3 x5\tx2 # the second\r\nx4 x6")?;
    assert!(rt; apart.as_slice() == b"x1\nx3\nx5\nx2\nx4\nx6\n".as_slice());
    let twice = listed(rt.alloc(), "x1 x2 x1 x3 x4 x5 x6");
    assert!(rt; twice.err() == Some(OrderFault::NotAPermutation { place: 3 }));
    Ok(())
}

/// The names of the variables of a text against itself, in the extended order of the file, each on a line.
fn extended(alloc: Global, file: &str) -> Result<Vec<u8>, OrderFault> {
    let names = read_order(alloc, &mut StdDevice::new(file.as_bytes()))?;
    let pairing = pair_texts(alloc, PAIRS, PAIRS, Match::Name, &Order::Extended(names))?;
    Ok(order_text(alloc, pairing.names())?)
}

#[test]
fn extended_orders(rt: HostRuntime) -> Result<(), Fail> {
    let rows = [
        ("", "x1\nx2\nx3\nx4\nx5\nx6\n"),
        ("o x5 x7 x2 x5 a", "x5\nx2\nx1\nx3\nx4\nx6\n"),
        ("x6 x5 x4 x3 x2 x1 x0", "x6\nx5\nx4\nx3\nx2\nx1\n"),
    ];
    for (file, names) in rows {
        let found = extended(rt.alloc(), file)?;
        assert!(rt; found.as_slice() == names.as_bytes());
    }
    Ok(())
}

/// The first name for which the file is no order of the variables of a text against itself.
fn unfit(alloc: Global, file: &str) -> Result<Option<Unfit>, OrderFault> {
    let names = read_order(alloc, &mut StdDevice::new(file.as_bytes()))?;
    let net = netlist(alloc, PAIRS)?;
    unfit_name(alloc, &net, &net, None, Match::Name, &names)
}

#[test]
fn unfit_names(rt: HostRuntime) -> Result<(), Fail> {
    let rows = [
        ("x6 x5 o x5 x9", Misfit::Foreign, "o"),
        ("x6 x5 x6 x9", Misfit::Repeated, "x6"),
        ("x6 x2 x1 x5", Misfit::Missing, "x3"),
        ("", Misfit::Missing, "x1"),
    ];
    for (file, why, name) in rows {
        let found = unfit(rt.alloc(), file)?;
        let is_expected = match &found {
            Some(unfit) => unfit.why() == why && unfit.name() == name.as_bytes(),
            None => false,
        };
        assert!(rt; is_expected);
    }
    let fits = unfit(rt.alloc(), "x6 x5 x4 x3 x2 x1")?;
    assert!(rt; fits.is_none());
    Ok(())
}

/// Whether this is the only signal of the list.
fn is_only(signals: &[Signal], number: u32) -> bool {
    signals.len() == 1 && signals[0].number() == number
}

#[test]
fn outputs(rt: HostRuntime) -> Result<(), Fail> {
    let pairing = pair_texts(rt.alloc(), C17, C17C, Match::Name, &Order::Declared)?;
    let naming = pairing.naming();
    assert!(rt; naming.output_pairs().len() == 1);
    assert!(rt; is_only(naming.only_first(), 6) && is_only(naming.only_second(), 6));
    Ok(())
}

#[test]
fn counts_differ(rt: HostRuntime) {
    let short = pair_texts(rt.alloc(), C17, C17_SHORT, Match::Position, &Order::Depth);
    assert!(rt; short.err() == Some(OrderFault::CountsDiffer));
}

/// The fault of an order file from a device that gives one byte a read, and fails when so many bytes are left.
fn fault_when_failing_at(alloc: Global, file: &str, fails_at: usize) -> Option<OrderFault> {
    let mut device = OneByte {
        left: file.as_bytes(),
        fails_at,
        failed: false,
    };
    read_order(alloc, &mut device).err()
}

#[test]
fn order_devices(rt: HostRuntime) -> Result<(), Fail> {
    let file = "x1 x3\nx5";
    assert!(rt; fault_when_failing_at(rt.alloc(), file, 1000).is_none());
    for fails_at in 0..file.len() + 1 {
        let fault = fault_when_failing_at(rt.alloc(), file, fails_at);
        assert!(rt;
            fault == Some(OrderFault::Read),
            "with {fails_at} bytes left"
        );
    }
    let mut device = Endless { given: 0, asked: 0 };
    let read = read_order(rt.alloc(), &mut device);
    assert!(rt; read.err() == Some(OrderFault::TooLong));
    assert!(rt; device.asked == 67_108_865);
    Ok(())
}

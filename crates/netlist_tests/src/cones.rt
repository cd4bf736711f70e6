// What no contract says of cones: that they are made if memory is ample. And which signals the cones of a few netlists
// have.
use crate::netlists::C17;
use net_bench::netlist::{Netlist, Signal};
use net_bench::reader::parse_bench;
use net_cone::{Cone, cone_of, gate_signals, gates_below, is_same_net, own_names};
use std::alloc::{AllocError, Global};
use std::test::Fail;

/// A register whose next state depends on an input and on itself, and an output that depends on the register.
static REGISTER: &str = "INPUT(a)\nOUTPUT(y)\nq = DFF(d)\nd = AND(a, q)\ny = NOT(q)\n";

/// An output that is an input, and one that is 0 whatever the input is.
static PLAIN: &str = "INPUT(a)\nINPUT(b)\nOUTPUT(a)\nOUTPUT(k)\nk = AND(a, n)\nn = NOT(a)\n";

/// Two gates of the same kind over the same inputs, one of another kind, and one over them in another order.
static COPIES: &str =
    "INPUT(a)\nINPUT(b)\nOUTPUT(x)\nx = AND(a, b)\ny = AND(a, b)\nz = OR(a, b)\nw = AND(b, a)\n";

/// The cone of the signal of this name. Its variables have their own names.
fn cone_by_name(alloc: Global, net: &Netlist, name: &str) -> Result<Cone, AllocError> {
    let names = own_names(alloc, net)?;
    let gates = gate_signals(alloc, net)?;
    match net.find(name.as_bytes()) {
        Some(root) if (root.number() as usize) < net.count() => {
            cone_of(alloc, net, root, names.as_slice(), gates.as_slice())
        }
        _ => Err(AllocError),
    }
}

/// How many gates are below the signals of these two names.
fn counts_by_name(
    alloc: Global,
    net: &Netlist,
    first: &str,
    second: &str,
) -> Result<Vec<u64>, AllocError> {
    match (net.find(first.as_bytes()), net.find(second.as_bytes())) {
        (Some(one), Some(other))
            if (one.number() as usize) < net.count() && (other.number() as usize) < net.count() => {
            gates_below(alloc, net, [one, other].as_slice())
        }
        _ => Err(AllocError),
    }
}

/// The names of the netlist's signals in their order, each with a blank after it.
fn names_of(alloc: Global, net: &Netlist) -> Result<Vec<u8>, AllocError> {
    let mut names = Vec::new(alloc);
    for number in 0..net.count() {
        let Ok(signal) = u32::try_from(number) else {
            return Err(AllocError);
        };
        names.extend_from_slice(net.name(Signal::of(signal)))?;
        names.push(b' ')?;
    }
    Ok(names)
}

#[test]
fn cones_of_outputs(rt: HostRuntime) -> Result<(), Fail> {
    let net = parse_bench(rt.alloc(), C17.as_bytes())?;
    let first = cone_by_name(rt.alloc(), &net, "22")?;
    let names = names_of(rt.alloc(), &first.net)?;
    assert!(rt; names.as_slice() == b"v1 v2 v3 v6 g4 g5 g6 g7 o ".as_slice());
    assert!(rt; first.net.inputs().len() == 4 && first.net.gates().len() == 5);
    assert!(rt; first.sources().len() == 8);
    let second = cone_by_name(rt.alloc(), &net, "23")?;
    let names = names_of(rt.alloc(), &second.net)?;
    assert!(rt; names.as_slice() == b"v2 v3 v6 v7 g4 g5 g6 g7 o ".as_slice());
    Ok(())
}

#[test]
fn cones_end_at_registers(rt: HostRuntime) -> Result<(), Fail> {
    let net = parse_bench(rt.alloc(), REGISTER.as_bytes())?;
    let output = cone_by_name(rt.alloc(), &net, "y")?;
    let names = names_of(rt.alloc(), &output.net)?;
    assert!(rt; names.as_slice() == b"vq g1 o ".as_slice());
    assert!(rt; output.net.registers().len() == 0 && output.net.variables().len() == 1);
    let next = cone_by_name(rt.alloc(), &net, "d")?;
    let names = names_of(rt.alloc(), &next.net)?;
    assert!(rt; names.as_slice() == b"va vq g2 o ".as_slice());
    Ok(())
}

#[test]
fn cones_without_depth(rt: HostRuntime) -> Result<(), Fail> {
    let net = parse_bench(rt.alloc(), PLAIN.as_bytes())?;
    let input = cone_by_name(rt.alloc(), &net, "a")?;
    let names = names_of(rt.alloc(), &input.net)?;
    assert!(rt; names.as_slice() == b"va o ".as_slice());
    let constant = cone_by_name(rt.alloc(), &net, "k")?;
    let names = names_of(rt.alloc(), &constant.net)?;
    assert!(rt; names.as_slice() == b"va g1 g2 o ".as_slice());
    Ok(())
}

// Gates 11 and 16 are below both outputs: no walk omits what one before it has visited.
#[test]
fn counts_of_gates(rt: HostRuntime) -> Result<(), Fail> {
    let net = parse_bench(rt.alloc(), C17.as_bytes())?;
    let outputs = counts_by_name(rt.alloc(), &net, "22", "23")?;
    assert!(rt; outputs.as_slice() == [4, 4].as_slice());
    let others = counts_by_name(rt.alloc(), &net, "3", "16")?;
    assert!(rt; others.as_slice() == [0, 2].as_slice());
    let around = parse_bench(rt.alloc(), REGISTER.as_bytes())?;
    let ends = counts_by_name(rt.alloc(), &around, "y", "q")?;
    assert!(rt; ends.as_slice() == [1, 0].as_slice());
    Ok(())
}

// The same gates over the same variables are the same cone, whatever they are called.
#[test]
fn cones_of_copies(rt: HostRuntime) -> Result<(), Fail> {
    let net = parse_bench(rt.alloc(), COPIES.as_bytes())?;
    let one = cone_by_name(rt.alloc(), &net, "x")?;
    let copy = cone_by_name(rt.alloc(), &net, "y")?;
    assert!(rt; is_same_net(&one.net, &copy.net));
    for name in ["z", "w", "a"] {
        let other = cone_by_name(rt.alloc(), &net, name)?;
        assert!(rt; !is_same_net(&one.net, &other.net));
    }
    Ok(())
}

//! Buses: variables with one name and the numbers from 0 on after it, each in brackets, as `a[0]` and `a[1]`.
ghost use Rattle.std.specs.Prelude.{◌≡◌, ◌+◌, ◌<◌, ◌≤◌, ◌++◌, ◌^◌, count_by, length, option_map, IfOk, OnOk, string_bytes};
ghost use Rattle.net_bench.specs.Circuit.{find};
ghost use Rattle.report_text.specs.Buses.{begins, bit_name, bit_of, bus_at, bus_name, bus_of, buses_of, hex_digit, hex_text, nibble};
ghost use Rattle.report_text.specs.Buses.{places_from};

use net_names::names::Names;
use std::alloc::{AllocError, Global};
use std::marker::Model;

/// A bus: its name, and the levels of its bits, bit 0 first.
#[derive(Drop)]
pub(crate) struct Bus {
    name: Vec<u8>,
    places: Vec<usize>,
}

impl Model for Bus {
    ghost use Rattle.report_text.specs.Buses.{Bus};

    ghost Value = { Bus };

    ghost view = { λ b. record { name = b.name.items; places = b.places.items } };
}

impl Bus {
    /// The name without its brackets.
    pub(crate) fn name(&self) -> &[u8]
        ensures { result.now ≡ self.now.name }
    {
        self.name.as_slice()
    }
}

/// The name of a bit of a bus, as `a[3]`.
fn bit_name(alloc: Global, base: &[u8], bit: usize) -> Result<Vec<u8>, AllocError>
    ensures { IfOk result (λ name. name.items ≡ bit_name base.now bit) }
{
    let mut name = base.to_vec(alloc)?;
    let index = format!(in alloc; "[{bit}]")?;
    name.extend_from_slice(index.as_bytes())?;
    Ok(name)
}

/// The place of a name among the variables; None if it is none of them.
fn place_of(names: &Names, name: &[u8]) -> Option<usize>
    ensures { result ≡ find names.now name.now }
{
    for place in 0..names.len() {
        if names.at(place) == name {
            return Some(place);
        }
    }
    None
}

/// The levels of the bits of a bus, from bit 0 on, up to the first that is no variable.
fn places_of(alloc: Global, names: &Names, base: &[u8]) -> Result<Vec<usize>, AllocError>
    ensures { IfOk result (λ places. places.items ≡ places_from names.now base.now (length names.now) 0) }
{
    let mut places = Vec::new(alloc);
    for bit in 0..names.len() {
        let name = bit_name(alloc, base, bit)?;
        let Some(place) = place_of(names, name.as_slice()) else {
            return Ok(places);
        };
        places.push(place)?;
    }
    Ok(places)
}

/// Whether a name begins with the name of a bus and a bracket.
fn begins(base: &[u8], name: &[u8]) -> bool
    ensures { result ≡ begins base.now name.now }
{
    name.starts_with(base) && base.len() < name.len() && name[base.len()] == b'['
}

/// How many variables' names do.
fn begun(names: &Names, base: &[u8]) -> usize
    ensures { result ≡ count_by (begins base.now) names.now }
{
    let mut count = 0;
    for place in 0..names.len() {
        if begins(base, names.at(place)) {
            count += 1;
        }
    }
    count
}

/// The bus of a name, if all variables whose names begin with it and a bracket are its bits; otherwise None.
fn bus_of(alloc: Global, names: &Names, base: &[u8]) -> Result<Option<Bus>, AllocError>
    ensures { IfOk result (λ bus. bus ≡ bus_of names.now base.now) }
{
    let places = places_of(alloc, names, base)?;
    if places.len() != begun(names, base) {
        return Ok(None);
    }
    let name = base.to_vec(alloc)?;
    Ok(Some(Bus { name, places }))
}

/// The name of the bus whose bit 0 has this name; None if this is no name of a bit 0.
fn bus_name(name: &[u8]) -> Option<&[u8]>
    ensures { option_map (λ s. s.now) result ≡ bus_name name.now }
{
    name.strip_suffix(b"[0]".as_slice())
}

/// Appends the bus whose bit 0 has this name, if there is one.
fn add_bus(
    alloc: Global,
    buses: &mut Vec<Bus>,
    names: &Names,
    name: &[u8],
) -> Result<(), AllocError>
    ensures { OnOk result (buses.new.items ≡ buses.old.items ++ bus_at names.now name.now) }
{
    let Some(base) = bus_name(name) else {
        return Ok(());
    };
    if let Some(bus) = bus_of(alloc, names, base)? {
        buses.push(bus)?;
    }
    Ok(())
}

/// The buses of the variables, in the order of their bits 0. Time is quadratic in the number of variables.
pub(crate) fn buses_of(alloc: Global, names: &Names) -> Result<Vec<Bus>, AllocError>
    ensures { IfOk result (λ buses. buses.items ≡ buses_of names.now) }
{
    let mut buses = Vec::new(alloc);
    for place in 0..names.len() {
        add_bus(alloc, &mut buses, names, names.at(place))?;
    }
    Ok(buses)
}

/// A bit of a bus at an assignment, as a number; 0 beyond the last bit.
fn bit_of(bus: &Bus, at: &[bool], bit: usize) -> u8
    ensures value { result ≡ bit_of bus.now at.now bit }
    ensures small { result ≤ 1 }
{
    let Some(place) = bus.places.get(bit) else {
        return 0;
    };
    match at.get(*place) {
        Some(true) => 1,
        _ => 0,
    }
}

/// The number of four bits of a bus at an assignment, the bits 4 * digit to 4 * digit + 3.
fn nibble(bus: &Bus, at: &[bool], digit: usize) -> u8
    requires { digit < 2 ^ 62 }
    ensures value { result ≡ nibble bus.now at.now digit }
    ensures small { result < 16 }
{
    let low = 4 * digit;
    bit_of(bus, at, low)
        + 2 * bit_of(bus, at, low + 1)
        + 4 * bit_of(bus, at, low + 2)
        + 8 * bit_of(bus, at, low + 3)
}

/// The hexadecimal digit of a number below sixteen.
fn hex_digit(number: u8) -> u8
    requires { number < 16 }
    ensures digit { result ≡ hex_digit number }
    ensures ascii { result < 128 }
{
    if number < 10 {
        b'0' + number
    } else {
        b'a' - 10 + number
    }
}

/// The number of a bus at an assignment, as `0x` and a hexadecimal digit for each four bits.
pub(crate) fn hex_of(alloc: Global, bus: &Bus, at: &[bool]) -> Result<String, AllocError>
    ensures { IfOk result (λ text. string_bytes text ≡ hex_text bus.now at.now) }
{
    let mut text = String::from_str(alloc, "0x")?;
    let digits = bus.places.len().div_ceil(4);
    for done in 0..digits {
        let digit = hex_digit(nibble(bus, at, digits - 1 - done));
        text.push(char::from(digit))?;
    }
    Ok(text)
}

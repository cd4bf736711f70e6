//! Names by number. The bytes of all names are in one list, one name after the other; a name is found by open addressing.
ghost use Rattle.std.specs.Prelude.{◌≡◌, ℕ, ◌+◌, ◌*◌, ◌<◌, ◌≤◌, ◌==◌, ◌^◌, List, [], ◌∷◌, ◌++◌, All, bytes_eq, map, length};
ghost use Rattle.std.specs.Prelude.{slice_get, slice_index_or, IfOk, OnOk, OnErr, Some, None};
ghost use Rattle.net_bench.specs.Circuit.{with_name, find, is_name_in};
ghost use Rattle.slot_table.specs.Probes.{Probes, home_of};
ghost use Rattle.net_bench.specs.NameTable.{IsInside, IsProbe, IsTable, hash_of, name_in, names_in, folded_hash_of};

use slot_table::{free_slot, next_slot};
use std::alloc::{AllocError, Global};
use std::marker::Model;

/// Where a name is among the bytes of all names.
#[derive(Clone, Copy)]
pub struct Span {
    start: u32,
    len: u32,
}

/// Where a search of the slots ends.
pub enum Probe {
    /// The number of the name.
    Number(u32),
    /// The first empty slot, if the name has no number.
    Slot(usize),
}

/// Names, each once, numbered from 0 in the order in which they came.
#[derive(Drop)]
pub struct NameTable {
    bytes: Vec<u8>,
    spans: Vec<Span>,
    /// For each slot 0 if it is empty, else 1 more than a name's number. There are 0 slots or a power of two, at most half taken.
    slots: Vec<u32>,
}

impl Model for NameTable {
    ghost use Rattle.std.specs.Prelude.{List, ℕ};
    ghost use Rattle.net_bench.specs.NameTable.{IsTable, names_in};

    ghost Value = { List (List ℕ) };

    ghost view = { λ a. names_in a.bytes.items a.spans.items };

    ghost invariant = { λ a. IsTable a.bytes.items a.spans.items a.slots.items };
}

/// The number as a `u32`. The error for one that does not fit is that of refused memory, the only one that callers have.
pub fn narrow(number: usize) -> Result<u32, AllocError>
    ensures { IfOk result (λ n. n ≡ number) }
{
    match u32::try_from(number) {
        Ok(narrow) => Ok(narrow),
        Err(_) => Err(AllocError),
    }
}

/// The 64-bit hash FNV-1a (Fowler, Noll and Vo) of the name. It has no seed, so each run takes the same time. Names that
/// are made to collide cost time, but change no answer.
fn hash(name: &[u8]) -> u64
    ensures { result ≡ hash_of name.now }
{
    let mut hash = 14695981039346656037u64;
    for byte in name {
        hash = (hash ^ *byte as u64).wrapping_mul(1099511628211);
    }
    hash
}

/// The hash with its upper half folded into the lower, from which slots are chosen.
fn folded_hash(name: &[u8]) -> u64
    ensures { result ≡ folded_hash_of name.now }
{
    let hash = hash(name);
    hash ^ (hash >> 32)
}

/// The slot, of `count`, at which the search for a name begins.
fn home(name: &[u8], count: usize) -> usize
    requires { 0 < count }
    ensures value { result ≡ home_of folded_hash_of count name.now }
    ensures within { result < count }
{
    folded_hash(name) as usize & (count - 1)
}

/// The bytes of the name in a span.
fn name_in<'a>(bytes: &'a [u8], span: Span) -> &'a [u8]
    requires { IsInside bytes.now span }
    ensures { result.now ≡ name_in bytes.now span }
{
    let start = span.start as usize;
    let (_, rest) = bytes.split_at(start);
    let (name, _) = rest.split_at(span.len as usize);
    name
}

/// `count` new slots that find each of the names.
fn slots_of(
    alloc: Global,
    bytes: &[u8],
    spans: &[Span],
    count: usize,
) -> Result<Vec<u32>, AllocError>
    requires in_bounds { All (IsInside bytes.now) spans.now }
    requires count { length spans.now < count }
    requires numbers { length spans.now < 2 ^ 32 }
    ensures { IfOk result (λ ts. Probes folded_hash_of count (names_in bytes.now spans.now) ts.items) }
{
    let mut slots = Vec::with_capacity(alloc, count)?;
    slots.resize(count, 0u32)?;
    for number in 0..spans.len() {
        let home = home(name_in(bytes, spans[number]), count);
        let slot = free_slot(slots.as_slice(), home);
        slots[slot] = number as u32 + 1;
    }
    Ok(slots)
}

/// Makes room in the slots for one more name. If half of them are taken, twice as many are made, with all names put
/// into them anew. After an error the slots are as before.
fn grow_slots(bytes: &[u8], spans: &[Span], slots: &mut Vec<u32>) -> Result<(), AllocError>
    requires in_bounds { All (IsInside bytes.now) spans.now }
    requires probes { Probes folded_hash_of (length slots.old.items) (names_in bytes.now spans.now) slots.old.items }
    requires half { 2 * length spans.now ≤ length slots.old.items }
    requires numbers { length spans.now < 2 ^ 32 }
    ensures probes { Probes folded_hash_of (length slots.new.items) (names_in bytes.now spans.now) slots.new.items }
    ensures half { 2 * length spans.now ≤ length slots.new.items }
    ensures room { OnOk result (2 * (length spans.now + 1) ≤ length slots.new.items) }
{
    let count = slots.len();
    if spans.len() < count / 2 {
        return Ok(());
    }
    let more = if count == 0 { 16 } else { 2 * count };
    let grown = slots_of(*slots.allocator(), bytes, spans, more)?;
    *slots = grown;
    Ok(())
}

/// The span of a name that is appended to these bytes.
fn next_span(bytes: &[u8], name: &[u8]) -> Result<Span, AllocError>
    ensures start { IfOk result (λ span. span.start ≡ length bytes.now) }
    ensures len { IfOk result (λ span. span.len ≡ length name.now) }
{
    let start = narrow(bytes.len())?;
    let len = narrow(name.len())?;
    Ok(Span { start, len })
}

/// Appends a name and its span. After an error both lists are as before.
fn put(
    bytes: &mut Vec<u8>,
    spans: &mut Vec<Span>,
    name: &[u8],
    span: Span,
) -> Result<(), AllocError>
    ensures bytes { OnOk result (bytes.new.items ≡ bytes.old.items ++ name.now) }
    ensures spans { OnOk result (spans.new.items ≡ spans.old.items ++ span ∷ []) }
    ensures bytes_stay { OnErr result (bytes.new.items ≡ bytes.old.items) }
    ensures spans_stay { OnErr result (spans.new.items ≡ spans.old.items) }
{
    spans.reserve(1)?;
    bytes.extend_from_slice(name)?;
    spans.push_reserved(span);
    Ok(())
}

/// Whether two names are the same.
fn is_same(left: &[u8], right: &[u8]) -> bool
    ensures { result ≡ bytes_eq left.now right.now }
{
    left == right
}

/// Where the search for a name ends: from its home, slot by slot, at the name or at the first empty slot.
fn seek(bytes: &[u8], spans: &[Span], slots: &[u32], name: &[u8]) -> Probe
    requires in_bounds { All (IsInside bytes.now) spans.now }
    requires probes { Probes folded_hash_of (length slots.now) (names_in bytes.now spans.now) slots.now }
    requires room { length spans.now < length slots.now }
    ensures { IsProbe (names_in bytes.now spans.now) slots.now name.now result }
{
    let mut slot = home(name, slots.len());
    for _distance in 0..slots.len() {
        let slot_value = slots[slot];
        if slot_value == 0 {
            return Probe::Slot(slot);
        }
        let other = name_in(bytes, spans[slot_value as usize - 1]);
        if is_same(other, name) {
            return Probe::Number(slot_value - 1);
        }
        slot = next_slot(slot, slots.len());
    }
    unreachable!()
}

impl NameTable {
    /// A table without names.
    pub fn new(alloc: Global) -> Self
        ensures { result ≡ [] }
    {
        NameTable {
            bytes: Vec::new(alloc),
            spans: Vec::new(alloc),
            slots: Vec::new(alloc),
        }
    }

    /// The number of the name; None if it is not in the table.
    pub fn find(&self, name: &[u8]) -> Option<u32>
        ensures { result ≡ find self.now name.now }
    {
        if self.slots.len() == 0 {
            return None;
        }
        match seek(
            self.bytes.as_slice(),
            self.spans.as_slice(),
            self.slots.as_slice(),
            name,
        ) {
            Probe::Number(number) => Some(number),
            Probe::Slot(_) => None,
        }
    }

    /// The number of the name, which is appended if it is not in the table yet. A table has fewer than 4,294,967,296
    /// names, and bytes of names.
    pub fn intern(&mut self, alloc: Global, name: &[u8]) -> Result<u32, AllocError>
        ensures added { OnOk result (self.new ≡ with_name self.old name.now) }
        ensures number { IfOk result (λ n. find self.new name.now ≡ Some n) }
        ensures err { OnErr result (self.new ≡ self.old) }
    {
        let _ = alloc; // Not used: each of the table's lists has its allocator.
        let slot_value = narrow(self.spans.len() + 1)?;
        let span = next_span(self.bytes.as_slice(), name)?;
        grow_slots(
            self.bytes.as_slice(),
            self.spans.as_slice(),
            &mut self.slots,
        )?;
        match seek(
            self.bytes.as_slice(),
            self.spans.as_slice(),
            self.slots.as_slice(),
            name,
        ) {
            Probe::Number(number) => Ok(number),
            Probe::Slot(slot) => {
                put(&mut self.bytes, &mut self.spans, name, span)?;
                self.slots[slot] = slot_value;
                Ok(slot_value - 1)
            }
        }
    }

    /// How many names there are.
    pub fn len(&self) -> usize
        ensures { result ≡ length self.now }
    {
        self.spans.len()
    }

    /// The name at this place.
    pub fn name_at(&self, place: usize) -> &[u8]
        requires { place < length self.now }
        ensures { result.now ≡ slice_index_or self.now place result.now }
    {
        name_in(self.bytes.as_slice(), self.spans[place])
    }

    /// Whether the name is in the table.
    #[tactic(auto, using(crate::proofs::Tables::found_there, crate::proofs::Tables::found_none))]
    pub fn has(&self, name: &[u8]) -> bool
        ensures { result ≡ is_name_in self.now name.now }
    {
        match self.find(name) {
            Some(_) => true,
            None => false,
        }
    }

    /// The name of this number.
    pub fn name(&self, number: u32) -> &[u8]
        requires { number < length self.now }
        ensures { slice_get self.now number ≡ Some result.now }
    {
        name_in(self.bytes.as_slice(), self.spans[number as usize])
    }

    /// A copy of the names, in their order.
    pub fn to_names(&self, alloc: Global) -> Result<Vec<Vec<u8>>, AllocError>
        ensures { IfOk result (λ v. map (λ w. w.items) v.items ≡ self.now) }
    {
        let mut names = Vec::new(alloc);
        for place in 0..self.len() {
            names.push(Vec::from_slice(alloc, self.name_at(place))?)?;
        }
        Ok(names)
    }
}

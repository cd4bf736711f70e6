//! The requests of a level, each once, by place: in eight bytes each as long as all fit, and in
//! sixteen from the first that does not.
ghost use Rattle.std.specs.Prelude.{◌≡◌, ◌<◌, ◌+◌, ◌^◌, [], length, slice_get, Some, Contains, MatchOption, IfOk, OnErr};
ghost use Rattle.slot_table.specs.Lists.{IsOnce};
ghost use Rattle.req_table.specs.Forms.{keys_in, AreFitting, AreShort, IsAdmitted, DoesNotFit};
ghost use Rattle.req_table.specs.Tables.{AdmitsKey};

use crate::Key;
use crate::short_key::ShortKey;
use indexmap::IndexSet;
use std::alloc::{AllocError, Global};
use std::marker::Model;

/// A table with room for more than so many times the requests that it is to hold has excess capacity. Emptying such a
/// table takes long, since all of its room is written.
const MAX_CAPACITY_RATIO: usize = 8;

/// Adds a request that fits in eight bytes, if it is new, and returns its place and whether it is new.
#[inline(always)]
fn admit_short(short: &mut IndexSet<ShortKey>, key: ShortKey) -> Result<(u32, bool), AllocError>
    requires { length short.old.keys + 1 < 2 ^ 32 }
    ensures { IsAdmitted key short.old.keys result short.new.keys }
{
    let (place, new) = short.insert_full(key)?;
    Ok((place as u32, new))
}

/// The same for requests of sixteen bytes. It is not inlined, because in most runs all requests fit in eight.
#[inline(never)]
fn admit_long(long: &mut IndexSet<Key>, key: Key) -> Result<(u32, bool), AllocError>
    requires { length long.old.keys + 1 < 2 ^ 32 }
    ensures { IsAdmitted key long.old.keys result long.new.keys }
{
    let (place, new) = long.insert_full(key)?;
    Ok((place as u32, new))
}

/// Returns the same requests, in sixteen bytes each, with room for one more.
fn widened(short: &IndexSet<ShortKey>) -> Result<IndexSet<Key>, AllocError>
    ensures { IfOk result (λ long. long.keys ≡ short.now.keys) }
{
    let mut long = IndexSet::with_capacity(*short.allocator(), short.len() + 1)?;
    for key in short.as_slice() {
        long.insert_full(key.key())?;
    }
    Ok(long)
}

/// Distinct requests, by place.
#[derive(Drop)]
enum Keys {
    /// All requests fit in eight bytes.
    Short(IndexSet<ShortKey>),
    /// At least one request does not fit.
    Long(IndexSet<Key>),
}

impl Keys {
    /// Adds a request if it is new. Returns none, and changes nothing, if it does not fit.
    #[inline(always)]
    fn admit(&mut self, key: Key) -> Option<Result<(u32, bool), AllocError>>
        requires fitting { AreFitting self.old }
        requires room { length (keys_in self.old) + 1 < 2 ^ 32 }
        ensures fitting { AreFitting self.new }
        ensures admitted { MatchOption result (DoesNotFit key self.old self.new)
            (λ r. IsAdmitted key (keys_in self.old) r (keys_in self.new)) }
    {
        match self {
            Keys::Short(short) => match ShortKey::of(key) {
                Some(key) => Some(admit_short(short, key)),
                None => None,
            },
            Keys::Long(long) => Some(admit_long(long, key)),
        }
    }

    /// Adds a request that does not fit. From then on each has sixteen bytes.
    #[inline(never)]
    fn widen_and_admit(&mut self, key: Key) -> Result<(u32, bool), AllocError>
        requires fitting { AreFitting self.old }
        requires short { AreShort self.old }
        requires absent { ¬ Contains (keys_in self.old) key }
        requires room { length (keys_in self.old) + 1 < 2 ^ 32 }
        ensures fitting { AreFitting self.new }
        ensures admitted { IsAdmitted key (keys_in self.old) result (keys_in self.new) }
    {
        let mut long = match self {
            Keys::Short(short) => widened(short)?,
            Keys::Long(_) => unreachable!(),
        };
        let admitted = admit_long(&mut long, key)?;
        *self = Keys::Long(long);
        Ok(admitted)
    }
}

/// Distinct requests in the order in which they were admitted. The place of a request is its number in this order, from
/// 0; there are fewer than 2^32.
#[derive(Drop)]
pub struct Table {
    keys: Keys,
}

impl Model for Table {
    ghost use Rattle.std.specs.Prelude.{List};
    ghost use Rattle.req_table.specs.declared.Operation.{Operation};

    ghost Value = { List Operation };

    ghost use Rattle.req_table.specs.Forms.{keys_in, IsValidTable};

    ghost view = { λ t. keys_in t.keys };

    ghost invariant = { λ t. IsValidTable t.keys };
}

impl Table {
    /// Returns a table without requests, which takes no memory yet.
    pub fn new(alloc: Global) -> Table
        ensures { result ≡ [] }
    {
        Table {
            keys: Keys::Short(IndexSet::new(alloc)),
        }
    }

    /// Adds a request at the end if it is new, and returns its place and whether it is new. Fails if memory is refused,
    /// or if there are 2^32 - 1 requests already and it is new; the table is then as before.
    #[inline(always)]
    pub fn admit(&mut self, key: Key) -> Result<(u32, bool), AllocError>
        ensures admits_key { IfOk result (λ r. AdmitsKey self.old key r.1 self.new) }
        ensures at_place { IfOk result (λ r. slice_get self.new r.0 ≡ Some key) }
        ensures refused { OnErr result (self.new ≡ self.old) }
        ensures absent { OnErr result (¬ Contains self.old key) }
    {
        if self.len() >= u32::MAX as usize {
            return match self.find(key) {
                Some(place) => Ok((place, false)),
                None => Err(AllocError),
            };
        }
        if let Some(admitted) = self.keys.admit(key) {
            return admitted;
        }
        self.keys.widen_and_admit(key)
    }

    /// Returns the place of a request, or none if it is not in the table.
    pub fn find(&self, key: Key) -> Option<u32>
        ensures { MatchOption result (¬ Contains self.now key) (λ p. slice_get self.now p ≡ Some key) }
    {
        let place = match &self.keys {
            Keys::Short(short) => short.get_index_of(&ShortKey::of(key)?),
            Keys::Long(long) => long.get_index_of(&key),
        };
        match place {
            Some(place) => Some(place as u32),
            None => None,
        }
    }

    /// Returns the number of requests.
    #[inline(always)]
    pub fn len(&self) -> usize
        ensures value { result ≡ length self.now }
        ensures once { IsOnce self.now }
    {
        match &self.keys {
            Keys::Short(short) => short.len(),
            Keys::Long(long) => long.len(),
        }
    }

    /// Returns the request at a place.
    #[inline(always)]
    pub fn key_at(&self, place: usize) -> Key
        requires { place < length self.now }
        ensures { slice_get self.now place ≡ Some result }
    {
        match &self.keys {
            Keys::Short(short) => short.as_slice()[place].key(),
            Keys::Long(long) => long.as_slice()[place],
        }
    }

    /// Returns how many requests the table has memory for.
    pub fn capacity(&self) -> usize {
        match &self.keys {
            Keys::Short(short) => short.capacity(),
            Keys::Long(long) => long.capacity(),
        }
    }

    /// Whether the table has room for more than eight times `count` requests.
    pub fn has_excess_capacity(&self, count: usize) -> bool {
        self.capacity() / MAX_CAPACITY_RATIO > count
    }

    /// Removes all requests. The memory is kept if each request had eight bytes.
    pub fn empty(&mut self)
        ensures { self.new ≡ [] }
    {
        if self.len() == 0 {
            return;
        }
        match &mut self.keys {
            Keys::Short(short) => short.clear(),
            Keys::Long(long) => {
                let alloc = *long.allocator();
                self.keys = Keys::Short(IndexSet::new(alloc));
            }
        }
    }

    /// Removes all requests. The memory is kept if each request had eight bytes, and if it was not more than eight
    /// times what they needed.
    pub fn clear(&mut self)
        ensures { self.new ≡ [] }
    {
        let count = self.len();
        if count > 0 && self.has_excess_capacity(count) {
            *self = Table::new(self.allocator());
        } else {
            self.empty();
        }
    }

    fn allocator(&self) -> Global {
        match &self.keys {
            Keys::Short(short) => *short.allocator(),
            Keys::Long(long) => *long.allocator(),
        }
    }
}

//! Open addressing with linear probing: slots that find the place of an item.
ghost use Rattle.std.specs.Prelude.{◌≡◌, ◌<◌, ◌≤◌, ◌+◌, ◌==◌, ◌++◌, ◌∷◌, [], ◌^◌, length, vec_len, vec_capacity, IfOk, OnOk, OnErr};
ghost use Rattle.std.specs.Prelude.{if◌then◌else◌};
ghost use Rattle.slot_table.specs.Probes.{home_of, IsFree, IsFreeFor, HasFree, IsSlotCount, IsProbeResult};
ghost use Rattle.slot_table.specs.Stamps.{Finds, IsPower, stamp_of, tag_of};
ghost use Rattle.slot_table.specs.Lists.{IsIn, IsOnce};

use crate::SlotHash;
use std::alloc::AllocError;

/// The result of a search.
pub(crate) enum ProbeResult {
    /// The item is at this place of the list.
    Place(u32),
    /// The item is in no place. This is the first empty slot from its home; if there are no slots, the number means
    /// nothing.
    Slot(usize),
}

/// The number of slots that the first item makes.
const FIRST_SLOTS: usize = 8;

/// A list of at least this many items grows by a quarter, a shorter one doubles.
const MANY_ITEMS: usize = 64;

/// Returns the home of an item, the slot in which its search begins. `count` is the number of slots, a power of two.
fn home<T: SlotHash>(item: T, count: usize) -> usize
    requires { 0 < count }
    ensures value { result ≡ home_of T.slot_hash_of count item }
    ensures within { result < count }
{
    item.slot_hash() as usize & (count - 1)
}

/// Returns an item's tag: the lower 32 bits of its hash without those that number the `count` slots.
fn tag<T: SlotHash>(item: T, count: usize) -> usize
    requires { 0 < count }
    ensures { result ≡ tag_of T.slot_hash_of count item }
{
    let number = (item.slot_hash() % 4294967296) as usize;
    number - (number & (count - 1))
}

/// Returns the stamp of an item at a place: what one of `count` slots holds for it.
fn stamp<T: SlotHash>(item: T, count: usize, place: usize) -> u32
    requires count { IsPower count }
    requires place { place + 1 < count }
    requires places { place + 1 < 2 ^ 32 }
    ensures { result ≡ stamp_of T.slot_hash_of count item place }
{
    (tag(item, count) + place + 1) as u32
}

/// Returns the slot after this one of `count`. After the last comes the first.
pub fn next_slot(slot: usize, count: usize) -> usize
    requires { slot < count }
    ensures { result ≡ (if slot + 1 == count then 0 else slot + 1) }
{
    if slot + 1 == count { 0 } else { slot + 1 }
}

/// Returns the first empty slot from `home`. It is public for tables whose items are no values of one type
/// (`net_bench::NameTable`).
pub fn free_slot(slots: &[u32], home: usize) -> usize
    requires home { home < length slots.now }
    requires free { HasFree (length slots.now) slots.now }
    ensures { IsFree (length slots.now) home slots.now result }
{
    let mut slot = home;
    for _distance in 0..slots.len() {
        if slots[slot] == 0 {
            return slot;
        }
        slot = next_slot(slot, slots.len());
    }
    unreachable!()
}

/// Searches for an item. The tag in a slot spares a look at most items with another hash.
#[inline(always)]
pub(crate) fn probe<T: SlotHash>(items: &[T], slots: &[u32], item: T) -> ProbeResult
    requires finds { Finds T.slot_hash_of (length slots.now) items.now slots.now }
    requires count { IsSlotCount (length items.now) (length slots.now) }
    ensures { IsProbeResult T.slot_hash_of items.now slots.now item result }
{
    if slots.is_empty() {
        return ProbeResult::Slot(0);
    }
    let tag = tag(item, slots.len());
    let mut slot = home(item, slots.len());
    for _distance in 0..slots.len() {
        let content = slots[slot] as usize;
        if content == 0 {
            return ProbeResult::Slot(slot);
        }
        let number = content & (slots.len() - 1);
        if content - number == tag && items[number - 1] == item {
            return ProbeResult::Place((number - 1) as u32);
        }
        slot = next_slot(slot, slots.len());
    }
    unreachable!()
}

/// Makes `count` slots that find all items. The old memory is used again if it is large enough. After an error the
/// slots are as before.
fn rehash<T: SlotHash>(items: &[T], slots: &mut Vec<u32>, count: usize) -> Result<(), AllocError>
    requires count { length items.now < count }
    requires power { IsPower count }
    requires places { length items.now < 2 ^ 32 }
    requires more { length slots.old.items ≤ count }
    ensures finds { OnOk result (Finds T.slot_hash_of count items.now slots.new.items) }
    ensures refused { OnErr result (slots.new.items ≡ slots.old.items) }
{
    slots.reserve(count - slots.len())?;
    slots.clear();
    let _ = slots.resize(count, 0);
    for place in 0..items.len() {
        let item = items[place];
        let slot = free_slot(slots.as_slice(), home(item, count));
        slots[slot] = stamp(item, count, place);
    }
    Ok(())
}

/// Returns the slot for a new item: the one at which its search ended, or, if one more item would fill more than three
/// quarters of the slots, the first empty one after they have been doubled. After an error the slots are as before.
fn slot_for<T: SlotHash>(
    items: &[T],
    slots: &mut Vec<u32>,
    item: T,
    slot: usize,
) -> Result<usize, AllocError>
    requires finds { Finds T.slot_hash_of (length slots.old.items) items.now slots.old.items }
    requires count { IsSlotCount (length items.now) (length slots.old.items) }
    requires free { IsFreeFor T.slot_hash_of slots.old.items item slot }
    requires places { length items.now < 2 ^ 32 }
    ensures finds { OnOk result (Finds T.slot_hash_of (length slots.new.items) items.now slots.new.items) }
    ensures count { OnOk result (IsSlotCount (length items.now + 1) (length slots.new.items)) }
    ensures free { IfOk result (λ j. IsFree (length slots.new.items)
        (home_of T.slot_hash_of (length slots.new.items) item) slots.new.items j) }
    ensures refused { OnErr result (slots.new.items ≡ slots.old.items) }
{
    let count = slots.len();
    if items.len() < count / 4 * 3 {
        return Ok(slot);
    }
    let more = if count == 0 { FIRST_SLOTS } else { 2 * count };
    rehash(items, slots, more)?;
    Ok(free_slot(slots.as_slice(), home(item, more)))
}

/// Makes room for one more item. A list of `MANY_ITEMS` or more grows by a quarter: on average a tenth of its memory is
/// then empty, and three tenths if it doubled. There are more growths, but the C library does not copy a large block to
/// grow it.
fn make_room<T>(list: &mut Vec<T>) -> Result<(), AllocError>
    ensures items { list.new.items ≡ list.old.items }
    ensures room { OnOk result (vec_len list.new < vec_capacity list.new) }
{
    let len = list.len();
    if len < MANY_ITEMS || len < list.capacity() {
        return list.reserve(1);
    }
    list.reserve_exact(len / 4)
}

/// Adds an item at the end, and its stamp to the slot, which is the first empty one from its home. Nothing grows here.
#[inline(always)]
fn push_at<T: SlotHash>(items: &mut Vec<T>, slots: &mut Vec<u32>, item: T, slot: usize)
    requires finds { Finds T.slot_hash_of (length slots.old.items) items.old.items slots.old.items }
    requires count { IsSlotCount (length items.old.items + 1) (length slots.old.items) }
    requires free { IsFree (length slots.old.items) (home_of T.slot_hash_of (length slots.old.items) item) slots.old.items slot }
    requires places { length items.old.items + 1 < 2 ^ 32 }
    requires room { vec_len items.old < vec_capacity items.old }
    requires absent { IsIn items.old.items item → ⊥ }
    requires once { IsOnce items.old.items }
    ensures finds { Finds T.slot_hash_of (length slots.new.items) items.new.items slots.new.items }
    ensures count { IsSlotCount (length items.new.items) (length slots.new.items) }
    ensures once { IsOnce items.new.items }
    ensures added { items.new.items ≡ items.old.items ++ item ∷ [] }
{
    slots[slot] = stamp(item, slots.len(), items.len());
    items.push_reserved(item);
}

/// Grows what has to grow, and adds an item whose search ended at `slot`. After an error the list is as before. It is a
/// function of its own and not inlined because few items need it.
#[inline(never)]
fn grow_and_push<T: SlotHash>(
    items: &mut Vec<T>,
    slots: &mut Vec<u32>,
    item: T,
    slot: usize,
) -> Result<(), AllocError>
    requires finds { Finds T.slot_hash_of (length slots.old.items) items.old.items slots.old.items }
    requires count { IsSlotCount (length items.old.items) (length slots.old.items) }
    requires free { IsFreeFor T.slot_hash_of slots.old.items item slot }
    requires places { length items.old.items + 1 < 2 ^ 32 }
    requires absent { IsIn items.old.items item → ⊥ }
    requires once { IsOnce items.old.items }
    ensures finds { Finds T.slot_hash_of (length slots.new.items) items.new.items slots.new.items }
    ensures count { IsSlotCount (length items.new.items) (length slots.new.items) }
    ensures once { IsOnce items.new.items }
    ensures added { OnOk result (items.new.items ≡ items.old.items ++ item ∷ []) }
    ensures refused { OnErr result (items.new.items ≡ items.old.items) }
{
    make_room(items)?;
    let slot = slot_for(items.as_slice(), slots, item, slot)?;
    push_at(items, slots, item, slot);
    Ok(())
}

/// Adds an item whose search ended at `slot`. After an error the list is as before.
#[inline(always)]
pub(crate) fn add_at<T: SlotHash>(
    items: &mut Vec<T>,
    slots: &mut Vec<u32>,
    item: T,
    slot: usize,
) -> Result<(), AllocError>
    requires finds { Finds T.slot_hash_of (length slots.old.items) items.old.items slots.old.items }
    requires count { IsSlotCount (length items.old.items) (length slots.old.items) }
    requires free { IsFreeFor T.slot_hash_of slots.old.items item slot }
    requires places { length items.old.items + 1 < 2 ^ 32 }
    requires absent { IsIn items.old.items item → ⊥ }
    requires once { IsOnce items.old.items }
    ensures finds { Finds T.slot_hash_of (length slots.new.items) items.new.items slots.new.items }
    ensures count { IsSlotCount (length items.new.items) (length slots.new.items) }
    ensures once { IsOnce items.new.items }
    ensures added { OnOk result (items.new.items ≡ items.old.items ++ item ∷ []) }
    ensures refused { OnErr result (items.new.items ≡ items.old.items) }
{
    if items.len() < slots.len() / 4 * 3 && items.len() < items.capacity() {
        push_at(items, slots, item, slot);
        return Ok(());
    }
    grow_and_push(items, slots, item, slot)
}

//! Lists that grow at their end.
ghost use Rattle.std.specs.Prelude.{◌≡◌, List, [], ◌∷◌, ◌++◌, length, replicate, sum, ◌≤◌, ◌*◌, ◌^◌, IfOk, OnOk, OnErr};
ghost use Rattle.std.specs.List.{sum_by};
ghost use Rattle.req_table.specs.declared.Item.{Item as ItemValue};
ghost use Rattle.req_table.specs.declared.Record.{Record as RecordValue};

use req_table::{Child, Item, Record};
use std::alloc::{AllocError, Global};
use std::marker::Model;

/// Items that were sent or taken, in order.
#[derive(Drop)]
pub struct ItemList {
    items: Vec<Item>,
}

impl Model for ItemList {
    ghost use Rattle.std.specs.Prelude.{List};
    ghost use Rattle.req_table.specs.declared.Item.{Item as ItemValue};

    ghost Value = { List ItemValue };

    ghost view = { λ l. l.items.items };
}

impl ItemList {
    /// Returns an empty list.
    pub fn new(alloc: Global) -> ItemList
        ensures { result ≡ [] }
    {
        ItemList {
            items: Vec::new(alloc),
        }
    }

    /// Returns `count` empty lists.
    pub fn many(alloc: Global, count: usize) -> Result<Vec<ItemList>, AllocError>
        ensures { IfOk result (λ lists. lists.items ≡ replicate count []) }
    {
        let mut lists = Vec::new(alloc);
        for made in 0..count {
            lists.push(ItemList::new(alloc))?;
        }
        Ok(lists)
    }

    /// Returns the number of items.
    pub fn len(&self) -> usize
        ensures { result ≡ length self.now }
    {
        self.items.len()
    }

    /// Returns all items, in order.
    pub fn as_slice(&self) -> &[Item]
        ensures { result.now ≡ self.now }
    {
        self.items.as_slice()
    }

    /// Adds an item at the end. If memory is refused, the list is as before.
    pub fn put(&mut self, item: &Item) -> Result<(), AllocError>
        ensures ok { OnOk result (self.new ≡ self.old ++ item.now ∷ []) }
        ensures err { OnErr result (self.new ≡ self.old) }
    {
        self.items.push(*item)?;
        Ok(())
    }

    /// Removes the last item, if there is one.
    pub fn undo(&mut self)
        ensures { (xs : List ItemValue) (x : ItemValue) → self.old ≡ xs ++ x ∷ [] → self.new ≡ xs }
    {
        let _ = self.items.pop();
    }
}

/// The records of one worker and level, in order.
#[derive(Drop)]
pub struct RecordList {
    records: Vec<Record>,
}

impl Model for RecordList {
    ghost use Rattle.std.specs.Prelude.{List};
    ghost use Rattle.req_table.specs.declared.Record.{Record as RecordValue};

    ghost Value = { List RecordValue };

    ghost view = { λ l. l.records.items };
}

impl RecordList {
    /// Returns an empty list.
    pub fn new(alloc: Global) -> RecordList
        ensures { result ≡ [] }
    {
        RecordList {
            records: Vec::new(alloc),
        }
    }

    /// Returns `count` empty lists.
    pub fn many(alloc: Global, count: usize) -> Result<Vec<RecordList>, AllocError>
        ensures { IfOk result (λ lists. lists.items ≡ replicate count []) }
    {
        let mut lists = Vec::new(alloc);
        for made in 0..count {
            lists.push(RecordList::new(alloc))?;
        }
        Ok(lists)
    }

    /// Returns the number of records.
    pub fn len(&self) -> usize
        ensures { result ≡ length self.now }
    {
        self.records.len()
    }

    /// Returns all records, in order.
    pub fn as_slice(&self) -> &[Record]
        ensures { result.now ≡ self.now }
    {
        self.records.as_slice()
    }

    /// Adds a record at the end. If memory is refused, the list is as before.
    pub fn put(&mut self, added: &Record) -> Result<(), AllocError>
        ensures ok { OnOk result (self.new ≡ self.old ++ added.now ∷ []) }
        ensures err { OnErr result (self.new ≡ self.old) }
    {
        let _low: &Child = &added.low;
        self.records.push(*added)?;
        Ok(())
    }
}

/// Adds an item at the end of both lists. If memory is refused, both are as before.
pub fn put_both(first: &mut ItemList, second: &mut ItemList, item: &Item) -> Result<(), AllocError>
    ensures first { OnOk result (first.new ≡ first.old ++ item.now ∷ []) }
    ensures second { OnOk result (second.new ≡ second.old ++ item.now ∷ []) }
    ensures err { OnErr result ((first.new ≡ first.old) × (second.new ≡ second.old)) }
{
    first.put(item)?;
    match second.put(item) {
        Ok(()) => Ok(()),
        Err(fault) => {
            first.undo();
            Err(fault)
        }
    }
}

/// Adds the records of a row at the end of a list.
pub fn append(records: &mut Vec<Record>, row: &[Record]) -> Result<(), AllocError>
    ensures { OnOk result (records.new.items ≡ records.old.items ++ row.now) }
{
    for added in row {
        let _low: &Child = &added.low;
        records.push(*added)?;
    }
    Ok(())
}

/// Returns the number of items of all lists.
pub fn count_items(lists: &[ItemList]) -> u128
    ensures value { result ≡ sum_by length lists.now }
    ensures bound { result ≤ length lists.now * 2 ^ 64 }
{
    let mut count = 0;
    for list in lists {
        count += list.len() as u128;
    }
    count
}

/// Returns the number of records of all rows.
pub fn count_records(rows: &[RecordList]) -> u128
    ensures value { result ≡ sum_by length rows.now }
    ensures bound { result ≤ length rows.now * 2 ^ 64 }
{
    let mut count = 0;
    for row in rows {
        count += row.len() as u128;
    }
    count
}

/// Returns the sum of the workers' levels, which is how many levels they have passed.
pub fn count_levels(levels: &[u16]) -> u128
    ensures value { result ≡ sum levels.now }
    ensures bound { result ≤ length levels.now * 2 ^ 64 }
{
    let mut count = 0;
    for level in levels {
        count += *level as u128;
    }
    count
}

//! Lists that grow at their end and shrink at their front.
ghost use Rattle.std.specs.Prelude.{◌≡◌, List, [], ◌∷◌, ◌++◌, replicate, MatchOption, MatchBool, IfOk, OnOk, OnErr};
ghost use Rattle.req_table.specs.Lanes.{sent_by, is_from};
ghost use Rattle.req_table.specs.declared.Item.{Item as ItemValue};
ghost use Rattle.req_table.specs.declared.Key.{Key as KeyValue};

use req_table::{Item, Key};
use std::alloc::{AllocError, Global};
use std::collections::VecDeque;
use std::marker::Model;

/// The requests that are due from one worker to another, in order.
#[derive(Drop)]
pub struct KeyQueue {
    keys: VecDeque<Key>,
}

impl Model for KeyQueue {
    ghost use Rattle.std.specs.Prelude.{List};
    ghost use Rattle.req_table.specs.declared.Key.{Key as KeyValue};

    ghost Value = { List KeyValue };

    ghost view = { λ l. l.keys.items };
}

impl KeyQueue {
    /// Returns an empty list.
    pub fn new(alloc: Global) -> KeyQueue
        ensures { result ≡ [] }
    {
        KeyQueue {
            keys: VecDeque::new(alloc),
        }
    }

    /// Returns `count` empty lists.
    pub fn many(alloc: Global, count: usize) -> Result<Vec<KeyQueue>, AllocError>
        ensures { IfOk result (λ lists. lists.items ≡ replicate count []) }
    {
        let mut lists = Vec::new(alloc);
        for made in 0..count {
            lists.push(KeyQueue::new(alloc))?;
        }
        Ok(lists)
    }

    /// Returns the first request, or none.
    pub fn first(&self) -> Option<Key>
        ensures { MatchOption result (self.now ≡ []) (λ x. (rest : List KeyValue) × (self.now ≡ x ∷ rest)) }
    {
        self.keys.front().copied()
    }

    /// Whether there is none.
    pub fn is_empty(&self) -> bool
        ensures { MatchBool result (self.now ≡ []) (¬ (self.now ≡ [])) }
    {
        self.keys.is_empty()
    }

    /// Removes the first request, if there is one.
    pub fn pop(&mut self)
        ensures { (xs : List KeyValue) (x : KeyValue) → self.old ≡ x ∷ xs → self.new ≡ xs }
    {
        let _ = self.keys.pop_front();
    }

    /// Adds a request at the end. If memory is refused, the list is as before.
    pub fn put(&mut self, key: Key) -> Result<(), AllocError>
        ensures ok { OnOk result (self.new ≡ self.old ++ key ∷ []) }
        ensures err { OnErr result (self.new ≡ self.old) }
    {
        self.keys.push_back(key)?;
        Ok(())
    }

    /// Removes the last request, if there is one.
    pub fn undo(&mut self)
        ensures { (xs : List KeyValue) (x : KeyValue) → self.old ≡ xs ++ x ∷ [] → self.new ≡ xs }
    {
        let _ = self.keys.pop_back();
    }
}

/// Whether an item is of this sender.
fn is_from(item: &Item, sender: u32) -> bool
    ensures { result ≡ is_from sender item.now }
{
    match item {
        Item::Ask { from, .. } | Item::End { from, .. } => *from == sender,
    }
}

/// The items that wait on one lane, in order.
#[derive(Drop)]
pub struct ItemQueue {
    items: VecDeque<Item>,
}

impl Model for ItemQueue {
    ghost use Rattle.std.specs.Prelude.{List};
    ghost use Rattle.req_table.specs.declared.Item.{Item as ItemValue};

    ghost Value = { List ItemValue };

    ghost view = { λ l. l.items.items };
}

impl ItemQueue {
    /// Returns an empty list.
    pub fn new(alloc: Global) -> ItemQueue
        ensures { result ≡ [] }
    {
        ItemQueue {
            items: VecDeque::new(alloc),
        }
    }

    /// Returns `count` empty lists.
    pub fn many(alloc: Global, count: usize) -> Result<Vec<ItemQueue>, AllocError>
        ensures { IfOk result (λ lists. lists.items ≡ replicate count []) }
    {
        let mut lists = Vec::new(alloc);
        for made in 0..count {
            lists.push(ItemQueue::new(alloc))?;
        }
        Ok(lists)
    }

    /// Returns the first item, or none.
    pub fn first(&self) -> Option<Item>
        ensures { MatchOption result (self.now ≡ []) (λ x. (rest : List ItemValue) × (self.now ≡ x ∷ rest)) }
    {
        self.items.front().copied()
    }

    /// Whether one of the items is of this sender.
    pub fn has_from(&self, sender: u32) -> bool
        ensures { MatchBool result (¬ (sent_by sender self.now ≡ [])) (sent_by sender self.now ≡ []) }
    {
        for place in 0..self.items.len() {
            if is_from(&self.items[place], sender) {
                return true;
            }
        }
        false
    }

    /// Removes the first item, if there is one.
    pub fn pop(&mut self)
        ensures { (xs : List ItemValue) (x : ItemValue) → self.old ≡ x ∷ xs → self.new ≡ xs }
    {
        let _ = self.items.pop_front();
    }

    /// Adds an item at the end. If memory is refused, the list is as before.
    pub fn put(&mut self, item: &Item) -> Result<(), AllocError>
        ensures ok { OnOk result (self.new ≡ self.old ++ item.now ∷ []) }
        ensures err { OnErr result (self.new ≡ self.old) }
    {
        self.items.push_back(*item)?;
        Ok(())
    }
}

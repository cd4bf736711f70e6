//! The diagrams of a wave's requests, by level.
ghost use Rattle.std.specs.Prelude.{◌≡◌, ◌<◌, OnOk, OnErr, IfOk, MatchOption, IsTrue, Contains, All, [], length};
ghost use Rattle.dd_store.specs.Graph.{top};
ghost use Rattle.reduce_up.specs.Reducing.{HasAnswer, IsReady, IsResolved, NotesAnswer};
ghost use Rattle.reduce_up.specs.Sharing.{NotesFirst};
ghost use Rattle.reduce_up.specs.AnswersByLevel.{place_of, paired, joined, ArePlaced};
ghost use Rattle.wave_doors.specs.Placed.{IsIndexOf};

use crate::parallel::note_all;
use dd_store::{Ref, Reference};
use req_table::{Child, Key, Record, Table};
use std::alloc::{AllocError, Global};
use std::marker::Model;

/// The level that a terminal counts as here: one after all levels that a store can have.
const BELOW_ALL_LEVELS: usize = 4096;

/// Returns the level of what a reference refers to.
fn level_of_ref(reference: Ref) -> usize
    ensures { result ≡ top 4096 reference }
{
    match reference.view() {
        Reference::Node { id, .. } => id.level as usize,
        _ => BELOW_ALL_LEVELS,
    }
}

/// Returns the level of a request.
fn level_of_request(key: Key) -> usize
    ensures { result ≡ place_of key }
{
    let first = level_of_ref(key.f());
    let second = level_of_ref(key.g());
    if first < second { first } else { second }
}

/// The diagrams of some requests, by the places of their keys.
#[derive(Drop)]
struct LevelAnswers {
    keys: Table,
    answers: Vec<Ref>,
}

impl Model for LevelAnswers {
    ghost use Rattle.std.specs.Prelude.{◌≡◌, List, length};
    ghost use Rattle.req_table.specs.declared.Key.{Key};
    ghost use Rattle.dd_store.specs.declared.reference.Ref.{Ref};
    ghost use Rattle.reduce_up.specs.AnswersByLevel.{paired};

    ghost Value = { List (Key × Ref) };

    ghost view = { λ a. paired a.keys a.answers.items };

    ghost invariant = { λ a. length a.keys ≡ length a.answers.items };
}

impl LevelAnswers {
    /// Returns no diagrams.
    fn new(alloc: Global) -> LevelAnswers
        ensures { result ≡ [] }
    {
        LevelAnswers {
            keys: Table::new(alloc),
            answers: Vec::new(alloc),
        }
    }

    /// Returns the diagrams of these keys, in their order.
    fn of(keys: Table, answers: Vec<Ref>) -> LevelAnswers
        requires { length keys ≡ length answers.items }
        ensures { result ≡ paired keys answers.items }
    {
        LevelAnswers { keys, answers }
    }

    /// Whether there is none.
    fn is_empty(&self) -> bool
        ensures { IsTrue result → self.now ≡ [] }
    {
        self.keys.len() == 0
    }

    /// Returns the diagram of a request, or none.
    fn find(&self, key: Key) -> Option<Ref>
        ensures { MatchOption result (HasAnswer self.now key → ⊥) (λ r. Contains self.now (key, r)) }
    {
        match self.keys.find(key) {
            Some(place) => Some(self.answers[place as usize]),
            None => None,
        }
    }

    /// Notes the diagram of a request, if it has none yet.
    fn note(&mut self, key: Key, answer: Ref) -> Result<(), AllocError>
        ensures noted { OnOk result (NotesAnswer self.old key answer self.new) }
        ensures refused { OnErr result (self.new ≡ self.old) }
    {
        self.answers.reserve(1)?;
        let (_, new) = self.keys.admit(key)?;
        if new {
            self.answers.push_reserved(answer);
        }
        Ok(())
    }
}

/// Returns the keys of a row, each once, in order, as a table.
pub(crate) fn index_of(alloc: Global, row: &[Record]) -> Result<Table, AllocError>
    ensures { IfOk result (λ keys. IsIndexOf row.now keys) }
{
    let mut keys = Table::new(alloc);
    for entry in row {
        keys.admit(entry.key)?;
    }
    Ok(keys)
}

/// Makes an empty list for each level up to this one that has none.
fn grow(rows: &mut Vec<LevelAnswers>, place: usize) -> Result<(), AllocError>
    requires { ArePlaced rows.old.items }
    ensures same { joined rows.new.items ≡ joined rows.old.items }
    ensures placed { ArePlaced rows.new.items }
    ensures long { OnOk result (place < length rows.new.items) }
{
    let alloc = *rows.allocator();
    while rows.len() <= place {
        rows.push(LevelAnswers::new(alloc))?;
    }
    Ok(())
}

/// The diagram of each request of a wave, by level.
#[derive(Drop)]
pub struct Results {
    rows: Vec<LevelAnswers>,
}

impl Model for Results {
    ghost use Rattle.std.specs.Prelude.{List};
    ghost use Rattle.req_table.specs.declared.Key.{Key};
    ghost use Rattle.dd_store.specs.declared.reference.Ref.{Ref};
    ghost use Rattle.reduce_up.specs.AnswersByLevel.{joined, ArePlaced};

    ghost Value = { List (Key × Ref) };

    ghost view = { λ r. joined r.rows.items };

    ghost invariant = { λ r. ArePlaced r.rows.items };
}

impl Results {
    /// Returns no diagrams.
    pub(crate) fn new(alloc: Global) -> Results
        ensures { result ≡ [] }
    {
        Results {
            rows: Vec::new(alloc),
        }
    }

    /// The allocator of the diagrams.
    pub(crate) fn alloc(&self) -> Global {
        *self.rows.allocator()
    }

    /// Notes the diagram of a request, if it has none yet.
    pub(crate) fn note(&mut self, key: Key, answer: Ref) -> Result<(), AllocError>
        ensures noted { OnOk result (NotesAnswer self.old key answer self.new) }
        ensures refused { OnErr result (self.new ≡ self.old) }
    {
        let place = level_of_request(key);
        grow(&mut self.rows, place)?;
        self.rows[place].note(key, answer)
    }

    /// Notes the diagrams of a row of records of a level. `keys` is the table of the row's keys, which becomes the
    /// level's if they are distinct and the level has none yet.
    pub(crate) fn put_row(
        &mut self,
        level: u16,
        row: &[Record],
        keys: Table,
        answers: Vec<Ref>,
    ) -> Result<(), AllocError>
        requires long { length answers.items ≡ length row.now }
        requires index { IsIndexOf row.now keys }
        requires placed { All (λ r. place_of r.key ≡ level) row.now }
        ensures first_noted { NotesFirst self.old row.now answers.items 0 self.new }
        ensures all_noted { OnOk result (NotesFirst self.old row.now answers.items (length row.now) self.new) }
    {
        let place = level as usize;
        grow(&mut self.rows, place)?;
        if keys.len() == row.len() && self.rows[place].is_empty() {
            self.rows[place] = LevelAnswers::of(keys, answers);
            return Ok(());
        }
        note_all(self, row, answers.as_slice())
    }

    /// Returns the diagram of a request, which must have one.
    pub fn get(&self, key: &Key) -> Ref
        requires { HasAnswer self.now key.now }
        ensures { Contains self.now (key.now, result) }
    {
        let place = level_of_request(*key);
        self.rows[place].find(*key).unwrap()
    }

    /// Returns the diagram of a child: its answer, or that of its request, complemented if the child is.
    pub(crate) fn resolve(&self, child: Child) -> Ref
        requires { IsReady self.now child }
        ensures { IsResolved self.now child result }
    {
        match child {
            Child::Done(answer) => answer,
            Child::Ask {
                key,
                complement,
                ..
            } => self.get(&key).complement_if(complement),
        }
    }
}

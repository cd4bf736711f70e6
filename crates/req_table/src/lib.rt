//! Requests, their terminal cases and children, tables of them by level, and the computed table;
//! and the definitions that all forms of workers share: items, fair lists and settled waves.
//!
//! **Promises.** `requests::terminal_case`, `normal`, `child`, `split` and `terminal_or_computed`
//! follow the tables of `specs/TerminalCase` (`value`, `key`), and what they return has the value
//! of the operation on the functions of its operands (`means`, `low`, `high`). A `Key` is always a
//! request (`Key::op`: `request`). A `Table` is a list of requests, each once (`Table::admit`:
//! `admits_key`, `at_place`, `refused`). A `ComputedTable` is a list of keys with answers
//! (`ComputedTable::peek`: `value`, `once`, `few`); `keep` puts a pair first and removes the old
//! pair of its key, or the last pair of a full table, or changes nothing. A `Row` has the children
//! of requests, each a `PackedChild`, and `Refs` has references. `Waiting` and `Rows` have tables
//! and rows by level, and find the next level that is not empty.
//!
//! **Only tests show** that nothing is refused if there is ample memory, that an answer is then
//! kept, and that a wave over a full store still has the answers that are held (`wave_tests`).
//!
//! **Begin** with `specs/TerminalCase` and `Keys`, what an operation comes to. The crate has four parts: what a
//! request is (`requests`, and the types here), sets of requests by level (`table`, `short_key`, `level_set`,
//! `waiting`, `children`, `spare_tables`), words in few bytes (`words`, `packed_child`, `packed_lists`), and the
//! computed table.
//!
//! **What stays out.** Nothing here makes a node (`reduce_up`), starts a thread or sends a request (`lane_queue`), or
//! says when one is expanded (`expand_work`, `wave_engine`). What both forms of workers, `expand_work` and
//! `wave_core`, say of lanes and settled waves is only defined here, in `specs/Lanes`, `Reached`, `Settled` and `Wave`.
#![tactic(auto)]

ghost use Rattle.std.specs.Prelude.{◌≡◌};
ghost use Rattle.req_table.specs.Operation.{IsRequest};
ghost use Rattle.req_table.specs.TerminalCase.{op_number};
ghost use Rattle.req_table.specs.Words.{xor_bit, first_word, operation_of, IsFirstWord};

mod children;
mod computed_table;
mod level_set;
mod packed_child;
mod packed_lists;
pub mod requests;
mod short_key;
mod spare_tables;
mod table;
mod waiting;
mod words;

pub use children::Rows;
pub use computed_table::ComputedTable;
use dd_store::Ref;
pub use packed_child::{PackedChild, PlacedChild};
pub use packed_lists::{Refs, Row};
pub use spare_tables::SpareTables;
use std::collections::LinkedList;
use std::fmt;
use std::hash::{Hash, Hasher};
use std::marker::Model;
pub use table::Table;
pub use waiting::Waiting;

/// A Boolean operation on two operands.
#[derive(Clone, Copy, Debug, PartialEq, Eq, PartialOrd, Ord, Hash)]
pub enum Op {
    And,
    Or,
    Xor,
    Nand,
    Nor,
    Xnor,
}

/// An operation on two references.
#[derive(Clone, Copy, Debug, PartialEq, Eq)]
pub struct Operation {
    pub op: Op,
    pub f: Ref,
    pub g: Ref,
}

/// A request, in sixteen bytes: And of two references, or Xor of two without complement bits, that has no terminal case
/// and has its operands in order. The fields are private, so every value of this type is a request.
#[derive(Clone, Copy)]
pub struct Key {
    /// The word of the first operand, with bit 63 set for Xor.
    first: u64,
    second: Ref,
}

const _: () = prove!(size_of::<Key>() == 16);

/// The bit of `Key::first` that is set for Xor. No word of a reference has it.
const XOR_BIT: u64 = 1 << 63;

/// The value of the lowest bit of the second operand's word in the number that is hashed for a request.
const SECOND_BIT: u128 = 1 << 64;

impl Model for Key {
    ghost use Rattle.req_table.specs.declared.Operation.{Operation};

    ghost Value = { Operation };

    ghost use Rattle.req_table.specs.Operation.{IsRequest};
    ghost use Rattle.req_table.specs.Words.{first_word, operation_of, IsFirstWord};
    ghost use Rattle.req_table.specs.WordLaws.{first_word-back};

    ghost view = { λ k. operation_of k.first k.second };

    ghost inverse = { λ k. record { first = first_word k.op k.f; second = k.g } };

    ghost inverse_ok = { λ k h i. record { first = first_word-back k.first h.0 i; second = k.second } };

    ghost invariant = { λ k. IsFirstWord k.first × IsRequest (operation_of k.first k.second) };
}

/// Returns the number of an operation, by which owners are found.
#[inline(always)]
fn number(op: Op) -> u64
    ensures { result ≡ op_number op }
{
    match op {
        Op::And => 0,
        Op::Or => 1,
        Op::Xor => 2,
        Op::Nand => 3,
        Op::Nor => 4,
        Op::Xnor => 5,
    }
}

/// Returns the bit of an operation in `Key::first`.
#[inline(always)]
fn xor_bit(op: Op) -> u64
    ensures { result ≡ xor_bit op }
{
    (op == Op::Xor) as u64 * XOR_BIT
}

impl Key {
    /// Returns the request for an operation that is one.
    #[inline(always)]
    fn of(op: Op, f: Ref, g: Ref) -> Key
        requires { IsRequest (record { op = op; f = f; g = g }) }
        ensures { result ≡ record { op = op; f = f; g = g } }
    {
        Key::of_words(xor_bit(op) + f.word(), g)
    }

    /// Returns the request with this first word and this second operand.
    #[inline(always)]
    fn of_words(first: u64, second: Ref) -> Key
        requires word { IsFirstWord first }
        requires request { IsRequest (operation_of first second) }
        ensures { result ≡ operation_of first second }
    {
        Key { first, second }
    }

    /// Returns the word of the first operand, with the bit of the operation.
    #[inline(always)]
    fn first_word(self) -> u64
        ensures word { result ≡ first_word self.op self.f }
        ensures within { IsFirstWord result }
        ensures back { operation_of result self.g ≡ self }
    {
        self.first
    }

    /// Returns the operation, which is And or Xor.
    pub fn op(self) -> Op
        ensures value { result ≡ self.op }
        ensures request { IsRequest self }
    {
        if self.first < XOR_BIT {
            Op::And
        } else {
            Op::Xor
        }
    }

    /// Returns the first operand, a node of the request's level.
    pub fn f(self) -> Ref
        ensures value { result ≡ self.f }
        ensures request { IsRequest self }
    {
        Ref::of_word(self.first % XOR_BIT)
    }

    /// Returns the second operand.
    pub fn g(self) -> Ref
        ensures value { result ≡ self.g }
        ensures request { IsRequest self }
    {
        self.second
    }

    /// Returns the operation that is asked for.
    pub fn view(self) -> Operation
        ensures { result ≡ self }
    {
        Operation {
            op: self.op(),
            f: self.f(),
            g: self.second,
        }
    }
}

impl fmt::Debug for Key {
    fn fmt<W: fmt::Write>(&self, f: &mut fmt::Formatter<W>) -> fmt::Result {
        self.view().fmt(f)
    }
}

impl PartialEq for Key {
    ghost use Rattle.req_table.specs.contracts.OperationPartialEq.TheImpl.{eq-value};
    ghost use Rattle.req_table.specs.contracts.OperationPartialEq.TheImpl.Laws.{laws-law};

    ghost eq = { eq-value.it };

    ghost laws = { laws-law };

    fn eq(&self, other: &Key) -> bool {
        self.first == other.first && self.second == other.second
    }
}

impl Eq for Key {
    ghost use Rattle.req_table.specs.contracts.OperationEq.TheImpl.Laws.{laws-law};

    ghost laws = { laws-law };
}

impl Hash for Key {
    ghost use Rattle.std.specs.Hash as fed;
    ghost use Rattle.req_table.specs.Words.{key_word};
    ghost use Rattle.req_table.specs.Equal.{key_same};
    ghost use Rattle.std.proofs.Common.{ap};

    ghost hash_input = { λ k. fed.u128 (key_word k) };

    ghost respects_eq = { λ x y e. ap (λ k. fed.u128 (key_word k)) (key_same x y e) };

    fn hash<H: Hasher>(&self, state: &mut H) {
        state.write_u128(self.second.word() as u128 * SECOND_BIT + self.first as u128);
    }
}

/// What an operation comes to: its answer, or the request that is to be made at a level. If `complement` is set, the
/// operation's answer is the complement of the request's.
#[derive(Clone, Copy, Debug)]
pub enum Child {
    Done(Ref),
    Ask {
        level: u16,
        key: Key,
        complement: bool,
    },
}

/// A request with its two children: its operation on the cofactors of its operands, for the bit of its level at 0 and
/// at 1.
#[derive(Clone, Copy, Debug)]
pub struct Record {
    pub key: Key,
    pub low: Child,
    pub high: Child,
}

/// What contracts see of a message between workers: a request for its owner, or that the sender `from` has nothing more
/// to ask for at a level.
#[derive(Clone, Copy, Debug)]
pub enum Item {
    Ask { from: u32, level: u16, key: Key },
    End { from: u32, level: u16 },
}

/// What lanes keep of a store for contracts: the number of levels, and the number of nodes of each shard, the 16 shards
/// of level 0 first. No value of this type is made when the program runs.
pub struct Sizes {
    pub levels: u16,
    pub counts: LinkedList<u64>,
}

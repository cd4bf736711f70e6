//! What an operation comes to: its terminal case or its request, the request's children, and its
//! owner. The operations on references are those of Bryant (1986), with complement edges (Brace,
//! Rudell and Bryant 1990).
ghost use Rattle.std.specs.Prelude.{◌≡◌, ◌<◌, Bool, List, None, IfSome, true, false};
ghost use Rattle.dd_store.specs.Nodes.{Nodes, den};
ghost use Rattle.dd_store.specs.View.{Has};
ghost use Rattle.std.specs.Option.{option_map};
ghost use Rattle.dd_store.specs.Complements.{is_complement, complement_by, complemented};
ghost use Rattle.req_table.specs.Operation.{IsRequest};
ghost use Rattle.req_table.specs.TerminalCase.{key, terminal_of, terminal_at, terminal_and, terminal_xor, form_of, in_order, regular_of};
ghost use Rattle.req_table.specs.TerminalCase.{op_value, owner_of};
ghost use Rattle.req_table.specs.Keys.{normal_of, level_of, child as child_at, record_of, meaning, child_value, Denotes, IsKey, IsChildIn};
ghost use Rattle.req_table.specs.Keys.{IsDeeper, IsCofactorChild};
ghost use Rattle.req_table.specs.ComputedTables.{IsRight, IsValueOf, terminal_or_computed_of};

use crate::{Child, ComputedTable, Key, Op, Record, number};
use dd_store::{Ref, Store, ref_hash};

/// Returns a reference without its complement bit.
fn regular(reference: Ref) -> Ref
    ensures { result ≡ regular_of reference }
{
    reference.complement_if(reference.is_complement())
}

/// Whether exactly one of two references has a complement bit.
fn one_complemented(f: Ref, g: Ref) -> bool
    ensures { result ≡ complemented (is_complement f) (is_complement g) }
{
    f.is_complement() != g.is_complement()
}

/// Rewrites an operation by And, or by Xor of references without complement bits, and returns whether the answer is the
/// complement of that one's.
#[inline(always)]
fn form(op: Op, f: Ref, g: Ref) -> (Op, Ref, Ref, bool)
    ensures { (key result.0 result.1 result.2, result.3) ≡ form_of op f g }
{
    match op {
        Op::And => (Op::And, f, g, false),
        Op::Nand => (Op::And, f, g, true),
        Op::Or => (Op::And, f.negate(), g.negate(), true),
        Op::Nor => (Op::And, f.negate(), g.negate(), false),
        Op::Xor => (Op::Xor, regular(f), regular(g), one_complemented(f, g)),
        Op::Xnor => (Op::Xor, regular(f), regular(g), !one_complemented(f, g)),
    }
}

/// Returns the answer of And if it has a terminal case: an operand is a terminal, or both are one node.
#[inline(always)]
fn terminal_and(f: Ref, g: Ref) -> Option<Ref>
    ensures { result ≡ terminal_and f g }
{
    if f.is_terminal() {
        return Some(if f == Ref::TRUE { g } else { Ref::FALSE });
    }
    if g.is_terminal() {
        return Some(if g == Ref::TRUE { f } else { Ref::FALSE });
    }
    if f == g {
        return Some(f);
    }
    if f == g.negate() {
        return Some(Ref::FALSE);
    }
    None
}

/// Returns the answer of Xor if it has a terminal case: an operand is a terminal, or both are one node.
#[inline(always)]
fn terminal_xor(f: Ref, g: Ref) -> Option<Ref>
    ensures { result ≡ terminal_xor f g }
{
    if f.is_terminal() {
        return Some(g.complement_if(f == Ref::TRUE));
    }
    if g.is_terminal() {
        return Some(f.complement_if(g == Ref::TRUE));
    }
    if f == g {
        return Some(Ref::FALSE);
    }
    if f == g.negate() {
        return Some(Ref::TRUE);
    }
    None
}

/// Returns the answer of And or Xor if it has a terminal case.
#[inline(always)]
fn terminal_at(op: Op, f: Ref, g: Ref) -> Option<Ref>
    ensures { result ≡ terminal_at (key op f g) }
{
    match op {
        Op::And => terminal_and(f, g),
        Op::Xor => terminal_xor(f, g),
        _ => None,
    }
}

/// Returns the answer, complemented if `complement` is set.
fn complement_if(answer: Option<Ref>, complement: bool) -> Option<Ref>
    ensures { result ≡ option_map (complement_by complement) answer }
{
    match answer {
        Some(answer) => Some(answer.complement_if(complement)),
        None => None,
    }
}

/// Returns the request for an operation, with its operands in order.
#[inline(always)]
fn request(op: Op, f: Ref, g: Ref) -> Key
    requires { IsRequest (in_order (key op f g)) }
    ensures { result ≡ in_order (key op f g) }
{
    if g < f {
        Key::of(op, g, f)
    } else {
        Key::of(op, f, g)
    }
}

/// Returns the answer of an operation that has a terminal case, which is a terminal, or an operand or its complement;
/// or none if a request has to be made.
pub fn terminal_case(op: Op, f: Ref, g: Ref) -> Option<Ref>
    ensures value { result ≡ terminal_of op f g }
    ensures means { (S : Nodes) → IfSome result (Denotes S op f g) }
{
    let (op, f, g, complement) = form(op, f, g);
    complement_if(terminal_at(op, f, g), complement)
}

/// Returns the owner of a request, the worker that expands it: the number of the operation, plus three times the hash
/// of the first operand, plus five times that of the second, modulo the number of workers. Only which worker does what
/// rests on it.
pub fn owner(key: Key, workers: u32) -> u32
    requires { 0 < workers }
    ensures { result ≡ owner_of key.op key.f key.g workers }
{
    let sum = number(key.op()) + 3 * ref_hash(key.f()) + 5 * ref_hash(key.g());
    // A modulus that is a constant power of two spares a division of 64 bits, which took 7 % of the workers' time.
    match workers {
        1 => 0,
        2 => (sum % 2) as u32,
        4 => (sum % 4) as u32,
        8 => (sum % 8) as u32,
        16 => (sum % 16) as u32,
        _ => (sum % workers as u64) as u32,
    }
}

/// Returns the request for an operation without a terminal case, and whether the operation's answer is the complement
/// of the request's. The request is by And, or by Xor without complement bits; its operands are in the order of
/// references.
pub fn normal(op: Op, f: Ref, g: Ref) -> (Key, bool)
    requires { terminal_of op f g ≡ None }
    ensures key { result ≡ normal_of op f g }
    ensures means { (S : Nodes) (x : List Bool) → complemented result.1 (meaning S result.0 x) ≡ op_value op (den S f x) (den S g x) }
{
    let (op, f, g, complement) = form(op, f, g);
    (request(op, f, g), complement)
}

/// Returns the level of a request: the smaller of its operands' levels.
#[inline(always)]
pub fn level_of(store: &Store, key: Key) -> u16
    ensures { result ≡ level_of store.now key }
{
    // Both operands are nodes, and in order, so the first one's level is not the greater.
    store.top(key.f())
}

/// Returns what an operation comes to: its answer if it has a terminal case, and otherwise its request.
#[inline(always)]
pub fn child(store: &Store, op: Op, f: Ref, g: Ref) -> Child
    requires first { Has store.now f }
    requires second { Has store.now g }
    ensures value { result ≡ child_at store.now op f g }
    ensures in_store { IsChildIn store.now result }
    ensures means { (x : List Bool) → child_value store.now result x ≡ op_value op (den store.now f x) (den store.now g x) }
{
    let (op, f, g, complement) = form(op, f, g);
    match terminal_at(op, f, g) {
        Some(answer) => Child::Done(answer.complement_if(complement)),
        None => {
            let key = request(op, f, g);
            Child::Ask {
                level: level_of(store, key),
                key,
                complement,
            }
        }
    }
}

/// Returns a request with its children, which are its operation on the cofactors of its operands at its level (Bryant,
/// 1986). To make such a record is to expand the request.
#[inline(always)]
pub fn split(store: &Store, key: Key) -> Record
    requires { IsKey store.now key }
    ensures value { result ≡ record_of store.now key }
    ensures in_store { IsChildIn store.now result.low × IsChildIn store.now result.high }
    ensures deeper { IsDeeper store.now (level_of store.now key) result.low × IsDeeper store.now (level_of store.now key) result.high }
    ensures low { IsCofactorChild store.now key false result.low }
    ensures high { IsCofactorChild store.now key true result.high }
{
    let level = level_of(store, key);
    let _ = store.levels(); // For the proof.
    let op = key.op();
    let first = store.cofactors(key.f(), level);
    let second = store.cofactors(key.g(), level);
    let low = child(store, op, first.0, second.0);
    let high = child(store, op, first.1, second.1);
    Record { key, low, high }
}

/// Returns the answer of an operation if it has a terminal case or the computed table holds it.
pub fn terminal_or_computed(computed: &ComputedTable, op: Op, f: Ref, g: Ref) -> Option<Ref>
    ensures value { result ≡ terminal_or_computed_of computed.now op f g }
    ensures means { (S : Nodes) → IsRight S computed.now → Has S f → Has S g → IfSome result (IsValueOf S op f g) }
{
    let (op, f, g, complement) = form(op, f, g);
    match terminal_at(op, f, g) {
        Some(answer) => Some(answer.complement_if(complement)),
        None => complement_if(computed.peek(&request(op, f, g)), complement),
    }
}

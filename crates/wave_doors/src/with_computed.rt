//! What an operation comes to, and the children of a request, if a held answer counts as known.
//! Waves do not look children up; this is what they would be if they did.
ghost use Rattle.std.specs.Prelude.{◌≡◌, Bool, List, length, true, false};
ghost use Rattle.dd_store.specs.Nodes.{den};
ghost use Rattle.dd_store.specs.View.{Has};
ghost use Rattle.req_table.specs.TerminalCase.{op_value};
ghost use Rattle.req_table.specs.Keys.{child_value, IsKey, IsChildIn};
ghost use Rattle.req_table.specs.ComputedTables.{IsRight};
ghost use Rattle.wave_doors.specs.ComputedTables.{IsCofactorChildOf, child_with_computed as child_with_computed_at, record_with_computed};

use dd_store::{Ref, Store};
use req_table::requests::{child, level_of, terminal_or_computed};
use req_table::{Child, ComputedTable, Key, Op, Record};

/// Returns what an operation comes to: its answer if it has a terminal case or the computed table holds it, and
/// otherwise its request.
pub fn child_with_computed(store: &Store, computed: &ComputedTable, op: Op, f: Ref, g: Ref) -> Child
    requires first { Has store.now f }
    requires second { Has store.now g }
    requires right { IsRight store.now computed.now }
    ensures value { result ≡ child_with_computed_at store.now computed.now op f g }
    ensures in_store { IsChildIn store.now result }
    ensures means { (x : List Bool) → length x ≡ store.now.levels
        → child_value store.now result x ≡ op_value op (den store.now f x) (den store.now g x) }
{
    match terminal_or_computed(computed, op, f, g) {
        Some(answer) => Child::Done(answer),
        None => child(store, op, f, g),
    }
}

/// Returns a request with its children, each by `child_with_computed`.
pub fn split_with_computed(store: &Store, computed: &ComputedTable, key: Key) -> Record
    requires key { IsKey store.now key }
    requires right { IsRight store.now computed.now }
    ensures value { result ≡ record_with_computed store.now computed.now key }
    ensures in_store { IsChildIn store.now result.low × IsChildIn store.now result.high }
    ensures low { IsCofactorChildOf store.now key false result.low }
    ensures high { IsCofactorChildOf store.now key true result.high }
{
    let op = key.op();
    let level = level_of(store, key);
    let _ = store.levels(); // For the proof.
    let first = store.cofactors(key.f(), level);
    let second = store.cofactors(key.g(), level);
    Record {
        key,
        low: child_with_computed(store, computed, op, first.0, second.0),
        high: child_with_computed(store, computed, op, first.1, second.1),
    }
}

//! Comparing two functions of a store: whether they are equal, the least assignment at which they
//! differ, and the variables that they depend on.
//!
//! **Promises.** `same` is equality of functions (`functions`) and of references (`references`),
//! and `value` is the denotation at an assignment (`value`). `least_difference` returns the least
//! assignment by level at which two functions differ, and `least_difference_declared` the least in
//! declared order, for any order of the levels; both return none if the functions agree (`least`).
//! `by_level` turns an assignment in declared order into one by level. `support_of` returns exactly
//! the levels on whose bits one of two functions depends. No call makes nodes.
//!
//! **Only tests show** that nothing is refused if there is ample memory (`wave_tests`).
//!
//! **Begin** here: `least_difference` walks down both diagrams at once. The least difference in
//! declared order is in `least`, with `specs/DeclaredOrder`.
#![tactic(auto)]

ghost use Rattle.std.specs.Prelude.{◌≡◌, ◌<◌, ◌≤◌, ◌↔◌, IsTrue, length, MatchOption, IfOk};
ghost use Rattle.dd_store.specs.Functions.{Agree, IsLeastDifference};
ghost use Rattle.dd_store.specs.Nodes.{Nodes, IsSound, den};
ghost use Rattle.dd_store.specs.View.{Has};
ghost use Rattle.counter_walk.specs.Walk.{top, step};

mod least;
mod support;

use dd_store::{Ref, Store};
pub use least::{by_level, least_difference_declared};
use std::alloc::{AllocError, Global};
pub use support::support_of;

/// Returns the cofactor of a reference for a bit of a level.
fn step_down(store: &Store, r: Ref, level: u16, bit: bool) -> Ref
    requires in_store { Has store.now r }
    requires level { level < store.now.levels }
    requires above { level ≤ top store.now r }
    ensures value { result ≡ step store.now level r bit }
{
    store.cofactor(r, level, bit)
}

/// Whether two references of one store denote the same function. No store is needed, because references of reduced
/// diagrams are equal exactly if their functions are (Bryant 1986).
pub fn same(f: Ref, g: Ref) -> bool
    ensures references { IsTrue result ↔ (f ≡ g) }
    ensures functions { (S : Nodes) → IsSound S → Has S f → Has S g → IsTrue result ↔ Agree S.levels (den S f) (den S g) }
{
    f == g
}

/// Returns the value of a function at an assignment, which has a bit for each level, the top level's first.
pub fn value(store: &Store, f: Ref, bits: &[bool]) -> bool
    requires in_store { Has store.now f }
    requires one_bit_per_level { length bits.now ≡ store.now.levels }
    ensures value { result ≡ den store.now f bits.now }
{
    let mut at = f;
    for level in 0..store.levels() {
        at = step_down(store, at, level, bits[level as usize]);
    }
    same(at, Ref::TRUE)
}

/// Returns the least assignment at which two functions differ: the least in lexicographic order, with 0 before 1, the
/// top level's bit first. Returns none if they are equal. It walks down both diagrams at once, and takes the high
/// children only if the two low ones are equal. Fails if memory is refused.
pub fn least_difference(
    alloc: Global,
    store: &Store,
    f: Ref,
    g: Ref,
) -> Result<Option<Vec<bool>>, AllocError>
    requires first_in_store { Has store.now f }
    requires second_in_store { Has store.now g }
    ensures least { IfOk result (λ found. MatchOption found
        (Agree store.now.levels (den store.now f) (den store.now g))
        (λ bits. IsLeastDifference store.now.levels (den store.now f) (den store.now g) bits.items)) }
{
    let levels = store.levels();
    if same(f, g) {
        return Ok(None);
    }
    let mut bits = Vec::new(alloc);
    let mut first = f;
    let mut second = g;
    for level in 0..levels {
        let first_low = step_down(store, first, level, false);
        let second_low = step_down(store, second, level, false);
        if same(first_low, second_low) {
            bits.push(true)?;
            first = step_down(store, first, level, true);
            second = step_down(store, second, level, true);
        } else {
            bits.push(false)?;
            first = first_low;
            second = second_low;
        }
    }
    Ok(Some(bits))
}

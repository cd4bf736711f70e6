//! The least difference of two functions in declared order, whatever the order of the levels. The
//! variables are fixed one after the other as declared: to 0 if the functions can still differ
//! then, and otherwise to 1. Whether they can is found by one pass over a list of lines, the
//! diagram of the exclusive or of both functions, from the lowest level up; this is done only for
//! variables that the lines read, and the others are 0. The store gets no node, so a full one is no
//! obstacle.
ghost use Rattle.std.specs.Prelude.{◌≡◌, ◌<◌, ◌++◌, ◌∷◌, [], ℕ, List, Bool, length};
ghost use Rattle.std.specs.Prelude.{IfOk, OnOk, MatchOption};
ghost use Rattle.std.specs.HashMap.{Updates};
ghost use Rattle.dd_store.specs.Functions.{Agree};
ghost use Rattle.dd_store.specs.Complements.{is_complement, complement_by};
ghost use Rattle.dd_store.specs.Nodes.{Nodes, IsSound, den};
ghost use Rattle.dd_store.specs.View.{Has};
ghost use Rattle.counter_walk.specs.DeclaredOrder.{IsOrder, assignment_by_level, IsLeastDifferenceDeclared};
ghost use Rattle.counter_walk.specs.Lines.{LineDenotes, IsDiffTable, IsDiffPairOf, AreInOrder, ReadVariablesBelow, AreSatisfiable, AreRead, line_satisfiable, differs};
ghost use Rattle.counter_walk.specs.contracts.least.DiffPairPartialEq.TheImpl.{eq-value as pair_eq};

use crate::same;
use dd_store::{Ref, Store};
use std::alloc::{AllocError, Global};
use std::collections::HashMap;

/// Two references, for the function that is 1 at the assignments at which theirs differ.
#[derive(Clone, Copy, PartialEq, Eq, Hash)]
struct DiffPair {
    first: Ref,
    second: Ref,
}

/// A node of the diagram of such a function: its value, if the two references are equal or complements of each other;
/// otherwise the declared variable of the upper level of the two, and the places of the lines for the cofactors.
#[derive(Clone, Copy, Drop)]
enum DiffLine {
    Terminal(bool),
    Branch { variable: u16, low: u32, high: u32 },
}

/// The lines of pairs, each after those of its cofactors, and the place of each pair's line.
#[derive(Drop)]
struct DiffTable {
    lines: Vec<DiffLine>,
    places: HashMap<DiffPair, u32>,
}

/// Returns two references, both complemented if the first has a complement bit.
fn with_regular_first(first: Ref, second: Ref) -> DiffPair
    ensures { result ≡ record { first = complement_by (is_complement first) first; second = complement_by (is_complement first) second } }
{
    let complement = first.is_complement();
    DiffPair {
        first: first.complement_if(complement),
        second: second.complement_if(complement),
    }
}

/// Returns the pair that represents f and g: the exclusive or does not change if they are exchanged or both
/// complemented. There is one pair for all equal references, and one for all complements of each other.
fn normal(f: Ref, g: Ref) -> DiffPair
    ensures { (S : Nodes) → IsSound S → Has S f → Has S g → IsDiffPairOf S f g result }
{
    if same(f, g) {
        return DiffPair {
            first: Ref::TRUE,
            second: Ref::TRUE,
        };
    }
    if same(f, g.negate()) {
        return DiffPair {
            first: Ref::TRUE,
            second: Ref::FALSE,
        };
    }
    if g < f {
        return with_regular_first(g, f);
    }
    with_regular_first(f, g)
}

/// Adds the line of a pair at the end, and returns its place. Fails if memory is refused, or if there are 2^32 - 1
/// lines.
fn add_line(table: &mut DiffTable, pair: DiffPair, line: DiffLine) -> Result<u32, AllocError>
    ensures place { IfOk result (λ p. p ≡ length table.old.lines.items) }
    ensures lines { OnOk result (table.new.lines.items ≡ table.old.lines.items ++ line ∷ []) }
    ensures places { IfOk result (λ p. Updates pair_eq.it table.old.places table.new.places pair (Some p)) }
{
    let place = table.lines.len();
    if place >= u32::MAX as usize {
        return Err(AllocError);
    }
    let place = place as u32;
    table.lines.push(line)?;
    table.places.insert(pair, place)?;
    Ok(place)
}

/// Returns the place of the line of two references. If there is none, it is added, after those of the cofactors.
fn place_of(
    store: &Store,
    order: &[u16],
    table: &mut DiffTable,
    f: Ref,
    g: Ref,
) -> Result<u32, AllocError>
    requires first_in_store { Has store.now f }
    requires second_in_store { Has store.now g }
    requires order { IsOrder store.now.levels order.now }
    requires table { IsDiffTable store.now order.now table.old }
    ensures table { OnOk result (IsDiffTable store.now order.now table.new) }
    ensures keeps { OnOk result ((p : ℕ) (h : List Bool → Bool) → LineDenotes store.now.levels table.old.lines.items p h →
        LineDenotes store.now.levels table.new.lines.items p h) }
    ensures place { IfOk result (λ p. LineDenotes store.now.levels table.new.lines.items p (differs store.now order.now f g)) }
{
    let _ = store.levels(); // For the proof.
    let pair = normal(f, g);
    if let Some(place) = table.places.get(&pair) {
        return Ok(*place);
    }
    let line = if same(pair.first, pair.second) {
        DiffLine::Terminal(false)
    } else if same(pair.first, pair.second.negate()) {
        DiffLine::Terminal(true)
    } else {
        let level = store.top(pair.first).min(store.top(pair.second));
        let (f_low, f_high) = store.cofactors(pair.first, level);
        let (g_low, g_high) = store.cofactors(pair.second, level);
        DiffLine::Branch {
            variable: order[level as usize],
            low: place_of(store, order, table, f_low, g_low)?,
            high: place_of(store, order, table, f_high, g_high)?,
        }
    };
    add_line(table, pair, line)
}

/// Returns, for each variable, whether a line has it.
fn variables_read(
    alloc: Global,
    lines: &[DiffLine],
    variables: u16,
) -> Result<Vec<bool>, AllocError>
    requires { ReadVariablesBelow variables lines.now }
    ensures length { IfOk result (λ reads. length reads.items ≡ variables) }
    ensures read { IfOk result (λ reads. AreRead lines.now reads.items) }
{
    let mut reads = vec![in alloc; false; variables as usize]?;
    for line in lines {
        if let DiffLine::Branch { variable, .. } = *line {
            reads[variable as usize] = true;
        }
    }
    Ok(reads)
}

/// Whether a line's function can still be 1 if the first variables have these bits, by whether those of its two places
/// can.
fn is_satisfiable(line: DiffLine, bits: &[bool], satisfiable: &[bool]) -> bool
    requires { (d low high : ℕ) → line ≡ DiffLine.Branch d low high → (low < length satisfiable.now) × (high < length satisfiable.now) }
    ensures { result ≡ line_satisfiable bits.now satisfiable.now line }
{
    match line {
        DiffLine::Terminal(value) => value,
        DiffLine::Branch {
            variable,
            low,
            high,
        } => {
            let (low, high) = (satisfiable[low as usize], satisfiable[high as usize]);
            match bits.get(variable as usize) {
                Some(true) => high,
                Some(false) => low,
                None => low || high,
            }
        }
    }
}

/// Finds for each line whether its function can still be 1 if the first variables have these bits, from the lowest
/// level up.
fn find_satisfiable(lines: &[DiffLine], bits: &[bool], satisfiable: &mut [bool])
    requires lines { AreInOrder lines.now }
    requires one_per_line { length satisfiable.old ≡ length lines.now }
    ensures { AreSatisfiable lines.now bits.now satisfiable.new }
{
    for place in 0..lines.len() {
        satisfiable[place] = is_satisfiable(lines[place], bits, satisfiable);
    }
}

/// Returns the least assignment in declared order at which two functions differ: the least in lexicographic order, with
/// 0 before 1, the bit of the first declared variable first. Returns none if they agree everywhere. `order` has, for
/// each level from the top, the place of its variable as declared. The result is the same for every order of the
/// levels. If both functions were conjoined with a condition, the result satisfies it. Fails if memory is refused.
pub fn least_difference_declared(
    alloc: Global,
    store: &Store,
    f: Ref,
    g: Ref,
    order: &[u16],
) -> Result<Option<Vec<bool>>, AllocError>
    requires first_in_store { Has store.now f }
    requires second_in_store { Has store.now g }
    requires order { IsOrder store.now.levels order.now }
    ensures least { IfOk result (λ found. MatchOption found (Agree store.now.levels (den store.now f) (den store.now g)) (λ bits.
        IsLeastDifferenceDeclared store.now.levels order.now (den store.now f) (den store.now g) bits.items)) }
{
    let variables = store.levels();
    if same(f, g) {
        return Ok(None);
    }
    let mut table = DiffTable {
        lines: Vec::new(alloc),
        places: HashMap::new(alloc),
    };
    let root = place_of(store, order, &mut table, f, g)?;
    let lines = table.lines.as_slice();
    let reads = variables_read(alloc, lines, variables)?;
    let mut satisfiable = vec![in alloc; false; lines.len()]?;
    let mut bits = Vec::new(alloc);
    for variable in 0..variables {
        bits.push(false)?;
        if reads[variable as usize] {
            find_satisfiable(lines, bits.as_slice(), satisfiable.as_mut_slice());
            if !satisfiable[root as usize] {
                bits[variable as usize] = true;
            }
        }
    }
    Ok(Some(bits))
}

/// Returns an assignment in declared order as one by level, as `value` takes it.
pub fn by_level(alloc: Global, bits: &[bool], order: &[u16]) -> Result<Vec<bool>, AllocError>
    requires { IsOrder (length bits.now) order.now }
    ensures { IfOk result (λ levels. levels.items ≡ assignment_by_level order.now bits.now) }
{
    let mut levels = Vec::new(alloc);
    for level in 0..order.len() {
        levels.push(bits[order[level] as usize])?;
    }
    Ok(levels)
}

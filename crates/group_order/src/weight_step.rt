//! One assignment of weights. After Minato, Ishiura and Yajima, "Shared binary decision diagram with attributed edges
//! for efficient Boolean function manipulation", DAC 1990.
ghost use Rattle.std.specs.Prelude.{◌≡◌, ◌<◌, ◌⊎◌, [], fold, length, map, slice_index_or, slice_set, IfOk, true};
ghost use Rattle.group_order.specs.Weights.{all_dead, heavier, heaviest, is_dead, living, part_of, with_dead_gate, with_dead_gates, with_part, with_parts, with_visit};

use crate::tables::place_at;
use net_order::tables::{number_at, put};
use std::alloc::{AllocError, Global};

/// The weight of a root, 2^60: large enough that parts are seldom rounded to 0.
pub const ROOT_WEIGHT: u64 = 1_152_921_504_606_846_976;

/// The operands of a gate; none if there is no such gate.
fn operands_at(operands: &[Vec<usize>], gate: usize) -> &[usize]
    ensures { result.now ≡ slice_index_or (map (λ l. l.items) operands.now) gate [] }
{
    match operands.get(gate) {
        Some(list) => list.as_slice(),
        None => &[],
    }
}

/// Whether the gate or variable of this number is dead.
pub fn is_dead(dead: &[bool], number: usize) -> bool
    ensures { result ≡ is_dead dead.now number }
{
    dead.get(number).copied().unwrap_or(false)
}

/// Notes the gate or variable of this number as dead.
pub fn put_dead(dead: &mut Vec<bool>, number: usize)
    ensures { dead.new.items ≡ slice_set dead.old.items number true }
{
    if number < dead.len() {
        dead[number] = true;
    }
}

/// Whether all of these are dead.
fn all_dead(dead: &[bool], numbers: &[usize]) -> bool
    ensures { result ≡ all_dead dead.now numbers.now }
{
    let mut all = true;
    for number in numbers {
        all = all && is_dead(dead, *number);
    }
    all
}

/// Notes a gate as dead if all its operands are.
fn put_dead_gate(dead: &mut Vec<bool>, operands: &[Vec<usize>], gate: usize)
    ensures { dead.new.items ≡ with_dead_gate (map (λ l. l.items) operands.now) dead.old.items gate }
{
    if all_dead(dead.as_slice(), operands_at(operands, gate)) {
        put_dead(dead, gate);
    }
}

/// Notes those of these gates as dead all of whose operands are. The gates come by falling rank, and are visited from the last.
pub fn put_dead_gates(dead: &mut Vec<bool>, operands: &[Vec<usize>], gates: &[usize])
    ensures { dead.new.items ≡ with_dead_gates (map (λ l. l.items) operands.now) dead.old.items gates.now }
{
    let mut place = gates.len();
    while place > 0 {
        place -= 1;
        put_dead_gate(dead, operands, gates[place]);
    }
}

/// Those of these numbers that are not dead.
pub fn living(alloc: Global, dead: &[bool], numbers: &[usize]) -> Result<Vec<usize>, AllocError>
    ensures { IfOk result (λ v. v.items ≡ living dead.now numbers.now) }
{
    numbers
        .iter()
        .copied()
        .filter(|number| !is_dead(dead, *number))
        .collect(alloc)
}

/// How many of these numbers are not dead.
fn count_living(dead: &[bool], numbers: &[usize]) -> usize
    ensures { result ≡ length (living dead.now numbers.now) }
{
    numbers
        .iter()
        .filter(|number| !is_dead(dead, **number))
        .count()
}

/// The part of a weight for each of `count`, rounded down.
fn part_of(weight: u64, count: u64) -> u64
    ensures { result ≡ part_of weight count }
{
    if count == 0 { 0 } else { weight / count }
}

/// Adds a part to the weight of an operand, unless it is dead.
fn add_part(weights: &mut Vec<u64>, dead: &[bool], part: u64, number: usize)
    ensures { weights.new.items ≡ with_part dead.now part weights.old.items number }
{
    if is_dead(dead, number) {
        return;
    }
    let weight = number_at(weights.as_slice(), number).saturating_add(part);
    put(weights, number, weight);
}

/// Adds a part to the weight of each of these operands that is not dead.
fn add_parts(weights: &mut Vec<u64>, dead: &[bool], part: u64, numbers: &[usize])
    ensures { weights.new.items ≡ fold (with_part dead.now part) weights.old.items numbers.now }
{
    for number in numbers {
        add_part(weights, dead, part, *number);
    }
}

/// Gives a gate's weight to those of its operands that are not dead, in equal parts. An operand that is there twice gets two.
pub fn give_parts(weights: &mut Vec<u64>, operands: &[Vec<usize>], dead: &[bool], gate: usize)
    ensures { weights.new.items ≡ with_parts (map (λ l. l.items) operands.now) dead.now weights.old.items gate }
{
    let inputs = operands_at(operands, gate);
    let count = count_living(dead, inputs) as u64;
    let part = part_of(number_at(weights.as_slice(), gate), count);
    put(weights, gate, 0);
    add_parts(weights, dead, part, inputs);
}

/// That of two places whose number is heavier; `best` if both weigh the same.
fn heavier(weights: &[u64], numbers: &[usize], best: usize, place: usize) -> usize
    ensures value { result ≡ heavier weights.now numbers.now best place }
    ensures one { (result ≡ best) ⊎ (result ≡ place) }
{
    let weight = number_at(weights, place_at(numbers, place));
    if number_at(weights, place_at(numbers, best)) < weight {
        place
    } else {
        best
    }
}

/// The place of the heaviest of these numbers, the first of several.
#[tactic(auto, unfolding(crate::specs::Weights::heaviest))]
pub fn heaviest(weights: &[u64], numbers: &[usize]) -> usize
    requires { 0 < length numbers.now }
    ensures value { result ≡ heaviest weights.now numbers.now }
    ensures in_bounds { result < length numbers.now }
{
    let mut best = 0;
    for place in 0..numbers.len() {
        best = heavier(weights, numbers, best, place);
    }
    best
}

/// The number of visits with those of these gates: each counts once, and once more for each 32 of its operands.
pub fn visits_after(visits: u64, operands: &[Vec<usize>], gates: &[usize]) -> u64
    ensures { result ≡ fold (with_visit (map (λ l. l.items) operands.now)) visits gates.now }
{
    let mut visits = visits;
    for gate in gates {
        let places = operands_at(operands, *gate).len() as u64;
        visits = visits.saturating_add(places / 32 + 1);
    }
    visits
}

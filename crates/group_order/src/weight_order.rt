//! The variables by dynamic weight assignment. After Minato, Ishiura and Yajima, "Shared binary decision diagram with
//! attributed edges for efficient Boolean function manipulation", DAC 1990.
ghost use Rattle.std.specs.Prelude.{◌≡◌, ◌<◌, ◌+◌, [], fold, length, map, min, slice_set, IfOk, OnOk};
ghost use Rattle.net_order.specs.Force.{numbers_below, u64_max};
ghost use Rattle.group_order.specs.Weights.{all_by_weight, assigned, begun, heaviest_of, turns, visits_after, with_parts, without_heaviest};
ghost use Rattle.group_order.specs.WeightCones.{numbered_variables, with_cone, with_placed, with_root_variables, with_side_placed, weighed};

use crate::sides::IndexedNetlist;
use crate::tables::place_at;
use crate::weight_cones::WeightCones;
use crate::weight_step::{
    ROOT_WEIGHT, give_parts, heaviest, living, put_dead, put_dead_gates, visits_after,
};
use net_order::tables::{number_at, numbers_below, put};
use std::alloc::{AllocError, Global};
use std::marker::Model;

/// From so many visits of gates on, weights are assigned only once for each root. It bounds the time.
const MAX_VISITS: u64 = 1_000_000;

/// The gates and variables below one root, by their numbers among these. A placed variable is dead, and a gate without live operands.
#[derive(Drop)]
struct WeightState {
    dead: Vec<bool>,
    /// The weights of one assignment. Between two assignments all are 0.
    weights: Vec<u64>,
    /// The gates that were not dead at the last assignment, by falling rank.
    gates: Vec<usize>,
    /// The variables that are not placed, in declared order.
    live: Vec<usize>,
}

impl Model for WeightState {
    ghost use Rattle.group_order.specs.Weights.{Weighing};

    ghost Value = { Weighing };

    ghost view = { λ w. record { dead = w.dead.items; weights = w.weights.items; gates = w.gates.items; live = w.live.items } };
}

/// The variables of one root in the order in which they were placed, by their numbers, and how many visits of gates there were.
#[derive(Drop)]
struct TurnsTaken {
    order: Vec<usize>,
    visits: u64,
}

impl Model for TurnsTaken {
    ghost use Rattle.group_order.specs.Weights.{Placing};

    ghost Value = { Placing };

    ghost view = { λ t. record { order = t.order.items; visits = t.visits } };
}

/// The numbers of so many variables, which come after those of the gates.
fn numbers_after(alloc: Global, gates: usize, variables: usize) -> Result<Vec<usize>, AllocError>
    ensures { IfOk result (λ v. v.items ≡ map (λ k. min (gates + k) u64_max) (numbers_below variables)) }
{
    let mut numbers = Vec::new(alloc);
    for place in 0..variables {
        numbers.push(gates.saturating_add(place))?;
    }
    Ok(numbers)
}

/// Writes 0 at these places.
fn clear(table: &mut Vec<u64>, places: &[usize])
    ensures { table.new.items ≡ fold (λ t k. slice_set t k 0) table.old.items places.now }
{
    for place in places {
        put(table, *place, 0);
    }
}

/// Gives the weight of each of these gates to its operands, gate after gate.
fn give_all_parts(weights: &mut Vec<u64>, operands: &[Vec<usize>], dead: &[bool], gates: &[usize])
    ensures { weights.new.items ≡ fold (with_parts (map (λ l. l.items) operands.now) dead.now) weights.old.items gates.now }
{
    for gate in gates {
        give_parts(weights, operands, dead, *gate);
    }
}

impl WeightState {
    /// The state in which nothing is dead or placed.
    #[tactic(auto, unfolding(crate::specs::Weights::begun))]
    fn new(alloc: Global, gates: usize, variables: usize) -> Result<WeightState, AllocError>
        ensures { IfOk result (λ w. w ≡ begun gates variables) }
    {
        let count = gates.saturating_add(variables);
        let dead = Vec::from_elem(alloc, false, count)?;
        let weights = Vec::from_elem(alloc, 0u64, count)?;
        let live = numbers_after(alloc, gates, variables)?;
        let gates = numbers_below(alloc, gates)?;
        Ok(WeightState {
            dead,
            weights,
            gates,
            live,
        })
    }

    /// Assigns weights: the root's goes down through the gates, shared by the operands that are not dead.
    #[tactic(auto, unfolding(crate::specs::Weights::assigned))]
    fn assign(&mut self, alloc: Global, operands: &[Vec<usize>]) -> Result<(), AllocError>
        ensures { OnOk result (self.new ≡ assigned (map (λ l. l.items) operands.now) self.old) }
    {
        put_dead_gates(&mut self.dead, operands, self.gates.as_slice());
        let gates = living(alloc, self.dead.as_slice(), self.gates.as_slice())?;
        self.gates = gates;
        put(&mut self.weights, 0, ROOT_WEIGHT);
        give_all_parts(
            &mut self.weights,
            operands,
            self.dead.as_slice(),
            self.gates.as_slice(),
        );
        Ok(())
    }

    /// The number of visits, with those of the last assignment.
    fn visits_after(&self, operands: &[Vec<usize>], visits: u64) -> u64
        ensures { result ≡ visits_after (map (λ l. l.items) operands.now) self.now visits }
    {
        visits_after(visits, operands, self.gates.as_slice())
    }

    /// Places the variable of the greatest weight, and clears all weights.
    #[tactic(auto, unfolding(crate::specs::Weights::without_heaviest))]
    fn take_heaviest(&mut self) -> usize
        requires { 0 < length self.old.live }
        ensures number { result ≡ heaviest_of self.old }
        ensures taken { self.new ≡ without_heaviest self.old }
        ensures fewer { length self.new.live + 1 ≡ length self.old.live }
    {
        let place = heaviest(self.weights.as_slice(), self.live.as_slice());
        clear(&mut self.weights, self.live.as_slice());
        let number = self.live.remove(place);
        put_dead(&mut self.dead, number);
        number
    }

    /// The variables that are not placed, by falling weight; those of equal weight in declared order.
    #[tactic(auto, unfolding(crate::specs::Weights::all_by_weight))]
    fn all_by_weight(&self, alloc: Global) -> Result<Vec<usize>, AllocError>
        ensures { IfOk result (λ v. v.items ≡ all_by_weight self.now) }
    {
        let weights = self.weights.as_slice();
        let mut taken = Vec::from_slice(alloc, self.live.as_slice())?;
        taken.sort_by_key(|number| u64::MAX - number_at(weights, *number))?;
        Ok(taken)
    }
}

/// Places the variables below one root, each by an assignment of its own. Once there were too many visits, one more
/// assignment places all that remain.
fn take_turns(
    alloc: Global,
    operands: &[Vec<usize>],
    variables: usize,
    visits: u64,
) -> Result<TurnsTaken, AllocError>
    ensures { IfOk result (λ t. t ≡ turns (map (λ l. l.items) operands.now) variables (begun (length operands.now) variables) (record { order = []; visits = visits })) }
{
    let mut state = WeightState::new(alloc, operands.len(), variables)?;
    let mut order = Vec::new(alloc);
    let mut visits = visits;
    for _turn in 0..variables {
        state.assign(alloc, operands)?;
        visits = state.visits_after(operands, visits);
        if visits >= MAX_VISITS {
            let rest = state.all_by_weight(alloc)?;
            order.extend_from_slice(rest.as_slice())?;
            return Ok(TurnsTaken { order, visits });
        }
        order.push(state.take_heaviest())?;
    }
    Ok(TurnsTaken { order, visits })
}

/// The variables placed so far, in their order; for each variable whether it is placed; and how many visits of gates there were.
#[derive(Drop)]
struct Placement {
    order: Vec<usize>,
    placed: Vec<bool>,
    visits: u64,
}

impl Model for Placement {
    ghost use Rattle.group_order.specs.WeightCones.{Placed};

    ghost Value = { Placed };

    ghost view = { λ p. record { order = p.order.items; placed = p.placed.items; visits = p.visits } };
}

/// The variables of these numbers. The first `gates` numbers are those of gates.
fn variables_of(
    alloc: Global,
    variables: &[usize],
    gates: usize,
    numbers: &[usize],
) -> Result<Vec<usize>, AllocError>
    ensures { IfOk result (λ v. v.items ≡ numbered_variables variables.now gates numbers.now) }
{
    numbers
        .iter()
        .map(|number| place_at(variables, number.saturating_sub(gates)))
        .collect(alloc)
}

/// Notes these variables as placed.
fn put_placed(placed: &mut Vec<bool>, variables: &[usize])
    ensures { placed.new.items ≡ fold with_placed placed.old.items variables.now }
{
    for variable in variables {
        put_dead(placed, *variable);
    }
}

impl Placement {
    /// Places the variables below a root.
    fn place_cone(
        &mut self,
        alloc: Global,
        side: &IndexedNetlist<'_>,
        cones: &WeightCones,
        root: usize,
    ) -> Result<(), AllocError>
        ensures { OnOk result (self.new ≡ with_cone side.now cones.now self.old root) }
    {
        let variables = cones.variables(root);
        let operands = cones.operands(alloc, side, root)?;
        let turned = take_turns(alloc, operands.as_slice(), variables.len(), self.visits)?;
        let found = variables_of(alloc, variables, operands.len(), turned.order.as_slice())?;
        self.order.extend_from_slice(found.as_slice())?;
        put_placed(&mut self.placed, found.as_slice());
        self.visits = turned.visits;
        Ok(())
    }

    /// Places the variables below a root, if there are any.
    fn place_root(
        &mut self,
        alloc: Global,
        side: &IndexedNetlist<'_>,
        cones: &WeightCones,
        root: usize,
    ) -> Result<(), AllocError>
        ensures { OnOk result (self.new ≡ with_root_variables side.now cones.now self.old root) }
    {
        if cones.variables(root).len() == 0 {
            return Ok(());
        }
        self.place_cone(alloc, side, cones, root)
    }

    /// Places the variables of a netlist that are not placed yet, root by root.
    #[tactic(auto, unfolding(crate::specs::WeightCones::with_side_placed))]
    fn place_side(&mut self, alloc: Global, side: &IndexedNetlist<'_>) -> Result<(), AllocError>
        ensures { OnOk result (self.new ≡ with_side_placed self.old side.now) }
    {
        let cones = WeightCones::new(alloc, side, self.placed.as_slice())?;
        for root in 0..cones.len() {
            self.place_root(alloc, side, &cones, root)?;
        }
        Ok(())
    }
}

/// The variables below the roots of two netlists by dynamic weight assignment, first of the netlist with fewer gates.
#[tactic(auto, unfolding(crate::specs::WeightCones::weighed))]
pub fn weighed(
    alloc: Global,
    count: usize,
    first: &IndexedNetlist<'_>,
    second: &IndexedNetlist<'_>,
) -> Result<Vec<usize>, AllocError>
    ensures { IfOk result (λ v. v.items ≡ weighed count first.now second.now) }
{
    let mut placement = Placement {
        order: Vec::new(alloc),
        placed: Vec::from_elem(alloc, false, count)?,
        visits: 0,
    };
    if second.net().gates().len() < first.net().gates().len() {
        placement.place_side(alloc, second)?;
        placement.place_side(alloc, first)?;
    } else {
        placement.place_side(alloc, first)?;
        placement.place_side(alloc, second)?;
    }
    Ok(placement.order)
}

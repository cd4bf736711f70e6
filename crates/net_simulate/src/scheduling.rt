//! How a schedule is made of the gates of each rank.
ghost use Rattle.std.specs.Prelude.{◌≡◌, ◌<◌, ◌+◌, ◌∷◌, ◌++◌, [], length, map, IfOk, OnOk, MatchOption};
ghost use Rattle.net_bench.specs.Circuit.{IsNet, gate_of};
ghost use Rattle.net_simulate.specs.RankRows.{AreRows};
ghost use Rattle.net_simulate.specs.Schedules.{IsSchedule, IsScheduledTo, equation_of};

use crate::ranked::gates_by_rank;
use crate::schedule::Schedule;
use net_bench::netlist::{Netlist, Role, Signal};
use std::alloc::{AllocError, Global};

/// Appends the gate of a signal, if it has one.
fn add_gate(schedule: &mut Schedule, net: &Netlist, signal: Signal) -> Result<(), AllocError>
    requires { signal < length net.now.names }
    ensures { OnOk result (MatchOption (gate_of net.now.gates signal) (schedule.new ≡ schedule.old)
        (λ g. schedule.new ≡ schedule.old ++ equation_of g ∷ [])) }
{
    let Role::Gate(place) = net.role(signal) else {
        return Ok(());
    };
    let gate = &net.gates()[place as usize];
    schedule.push(gate)?;
    Ok(())
}

/// Appends the gates of one rank, after those of lower ranks.
fn add_row(
    schedule: &mut Schedule,
    net: &Netlist,
    rows: &[Vec<Signal>],
    place: usize,
) -> Result<(), AllocError>
    requires rows { AreRows net.now (map (λ w. w.items) rows.now) }
    requires place { place < length rows.now }
    requires done { IsScheduledTo net.now schedule.old place place [] }
    requires sound { IsNet net.now }
    ensures { OnOk result (IsScheduledTo net.now schedule.new (place + 1) (place + 1) []) }
{
    let row = rows[place].as_slice();
    for i in 0..row.len() {
        add_gate(schedule, net, row[i])?;
    }
    Ok(())
}

/// The gates of a netlist by rising rank, those of one rank in the order of the text. Time and memory are linear in the
/// netlist.
pub fn schedule_of(alloc: Global, net: &Netlist) -> Result<Schedule, AllocError>
    ensures schedule { IfOk result (IsSchedule net.now) }
    ensures sound { IsNet net.now }
{
    let table = gates_by_rank(alloc, net)?;
    let rows = table.as_slice();
    let mut schedule = Schedule::new(alloc);
    for place in 0..rows.len() {
        add_row(&mut schedule, net, rows, place)?;
    }
    Ok(schedule)
}

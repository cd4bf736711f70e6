//! What a worker sends to others.
ghost use Rattle.std.specs.Prelude.{◌≡◌, ℕ, ◌<◌, [], ◌∷◌, length, map, slice_set, All, OnOk};
ghost use Rattle.req_table.specs.declared.Item.TheVariants.{End};
ghost use Rattle.req_table.specs.Lanes.{ends, MayFollow};
ghost use Rattle.lane_queue.specs.Loads.{ask_of};
ghost use Rattle.lane_queue.specs.PortView.{sent_to, IsPortOf, MayBeSent, lanes_scope};
ghost use Rattle.expand_work.specs.Parts.{bundles};
ghost use Rattle.expand_work.specs.Due.{IsLeft};
ghost use Rattle.req_table.specs.Places.{row as at};
ghost use Rattle.expand_work.specs.Work.{MaySend, SentTo, SentToAll, put_items, put_loads};

use crate::due::Due;
use lane_queue::{Bundle, Lanes, Load, Port};
use std::alloc::AllocError;
use std::sync::Wait;

// Sends a bundle to the worker `to`.
fn send_bundle<R: Wait>(
    rt: &R,
    lanes: &Lanes,
    port: &mut Port,
    to: u32,
    asks: Bundle,
) -> Result<(), AllocError>
    requires port { IsPortOf lanes.now port.old }
    requires to { to < length lanes.now.lanes }
    requires some { 0 < length asks }
    requires may { All (MayFollow (lanes_scope lanes.now) (ends (sent_to port.old to))) (map (ask_of port.old.number) asks) }
    requires leave { All (MayBeSent (lanes_scope lanes.now) port.old.taken (ends (sent_to port.old to)))
        (map (ask_of port.old.number) asks) }
    ensures { OnOk result (SentTo port.old port.new to (map (ask_of port.old.number) asks) 1) }
{
    let from = port.number();
    let Ok(_) = lanes.send(rt, port, to, Load::Bundle { from, asks }) else {
        return Err(AllocError);
    };
    Ok(())
}

// Sends what is due from the worker `to`, bundle by bundle.
fn send_asks<R: Wait>(
    rt: &R,
    lanes: &Lanes,
    port: &mut Port,
    to: u32,
    due: &mut Due,
) -> Result<(), AllocError>
    requires port { IsPortOf lanes.now port.old }
    requires to { to < length lanes.now.lanes }
    requires long { length due.old ≡ length lanes.now.lanes }
    requires may { MaySend lanes.now port.old to (at due.old to) }
    ensures sent { OnOk result (SentTo port.old port.new to (map (ask_of port.old.number) (at due.old to))
        (bundles (length (at due.old to)))) }
    ensures removed { OnOk result (due.new ≡ slice_set due.old to []) }
{
    while let Some(asks) = due.take(to) {
        send_bundle(rt, lanes, port, to, asks)?;
    }
    Ok(())
}

/// Sends to every other worker what is due from it. What is due from this worker itself remains due.
pub fn send_due<R: Wait>(
    rt: &R,
    lanes: &Lanes,
    port: &mut Port,
    due: &mut Due,
) -> Result<(), AllocError>
    requires port { IsPortOf lanes.now port.old }
    requires long { length due.old ≡ length lanes.now.lanes }
    requires may { (k : ℕ) → k < length lanes.now.lanes → MaySend lanes.now port.old k (at due.old k) }
    ensures sent { OnOk result (SentToAll port.old port.new (length lanes.now.lanes)
        (put_items port.old.number (at due.old)) (put_loads port.old.number (at due.old))) }
    ensures left { OnOk result (IsLeft port.old.number due.old due.new) }
{
    let own = port.number();
    for to in 0..lanes.count() {
        if to != own {
            send_asks(rt, lanes, port, to, due)?;
        }
    }
    Ok(())
}

/// Puts an End of the level on every lane, the worker's own too.
pub fn send_ends<R: Wait>(
    rt: &R,
    lanes: &Lanes,
    port: &mut Port,
    level: u16,
) -> Result<(), AllocError>
    requires port { IsPortOf lanes.now port.old }
    requires level { level < lanes.now.sizes.levels }
    requires ended { (k : ℕ) → k < length lanes.now.lanes → ends (sent_to port.old k) ≡ level }
    ensures { OnOk result (SentToAll port.old port.new (length lanes.now.lanes)
        (λ k. End port.old.number level ∷ []) (λ k. 1)) }
{
    let from = port.number();
    for to in 0..lanes.count() {
        let Ok(_) = lanes.send(rt, port, to, Load::End { from, level }) else {
            return Err(AllocError);
        };
    }
    Ok(())
}

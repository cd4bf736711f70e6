//! What a worker takes from its lane, and what it keeps for itself.
ghost use Rattle.std.specs.Prelude.{◌≡◌, ◌<◌, [], false, length, map, slice_set, All, IfOk, OnOk};
ghost use Rattle.req_table.specs.Lanes.{IsClosed};
ghost use Rattle.lane_queue.specs.PortView.{sent_to, IsPortOf, lanes_scope};
ghost use Rattle.req_table.specs.Lanes.{sent_by};
ghost use Rattle.lane_queue.specs.Loads.{ask_of};
ghost use Rattle.req_table.specs.Places.{row as at};
ghost use Rattle.expand_work.specs.Work.{MaySend, HasKept, Offered, IsReceived, StaysClosed};
ghost use Rattle.expand_work.specs.PlacesBySender.{IsNoted, NotesPlaces};

use crate::context::WaveContext;
use crate::due::Due;
use crate::end_counts::EndCounts;
use crate::lists::PlacesBySender;
use crate::tables::Tables;
use crate::{BundlePool, WorkFault};
use crossbeam_utils::Backoff;
use lane_queue::{Lanes, Load, Port};
use req_table::Key;
use std::alloc::AllocError;
use std::sync::Wait;
use std::sync::atomic::Ordering;

/// What a worker knows of each sender.
#[derive(Drop)]
pub struct Senders {
    /// How many levels each sender has ended.
    pub clock: EndCounts,
    /// By sender the places of the requests that were taken of it.
    pub noted: PlacesBySender,
    /// Bundles that were taken, to be filled again.
    pub spare: BundlePool,
}

// Admits the requests of a sender's bundle to the tables of their levels, and notes their places.
fn admit_all(
    tables: &mut Tables,
    noted: &mut PlacesBySender,
    from: u32,
    asks: &[(u16, Key)],
) -> Result<(), AllocError>
    requires levels { All (λ a. a.0 < length tables.old) asks.now }
    requires from { from < length noted.old }
    ensures offered { OnOk result (Offered asks.now tables.old tables.new) }
    ensures noted { OnOk result (NotesPlaces from asks.now tables.old tables.new noted.old noted.new) }
{
    for ask in asks {
        let (level, key) = *ask;
        let place = tables.admit(level, key)?;
        noted.push(from, place)?;
    }
    Ok(())
}

// Keeps these requests: for contracts the port has sent and taken them. The port must have taken all that it has sent
// to itself.
fn keep_all(lanes: &Lanes, port: &mut Port, asks: &[(u16, Key)])
    requires port { IsPortOf lanes.now port.old }
    requires may { MaySend lanes.now port.old port.old.number asks.now }
    requires taken { sent_by port.old.number port.old.taken ≡ sent_to port.old port.old.number }
    ensures kept { HasKept port.old port.new (map (ask_of port.old.number) asks.now) }
    ensures taken { sent_by port.new.number port.new.taken ≡ sent_to port.new port.new.number }
{
    let _lanes = lanes; // For the proof.
    for ask in asks {
        let (level, key) = *ask;
        port.keep(level, key);
    }
}

/// Keeps what is due from the worker itself, bundle by bundle.
pub fn keep_own(
    lanes: &Lanes,
    port: &mut Port,
    senders: &mut Senders,
    tables: &mut Tables,
    due: &mut Due,
) -> Result<(), AllocError>
    requires port { IsPortOf lanes.now port.old }
    requires long { length due.old ≡ length lanes.now.lanes }
    requires may { MaySend lanes.now port.old port.old.number (at due.old port.old.number) }
    requires taken { sent_by port.old.number port.old.taken ≡ sent_to port.old port.old.number }
    requires received { IsReceived (lanes_scope lanes.now) port.old.taken senders.old.clock tables.old }
    requires noted { IsNoted (length lanes.now.lanes) port.old.taken tables.old senders.old.noted }
    ensures kept { OnOk result (HasKept port.old port.new (map (ask_of port.old.number) (at due.old port.old.number))) }
    ensures received { OnOk result (IsReceived (lanes_scope lanes.now) port.new.taken senders.new.clock tables.new) }
    ensures stays { OnOk result
        (StaysClosed (lanes_scope lanes.now) port.old.taken port.new.taken tables.old tables.new) }
    ensures noted { OnOk result (IsNoted (length lanes.now.lanes) port.new.taken tables.new senders.new.noted) }
    ensures removed { OnOk result (due.new ≡ slice_set due.old port.old.number []) }
{
    let own = port.number();
    while let Some(bundle) = due.take(own) {
        let asks = bundle.asks();
        keep_all(lanes, port, asks);
        admit_all(tables, &mut senders.noted, own, asks)?;
        senders.spare.put(bundle);
    }
    Ok(())
}

// Takes one load if there is one: counts an End, or admits the requests of a bundle. Returns false if there was none;
// then the worker has taken all that it has sent to itself.
fn take_one<R: Wait>(
    rt: &R,
    lanes: &Lanes,
    port: &mut Port,
    senders: &mut Senders,
    tables: &mut Tables,
) -> Result<bool, WorkFault>
    requires port { IsPortOf lanes.now port.old }
    requires received { IsReceived (lanes_scope lanes.now) port.old.taken senders.old.clock tables.old }
    requires noted { IsNoted (length lanes.now.lanes) port.old.taken tables.old senders.old.noted }
    ensures same { OnOk result (port.new ≡ record port.old { popped = port.new.popped; taken = port.new.taken }) }
    ensures received { OnOk result (IsReceived (lanes_scope lanes.now) port.new.taken senders.new.clock tables.new) }
    ensures stays { OnOk result
        (StaysClosed (lanes_scope lanes.now) port.old.taken port.new.taken tables.old tables.new) }
    ensures noted { OnOk result (IsNoted (length lanes.now.lanes) port.new.taken tables.new senders.new.noted) }
    ensures empty { IfOk result (λ some. some ≡ false
        → sent_by port.new.number port.new.taken ≡ sent_to port.new port.new.number) }
{
    let Some(load) = lanes.take(rt, port) else {
        return Ok(false);
    };
    match load {
        Load::End { from, level } => senders.clock.note(from, level),
        Load::Bundle { from, asks } => {
            admit_all(tables, &mut senders.noted, from, asks.asks())?;
            senders.spare.put(asks);
        }
    }
    Ok(true)
}

/// Takes loads until every sender has ended the level. While the lane is empty it backs off, and fails with `Stopped`
/// once the flag is set.
pub fn take_until_closed<R: Wait>(
    rt: &R,
    context: WaveContext<'_>,
    port: &mut Port,
    senders: &mut Senders,
    tables: &mut Tables,
    level: u16,
) -> Result<(), WorkFault>
    requires port { IsPortOf context.lanes.now port.old }
    requires received { IsReceived (lanes_scope context.lanes.now) port.old.taken senders.old.clock tables.old }
    requires noted { IsNoted (length context.lanes.now.lanes) port.old.taken tables.old senders.old.noted }
    ensures same { OnOk result (port.new ≡ record port.old { popped = port.new.popped; taken = port.new.taken }) }
    ensures received { OnOk result (IsReceived (lanes_scope context.entry.lanes.now) port.new.taken senders.new.clock tables.new) }
    ensures stays { OnOk result
        (StaysClosed (lanes_scope context.entry.lanes.now) port.old.taken port.new.taken tables.old tables.new) }
    ensures noted { OnOk result (IsNoted (length context.entry.lanes.now.lanes) port.new.taken tables.new senders.new.noted) }
    ensures closed { OnOk result (IsClosed (lanes_scope context.entry.lanes.now) level port.new.taken) }
{
    let WaveContext { lanes, stop, .. } = context;
    let backoff = Backoff::new();
    for round in rt.forever() {
        if senders.clock.closed(level) {
            return Ok(());
        }
        if take_one(rt, lanes, port, senders, tables)? {
            backoff.reset();
        } else {
            if stop.load(Ordering::SeqCst) {
                return Err(WorkFault::Stopped);
            }
            backoff.snooze();
        }
    }
    unreachable!()
}

//! All events of a number of workers, in the order in which `drive` numbers the allowed ones.
ghost use Rattle.std.specs.Prelude.{◌≡◌, ◌++◌, IfOk, OnOk};
ghost use Rattle.wave_core.specs.Drive.{sends, ends_of, events_of, events_below};

use crate::Event;
use std::alloc::{AllocError, Global};

fn add_sends(events: &mut Vec<Event>, workers: u32, by: u32) -> Result<(), AllocError>
    ensures { OnOk result (events.new.items ≡ events.old.items ++ sends by workers) }
{
    for to in 0..workers {
        events.push(Event::Send { by, to })?;
    }
    Ok(())
}

fn add_ends(events: &mut Vec<Event>, workers: u32, by: u32) -> Result<(), AllocError>
    ensures { OnOk result (events.new.items ≡ events.old.items ++ ends_of by workers) }
{
    for to in 0..workers {
        events.push(Event::End { by, to })?;
    }
    Ok(())
}

fn add_events(events: &mut Vec<Event>, workers: u32, by: u32) -> Result<(), AllocError>
    ensures { OnOk result (events.new.items ≡ events.old.items ++ events_of workers by) }
{
    add_sends(events, workers, by)?;
    add_ends(events, workers, by)?;
    events.push(Event::Take { by })?;
    events.push(Event::Expand { by })?;
    events.push(Event::Advance { by })?;
    events.push(Event::Keep { by })?;
    Ok(())
}

/// Returns the events of all workers: by worker, and then by kind in the order Send, End, Take, Expand, Advance, Keep.
/// Fails if memory is refused.
pub fn all_events(alloc: Global, workers: u32) -> Result<Vec<Event>, AllocError>
    ensures { IfOk result (λ events. events.items ≡ events_below workers workers) }
{
    let mut events = Vec::new(alloc);
    for by in 0..workers {
        add_events(&mut events, workers, by)?;
    }
    Ok(events)
}

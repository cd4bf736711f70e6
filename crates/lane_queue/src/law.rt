//! What holds of a lane between any two atomic steps.
ghost use Rattle.std.specs.Prelude.{◌≡◌, ◌<◌, List, length, slice_index_or};
ghost use Rattle.std.specs.declared.alloc.Global.{Global};
ghost use mathlib.Core.Option.{some};
ghost use lib.ListN.{get_elem?};
ghost use Rattle.crossbeam_queue.specs.SegTies.{SegId, IsSegPassOf};
ghost use Rattle.lane_queue.specs.declared.load.Load.{Load};
ghost use Rattle.lane_queue.specs.declared.rule.View.{View};
ghost use Rattle.lane_queue.specs.Ports.{terms_of};
ghost use Rattle.lane_queue.specs.PortView.{IsPortOf, AgreesWithOwnLane};
ghost use Rattle.lane_queue.specs.Joining.{pass_view};
ghost use Rattle.lane_queue.specs.Between.{Lawful, Between};

use crate::rule::{HasRule, LanePass, Queue};
use crate::{Lanes, Port};

/// Gives a caller the law of a lane. Between any two atomic steps of any schedule the rule of the lane's queue holds of
/// the loads that wait and of what the passes know. From the rule follows (`always`) that each port has its pass, that
/// the passes' lists obey the law of the lane with what waits, and that they are fair. If the passes have among them,
/// under its number, the one that is returned here, they have the lane's own terms (`lawful`): the number of workers,
/// the owner, and the sizes of the store. The rule is about what went through the lane; of a port's own lane that is
/// what the port sent to itself and took, without the requests that it kept (`kept`).
///
/// The function only returns this pass, to name the lane's queue and what the pass knows. It makes no step.
pub fn between_steps<'a>(lanes: &Lanes, port: &'a Port, owner: u32) -> &'a LanePass
    requires port { IsPortOf lanes.now port.now }
    requires owner { owner < length lanes.now.lanes }
    ensures queue { (q : SegId Global) → IsSegPassOf (slice_index_or lanes.now.lanes owner q) result.now }
    ensures knows { result.now.me.view.client ≡ pass_view (length lanes.now.lanes) port.now owner }
    ensures kept { AgreesWithOwnLane port.now }
    ensures always { (loads : List Load) (views : List View)
        → ⟦<Queue as HasRule>⟧.rule loads views → Between loads views }
    ensures lawful { (loads : List Load) (views : List View)
        → ⟦<Queue as HasRule>⟧.rule loads views
        → get_elem? views result.now.id ≡ some result.now.me.view.client
        → Lawful (terms_of (length lanes.now.lanes) owner lanes.now.sizes) loads views }
{
    lanes.pass_of(port, owner)
}

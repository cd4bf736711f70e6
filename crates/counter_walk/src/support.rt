//! The levels on which functions depend. In reduced diagrams these are the levels of the nodes
//! below their references. Each reference is visited once, and the store gets no node.
ghost use Rattle.std.specs.Prelude.{◌⊎◌, ℕ, IfOk, OnOk};
ghost use Rattle.dd_store.specs.Nodes.{den};
ghost use Rattle.dd_store.specs.View.{Has};
ghost use Rattle.counter_walk.specs.Support.{IsSupportOf, AreMarkedBelow, IsMarked, IsSoundWalk, HasNodeBelow};

use dd_store::{Ref, Store};
use std::alloc::{AllocError, Global};
use std::collections::HashSet;

/// The references that a walk has visited, and for each level whether a node of it was visited.
#[derive(Drop)]
struct SupportWalk {
    seen: HashSet<Ref>,
    levels: Vec<bool>,
}

/// Sets the bits of the levels of all nodes below a reference.
fn visit(store: &Store, met: &mut SupportWalk, r: Ref) -> Result<(), AllocError>
    requires in_store { Has store.now r }
    requires met { IsSoundWalk store.now met.old }
    ensures met { OnOk result (IsSoundWalk store.now met.new) }
    ensures keeps { OnOk result ((v : ℕ) → IsMarked met.old v → IsMarked met.new v) }
    ensures all { OnOk result (AreMarkedBelow store.now met.new r) }
    ensures only { OnOk result ((v : ℕ) → IsMarked met.new v → IsMarked met.old v ⊎ HasNodeBelow store.now r v) }
{
    let level = store.top(r);
    if level >= store.levels() || met.seen.contains(&r) {
        return Ok(());
    }
    met.levels[level as usize] = true;
    let (low, high) = store.cofactors(r, level);
    visit(store, met, low)?;
    visit(store, met, high)?;
    met.seen.insert(r)?;
    Ok(())
}

/// Returns a bit for each level, which is set exactly if one of the two functions depends on the bit of the level. The
/// time is linear in the number of nodes of both diagrams. Fails if memory is refused.
pub fn support_of(alloc: Global, store: &Store, f: Ref, g: Ref) -> Result<Vec<bool>, AllocError>
    requires first_in_store { Has store.now f }
    requires second_in_store { Has store.now g }
    ensures { IfOk result (λ levels. IsSupportOf store.now.levels (den store.now f) (den store.now g) levels.items) }
{
    let mut met = SupportWalk {
        seen: HashSet::new(alloc),
        levels: vec![in alloc; false; store.levels() as usize]?,
    };
    visit(store, &mut met, f)?;
    visit(store, &mut met, g)?;
    let SupportWalk { seen: _, levels } = met;
    Ok(levels)
}

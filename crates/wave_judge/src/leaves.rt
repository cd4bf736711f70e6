//! The diagrams of leaves, and of literals whose nodes have diagrams.
ghost use Rattle.std.specs.Prelude.{◌≡◌, [], IfSome, List, OnOk, length};
ghost use Rattle.dd_store.specs.Nodes.{IsSound};
ghost use Rattle.pair_graph.specs.declared.node.Node.{Node};
ghost use Rattle.wave_judge.specs.OverLeaves.{AreDiagramsOver, IsDiagramOver};

use crate::fault::WindowFault;
use cut_window::Window;
use dd_store::{Ref, Store};
use pair_graph::{Graph, Literal};

/// Builds the diagrams of a window's leaves: leaf i is the variable of level i.
pub(crate) fn build_leaves(
    store: &mut Store,
    window: &Window,
    refs: &mut Vec<Ref>,
) -> Result<(), WindowFault>
    requires levels { store.old.levels ≡ window.now.cut }
    requires none { refs.old.items ≡ [] }
    ensures built { OnOk result ((g : List Node) → AreDiagramsOver g window.now store.new refs.new.items) }
    ensures each { OnOk result (length refs.new.items ≡ window.now.cut) }
    ensures sound { IsSound store.new }
{
    let _ = store.levels(); // For the proof.
    let leaves = window.leaves();
    for level in 0..leaves {
        let built = store.variable(level as u16)?;
        let Ok(()) = refs.push(built) else {
            return Err(WindowFault::OutOfMemory);
        };
    }
    Ok(())
}

/// Returns the diagram of a literal, if its node has one or is the constant and not in the window; otherwise none.
pub(crate) fn literal_diagram(
    graph: &Graph,
    store: &Store,
    window: &Window,
    refs: &[Ref],
    literal: Literal,
) -> Option<Ref>
    requires { AreDiagramsOver graph.now window.now store.now refs.now }
    ensures { IfSome result (IsDiagramOver graph.now window.now store.now literal) }
{
    let _ = (graph.len(), store.levels()); // For the proof.
    match window.place(literal.node()) {
        Some(place) if (place as usize) < refs.len() => {
            Some(refs[place as usize].complement_if(literal.is_complemented()))
        }
        None if literal.is_constant() => {
            Some(Ref::FALSE.complement_if(literal.is_complemented()))
        }
        _ => None,
    }
}

//! The law of windows.
ghost use Rattle.std.specs.Prelude.{ℕ, List};
ghost use Rattle.pair_graph.specs.declared.node.Node.{Node};
ghost use Rattle.pair_graph.specs.Literals.{Parts};
ghost use Rattle.pair_graph.specs.Graphs.{IsGraph};
ghost use Rattle.cut_window.specs.declared.finding.Finding.{Finding};
ghost use Rattle.cut_window.specs.Windows.{Holds, HoldsOver};

/// A finding that holds over a cut, whatever bits its leaves have, holds at every assignment of the variables. The
/// function does nothing; its contract is the law.
pub fn equivalent()
    ensures { (g : List Node) → IsGraph g → (leaves : List ℕ) (a b : Parts) (v : Finding) → HoldsOver g leaves a b v → Holds g a b v }
{}

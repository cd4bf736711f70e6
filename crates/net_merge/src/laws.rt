//! Laws: theorems about signals that are literals of one graph, as functions that are called by proofs only.
ghost use Rattle.std.specs.Prelude.{◌≡◌, ◌<◌, ℕ, Bool, List, length, not};
ghost use Rattle.dd_store.specs.Functions.{Agree};
ghost use Rattle.net_bench.specs.Circuit.{Circuit, IsNet, Net, circuit};
ghost use Rattle.net_bench.specs.Labels.{IsFunctionOf};
ghost use Rattle.pair_graph.specs.declared.node.Node.{Node};
ghost use Rattle.pair_graph.specs.Literals.{Parts, negated};
ghost use Rattle.pair_graph.specs.Graphs.{AreEquivalent, value};
ghost use Rattle.net_merge.specs.SignalLiterals.{AreSignalLiterals, literal_at};

/// The values of a signal's literal are the signal's function.
pub fn signal_functions()
    ensures { (net : Net) → IsNet net → (level : ℕ → ℕ) (g : List Node) (ls : List Parts) → AreSignalLiterals (circuit net) level g ls
        → (n s : ℕ) → s < length net.names → IsFunctionOf (circuit net) level n s (λ x. value g x (literal_at ls s)) }
{}

/// Signals of two netlists whose literals have the same value at every assignment have the same function.
pub fn equivalent_literals()
    ensures { (c d : Circuit) (level inner : ℕ → ℕ) (g : List Node) (ls ms : List Parts) → AreSignalLiterals c level g ls
        → AreSignalLiterals d inner g ms → (s t : ℕ) → s < length c.names → t < length d.names
        → AreEquivalent g (literal_at ls s) (literal_at ms t)
        → (n : ℕ) (f h : List Bool → Bool) → IsFunctionOf c level n s f → IsFunctionOf d inner n t h → Agree n f h }
{}

/// Signals of two netlists that have the same literal have the same function, and signals whose literals are complements have
/// complementary functions.
pub fn same_literal()
    ensures equal { (c d : Circuit) (level inner : ℕ → ℕ) (g : List Node) (ls ms : List Parts) → AreSignalLiterals c level g ls
        → AreSignalLiterals d inner g ms → (s t : ℕ) → s < length c.names → t < length d.names → literal_at ls s ≡ literal_at ms t
        → (n : ℕ) (f h : List Bool → Bool) → IsFunctionOf c level n s f → IsFunctionOf d inner n t h → Agree n f h }
    ensures complementary { (c d : Circuit) (level inner : ℕ → ℕ) (g : List Node) (ls ms : List Parts) → AreSignalLiterals c level g ls
        → AreSignalLiterals d inner g ms → (s t : ℕ) → s < length c.names → t < length d.names
        → literal_at ls s ≡ negated (literal_at ms t)
        → (n : ℕ) (f h : List Bool → Bool) → IsFunctionOf c level n s f → IsFunctionOf d inner n t h → Agree n f (λ x. not (h x)) }
{}

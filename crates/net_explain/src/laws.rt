//! Laws: theorems about explanations, as functions that are called by proofs only.
ghost use Rattle.std.specs.Prelude.{◌≡◌, ◌↔◌, ℕ, Contains};
ghost use Rattle.net_bench.specs.Circuit.{IsNet, Net};
ghost use Rattle.net_explain.specs.Explaining.{IsInner, SimulationModel, differing};
ghost use Rattle.net_explain.specs.Vcd.{code};
ghost use Rattle.net_explain.specs.declared.differing.InnerSignal.{InnerSignal};

/// The list has exactly the inner signals that differ.
pub fn exact()
    ensures { (a b : Net) (v w : SimulationModel) (i : InnerSignal) → IsNet a → IsNet b → Contains (differing a b v w) i ↔ IsInner a b v w i }
{}

/// Different numbers have different identifiers in a VCD.
pub fn identifiers()
    ensures { (j k : ℕ) → code j ≡ code k → j ≡ k }
{}

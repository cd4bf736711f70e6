//! A law of the bound of builds.
ghost use Rattle.std.specs.Prelude.{ℕ, Option, Some, IfSome, option_map};
ghost use Rattle.net_bench.specs.Circuit.{Net, IsNet, circuit};
ghost use Rattle.net_order.specs.Order.{NamingModel};
ghost use Rattle.gate_plan.specs.Building.{levelled};
ghost use Rattle.gate_plan.specs.Asking.{IsNarrow, IsPast};

/// No build has both: a wave past a bound, and only waves within it. Which of the two it has depends on the netlists
/// and their pairing, not on what a store has or an engine holds. The function does nothing; its contract is the law.
pub fn past_or_within()
    ensures { (a b : Net) (given : Option Net) (p : NamingModel) (n depth : ℕ) → IsNet a → IsNet b → IfSome given IsNet
        → IsNarrow n depth (levelled (circuit a) (circuit b) (option_map circuit given) p)
        → IsPast (Some n) depth (levelled (circuit a) (circuit b) (option_map circuit given) p) → ⊥ }
{}

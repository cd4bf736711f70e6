//! A law about the limit: what two netlists need is either within it or beyond it.
//!
//! **Promises.** `fits_or_exceeds` says so for each pairing and each limit below 2^32; that never both are true is a
//! law of `check_report` (`limits`). **Only tests show** nothing here, since there is no code.
//!
//! **Begin** with `compare_built`'s `specs/Limits`; the proof makes the nodes that are needed one by one
//! (`proofs/Drawing`, `Making`, `Covering`).
#![tactic(auto)]

ghost use Rattle.std.specs.Prelude.{◌<◌, ◌^◌, ◌⊎◌, ℕ, Option, IfSome, option_map};
ghost use Rattle.net_bench.specs.Circuit.{Net, IsNet, circuit};
ghost use Rattle.net_names.specs.declared.order.Match.{Match};
ghost use Rattle.net_names.specs.declared.order.Order.{Order};
ghost use Rattle.net_order.specs.Order.{NamingModel, IsPairing};
ghost use Rattle.compare_built.specs.Conditions.{HasOneOutput};
ghost use Rattle.compare_built.specs.Limits.{FitsWithin, Exceeds};

/// What two netlists need, with a condition or without, is within the limit or beyond it.
pub fn fits_or_exceeds()
    ensures { (how : Match) (order : Order) (a b : Net) (given : Option Net) (p : NamingModel) → IsNet a → IsNet b
        → IfSome given (λ net. IsNet net × HasOneOutput (circuit net))
        → IsPairing how (circuit a) (circuit b) (option_map circuit given) order p → (limit : ℕ) → limit < 2 ^ 32
        → FitsWithin limit (circuit a) (circuit b) (option_map circuit given) p
        ⊎ Exceeds limit (circuit a) (circuit b) (option_map circuit given) p }
{}

//! Laws of the definitions that contracts cite: each is a theorem, as the contract of a function
//! that does nothing. They are for readers and for callers' proofs; no code calls them.
ghost use Rattle.std.specs.Prelude.{◌≡◌, ◌↔◌, ◌≤◌, ℕ, All, Bool, List, Option, None, IfSome, length, option_map};
ghost use Rattle.net_bench.specs.Circuit.{Circuit, Net, IsNet, circuit};
ghost use Rattle.net_names.specs.declared.order.Match.{Match};
ghost use Rattle.net_names.specs.declared.order.Order.{Order};
ghost use Rattle.net_order.specs.Order.{NamingModel, IsPairing};
ghost use Rattle.dd_store.specs.Functions.{Agree, IsLeastDifference};
ghost use Rattle.expand_work.specs.Bounds.{WaveBound};
ghost use Rattle.report_text.specs.declared.outcome.Outcome.{Outcome};
ghost use Rattle.compare_built.specs.declared.verdict_order.Details.{Details};
ghost use Rattle.compare_built.specs.Conditions.{HasOneOutput, HoldsWhere, restricted, AgreeWhere, IsLeastWhere};
ghost use Rattle.compare_built.specs.declared.subject.Subject.{Subject};
ghost use Rattle.compare_built.specs.PairSelection.{AreShares};
ghost use Rattle.compare_built.specs.Limits.{FitsWithin, Exceeds};
ghost use Rattle.compare_built.specs.Devices.{DeviceTexts};
ghost use Rattle.compare_built.specs.declared.fault.CheckFault.{CheckFault};
ghost use Rattle.compare_built.specs.declared.settings.Settings.{Settings};
ghost use Rattle.check_report.specs.Refusals.{ListSaysOfEach, MayAnswer, MayList, SaysOfEach};
ghost use Rattle.report_text.specs.Lines.{Found};
ghost use Rattle.compare_built.specs.Report.{IsReport};

/// The nodes that two netlists need, with a condition or without, are never both within a limit and beyond it.
pub fn limits()
    ensures { (limit : ℕ) (a b : Circuit) (given : Option Circuit) (p : NamingModel) → FitsWithin limit a b given p → Exceeds limit a b given p
        → ⊥ }
{}

/// Two netlists, with a condition or without, have only one report for a form, a matching, an order, and the choice of
/// sizes and of the support: its counts and its bytes are determined.
pub fn one_report()
    ensures { (one two : Net) (given : Option Net) → IsNet one → IsNet two → IfSome given (λ net. IsNet net × HasOneOutput (circuit net))
        → (how : Match) (order : Order) (p q : NamingModel) →
        IsPairing how (circuit one) (circuit two) (option_map circuit given) order p
        → IsPairing how (circuit one) (circuit two) (option_map circuit given) order q →
        (form : Found → List ℕ) (asked : Details) (o more : Outcome) (bytes text : List ℕ)
        → IsReport form asked (circuit one) (circuit two) (option_map circuit given) p o bytes →
        IsReport form asked (circuit one) (circuit two) (option_map circuit given) q more text → (o ≡ more) × (bytes ≡ text) }
{}

/// Without a condition, verdicts are about all assignments.
pub fn without_condition()
    ensures equal { (p : NamingModel) (holds : List Bool → Bool) → HoldsWhere None p holds → (n : ℕ) (f g : List Bool → Bool)
        → AgreeWhere n holds f g ↔ Agree n f g }
    ensures least { (p : NamingModel) (holds : List Bool → Bool) → HoldsWhere None p holds → (n : ℕ) (f g : List Bool → Bool) (x : List Bool)
        → IsLeastWhere n holds f g x ↔ IsLeastDifference n f g x }
    ensures unrestricted { (p : NamingModel) (holds : List Bool → Bool) → HoldsWhere None p holds → (f : List Bool → Bool) → restricted holds f ≡ f }
{}

/// Functions agree at all assignments at which a condition holds exactly if their conjunctions with the condition agree
/// everywhere, and their least difference there is that of the conjunctions.
pub fn conjunctions()
    ensures equal { (n : ℕ) (holds f g : List Bool → Bool) → AgreeWhere n holds f g ↔ Agree n (restricted holds f) (restricted holds g) }
    ensures least { (n : ℕ) (holds f g : List Bool → Bool) (x : List Bool)
        → IsLeastWhere n holds f g x ↔ IsLeastDifference n (restricted holds f) (restricted holds g) x }
{}

/// Each pair is dealt to exactly one of n shares, and each run deals alike. So n runs of one comparison, each for
/// another share, have each pair exactly once.
pub fn shares()
    ensures each { (a b : Circuit) (pairs : List Subject) (n : ℕ) (shares : List ℕ) → 1 ≤ n → AreShares a b pairs n shares
        → (length shares ≡ length pairs) × All (λ k. (1 ≤ k) × (k ≤ n)) shares }
    ensures same { (a b : Circuit) (pairs : List Subject) (n : ℕ) (shares others : List ℕ) → AreShares a b pairs n shares
        → AreShares a b pairs n others → shares ≡ others }
{}

/// A table of faults says the same as one statement for each fault.
pub fn refusals()
    ensures comparison { (input : DeviceTexts) (s : Settings) (bound : WaveBound) (fault : CheckFault)
        → MayAnswer input s bound fault ↔ SaysOfEach input s bound fault }
    ensures listing { (input : DeviceTexts) (s : Settings) (bound : WaveBound) (fault : CheckFault)
        → MayList input s bound fault ↔ ListSaysOfEach input s bound fault }
{}

//! Laws: theorems about the definitions of `specs/`, as functions that are called by proofs only.
ghost use Rattle.std.specs.Prelude.{◌≡◌, ◌≢◌, ◌<◌, ℕ, Bool, length, List, [], Ok, Err};
ghost use Rattle.net_bench.specs.Text.{Token, Tokens};
ghost use Rattle.net_bench.specs.Statement.{Statement, Reads};
ghost use Rattle.net_bench.specs.Machine.{State, Between, Failed, run};
ghost use Rattle.net_bench.specs.Circuit.{Circuit, Net, IsNet, circuit, circuit_of, AreRanks, IsEndless};
ghost use Rattle.net_bench.specs.Labels.{IsLabelling, bit_of};
ghost use Rattle.net_bench.specs.Fault.{Begins, IsFirst, IsFaultless, IsRefused, IsNetlistText, ReadsWell};
ghost use Rattle.net_bench.specs.declared.fault.BenchFault.{BenchFault};
ghost use Rattle.net_bench.specs.Judge.{FaultOnLine, judge};
ghost use Rattle.net_bench.specs.Sound.{IsSound, net_of, AreDefined};

/// A text reads as at most one list of statements.
#[tactic(auto, using(crate::proofs::Reading::reads_once))]
pub fn one_reading()
    ensures { (text : List ℕ) (ss more : List Statement) → Reads text ss → Reads text more → ss ≡ more }
{}

/// The reader's machine has failed exactly if no list of statements begins with the tokens so far.
#[tactic(auto, using(crate::proofs::Machine::can_begin, crate::proofs::Machine::cannot_begin))]
pub fn machine_is_exact()
    ensures goes_on { (front : List Token) → run (Between []) front ≢ Failed → Begins front }
    ensures fails { (front : List Token) → run (Between []) front ≡ Failed → Begins front → ⊥ }
{}

/// The judge finds the first fault of the text; if it finds none, no place of the text is faulty.
#[tactic(auto, using(crate::proofs::Judging::first_found, crate::proofs::Judging::none_found))]
pub fn judge_is_exact()
    ensures fault { (ts : Tokens) (f : FaultOnLine) → judge (Between []) [] ts ≡ Err f → (place : ℕ) × IsFirst ts place f.0 f.1 }
    ensures none { (ts : Tokens) (s : State) → judge (Between []) [] ts ≡ Ok s → IsFaultless ts }
{}

/// If each signal has a rank, no chain of operands is endless.
#[tactic(auto, using(crate::proofs::Chains::ranked_ends))]
pub fn ranks_end()
    ensures { (c : Circuit) (ranks : List ℕ) → AreRanks c ranks → (s : ℕ) → IsEndless c s → ⊥ }
{}

/// For each assignment of the variables a netlist has a consistent labelling, and only one.
pub fn labellings()
    ensures some { (n : Net) → IsNet n → (level : ℕ → ℕ) (x : List Bool) → (bits : List Bool) × IsLabelling (circuit n) level x bits }
    ensures one { (n : Net) → IsNet n → (level : ℕ → ℕ) (x a b : List Bool) → IsLabelling (circuit n) level x a →
        IsLabelling (circuit n) level x b → (s : ℕ) → s < length n.names → bit_of a s ≡ bit_of b s }
{}

/// A text that is refused is no netlist. (`IsRefused` leaves out refused memory and failed devices.)
pub fn refused_is_none()
    ensures { (text : List ℕ) (ss : List Statement) (fault : BenchFault) → IsRefused text fault → IsNetlistText text ss → ⊥ }
{}

/// The circuit of sound statements, if their uses are all defined and it has ranks, is a netlist (`IsNet`).
pub fn sound_nets()
    ensures { (ss : List Statement) → IsSound ss → AreDefined ss → (ranks : List ℕ) → AreRanks (circuit_of ss) ranks
        → IsNet (net_of ss ranks) }
{}

/// The statements of a text without a faulty place are sound.
pub fn faultless_sound()
    ensures { (text : List ℕ) (ss : List Statement) → ReadsWell text ss → IsSound ss }
{}

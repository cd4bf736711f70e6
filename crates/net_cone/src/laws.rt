//! Laws: theorems about cones, as functions that are called by proofs only.
ghost use Rattle.std.specs.Prelude.{◌≡◌, ◌↔◌, ◌<◌, ℕ, Bool, List, [], Contains, length, slice_index, slice_index_or};
ghost use Rattle.net_bench.specs.Circuit.{IsNet, Net, circuit, variables_of};
ghost use Rattle.net_bench.specs.Labels.{IsFunctionOf};
ghost use Rattle.net_cone.specs.Cones.{IsBelow, IsCone};
ghost use Rattle.net_cone.specs.Spreading.{bits_at};

/// A signal has the same function in its cone as in the netlist.
pub fn functions()
    ensures { (n : Net) (root : ℕ) (names : List (List ℕ)) (cone : Net) (from : List ℕ) → IsNet n → IsCone n root names cone from →
        (level inner : ℕ → ℕ) → ((t : ℕ) → Contains cone.inputs t → inner t ≡ level (slice_index from t)) →
        (count : ℕ) (f : List Bool → Bool) → IsFunctionOf (circuit n) level count root f ↔ IsFunctionOf (circuit cone) inner count
        (length from) f }
{}

/// If the signal's function in its cone is f, over the variables at some places, then its function in the netlist over
/// all variables is f of the bits at these places: it depends on no others.
pub fn widened()
    ensures { (n : Net) (root : ℕ) (names : List (List ℕ)) (cone : Net) (from : List ℕ) → IsNet n → IsCone n root names cone from →
        (level inner : ℕ → ℕ) (places : List ℕ) → ((t : ℕ) → Contains cone.inputs t
        → (inner t < length places) × (level (slice_index from t) ≡ slice_index places (inner t))) →
        (count : ℕ) (f : List Bool → Bool) → IsFunctionOf (circuit cone) inner (length places) (length from) f
        → IsFunctionOf (circuit n) level count root (λ x. f (bits_at places x)) }
{}

/// All that is below the root is in its cone, and the variables among it are inputs of the cone.
pub fn complete()
    ensures signals { (n : Net) (root : ℕ) (names : List (List ℕ)) (cone : Net) (from : List ℕ) → IsNet n → IsCone n root names cone from →
        (s : ℕ) → IsBelow (circuit n) root s → Contains from s }
    ensures inputs { (n : Net) (root : ℕ) (names : List (List ℕ)) (cone : Net) (from : List ℕ) → IsNet n → IsCone n root names cone from →
        (s : ℕ) → Contains (variables_of (circuit n)) s → IsBelow (circuit n) root s
        → (t : ℕ) × Contains cone.inputs t × (slice_index from t ≡ s) }
{}

/// A signal has one cone, if its variables have one name each.
pub fn unique()
    ensures { (n : Net) (root : ℕ) (names others : List (List ℕ)) (cone other : Net) (from also : List ℕ) → IsNet n →
        IsCone n root names cone from → IsCone n root others other also →
        ((s : ℕ) → Contains (variables_of (circuit n)) s → slice_index_or names s [] ≡ slice_index_or others s [])
        → circuit cone ≡ circuit other }
{}

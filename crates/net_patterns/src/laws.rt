//! Laws: what a difference says of functions, as functions that are called by proofs only.
ghost use Rattle.std.specs.Prelude.{◌≡◌, ◌≢◌, ◌<◌, ℕ, Bool, true, List, Option, Some, length, slice_index};
ghost use Rattle.net_bench.specs.Circuit.{Circuit, IsNet, Net, circuit};
ghost use Rattle.net_bench.specs.Labels.{IsFunctionOf};
ghost use Rattle.net_order.specs.Order.{NamingModel, first_level, given_level, second_level};
ghost use Rattle.net_patterns.specs.Differences.{IsDifferenceAt, IsPairOf};

/// At a difference of two signals their functions have different values.
pub fn functions()
    ensures { (n m : Net) → IsNet n → IsNet m → (given : Option Circuit) (p : NamingModel) (pair : ℕ × ℕ) (x : List Bool)
        → IsPairOf (circuit n) (circuit m) pair → IsDifferenceAt (circuit n) (circuit m) given p pair x
        → (f g : List Bool → Bool) → IsFunctionOf (circuit n) (first_level p) (length p.names) pair.0 f
        → IsFunctionOf (circuit m) (second_level p) (length p.names) pair.1 g → f x ≢ g x }
{}

/// At a difference the function of the condition's output is 1.
pub fn condition()
    ensures { (a b : Circuit) (c : Net) → IsNet c → (p : NamingModel) (pair : ℕ × ℕ) (x : List Bool)
        → IsDifferenceAt a b (Some (circuit c)) p pair x → 0 < length c.outputs
        → (f : List Bool → Bool) → IsFunctionOf (circuit c) (given_level p) (length p.names) (slice_index c.outputs 0) f → f x ≡ true }
{}

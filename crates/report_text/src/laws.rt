//! Laws: theorems about the definitions, as functions that are called by proofs only.
ghost use Rattle.std.specs.Prelude.{◌≡◌, ◌++◌, ℕ, Bool, List, codes};
ghost use Rattle.report_text.specs.Buses.{Bus, bus_number, hex_text, number_with};

/// The text of a bus at an assignment is `0x` and hexadecimal digits, whose number is that of its bits, bit 0 being the
/// least significant.
pub fn bus_texts()
    ensures { (bus : Bus) (at : List Bool) → (digits : List ℕ) × (hex_text bus at ≡ codes "0x" ++ digits)
        × (number_with 0 digits ≡ bus_number bus at) }
{}

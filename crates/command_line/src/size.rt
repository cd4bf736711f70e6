//! Sizes of memory, written as `512M`.
ghost use Rattle.std.specs.Prelude.{◌<◌, ◌^◌, ℕ, MatchOption};
ghost use Rattle.command_line.specs.Words.{IsInUnits, IsSize, IsMemory};

/// The least memory that is accepted, 16 MiB.
const LEAST_MEMORY: u64 = 16_777_216;

/// The number in a text, and its unit in bytes: K, M and G are powers of 1,024; without a unit it is a byte.
fn in_units(text: &str) -> (&str, u64)
    ensures { IsInUnits text.now result.0.now result.1 }
{
    if let Some(number) = text.strip_suffix("K") {
        (number, 1_024)
    } else if let Some(number) = text.strip_suffix("M") {
        (number, 1_048_576)
    } else if let Some(number) = text.strip_suffix("G") {
        (number, 1_073_741_824)
    } else {
        (text, 1)
    }
}

/// The number of bytes that a text is; None if it is no size, or does not fit in 64 bits.
fn size_of(text: &str) -> Option<u64>
    ensures { MatchOption result ((n : ℕ) → IsSize text.now n → n < 2 ^ 64 → ⊥) (IsSize text.now) }
{
    let (number, bytes) = in_units(text);
    let Ok(number) = number.parse::<u64>() else {
        return None;
    };
    number.checked_mul(bytes)
}

/// The same, if it is at least the least memory.
pub(crate) fn memory_of(text: &str) -> Option<u64>
    ensures { MatchOption result ((n : ℕ) → IsMemory text.now n → ⊥) (IsMemory text.now) }
{
    match size_of(text) {
        Some(size) if size >= LEAST_MEMORY => Some(size),
        _ => None,
    }
}

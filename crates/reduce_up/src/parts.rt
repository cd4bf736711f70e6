//! Rows by level in several parts: the last level that any part has, and clearing a level in all
//! parts.
ghost use Rattle.std.specs.Prelude.{◌≡◌, ◌≢◌, ◌<◌, ◌≤◌, ℕ, [], length, map, All};
ghost use Rattle.req_table.specs.Places.{IsLastLevel};
ghost use Rattle.reduce_up.specs.OverParts.{level_over, over_parts, later_of};

use req_table::Rows;

/// Returns the later of two levels, or the one that there is.
fn later(one: Option<u16>, other: Option<u16>) -> Option<u16>
    ensures { result ≡ later_of one other }
{
    match (one, other) {
        (Some(one), Some(other)) => Some(one.max(other)),
        (None, other) => other,
        (one, None) => one,
    }
}

/// Returns the last level before `end` that has children in any part, or none.
pub(crate) fn last_level(parts: &[Rows], end: u16) -> Option<u16>
    requires { All (λ rows. end ≤ length rows) parts.now }
    ensures { (n : ℕ) → end ≤ n → IsLastLevel (over_parts n parts.now) end result }
{
    let mut last = None;
    for part in parts {
        last = later(last, part.last_level(end));
    }
    last
}

/// Leaves a level without children in all parts.
pub(crate) fn leave_level(parts: &mut [Rows], level: u16)
    requires { All (λ rows. level < length rows) parts.old }
    ensures levels { map (λ rows. length rows) parts.new ≡ map (λ rows. length rows) parts.old }
    ensures left { level_over parts.new level ≡ [] }
    ensures others { (w : ℕ) → w ≢ level → level_over parts.new w ≡ level_over parts.old w }
{
    for place in 0..parts.len() {
        parts[place].clear_level(level);
    }
}

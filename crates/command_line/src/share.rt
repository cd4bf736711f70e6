//! Shares of the pairs, written as `3/8`.
ghost use Rattle.std.specs.Prelude.{◌≡◌, ◌≤◌, ◌++◌, ◌∷◌, ℕ, MatchOption};
ghost use Rattle.command_line.specs.Words.{HasNoSlash, IsDecimal, IsInRange, IsShare};
ghost use Rattle.report_text.specs.declared.outcome.Share.{Share as ShareValue};

use report_text::Share;

/// The most shares.
const MOST_SHARES: u32 = 1_000_000;

/// The text before the first slash, and the text after it.
fn split_at_slash(text: &str) -> Option<(&str, &str)>
    ensures { MatchOption result (HasNoSlash text.now) (λ r. (text.now ≡ r.0.now ++ 47 ∷ r.1.now) × HasNoSlash r.0.now) }
{
    text.split_once('/')
}

/// The number that a text is; None if it is no decimal number of 32 bits.
fn decimal(text: &str) -> Option<u32>
    ensures { MatchOption result ((n : ℕ) → IsDecimal text.now n → n ≤ 1000000 → ⊥) (IsDecimal text.now) }
{
    text.parse().ok()
}

/// Share `number` of `of`; None if there is no such share.
fn share(number: u32, of: u32) -> Option<Share>
    ensures { MatchOption result (IsInRange number of → ⊥) (λ s. (s.number ≡ number) × (s.of ≡ of) × IsInRange number of) }
{
    if 1 <= number && number <= of && of <= MOST_SHARES {
        Some(Share { number, of })
    } else {
        None
    }
}

/// The share that a text is; None if it is none.
pub(crate) fn share_of(text: &str) -> Option<Share>
    ensures { MatchOption result ((s : ShareValue) → IsShare text.now s → ⊥) (IsShare text.now) }
{
    let Some((number, count)) = split_at_slash(text) else {
        return None;
    };
    let Some(number) = decimal(number) else {
        return None;
    };
    let Some(of) = decimal(count) else {
        return None;
    };
    share(number, of)
}

//! Two texts on one input, which a line `%%` divides.
ghost use Rattle.std.specs.Prelude.{◌≤◌, ℕ, length, MatchOption, option_map};
ghost use Rattle.check_tool.specs.Splitting.{IsDivider, IsSplit};

const PERCENT: u8 = b'%';

const LINE_FEED: u8 = b'\n';

const CARRIAGE_RETURN: u8 = b'\r';

/// Returns the length of the line `%%` with its end, if the bytes begin with such a line.
fn divider(rest: &[u8]) -> Option<usize>
    ensures { MatchOption result ((m : ℕ) → IsDivider rest.now m → ⊥) (λ m. IsDivider rest.now m × (m ≤ length rest.now)) }
{
    let length = rest.len();
    if length < 2 || rest[0] != PERCENT || rest[1] != PERCENT {
        return None;
    }
    if length == 2 {
        return Some(2);
    }
    if rest[2] == LINE_FEED {
        return Some(3);
    }
    if rest[2] != CARRIAGE_RETURN {
        return None;
    }
    if length == 3 {
        return Some(3);
    }
    if rest[3] == LINE_FEED { Some(4) } else { None }
}

/// Returns the texts before and after the first line `%%`, if there is one. Its end may be a carriage return and a line
/// feed.
pub fn split_input(text: &[u8]) -> Option<(&[u8], &[u8])>
    ensures { IsSplit text.now (option_map (λ parts. (parts.0.now, parts.1.now)) result) }
{
    for at in 0..text.len() {
        if at == 0 || text[at - 1] == LINE_FEED {
            if let Some(length) = divider(&text[at..]) {
                return Some((&text[..at], &text[at + length..]));
            }
        }
    }
    None
}

//! Name patterns, by which pairs are picked.
ghost use Rattle.std.specs.Prelude.{◌≡◌, []};
ghost use Rattle.compare_built.specs.NamePatterns.{IsFit, matches};

/// The byte of a pattern that matches any run of bytes.
const STAR: u8 = b'*';

/// How a name compares with a pattern.
#[derive(Clone, Copy, Drop, Debug, PartialEq, Eq)]
pub(crate) enum Fit {
    /// The pattern matches the whole name.
    Matches,
    /// The pattern does not match the name. It may match a shorter end of the name.
    Differs,
    /// The pattern matches neither the name nor any shorter end of it.
    TooShort,
}

/// Compares a name with the empty pattern, which matches only the empty name.
fn whole_fit(name: &[u8]) -> Fit
    ensures { IsFit [] name.now result }
{
    if name.is_empty() {
        Fit::Matches
    } else {
        Fit::Differs
    }
}

/// Compares a name with a pattern, by recursion on the pattern. At a `*` it tries each end of the name, the longest
/// first. If an end is too short for the rest of the pattern, no other end is tried, at this `*` or at one before it.
/// So the time is at most proportional to the length of the pattern times that of the name, however many `*` there are.
#[tactic(auto, using(crate::proofs::Patterns::star_matches, crate::proofs::Patterns::star_short, crate::proofs::Patterns::byte_matches, crate::proofs::Patterns::byte_short, crate::proofs::Patterns::empty_short, crate::proofs::Patterns::any_first, crate::proofs::Patterns::any_next, crate::proofs::Patterns::none_of_none))]
fn fit_of(pattern: &[u8], name: &[u8]) -> Fit
    ensures { IsFit pattern.now name.now result }
{
    let Some((byte, following)) = pattern.split_first() else {
        return whole_fit(name);
    };
    if *byte != STAR {
        return match name.split_first() {
            None => Fit::TooShort,
            Some((first, after)) if *first == *byte => fit_of(following, after),
            Some(_) => Fit::Differs,
        };
    }
    let mut rest = name;
    'rests: loop {
        match fit_of(following, rest) {
            Fit::Differs => {}
            decided => return decided,
        }
        let Some((_, after)) = rest.split_first() else {
            return Fit::TooShort;
        };
        rest = after;
    }
}

/// Whether a pattern matches a name. Each `*` matches any run of bytes, also the empty one; any other byte matches only
/// itself.
#[tactic(auto, using(crate::proofs::Patterns::none_first))]
pub fn matches_name(pattern: &[u8], name: &[u8]) -> bool
    ensures { result ≡ matches pattern.now name.now }
{
    match fit_of(pattern, name) {
        Fit::Matches => true,
        Fit::Differs => false,
        Fit::TooShort => false,
    }
}

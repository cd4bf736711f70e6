//! Which variables an assignment shows.
ghost use Rattle.std.specs.Prelude.{◌≡◌, true, slice_index_or};
ghost use Rattle.report_text.specs.Lines.{is_reported};

/// Which variables the assignment of a difference shows, by the option `--assignment`.
#[derive(Clone, Copy, Drop, Debug, PartialEq, Eq)]
pub enum Assignment {
    All,
    /// Those on which one of the two functions depends.
    Support,
    /// Those that are 1.
    Ones,
}

/// Whether a variable is shown, by its bit and whether a function depends on it. Unless something else is asked for,
/// each one is.
pub(crate) fn is_reported(which: Option<Assignment>, bit: bool, in_support: bool) -> bool
    ensures { result ≡ is_reported which bit in_support }
{
    match which {
        Some(Assignment::Support) => in_support,
        Some(Assignment::Ones) => bit,
        _ => true,
    }
}

/// Whether a function depends on the variable of this level. If support was not asked for, there are no bits, and it
/// counts as true.
pub(crate) fn is_supported_at(support_bits: &[bool], place: usize) -> bool
    ensures { result ≡ slice_index_or support_bits.now place true }
{
    match support_bits.get(place) {
        Some(in_support) => *in_support,
        None => true,
    }
}

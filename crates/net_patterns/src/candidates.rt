//! Candidates for a smaller difference: assignments that differ from one only in a window of levels.
ghost use Rattle.std.specs.Prelude.{◌≡◌, ◌<◌, ◌≤◌, length, IfSome};

use net_simulate::{Block, all_bits, no_bits};

/// How many groups of levels a window has. Each group has two choices, so a block has one candidate for each of the 512 combinations.
const GROUPS: usize = 9;

/// A window: neighbouring levels in 9 groups of `size` levels, from the level `from` on. Of the windows of this size
/// the first `tried` are tried, which follow one another from level 0 on.
#[derive(Clone, Copy, Drop, Debug)]
pub(crate) struct LevelWindow {
    pub(crate) from: usize,
    pub(crate) size: usize,
    pub(crate) tried: usize,
    ghost some: { 0 < size },
    ghost few: { size ≤ 1000 },
}

impl LevelWindow {
    /// The group of a level; None if the level is outside the window.
    fn group(&self, level: usize) -> Option<usize>
        ensures { IfSome result (λ group. group < 9) }
    {
        if level < self.from {
            return None;
        }
        let group = (level - self.from) / self.size;
        if group < GROUPS { Some(group) } else { None }
    }

    /// Whether the window is one of those that are tried, and the assignment has a 1 in it.
    pub(crate) fn is_tried(&self, small: &[bool]) -> bool
        requires { self.now.from ≤ length small.now }
    {
        let width = GROUPS * self.size;
        let end = self.from + width.min(small.len() - self.from);
        self.from % width == 0
            && self.from / width < self.tried
            && small[self.from..end].iter().any(|bit| *bit)
    }

    /// The bits of a level in all candidates, if its bit in the assignment is `bit`.
    fn bits(&self, level: usize, bit: bool) -> Block {
        match self.group(level) {
            Some(group) => {
                if bit || self.size == 1 {
                    bits_of_numbers(GROUPS - 1 - group)
                } else {
                    no_bits()
                }
            }
            None => { if bit { all_bits() } else { no_bits() } }
        }
    }

    /// Sets the bits of each level in all candidates. The first group belongs to the highest bit of a candidate's
    /// number. If the bit is 1, the group has the bits of the assignment, otherwise it is all 0; a group of one level
    /// has the bit itself. So the first candidate that is a difference is the least of them.
    pub(crate) fn set_candidates(&self, small: &[bool], at: &mut [Block])
        requires { length small.now ≡ length at.old }
    {
        for level in 0..at.len() {
            let bits = self.bits(level, small[level]);
            at[level] = bits;
        }
    }
}

/// For the 512 numbers below 512 their bit at this place, of which the lowest is place 0.
fn bits_of_numbers(place: usize) -> Block {
    match place {
        0 => [0xaaaa_aaaa_aaaa_aaaa; 8],
        1 => [0xcccc_cccc_cccc_cccc; 8],
        2 => [0xf0f0_f0f0_f0f0_f0f0; 8],
        3 => [0xff00_ff00_ff00_ff00; 8],
        4 => [0xffff_0000_ffff_0000; 8],
        5 => [0xffff_ffff_0000_0000; 8],
        6 => [0, u64::MAX, 0, u64::MAX, 0, u64::MAX, 0, u64::MAX],
        7 => [0, 0, u64::MAX, u64::MAX, 0, 0, u64::MAX, u64::MAX],
        _ => [0, 0, 0, 0, u64::MAX, u64::MAX, u64::MAX, u64::MAX],
    }
}

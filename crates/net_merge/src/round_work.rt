//! How much work a round may do: nodes of diagrams, and what counts as such. All this depends on the texts only.
ghost use Rattle.std.specs.Prelude.{◌≡◌, ◌≤◌, ◌<◌, ◌+◌, ◌*◌, ◌^◌, ℕ};

/// How much work may be done for gates, for each gate of both texts.
const WORK_FOR_GATES: u64 = 900;

/// The same for the pairs of signals that are wanted equal.
const WORK_FOR_WANTED: u64 = 500;

/// The same for gates since a node was last merged, and for pairs that are wanted equal since one was last found so.
const WORK_IN_VAIN: u64 = 200;

/// The most pairs that are judged side by side. What they show is known to the pairs after them only.
pub(crate) const MOST_JOBS: usize = 64;

/// About how many windows a pair takes that no window decides, each with all nodes that it may have: two kinds of cuts
/// in two orders of leaves.
const WINDOWS_IN_VAIN: u64 = 4;

/// The most work of a round.
#[derive(Clone, Copy, Drop)]
pub(crate) struct WorkLimits {
    /// How many gates both texts have.
    texts: u64,
}

impl WorkLimits {
    /// The limits for texts with so many gates together.
    pub(crate) fn of(texts: u64) -> WorkLimits
        ensures { result.texts ≡ texts }
    {
        WorkLimits { texts }
    }

    /// Up to how much work gates are tried, if so much was done when a node was last merged.
    pub(crate) fn for_gates(&self, found_at: u64) -> u64
        ensures all { result ≤ self.now.texts * WORK_FOR_GATES }
        ensures vain { result ≤ found_at + self.now.texts * WORK_IN_VAIN }
        ensures least { (work : ℕ) → work < 2 ^ 64 → work ≤ self.now.texts * WORK_FOR_GATES
            → work ≤ found_at + self.now.texts * WORK_IN_VAIN → work ≤ result }
    {
        let most = self.texts.saturating_mul(WORK_FOR_GATES);
        self.in_vain(found_at).min(most)
    }

    /// Up to how much work pairs that are wanted equal are judged, if so much was done before the first of them, and so
    /// much when one was last found equal.
    pub(crate) fn for_wanted(&self, begun_at: u64, found_at: u64) -> u64
        ensures all { result ≤ begun_at + self.now.texts * WORK_FOR_WANTED }
        ensures vain { result ≤ found_at + self.now.texts * WORK_IN_VAIN }
        ensures least { (work : ℕ) → work < 2 ^ 64 → work ≤ begun_at + self.now.texts * WORK_FOR_WANTED
            → work ≤ found_at + self.now.texts * WORK_IN_VAIN → work ≤ result }
    {
        let most = self.texts.saturating_mul(WORK_FOR_WANTED);
        self.in_vain(found_at).min(begun_at.saturating_add(most))
    }

    /// Up to how much work a round goes on without finding anything, if so much was done before.
    fn in_vain(&self, found_at: u64) -> u64
        ensures most { result ≤ found_at + self.now.texts * WORK_IN_VAIN }
        ensures least { (work : ℕ) → work < 2 ^ 64 → work ≤ found_at + self.now.texts * WORK_IN_VAIN → work ≤ result }
    {
        found_at.saturating_add(self.texts.saturating_mul(WORK_IN_VAIN))
    }
}

/// How many pairs are judged side by side if so much work is left and the diagrams of a window may have so many nodes:
/// as many as may be if windows decide none of them, and one at least.
pub(crate) fn most_side_by_side(rest: u64, nodes: u32) -> usize
    ensures some { 1 ≤ result }
    ensures most { result ≤ MOST_JOBS }
    ensures share { 1 < result → result * (nodes * WINDOWS_IN_VAIN) ≤ rest }
{
    let each = u64::from(nodes).saturating_mul(WINDOWS_IN_VAIN);
    let most = rest / each.max(1);
    most.clamp(1, MOST_JOBS as u64) as usize
}

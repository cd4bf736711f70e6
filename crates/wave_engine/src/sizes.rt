//! The sizes of earlier waves, by which it is decided when workers are called in. A size is a
//! number of requests. Only time depends on them, so no other clause of a wave speaks of them.
ghost use Rattle.std.specs.Prelude.{◌≡◌, ◌≤◌, ◌<◌, ◌+◌, ◌*◌, ◌⊎◌, ◌^◌};

/// The number of requests of the last wave, of the one before it, and of all waves, as far as 64 bits count them.
#[derive(Clone, Copy, Drop)]
pub(crate) struct WaveSizes {
    last: usize,
    older: usize,
    all: usize,
}

/// An engine that has done fewer requests expects nothing of the next wave. A run that ends so early gains nothing by
/// workers (docs/PERFORMANCE.md).
const MIN_HISTORY: usize = 1 << 18;

/// A wave with fewer requests a level than this is not expected either. Workers wait for one another at each level, and
/// if all processors are busy such a meeting takes as long as thousands of requests.
const NARROW: usize = 1 << 7;

impl WaveSizes {
    /// Returns the sizes before the first wave.
    pub(crate) fn new() -> WaveSizes
        ensures { result ≡ record { last = 0; older = 0; all = 0 } }
    {
        WaveSizes {
            last: 0,
            older: 0,
            all: 0,
        }
    }

    /// Returns the number of requests that are expected of the next wave: that of the larger of the
    /// last two waves, since the waves of a build are much like those before them. One small wave
    /// among large ones changes nothing, such as that of a rank's last fold, in which only the
    /// gates with most operands take part.
    pub(crate) fn expected(self) -> usize
        ensures short_history { self.all < 2 ^ 18 → result ≡ 0 }
        ensures last { 2 ^ 18 ≤ self.all → self.last ≤ result }
        ensures older { 2 ^ 18 ≤ self.all → self.older ≤ result }
        ensures one { 2 ^ 18 ≤ self.all → (result ≡ self.last) ⊎ (result ≡ self.older) }
    {
        if self.all < MIN_HISTORY {
            0
        } else if self.last < self.older {
            self.older
        } else {
            self.last
        }
    }

    /// Returns the number of requests that are expected of the next wave over `levels` levels, or 0 if its levels will
    /// not be wide on average.
    pub(crate) fn expected_over(self, levels: u16) -> usize
        ensures short_history { self.all < 2 ^ 18 → result ≡ 0 }
        ensures wide { (result ≡ 0) ⊎ (128 * levels ≤ result) }
    {
        let expected = self.expected();
        if expected < NARROW * levels as usize {
            0
        } else {
            expected
        }
    }

    /// Returns the sizes after one more wave.
    pub(crate) fn then(self, requests: usize) -> WaveSizes
        ensures last { result.last ≡ requests }
        ensures older { result.older ≡ self.last }
        ensures all { self.all + requests < 2 ^ 64 → result.all ≡ self.all + requests }
        ensures grows { self.all ≤ result.all }
    {
        WaveSizes {
            last: requests,
            older: self.last,
            all: self.all.saturating_add(requests),
        }
    }
}

//! Pseudo-random words, the same in each run.

/// The generator SplitMix64 (Steele, Lea and Flood 2014).
#[derive(Drop)]
pub(crate) struct Random {
    state: u64,
}

impl Random {
    /// The generator with this seed.
    pub(crate) fn new(seed: u64) -> Random {
        Random { state: seed }
    }

    /// A generator of its own for each number, and for each kind of words.
    pub(crate) fn of(kind: u64, number: u64) -> Random {
        let mut numbers = Random::new(number ^ kind.rotate_left(32));
        Random::new(numbers.word())
    }

    /// The next word.
    pub(crate) fn word(&mut self) -> u64 {
        self.state = self.state.wrapping_add(0x9E37_79B9_7F4A_7C15);
        let mixed = (self.state ^ (self.state >> 30)).wrapping_mul(0xBF58_476D_1CE4_E5B9);
        let mixed = (mixed ^ (mixed >> 27)).wrapping_mul(0x94D0_49BB_1331_11EB);
        mixed ^ (mixed >> 31)
    }
}

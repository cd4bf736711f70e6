//! What is known of a pair that differs at an assignment.

/// A pattern at which a pair differs, by its number, and the value of the pair's first signal there. The second has the complement.
#[derive(Clone, Copy, Drop, Debug, PartialEq, Eq)]
pub struct ShownPattern {
    pub number: usize,
    pub first: bool,
}

/// An assignment at which a pair differs, by level, and the value of the pair's first signal there. The second has the complement.
#[derive(Drop)]
pub struct Counterexample {
    pub at: Vec<bool>,
    pub first: bool,
}

//! What is compared, and what is counted.
ghost use Rattle.std.specs.Prelude.{◌≤◌};

/// How many pairs of outputs and next states are equal, how many are different, how many outputs and registers have no
/// partner, and how many pairs no attempt has decided.
#[derive(Clone, Copy, Drop, Debug, PartialEq, Eq)]
pub struct Outcome {
    pub equal: u64,
    pub different: u64,
    pub unmatched: u64,
    pub undecided: u64,
}

/// Share `number` of `of` shares of the pairs, counted from 1.
#[derive(Clone, Copy, Drop, Debug, PartialEq, Eq)]
pub struct Share {
    pub number: u32,
    pub of: u32,
    ghost first: { 1 ≤ number },
    ghost last: { number ≤ of },
}

/// One of the two netlists.
#[derive(Clone, Copy, Drop, Debug, PartialEq, Eq)]
pub enum Side {
    First,
    Second,
}

/// As what a signal is compared.
#[derive(Clone, Copy, Drop, Debug, PartialEq, Eq)]
pub enum PairKind {
    Output,
    /// What a register takes next.
    NextState,
}

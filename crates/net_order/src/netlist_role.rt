//! Which of the netlists of a naming is meant.

/// One of the netlists of a naming.
#[derive(Clone, Copy, Drop, Debug, PartialEq, Eq)]
pub enum NetlistRole {
    First,
    Second,
    /// The condition.
    Given,
}

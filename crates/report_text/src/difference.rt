//! Which difference of a pair is wanted.

/// Which difference is wanted of a pair that differs, if orders are tried for its cones.
#[derive(Clone, Copy, Drop, Debug, PartialEq, Eq)]
pub enum Difference {
    /// The least. One that a pattern shows is reported only if each attempt was given up.
    Least,
    /// Any: a pair that a pattern shows to differ is not judged.
    AnyOne,
}

//! What a window shows of two literals.

/// What a window shows of two literals.
#[derive(Debug, Drop)]
pub enum Finding {
    /// They have the same value at every assignment.
    Equal,
    /// They have complementary values at every assignment.
    Complement,
    /// They have different values if the leaves have these bits. There may be no assignment of the variables at which
    /// the leaves have them; then this is no difference of the literals.
    Differ(Vec<bool>),
    /// Nothing: the window lacks a node that is needed, or its diagrams do not fit into the budget.
    GivenUp,
}

//! Assignments at which two literals differ.
use crate::words::variable_of;
use pair_graph::Graph;
use std::alloc::AllocError;

/// The bits of some variables, by their levels. The other variables may have any.
pub(crate) type Assignment = Vec<(u32, bool)>;

/// Adds the bit of a node, if it is a variable.
pub(crate) fn add_bit(
    assignment: &mut Assignment,
    graph: &Graph,
    node: u32,
    bit: bool,
) -> Result<(), AllocError> {
    if let Some(level) = variable_of(graph, node) {
        assignment.push((level, bit))?;
    }
    Ok(())
}

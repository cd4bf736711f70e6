//! One graph of And and Xor gates with complement edges, in which each gate is found by its
//! structure. If several netlists over the same variables are put into one graph, what they share
//! is in it once.
//!
//! **Promises.** In every graph node 0 is the constant, and operands have lower numbers
//! (`Graph::len`: `sound`). `variable`, `and_of` and `xor_of` return a literal whose value at every
//! assignment is that of the operation (`value`). They keep every node, and so the values of all
//! older literals (`keeps`). They fail only if memory is refused or the graph has 2^31 nodes, and
//! then change nothing (`refused`, `full`).
//!
//! **Only tests show** that nothing is refused if there is ample memory (`merge_tests`).
//!
//! **Begin** with `specs/Graphs`, which defines the value of a literal; then read `graph`.
#![tactic(auto)]

mod graph;
mod literal;
mod node;
mod trivial;

pub use graph::{Graph, GraphFault};
pub use literal::Literal;
pub use node::Node;

//! Windows over cuts of a graph, and what they show of two literals (Kuehlmann and Krohm,
//! "Equivalence checking using cuts and heaps", DAC 1997). The leaves of a cut are taken as free
//! variables, so a window is small even if the cones below it are not.
//!
//! **Promises.** Two literals that agree over a cut, whatever bits its leaves have, have the same
//! value at every assignment (law `equivalent`). The converse does not hold: the bits at which they
//! differ may never occur together at the leaves. Which cut is chosen is only a matter of success
//! and time, and no proof knows anything of it: `Cut` grows one, and `leaf_order` orders its
//! leaves.
//!
//! **Only tests show** that nothing is refused if there is ample memory, and which windows are
//! found (`merge_tests`).
//!
//! **Begin** with `specs/Windows`; then read `window`, and `cut` for how a window is chosen.
#![tactic(auto)]

mod cut;
mod finding;
mod force;
mod laws;
mod leaf_order;
mod node_table;
mod ranks;
mod users;
mod window;

pub use cut::{Cut, CutKind};
pub use finding::Finding;
pub use laws::equivalent;
pub use leaf_order::LeafOrder;
pub use node_table::NodeTable;
pub use ranks::NodeRanks;
pub use window::Window;

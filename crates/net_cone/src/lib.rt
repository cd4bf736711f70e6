//! The cone of a signal: the signal and all that it depends on, as a netlist of its own.
//!
//! **Promises.** `cone_of` answers the cone (`IsCone`): inputs for the variables below the signal, copies of the gates
//! below it, in their order, and last a BUFF of the signal, its one output. The signal has the same function in its
//! cone as in the netlist (law `functions`), also if that is taken over all variables (`widened`), and all that is
//! below the signal is in the cone (`complete`). A signal has one cone, and the same gates over the same variables are
//! the same cone (`unique`). `gates_below` counts the gates below signals; `own_names` (`names`, `named`) and
//! `gate_signals` answer what many cones share. `is_same_net` says whether two cones are the same.
//!
//! **Only tests show** that ample memory suffices (`netlist_tests`). No clause says that time and memory are linear in
//! the netlist.
//!
//! **Begin** with `specs/Cones`; then `cone`: it walks over what is below the signal (`below`), numbers it
//! (`numbering`) and names it (`naming`).
#![tactic(auto)]

mod below;
mod cone;
mod counting;
pub mod laws;
mod naming;
mod numbering;
mod same;

pub use cone::{Cone, cone_of};
pub use counting::gates_below;
pub use naming::own_names;
pub use numbering::gate_signals;
pub use same::is_same_net;

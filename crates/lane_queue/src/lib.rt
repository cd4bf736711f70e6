//! Lanes: for each worker a queue on which all workers put loads and from which only this worker
//! takes them, under one rule. A load is a bundle of requests or an End; contracts read it as its
//! items, one for each request. A port is one worker's end of all lanes. A request to itself goes
//! through no lane: its port keeps it.
//!
//! **Promises.** Between any two atomic steps of any schedule, what a lane's owner has taken and
//! then what waits is, of each sender, what this sender has put there, in its order
//! (`law::between_steps`: `always`, `lawful`). `Lanes::send` puts a load (`port`, `sent`, `others`,
//! `put`). `take` takes the next load of its sender (`some`), and it is of no closed level
//! (`open`); the same holds of what `Port::keep` keeps (`kept`, `open`). `settle` gives the law of
//! all lanes once the ports are joined (`law`).
//!
//! **Only tests show** that `take` returns a load as long as the lane has one, if no other thread
//! steps (`wave_tests`). How long a call waits for other threads is neither proved nor tested.
//!
//! **Begin** with `specs/PortView`, which is what contracts see, and with `specs/Rule` and
//! `specs/Between`, which are the rule and what it says; then read `lanes`.
#![tactic(auto)]

mod endpoint;
mod join;
mod lanes;
pub mod law;
mod load;
mod make;
mod port;
mod port_history;
mod rule;
mod settle;
mod steps;

pub use lanes::{Lanes, SettledLanes};
pub use load::{Bundle, Load};
pub use port::Port;

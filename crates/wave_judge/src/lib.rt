//! A judge of windows: the leaves of a window are variables, each node above them gets its diagram
//! by a wave, and two literals are compared by their references.
//!
//! **Promises.** What `WaveJudge::judge` finds holds over the leaves, whatever bits these have
//! (`over`). So if it finds two literals equal or complementary, they are so at every assignment
//! (`everywhere`). Every window is allowed, and each has the whole budget (`budget`). The only
//! error is want of memory.
//!
//! **Only tests show** that nothing is refused if there is ample memory, and that a large enough
//! budget suffices (`merge_tests`).
//!
//! **Begin** with `specs/OverLeaves`; then read `judge`, and `diagrams` for what is built.
#![tactic(auto)]

mod bound;
mod diagrams;
mod fault;
mod judge;
mod leaves;

pub use bound::WindowBound;
pub use judge::WaveJudge;

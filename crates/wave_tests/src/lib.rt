//! Tests of the store, of workers, of waves and of plans, by their public calls only.
//!
//! **Only these tests show** what no contract can: that calls succeed if there is ample memory
//! (`refused` also shows what a failed wave leaves), that threads are at one level and in its
//! shards at the same time (`meeting`, `stores`, `wide`), when workers are called in (`earlier`),
//! that each request is reported once, and that a wave fails exactly if it has more requests than
//! its bound (`bounds`), that a wave is stopped before any of its levels (`stopped`), and that each
//! number of workers gives the same answers (`workers`, `widths`). `by_hand` traces the wave that
//! docs/ARCHITECTURE.md works by hand.
//!
//! **Begin** with `waves`.
#![tactic(auto)]

#[cfg(test)]
mod bounds;
#[cfg(test)]
mod by_hand;
#[cfg(test)]
mod children;
#[cfg(test)]
mod clocks;
#[cfg(test)]
mod computed_tables;
#[cfg(test)]
mod cores;
#[cfg(test)]
mod earlier;
#[cfg(test)]
mod expanded;
#[cfg(test)]
mod forks;
#[cfg(test)]
mod lanes;
#[cfg(test)]
mod least;
#[cfg(test)]
mod meeting;
#[cfg(test)]
mod narrow;
#[cfg(test)]
mod plans;
#[cfg(test)]
mod reduced;
#[cfg(test)]
mod refused;
#[cfg(test)]
mod requests;
#[cfg(test)]
mod same_store;
#[cfg(test)]
mod stopped;
#[cfg(test)]
mod stores;
#[cfg(test)]
mod tables;
#[cfg(test)]
mod walks;
#[cfg(test)]
mod waves;
#[cfg(test)]
mod wide;
#[cfg(test)]
mod widths;
#[cfg(test)]
mod words;
#[cfg(test)]
mod workers;

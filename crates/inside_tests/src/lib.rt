//! Tests of pairs that are equal inside: which pairs the rounds find, and of what a monitor is notified. **Begin** with
//! `rounds`.
#![tactic(auto)]

#[cfg(test)]
mod rounds;

//! Pairs of names.

/// Two names of one input, output or register, and the line on which they are given.
#[derive(Drop, Debug)]
pub struct NamePair {
    /// The first netlist's name, which all reports have.
    pub first: Vec<u8>,
    /// The second netlist's name.
    pub second: Vec<u8>,
    pub line: u32,
}

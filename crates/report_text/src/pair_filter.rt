//! The choice of the pairs that are compared.
ghost use Rattle.std.specs.Prelude.{◌≡◌};
ghost use Rattle.report_text.specs.Picking.{share_of};

use crate::outcome::Share;

/// Which pairs of outputs and of next states are compared. Only these have a line in the report. `P` is a pattern: a
/// word of a command line, or the `PairName` that such a word stands for.
#[derive(Drop, Debug)]
pub enum PairFilter<P> {
    /// All pairs.
    All,
    /// The pairs whose name, that of the first netlist's output or register, matches one of these patterns. A pattern
    /// of a next state picks only registers. Each `*` of a pattern matches any run of bytes.
    Only(Vec<P>),
    /// The pairs of one share, for a comparison that several machines divide.
    Share(Share),
}

impl<P> PairFilter<P> {
    /// Returns the share, or none if the pairs are not chosen by a share.
    pub fn share(&self) -> Option<Share>
        ensures { result ≡ share_of self.now }
    {
        match self {
            PairFilter::Share(share) => Some(*share),
            PairFilter::All | PairFilter::Only(_) => None,
        }
    }
}

//! How many verdicts there are of each kind.
ghost use Rattle.std.specs.Prelude.{◌≡◌};
ghost use Rattle.report_text.specs.Lines.{counted};

use crate::outcome::Outcome;
use crate::verdict::Verdict;

/// How many verdicts there are of each kind.
pub fn outcome_of(verdicts: &[Verdict]) -> Outcome
    ensures { result ≡ counted verdicts.now }
{
    let mut outcome = Outcome {
        equal: 0,
        different: 0,
        unmatched: 0,
        undecided: 0,
    };
    for verdict in verdicts {
        match verdict {
            Verdict::Equal { .. } => outcome.equal += 1,
            Verdict::Differs { .. } => outcome.different += 1,
            Verdict::Unmatched { .. } => outcome.unmatched += 1,
            Verdict::Undecided { .. } => outcome.undecided += 1,
        }
    }
    outcome
}

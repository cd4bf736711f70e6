//! The report of a comparison by lines.
ghost use Rattle.std.specs.Prelude.{◌≡◌, IfOk};
ghost use Rattle.report_text.specs.Lines.{report_text};

use crate::assignment::Assignment;
use crate::lines::{add_counts, add_line};
use crate::outcome::Share;
use crate::verdict::Verdict;
use crate::verdicts::outcome_of;
use net_names::names::Names;
use std::alloc::{AllocError, Global};

/// The report of these verdicts over these variables: a line for each verdict, whose assignment
/// shows the variables that are asked for, and last their counts, with the share of the pairs if
/// the report is not of all.
pub fn report_of(
    alloc: Global,
    which: Option<Assignment>,
    share: Option<Share>,
    variables: &Names,
    verdicts: &[Verdict],
) -> Result<Vec<u8>, AllocError>
    ensures { IfOk result (λ text. text.items ≡ report_text which share (record { variables = variables.now; verdicts = verdicts.now })) }
{
    let mut text = Vec::new(alloc);
    for verdict in verdicts {
        add_line(alloc, &mut text, which, variables, verdict)?;
    }
    add_counts(alloc, &mut text, share, outcome_of(verdicts))?;
    Ok(text)
}

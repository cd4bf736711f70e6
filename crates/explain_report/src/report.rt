//! The bytes of a report, in the form that is asked for.
ghost use Rattle.std.specs.Prelude.{◌≡◌, IfOk, option_map};
ghost use Rattle.compare_built.specs.Findings.{found_of};
ghost use Rattle.explain_report.specs.Deciding.{report_bytes};

use compare_built::found::Verdicts;
use compare_built::settings::Settings;
use compare_built::strategy::Attempt;
use report_text::{Cause, Heading, json_of, report_of};
use std::alloc::{AllocError, Global};

/// What a report says of its comparison, besides the settings and the verdicts.
#[derive(Clone, Copy, Drop)]
pub struct Circumstances {
    /// The attempt that decided.
    pub tried: Option<Attempt>,
    /// Whether there was a condition.
    pub given: bool,
    /// Whether an attempt was stopped, or not begun, because the run was stopped.
    pub stopped: bool,
}

/// The report in the form that the settings ask for, with causes if there are any and it is a JSON object.
pub fn form_text(
    alloc: Global,
    settings: &Settings,
    circumstances: Circumstances,
    causes: Option<&[Cause]>,
    verdicts: &Verdicts,
) -> Result<Vec<u8>, AllocError>
    ensures { IfOk result (λ text. text.items ≡ report_bytes settings.now circumstances.tried circumstances.given circumstances.stopped
        (option_map (λ c. c.now) causes.entry) (found_of verdicts.now)) }
{
    let Circumstances {
        tried,
        given,
        stopped,
    } = circumstances;
    let share = settings.picked.share();
    let (variables, list) = (verdicts.variables(), verdicts.as_slice());
    if settings.json {
        let heading = Heading {
            matching: settings.matching,
            kind: settings.order.kind(tried),
            given,
            share,
            stopped,
        };
        json_of(
            alloc,
            &heading,
            settings.assignment,
            causes,
            variables,
            list,
        )
    } else {
        report_of(alloc, settings.assignment, share, variables, list)
    }
}

//! A report as one JSON object.
ghost use Rattle.std.specs.Prelude.{◌≡◌, IfOk, codes, option_map};
ghost use Rattle.report_text.specs.Json.{Adds, names_tokens, settings_tokens, given_tokens, undecided_tokens, share_tokens, counts_tokens};
ghost use Rattle.report_text.specs.Json.{array_tokens, extent_tokens, json_text, stopped_tokens};

use crate::assignment::Assignment;
use crate::cause::Cause;
use crate::json_causes::add_causes;
use crate::json_members::{add_number, add_text};
use crate::json_verdicts::add_judged;
use crate::json_words::{match_word, order_word, text_of};
use crate::order_kind::OrderKind;
use crate::outcome::{Outcome, Share};
use crate::verdict::Verdict;
use crate::verdicts::outcome_of;
use json::Writer;
use net_names::names::Names;
use net_names::order::Match;
use std::alloc::{AllocError, Global};

/// Appends the names of the variables.
fn add_names(out: &mut Writer, names: &Names) -> Result<(), AllocError>
    ensures { Adds result out.old out.new (names_tokens names.now) }
{
    for i in 0..names.len() {
        out.string(text_of(names.at(i)))?;
    }
    Ok(())
}

/// Appends the variables, by level.
fn add_variables(out: &mut Writer, names: &Names) -> Result<(), AllocError>
    ensures { Adds result out.old out.new (array_tokens (codes "variables") (names_tokens names.now)) }
{
    out.key("variables")?;
    out.begin_array()?;
    add_names(out, names)?;
    out.end_array()
}

/// Appends the settings: how the netlists were paired, and in which order the variables were.
fn add_settings(out: &mut Writer, matching: Match, kind: OrderKind) -> Result<(), AllocError>
    ensures { Adds result out.old out.new (settings_tokens matching kind) }
{
    add_text(out, "match", match_word(matching))?;
    add_text(out, "order", order_word(kind))
}

/// Appends that there was a condition, if there was one.
fn add_given(out: &mut Writer, given: bool) -> Result<(), AllocError>
    ensures { Adds result out.old out.new (given_tokens given) }
{
    if given {
        out.key("given")?;
        out.boolean(true)
    } else {
        Ok(())
    }
}

/// Appends how many pairs are undecided, if some are.
fn add_undecided(out: &mut Writer, undecided: u64) -> Result<(), AllocError>
    ensures { Adds result out.old out.new (undecided_tokens undecided) }
{
    if undecided == 0 {
        return Ok(());
    }
    add_number(out, "undecided", undecided)
}

/// Appends the counts.
fn add_counts(out: &mut Writer, outcome: Outcome) -> Result<(), AllocError>
    ensures { Adds result out.old out.new (counts_tokens outcome) }
{
    add_number(out, "equal", outcome.equal)?;
    add_number(out, "different", outcome.different)?;
    add_number(out, "unmatched", outcome.unmatched)?;
    add_undecided(out, outcome.undecided)
}

/// Appends which share of the pairs the report is of, if it is of one.
fn add_share(out: &mut Writer, share: Option<Share>) -> Result<(), AllocError>
    ensures { Adds result out.old out.new (share_tokens share) }
{
    let Some(share) = share else {
        return Ok(());
    };
    out.key("share")?;
    out.begin_array()?;
    out.u64(u64::from(share.number))?;
    out.u64(u64::from(share.of))?;
    out.end_array()
}

/// Appends that the run was stopped, if it was.
fn add_stopped(out: &mut Writer, stopped: bool) -> Result<(), AllocError>
    ensures { Adds result out.old out.new (stopped_tokens stopped) }
{
    if stopped {
        out.key("stopped")?;
        out.boolean(true)
    } else {
        Ok(())
    }
}

/// Appends how much of all pairs the report covers: which share, and whether the run was stopped.
fn add_extent(out: &mut Writer, share: Option<Share>, stopped: bool) -> Result<(), AllocError>
    ensures { Adds result out.old out.new (extent_tokens share stopped) }
{
    add_share(out, share)?;
    add_stopped(out, stopped)
}

/// What a report says of a comparison besides its findings: how signals were paired and variables ordered, whether
/// there was a condition, of which share of the pairs it is, and whether the run was stopped before all attempts were
/// made.
#[derive(Clone, Copy, Drop)]
pub struct Heading {
    pub matching: Match,
    pub kind: OrderKind,
    pub given: bool,
    pub share: Option<Share>,
    pub stopped: bool,
}

/// The findings of a comparison as the text of one JSON object, on one line: the settings, whether there was a
/// condition, the variables by level, the verdicts as in the report by lines, their counts, the causes if they are
/// asked for, the share, and whether the run was stopped. If `which` says which variables an assignment shows, the
/// numbers of buses are there, too. docs/report.schema.json describes it.
pub fn json_of(
    alloc: Global,
    heading: &Heading,
    which: Option<Assignment>,
    causes: Option<&[Cause]>,
    variables: &Names,
    verdicts: &[Verdict],
) -> Result<Vec<u8>, AllocError>
    ensures { IfOk result (λ text. text.items
        ≡ json_text which heading.now.matching heading.now.kind heading.now.given heading.now.share heading.now.stopped
        (option_map (λ c. c.now) causes.entry) (record { variables = variables.now; verdicts = verdicts.now })) }
{
    let Heading {
        matching,
        kind,
        given,
        share,
        stopped,
    } = *heading;
    let mut out = Writer::new(Vec::new(alloc));
    out.begin_object()?;
    add_settings(&mut out, matching, kind)?;
    add_given(&mut out, given)?;
    add_variables(&mut out, variables)?;
    add_judged(alloc, &mut out, which, variables, verdicts)?;
    add_counts(&mut out, outcome_of(verdicts))?;
    add_causes(&mut out, causes)?;
    add_extent(&mut out, share, stopped)?;
    out.end_object()?;
    let mut text = out.into_inner();
    text.push(b'\n')?;
    Ok(text)
}

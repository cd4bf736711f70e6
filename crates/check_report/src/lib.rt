//! The public functions of a comparison: from the texts of two netlists to the report.
//!
//! A run of the program makes one call: `check_tool` calls `check`, or with `--print-order`
//! `print_order`. `judge` is for callers who want verdicts as values. What is re-exported below is
//! what a caller needs of the crates further down: the settings and the faults, the report as
//! values, and three questions for the lines after a fault or a report (`has_pair` and
//! `has_picked`, which name it is that is refused; `cone_limit`, within how many nodes a pair was
//! tried).
//!
//! **Promises.** `judge` returns the verdicts of what was read, and `check` writes their report and
//! nothing else (`decision`, `report`): EQUAL exactly if the functions agree at each assignment at
//! which the condition holds, and otherwise the least difference, or one that is reported as maybe
//! not the least. A fault has its cause (`fault`), and nothing was written (`untouched`); with
//! Write a front part of the report was written (`unwritten`). The attempts before the reported one
//! were given up (`earlier_given_up`). The faults that may be returned, and what each of them
//! implies, are one table (`answer`, `MayAnswer` in `specs/Refusals`). Full: the named order, or
//! the order of each candidate, needs more nodes than the limit. GivenUp: each attempt was given
//! up, and one of them for another cause than its nodes. Neither of these two is returned if pairs
//! may be judged by their cones. NoWorker: an order is named, and nothing bounds the requests.
//! TooManyRequests: a wave has more requests than the bound. Stopped: the monitor may stop the run,
//! and no pair may be judged by its cones. A name is refused only if it is unknown. `print_order`
//! writes the order (`order`). The laws are `limits`, `one_report`, `without_condition`,
//! `conjunctions`, `shares` and `refusals`.
//!
//! **Only tests show** what a monitor is notified of about attempts and workers, and what happens
//! with devices that fail at each byte (`report_tests`).
//!
//! **Begin** with `specs/Report` and `specs/Conditions` of `compare_built`, which define verdicts
//! over functions only, `specs/Deciding` of `explain_report`, and `specs/Decisions`; then read
//! `check_run` (texts and devices), `full_report` (the report of a task) and `decision` (an order
//! that is named, or the best), `pairs` (pair by pair, and auto), `whole` (the attempts at the
//! whole netlists that auto makes) and `merging` (rounds of merging). `listing` and `ordering` are
//! to `print_order` what `check_run` and `full_report` are to `check`. Other crates do the work:
//! `compare_built` compares in one order, `order_search` tries several orders, `pair_facts`
//! evaluates patterns, `inside_check` merges equal signals, `cone_check` compares pairs by their
//! cones, and `explain_report` explains differences.
#![tactic(auto)]

mod check_run;
mod decision;
mod full_report;
pub mod laws;
mod listing;
mod lone_variables;
mod merging;
mod ordering;
mod pairs;
mod reading;
mod whole;

pub use check_run::{check, judge};
pub use compare_built::fault::CheckFault;
pub use compare_built::found::Verdicts;
pub use compare_built::named_signals::has_picked;
pub use compare_built::settings::Settings;
pub use compare_built::strategy::{Attempt, AttemptOrder, Candidate, Strategy};
pub use compare_built::task::Context;
pub use cone_check::rounds::cone_limit;
pub use explain_report::explanations::has_pair;
pub use listing::print_order;
pub use report_text::{
    Assignment, Bits, Cause, Difference, Heading, Name, Outcome, PairFilter, PairKind, PairName,
    Share, Side, Verdict, json_of, report_of, write_whole,
};

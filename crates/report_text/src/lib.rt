//! The findings of a comparison and their text: verdicts, their lines, one JSON object of them, and the writing of bytes to a device.
//!
//! **Promises.** `report_of` answers the bytes of the lines of verdicts and their counts, and `json_of` those of the
//! one JSON object, which may have causes; `outcome_of` answers the counts by themselves. `write_whole` writes all bytes
//! (`ok`), or a front part of them for a cause that the device shows (`err`). A bus's text is its number (law `bus_texts`).
//!
//! **Only tests show** that an independent reader accepts the JSON object and the schema fits (`tests/objects.py`), and
//! what happens with devices that fail at each byte (`report_tests`).
//!
//! **Begin** with `specs/Lines` and `Json`, and with `verdict`; then read `lines` and `as_json`. `specs/Buses` says
//! which variables are a bus.
#![tactic(auto)]

mod as_json;
mod assignment;
mod buses;
mod cause;
mod difference;
mod json_causes;
mod json_members;
mod json_verdicts;
mod json_words;
pub mod laws;
mod lines;
mod order_kind;
mod outcome;
mod pair_filter;
mod report;
mod verdict;
mod verdicts;
mod write;

pub use as_json::{Heading, json_of};
pub use assignment::Assignment;
pub use cause::{Cause, PairName};
pub use difference::Difference;
pub use order_kind::OrderKind;
pub use outcome::{Outcome, PairKind, Share, Side};
pub use pair_filter::PairFilter;
pub use report::report_of;
pub use verdict::{Bits, Extras, Name, Verdict};
pub use verdicts::outcome_of;
pub use write::write_whole;

//! The command line of the program: which options its arguments ask for.
//!
//! **Promises.** `read_options` answers only options that the arguments ask for, as defined by clap's matches of this
//! very command (`options`). It refuses arguments only for the first fault that clap finds, for two arguments that
//! exclude each other, for a memory or share that is none, or for want of memory (`refused`). An empty command line
//! asks for the defaults (law `no_words`), `--version` for the line with the version (`version_word`).
//!
//! **Only tests show** the texts of help and of mistakes (`tests/stored.txt`), and that help, the manual page and the
//! completions have the same options (`tests/papers.py`).
//!
//! **Begin** with `specs/Words` and `Defaults`; then read `command` with its `arguments`, `from_matches`, which makes
//! options of the matches by their `values`, and `conflicts`, which says what excludes what.
#![tactic(auto)]

mod arguments;
mod command;
mod conflicts;
mod from_matches;
mod help;
pub mod laws;
mod options;
mod reading;
mod share;
mod size;
mod values;

pub use options::{Options, OrderChoice, Texts};
pub use reading::{Refused, read_options};

//! A run of the program: from its arguments, its files and its devices to its output and its exit status.
//!
//! **Promises.** A run by `tool::run_tool` or `process::status_of` ends with the report that the arguments ask for, or
//! with a fault that has its cause, its line, the line of what helps and its status, or with refused arguments
//! (`ending`). With status 2 nothing was written (`untouched`). With status 0 or 1 nothing was printed on standard
//! error, unless `--verbose` or `--seconds` is given, standard error is a terminal, or a pair is undecided (`silent`).
//! If a pair differs, the file for the VCD has its values (`ending`). `run::run_options` promises the same of options:
//! the report (`report`, `unwritten`), the files that were opened, in their order (`opened`), that the input is read
//! only if a text is on it (`input_unread`), faults and their causes (`fault`), and which faults are possible (`may`).
//! `split::split_input` divides a text at the first line `%%`, and `fault::status_of_fault` is the exit status of a
//! fault (`status`). The law is `failures`.
//!
//! **Only tests show** how the built program deals with files, pipes, terminals and signals (`tests/run.sh`), what
//! progress it prints (`report_tests`), and which cause it notes for undecided pairs (`tests/stored.txt`).
//!
//! **Begin** with `tool`, then read `run` (which texts are compared) and `compare`: files are opened (`files`), and
//! `check_report` is called with the settings of `settings`. How a run ends is defined in `specs/Ending`, its causes in
//! `specs/Running`, its steps in `specs/Comparing`.
#![tactic(auto)]

mod compare;
pub mod done;
pub mod fault;
mod files;
pub mod folder;
mod help;
pub mod laws;
mod names;
pub mod process;
pub mod progress;
pub mod quote;
mod remedy;
pub mod run;
pub mod run_monitor;
mod saving;
mod say;
mod settings;
pub mod split;
pub mod terminal;
pub mod tool;
pub mod undecided;
mod verbose;

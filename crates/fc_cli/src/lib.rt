//! Shared parts of the programs: command lines, exit statuses, first message ID.
//!
//! The programs are `fcd`, `fcreq`, `fcasm`, `fcreplay`, `fcexamples`, `fcvectors` and `fctrace`.
//!
//! # What is proved
//!
//! - Each outcome of a program has its own exit status. Words that aren't a command give 2. Help
//!   and the version give 0, and a failed allocation gives 3.
//! - A program ends with 0 or 1 only if its work returned that status.
//! - An option, a flag or a positional argument has the given names and help, and is optional.
//!
//! By the contracts of `Status`, `Stop::status`, `exit_code`, `explain`, `run_main`,
//! `argument::option`, `flag`, `positional`.
#![tactic(auto)]

pub mod argument;
pub mod command_line;
pub mod message_id;
pub mod status;
pub mod stop;

pub use status::Status;

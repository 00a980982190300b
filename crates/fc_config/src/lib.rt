//! The configuration of `fcd`: the command line, its options, and the values that they give.
//!
//! A module makes an option and reads its value: [`options`] those of `fcd serve`, [`policy`] those
//! of the policy, [`every`] the timers, and [`logging`] the records that are logged. [`command`]
//! joins them to the command line.
//!
//! ```rust
//! use clap::ArgMatches;
//! use fc_config::options::ServeConfig;
//!
//! /// Returns the number of workers of `fcd serve`, or `None` if an option is bad.
//! fn workers_of(matches: &ArgMatches<'_>) -> Option<u8> {
//!     Some(ServeConfig::from_matches(matches).ok()?.extent.workers)
//! }
//! ```
//!
//! # What is proved
//!
//! - **The options of `fcd serve`** are the values that the command line gives
//!   (`ServeConfig::from_matches`, by `IsServeConfig`). Tests show their defaults.
//!   `DEFAULT_EXTENT` has two workers and no limit (`laws`).
//! - **The policy** is that of `--managers`, `--exchanges`, `--share` and `--confirm-after`. There
//!   is none exactly if these options give none (`policy_in`).
//! - **Timers**: each value of `--every` is that of a timer, with a period of 1 ms to a day and a
//!   slot of 0 to 63. Otherwise the error is that of the first value that is refused (`timers_in`,
//!   `laws`).
//! - **Logs**: the records are those of the values of `--log`, and the period of reports is that of
//!   the last value that gives one (`ServeConfig::from_matches`, by `AreLogsIn`, and `laws`).
//!
//! By the contracts of `ServeConfig::from_matches`, `policy_in`, `timers_in`, `laws`.
#![tactic(auto)]

pub mod command;
pub mod every;
pub mod laws;
pub mod logging;
pub mod options;
pub mod policy;

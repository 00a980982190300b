//! Text that the programs read and print.
//!
//! It consists of lines, numbers, hex digits, a server's policy, and emissions as `peer hex`.
//!
//! # What is proved
//!
//! - A line is accepted exactly if it has one of three forms: a datagram, a time, or a time with
//!   readings.
//! - Numbers and hex digits are parsed exactly. An emission is written as `peer hex`.
//! - The text of a network is accepted exactly if it is an IPv4 address, a slash and 0 to 32. A
//!   policy has the networks of the texts, and the limits given with the texts.
//!
//! By the contracts of `line::parse`, `line::number`, `hexadecimal`, `emission::print`,
//! `policy::network`, `policy`.
#![tactic(auto)]

pub mod emission;
pub mod hexadecimal;
pub mod limit;
pub mod line;
pub mod policy;

pub use limit::LineLimit;
pub use line::{Line, LineError};

//! Shared parts of the crates of tests: failing writers and readers, ports, and images.
//!
//! The crate has no tests of its own. It uses no other crate, so that each crate of tests can be
//! checked once the crates that it tests are proved.
#![tactic(auto)]

pub mod datagrams;
pub mod faulty;
pub mod images;
pub mod ports;

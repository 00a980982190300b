//! Tests of played lines, of command lines, and of the slots of a start.
//!
//! No test uses a socket or a thread. The expected responses are worked out by hand from the RFCs of
//! the protocol and of the instructions. The cases of fcvectors test the output of the programs for
//! lines, lists of events, sources and images.
#![tactic(auto)]

#[cfg(test)]
mod command_tests;
#[cfg(test)]
mod play_tests;
#[cfg(test)]
mod reply_tests;
#[cfg(test)]
mod store_tests;
#[cfg(test)]
mod update_tests;

//! Tests of the server over sockets and scripts: clients, logs, reports, timers, and waits.
//!
//! The expected responses are worked out by hand from the RFCs of the protocol and of the
//! instructions.
#![tactic(auto)]

#[cfg(test)]
mod failing_tests;
#[cfg(test)]
mod listening_tests;
#[cfg(test)]
mod ping_tests;
#[cfg(test)]
mod policy_tests;
#[cfg(test)]
mod record_tests;
#[cfg(test)]
mod report_tests;
#[cfg(test)]
mod restored_tests;
#[cfg(test)]
mod sensor_tests;
#[cfg(test)]
mod serving;
#[cfg(test)]
mod socket_tests;
#[cfg(test)]
mod timer_tests;
#[cfg(test)]
mod wait_tests;

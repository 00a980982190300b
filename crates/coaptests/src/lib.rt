//! Tests of CoAP messages, options, exchanges and blocks, and of the client.
//!
//! The expected datagrams are worked out by hand from the RFCs of the protocol. No test uses the
//! server: a script or a socket takes its place.
#![tactic(auto)]

#[cfg(test)]
mod address_tests;
#[cfg(test)]
mod client_tests;
#[cfg(test)]
mod exchange_tests;
#[cfg(test)]
mod fetch_tests;
#[cfg(test)]
mod message_tests;
#[cfg(test)]
mod notice_tests;
#[cfg(test)]
mod peer_tests;
#[cfg(test)]
mod request_tests;
#[cfg(test)]
mod response_tests;
#[cfg(test)]
mod scripted;
#[cfg(test)]
mod separate_tests;
#[cfg(test)]
mod smaller_block_tests;
#[cfg(test)]
mod transfer_tests;

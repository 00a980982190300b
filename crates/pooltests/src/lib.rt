//! Tests of workers, their locks and channels, of saves in a store, and of allocations.
//!
//! No test uses a socket: a driver passes datagrams to the server. `memory_tests` makes the calls
//! whose allocations tests/refused-memory refuses.
#![tactic(auto)]

#[cfg(test)]
mod counted_tests;
#[cfg(test)]
mod driver;
#[cfg(test)]
mod head_tests;
#[cfg(test)]
mod id_tests;
#[cfg(test)]
mod job_tests;
#[cfg(test)]
mod lock_tests;
#[cfg(test)]
mod memory_tests;
#[cfg(test)]
mod overtaking_tests;
#[cfg(test)]
mod pool_tests;
#[cfg(test)]
mod saving_tests;
#[cfg(test)]
mod told_tests;

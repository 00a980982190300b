//! Execution of a whole list of events, with its emissions and final slots.
//!
//! For any list of events, [`run_world`] calls the functions of `fc_server` that a running server
//! calls. The contract of `run_world` is the server's main guarantee. Each emission is legal by the
//! definitions of `fc_core`. Each slot has the state that the history gives it. Each run of an
//! accepted program reaches the program's exit within the program's budget.
//!
//! ```rust
//! use coap_msg::{Emission, Endpoint};
//! use fc_world::{Event, run_world};
//! use std::alloc::{AllocError, Global};
//!
//! /// Returns the immediate response to a first datagram, or `None`. No job is run.
//! fn first_reply(
//!     alloc: Global,
//!     endpoint: Endpoint,
//!     bytes: &[u8],
//! ) -> Result<Option<Emission>, AllocError> {
//!     let event = Event::Deliver {
//!         now: 0,
//!         endpoint,
//!         bytes,
//!     };
//!     let mut world = run_world(alloc, &[event])?;
//!     Ok(world.emissions.pop().flatten())
//! }
//! ```
//!
//! # What is proved
//!
//! - For every list of events, each emission is legal, and the result has one entry for each event.
//! - The 64 slots and the times of the eight shards are those of the history's state. A slot's
//!   commits are a chain; the newest commits are in the slot's ring.
//! - Each snapshot that found a program has a meaning. Its run takes at most the steps of the
//!   program's longest path, and the longest path is within the program's budget.
//! - A job with several snapshots runs with the readings of the last snapshot, and the job's answer
//!   comes from these readings.
//! - `run_world_from` gives the same guarantees for a server that begins with another serial,
//!   message ID and policy.
//! - `run_world_over` gives them for a server whose slots are restored from stored states. A ring
//!   then counts the commits from the start, or from the slot's last install after it.
//!
//! By the contracts of `run_world`, `run_world_from`, `run_world_over`.
#![tactic(auto)]

pub mod run;
mod state;

pub use fc_core::Event;
pub use run::{World, run_world, run_world_from, run_world_over};

//! A server on one thread: front, shards and machine, with one call for each event.
//!
//! - [`Server`] consists of these parts. Each of its calls applies one event to a task, as defined
//!   for the stage of the task's job.
//! - [`Engine`] runs and answers the job of each datagram.
//! - [`SingleThread`] is an engine with the input for the engine's jobs. It implements [`Ingress`],
//!   the trait of servers that handle datagrams.
//! - [`flush::Flushing`] takes the steps that remain at one time, for any ingress.
//!
//! ```rust
//! use coap_msg::{Emission, Endpoint};
//! use fc_front::front::blank_emission;
//! use fc_help::NO_READINGS;
//! use fc_server::{Engine, NoWitness};
//! use std::alloc::Global;
//!
//! /// Returns the response to a datagram, whose job gets readings of zeros.
//! fn reply(
//!     alloc: Global,
//!     engine: &mut Engine,
//!     now: u64,
//!     from: Endpoint,
//!     bytes: &[u8],
//! ) -> Option<Emission> {
//!     let mut reply = blank_emission();
//!     let readings = &NO_READINGS;
//!     if engine.handle(alloc, now, from, bytes, readings, &mut reply, &mut NoWitness) {
//!         Some(reply)
//!     } else {
//!         None
//!     }
//! }
//! ```
//!
//! # What is proved
//!
//! - Each call is an event. The effect of a datagram is the list of events of one job, whatever the
//!   history before. The job's snapshot gets the readings that were passed to the call.
//! - **A witness** observes the job of each request once, with the emission of the job's answer,
//!   and nothing else.
//! - A signal goes to each shard.
//! - A timer that fires runs one job of the timer's slot, and sends nothing.
//! - The tick of a shard returns the shard's retransmission, the removal of an observer, or that no
//!   notification has timed out.
//! - A shard grants a lease exactly if one of its observers has a pending notification. The lease
//!   runs by the events of its job.
//! - `Engine::notify` returns `Starved` only if no message ID was available, and `Unsent` only for
//!   a slot that has a program.
//! - Before the time that `idle_until` returns for a shard, no notification times out there and no
//!   observer has a pending one. This holds unless the server is called.
//! - **Flushing** goes over the shards in order. It stays at each shard, first until no
//!   notification has timed out, then until no observer has a pending one. At the end this was
//!   found for each shard, or no message ID was available. `flush::idle_until` returns the earliest
//!   of the times that the shards return.
//! - **Gauges** are those of the front at a time, with the number of each slot's observers and the
//!   number of jobs sent to workers. On one thread no job is sent. A read of them is no event. Their
//!   text is exact.
//! - A first state over stored slots has the restored slots, without observers, and the head words
//!   of the restored programs. Otherwise the error names a slot that isn't restored, with the
//!   reason, or says that memory can't be allocated. Some history leaves each first state without
//!   jobs. `Engine::over` and `SingleThread::over` make a server in any first state.
//!
//! By the contracts of `FirstServer`, `Server`, `Engine::over`, `handle`, `tick`, `fire`, `resend`,
//! `notify`, `idle_until`, `gauges`, `SingleThread`, `Gauges`, `ObserverCounts`, `Flushing::begin`,
//! `step`, `flush::idle_until`.
#![tactic(auto)]

pub mod alone;
pub mod engine;
pub mod first;
pub mod flush;
pub mod gauges;
pub mod ingress;
pub mod observer_counts;
pub mod server;
pub mod witness;

pub use alone::SingleThread;
pub use engine::Engine;
pub use first::FirstServer;
pub use gauges::Gauges;
pub use ingress::Ingress;
pub use observer_counts::ObserverCounts;
pub use server::{Begin, DEFAULT_BEGIN, Server};
pub use witness::{NoWitness, Witness};

//! A pool: a server with locks, its workers, and a driver of datagrams.
//!
//! [`run_pool`] makes the server, starts its workers, and lets a [`Driver`] handle datagrams. In
//! the end it closes the server. `fc_service` drives a pool with lines or with a socket.
//!
//! ```rust
//! use fc_pool::{Driven, Driver};
//! use fc_server::Ingress;
//! use std::sync::Wait;
//!
//! /// Lets one second pass.
//! struct OneSecond;
//!
//! impl Driver<()> for OneSecond {
//!     fn drive<N: Ingress, R: Wait>(self, rt: &R, mut ingress: N) -> Driven<N, ()> {
//!         let _ = rt;
//!         ingress.tick(1_000);
//!         Driven { ingress, given: () }
//!     }
//! }
//! ```
//!
//! # What is proved
//!
//! - **A pool** begins with the first state that its caller passes: empty slots, or slots restored
//!   from stored states. It returns at its end the front and eight shards. For each shard it also
//!   returns the number of changes of its slots. The serials of each shard have risen by exactly
//!   these numbers, which are reported up to 2^64 - 1. The filed calls of its workers led to these
//!   shards. Its driver's dispatcher sends jobs by the pool's dispatch policy. If the pool reports
//!   that no worker was started, the dispatcher sends no job to a worker (`offload_where`). A test
//!   shows that it reports this only if no thread could be created.
//! - **One history**: the calls that the dispatcher and the workers filed have one order, with each
//!   thread's calls in its own order. It leads from the server's first state to the closed server.
//!   It legally continues each history that leaves this state without jobs (`HaveLegalOrder`). The
//!   saves of the store have their place in the order (`HaveSavedOrder`).
//! - The contract passes on the driver's effects on a new dispatcher (`IsFedBeside`). It names one
//!   share for each worker, of some handles at the dispatcher's channel (`AreSharesAt`). It doesn't
//!   say that they are those of the started threads, nor that a sent job is received.
//! - **Replies** are counted and added exactly, up to 2^64 - 1: those of each worker's jobs and of
//!   the dispatcher's own.
//! - **Records**: a worker records each change that it has answered, once, right after the answer.
//!   A change is a job that installs or removes a program. No other job is recorded.
//!
//! By the contracts of `run_pool`, `no_store`, `Replies`, `SentReplies`, `laws`.
#![tactic(auto)]

pub mod laws;
pub mod pool;
pub mod replies;

pub use pool::{Driven, Driver, Fed, Pool, no_store, run_pool};
pub use replies::{Replies, SentReplies};

//! A channel of numbered jobs: one sender, many workers, each job to one of them.
//!
//! The channel has 256 places. The sender has the `Sent`, and each worker has a `Got`. A job gets
//! the next number when it is sent, from 0 on. When a call returns, the `Sent` lists all jobs that
//! were sent, and a `Got` all jobs that its worker received. The channel's rule (`specs/Once.antt`)
//! holds under every schedule. A job that a worker receives was sent under its number, and no
//! number is received twice, by one worker or by two. The contracts don't say that a call returns.
//!
//! A job travels in a message of type `M`, which the caller chooses. A fact of each message can be
//! an invariant of its type; the worker that receives the message then knows this fact.
//!
//! ```rust
//! ghost use Rattle.std.specs.Prelude.{◌≡◌, ℕ, ◌+◌, length, MatchOption};
//!
//! use fc_jobs::{Got, Jobs};
//! use std::sync::Wait;
//!
//! /// Returns the number of the next job, if one is left; the worker's list then has one job more.
//! fn next_number<M: Drop, R: Wait>(rt: &R, jobs: &Jobs<M>, got: &mut Got<M>) -> Option<u64>
//!     requires { got.old.channel ≡ jobs.now }
//!     ensures { MatchOption result (got.new ≡ got.old)
//!         (λ number. length got.new.got ≡ length got.old.got + 1) }
//! {
//!     let (number, _message) = jobs.next(rt, got)?;
//!     Some(number)
//! }
//! ```
//!
//! # What is proved
//!
//! - A job is sent under the next number, from 0 on, or returned. A job that a worker receives is
//!   listed with its number, which is new to that worker.
//! - `Sent::count` returns how many jobs were sent.
//! - Every send and receive keeps the channel's rule: a job that was received was sent under its
//!   number, and no number is received twice. The contracts don't say that a call returns.
//!
//! By the contracts of `Jobs::new`, `send`, `next`, `Sent::count`.
#![tactic(auto)]

mod ends;
pub mod jobs;
pub mod protocol;

pub use ends::{Got, Jobs, Sent};
pub use protocol::Numbered;

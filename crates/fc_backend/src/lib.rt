//! The backend of workers: its calls, the logs of workers, and their statistics.
//!
//! A worker runs jobs with the calls of a [`Bench`], such as a server with locks (`fc_locked`).
//! Many workers run jobs at the same time, and other workers change the slots between two calls of
//! a job. So a contract of [`Bench`] mentions no shard: it states for each call what a shard
//! returns at some slot. A worker also calls a source of times ([`TimeSource`]), the hooks
//! of a caller ([`Gate`]) and a transmitter ([`Wire`]). A server asks its [`Device`] for readings.
//!
//! Each call that may change something, or whose result is soon out of date, gets the worker's log.
//! So contracts state that these calls were made in this order, and no others with this log. A
//! [`TrackLog`] also has the worker's tracks in the server's book. The server files on them the
//! calls of its front, shards and head words, images that aren't installed, and updates that its
//! store refuses. Gates, transmitters and clocks get its [`CallLog`] alone.
//!
//! ```rust
//! use coap_msg::Emission;
//! use fc_backend::{CallLog, Gate};
//! use fc_ticket::Job;
//! use std::sync::Wait;
//!
//! /// Hooks that do nothing.
//! struct Open;
//!
//! impl Gate for Open {
//!     fn between<R: Wait>(&self, rt: &R, number: u64, log: &mut CallLog) {
//!         let _ = (rt, number, log);
//!     }
//!
//!     fn after_answer(&self, job: &Job, has_reply: bool, reply: &Emission, log: &mut CallLog) {
//!         let _ = (job, has_reply, reply, log);
//!     }
//! }
//! ```
//!
//! # What is proved
//!
//! - **The log of a worker**: each logged call leads the log on from the log's state after the call
//!   before it. So with this log no call was made twice, out of order, or in addition. Calls
//!   without a log change nothing. One such call can stand for a later one with the same result.
//!   They are the random words and the calls of `BenchCall`: the times until which shards stay
//!   idle, the shards that aren't idle now, the gauges, the numbers of observers, the refused saves,
//!   and the slots whose shard is found being saved.
//! - A backend files each logged call, once, by its caller; a call for readings isn't filed. A
//!   change is filed with its save (`FilesEach`).
//! - The first track of a log is that of the worker's job. An entry for a job is the last one on
//!   the worker's own track and on the first one. Only `begin_logs` makes a `TrackLog`: one for each
//!   thread of a book, from the first owner of the book's tracks.
//! - A look at a head word returns at least every word of the slot that the worker knows. A worker
//!   knows the words that it read, and those to which it raised the word. It forgets none (`laws`).
//! - A job that is sent takes its track along, with one entry: the call that produced it
//!   (`JobMessage`). A track is right if its first entry produces the job, and the others are the
//!   operations that its stages need. `HaveRightTracks` states that of all logs; a law has an
//!   example (`two_timers_have_right_tracks`).
//! - Not claimed: that a call returns, or when; which slot a call meets.
//!
//! By the contracts of `TrackLog`, `JobMessage`, `JobKeys`, `begin_logs`, `Share`, the clauses of
//! `Bench`, `TimeSource`, `Gate`, `Wire`, `Device`, `laws`.
#![tactic(auto)]

pub mod bench;
pub mod call_log;
pub mod gate;
pub mod host;
pub mod job_keys;
pub mod job_message;
pub mod laws;
pub mod share;
pub mod track_log;
pub mod wire;

pub use bench::Bench;
pub use call_log::CallLog;
pub use gate::Gate;
pub use host::{Device, TimeSource};
pub use job_keys::JobKeys;
pub use job_message::JobMessage;
pub use share::{Share, ShareOf};
pub use track_log::{TrackLog, begin_logs};
pub use wire::Wire;

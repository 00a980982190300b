//! Workers that run jobs with the calls of a backend, and the dispatcher that sends them.
//!
//! A job is run by calls, each at the stage that needs it. A request's job takes a snapshot, runs,
//! commits and raises a head word, or it installs, removes, describes, or reads head words. The
//! result of a call alone determines the next stage (`fc_core`'s `Stage`). The calls are those of a
//! `Bench` (`fc_backend`), whose contracts mention no shard: many workers run jobs at the same time.
//!
//! `specs/Work.antt` defines the calls that lead to a job's answer. `specs/Shares.antt` defines how
//! a worker's statistics (`Share` of `fc_backend`) follow from its jobs. The worker has run and
//! ended exactly the jobs that its `Got` gained, and its tallies have risen by the changes that the
//! results of its calls report.
//!
//! The contracts don't say which slot a call meets: a backend's implementation has to take the
//! snapshot of the job's own slot. Nor do they say that a call returns, or when.
//!
//! ```rust
//! ghost use Rattle.std.specs.Prelude.{◌≡◌, vec_len};
//!
//! use fc_backend::{Bench, Gate, JobMessage, ShareOf, TimeSource, TrackLog, Wire};
//! use fc_workers::{Context, drive_workers, make_seats};
//! use std::alloc::AllocError;
//! use std::sync::Wait;
//! use std::thread::Threads;
//!
//! /// Runs one job, with a worker for each of these tallies and logs, and returns their
//! /// statistics.
//! fn work_one<B: Bench + Sync, G: Gate + Sync, W: Wire + Sync, M: TimeSource + Sync, R>(
//!     context: &Context<'_, B, G, W, M, R>,
//!     tallies: Vec<B::Tallies>,
//!     logs: Vec<TrackLog<B::Book>>,
//!     message: JobMessage<B::Book>,
//! ) -> Result<Vec<ShareOf<B::Tallies, B::Book>>, AllocError>
//! where
//!     R: Threads + Wait + Sync,
//!     requires { vec_len logs ≡ vec_len tallies }
//! {
//!     let (jobs, mut sent, seats) = make_seats(context.alloc, tallies, logs)?;
//!     let channel = &jobs;
//!     let (_back, shares) = drive_workers(
//!         context,
//!         channel,
//!         seats,
//!         move |_staffed| -> Option<JobMessage<B::Book>>
//!             requires { sent.channel ≡ channel.now }
//!         { channel.send(context.rt, message, &mut sent) },
//!     );
//!     shares
//! }
//! ```
//!
//! # What is proved
//!
//! - **A request's job** reaches its answer by a list of calls from its first stage. Each is the
//!   call that its stage needs, with the result of its shard at some slot. At most eight take a
//!   snapshot. A look reads the head word of the job's slot, or, for a list, of each slot in order.
//!   The head word of the job's slot is raised to the word that its change returned.
//! - Right before each snapshot the backend is asked for readings, once, and the snapshot gets
//!   these. A worker whose snapshot has zeros of its own, or an earlier snapshot's readings, has
//!   no proof.
//! - Each run is committed after the gate let the job through, once for each run, at the time that
//!   is requested next. Then some front answers the job, once, at a time that is requested right
//!   before, with a datagram or with none. Right after the answer the gate is called with the job
//!   and its reply, once (`GivesAnswer`). A lease's job makes no such call.
//! - **A lease's job** takes one snapshot and changes no slot. If the snapshot is a ticket or an
//!   empty slot, and a message ID is available, some shard notifies the lease's observer of it,
//!   once. The message ID is drawn from some front, and the random word is a requested one. A
//!   datagram or none results. If the snapshot is stale, there is no datagram. If no ID is
//!   available, or memory is refused, there is no datagram, and the lease is released at a time
//!   that was requested.
//! - **The transmitter**: if a job results in a datagram, the transmitter gets it once, under the
//!   job's number. One more reply is counted as sent or as failed, by the result of that call. The
//!   last call reports to the transmitter, once, that the job has ended. A datagram that the
//!   transmitter gets is the answer of some front to some job, or the notification of some shard to
//!   some observer.
//! - **A worker's statistics**: the worker has ended as many jobs as it received, up to 2^64 - 1.
//!   Its tallies have risen by the changes that the results of its calls report. The result for
//!   each worker seed of a pool is its statistics.
//! - **A dispatcher** has each datagram handled once. If a delivery or a lease results in a job, it
//!   sends the job to the workers under the next number, or runs the job and ends it. It sends the
//!   job only if its policy allows that. Without a job it does neither.
//! - A dispatcher passes a signal to each of eight shards, once, as it was received. It asks the
//!   given shard once, and advances the front to the given time once. Its calls are in the log of
//!   its statistics, as a worker's are.
//! - An expensive job is a run of at least a given cost. The cost is read in the job's slot, and
//!   the read is a logged call. A policy may also send each job that may change its slot, without a
//!   read of the cost. Any other job changes no slot (`laws`). Such a policy also sends a job that
//!   runs or describes a program if the backend finds the slot's shard being saved
//!   (`Bench::is_saving`). So the dispatcher doesn't wait for that save.
//! - Before a dispatcher sends a job, it files nothing for it but the call that produced it. Its
//!   log has at most two calls since then: for the readings of a snapshot that wasn't taken, and
//!   for the cost. A job that isn't sent is run here, with at most eight snapshots.
//! - **Tracks of jobs**: a job's track is right if its first entry produces the job, and the others
//!   are the operations that its stages need. Each job's track in a dispatcher's log is right. The
//!   jobs that the dispatcher produced have the next keys, in order (`Dispatcher::close`). A job
//!   that is sent takes its track along, with one entry: the call that produced it (`JobMessage`).
//!   The entries that a worker files for a job lead the job from its first stage to its end. So a
//!   worker keeps its tracks right (`laws`).
//! - A dispatcher returns how many jobs it sent. It skips or advances a shard that is idle;
//!   otherwise nothing changes (`IsAdvancedOrSkipped`).
//!
//! By the contracts of `Context::work_off`, `Context::work`, `worker`, `run_workers`,
//! `drive_workers`, `Dispatcher::handle`, `notify`, `offloaded`, `Dispatcher::close`, `laws`.
#![tactic(auto)]

pub mod context;
pub mod dispatcher;
mod dispatcher_state;
pub mod laws;
pub mod notify;
pub mod pool;
pub mod scratch;
pub mod work;
pub mod worker_seed;

pub use context::{Context, WorkerParts};
pub use dispatcher::{Dispatched, DispatchedOf, Dispatcher, Offload};
pub use pool::{drive_workers, make_seats, run_workers};
pub use scratch::Scratch;
pub use worker_seed::{SeedOf, WorkerSeed, worker};

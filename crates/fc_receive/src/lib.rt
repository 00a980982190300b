//! The receive loop of a server: rounds of datagrams, with timers and reports.
//!
//! A round receives a datagram or none, passes it to an `Ingress` of `fc_server`, and has the
//! shards retransmit and notify. `fc_service` runs the rounds of a server on one thread, and those
//! of the dispatcher of workers.
//!
//! ```rust
//! use fc_backend::TimeSource;
//! use fc_host::socket::{Sink, Source};
//! use fc_pool::Driven;
//! use fc_receive::reports::Reports;
//! use fc_receive::rounds::Unprepared;
//! use fc_receive::timed::{TimersOf, run_timed};
//! use fc_record::Reporter;
//! use fc_server::Ingress;
//! use std::sync::Wait;
//!
//! /// Receives one datagram, and returns the server as its round left it.
//! fn receive_one<R: Wait, N: Ingress, S: Source, K: Sink, M: TimeSource, Q: Reporter>(
//!     rt: &R,
//!     server: N,
//!     source: &mut S,
//!     sink: &K,
//!     times: &M,
//!     reports: &Reports<'_, Q>,
//!     timers: TimersOf<'_>,
//! ) -> N {
//!     let Driven { ingress, given: _replies } =
//!         run_timed(rt, server, &Unprepared, source, sink, times, 1, reports, timers);
//!     ingress
//! }
//! ```
//!
//! # What is proved
//!
//! - **A server on a socket** receives in one loop, on one thread or as the dispatcher of workers
//!   (`run_rounds`, by `HasRun`). Its rounds follow one another on one server. A round receives a
//!   datagram or none, and then reads the time. At this time a received datagram is handled, once,
//!   whole and from its endpoint. If none was received, time passes. Then the shards are called one
//!   after the other, 0 to 7. Each is called until it returns that no notification has timed out,
//!   and then until it returns that no observer has a pending one. The last is shard 7, or one that
//!   returns that no message ID is available, or 8,192 steps were taken.
//! - **Sending**: exactly the emissions of a round, the reply first, are passed to the sink, once
//!   each, in that order. Each is counted once, by the sink's result. The log of the receive, the
//!   time and these calls has no other call. Only reading the code shows that the receiver passes
//!   no other log (`SentReplies::new` alone makes one). The rounds' receives are the source's, in
//!   order, if these are known: how long each waited, and the datagram received. Those of a real
//!   socket are unknown (`Source::came`, `Sink::went`).
//! - **Waits**: the first receive waits 100 ms, and so does each receive after a datagram. After an
//!   idle round the wait lasts until the earliest time that the shards returned, and at least 100
//!   ms. It is unlimited if they returned none. Each wait also ends when the server's first timer
//!   is due, and then lasts at least 1 ms. With timers the clock is read at the end of each round,
//!   and the next wait is counted from then (`run_rounds`, by `WaitsAfter`). A test shows that no
//!   job of a server with workers is running when the server calls the shards.
//! - **Timers**: in each round the timers that are due fire first, in their order, and no other.
//!   Each fires by one call of the server, for its own slot, at the round's time, and is next due
//!   at its first beat after that. A timer skips a beat only if its last job was sent to a worker
//!   (`run_timed`, by `HasRunTimed`, whose calls are `fired_calls`). The contract doesn't say
//!   that this job is running then. Tests show that the timer goes on once its job has ended.
//!   Without timers the server is called directly.
//! - **Reports**: with a period, a report is made at the first round at or after the report's due
//!   time, before the round's datagram is handled. It is made once, of the counts up to then and
//!   the gauges of the round's time, and the next is due one period later. The counts are those of
//!   the calls' results, in both kinds of servers. On one thread the gauges are the server's
//!   (`laws`). Each wait ends when a report is due, or up to 100 ms later (`run_reported`, by
//!   `HasRunReported`, whose calls are `reported_calls`). Without a period, the server is called
//!   directly, and nothing is counted.
//! - **Shards**: a shard of a server on one thread returns what is true: that no notification has
//!   timed out, or that no observer has a pending one (`laws`).
//!
//! By the contracts of `rounds::run_rounds`, `reports::run_reported`, `timed::run_timed`,
//! `Reporting`, `Firing`, `laws`.
#![tactic(auto)]

mod firing;
pub mod laws;
mod reporting;
pub mod reports;
pub mod rounds;
pub mod timed;
pub mod timer_jobs;

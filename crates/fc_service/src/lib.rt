//! Servers of `fcd`: played lines, a served socket, the slots of a start, and the first serial.
//!
//! `fc_config` has the command line of `fcd`, and `fc_receive` the receive loop of a server.
//!
//! ```rust
//! use fc_cli::Status;
//! use fc_server::DEFAULT_BEGIN;
//! use fc_service::play::play;
//! use std::alloc::Global;
//!
//! /// Returns the output of a server for lines, or `None` if they couldn't all be played.
//! fn played(alloc: Global, lines: &[u8]) -> Option<Vec<u8>> {
//!     let mut out = Vec::new(alloc);
//!     let mut err = Vec::new(alloc);
//!     match play(alloc, lines, &mut out, &mut err, DEFAULT_BEGIN) {
//!         Status::Done => Some(out),
//!         _ => None,
//!     }
//! }
//! ```
//!
//! # What is proved
//!
//! - **Lines**: the lines of a reader are read one after the other. All of them are read, if the
//!   reader's bytes are known. Each is executed once, in order, on one server. The server handles
//!   the line's event, and then its shards retransmit or notify observers. Exactly the datagrams
//!   that they send are printed, in that order. A snapshot has the readings of the last line that
//!   gave some, its own line included, or zeros. The same holds for the lines before a bad one
//!   (`play`).
//! - **Lines by workers**: a new dispatcher handles each line, once, in order, before the next is
//!   read. Its front began with the given policy. A line's output is its immediate response; for a
//!   job it is some emission, or nothing (`play_by_workers`, by `IsPlayedBeside`). The contract
//!   doesn't say that the output was printed.
//! - **A server on a socket** runs the rounds of `fc_receive`, on one thread or as the dispatcher
//!   of workers (`serve_at`). With timers, those that are due fire first in each round (by
//!   `HasRunTimed` of `fc_receive`).
//! - **A server that returns its source has run these rounds**, from the first state that its
//!   caller passes: empty slots (`Slots::empty`), or restored slots (`Slots::restored`). It is one
//!   on one thread exactly if it has one worker and its store isn't persistent. A limit was set,
//!   and that number of datagrams was received (`serve_at`, by `IsServed`). The contract doesn't
//!   say which times its clock gives. It says nothing about a server that returns no source or
//!   doesn't end. Tests show that `serve` opens its socket at the given address and receives from
//!   it.
//! - **On one thread** the rounds are lists of events of one server, which starts in that first
//!   state. A round's list has its datagram, or its time, and the calls of its shards. A shard's
//!   result is true: that no notification has timed out, that an observer was removed, or that no
//!   observer has a pending notification (`laws` of `fc_receive`). The readings are each round's
//!   time and the sensor readings. The contract doesn't say that these are the file's with
//!   `--readings`. Without `--readings` they are zeros (`serve_alone`, by `HasServed`).
//! - **One history**: all rounds of a server on one thread, or all lines that it plays, are one
//!   history of events. The rounds continue each history that leaves the first state without jobs.
//!   Exactly the datagrams that came are delivered, in order. Exactly the emissions of the
//!   history's events were passed to the sink, or are printed, in that order. Each datagram is
//!   delivered at the time of its round or line. If none came, time passes at this time. With
//!   timers the history also has exactly the events of the timers that were due, before their
//!   round's datagram. The same holds with reports (`laws`).
//! - **With workers** a dispatcher handles each datagram, in order, and each lease that some shard
//!   gave. Nothing else in a round changes the dispatched jobs (`serve_at`, by `HasServedPooled`;
//!   `run_pool` of `fc_pool` passes on its driver's effects, by `IsFedBeside`). The dispatcher is
//!   new: it has sent nothing, and its log is new and has its own track. It sends runs of 6,000
//!   steps and more to the workers, if it sends any. With a persistent store it also sends jobs
//!   that may change a slot.
//! - **Shares**: the contract names one share for each worker, of some handles at the dispatcher's
//!   channel (`AreSharesAt`). It doesn't say that they are those of the started threads, nor that a
//!   sent job is received. A worker's emission is passed to the sink once, by the worker's own log
//!   (`Wire::called`). The contract doesn't say in which order several threads pass theirs.
//! - **One history with workers**: the calls that the dispatcher and these shares' workers filed
//!   have one order, with each thread's calls in its own order. It leads from the server's first
//!   state to the closed server. It legally continues each history that leaves this state without
//!   jobs (`run_pool`, by `HaveLegalOrder`). `serve_at` and `play_by_workers` say so too, of *some*
//!   closed server. With reports and timers too, the dispatcher's log is the one that its last
//!   round left (`laws`). Exactly the rounds' datagrams are delivered in this history, in order,
//!   each whole, from its sender and at its round's time (`laws`).
//! - **Saves** of a persistent store have their place in this order: each change of a slot is one
//!   entry with the save of its update, and so is each refused update. No other entry changes a
//!   slot or has a save. The saves lead from some opened store, with the stored slots of the store
//!   that is passed (`run_pool`, `serve_at` and `serve`, by `HaveSavedOrder`). At each place of the
//!   order, a start finds the programs and variables of the history up to there. It may also find
//!   one update that was refused since the last stored one (`starts_find_what_was_served`). If the
//!   next start restores what a crash leaves there, each slot without a refused update begins as in
//!   the history (`next_starts_begin_as_served`). This supposes that the medium returns the data
//!   that was written to it. The contracts say nothing about a crash during a save.
//! - **Each request to change a program that a job answers is recorded once**, after its response
//!   is made. Nothing else is recorded (`serve_at`). On one thread the calls are `recorded_calls`
//!   of `fc_record`. With workers, `GivesAnswer` of `fc_workers` has `IsRecorded` for the hook. A
//!   test shows that a logger writes the record.
//! - **The first serial** of a server rises with the time of its start: by 32 for each millisecond,
//!   and by 2^24 for each second. So the numbers of Observe keep their order if a server is started
//!   again (`serials::serial_of_start`, `laws`). A test shows that the time is the system clock's.
//! - **The serial of restored slots** is that first serial, or one more than the greatest stored
//!   serial if that is greater. If a persistent store saves it, it is saved with slot 0, and no
//!   program changes. A later start over what a crash leaves begins above it, and above all serials
//!   that were stored since (`Slots::restored`, `laws`). This supposes that the medium returned the
//!   data that was written to it.
//! - **Reports**: with a period, the rounds report the counts and the gauges (`serve_at`, by
//!   `HasRunReported` of `fc_receive`). With workers the gauges are those of some state of its
//!   front and of each shard, and the number of jobs that were sent is the dispatcher's. A report
//!   is no event of the history.
//! - **Replies** of a server on a socket are counted and added exactly, up to 2^64 - 1, and written
//!   as `sent S failed F`. They are those of the rounds, of each worker's jobs and of the
//!   dispatcher's own. A test shows that this is logged.
//!
//! By the contracts of `play::play`, `workers::play_by_workers`, `lines::play_lines`,
//! `serve::serve`, `serve::serve_at`, `serve::serve_alone`, `Slots::empty`, `Slots::of`,
//! `Slots::restored`, `restored_slots`, `serials::serial_of_start`, `serials::serial_over`, `laws`.
#![tactic(auto)]

mod alone;
pub mod laws;
mod lines;
pub mod play;
pub mod serials;
pub mod serve;
pub mod slots;
mod waiting;
pub mod workers;

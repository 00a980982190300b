//! A server with locks, on which workers run jobs, and counts of its changes.
//!
//! The front has a lock, and so do each shard and the store ([`Locked`]). It is the backend of
//! workers in threads. Each call that may change the front or a shard is filed in the server's
//! book, under the lock of that part. Each change of a slot is counted on a tally of the worker.
//!
//! ```rust
//! use fc_backend::{Bench, TrackLog};
//! use fc_locked::{Books, Locked};
//! use fc_store::NoStore;
//! use std::sync::Wait;
//!
//! /// Returns the message ID that a server draws at `now`, in milliseconds.
//! fn draw<B: Books, D: fc_backend::Device, R: Wait>(
//!     rt: &R,
//!     server: &Locked<'_, B, D, NoStore>,
//!     now: u64,
//!     log: &mut TrackLog<fc_locked::ServerOf<B>>,
//! ) -> Option<u16> {
//!     server.fresh_id(rt, now, log)
//! }
//! ```
//!
//! # What is proved
//!
//! - **A server with ten locks** calls a front that began as that of the server's first state, and
//!   only calls have changed it since. Each shard that a call meets has the first state's time for
//!   confirmable notifications.
//! - A snapshot, an install, a removal and a receipt have the results of a shard with the index of
//!   the job's slot, in some state. A notification has the result of a shard with the index of the
//!   lease's slot, for the given lease, message ID, time and content.
//! - **Changes are saved**: a call changes a slot only if a save of just this change returned
//!   `true`, by a ready store of the server's kind. If the server's store isn't persistent, no save
//!   is required. The update has the slot's next serial, and the variables that the change leaves.
//!   That of an install has an image of the program, if the program is that of the job's image.
//!   While the medium returns the data that was written to it, a start right after the save finds
//!   this change (`laws`). It finds a commit's variables only if this store had the slot's program.
//!   If the update can't be saved, the shard is unchanged, the refusal is filed with the update,
//!   and the job is answered with 5.03.
//! - A delivery, a draw of a message ID, a lease, a tick, a notification and an answer have the
//!   result of some front or shard. The time of the result is the given one or a later one. Each
//!   change of a slot is counted on the worker's tally. Once the server is closed, the serials of
//!   each shard have risen by exactly what was counted.
//! - Each call of the front, each call that may change a shard, each receipt and each read of a
//!   cost is filed in the server's book, once, by its caller. The entry has the call's arguments
//!   and its result. It is then the last one on the tracks of its part and of the caller. If a
//!   persistent store has saved a change, or refuses its update, the entry is also the last one on
//!   the store's track. The part's entries lead from the server's first front, or first shard of
//!   the index, to the one under the lock. So two calls of a part are of one part, the server's
//!   own, in one order. A skip is filed on the caller's track.
//! - Each look at a head word and each raise is filed too, by the step that reads or raises the
//!   word. A worker also files that an image breaks a rule, or that memory for its program can't be
//!   allocated. No other call is filed.
//! - **One order**: at the end of a server there is one list of all filed calls. Each thread has
//!   filed exactly the calls in the list with its key, in that order, and no call is of another
//!   thread. The calls of the front lead from the server's first front to its last, and those of
//!   each of the eight shards from the server's first shard to its last. The looks at head words
//!   and the raises lead the words from the first ones (`HaveOneOrder`). So two threads that draw
//!   one message ID each get different ones, and two that install a program each in one slot get
//!   two serials (`laws`). A look finds exactly the word that the raises before it left, by
//!   `HaveOneOrder`.
//! - **Saves in the order**: with a persistent store, each change of a slot is one entry of the
//!   order, together with the save of its update. So is each update that the store refuses; it
//!   changes no slot, and isn't stored. No other entry changes a slot or has a save. The saves lead
//!   the store from some opened state, in the order of the entries. That state has the stored slots
//!   of the store that the server got (`HaveSavedOneOrder`, by `Locked::close`).
//! - **A start over saved slots**: at each place of a legal order, each stored slot is that of the
//!   history up to there, or neither has changed since the start. While the medium returns the data
//!   that was written to it, a start finds the stored slots. It may also find one update that was
//!   refused since the last stored one, and unchanged slots at a higher serial. The law supposes
//!   that the store begins with the programs of the first state, and that some history leaves this
//!   state without jobs (`starts_find_the_saved_order`).
//! - **A legal history**: the one order legally continues each history that leaves the first state
//!   without jobs, under two conditions. The tracks of all jobs are right, and one thread produced
//!   the jobs in the order of their keys (`laws`). The pools of `fc_pool` meet both
//!   (`HaveLegalOrder`). The longer history's server is the closed one. Reads of costs and skips
//!   are no events of it.
//! - If a shard is skipped, the skip is in the one order, and the shard is idle at that place of
//!   the order. Such a shard has nothing to retransmit, and no observer to notify (`laws`). A shard
//!   is advanced under its lock only if it is idle.
//! - The gauges that a server returns are those of a front that began so, at the given time, and
//!   the numbers of observers are those of a shard with the given index. Neither read changes
//!   anything or is filed.
//! - The readings that a server returns are those of some call of its device
//!   (`Device::are_readings`).
//! - A look at a head word and a raise take no lock, and neither does a skip.
//! - Not claimed of saves: that a save comes before its change; that it is made once; that a
//!   refused update was offered to the store; which slots a start finds after a crash during a
//!   save, or between its return and its filing; and that the places of the order are points in
//!   time. Tests show the second and the third.
//! - Not claimed either: which locks a call holds; whether a shard that is found being saved is (a
//!   test shows it); which readings a server returns; and that a call returns.
//!
//! By the contracts of `Locked::new`, `Locked::close`, `Locked::merge_each`, `ReadyStore`, `Tallies`,
//! `Unassigned`, the clauses of `Bench` for `Locked`, `laws`.
#![tactic(auto)]

mod begun_front;
pub mod blanks;
pub mod books;
pub mod closed;
mod counted_shard;
pub mod laws;
mod locked_shard;
mod new_server;
pub mod ready_store;
pub mod server;
mod shared_store;
pub mod tallies;
pub mod tally;
pub mod unassigned;

pub use blanks::Blanks;
pub use books::{BookOf, Books, ServerOf};
pub use closed::ClosedServer;
pub use ready_store::ReadyStore;
pub use server::Locked;
pub use tallies::Tallies;
pub use tally::Tally;
pub use unassigned::Unassigned;

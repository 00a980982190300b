//! One history of the calls that threads make under locks, as ghost state.
//!
//! A *track* is the subhistory of one part, one thread or one job: the entries of the history with
//! the key of that part, thread or job, oldest first. The track of a part is stored under the
//! part's lock ([`PartTrack`]); a thread, or a message, has tracks of its own ([`Tracks`]). The
//! rule of the [`Book`] holds under every schedule (`specs/Tracks.antt`, `HaveOneHistory`). There
//! is one history, each owned track consists of exactly the entries of the history with the track's
//! key, and no track has two owners.
//!
//! A call is filed while the lock of its part is held. The call is then the last entry on the
//! tracks of its part, its thread and its job ([`Tracks::file`]). Each step is a plain load of a
//! word that no thread writes, so the step can't fail, and takes no lock.
//!
//! ```rust
//! ghost use Rattle.std.specs.Prelude.{IfSome};
//! ghost use Rattle.fc_book.specs.Counters.{HasOneHistory};
//!
//! use fc_book::{CallerResults, run_callers};
//! use std::alloc::Global;
//! use std::sync::Wait;
//! use std::thread::Threads;
//!
//! /// Two threads make a thousand calls each of two counters, each of which has a lock.
//! fn run_a_thousand<R: Threads + Wait + Sync>(rt: &R, alloc: Global) -> Option<CallerResults>
//!     ensures { IfSome result (λ r. HasOneHistory 1000 r) }
//! {
//!     run_callers(rt, alloc, 1000)
//! }
//! ```
//!
//! # What is proved
//!
//! - A filed call is the last entry on the tracks of its part, its thread and its job, and on no
//!   other.
//! - Under every schedule there is one history, of which each track is exactly the entries with the
//!   track's key. A track changes its owner as a whole, and no track has two owners.
//! - Two threads that call two counters have one history. The calls of each counter are numbered in
//!   that history from 0 on, and are as many as the counter counted. The calls of each thread are
//!   those that the thread made, in the thread's order, with their results.
//!
//! The counters stand in for the parts of a server. The tracks, views and moves don't depend on the
//! form of an entry. So another book uses them too, with other entries and a longer rule
//! (`specs/Tracks.antt`, `proofs/Kept.antt`). An entry of such a book may be on the tracks of two
//! parts, whose locks the thread holds at once.
//!
//! By the contracts of `Tracks::file`, `attest`, `begin`, `begin_part`, `begin_tracks`,
//! `split_first`, `merge`, `close`, `run_callers`.
#![tactic(auto)]

pub mod book;
pub mod callers;
pub mod counter;
pub mod entry;
mod steps;
pub mod view;

pub use book::{Book, BookName, NewBook, Part, PartOf, PartTrack, Tracks};
pub use callers::{CallerResults, run_callers};
pub use counter::CallCounter;
pub use entry::CallEntry;

//! A server's calls, filed in one history as they are made.
//!
//! The calls are those of its front, its shards and its head words.
//!
//! [fc_book](../../fc_book/src/lib.rt) keeps one history by tracks that change owners. This crate
//! has such a book of a server's operations. The front and each shard are under their locks
//! together with the tracks of their calls ([`FiledFront`], [`FiledShard`]). So each call is filed
//! before the lock is free. The head words are words of the book's table, so a look or a raise is
//! filed in the step that makes it ([`ServerTracks::look`]). A filed call of the front costs three
//! loads of one word. A filed call of a shard also costs a store of another word. A filed change
//! with its save costs six such loads and that store. A look or a raise costs nothing more than the
//! step itself.
//!
//! The table also has an idle word for each shard: a time before which the shard is idle. The step
//! that files a call of the shard resets the word, and an advance of the idle shard writes it. So a
//! thread can skip an idle shard without a lock ([`ServerTracks::skip_if_idle`]). The skip is filed
//! in the step that reads the word.
//!
//! The front's track has key 0, shard i's track key `i + 1`, the store's track key 9, and the
//! threads' tracks keys from 10 on. From the *first job's* key on, each job has a key of its own.
//! The rule is `HaveServerHistory` (`specs/Books.antt`).
//!
//! A change that a persistent store has saved is one entry of two parts: of its shard and of the
//! store ([`FiledShard::change`], [`FiledStore`]). So is an update that the store refuses. The
//! locks of both parts are held until the entry is filed.
//!
//! The server of `fc_locked` has its front and its shards under their locks in this form, and its
//! head words are those of its book. Each of its jobs has a track of its own. At the end of a pool
//! the filed calls are one legal history (`run_pool` of `fc_pool`).
//!
//! ```rust
//! ghost use Rattle.std.specs.Prelude.{◌≡◌};
//! ghost use Rattle.fc_calls.specs.Logged.{DrawsId};
//! ghost use Rattle.fc_linear.specs.Operations.{Logged};
//! ghost use Rattle.fc_filed.specs.Threads.{HasJobFirst, HasOwnTrack, did_by};
//!
//! use fc_filed::{FiledFront, ServerBook, ServerName, ServerTracks};
//!
//! /// Thread `who`, which holds the front's lock, draws a message ID for the running job.
//! ///
//! /// The call is then the last entry on the tracks of both.
//! fn draw_id<J: ServerName>(
//!     book: &ServerBook<J>,
//!     front: &mut FiledFront<J>,
//!     tracks: &mut ServerTracks<J>,
//!     who: u64,
//!     now: u64,
//! ) -> Option<u16>
//!     requires thread { HasOwnTrack J.first_job who tracks.old }
//!     requires job { HasJobFirst J.first_job tracks.old }
//!     ensures { tracks.new ≡ did_by who (Logged (DrawsId now result)) tracks.old }
//! {
//!     front.fresh_id(book, tracks, who, now)
//! }
//! ```
//!
//! # What is proved
//!
//! - Each call of a front or a shard becomes the last entry on the tracks of its part, thread and
//!   job. The entry has its arguments and its answer. A part's calls lead from the server's first
//!   front, or shard, to the one under the lock.
//! - Two kinds of calls leave the shard unchanged and aren't filed: an advance of a shard that
//!   isn't idle, and a call by `FiledShard::inspect`.
//! - A look at a head word and a raise are entries too, made in the step itself. The history's
//!   looks and raises lead the head words from the server's first ones to those of the table. A
//!   look returns at least every word of its slot in the entries on the owner's tracks, whichever
//!   track it is on. So does a read that isn't filed (`ServerTracks::read_word`). A rejected image
//!   and an install without memory are also entries; they belong to no part.
//! - With a persistent store, each call that changes a slot is also the last entry of the store's
//!   track. The entry has the call's update, which was stored. An update that was refused is such
//!   an entry too: it is that of the call that isn't made. No other entry changes a slot. The
//!   store's entries are its saves, in their order. They lead it from an opened state, and each
//!   state is ready.
//! - At each place of a history, each stored slot is the history's, or neither has changed since
//!   the start. While the medium returns the data that was written to it, a start finds the stored
//!   slots. It may also find one update that was refused since the last stored one, and unchanged
//!   slots at a higher serial (`starts_find_the_history`). The law supposes that each change is
//!   saved, and that the history is right for each part and each job. It also supposes that the
//!   store begins with the programs of the server's first state, and that some history leaves this
//!   state without jobs.
//! - Not claimed of saves: that a save comes before its change, since both are one entry; which
//!   slots a start finds after a crash during a save; and that a refused update was offered to the
//!   store.
//! - Before the time in a shard's idle word, the shard is idle after its entries in the history: no
//!   notification has timed out, and no observer has a pending one. So each shard that was skipped
//!   was idle at that place of the history. Both are part of the rule of the book.
//! - Under every schedule there is one history, and each track has exactly the entries with its
//!   key. No track has two owners. The keys of each entry are of their kind.
//! - A job's track that no thread has, such as that of a lost message, is right for its job.
//! - A snapshot of an expensive program can be dropped under the lock (`calls::TakeIfCheap`). Then
//!   the read of the program's cost is filed, and the shard is unchanged.
//! - A history that leaves the server's first state without jobs is continued legally if each track
//!   is right. The longer history leaves the server in the state of its parts.
//! - The same holds for an attested history if its owner has the tracks of all parts and threads,
//!   and the jobs came in the order of their keys.
//!
//! By the contracts of `FiledFront`, `FiledShard`, `FiledCall`, `FiledStore`, `ServerTracks`,
//! `file_as`, `laws`.
#![tactic(auto)]

pub mod book;
pub mod book_begin;
pub mod calls;
pub mod entry;
pub mod front;
pub mod laws;
pub mod shard;
mod steps;
pub mod store;
pub mod view;

pub use book::{FiledTrack, NewServerBook, ServerBook, ServerName, ServerTracks, file_as};
pub use book_begin::BookBegin;
pub use entry::{FiledEntry, FiledOperation, FiledSave};
pub use front::{FiledFront, FrontOf};
pub use shard::{FiledCall, FiledChange, FiledShard, OperationName, SavedName, ShardOf};
pub use store::{FiledStore, StoreOf};
pub use view::FiledName;

//! Slots in shards: snapshots, commits, installs, rings and observers.
//!
//! Shard `n mod 8` owns slot `n`. A job takes a snapshot of its slot, which is the job's ticket,
//! and runs the ticket's program. The commit of the run writes only if nothing has changed since
//! the snapshot. No call waits. Once a shard is made, only snapshots (for a handle of the program)
//! and [`Shard::restore`] allocate memory.
//!
//! ```rust
//! ghost use Rattle.fc_registry.specs.Slots.{IsOwned};
//!
//! use fc_registry::{Made, Shard};
//! use fc_ticket::{InitialVars, SlotNumber};
//! use fc_verify::Verified;
//! use std::sync::Arc;
//!
//! /// Installs a program in a slot of this shard.
//! ///
//! /// Returns the slot's new serial, or `None` if the slot is at its last serial.
//! fn install(shard: &mut Shard, slot: SlotNumber, program: Arc<Verified>) -> Option<u64>
//!     requires { IsOwned shard.old slot }
//! {
//!     match shard.install(slot, program, InitialVars::Zeros) {
//!         Made::Raised { serial, .. } => Some(serial),
//!         Made::AtEnd => None,
//!     }
//! }
//! ```
//!
//! # What is proved
//!
//! - A snapshot has the slot's contents, with the readings that are passed to the snapshot. Its
//!   ticket has these readings, the job's origin and lease, and the request's token, block and
//!   Observe value.
//! - A run with readings that aren't those of the ticket doesn't match the ticket (`Stranger`). A
//!   commit writes the variables of the program's meaning, to its own slot, if nothing has changed
//!   since the snapshot.
//! - An install raises the serial by one, and sets the variables to zeros. An install that keeps
//!   the variables doesn't change them if they have the new program's size.
//! - A removal leaves the slot without a program, and raises the serial by one.
//! - A receipt is that of the slot's program, with the serial of the program's install.
//! - Serials count changes. A slot's notify serial is that of its last install, removal, or commit
//!   whose run set the notify flag, or that of its restore.
//! - A slot's ring holds the last eight commits since the program's install, or since the slot was
//!   restored. Each of these commits begins with the variables that the one before it left. Each
//!   commit left the variables that the program means for the request and the readings of the
//!   commit's ticket.
//! - A lease goes to the first observer with a pending notification. The lease's job answers the
//!   observer's request again, and requests blocks of the size that was registered.
//! - A tick concerns the first notification that has timed out, by slot and then by registration. A
//!   signal goes to the observers of every slot.
//! - A commit of a GET registers the client as an observer or removes it, if the request asks for
//!   that. The mark of the commit says whether the client was registered; there may be no room.
//! - The notification of an active lease has the meaning of the run of the lease's ticket. If the
//!   lease's snapshot found the slot empty, the notification is 4.04. The notification ends the
//!   lease. A response that isn't 2.05 (Content) has no sequence number, and removes the observer.
//! - A lease that isn't active sends nothing. The ticket of another lease is refused.
//! - No observer was sent a serial above that of its slot. An idle shard has no retransmission to
//!   send, and no observer with a pending notification. Before the time that `idle_until` returns,
//!   a shard that isn't called has neither.
//! - The numbers of a shard's observers are those of its slots' lists, by place.
//! - Before a change is made, its update is known: the slot's next serial, and the variables that
//!   the change leaves. A store that applies the update, with an image of the program, has the
//!   state of the slot after the change.
//! - A restored slot has the serial, the version and the variables of its stored state. Its program
//!   is that of the stored image, which is verified again. The slot's serial is never lowered. A
//!   slot that can't be restored doesn't change.
//! - The eight shards of a start have the restored slots, without observers. Otherwise the error
//!   names a slot that isn't restored, with the reason, or says that memory can't be allocated. No
//!   serial falls below the one to which it was raised before the start.
//!
//! By the contracts of `plan_install`, `plan_commit`, `plan_removal`, `raise_serials`,
//! `restore_shards`, `Shard::restore`, `take`, `take_into`, `would_write`, `commit`, `install`,
//! `remove`, `receipt`, `next_due`, `note`, `give_up`, `signal`, `tick`, `advance_if_idle`,
//! `idle_until`, `observer_counts`, `wants_to_write`, `rings_are_chains`, `no_observer_is_ahead`,
//! `laws`.
#![tactic(auto)]

mod body;
pub mod commit;
pub mod laws;
pub mod mark;
pub mod plan;
pub mod restore;
pub mod ring;
pub mod shard;
pub mod shards;
mod slot;
mod turn;

pub use commit::{CommitOutcome, Committed, wants_to_write};
pub use mark::Mark;
pub use plan::{plan_commit, plan_install, plan_removal};
pub use restore::{RestoreError, raise_serials};
pub use ring::Entry;
pub use shard::{Made, PLACES, Removal, Shard, Taken, Took};
pub use shards::{StartError, make_shards, restore_shards};
pub use slot::LAST_SERIAL;

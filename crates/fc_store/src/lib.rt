//! Persistent state of the slots: a trait for stores, and state after a crash.
//!
//! A server saves an update of a slot before it makes the change. [`Store::save`] gets a
//! [`SlotUpdate`]: the slot's next serial (its revision counter) and the change of its program.
//!
//! - If the call returns `true`, the update is stored. A start after a crash finds the update, if
//!   the crash comes before the next call of `save`.
//! - If the call returns `false`, the stored slots don't change, and the server must not make the
//!   change. A start after a crash may then find the slots with or without the update.
//!
//! Both statements about starts hold of a ready store, while the medium returns the data that was
//! written to it.
//!
//! ```rust
//! use fc_store::{ProgramUpdate, SlotUpdate, Store};
//!
//! /// Returns whether the server may remove the program of slot 3, at serial 8.
//! fn may_remove<S: Store>(store: &mut S) -> bool {
//!     let update = SlotUpdate {
//!         slot: 3,
//!         serial: 8,
//!         program: ProgramUpdate::Remove,
//!     };
//!     !store.is_persistent() || store.save(&update)
//! }
//! ```
//!
//! # What is proved
//!
//! - A save that returns `true` stores its update, and changes no other slot. A save that returns
//!   `false` leaves all stored slots as they were.
//! - While the medium returns the data that was written to it, a start after a crash finds just the
//!   stored slots if the last save returned `true`. If that save returned `false`, a start finds
//!   slots that it could find before the call, or the slots with that update. Both hold of a ready
//!   store, which a save leaves ready. No contract is about a crash during a call.
//! - After many saves of one store, a start finds each update that was stored. It may also find one
//!   update that was refused, if none was stored since. The law supposes such a medium too. The
//!   store was ready before the saves, and a start would then have found just its slots.
//! - [`MemoryStore`] has these clauses only in a model, for tests: in the model its slots survive a
//!   crash. [`NoStore`], which stores nothing, refuses each update.
//!
//! By the contracts of `StoredSlot::after`, `copy_slots`, `MemoryStore::new`,
//! `removed_programs_are_not_stored`, `starts_find_saved_slots`, `refused_updates_may_be_found`, the
//! clauses of `Store`.
#![tactic(auto)]

pub mod laws;
pub mod memory;
pub mod store;
pub mod stored;

pub use memory::{MemoryStore, SLOTS, blank_slots};
pub use store::{NoStore, ProgramUpdate, SlotUpdate, Store};
pub use stored::{StoredProgram, StoredSlot, copy_slots};

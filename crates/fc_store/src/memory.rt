//! A store in memory, for tests.
//!
//! Its slots are lost when the process ends. Its contracts suppose that the slots survive a crash,
//! as those of a persistent store do. A test can make it refuse updates.
ghost use Rattle.std.specs.Prelude.{◌≡◌, ◌<◌, ℕ, true, false, length, replicate, IfOk};
ghost use Rattle.fc_store.specs.Updates.{AreSameSlots};
ghost use Rattle.fc_store.specs.Stored.{blank_slot, stored_in};

use crate::store::{SlotUpdate, Store};
use crate::stored::StoredSlot;
use std::alloc::{AllocError, Global};

/// The number of slots of a server.
pub const SLOTS: usize = 64;

/// A store in memory, which refuses each update while `refuses` is set.
#[derive(Drop)]
pub struct MemoryStore {
    alloc: Global,
    slots: Vec<StoredSlot>,
    pub refuses: bool,
    ghost size: { length slots.items ≡ 64 },
}

impl MemoryStore {
    /// Makes a store of 64 blank slots.
    ///
    /// # Errors
    /// Returns `AllocError` if memory can't be allocated.
    pub fn new(alloc: Global) -> Result<MemoryStore, AllocError>
        ensures slots { IfOk result (λ s. s.slots.items ≡ replicate 64 blank_slot) }
        ensures refuses { IfOk result (λ s. s.refuses ≡ false) }
    {
        Ok(MemoryStore {
            alloc,
            slots: blank_slots(alloc)?,
            refuses: false,
        })
    }

    /// Returns the 64 stored slots, in the order of their numbers.
    pub fn slots(&self) -> &[StoredSlot]
        ensures { result.now ≡ self.now.slots.items }
    {
        &self.slots
    }
}

/// Makes a list of 64 blank slots, for [`MemoryStore::new`].
///
/// # Errors
/// Returns `AllocError` if memory can't be allocated.
pub fn blank_slots(alloc: Global) -> Result<Vec<StoredSlot>, AllocError>
    ensures { IfOk result (λ v. v.items ≡ replicate 64 blank_slot) }
{
    let mut slots = Vec::with_capacity(alloc, SLOTS)?;
    for _slot in 0..SLOTS {
        slots.push(StoredSlot::blank())?;
    }
    Ok(slots)
}

impl Store for MemoryStore {
    ghost persistent = { true };

    ghost stored = { λ s. stored_in s.slots.items };

    ghost may_recover = { λ s found. AreSameSlots found (stored_in s.slots.items) };

    fn is_persistent(&self) -> bool {
        true
    }

    // Saves the update, and returns `true`. Returns `false`, and changes nothing, while `refuses`
    // is set or if memory can't be allocated.
    fn save(&mut self, update: &SlotUpdate<'_>) -> bool {
        if self.refuses {
            return false;
        }
        let slot = usize::from(update.slot);
        match self.slots[slot].after(self.alloc, update) {
            Ok(stored) => {
                self.slots[slot] = stored;
                true
            }
            Err(_) => false,
        }
    }
}

//! The store of a traced pool, which refuses some updates.
use fc_locked::ReadyStore;
use fc_store::{MemoryStore, SlotUpdate, Store};
use std::alloc::{AllocError, Global};

/// The store refuses one update of this many.
const REFUSED: u32 = 16;

/// A store in memory that refuses one update of [`REFUSED`].
#[derive(Drop)]
pub(crate) struct RefusingStore {
    memory: MemoryStore,
    count: u32,
}

impl RefusingStore {
    /// Makes a store of blank slots, which is ready.
    ///
    /// # Errors
    /// Returns `AllocError` if memory can't be allocated.
    pub(crate) fn ready(alloc: Global) -> Result<ReadyStore<RefusingStore>, AllocError> {
        let memory = MemoryStore::new(alloc)?;
        Ok(ReadyStore::new(RefusingStore { memory, count: 0 }))
    }
}

impl Store for RefusingStore {
    ghost use Rattle.std.specs.Prelude.{true};
    ghost use Rattle.fc_store.specs.Updates.{AreSameSlots};
    ghost use Rattle.fc_store.specs.Stored.{stored_in};

    ghost persistent = { true };

    ghost stored = { λ s. stored_in s.memory.slots.items };

    ghost may_recover = { λ s found. AreSameSlots found (stored_in s.memory.slots.items) };

    fn is_persistent(&self) -> bool {
        true
    }

    fn save(&mut self, update: &SlotUpdate<'_>) -> bool {
        self.count = self.count.wrapping_add(1);
        self.memory.refuses = self.count % REFUSED == 0;
        self.memory.save(update)
    }
}

//! The trait of a store of slots, and a store that stores nothing.
ghost use Rattle.std.specs.Prelude.{◌≡◌, ◌⊎◌, ◌<◌, ℕ, Bool, true, false, ⊤};
ghost use Rattle.fc_store.specs.Updates.{AreSameSlots, IsStoredIf, slots_after};
ghost use Rattle.fc_store.specs.Stored.{StoredSlots};

/// A change of a slot's program.
#[derive(Clone, Copy)]
pub enum ProgramUpdate<'a> {
    /// A program is installed: its image, and its initial variables.
    Install(&'a [u8], &'a [u8]),
    /// A run commits these variables.
    Commit(&'a [u8]),
    /// The program is removed.
    Remove,
}

/// An update of a slot, 0 to 63: its next serial and the change of its program.
///
/// It must be saved before the change is made.
#[derive(Clone, Copy)]
pub struct SlotUpdate<'a> {
    pub slot: u8,
    pub serial: u64,
    pub program: ProgramUpdate<'a>,
}

/// A store of a server's slots, which may be persistent.
pub trait Store {
    // Whether stores of this type store anything.
    ghost persistent: { Bool };

    // The stored slots.
    ghost stored: { Self → StoredSlots };

    // The medium has so far returned the data that was written to it.
    ghost is_clean: { Self → Type 0 } = { λ _. ⊤ };

    // While the medium is clean and the store takes updates, the stored slots are those on the
    // medium, and are committed there.
    ghost is_ready: { Self → Type 0 } = { λ _. ⊤ };

    // The slots that a start may find if the machine stops now.
    ghost may_recover: { Self → StoredSlots → Type 0 };

    /// Returns whether the store stores anything. If not, no update has to be saved.
    fn is_persistent(&self) -> bool
        ensures { result ≡ persistent };

    /// Saves `update`, and returns whether it is stored.
    ///
    /// If the result is `true`, a start after a crash finds the update, if the crash comes before
    /// the next call of `save`. If the result is `false`, the stored slots don't change. A start
    /// after a crash then finds either slots that it could have found before the call, or the
    /// slots with `update`. Both statements about starts hold of a ready store, while the medium
    /// returns the data that was written to it.
    ///
    /// A store that isn't persistent needn't be called, and may refuse each update.
    fn save(&mut self, update: &SlotUpdate<'_>) -> bool
        requires slot { update.now.slot < 64 }
        ensures stored { IsStoredIf result update.now (stored self.old) (stored self.new) }
        ensures clean { is_clean self.new → is_clean self.old }
        ensures ready { is_ready self.old → is_ready self.new }
        ensures durable { is_ready self.old → is_clean self.new → result ≡ true
            → (found : StoredSlots) → may_recover self.new found → AreSameSlots found (stored self.new) }
        ensures crash { is_ready self.old → is_clean self.new → (found : StoredSlots) → may_recover self.new found
            → may_recover self.old found ⊎ AreSameSlots found (slots_after update.now (stored self.old)) };
}

/// A store that stores nothing and refuses each update.
///
/// A server that isn't persistent has it, and never calls `save`.
#[derive(Clone, Copy)]
pub struct NoStore;

impl Store for NoStore {
    ghost use Rattle.fc_store.specs.Stored.{blank_slot};

    ghost persistent = { false };

    ghost stored = { λ _ n. blank_slot };

    ghost may_recover = { λ _ found. AreSameSlots found (λ n. blank_slot) };

    #[inline]
    fn is_persistent(&self) -> bool {
        false
    }

    // Returns `false`, since the store refuses each update.
    fn save(&mut self, update: &SlotUpdate<'_>) -> bool {
        let _ = update;
        false
    }
}

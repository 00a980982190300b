//! Head words: the published states of the slots.
//!
//! [`Heads`] has the head words of a server on one thread. Those of a server with workers are words
//! of its book (`fc_filed`).
ghost use Rattle.std.specs.Prelude.{◌≡◌, ◌≤◌, ◌<◌, ℕ, length, true};
ghost use Rattle.fc_registry.specs.Restored.{restored_slot};
ghost use Rattle.fc_registry.specs.Slots.{last_serial};
ghost use Rattle.fc_registry.specs.Starts.{CanRestore};
ghost use Rattle.fc_store.specs.Stored.{stored_in};
ghost use Rattle.fc_front.specs.Heads as spec;

use fc_store::StoredSlot;
use fc_ticket::{SLOTS, SlotNumber};
use std::marker::Model;

/// The number of slots.
pub const WORDS: usize = 64;

/// Computes a slot's head word: twice its serial, plus one if it has a program.
///
/// A later state of a slot has a greater word.
pub fn head_word(serial: u64, present: bool) -> u64
    requires { serial ≤ last_serial }
    ensures { result ≡ spec.head_word serial present }
{
    if present { 2 * serial + 1 } else { 2 * serial }
}

/// Returns the serial in a head word.
pub fn serial_in(word: u64) -> u64
    ensures { result ≡ spec.serial_in word }
{
    word / 2
}

/// Returns whether a head word says that its slot has a program.
pub fn is_present(word: u64) -> bool
    ensures { result ≡ spec.is_present word }
{
    word % 2 == 1
}

/// The greatest head word raised for each of the 64 slots.
///
/// The word of a slot for which none was raised is 0. In contracts this is the list of the words.
#[derive(Drop)]
pub struct Heads {
    words: [u64; WORDS],
}

impl Model for Heads {
    ghost use Rattle.std.specs.Prelude.{ℕ, List};

    ghost Value = { List ℕ };

    ghost view = { λ h. h.words };
}

// Computes the head word of a restored slot: that of its program, or 0 if the slot is empty.
fn first_word(stored: &StoredSlot) -> u64
    requires { CanRestore stored.now }
    ensures { result ≡ spec.first_word (restored_slot stored.now) }
{
    if stored.program.is_some() {
        head_word(stored.serial, true)
    } else {
        0
    }
}

impl Heads {
    /// Makes the head words, each of them 0, before any was raised.
    pub fn new() -> Heads
        ensures { result ≡ spec.no_words }
    {
        Heads { words: [0; WORDS] }
    }

    /// Makes the head words of slots 0 to 63 that are restored from these stored states.
    ///
    /// The word of a slot with a program is that of its stored state. The word of an empty slot is
    /// 0.
    pub fn over(stored: &[StoredSlot]) -> Heads
        requires count { length stored.now ≡ 64 }
        requires can { (n : ℕ) → n < 64 → CanRestore (stored_in stored.now n) }
        ensures { result ≡ spec.first_words (λ n. restored_slot (stored_in stored.now n)) }
    {
        let mut heads = Heads::new();
        for number in 0..SLOTS {
            let word = first_word(&stored[usize::from(number)]);
            heads.raise(SlotNumber::new(number), word);
        }
        heads
    }

    /// Loads the head word of a slot.
    pub fn peek(&self, slot: SlotNumber) -> u64
        ensures { result ≡ spec.word_at self.now slot }
    {
        self.words[usize::from(slot.number())]
    }

    /// Raises the head word of a slot; a lower word has no effect.
    pub fn raise(&mut self, slot: SlotNumber, word: u64)
        ensures { self.new ≡ spec.word_raised slot word self.old }
    {
        let place = usize::from(slot.number());
        self.words[place] = self.words[place].max(word);
    }
}

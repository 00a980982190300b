//! Numbers of slots.
ghost use Rattle.std.specs.Prelude.{◌≡◌, ◌<◌, ◌/◌, ◌%◌};

use std::marker::Model;

/// The number of slots of a server.
pub const SLOTS: u8 = 64;

/// The number of shards of a server, and of slots of a shard.
pub const SHARDS: u8 = 8;

/// The number of a slot: 0 to 63.
///
/// In contracts it is the number itself.
#[derive(Clone, Copy, Default, PartialEq, Eq)]
pub struct SlotNumber {
    number: u8,
}

impl Model for SlotNumber {
    ghost use Rattle.std.specs.Prelude.{ℕ, ◌<◌};

    ghost Value = { ℕ };

    ghost view = { λ s. s.number };

    ghost invariant = { λ s. s.number < 64 };

    ghost inverse = { λ n. record { number = n } };
}

impl SlotNumber {
    /// Makes a slot number from a number below 64.
    pub fn new(number: u8) -> Self
        requires { number < 64 }
        ensures { result ≡ number }
    {
        SlotNumber { number }
    }

    /// Returns the number.
    pub fn number(self) -> u8
        ensures number { result ≡ self }
        ensures limit { result < 64 }
    {
        self.number
    }

    /// Returns the index of the shard that owns the slot.
    pub fn shard(self) -> usize
        ensures shard { result ≡ self % 8 }
        ensures limit { result < 8 }
    {
        usize::from(self.number % SHARDS)
    }

    /// Returns the slot's place among the slots of its shard.
    pub fn place(self) -> usize
        ensures place { result ≡ self / 8 }
        ensures limit { result < 8 }
    {
        usize::from(self.number / SHARDS)
    }
}

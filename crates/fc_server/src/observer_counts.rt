//! The numbers of observers of a server's slots.
ghost use Rattle.std.specs.Prelude.{◌≡◌};
ghost use Rattle.fc_server.specs.Gauges.{no_counts, observers_of};

use fc_registry::PLACES;
use fc_ticket::{SLOTS, SlotNumber};
use std::fmt;

/// How many observers each slot of a server has.
///
/// There is a list for each shard, by the places of its slots. It is written as the observed slots,
/// in their order, each after a space with the number of its observers.
#[derive(Clone, Copy, Debug, PartialEq, Eq)]
pub struct ObserverCounts {
    pub shards: [[u8; PLACES]; 8],
}

impl ObserverCounts {
    /// Returns the counts of a server without observers.
    pub fn none() -> ObserverCounts
        ensures { result ≡ no_counts }
    {
        ObserverCounts {
            shards: [[0; PLACES]; 8],
        }
    }

    /// Returns how many observers a slot has.
    pub fn of(&self, slot: SlotNumber) -> u8
        ensures { result ≡ observers_of self.now.shards slot }
    {
        self.shards[slot.shard()][slot.place()]
    }
}

// A slot and the number of its observers.
#[derive(Clone, Copy)]
struct SlotText {
    slot: u8,
    count: u8,
}

/// Nothing is written if the slot has no observer.
impl fmt::Display for SlotText {
    ghost use Rattle.std.specs.Prelude.{Some};
    ghost use Rattle.fc_server.specs.Gauges.{slot_text};

    ghost output = { λ t. Some (slot_text t.slot t.count) };

    fn fmt<W: fmt::Write>(&self, f: &mut fmt::Formatter<W>) -> fmt::Result {
        let SlotText { slot, count } = *self;
        if count == 0 {
            return Ok(());
        }
        write!(f, " observers/{slot}={count}")
    }
}

/// An example: ` observers/7=2 observers/12=1`.
impl fmt::Display for ObserverCounts {
    ghost use Rattle.std.specs.Prelude.{Some};
    ghost use Rattle.fc_server.specs.Gauges.{observers_text};

    ghost output = { λ c. Some (observers_text c) };

    fn fmt<W: fmt::Write>(&self, f: &mut fmt::Formatter<W>) -> fmt::Result {
        for slot in 0..SLOTS {
            let count = self.of(SlotNumber::new(slot));
            let text = SlotText { slot, count };
            write!(f, "{text}")?;
        }
        Ok(())
    }
}

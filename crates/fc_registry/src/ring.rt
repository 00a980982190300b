//! The last commits of a slot.
ghost use Rattle.std.specs.Prelude.{◌≡◌, [], ◌∷◌, ◌++◌, IfOk};
ghost use Rattle.circular_buffer.specs.Buffer.{keep_last};

use circular_buffer::HeapCircularBuffer;
use fc_help::{Readings, Request, Vars};
use std::alloc::{AllocError, Global};
use std::marker::Model;

/// The number of commits that a slot keeps.
pub const RING: usize = 8;

/// A commit in a slot's ring.
///
/// An entry has the slot's serial after the commit, and the variables that the commit found and
/// left. It also has the run's request, and the readings of the run's snapshot.
#[derive(Drop)]
pub struct Entry {
    pub serial: u64,
    pub request: Request,
    pub readings: Readings,
    pub before: Vars,
    pub after: Vars,
}

/// The last eight commits, the oldest first.
#[derive(Drop)]
pub(crate) struct Ring {
    entries: HeapCircularBuffer<Entry>,
}

impl Model for Ring {
    ghost use Rattle.std.specs.Prelude.{◌≡◌, List};
    ghost use Rattle.fc_registry.specs.declared.ring.Entry.{Entry as Kept};

    ghost Value = { List Kept };

    ghost view = { λ r. r.entries.items };

    ghost invariant = { λ r. r.entries.capacity ≡ 8 };
}

impl Ring {
    // Makes an empty ring. Returns an error if memory can't be allocated.
    pub(crate) fn new(alloc: Global) -> Result<Ring, AllocError>
        ensures { IfOk result (λ r. r ≡ []) }
    {
        let entries = HeapCircularBuffer::with_capacity(alloc, RING)?;
        Ok(Ring { entries })
    }

    // Adds a commit, and drops the oldest one if there are eight already.
    pub(crate) fn push(&mut self, entry: Entry)
        ensures { self.new ≡ keep_last 8 (self.old ++ entry ∷ []) }
    {
        self.entries.push_back(entry);
    }

    // Removes all commits.
    pub(crate) fn clear(&mut self)
        ensures { self.new ≡ [] }
    {
        self.entries.clear();
    }
}

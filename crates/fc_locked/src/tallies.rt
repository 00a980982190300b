//! A worker's counts: of its changes to each of the eight shards, and of the jobs that it ended.
ghost use Rattle.std.specs.Prelude.{◌≡◌, ◌+◌, ◌<◌, slice_index};
ghost use Rattle.fc_ticket.specs.Taken.{SlotSnapshot};
ghost use Rattle.fc_registry.specs.Views.{taken_with};
ghost use Rattle.fc_backend.specs.Answers.{ended_by, saturated};

use crate::books::{BookOf, Books};
use crate::tally::Tally;
use fc_registry::Taken;
use std::marker::Model;

/// The numbers of a worker's changes to the eight shards, and of its ended jobs.
///
/// The tallies have one part of each book of changes. The number of ended jobs stops at 2^64 - 1.
/// Contracts see the number of changes to each of shards 0 to 7, and the number of ended jobs.
#[derive(Drop)]
pub struct Tallies<B: Books> {
    pub(crate) tally0: Tally<BookOf<B, 0>>,
    pub(crate) tally1: Tally<BookOf<B, 1>>,
    pub(crate) tally2: Tally<BookOf<B, 2>>,
    pub(crate) tally3: Tally<BookOf<B, 3>>,
    pub(crate) tally4: Tally<BookOf<B, 4>>,
    pub(crate) tally5: Tally<BookOf<B, 5>>,
    pub(crate) tally6: Tally<BookOf<B, 6>>,
    pub(crate) tally7: Tally<BookOf<B, 7>>,
    pub(crate) ended: u64,
}

impl<B: Books> Model for Tallies<B> {
    ghost use Rattle.fc_locked.specs.Counts.{Tallies as Seen};

    ghost Value = { Seen };

    ghost use Rattle.std.specs.Prelude.{◌≡◌, [], ◌∷◌};

    ghost view = { λ t. record {
      changes = t.tally0.changes ∷ t.tally1.changes ∷ t.tally2.changes ∷ t.tally3.changes
          ∷ t.tally4.changes ∷ t.tally5.changes ∷ t.tally6.changes ∷ t.tally7.changes ∷ [];
      ended = t.ended;
    } };

    ghost invariant = { λ t. (t.tally0.parts ≡ 1) × (t.tally1.parts ≡ 1) × (t.tally2.parts ≡ 1)
        × (t.tally3.parts ≡ 1) × (t.tally4.parts ≡ 1) × (t.tally5.parts ≡ 1) × (t.tally6.parts ≡ 1)
        × (t.tally7.parts ≡ 1) };
}

impl<B: Books> Tallies<B> {
    /// Returns the number of changes to shard `shard`, up to 2^64 - 1.
    pub fn shown(&self, shard: usize) -> u64
        requires { shard < 8 }
        ensures { result ≡ saturated (slice_index self.now.changes shard) }
    {
        match shard {
            0 => self.tally0.shown(),
            1 => self.tally1.shown(),
            2 => self.tally2.shown(),
            3 => self.tally3.shown(),
            4 => self.tally4.shown(),
            5 => self.tally5.shown(),
            6 => self.tally6.shown(),
            _ => self.tally7.shown(),
        }
    }

    /// Returns the number of jobs that the worker ended, up to 2^64 - 1.
    pub fn ended(&self) -> u64
        ensures { result ≡ self.now.ended }
    {
        self.ended
    }

    // Counts one more ended job.
    pub(crate) fn end_job(&mut self)
        ensures { self.new ≡ record self.old { ended = saturated (self.old.ended + 1) } }
    {
        self.ended = self.ended.saturating_add(1);
    }

    // Counts one more ended job if the snapshot of a lease's job is stale: such a snapshot ends the
    // job.
    pub(crate) fn end_snapshot(&mut self, taken: &Taken)
        ensures { (found : SlotSnapshot) → self.new ≡ record self.old { ended = ended_by (taken_with taken.now found) self.old.ended } }
    {
        match taken {
            Taken::Stale => self.end_job(),
            Taken::Given(_) | Taken::Missing | Taken::Refused => {}
        }
    }
}

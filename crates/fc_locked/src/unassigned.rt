//! Ledger parts that aren't assigned to a worker.
//!
//! Each worker gets its parts from the unassigned ones. Before the server is closed, the parts of
//! the workers are merged into the unassigned ones again.
ghost use Rattle.std.specs.Prelude.{◌≡◌, ◌+◌, ◌-◌, ◌<◌, ◌≤◌, map, replicate, vec_len, IfOk};
ghost use Rattle.fc_backend.specs.Answers.{saturated};
ghost use Rattle.fc_locked.specs.Counts.{no_changes, no_tallies, sums};

use crate::books::{BookOf, Books};
use crate::tallies::Tallies;
use crate::tally::Tally;
use std::alloc::{AllocError, Global};
use std::marker::Model;

/// The tallies of the parts that aren't assigned to a worker.
///
/// The number of parts is the same for each of the eight books. Contracts see this number, and the
/// changes to shards 0 to 7 that were counted on these parts. They also see the number of jobs that
/// the merged workers ended, up to 2^64 - 1.
#[derive(Drop)]
pub struct Unassigned<B: Books> {
    pub(crate) tally0: Tally<BookOf<B, 0>>,
    pub(crate) tally1: Tally<BookOf<B, 1>>,
    pub(crate) tally2: Tally<BookOf<B, 2>>,
    pub(crate) tally3: Tally<BookOf<B, 3>>,
    pub(crate) tally4: Tally<BookOf<B, 4>>,
    pub(crate) tally5: Tally<BookOf<B, 5>>,
    pub(crate) tally6: Tally<BookOf<B, 6>>,
    pub(crate) tally7: Tally<BookOf<B, 7>>,
    pub(crate) ended: u64,
}

impl<B: Books> Model for Unassigned<B> {
    ghost use Rattle.fc_locked.specs.Counts.{Unassigned as Seen};

    ghost Value = { Seen };

    ghost use Rattle.std.specs.Prelude.{◌≡◌, [], ◌∷◌};

    ghost view = { λ r. record {
      parts = r.tally0.parts;
      changes = r.tally0.changes ∷ r.tally1.changes ∷ r.tally2.changes ∷ r.tally3.changes
          ∷ r.tally4.changes ∷ r.tally5.changes ∷ r.tally6.changes ∷ r.tally7.changes ∷ [];
      ended = r.ended;
    } };

    ghost invariant = { λ r. (r.tally1.parts ≡ r.tally0.parts) × (r.tally2.parts ≡ r.tally0.parts)
        × (r.tally3.parts ≡ r.tally0.parts) × (r.tally4.parts ≡ r.tally0.parts)
        × (r.tally5.parts ≡ r.tally0.parts) × (r.tally6.parts ≡ r.tally0.parts)
        × (r.tally7.parts ≡ r.tally0.parts) };
}

impl<B: Books> Unassigned<B> {
    /// Splits off the tallies of a worker: one part of each book.
    ///
    /// Requires that no change was counted on the unassigned parts yet, and that there are at least
    /// two parts of each book.
    pub fn split(&mut self) -> Tallies<B>
        requires parts { 1 < self.old.parts }
        requires changes { self.old.changes ≡ no_changes }
        ensures left { self.new ≡ record self.old { parts = self.old.parts - 1 } }
        ensures given { result ≡ no_tallies }
    {
        Tallies {
            tally0: self.tally0.split(),
            tally1: self.tally1.split(),
            tally2: self.tally2.split(),
            tally3: self.tally3.split(),
            tally4: self.tally4.split(),
            tally5: self.tally5.split(),
            tally6: self.tally6.split(),
            tally7: self.tally7.split(),
            ended: 0,
        }
    }

    /// Splits off the tallies of `workers` workers.
    ///
    /// # Errors
    /// Returns `AllocError` if memory for the list of tallies can't be allocated. The parts that
    /// were already split off are then lost.
    pub fn split_each(
        &mut self,
        alloc: Global,
        workers: usize,
    ) -> Result<Vec<Tallies<B>>, AllocError>
        requires parts { workers < self.old.parts }
        requires changes { self.old.changes ≡ no_changes }
        ensures left { IfOk result (λ v. self.new ≡ record self.old { parts = self.old.parts - workers }) }
        ensures count { IfOk result (λ v. vec_len v ≡ workers) }
        ensures given { IfOk result (λ v. v.items ≡ replicate workers no_tallies) }
    {
        let mut each = Vec::new(alloc);
        for worker in 0..workers {
            each.push(self.split())?;
        }
        Ok(each)
    }

    /// Merges the tallies of a worker: the worker's parts are unassigned again.
    pub fn merge(&mut self, worker: Tallies<B>)
        ensures { self.new ≡ record {
          parts = self.old.parts + 1;
          changes = sums self.old.changes worker.changes;
          ended = saturated (self.old.ended + worker.ended);
        } }
    {
        let Tallies {
            tally0,
            tally1,
            tally2,
            tally3,
            tally4,
            tally5,
            tally6,
            tally7,
            ended,
        } = worker;
        self.tally0.merge(tally0);
        self.tally1.merge(tally1);
        self.tally2.merge(tally2);
        self.tally3.merge(tally3);
        self.tally4.merge(tally4);
        self.tally5.merge(tally5);
        self.tally6.merge(tally6);
        self.tally7.merge(tally7);
        self.ended = self.ended.saturating_add(ended);
    }

    /// Returns the numbers of changes to shards 0 to 7, each up to 2^64 - 1.
    pub fn shown_each(&self) -> [u64; 8]
        ensures { result ≡ map saturated self.now.changes }
    {
        [
            self.tally0.shown(),
            self.tally1.shown(),
            self.tally2.shown(),
            self.tally3.shown(),
            self.tally4.shown(),
            self.tally5.shown(),
            self.tally6.shown(),
            self.tally7.shown(),
        ]
    }

    /// Returns the number of jobs that the merged workers ended, up to 2^64 - 1.
    pub fn ended(&self) -> u64
        ensures { result ≡ self.now.ended }
    {
        self.ended
    }
}

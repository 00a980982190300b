//! The count of the changes to one shard.
ghost use Rattle.std.specs.Prelude.{◌≡◌, ◌+◌, ◌<◌, min};
ghost use Rattle.fc_backend.specs.Answers.{saturated};
ghost use Rattle.fc_locked.specs.Counts.{counts};

use std::marker::Model;
use std::sync::ledger::{Book, Ledger, Share};

/// A count of changes to one shard.
///
/// The tally is a share of the shard's book of changes; a worker's tally has one part of the book.
/// Contracts see the number of parts of the book that the tally has, and the number of changes that
/// it counted.
#[derive(Drop)]
pub struct Tally<L: Ledger> {
    share: Share<L>,
    shown: u64,
}

impl<L: Ledger> Model for Tally<L> {
    ghost use Rattle.fc_locked.specs.Counts.{Tally as Seen};

    ghost Value = { Seen };

    ghost use Rattle.std.specs.Prelude.{◌≡◌, ◌<◌};
    ghost use Rattle.fc_backend.specs.Answers.{saturated};

    ghost view = { λ t. record { parts = t.share.parts; changes = t.share.amount } };

    ghost invariant = { λ t. (0 < t.share.parts) × (t.shown ≡ saturated t.share.amount) };
}

impl<L: Ledger> Tally<L> {
    /// Makes the tally of a share on which no change was counted.
    pub(crate) fn of(share: Share<L>) -> Tally<L>
        requires parts { 0 < share.parts }
        requires amount { share.amount ≡ 0 }
        ensures { result ≡ record { parts = share.parts; changes = 0 } }
    {
        Tally { share, shown: 0 }
    }

    /// Counts a change, in the tally and in the book.
    pub(crate) fn count(&mut self, book: &mut Book<L>)
        ensures book { book.new.total ≡ book.old.total + 1 }
        ensures tally { self.new ≡ counts self.old 1 }
    {
        book.add(&mut self.share, 1);
        self.shown = self.shown.saturating_add(1);
    }

    /// Compares the tally with the book, when the book is closed.
    ///
    /// A tally with all parts of the book has counted all changes. Neither the tally nor the book
    /// is changed.
    pub(crate) fn audit(&mut self, book: &mut Book<L>)
        ensures same { (book.new.total ≡ book.old.total) × (self.new ≡ self.old) }
        ensures whole { self.old.parts ≡ L.parts → self.old.changes ≡ book.old.total }
    {
        book.audit(&mut self.share);
    }

    /// Splits off a tally of one part, for another worker.
    ///
    /// Requires that no change was counted on the tally yet, and that the tally has at least two
    /// parts.
    pub fn split(&mut self) -> Tally<L>
        requires parts { 1 < self.old.parts }
        requires changes { self.old.changes ≡ 0 }
        ensures left { (self.new.parts + 1 ≡ self.old.parts) × (self.new.changes ≡ 0) }
        ensures given { result ≡ record { parts = 1; changes = 0 } }
    {
        Tally::of(self.share.split_off(1, 0))
    }

    /// Adds the parts and changes of another tally.
    pub fn merge(&mut self, other: Tally<L>)
        ensures { self.new ≡ record {
          parts = self.old.parts + other.parts;
          changes = self.old.changes + other.changes;
        } }
    {
        let Tally { share, shown } = other;
        self.share.merge(share);
        self.shown = self.shown.saturating_add(shown);
    }

    /// Returns the number of changes, up to 2^64 - 1.
    pub fn shown(&self) -> u64
        ensures { result ≡ saturated self.now.changes }
    {
        self.shown
    }
}

//! The published state words of the slots, and handles to them.
ghost use Rattle.std.specs.Prelude.{◌≡◌, ◌<◌, ◌≤◌, IfOk};
ghost use Rattle.fc_heads.specs.Heads.{IsRaised, fresh, peeked, met, word_of};

use crate::steps::{self, Words};
use crate::view::View;
use atomic_table::{Seat, Table};
use std::alloc::{AllocError, Global};
use std::marker::Model;

/// The number of slots that have a word.
pub const HEAD_WORDS: usize = 64;

/// The published words of 64 slots, each initially 0.
///
/// In contracts a `Heads` is the identity of the table: only these words are in the table.
#[derive(Drop)]
pub struct Heads {
    words: Words,
}

impl Model for Heads {
    ghost use Rattle.std.specs.Prelude.{◌≡◌};
    ghost use Rattle.atomic_table.specs.Seated.{TableId};

    ghost Value = { TableId };

    ghost view = { λ h. h.words.shared.table_id };

    ghost invariant = { λ h. h.words.shared.table_id.words ≡ 64 };
}

/// A handle to the words, for one thread.
///
/// In contracts a handle is the table of its words, and the values that the handle has seen and
/// published.
#[derive(Drop)]
pub struct HeadSeat {
    seat: Seat<u8, View>,
}

impl Model for HeadSeat {
    ghost use Rattle.fc_heads.specs.Heads.{HeadSeat as Seated};

    ghost Value = { Seated };

    ghost use Rattle.std.specs.Prelude.{◌≡◌, []};
    ghost use Rattle.fc_heads.specs.Heads.{IsWhole};

    ghost view = { λ s. record { table = s.seat.table_id; view = s.seat.me.0 } };

    ghost invariant = { λ s. (s.seat.me.1 ≡ []) × IsWhole s.seat.me.0 };
}

impl Heads {
    /// Makes a table of unpublished words, and a first handle to it.
    ///
    /// # Errors
    /// Returns `AllocError` if memory for the words can't be allocated.
    pub fn new(alloc: Global) -> Result<(Heads, HeadSeat), AllocError>
        ensures { IfOk result (λ r. r.1 ≡ record { table = r.0; view = fresh }) }
    {
        let (words, seat) = Table::of_words(alloc, &[0; HEAD_WORDS], &())?;
        Ok((Heads { words }, HeadSeat { seat }))
    }

    /// Makes another handle, which has seen and published nothing.
    ///
    /// `from` is unchanged. A thread that has no handle calls [`Heads::new_seat`].
    ///
    /// # Errors
    /// No error is returned at present, since the call allocates no memory.
    pub fn seat(&self, from: &mut HeadSeat) -> Result<HeadSeat, AllocError>
        requires { from.old.table ≡ self.now }
        ensures new { IfOk result (λ s. s ≡ record { table = self.now; view = fresh }) }
        ensures kept { from.new ≡ from.old }
    {
        Ok(HeadSeat {
            seat: steps::another(&self.words, &mut from.seat),
        })
    }

    /// Makes another handle, which has seen and published nothing.
    ///
    /// This call is for a thread that has no handle from which to make one.
    pub fn new_seat(&self) -> HeadSeat
        ensures { result ≡ record { table = self.now; view = fresh } }
    {
        HeadSeat {
            seat: steps::arrive(&self.words),
        }
    }

    /// Loads the word of a slot, 0 to 63.
    ///
    /// The result is at least the greatest value of this word that the handle has seen before. The
    /// handle has then seen the result.
    pub fn peek(&self, slot: u8, seat: &mut HeadSeat) -> u64
        requires seat { seat.old.table ≡ self.now }
        requires slot { slot < 64 }
        ensures rises { word_of seat.old.view.seen slot ≤ result }
        ensures seen { seat.new ≡ record seat.old { view = peeked seat.old.view slot result } }
    {
        steps::load(&self.words, usize::from(slot), &mut seat.seat)
    }

    /// Publishes a value in the word of a slot, 0 to 63.
    ///
    /// A value lower than the word doesn't change the word. The handle has then published the
    /// value, and has seen the greater of the value and the word.
    pub fn raise(&self, slot: u8, word: u64, seat: &mut HeadSeat)
        requires seat { seat.old.table ≡ self.now }
        requires slot { slot < 64 }
        ensures { IsRaised slot word seat.old seat.new }
    {
        steps::raise(&self.words, usize::from(slot), word, &mut seat.seat);
    }

    /// Exchanges the knowledge of two handles.
    ///
    /// For each slot, each handle has then seen the greater of the values that the two had seen.
    pub fn meet(&self, one: &mut HeadSeat, other: &mut HeadSeat)
        requires { (one.old.table ≡ self.now) × (other.old.table ≡ self.now) }
        ensures one { one.new ≡ record one.old { view = met one.old.view other.old.view } }
        ensures other { other.new ≡ record other.old { view = met other.old.view one.old.view } }
    {
        steps::meet(&self.words, &mut one.seat, &mut other.seat);
    }
}

//! The book of one history, and the owners of its tracks.
ghost use Rattle.std.specs.Prelude.{◌≡◌, ◌<◌, ◌++◌, ◌∷◌, [], true, false, IfOk};
ghost use Rattle.atomic_table.specs.Seated.{TableId};
ghost use Rattle.fc_book.specs.Calls.{keys_of};
ghost use Rattle.fc_book.specs.Tracks.{HasHistory, HasKey, with_begun, first_own, first_view, merged_with, own_view, part_view, with_filed, with_next, with_part, without_first};

use crate::entry::CallEntry;
use crate::steps::{self, CallSeat, Words};
use crate::view::EntryName;
use atomic_table::Table;
use std::alloc::{AllocError, Global};
use std::marker::{Brand, Model, PhantomData};
use std::mem::replace;

/// The name of a book, by the book's table. Types with one name are of one book.
pub trait BookName {
    ghost table: { TableId };
}

impl BookName for Brand {
    ghost use Rattle.fc_book.specs.Tracks.{no_table};

    ghost table = { no_table };
}

/// A part of a book: the book's table, and the key of the part's track.
pub trait Part {
    ghost use Rattle.std.specs.Prelude.{◌≡◌, ℕ};

    ghost table: { TableId };

    ghost key: { ℕ };

    /// Returns the key of the part's track.
    fn track_key() -> u64
        ensures { result ≡ key };
}

/// The part with this key, of the book with this name.
pub struct PartOf<J: BookName, const KEY: u64> {
    of: PhantomData<J>,
}

impl<J: BookName, const KEY: u64> Part for PartOf<J, KEY> {
    ghost table = { J.table };

    ghost key = { KEY };

    fn track_key() -> u64 {
        KEY
    }
}

/// A book with an empty history and no name yet.
#[derive(Drop)]
pub struct NewBook {
    words: Words,
    seat: CallSeat,
    pub ghost of: { seat.table_id ≡ words.shared.table_id },
    pub ghost some: { 0 < words.shared.table_id.words },
    pub ghost empty: { seat.me ≡ (first_view, []) },
}

/// The book: a table of words that are never written.
///
/// Each step loads the table's first word.
#[derive(Drop)]
pub struct Book<J: BookName> {
    words: Words,
    of: PhantomData<J>,
    ghost named: { words.shared.table_id ≡ J.table },
    ghost some: { 0 < words.shared.table_id.words },
}

/// The tracks that a thread or a message owns.
///
/// This type has no bytes. In contracts it is the owner's view.
#[derive(Drop)]
pub struct Tracks<J: BookName> {
    seat: CallSeat,
    of: PhantomData<J>,
}

impl<J: BookName> Model for Tracks<J> {
    ghost use Rattle.std.specs.Prelude.{◌≡◌, []};
    ghost use Rattle.fc_book.specs.declared.view.BookView.{BookView as Viewed};
    ghost use Rattle.fc_book.specs.declared.entry.CallEntry.{CallEntry as Call};

    ghost Value = { Viewed Call };

    ghost view = { λ t. t.seat.me.0 };

    ghost invariant = { λ t. (t.seat.table_id ≡ J.table) × (t.seat.me.1 ≡ []) × (t.seat.me.0.locked ≡ []) };
}

/// The track of a part, stored under the part's lock.
///
/// This type has no bytes. In contracts it is the list of the calls on the track, oldest first.
#[derive(Drop)]
pub struct PartTrack<P: Part> {
    seat: CallSeat,
    of: PhantomData<P>,
}

impl<P: Part> Model for PartTrack<P> {
    ghost use Rattle.std.specs.Prelude.{◌≡◌, [], List};
    ghost use Rattle.fc_book.specs.declared.entry.CallEntry.{CallEntry as Call};

    ghost Value = { List Call };

    ghost use Rattle.fc_book.specs.Tracks.{entries_of, part_view};

    ghost view = { λ p. entries_of p.seat.me.0.locked };

    ghost invariant = { λ p. (p.seat.table_id ≡ P.table) × (p.seat.me ≡ (part_view P.key (entries_of p.seat.me.0.locked), [])) };
}

impl NewBook {
    /// Makes a book with an empty history.
    ///
    /// # Errors
    /// Returns `AllocError` if memory can't be allocated.
    pub fn new(alloc: Global) -> Result<NewBook, AllocError> {
        let (words, seat) = Table::of_words(alloc, &[0; 8], &())?;
        Ok(NewBook { words, seat })
    }

    /// Names the book, and returns it with an owner that has no track yet.
    ///
    /// The owner may begin each track.
    pub fn with_name<J: BookName>(self) -> (Book<J>, Tracks<J>)
        requires { self.words.shared.table_id ≡ J.table }
        ensures { result.1 ≡ first_view }
    {
        let NewBook { words, seat } = self;
        (
            Book {
                words,
                of: PhantomData,
            },
            Tracks {
                seat,
                of: PhantomData,
            },
        )
    }
}

impl<J: BookName> Tracks<J> {
    /// Begins the next track, which is that of a part, and returns it.
    ///
    /// The caller guarantees that the part's key is the next one.
    pub fn begin_part<P: Part>(&mut self, book: &Book<J>) -> PartTrack<P>
        requires same { P.table ≡ J.table }
        requires key { P.key ≡ self.old.next }
        requires may_begin { self.old.may_begin ≡ true }
        ensures part { result ≡ [] }
        ensures kept { self.new ≡ with_next self.old }
    {
        PartTrack {
            seat: steps::begin_part(&book.words, &mut self.seat),
            of: PhantomData,
        }
    }

    /// Begins the next track for a new owner, and returns that owner.
    ///
    /// The new owner is a thread's or a message's, and may begin no track. This owner may begin
    /// tracks.
    pub fn begin_tracks(&mut self, book: &Book<J>) -> Tracks<J>
        requires may_begin { self.old.may_begin ≡ true }
        ensures new { result ≡ own_view self.old.next [] }
        ensures kept { self.new ≡ with_next self.old }
    {
        Tracks {
            seat: steps::begin_tracks(&book.words, &mut self.seat),
            of: PhantomData,
        }
    }

    /// Begins the next track, and puts it first among the owner's tracks.
    pub fn begin(&mut self, book: &Book<J>)
        requires may_begin { self.old.may_begin ≡ true }
        ensures kept { self.new ≡ with_begun self.old }
    {
        steps::begin(&book.words, &mut self.seat);
    }

    /// Splits off the first of the owner's tracks, and returns it in a new owner.
    ///
    /// The new owner may begin no track, and has no track if the owner had none.
    pub fn split_first(&mut self, book: &Book<J>) -> Tracks<J>
        ensures first { result ≡ first_own self.old }
        ensures kept { self.new ≡ without_first self.old }
    {
        Tracks {
            seat: steps::split_first(&book.words, &mut self.seat),
            of: PhantomData,
        }
    }

    /// Merges the tracks of `other`, which may begin none, into the owner's tracks.
    pub fn merge(&mut self, book: &Book<J>, other: Tracks<J>)
        requires { other.may_begin ≡ false }
        ensures merged { self.new ≡ merged_with self.old other }
    {
        let Tracks { seat, of: _ } = other;
        steps::merge(&book.words, &mut self.seat, seat);
    }

    /// Closes a part: the part's track becomes one of the owner's.
    pub fn close<P: Part>(&mut self, book: &Book<J>, part: PartTrack<P>)
        requires { P.table ≡ J.table }
        ensures closed { self.new ≡ with_part self.old (part_view P.key part) }
    {
        let PartTrack { seat, of: _ } = part;
        steps::close(&book.words, &mut self.seat, seat);
    }

    /// Shows that the owner's tracks are those of one history.
    ///
    /// Each track has exactly the entries of the history with the track's key. The call changes
    /// nothing; only its contract is of use.
    pub fn attest(&mut self, book: &Book<J>)
        ensures one { HasHistory keys_of self.old }
        ensures kept { self.new ≡ self.old }
    {
        steps::attest(&book.words, &mut self.seat);
    }

    /// Files a call of a part; the caller holds the part's lock.
    ///
    /// The call becomes the last entry on the tracks of its part, of its thread and of its job.
    pub fn file<P: Part>(&mut self, book: &Book<J>, part: &mut PartTrack<P>, entry: &CallEntry)
        requires same { P.table ≡ J.table }
        requires part { entry.now.part ≡ P.key }
        requires who { HasKey entry.now.who self.old.own }
        requires job { HasKey entry.now.job self.old.own }
        ensures part { part.new ≡ part.old ++ entry.now ∷ [] }
        ensures own { self.new ≡ with_filed keys_of entry.now self.old }
    {
        file_as::<Brand, J, P>(book, self, part, entry);
    }
}

/// Files a call for [`Tracks::file`].
///
/// `X` is a type that names `entry` in contracts. The owner has the part's track while the entry is
/// filed.
fn file_as<X: EntryName, J: BookName, P: Part>(
    book: &Book<J>,
    tracks: &mut Tracks<J>,
    part: &mut PartTrack<P>,
    entry: &CallEntry,
)
    requires entry { X.entry ≡ entry.now }
    requires same { P.table ≡ J.table }
    requires part { entry.now.part ≡ P.key }
    requires who { HasKey entry.now.who tracks.old.own }
    requires job { HasKey entry.now.job tracks.old.own }
    ensures part { part.new ≡ part.old ++ entry.now ∷ [] }
    ensures own { tracks.new ≡ with_filed keys_of entry.now tracks.old }
{
    let spare = steps::empty_seat(&book.words, &mut tracks.seat);
    let seat = replace(&mut part.seat, spare);
    steps::file::<X>(&book.words, &mut tracks.seat, seat);
    let back = steps::return_part(&book.words, &mut tracks.seat);
    let _spent = replace(&mut part.seat, back);
}

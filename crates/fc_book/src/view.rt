//! The view of an owner of tracks, and the moves that change it.
ghost use Rattle.std.specs.Prelude.{◌≡◌};

use crate::entry::CallEntry;
use atomic_table::{Join, Play, Split, TableRule};
use std::collections::LinkedList;
use std::marker::{Brand, PhantomData};

/// A track: the entries of the history with the track's key, oldest first.
///
/// Only contracts use this type; no value of it is made.
pub struct Track<E> {
    pub key: u64,
    pub entries: LinkedList<E>,
}

/// The tracks of an owner: those of parts, while their locks are held, and its own.
///
/// If the owner may begin tracks, `next` is the key of the next one. Only contracts use this type;
/// no value of it is made.
pub struct BookView<E> {
    pub locked: LinkedList<Track<E>>,
    pub own: LinkedList<Track<E>>,
    pub may_begin: bool,
    pub next: u64,
}

/// The rule of a book.
///
/// There is one history, each view is one of this history, and no track is in two views.
pub struct BookRule;

impl TableRule<u8, BookView<CallEntry>, ()> for BookRule {
    ghost use Rattle.fc_book.specs.Calls.{keys_of};
    ghost use Rattle.fc_book.specs.Tracks.{HaveOneHistory, first_view};

    ghost holds = { λ _ s. HaveOneHistory keys_of s.views };

    ghost first = { λ _. first_view };
}

/// The name of a filed entry. Each call of [`crate::Tracks::file`] chooses it.
pub trait EntryName {
    ghost use Rattle.fc_book.specs.declared.entry.CallEntry.{CallEntry};

    ghost entry: { CallEntry };
}

impl EntryName for Brand {
    ghost use Rattle.fc_book.specs.Calls.{no_entry};

    ghost entry = { no_entry };
}

/// Takes over a part's track, and files an entry.
pub(crate) struct Files<X: EntryName> {
    of: PhantomData<X>,
}

impl<X: EntryName> Join<BookView<CallEntry>> for Files<X> {
    ghost use Rattle.fc_book.specs.Calls.{keys_of};
    ghost use Rattle.fc_book.specs.Tracks.{filed_with, no_tracks};

    ghost both = { filed_with keys_of X.entry };

    ghost spent = { no_tracks };
}

/// Takes over a part's track, and files nothing.
pub struct TakesPart;

impl<E> Join<BookView<E>> for TakesPart {
    ghost use Rattle.fc_book.specs.Tracks.{no_tracks, with_locked};

    ghost both = { with_locked };

    ghost spent = { no_tracks };
}

/// Takes over another part's track, and files nothing.
pub struct TakesAnother;

impl<E> Join<BookView<E>> for TakesAnother {
    ghost use Rattle.fc_book.specs.Tracks.{no_tracks, with_another};

    ghost both = { with_another };

    ghost spent = { no_tracks };
}

/// Returns the part's track.
pub struct ReturnsPart;

impl<E> Split<BookView<E>> for ReturnsPart {
    ghost use Rattle.fc_book.specs.Tracks.{locked_of, without_locked};

    ghost left = { without_locked };

    ghost right = { locked_of };
}

/// Returns the first of the parts' tracks.
pub struct ReturnsFirst;

impl<E> Split<BookView<E>> for ReturnsFirst {
    ghost use Rattle.fc_book.specs.Tracks.{first_locked, without_first_locked};

    ghost left = { without_first_locked };

    ghost right = { first_locked };
}

/// Makes a handle without tracks.
pub struct MakesEmpty;

impl<E> Split<BookView<E>> for MakesEmpty {
    ghost use Rattle.fc_book.specs.Tracks.{no_tracks};

    ghost left = { λ v. v };

    ghost right = { λ v. no_tracks };
}

/// Begins the next track, for a part.
pub struct BeginsPart;

impl<E> Split<BookView<E>> for BeginsPart {
    ghost use Rattle.std.specs.Prelude.{[]};
    ghost use Rattle.fc_book.specs.Tracks.{part_view, with_next};

    ghost left = { with_next };

    ghost right = { λ v. part_view v.next [] };
}

/// Begins the next track, for a new owner.
pub struct BeginsTracks;

impl<E> Split<BookView<E>> for BeginsTracks {
    ghost use Rattle.std.specs.Prelude.{[]};
    ghost use Rattle.fc_book.specs.Tracks.{own_view, with_next};

    ghost left = { with_next };

    ghost right = { λ v. own_view v.next [] };
}

/// Begins the next track, for the owner itself.
pub struct Begins;

impl<E> Play<u8, BookView<E>> for Begins {
    ghost use Rattle.std.specs.Prelude.{◌≡◌};
    ghost use Rattle.fc_book.specs.Tracks.{with_begun};

    ghost then = { λ s v found w. w ≡ (with_begun v.0, v.1) };
}

/// Splits the first of the owner's tracks off.
pub struct SplitsFirst;

impl<E> Split<BookView<E>> for SplitsFirst {
    ghost use Rattle.fc_book.specs.Tracks.{first_own, without_first};

    ghost left = { without_first };

    ghost right = { first_own };
}

/// Merges the tracks of another owner into the owner's tracks.
pub struct Merges;

impl<E> Join<BookView<E>> for Merges {
    ghost use Rattle.fc_book.specs.Tracks.{merged_with, no_tracks};

    ghost both = { merged_with };

    ghost spent = { no_tracks };
}

/// Makes the track of a part one of the owner's tracks.
pub struct Closes;

impl<E> Join<BookView<E>> for Closes {
    ghost use Rattle.fc_book.specs.Tracks.{no_tracks, with_part};

    ghost both = { with_part };

    ghost spent = { no_tracks };
}

/// Shows that the owner's view is one of the history.
pub(crate) struct Attests;

impl Play<u8, BookView<CallEntry>> for Attests {
    ghost use Rattle.std.specs.Prelude.{◌≡◌};
    ghost use Rattle.fc_book.specs.Calls.{keys_of};
    ghost use Rattle.fc_book.specs.Tracks.{HasHistory};

    ghost then = { λ s v found w. (w ≡ v) × HasHistory keys_of v.0 };
}

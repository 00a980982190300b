//! The rule of a server's book, and the moves that file an entry or read a word.
ghost use Rattle.std.specs.Prelude.{◌≡◌};

use crate::book::ServerName;
use crate::book_begin::BookBegin;
use crate::entry::FiledEntry;
use atomic_table::{Join, Play, TableRule};
use fc_book::view::BookView;
use std::marker::{Brand, PhantomData};

/// The rule of a server's book. Its key says what the book begins with.
pub struct ServerRule;

impl TableRule<u8, BookView<FiledEntry>, BookBegin> for ServerRule {
    ghost use Rattle.fc_book.specs.Tracks.{first_view};
    ghost use Rattle.fc_filed.specs.Books.{HaveServerHistory};

    ghost holds = { λ start s. HaveServerHistory start s.words s.views };

    ghost first = { λ start. first_view };
}

/// The name of an entry that is filed.
///
/// Each call that files an entry chooses a name for the entry.
pub trait FiledName {
    ghost use Rattle.fc_filed.specs.declared.entry.FiledEntry.{FiledEntry};

    ghost entry: { FiledEntry };
}

impl FiledName for Brand {
    ghost use Rattle.fc_filed.specs.Entries.{blank_entry};

    ghost entry = { blank_entry };
}

/// Takes over a part's track, and files an entry.
pub(crate) struct FilesEntry<X: FiledName> {
    of: PhantomData<X>,
}

impl<X: FiledName> Join<BookView<FiledEntry>> for FilesEntry<X> {
    ghost use Rattle.fc_book.specs.Tracks.{filed_with, no_tracks};
    ghost use Rattle.fc_filed.specs.Entries.{entry_keys};

    ghost both = { filed_with entry_keys X.entry };

    ghost spent = { no_tracks };
}

/// Files an entry of a shard whose track the owner has taken over, and resets the idle word.
///
/// The move stores 0 in the shard's idle word: the call may have changed the shard.
pub(crate) struct FilesForShard<X: FiledName> {
    of: PhantomData<X>,
}

impl<X: FiledName> Play<u8, BookView<FiledEntry>> for FilesForShard<X> {
    ghost use Rattle.std.specs.Prelude.{◌≡◌};
    ghost use Rattle.fc_book.specs.Tracks.{filed_on_all};
    ghost use Rattle.fc_filed.specs.Entries.{entry_keys};

    ghost then = { λ s v found w. w ≡ (filed_on_all entry_keys X.entry v.0, v.1) };
}

/// Writes an idle word, and leaves the view unchanged.
pub(crate) struct NotesIdle;

impl Play<u8, BookView<FiledEntry>> for NotesIdle {
    ghost use Rattle.std.specs.Prelude.{◌≡◌};

    ghost then = { λ s v found w. w ≡ v };
}

/// Reads an idle word, and files the skip of its shard in the same step.
///
/// The skip is filed only if its time is before the one that was read.
pub(crate) struct SkipsShard<X: FiledName> {
    of: PhantomData<X>,
}

impl<X: FiledName> Play<u8, BookView<FiledEntry>> for SkipsShard<X> {
    ghost use Rattle.std.specs.Prelude.{◌≡◌, nat_lt};
    ghost use Rattle.fc_filed.specs.Threads.{filed_if, skip_time};

    ghost then = { λ s v found w. w ≡ (filed_if (nat_lt (skip_time X.entry.operation) found) X.entry v.0, v.1) };
}

/// Files an entry that belongs to no part.
///
/// The move loads a word of the padding, which is never written.
pub(crate) struct FilesAlone<X: FiledName> {
    of: PhantomData<X>,
}

impl<X: FiledName> Play<u8, BookView<FiledEntry>> for FilesAlone<X> {
    ghost use Rattle.std.specs.Prelude.{◌≡◌};
    ghost use Rattle.fc_book.specs.Tracks.{with_filed};
    ghost use Rattle.fc_filed.specs.Entries.{entry_keys};

    ghost then = { λ s v found w. w ≡ (with_filed entry_keys X.entry v.0, v.1) };
}

/// Attests that there is one history, of which the owner's tracks are subhistories.
pub(crate) struct AttestsServer<J: ServerName> {
    of: PhantomData<J>,
}

impl<J: ServerName> Play<u8, BookView<FiledEntry>> for AttestsServer<J> {
    ghost use Rattle.std.specs.Prelude.{◌≡◌};
    ghost use Rattle.fc_filed.specs.Books.{HasServerHistory};

    ghost then = { λ s v found w. (w ≡ v) × HasServerHistory J.first_job J.first v.0 };
}

/// Reads a head word, and files nothing.
pub(crate) struct ReadsWord;

impl Play<u8, BookView<FiledEntry>> for ReadsWord {
    ghost use Rattle.std.specs.Prelude.{◌≡◌, ◌≤◌, ◌-◌};
    ghost use Rattle.fc_filed.specs.Threads.{known_word};

    ghost then = { λ s v found w. (known_word (s.word - 16) v.0.own ≤ found) × (w ≡ v) };
}

/// Reads a head word, and files the read in the same step.
pub(crate) struct LooksAtWord<X: FiledName> {
    of: PhantomData<X>,
}

impl<X: FiledName> Play<u8, BookView<FiledEntry>> for LooksAtWord<X> {
    ghost use Rattle.std.specs.Prelude.{◌≡◌, ◌≤◌, ◌-◌};
    ghost use Rattle.fc_book.specs.Tracks.{with_filed};
    ghost use Rattle.fc_filed.specs.Entries.{entry_keys};
    ghost use Rattle.fc_filed.specs.Threads.{entry_of_look, known_word};

    ghost then = { λ s v found w. (known_word (s.word - 16) v.0.own ≤ found)
        × (w ≡ (with_filed entry_keys (entry_of_look X.entry (s.word - 16) found) v.0, v.1)) };
}

/// Raises a head word, and files the raise in the same step.
pub(crate) struct RaisesHead<X: FiledName> {
    of: PhantomData<X>,
}

impl<X: FiledName> Play<u8, BookView<FiledEntry>> for RaisesHead<X> {
    ghost use Rattle.std.specs.Prelude.{◌≡◌, ◌-◌};
    ghost use Rattle.fc_book.specs.Tracks.{with_filed};
    ghost use Rattle.fc_filed.specs.Entries.{entry_keys};
    ghost use Rattle.fc_filed.specs.Threads.{entry_of_raise};

    ghost then = { λ s v found w. w ≡ (with_filed entry_keys (entry_of_raise X.entry (s.word - 16) s.first) v.0, v.1) };
}

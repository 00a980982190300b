//! The book of a server's history, and the owners of its tracks.
ghost use Rattle.std.specs.Prelude.{◌≡◌, ◌+◌, ◌<◌, ◌≤◌, ◌++◌, ◌∷◌, ℕ, Bool, [], length, true, false, is_some, IfOk};
ghost use Rattle.atomic_table.specs.Seated.{TableId};
ghost use Rattle.fc_book.specs.Tracks.{first_own, first_view, merged_with, own_view, part_view, with_begun, with_next, with_part, without_first};
ghost use Rattle.fc_server.specs.States.{ServerState};
ghost use Rattle.fc_calls.specs.Logged.{LooksAt, RaisesWord, SkipsIdle};
ghost use Rattle.fc_store.specs.Stored.{StoredSlots};
ghost use Rattle.fc_linear.specs.Operations.{RefusesInstall, Logged, NoPart, RejectsImage, part_of, is_for_job, is_locked};
ghost use Rattle.fc_registry.specs.Shards.{shard_at};
ghost use Rattle.fc_filed.specs.Books.{HasServerHistory, IsFirstSent};
ghost use Rattle.fc_filed.specs.Idle.{LeadToIdle};
ghost use Rattle.fc_filed.specs.Entries.{IsOfSavedSlot, part_key};
ghost use Rattle.fc_filed.specs.Threads.{HasJobFirst, HasOwnTrack, MayFile, did_by, did_if, did_with, entry_by, entry_with, known_word};

use crate::book_begin::BookBegin;
use crate::steps::{self, FiledSeat, FiledWords};
use crate::store::StoreOf;
use crate::view::FiledName;
use atomic_table::Table;
use fc_book::Part;
use fc_front::Answer;
use fc_server::FirstServer;
use fc_ticket::Job;
use std::alloc::{AllocError, Global};
use std::marker::{Brand, Model, PhantomData};
use std::mem::replace;

/// The name of a server's book.
///
/// A book and tracks whose types have the same name belong together. The name states the book's
/// table, the key of the first job's track, and the server's first state. It also states whether
/// the server's store is persistent, and which slots it has stored at first.
pub trait ServerName {
    ghost use Rattle.std.specs.Prelude.{ℕ};

    ghost table: { TableId };

    ghost first_job: { ℕ };

    ghost first: { ServerState };

    ghost persistent: { Bool };

    ghost stored: { StoredSlots };
}

impl ServerName for Brand {
    ghost use Rattle.fc_book.specs.Tracks.{no_table};
    ghost use Rattle.fc_filed.specs.Blank.{some_server};
    ghost use Rattle.fc_store.specs.Stored.{blank_slot};

    ghost table = { no_table };

    ghost first_job = { 0 };

    ghost first = { some_server };

    ghost persistent = { false };

    ghost stored = { λ n. blank_slot };
}

/// A book with an empty history and without a name yet, and the server's first state.
///
/// Contracts see the book's table, the first key of a job's track, and the server's first state.
#[derive(Drop)]
pub struct NewServerBook {
    words: FiledWords,
    seat: FiledSeat,
    threads: u16,
    first: FirstServer,
}

impl Model for NewServerBook {
    ghost use Rattle.fc_filed.specs.Books.{SeenBook};

    ghost Value = { SeenBook };

    ghost use Rattle.std.specs.Prelude.{◌≡◌, ◌+◌, []};
    ghost use Rattle.fc_book.specs.Tracks.{first_view};
    ghost use Rattle.fc_server.specs.States.{CanBeginWith};

    ghost view = { λ b. record { table = b.words.shared.table_id; first_job = b.words.shared.key.first_job; first = b.words.shared.key.first } };

    ghost invariant = { λ b. (b.seat.table_id ≡ b.words.shared.table_id) × (b.words.shared.table_id.words ≡ 80)
        × (b.seat.me ≡ (first_view, [])) × (b.words.shared.key.first_job ≡ 10 + b.threads)
        × (b.first ≡ b.words.shared.key.first) × CanBeginWith b.words.shared.key.first };
}

/// A server's book: eight words of padding, the idle words of eight shards, and the head words.
///
/// The padding is never written. A step that needs no idle word and no head word loads the first
/// word of the padding. A shard's idle word is a time in milliseconds, before which the shard is
/// idle. The step that files a call of the shard resets the word to 0. Contracts see the table, the
/// first key of a job's track, and the server's first state.
#[derive(Drop)]
pub struct ServerBook<J: ServerName> {
    words: FiledWords,
    of: PhantomData<J>,
}

impl<J: ServerName> Model for ServerBook<J> {
    ghost use Rattle.fc_filed.specs.Books.{SeenBook};

    ghost Value = { SeenBook };

    ghost use Rattle.std.specs.Prelude.{◌≡◌, length};

    ghost view = { λ b. record { table = b.words.shared.table_id; first_job = b.words.shared.key.first_job; first = b.words.shared.key.first } };

    ghost invariant = { λ b. (b.words.shared.table_id ≡ J.table) × (b.words.shared.key.first_job ≡ J.first_job) × (b.words.shared.key.first ≡ J.first)
        × (b.words.shared.table_id.words ≡ 80) × (length b.words.shared.key.first.words ≡ 64) };
}

/// The tracks that a thread or a message owns.
///
/// The tracks have no bytes. Contracts see the owner's view of the history.
#[derive(Drop)]
pub struct ServerTracks<J: ServerName> {
    seat: FiledSeat,
    of: PhantomData<J>,
}

impl<J: ServerName> Model for ServerTracks<J> {
    ghost use Rattle.std.specs.Prelude.{◌≡◌, []};
    ghost use Rattle.fc_book.specs.declared.view.BookView.{BookView as Viewed};
    ghost use Rattle.fc_filed.specs.declared.entry.FiledEntry.{FiledEntry as Entry};

    ghost Value = { Viewed Entry };

    ghost view = { λ t. t.seat.me.0 };

    ghost invariant = { λ t. (t.seat.table_id ≡ J.table) × (t.seat.me.1 ≡ []) × (t.seat.me.0.locked ≡ []) };
}

/// The track of a part, stored under the part's lock.
///
/// The track has no bytes. Contracts see the track's entries, oldest first.
#[derive(Drop)]
pub struct FiledTrack<P: Part> {
    seat: FiledSeat,
    of: PhantomData<P>,
}

impl<P: Part> Model for FiledTrack<P> {
    ghost use Rattle.std.specs.Prelude.{◌≡◌, [], List};
    ghost use Rattle.fc_filed.specs.declared.entry.FiledEntry.{FiledEntry as Entry};

    ghost Value = { List Entry };

    ghost use Rattle.fc_book.specs.Tracks.{entries_of, part_view};

    ghost view = { λ p. entries_of p.seat.me.0.locked };

    ghost invariant = { λ p. (p.seat.table_id ≡ P.table) × (p.seat.me ≡ (part_view P.key (entries_of p.seat.me.0.locked), [])) };
}

impl NewServerBook {
    /// Makes a book with an empty history, for `threads` threads.
    ///
    /// The server begins as `first`. The table has its head words, and no shard is known to be
    /// idle. The first key of a job's track is `10 + threads`.
    ///
    /// # Errors
    /// Returns `AllocError` if memory can't be allocated.
    pub fn new(alloc: Global, threads: u16, first: FirstServer) -> Result<NewServerBook, AllocError>
        ensures first_job { IfOk result (λ b. b.first_job ≡ 10 + threads) }
        ensures first { IfOk result (λ b. b.first ≡ first) }
    {
        let table = steps::table_words(first.heads());
        let start = BookBegin {
            first_job: 10 + u64::from(threads),
            first,
        };
        let (words, seat) = Table::of_words(alloc, &table, &start)?;
        let BookBegin { first, .. } = start;
        Ok(NewServerBook {
            words,
            seat,
            threads,
            first,
        })
    }

    /// Returns the number of threads that the book is for.
    pub fn threads(&self) -> u16
        ensures { 10 + result ≡ self.now.first_job }
    {
        self.threads
    }

    /// Names the book, and returns it with its first owner and the server's first state.
    ///
    /// The owner has no track yet, and may begin each track.
    pub fn with_name<J: ServerName>(self) -> (ServerBook<J>, ServerTracks<J>, FirstServer)
        requires named { self.table ≡ J.table }
        requires key { self.first_job ≡ J.first_job }
        requires server { self.first ≡ J.first }
        ensures owner { result.1 ≡ first_view }
        ensures server { result.2 ≡ J.first }
    {
        let NewServerBook {
            words,
            seat,
            first,
            ..
        } = self;
        (
            ServerBook {
                words,
                of: PhantomData,
            },
            ServerTracks {
                seat,
                of: PhantomData,
            },
            first,
        )
    }
}

impl<J: ServerName> ServerTracks<J> {
    /// Begins the next track, for a part, and returns this empty track.
    pub fn begin_part<P: Part>(&mut self, book: &ServerBook<J>) -> FiledTrack<P>
        requires same { P.table ≡ J.table }
        requires key { P.key ≡ self.old.next }
        requires may_begin { self.old.may_begin ≡ true }
        ensures part { result ≡ [] }
        ensures kept { self.new ≡ with_next self.old }
    {
        FiledTrack {
            seat: steps::begin_part(&book.words, &mut self.seat),
            of: PhantomData,
        }
    }

    /// Begins the next track for a new owner, and returns that owner.
    ///
    /// The new owner may begin no track.
    pub fn begin_tracks(&mut self, book: &ServerBook<J>) -> ServerTracks<J>
        requires may_begin { self.old.may_begin ≡ true }
        ensures new { result ≡ own_view self.old.next [] }
        ensures kept { self.new ≡ with_next self.old }
    {
        ServerTracks {
            seat: steps::begin_tracks(&book.words, &mut self.seat),
            of: PhantomData,
        }
    }

    /// Begins the next track, and puts it first among the owner's tracks.
    pub fn begin(&mut self, book: &ServerBook<J>)
        requires may_begin { self.old.may_begin ≡ true }
        ensures kept { self.new ≡ with_begun self.old }
    {
        steps::begin(&book.words, &mut self.seat);
    }

    /// Moves the owner's first track to a new owner, for a message, and returns the new owner.
    ///
    /// The new owner may begin no track, and has no track if the owner had none. Requires that the
    /// first track, if any, is a job's and is right for its job. So it is right even if the message
    /// is lost.
    pub fn split_first(&mut self, book: &ServerBook<J>) -> ServerTracks<J>
        requires { IsFirstSent J.first_job self.old.own }
        ensures first { result ≡ first_own self.old }
        ensures kept { self.new ≡ without_first self.old }
    {
        ServerTracks {
            seat: steps::split_first(&book.words, &mut self.seat),
            of: PhantomData,
        }
    }

    /// Merges the tracks of `other` into the owner's tracks.
    ///
    /// Requires that `other` may begin no track.
    pub fn merge(&mut self, book: &ServerBook<J>, other: ServerTracks<J>)
        requires { other.may_begin ≡ false }
        ensures merged { self.new ≡ merged_with self.old other }
    {
        let ServerTracks { seat, of: _ } = other;
        steps::merge(&book.words, &mut self.seat, seat);
    }

    /// Closes a part: the part's track becomes one of the owner's tracks.
    pub fn close<P: Part>(&mut self, book: &ServerBook<J>, part: FiledTrack<P>)
        requires { P.table ≡ J.table }
        ensures closed { self.new ≡ with_part self.old (part_view P.key part) }
    {
        let FiledTrack { seat, of: _ } = part;
        steps::close(&book.words, &mut self.seat, seat);
    }

    /// Attests that there is one history, of which the owner's tracks are subhistories.
    pub fn attest(&mut self, book: &ServerBook<J>)
        ensures one { HasServerHistory J.first_job J.first self.old }
        ensures kept { self.new ≡ self.old }
    {
        steps::attest::<J>(&book.words, &mut self.seat);
    }

    /// Returns the head word of `slot`, 0 to 63, and files nothing.
    ///
    /// See [`ServerTracks::look`], which files the read.
    pub fn read_word(&mut self, book: &ServerBook<J>, slot: usize) -> u64
        requires slot { slot < 64 }
        ensures rises { known_word slot self.old.own ≤ result }
        ensures kept { self.new ≡ self.old }
    {
        steps::read_word(&book.words, &mut self.seat, slot)
    }

    /// Returns the head word of `slot`, 0 to 63, and files the read.
    ///
    /// The result is at least every word of the slot that the entries on these tracks read, or to
    /// which they raised the word. The entry is filed for thread `who` and for the job whose track
    /// is first. No lock is taken.
    pub fn look(&mut self, book: &ServerBook<J>, who: u64, slot: usize) -> u64
        requires slot { slot < 64 }
        requires thread { HasOwnTrack J.first_job who self.old }
        requires job { HasJobFirst J.first_job self.old }
        ensures rises { known_word slot self.old.own ≤ result }
        ensures filed { self.new ≡ did_by who (Logged (LooksAt slot result)) self.old }
    {
        look_as::<Brand, J>(book, self, who, slot)
    }

    /// Skips the shard of an index, 0 to 7, if its idle word is later than `now`, in milliseconds.
    ///
    /// Returns whether the shard was skipped. A skip is filed for thread `who`. By the rule of the
    /// book (`AreSkipsIdle`) the shard is idle at `now` after its operations before the skip: no
    /// notification has timed out, and no observer has a pending one. No lock is taken.
    pub fn skip_if_idle(&mut self, book: &ServerBook<J>, who: u64, index: usize, now: u64) -> bool
        requires index { index < 8 }
        requires thread { HasOwnTrack J.first_job who self.old }
        ensures filed { self.new ≡ did_if result who (Logged (SkipsIdle index now)) self.old }
    {
        skip_as::<Brand, J>(book, self, who, index, now)
    }

    /// Raises the head word of `slot`, 0 to 63, to `word` if `word` is greater.
    ///
    /// The raise is filed for thread `who` and for the job whose track is first. No lock is taken.
    pub fn raise(&mut self, book: &ServerBook<J>, who: u64, slot: usize, word: u64)
        requires slot { slot < 64 }
        requires thread { HasOwnTrack J.first_job who self.old }
        requires job { HasJobFirst J.first_job self.old }
        ensures filed { self.new ≡ did_by who (Logged (RaisesWord slot word)) self.old }
    {
        raise_as::<Brand, J>(book, self, who, slot, word);
    }

    /// Files the rejection of the image of `job`, an install.
    ///
    /// `answer` is the job's answer. The entry is filed for thread `who` and for the job whose
    /// track is first.
    pub fn reject_image(&mut self, book: &ServerBook<J>, who: u64, job: &Job, answer: &Answer)
        requires thread { HasOwnTrack J.first_job who self.old }
        requires job { HasJobFirst J.first_job self.old }
        ensures filed { self.new ≡ did_by who (RejectsImage job.now answer.now) self.old }
    {
        reject_as::<Brand, J>(book, self, who, job, answer);
    }

    /// Files that the program of `job`, an install, isn't installed.
    ///
    /// The reason is that memory can't be allocated. The entry is filed for thread `who` and for
    /// the job whose track is first.
    pub fn refuse_install(&mut self, book: &ServerBook<J>, who: u64, job: &Job)
        requires thread { HasOwnTrack J.first_job who self.old }
        requires job { HasJobFirst J.first_job self.old }
        ensures filed { self.new ≡ did_by who (RefusesInstall job.now) self.old }
    {
        refuse_as::<Brand, J>(book, self, who, job);
    }
}

impl<P: Part> FiledTrack<P> {
    /// Notes in the book that the shard of this track is idle before `until`, in milliseconds.
    ///
    /// Requires that the track's operations lead to such a shard. The caller holds its lock.
    pub(crate) fn note_idle<J: ServerName>(
        &mut self,
        book: &ServerBook<J>,
        index: usize,
        until: u64,
    )
        requires same { P.table ≡ J.table }
        requires index { (index < 8) × (P.key ≡ index + 1) }
        requires idle { (now : ℕ) → now < until → LeadToIdle (shard_at J.first.shards index) self.old now }
        ensures kept { self.new ≡ self.old }
    {
        steps::note_idle(&book.words, &mut self.seat, index, until);
    }
}

/// Files the operation that `X` names, which is for a job and belongs to no part.
///
/// The entry becomes the last one on two tracks: that of thread `who`, and that of the job whose
/// track is the first in `tracks`.
fn file_alone_as<X: FiledName, J: ServerName>(
    book: &ServerBook<J>,
    tracks: &mut ServerTracks<J>,
    who: u64,
)
    requires entry { X.entry ≡ entry_by who tracks.old X.entry.operation }
    requires no_part { part_of X.entry.operation ≡ NoPart }
    requires for_job { is_for_job X.entry.operation ≡ true }
    requires may { MayFile J.first_job who tracks.old X.entry.operation }
    ensures filed { tracks.new ≡ did_by who X.entry.operation tracks.old }
{
    let _ = who;
    steps::file_alone::<X>(&book.words, &mut tracks.seat);
}

/// Files the rejection of the image of `job`, an install, for [`ServerTracks::reject_image`].
///
/// The entry that `X` names becomes the last one on the tracks of thread `who` and of the job.
fn reject_as<X: FiledName, J: ServerName>(
    book: &ServerBook<J>,
    tracks: &mut ServerTracks<J>,
    who: u64,
    job: &Job,
    answer: &Answer,
)
    requires entry { X.entry ≡ entry_by who tracks.old (RejectsImage job.now answer.now) }
    requires may { MayFile J.first_job who tracks.old (RejectsImage job.now answer.now) }
    ensures filed { tracks.new ≡ did_by who (RejectsImage job.now answer.now) tracks.old }
{
    let _ = job;
    let _ = answer;
    file_alone_as::<X, J>(book, tracks, who);
}

/// Files that the program of `job` isn't installed, for [`ServerTracks::refuse_install`].
///
/// The entry that `X` names becomes the last one on the tracks of thread `who` and of the job.
fn refuse_as<X: FiledName, J: ServerName>(
    book: &ServerBook<J>,
    tracks: &mut ServerTracks<J>,
    who: u64,
    job: &Job,
)
    requires entry { X.entry ≡ entry_by who tracks.old (RefusesInstall job.now) }
    requires may { MayFile J.first_job who tracks.old (RefusesInstall job.now) }
    ensures filed { tracks.new ≡ did_by who (RefusesInstall job.now) tracks.old }
{
    let _ = job;
    file_alone_as::<X, J>(book, tracks, who);
}

/// Files the operation that `X` names, of a part whose lock the caller holds.
///
/// The entry becomes the last one on `part`, on the track of thread `who`, and on the job's track,
/// which is the first in `tracks`. [`crate::FiledFront`] and [`crate::FiledShard`] use the
/// function.
pub fn file_as<X: FiledName, J: ServerName, P: Part>(
    book: &ServerBook<J>,
    tracks: &mut ServerTracks<J>,
    part: &mut FiledTrack<P>,
    who: u64,
)
    requires entry { X.entry ≡ entry_by who tracks.old X.entry.operation }
    requires same { P.table ≡ J.table }
    requires part { part_key who (part_of X.entry.operation) ≡ P.key }
    requires locked { is_locked (part_of X.entry.operation) ≡ true }
    requires may { MayFile J.first_job who tracks.old X.entry.operation }
    ensures part { part.new ≡ part.old ++ X.entry ∷ [] }
    ensures filed { tracks.new ≡ did_by who X.entry.operation tracks.old }
{
    let _ = who;
    let spare = steps::empty_seat(&book.words, &mut tracks.seat);
    let seat = replace(&mut part.seat, spare);
    steps::file::<X>(&book.words, &mut tracks.seat, seat, P::track_key());
    let back = steps::return_part(&book.words, &mut tracks.seat);
    let _spent = replace(&mut part.seat, back);
}

/// Files the operation that `X` names with its save.
///
/// The caller holds the locks of the shard and of the store. The entry becomes the last one on
/// `part`, the shard's track, on the store's track, on the track of thread `who`, and on the job's
/// track, which is the first in `tracks`.
pub(crate) fn file_saved_as<X: FiledName, J: ServerName, P: Part>(
    book: &ServerBook<J>,
    tracks: &mut ServerTracks<J>,
    part: &mut FiledTrack<P>,
    store: &mut FiledTrack<StoreOf<J>>,
    who: u64,
)
    requires entry { X.entry ≡ entry_with X.entry.save who tracks.old X.entry.operation }
    requires save { is_some X.entry.save ≡ true }
    requires of_slot { IsOfSavedSlot X.entry.save (part_of X.entry.operation) }
    requires same { P.table ≡ J.table }
    requires part { (part_key who (part_of X.entry.operation) ≡ P.key) × (0 < P.key) × (P.key < 9) }
    requires locked { is_locked (part_of X.entry.operation) ≡ true }
    requires may { MayFile J.first_job who tracks.old X.entry.operation }
    ensures part { part.new ≡ part.old ++ X.entry ∷ [] }
    ensures store { store.new ≡ store.old ++ X.entry ∷ [] }
    ensures filed { tracks.new ≡ did_with X.entry.save who X.entry.operation tracks.old }
{
    let _ = who;
    let spare = steps::empty_seat(&book.words, &mut tracks.seat);
    let of_shard = replace(&mut part.seat, spare);
    let spare = steps::empty_seat(&book.words, &mut tracks.seat);
    let of_store = replace(&mut store.seat, spare);
    let index = P::track_key() - 1;
    steps::file_saved::<X>(
        &book.words,
        &mut tracks.seat,
        of_shard,
        of_store,
        index as usize,
    );
    let back = steps::return_first(&book.words, &mut tracks.seat);
    let _spent = replace(&mut store.seat, back);
    let back = steps::return_part(&book.words, &mut tracks.seat);
    let _spent = replace(&mut part.seat, back);
}

/// Returns the head word of `slot`, and files the read.
///
/// `X` names the entry's thread and job. See [`ServerTracks::look`].
fn look_as<X: FiledName, J: ServerName>(
    book: &ServerBook<J>,
    tracks: &mut ServerTracks<J>,
    who: u64,
    slot: usize,
) -> u64
    requires entry { X.entry ≡ entry_by who tracks.old (Logged (LooksAt 0 0)) }
    requires slot { slot < 64 }
    requires thread { HasOwnTrack J.first_job who tracks.old }
    requires job { HasJobFirst J.first_job tracks.old }
    ensures rises { known_word slot tracks.old.own ≤ result }
    ensures filed { tracks.new ≡ did_by who (Logged (LooksAt slot result)) tracks.old }
{
    let _ = who;
    steps::look::<X>(&book.words, &mut tracks.seat, slot)
}

/// Skips the shard of an index if its idle word is later than `now`, in milliseconds.
///
/// Returns whether the shard was skipped. A skip is filed as the entry that `X` names; otherwise
/// nothing is filed. See [`ServerTracks::skip_if_idle`].
fn skip_as<X: FiledName, J: ServerName>(
    book: &ServerBook<J>,
    tracks: &mut ServerTracks<J>,
    who: u64,
    index: usize,
    now: u64,
) -> bool
    requires entry { X.entry ≡ entry_by who tracks.old (Logged (SkipsIdle index now)) }
    requires index { index < 8 }
    requires thread { HasOwnTrack J.first_job who tracks.old }
    ensures filed { tracks.new ≡ did_if result who (Logged (SkipsIdle index now)) tracks.old }
{
    let _ = who;
    steps::skip_if_idle::<X>(&book.words, &mut tracks.seat, index, now)
}

/// Raises the head word of `slot` to at least `word`, and files the raise.
///
/// `X` names the entry's thread and job. See [`ServerTracks::raise`].
fn raise_as<X: FiledName, J: ServerName>(
    book: &ServerBook<J>,
    tracks: &mut ServerTracks<J>,
    who: u64,
    slot: usize,
    word: u64,
)
    requires entry { X.entry ≡ entry_by who tracks.old (Logged (LooksAt 0 0)) }
    requires slot { slot < 64 }
    requires thread { HasOwnTrack J.first_job who tracks.old }
    requires job { HasJobFirst J.first_job tracks.old }
    ensures filed { tracks.new ≡ did_by who (Logged (RaisesWord slot word)) tracks.old }
{
    let _ = who;
    steps::raise::<X>(&book.words, &mut tracks.seat, slot, word);
}

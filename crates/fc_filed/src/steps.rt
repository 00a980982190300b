//! The steps of a server's book: the moves of the book's rule, each made at a seat.
//!
//! A seat is an owner's handle of the book's table. Contracts see the tracks of the seat's owner.
//! These are the owner's own tracks, and a part's track while the owner has taken it over. The
//! functions of `book.rt` are made of these steps.
//!
//! A step splits a seat off, joins a seat to another one, or loads or writes a word of the table. A
//! load that needs no idle word and no head word loads the first word of the padding.
ghost use Rattle.std.specs.Prelude.{◌≡◌, ◌≢◌, ◌+◌, ◌<◌, ◌≤◌, ◌∷◌, ℕ, [], None, is_some, length, true, false};
ghost use Rattle.fc_book.specs.Tracks.{AreSingle, HasKey, entries_of, filed_on_all, filed_with, first_locked, first_own, locked_of, merged_with, no_tracks, own_view, part_view, track, with_another, with_begun, with_filed, with_locked, with_next, with_part, without_first, without_first_locked, without_locked};
ghost use Rattle.fc_registry.specs.Shards.{shard_at};
ghost use Rattle.fc_linear.specs.Operations.{NoPart, part_of, Logged, is_for_job, is_locked};
ghost use Rattle.fc_filed.specs.Books.{HasServerHistory, IsFirstSent, heads_in};
ghost use Rattle.fc_filed.specs.Entries.{IsKeyed, entry_keys};
ghost use Rattle.fc_filed.specs.Idle.{LeadToIdle, idle_word};
ghost use Rattle.fc_filed.specs.Threads.{entry_of_look, entry_of_raise, known_word, filed_if};
ghost use Rattle.fc_calls.specs.Logged.{SkipsIdle};

use crate::book::ServerName;
use crate::book_begin::BookBegin;
use crate::entry::FiledEntry;
use crate::view::{
    AttestsServer, FiledName, FilesAlone, FilesEntry, FilesForShard, LooksAtWord, NotesIdle,
    RaisesHead, ReadsWord, ServerRule, SkipsShard,
};
use atomic_table::{Seat, Table};
use fc_book::view::{
    Begins, BeginsPart, BeginsTracks, BookView, Closes, MakesEmpty, Merges, ReturnsFirst,
    ReturnsPart, SplitsFirst, TakesAnother, TakesPart,
};
use fc_front::Heads;
use fc_ticket::{SLOTS, SlotNumber};
use std::alloc::Global;

pub(crate) type FiledSeat = Seat<u8, BookView<FiledEntry>>;

pub(crate) type FiledWords = Table<u8, BookView<FiledEntry>, BookBegin, ServerRule, Global>;

/// The place of the first idle word: the table begins with eight words of padding.
const IDLE: usize = 8;

/// The place of the first head word, after the idle words of eight shards.
const HEADS: usize = 16;

/// Returns the first words of a book's table: zeros, and then these head words.
///
/// A zero in a shard's idle word says nothing of the shard.
pub(crate) fn table_words(heads: &Heads) -> [u64; 80]
    requires { length heads.now ≡ 64 }
    ensures size { length result ≡ 80 }
    ensures idle { (index : ℕ) → index < 8 → idle_word result index ≡ 0 }
    ensures heads { heads_in result ≡ heads.now }
{
    let mut words = [0; 80];
    for slot in 0..SLOTS {
        words[HEADS + usize::from(slot)] = heads.peek(SlotNumber::new(slot));
    }
    words
}

/// Makes a seat with no track.
///
/// `file_as` puts it in the place of a part's seat while the part's track is taken over.
pub(crate) fn empty_seat(words: &FiledWords, seat: &mut FiledSeat) -> FiledSeat
    requires size { words.now.shared.table_id.words ≡ 80 }
    requires table { seat.old.table_id ≡ words.now.shared.table_id }
    ensures kept { (seat.new.table_id ≡ seat.old.table_id) × (seat.new.me ≡ seat.old.me) }
    ensures new { (result.table_id ≡ words.now.shared.table_id) × (result.me ≡ (no_tracks, [])) }
{
    words.shared.split_seat::<MakesEmpty>(seat)
}

/// Takes over the track of a part's seat, and files the entry that `X` names.
///
/// `key` is the key of the part's track. The track stays at the owner's seat until [`return_part`].
/// If the part is a shard, the step that files the entry resets the shard's idle word.
pub(crate) fn file<X: FiledName>(
    words: &FiledWords,
    seat: &mut FiledSeat,
    part: FiledSeat,
    key: u64,
)
    requires size { words.now.shared.table_id.words ≡ 80 }
    requires table { seat.old.table_id ≡ words.now.shared.table_id }
    requires part_table { part.table_id ≡ words.now.shared.table_id }
    requires free { seat.old.me.0.locked ≡ [] }
    requires part { (part.me.0.own ≡ []) × (part.me.0.may_begin ≡ false) × (part.me.1 ≡ []) }
    requires key { key ≡ (entry_keys X.entry).part }
    requires on_part { HasKey (entry_keys X.entry).part part.me.0.locked }
    requires on { HasKey X.entry.who seat.old.me.0.own × HasKey X.entry.job seat.old.me.0.own }
    requires locked { is_locked (part_of X.entry.operation) ≡ true }
    requires unsaved { X.entry.save ≡ None }
    requires keyed { IsKeyed words.now.shared.key.first_job X.entry }
    ensures table { seat.new.table_id ≡ seat.old.table_id }
    ensures filed { seat.new.me ≡ (filed_with entry_keys X.entry seat.old.me.0 part.me.0, seat.old.me.1) }
{
    if key == 0 || key > 8 {
        file_for_other::<X>(words, seat, part);
    } else {
        file_for_shard::<X>(words, seat, part, (key - 1) as usize);
    }
}

/// Files the entry that `X` names, of a part that isn't a shard. See [`file`].
fn file_for_other<X: FiledName>(words: &FiledWords, seat: &mut FiledSeat, part: FiledSeat)
    requires size { words.now.shared.table_id.words ≡ 80 }
    requires table { seat.old.table_id ≡ words.now.shared.table_id }
    requires part_table { part.table_id ≡ words.now.shared.table_id }
    requires free { seat.old.me.0.locked ≡ [] }
    requires part { (part.me.0.own ≡ []) × (part.me.0.may_begin ≡ false) × (part.me.1 ≡ []) }
    requires other { (index : ℕ) → index < 8 → (entry_keys X.entry).part ≢ index + 1 }
    requires on_part { HasKey (entry_keys X.entry).part part.me.0.locked }
    requires on { HasKey X.entry.who seat.old.me.0.own × HasKey X.entry.job seat.old.me.0.own }
    requires locked { is_locked (part_of X.entry.operation) ≡ true }
    requires unsaved { X.entry.save ≡ None }
    requires keyed { IsKeyed words.now.shared.key.first_job X.entry }
    ensures table { seat.new.table_id ≡ seat.old.table_id }
    ensures filed { seat.new.me ≡ (filed_with entry_keys X.entry seat.old.me.0 part.me.0, seat.old.me.1) }
{
    words.shared.join_seat::<FilesEntry<X>>(seat, part);
}

/// Files the entry that `X` names, of the shard with this index, and resets the shard's idle word.
///
/// See [`file`].
fn file_for_shard<X: FiledName>(
    words: &FiledWords,
    seat: &mut FiledSeat,
    part: FiledSeat,
    index: usize,
)
    requires size { words.now.shared.table_id.words ≡ 80 }
    requires table { seat.old.table_id ≡ words.now.shared.table_id }
    requires part_table { part.table_id ≡ words.now.shared.table_id }
    requires part { (part.me.0.own ≡ []) × (part.me.0.may_begin ≡ false) × (part.me.1 ≡ []) }
    requires index { (index < 8) × ((entry_keys X.entry).part ≡ index + 1) }
    requires on_part { HasKey (entry_keys X.entry).part part.me.0.locked }
    requires on { HasKey X.entry.who seat.old.me.0.own × HasKey X.entry.job seat.old.me.0.own }
    requires locked { is_locked (part_of X.entry.operation) ≡ true }
    requires unsaved { X.entry.save ≡ None }
    requires keyed { IsKeyed words.now.shared.key.first_job X.entry }
    ensures table { seat.new.table_id ≡ seat.old.table_id }
    ensures filed { seat.new.me ≡ (filed_with entry_keys X.entry seat.old.me.0 part.me.0, seat.old.me.1) }
{
    take_part(words, seat, part);
    words
        .shared
        .store::<FilesForShard<X>>(seat, IDLE + index, 0);
}

/// Files the entry that `X` names with its save, of the shard with this index and of the store.
///
/// The step takes over the tracks of both. They stay at the owner's seat until [`return_first`],
/// for the store's, and then [`return_part`], for the shard's. The shard's idle word is reset.
pub(crate) fn file_saved<X: FiledName>(
    words: &FiledWords,
    seat: &mut FiledSeat,
    of_shard: FiledSeat,
    of_store: FiledSeat,
    index: usize,
)
    requires size { words.now.shared.table_id.words ≡ 80 }
    requires table { seat.old.table_id ≡ words.now.shared.table_id }
    requires shard_table { of_shard.table_id ≡ words.now.shared.table_id }
    requires store_table { of_store.table_id ≡ words.now.shared.table_id }
    requires shard { of_shard.me ≡ (part_view (index + 1) (entries_of of_shard.me.0.locked), []) }
    requires store { of_store.me ≡ (part_view 9 (entries_of of_store.me.0.locked), []) }
    requires free { seat.old.me.0.locked ≡ [] }
    requires index { (index < 8) × ((entry_keys X.entry).part ≡ index + 1) }
    requires save { is_some X.entry.save ≡ true }
    requires on { HasKey X.entry.who seat.old.me.0.own × HasKey X.entry.job seat.old.me.0.own }
    requires locked { is_locked (part_of X.entry.operation) ≡ true }
    requires keyed { IsKeyed words.now.shared.key.first_job X.entry }
    ensures table { seat.new.table_id ≡ seat.old.table_id }
    ensures filed { seat.new.me ≡ (
      filed_on_all entry_keys X.entry
          (record seat.old.me.0 { locked = track 9 (entries_of of_store.me.0.locked) ∷ track (index + 1) (entries_of of_shard.me.0.locked) ∷ [] }),
      seat.old.me.1,
    ) }
{
    take_part(words, seat, of_shard);
    take_another(words, seat, of_store);
    words
        .shared
        .store::<FilesForShard<X>>(seat, IDLE + index, 0);
}

/// Takes over the track of another part's seat. It is then the first of the parts' tracks.
fn take_another(words: &FiledWords, seat: &mut FiledSeat, part: FiledSeat)
    requires size { words.now.shared.table_id.words ≡ 80 }
    requires table { seat.old.table_id ≡ words.now.shared.table_id }
    requires part_table { part.table_id ≡ words.now.shared.table_id }
    requires part { (part.me.0.own ≡ []) × (part.me.0.may_begin ≡ false) × (part.me.1 ≡ []) }
    ensures table { seat.new.table_id ≡ seat.old.table_id }
    ensures taken { seat.new.me ≡ (with_another seat.old.me.0 part.me.0, seat.old.me.1) }
{
    words.shared.join_seat::<TakesAnother>(seat, part);
}

/// Splits off the first of the parts' tracks that the owner has taken over, and returns it as a
/// seat.
pub(crate) fn return_first(words: &FiledWords, seat: &mut FiledSeat) -> FiledSeat
    requires size { words.now.shared.table_id.words ≡ 80 }
    requires table { seat.old.table_id ≡ words.now.shared.table_id }
    requires single { AreSingle seat.old.me.0.locked }
    ensures kept { (seat.new.table_id ≡ seat.old.table_id) × (seat.new.me ≡ (without_first_locked seat.old.me.0, seat.old.me.1)) }
    ensures back { (result.table_id ≡ words.now.shared.table_id) × (result.me ≡ (first_locked seat.old.me.0, [])) }
{
    words.shared.split_seat::<ReturnsFirst>(seat)
}

/// Takes over the track of a part's seat.
fn take_part(words: &FiledWords, seat: &mut FiledSeat, part: FiledSeat)
    requires size { words.now.shared.table_id.words ≡ 80 }
    requires table { seat.old.table_id ≡ words.now.shared.table_id }
    requires part_table { part.table_id ≡ words.now.shared.table_id }
    requires part { (part.me.0.own ≡ []) × (part.me.0.may_begin ≡ false) × (part.me.1 ≡ []) }
    ensures table { seat.new.table_id ≡ seat.old.table_id }
    ensures taken { seat.new.me ≡ (with_locked seat.old.me.0 part.me.0, seat.old.me.1) }
{
    words.shared.join_seat::<TakesPart>(seat, part);
}

/// Writes the idle word of the shard with this index, at the seat of the shard's track.
///
/// Requires that the track's operations lead to a shard that is idle at each time before `until`.
pub(crate) fn note_idle(words: &FiledWords, seat: &mut FiledSeat, index: usize, until: u64)
    requires size { words.now.shared.table_id.words ≡ 80 }
    requires table { seat.old.table_id ≡ words.now.shared.table_id }
    requires index { index < 8 }
    requires part { seat.old.me ≡ (part_view (index + 1) (entries_of seat.old.me.0.locked), []) }
    requires idle { (now : ℕ) → now < until → LeadToIdle (shard_at words.now.shared.key.first.shards index) (entries_of seat.old.me.0.locked) now }
    ensures kept { (seat.new.table_id ≡ seat.old.table_id) × (seat.new.me ≡ seat.old.me) }
{
    words.shared.store::<NotesIdle>(seat, IDLE + index, until);
}

/// Returns whether the idle word of the shard with this index is later than `now`.
///
/// If it is, files the skip of the shard that `X` names. The shard is idle at `now` after its
/// operations in the history before the skip.
pub(crate) fn skip_if_idle<X: FiledName>(
    words: &FiledWords,
    seat: &mut FiledSeat,
    index: usize,
    now: u64,
) -> bool
    requires size { words.now.shared.table_id.words ≡ 80 }
    requires table { seat.old.table_id ≡ words.now.shared.table_id }
    requires index { index < 8 }
    requires skips { X.entry.operation ≡ Logged (SkipsIdle index now) }
    requires unsaved { X.entry.save ≡ None }
    requires on { HasKey X.entry.who seat.old.me.0.own × HasKey X.entry.job seat.old.me.0.own }
    requires keyed { IsKeyed words.now.shared.key.first_job X.entry }
    ensures table { seat.new.table_id ≡ seat.old.table_id }
    ensures filed { seat.new.me ≡ (filed_if result X.entry seat.old.me.0, seat.old.me.1) }
{
    words.shared.load::<SkipsShard<X>>(seat, IDLE + index) > now
}

/// Files the entry that `X` names, of an operation for a job that belongs to no part.
pub(crate) fn file_alone<X: FiledName>(words: &FiledWords, seat: &mut FiledSeat)
    requires size { words.now.shared.table_id.words ≡ 80 }
    requires table { seat.old.table_id ≡ words.now.shared.table_id }
    requires no_part { part_of X.entry.operation ≡ NoPart }
    requires unsaved { X.entry.save ≡ None }
    requires for_job { is_for_job X.entry.operation ≡ true }
    requires on { HasKey X.entry.who seat.old.me.0.own × HasKey X.entry.job seat.old.me.0.own }
    requires keyed { IsKeyed words.now.shared.key.first_job X.entry }
    ensures table { seat.new.table_id ≡ seat.old.table_id }
    ensures filed { seat.new.me ≡ (with_filed entry_keys X.entry seat.old.me.0, seat.old.me.1) }
{
    let _ = words.shared.load::<FilesAlone<X>>(seat, 0);
}

/// Splits off the part's track that [`file`] took over, and returns it as a seat.
pub(crate) fn return_part(words: &FiledWords, seat: &mut FiledSeat) -> FiledSeat
    requires size { words.now.shared.table_id.words ≡ 80 }
    requires table { seat.old.table_id ≡ words.now.shared.table_id }
    ensures kept { (seat.new.table_id ≡ seat.old.table_id) × (seat.new.me ≡ (without_locked seat.old.me.0, seat.old.me.1)) }
    ensures back { (result.table_id ≡ words.now.shared.table_id) × (result.me ≡ (locked_of seat.old.me.0, [])) }
{
    words.shared.split_seat::<ReturnsPart>(seat)
}

/// Begins the next track, for a part, and returns the part's seat.
pub(crate) fn begin_part(words: &FiledWords, seat: &mut FiledSeat) -> FiledSeat
    requires size { words.now.shared.table_id.words ≡ 80 }
    requires table { seat.old.table_id ≡ words.now.shared.table_id }
    requires may_begin { seat.old.me.0.may_begin ≡ true }
    ensures kept { (seat.new.table_id ≡ seat.old.table_id) × (seat.new.me ≡ (with_next seat.old.me.0, seat.old.me.1)) }
    ensures new { (result.table_id ≡ words.now.shared.table_id) × (result.me ≡ (part_view seat.old.me.0.next [], [])) }
{
    words.shared.split_seat::<BeginsPart>(seat)
}

/// Begins the next track, for a new owner, and returns that owner's seat.
pub(crate) fn begin_tracks(words: &FiledWords, seat: &mut FiledSeat) -> FiledSeat
    requires size { words.now.shared.table_id.words ≡ 80 }
    requires table { seat.old.table_id ≡ words.now.shared.table_id }
    requires may_begin { seat.old.me.0.may_begin ≡ true }
    ensures kept { (seat.new.table_id ≡ seat.old.table_id) × (seat.new.me ≡ (with_next seat.old.me.0, seat.old.me.1)) }
    ensures new { (result.table_id ≡ words.now.shared.table_id) × (result.me ≡ (own_view seat.old.me.0.next [], [])) }
{
    words.shared.split_seat::<BeginsTracks>(seat)
}

/// Begins the next track, and puts it first among the owner's tracks.
pub(crate) fn begin(words: &FiledWords, seat: &mut FiledSeat)
    requires size { words.now.shared.table_id.words ≡ 80 }
    requires table { seat.old.table_id ≡ words.now.shared.table_id }
    requires may_begin { seat.old.me.0.may_begin ≡ true }
    ensures table { seat.new.table_id ≡ seat.old.table_id }
    ensures begun { seat.new.me ≡ (with_begun seat.old.me.0, seat.old.me.1) }
{
    let _ = words.shared.load::<Begins>(seat, 0);
}

/// Splits off the owner's first track, a job's, and returns a seat for a message.
pub(crate) fn split_first(words: &FiledWords, seat: &mut FiledSeat) -> FiledSeat
    requires size { words.now.shared.table_id.words ≡ 80 }
    requires table { seat.old.table_id ≡ words.now.shared.table_id }
    requires sent { IsFirstSent words.now.shared.key.first_job seat.old.me.0.own }
    ensures kept { (seat.new.table_id ≡ seat.old.table_id) × (seat.new.me ≡ (without_first seat.old.me.0, seat.old.me.1)) }
    ensures first { (result.table_id ≡ words.now.shared.table_id) × (result.me ≡ (first_own seat.old.me.0, [])) }
{
    words.shared.split_seat::<SplitsFirst>(seat)
}

/// Merges another owner's tracks into the owner's.
pub(crate) fn merge(words: &FiledWords, seat: &mut FiledSeat, other: FiledSeat)
    requires size { words.now.shared.table_id.words ≡ 80 }
    requires table { seat.old.table_id ≡ words.now.shared.table_id }
    requires other_table { other.table_id ≡ words.now.shared.table_id }
    requires other { (other.me.0.locked ≡ []) × (other.me.0.may_begin ≡ false) × (other.me.1 ≡ []) }
    ensures table { seat.new.table_id ≡ seat.old.table_id }
    ensures merged { seat.new.me ≡ (merged_with seat.old.me.0 other.me.0, seat.old.me.1) }
{
    words.shared.join_seat::<Merges>(seat, other);
}

/// Makes a part's track one of the owner's tracks.
pub(crate) fn close(words: &FiledWords, seat: &mut FiledSeat, part: FiledSeat)
    requires size { words.now.shared.table_id.words ≡ 80 }
    requires table { seat.old.table_id ≡ words.now.shared.table_id }
    requires part_table { part.table_id ≡ words.now.shared.table_id }
    requires part { (part.me.0.own ≡ []) × (part.me.0.may_begin ≡ false) × (part.me.1 ≡ []) × AreSingle part.me.0.locked }
    ensures table { seat.new.table_id ≡ seat.old.table_id }
    ensures closed { seat.new.me ≡ (with_part seat.old.me.0 part.me.0, seat.old.me.1) }
{
    words.shared.join_seat::<Closes>(seat, part);
}

/// Attests that there is one history, of which the owner's tracks are subhistories.
pub(crate) fn attest<J: ServerName>(words: &FiledWords, seat: &mut FiledSeat)
    requires size { words.now.shared.table_id.words ≡ 80 }
    requires table { seat.old.table_id ≡ words.now.shared.table_id }
    requires key { (words.now.shared.key.first_job ≡ J.first_job) × (words.now.shared.key.first ≡ J.first) }
    ensures kept { (seat.new.table_id ≡ seat.old.table_id) × (seat.new.me ≡ seat.old.me) }
    ensures one { HasServerHistory J.first_job J.first seat.old.me.0 }
{
    let _ = words.shared.load::<AttestsServer<J>>(seat, 0);
}

/// Returns the head word of `slot`, and files nothing.
pub(crate) fn read_word(words: &FiledWords, seat: &mut FiledSeat, slot: usize) -> u64
    requires size { words.now.shared.table_id.words ≡ 80 }
    requires heads { length words.now.shared.key.first.words ≡ 64 }
    requires table { seat.old.table_id ≡ words.now.shared.table_id }
    requires slot { slot < 64 }
    ensures rises { known_word slot seat.old.me.0.own ≤ result }
    ensures kept { (seat.new.table_id ≡ seat.old.table_id) × (seat.new.me ≡ seat.old.me) }
{
    words.shared.load::<ReadsWord>(seat, HEADS + slot)
}

/// Returns the head word of `slot`, and files the read.
///
/// The filed entry has the thread and the job of the entry that `X` names.
pub(crate) fn look<X: FiledName>(words: &FiledWords, seat: &mut FiledSeat, slot: usize) -> u64
    requires size { words.now.shared.table_id.words ≡ 80 }
    requires heads { length words.now.shared.key.first.words ≡ 64 }
    requires table { seat.old.table_id ≡ words.now.shared.table_id }
    requires slot { slot < 64 }
    requires on { HasKey X.entry.who seat.old.me.0.own × HasKey X.entry.job seat.old.me.0.own }
    requires unsaved { X.entry.save ≡ None }
    requires keyed { (10 ≤ X.entry.who) × (X.entry.who < words.now.shared.key.first_job) × (words.now.shared.key.first_job ≤ X.entry.job) }
    ensures table { seat.new.table_id ≡ seat.old.table_id }
    ensures rises { known_word slot seat.old.me.0.own ≤ result }
    ensures filed { seat.new.me ≡ (with_filed entry_keys (entry_of_look X.entry slot result) seat.old.me.0, seat.old.me.1) }
{
    words.shared.load::<LooksAtWord<X>>(seat, HEADS + slot)
}

/// Raises the head word of `slot` to at least `word`, and files the raise.
///
/// The filed entry has the thread and the job of the entry that `X` names.
pub(crate) fn raise<X: FiledName>(words: &FiledWords, seat: &mut FiledSeat, slot: usize, word: u64)
    requires size { words.now.shared.table_id.words ≡ 80 }
    requires table { seat.old.table_id ≡ words.now.shared.table_id }
    requires slot { slot < 64 }
    requires on { HasKey X.entry.who seat.old.me.0.own × HasKey X.entry.job seat.old.me.0.own }
    requires unsaved { X.entry.save ≡ None }
    requires keyed { (10 ≤ X.entry.who) × (X.entry.who < words.now.shared.key.first_job) × (words.now.shared.key.first_job ≤ X.entry.job) }
    ensures table { seat.new.table_id ≡ seat.old.table_id }
    ensures filed { seat.new.me ≡ (with_filed entry_keys (entry_of_raise X.entry slot word) seat.old.me.0, seat.old.me.1) }
{
    words
        .shared
        .fetch_max::<RaisesHead<X>>(seat, HEADS + slot, word);
}

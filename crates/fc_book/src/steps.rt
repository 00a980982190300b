//! The steps of the book's rule, for the methods of [`Tracks`](crate::Tracks).
//!
//! A seat is an owner's handle at the book's table, `words`. In contracts `me.0` is the owner's
//! view: the owner's tracks, and whether the owner may begin others. `me.1` lists the table's slots
//! that the handle has taken out: none. Each step loads the table's first word, which no thread
//! writes.
ghost use Rattle.std.specs.Prelude.{◌≡◌, ◌<◌, ◌+◌, [], ◌∷◌, ◌++◌, true, false};
ghost use Rattle.fc_book.specs.Calls.{keys_of};
ghost use Rattle.fc_book.specs.Tracks.{AreSingle, HasHistory, HasKey, with_begun, filed_with, first_own, locked_of, merged_with, no_tracks, own_view, part_view, with_next, with_part, without_first, without_locked};

use crate::entry::CallEntry;
use crate::view::{
    Attests, Begins, BeginsPart, BeginsTracks, BookRule, BookView, Closes, EntryName, Files,
    MakesEmpty, Merges, ReturnsPart, SplitsFirst,
};
use atomic_table::{Seat, Table};
use std::alloc::Global;

/// The handle of an owner at the book's table.
pub(crate) type CallSeat = Seat<u8, BookView<CallEntry>>;

/// The book's table of words.
pub(crate) type Words = Table<u8, BookView<CallEntry>, (), BookRule, Global>;

/// Makes a handle without tracks, to replace a part's handle while a call is filed.
pub(crate) fn empty_seat(words: &Words, seat: &mut CallSeat) -> CallSeat
    requires size { 0 < words.now.shared.table_id.words }
    requires table { seat.old.table_id ≡ words.now.shared.table_id }
    ensures kept { (seat.new.table_id ≡ seat.old.table_id) × (seat.new.me ≡ seat.old.me) }
    ensures new { (result.table_id ≡ words.now.shared.table_id) × (result.me ≡ (no_tracks, [])) }
{
    words.shared.split_seat::<MakesEmpty>(seat)
}

/// Moves the track of `part` to the owner, and files the entry that `X` names.
///
/// The entry becomes the last on the tracks of its part, of its thread and of its job. The owner
/// has the part's track until `return_part`.
pub(crate) fn file<X: EntryName>(words: &Words, seat: &mut CallSeat, part: CallSeat)
    requires size { 0 < words.now.shared.table_id.words }
    requires table { seat.old.table_id ≡ words.now.shared.table_id }
    requires part_table { part.table_id ≡ words.now.shared.table_id }
    requires free { seat.old.me.0.locked ≡ [] }
    requires part { (part.me.0.own ≡ []) × (part.me.0.may_begin ≡ false) × (part.me.1 ≡ []) }
    requires on { HasKey X.entry.part part.me.0.locked × HasKey X.entry.who seat.old.me.0.own × HasKey X.entry.job seat.old.me.0.own }
    ensures table { seat.new.table_id ≡ seat.old.table_id }
    ensures filed { seat.new.me ≡ (filed_with keys_of X.entry seat.old.me.0 part.me.0, seat.old.me.1) }
{
    words.shared.join_seat::<Files<X>>(seat, part);
}

/// Moves the part's track out of the owner, and returns it in a handle of its own.
///
/// The caller puts that handle back under the part's lock.
pub(crate) fn return_part(words: &Words, seat: &mut CallSeat) -> CallSeat
    requires size { 0 < words.now.shared.table_id.words }
    requires table { seat.old.table_id ≡ words.now.shared.table_id }
    ensures kept { (seat.new.table_id ≡ seat.old.table_id) × (seat.new.me ≡ (without_locked seat.old.me.0, seat.old.me.1)) }
    ensures back { (result.table_id ≡ words.now.shared.table_id) × (result.me ≡ (locked_of seat.old.me.0, [])) }
{
    words.shared.split_seat::<ReturnsPart>(seat)
}

/// Begins the next track, which is that of a part, and returns it in a new handle.
pub(crate) fn begin_part(words: &Words, seat: &mut CallSeat) -> CallSeat
    requires size { 0 < words.now.shared.table_id.words }
    requires table { seat.old.table_id ≡ words.now.shared.table_id }
    requires may_begin { seat.old.me.0.may_begin ≡ true }
    ensures kept { (seat.new.table_id ≡ seat.old.table_id) × (seat.new.me ≡ (with_next seat.old.me.0, seat.old.me.1)) }
    ensures new { (result.table_id ≡ words.now.shared.table_id) × (result.me ≡ (part_view seat.old.me.0.next [], [])) }
{
    words.shared.split_seat::<BeginsPart>(seat)
}

/// Begins the next track, and returns it in a new owner.
///
/// The new owner is for a thread or a message. It isn't permitted to begin tracks.
pub(crate) fn begin_tracks(words: &Words, seat: &mut CallSeat) -> CallSeat
    requires size { 0 < words.now.shared.table_id.words }
    requires table { seat.old.table_id ≡ words.now.shared.table_id }
    requires may_begin { seat.old.me.0.may_begin ≡ true }
    ensures kept { (seat.new.table_id ≡ seat.old.table_id) × (seat.new.me ≡ (with_next seat.old.me.0, seat.old.me.1)) }
    ensures new { (result.table_id ≡ words.now.shared.table_id) × (result.me ≡ (own_view seat.old.me.0.next [], [])) }
{
    words.shared.split_seat::<BeginsTracks>(seat)
}

/// Begins the next track, and puts it first among the owner's tracks.
pub(crate) fn begin(words: &Words, seat: &mut CallSeat)
    requires size { 0 < words.now.shared.table_id.words }
    requires table { seat.old.table_id ≡ words.now.shared.table_id }
    requires may_begin { seat.old.me.0.may_begin ≡ true }
    ensures table { seat.new.table_id ≡ seat.old.table_id }
    ensures begun { seat.new.me ≡ (with_begun seat.old.me.0, seat.old.me.1) }
{
    let _ = words.shared.load::<Begins>(seat, 0);
}

/// Splits off the first of the owner's tracks, and returns it in a new owner.
///
/// The new owner may begin no track, and has no track if the owner had none.
pub(crate) fn split_first(words: &Words, seat: &mut CallSeat) -> CallSeat
    requires size { 0 < words.now.shared.table_id.words }
    requires table { seat.old.table_id ≡ words.now.shared.table_id }
    ensures kept { (seat.new.table_id ≡ seat.old.table_id) × (seat.new.me ≡ (without_first seat.old.me.0, seat.old.me.1)) }
    ensures first { (result.table_id ≡ words.now.shared.table_id) × (result.me ≡ (first_own seat.old.me.0, [])) }
{
    words.shared.split_seat::<SplitsFirst>(seat)
}

/// Puts the tracks of `other`, which may begin none, before the owner's tracks.
pub(crate) fn merge(words: &Words, seat: &mut CallSeat, other: CallSeat)
    requires size { 0 < words.now.shared.table_id.words }
    requires table { seat.old.table_id ≡ words.now.shared.table_id }
    requires other_table { other.table_id ≡ words.now.shared.table_id }
    requires other { (other.me.0.locked ≡ []) × (other.me.0.may_begin ≡ false) × (other.me.1 ≡ []) }
    ensures table { seat.new.table_id ≡ seat.old.table_id }
    ensures merged { seat.new.me ≡ (merged_with seat.old.me.0 other.me.0, seat.old.me.1) }
{
    words.shared.join_seat::<Merges>(seat, other);
}

/// Puts the track of `part`, which is closed, before the owner's tracks.
pub(crate) fn close(words: &Words, seat: &mut CallSeat, part: CallSeat)
    requires size { 0 < words.now.shared.table_id.words }
    requires table { seat.old.table_id ≡ words.now.shared.table_id }
    requires part_table { part.table_id ≡ words.now.shared.table_id }
    requires part { (part.me.0.own ≡ []) × (part.me.0.may_begin ≡ false) × (part.me.1 ≡ []) × AreSingle part.me.0.locked }
    ensures table { seat.new.table_id ≡ seat.old.table_id }
    ensures closed { seat.new.me ≡ (with_part seat.old.me.0 part.me.0, seat.old.me.1) }
{
    words.shared.join_seat::<Closes>(seat, part);
}

/// Shows that the owner's tracks are those of one history.
///
/// Each track has exactly the entries of the history with the track's key. Nothing changes.
pub(crate) fn attest(words: &Words, seat: &mut CallSeat)
    requires size { 0 < words.now.shared.table_id.words }
    requires table { seat.old.table_id ≡ words.now.shared.table_id }
    ensures kept { (seat.new.table_id ≡ seat.old.table_id) × (seat.new.me ≡ seat.old.me) }
    ensures one { HasHistory keys_of seat.old.me.0 }
{
    let _ = words.shared.load::<Attests>(seat, 0);
}

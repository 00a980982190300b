//! The atomic steps on a word, for the methods of [`Heads`](crate::Heads).
//!
//! The steps are a load, and a step that sets the word to the greater of two numbers. A seat is the
//! part of a handle that `atomic_table` defines. In contracts `me.0` is the handle's view. `me.1`
//! lists the table's slots that the handle has taken out: none.
ghost use Rattle.std.specs.Prelude.{◌≡◌, ◌<◌, ◌≤◌, []};
ghost use Rattle.fc_heads.specs.Heads.{IsWhole, fresh, peeked, raised_to, met, word_of};

use crate::view::{Greatest, Peeks, Raises, Sits, Tells, View};
use atomic_table::{Seat, Table};
use std::alloc::Global;

/// The table of the words.
pub(crate) type Words = Table<u8, View, (), Greatest, Global>;

/// Loads the word of a slot, and returns it; the handle has then seen it.
pub(crate) fn load(words: &Words, slot: usize, seat: &mut Seat<u8, View>) -> u64
    requires size { words.now.shared.table_id.words ≡ 64 }
    requires table { seat.old.table_id ≡ words.now.shared.table_id }
    requires whole { IsWhole seat.old.me.0 }
    requires slot { slot < 64 }
    ensures table { seat.new.table_id ≡ seat.old.table_id }
    ensures rises { word_of seat.old.me.0.seen slot ≤ result }
    ensures seen { seat.new.me ≡ (peeked seat.old.me.0 slot result, seat.old.me.1) }
{
    words.shared.load::<Peeks>(seat, slot)
}

/// Sets the word of a slot to the greater of the word and `word`.
///
/// Returns the previous value of the word.
pub(crate) fn raise(words: &Words, slot: usize, word: u64, seat: &mut Seat<u8, View>) -> u64
    requires size { words.now.shared.table_id.words ≡ 64 }
    requires table { seat.old.table_id ≡ words.now.shared.table_id }
    requires whole { IsWhole seat.old.me.0 }
    requires slot { slot < 64 }
    ensures table { seat.new.table_id ≡ seat.old.table_id }
    ensures rises { word_of seat.old.me.0.seen slot ≤ result }
    ensures raised { seat.new.me ≡ (raised_to seat.old.me.0 slot word result, seat.old.me.1) }
{
    words.shared.fetch_max::<Raises>(seat, slot, word)
}

/// Makes a handle that has seen and published nothing, from another one.
///
/// The other handle is unchanged.
pub(crate) fn another(words: &Words, seat: &mut Seat<u8, View>) -> Seat<u8, View>
    requires size { words.now.shared.table_id.words ≡ 64 }
    requires table { seat.old.table_id ≡ words.now.shared.table_id }
    ensures kept { (seat.new.table_id ≡ seat.old.table_id) × (seat.new.me ≡ seat.old.me) }
    ensures new { (result.table_id ≡ words.now.shared.table_id) × (result.me ≡ (fresh, [])) }
{
    words.shared.split_seat::<Sits>(seat)
}

/// Makes a handle that has seen and published nothing, without another one.
pub(crate) fn arrive(words: &Words) -> Seat<u8, View>
    requires { words.now.shared.table_id.words ≡ 64 }
    ensures { (result.table_id ≡ words.now.shared.table_id) × (result.me ≡ (fresh, [])) }
{
    let (_found, seat) = words.shared.load_new_seat::<Sits>(0);
    seat
}

/// Exchanges the knowledge of two handles.
///
/// For each slot, each handle has then seen the greater of the values that the two had seen.
pub(crate) fn meet(words: &Words, one: &mut Seat<u8, View>, other: &mut Seat<u8, View>)
    requires size { words.now.shared.table_id.words ≡ 64 }
    requires one { one.old.table_id ≡ words.now.shared.table_id }
    requires other { other.old.table_id ≡ words.now.shared.table_id }
    requires free { (one.old.me.1 ≡ []) × (other.old.me.1 ≡ []) }
    ensures tables { (one.new.table_id ≡ one.old.table_id) × (other.new.table_id ≡ other.old.table_id) }
    ensures one { one.new.me ≡ (met one.old.me.0 other.old.me.0, one.old.me.1) }
    ensures other { other.new.me ≡ (met other.old.me.0 one.old.me.0, other.old.me.1) }
{
    let this = words.shared.split_seat::<Tells>(one);
    let that = words.shared.split_seat::<Tells>(other);
    words.shared.join_seat::<Tells>(one, that);
    words.shared.join_seat::<Tells>(other, this);
}

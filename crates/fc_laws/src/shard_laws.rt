//! Laws of events of shards: each function is a law, stated by its contract.
ghost use Rattle.std.specs.Prelude.{◌≡◌, ℕ, ◌+◌, ◌*◌, ◌<◌, ◌≤◌, None, Option, Some, max};
ghost use Rattle.arrayvec.specs.ArrayVec.{ArrayVec};
ghost use Rattle.coap_msg.specs.declared.types.Emission.{Emission};
ghost use Rattle.fc_core.specs.History.{Entry, Seen, and_then, overdue_in, watch};
ghost use Rattle.fc_core.specs.Legal.{Emits};
ghost use Rattle.fc_laws.specs.ShardLaws.{IsAsBefore, IsOfNoShard};
ghost use Rattle.fc_core.specs.declared.event.Event.TheVariants.{ShardTick};
ghost use Rattle.fc_observe.specs.Observers.{list_at_time, overdue_entry};
ghost use Rattle.fc_observe.specs.declared.entry.Entry.{Entry as ObserverEntry};
ghost use Rattle.fc_observe.specs.declared.entry.Phase.TheVariants.{Outstanding};

/// An event of a shard above 7 emits nothing and changes nothing.
///
/// The front, the jobs, the slots and the shards are unchanged.
pub fn shards_are_eight()
    ensures same { (r : Entry) (s : Seen) → IsOfNoShard r.event → IsAsBefore s (and_then r s) }
    ensures emitted { (r : Entry) (s : Seen) → IsOfNoShard r.event → Emits s r.event r.emitted → r.emitted ≡ None }
{}

/// A tick of a shard retransmits an overdue notification, at most four times.
///
/// The tick sends the same bytes to the same endpoint as before. It sends nothing after the fourth
/// retransmission, or if no notification has timed out.
pub fn ticks_send_overdue_notifications_again()
    ensures again { (s : Seen) (i k now sent_at timeout count : ℕ) (bytes : ArrayVec ℕ) (x : ObserverEntry) (o : Option Emission)
        → overdue_in s i (max (s.shard_time i) now) ≡ Some k
        → overdue_entry (list_at_time (max (s.shard_time i) now) (watch s (8 * k + i))) ≡ Some x
        → x.phase ≡ Outstanding sent_at timeout count bytes → count < 4
        → Emits s (ShardTick i now) o → o ≡ Some (record { to = x.endpoint; bytes = bytes }) }
    ensures no_more { (s : Seen) (i k now sent_at timeout count : ℕ) (bytes : ArrayVec ℕ) (x : ObserverEntry) (o : Option Emission)
        → overdue_in s i (max (s.shard_time i) now) ≡ Some k
        → overdue_entry (list_at_time (max (s.shard_time i) now) (watch s (8 * k + i))) ≡ Some x
        → x.phase ≡ Outstanding sent_at timeout count bytes → 4 ≤ count
        → Emits s (ShardTick i now) o → o ≡ None }
    ensures none { (s : Seen) (i now : ℕ) (o : Option Emission) → overdue_in s i (max (s.shard_time i) now) ≡ None
        → Emits s (ShardTick i now) o → o ≡ None }
{}

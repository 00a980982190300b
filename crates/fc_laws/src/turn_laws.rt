//! Laws of leases and notifications: each function is a law with its contract.
ghost use Rattle.std.specs.Prelude.{◌≡◌, ℕ, ◌+◌, ◌*◌, ◌%◌, ◌<◌, ◌≤◌, ◌⊎◌, List, None, Option, Some, false, is_some, length, max, true};
ghost use Rattle.std.specs.List.{All};
ghost use Rattle.coap_msg.specs.declared.types.Emission.{Emission};
ghost use Rattle.coap_msg.specs.declared.types.Endpoint.{Endpoint};
ghost use Rattle.fc_observe.specs.declared.entry.Entry.{Entry as ObserverEntry};
ghost use Rattle.fc_observe.specs.declared.entry.Turn.{Turn};
ghost use Rattle.fc_observe.specs.Observers.{list_at_time, entry_out};
ghost use Rattle.fc_ticket.specs.Runs.{meaning_at};
ghost use Rattle.fc_ticket.specs.Tickets.{Ticket};
ghost use Rattle.coap_reply.specs.Responses.{bare};
ghost use Rattle.fc_core.specs.History.{Entry, History, Seen, Then, and_then, did, job, overdue_in, seen, stage, watch};
ghost use Rattle.fc_core.specs.Laws.{HasCome, IsNewest, followed_by, slot_of, snapshots_of};
ghost use Rattle.fc_core.specs.Legal.{Emits};
ghost use Rattle.fc_laws.specs.ObserveLaws.{NoneRegisters, is_held};
ghost use Rattle.fc_observe.specs.Entries.{is_entry_of};
ghost use Rattle.fc_laws.specs.TurnLaws.{HasLapsed, IsNoContent, IsToHeld, NotifiesOf, Removes, Resends, time_at, response_of};
ghost use Rattle.fc_core.specs.declared.event.Event.TheVariants.{GiveUp, Lose, Note, ShardTick};
ghost use Rattle.fc_core.specs.Stage.{Gone, ToTell};
ghost use Rattle.fc_core.specs.TurnStage.{TurnStage};
ghost use Rattle.fc_core.specs.TurnStage.{ToNote};

/// A lease notifies at most once.
///
/// Until the job of a lease ends, it is at a stage of its own lease. The job of a request is at no
/// such stage. The job of a lease has ended for ever once it has notified its observer, was
/// released, or was lost. It has notified whether or not anything was sent.
pub fn turns_stand_apart()
    ensures turn { (h : History) (k number : ℕ) → (job (seen h) k).turn ≡ Some number
        → ((needs : TurnStage) × (stage (seen h) k ≡ ToTell (record { slot = slot_of (seen h) k; number = number }) needs))
        ⊎ (stage (seen h) k ≡ Gone) }
    ensures request { (h : History) (k : ℕ) (turn : Turn) (needs : TurnStage) → (job (seen h) k).turn ≡ None
        → stage (seen h) k ≡ ToTell turn needs → ⊥ }
    ensures noted { (h : History) (rs : List Entry) (k now random id : ℕ) (turn : Turn) (found : Option Ticket) (o : Option Emission)
        → stage (seen h) k ≡ ToTell turn (ToNote found id)
        → stage (seen (followed_by (Then h (did (Note k now random) o)) rs)) k ≡ Gone }
    ensures given_up { (h : History) (rs : List Entry) (k now : ℕ) (turn : Turn) (needs : TurnStage) (o : Option Emission)
        → stage (seen h) k ≡ ToTell turn needs → stage (seen (followed_by (Then h (did (GiveUp k now) o)) rs)) k ≡ Gone }
    ensures lost { (h : History) (rs : List Entry) (k : ℕ) (o : Option Emission) → HasCome (seen h) k
        → stage (seen (followed_by (Then h (did (Lose k) o)) rs)) k ≡ Gone }
{}

/// The notification of a lease comes from the lease's one ticket.
///
/// The notification has the code that the ticket's program means for the request and for the
/// variables and readings of the snapshot. A 2.05 (Content) has the reply that the program means,
/// cut as requested, and the snapshot's serial as its ETag and sequence number. A lease that found
/// its slot empty sends a bare 4.04 (Not Found). A lease requests no block but the first. So if a
/// run means a 2.05 (Content), the notification has that code too.
pub fn notifications_are_of_the_last_snapshot()
    ensures newest { (h : History) (k id : ℕ) (turn : Turn) (t : Ticket) → stage (seen h) k ≡ ToTell turn (ToNote (Some t) id)
        → (length (snapshots_of h k) ≡ 1) × IsNewest (snapshots_of h k) t }
    ensures found { (h : History) (k now random id : ℕ) (turn : Turn) (t : Ticket) (e : Emission)
        → stage (seen h) k ≡ ToTell turn (ToNote (Some t) id) → Emits (seen h) (Note k now random) (Some e)
        → NotifiesOf (seen h) k now turn id (response_of t) e }
    ensures empty { (h : History) (k now random id : ℕ) (turn : Turn) (e : Emission) → stage (seen h) k ≡ ToTell turn (ToNote None id)
        → Emits (seen h) (Note k now random) (Some e) → NotifiesOf (seen h) k now turn id (bare 132) e }
    ensures content { (h : History) (k id : ℕ) (turn : Turn) (t : Ticket) → stage (seen h) k ≡ ToTell turn (ToNote (Some t) id)
        → (meaning_at t).code ≡ 69 → (response_of t).code ≡ 69 }
{}

/// A lease that is to notify sends a notification exactly if it is active.
///
/// The lease is active or not at the shard's time, whatever its snapshot found. So a lease that was
/// released, has notified before, or was granted at least 247,000 ms before sends nothing.
pub fn notes_emit_where_turns_are_out()
    ensures where_out { (h : History) (k now random id : ℕ) (turn : Turn) (found : Option Ticket) (o : Option Emission)
        → stage (seen h) k ≡ ToTell turn (ToNote found id) → Emits (seen h) (Note k now random) o
        → is_some o ≡ is_some (entry_out turn (list_at_time (time_at (seen h) k now) (watch (seen h) (slot_of (seen h) k)))) }
    ensures given_up { (h : History) (rs : List Entry) (k now next random : ℕ) (turn : Turn) (needs : TurnStage) (e o : Option Emission)
        → stage (seen h) k ≡ ToTell turn needs
        → Emits (seen (followed_by (Then h (did (GiveUp k now) e)) rs)) (Note k next random) o → o ≡ None }
    ensures once { (h : History) (rs : List Entry) (k now random next again id : ℕ) (turn : Turn) (found : Option Ticket)
        (e o : Option Emission) → stage (seen h) k ≡ ToTell turn (ToNote found id)
        → Emits (seen (followed_by (Then h (did (Note k now random) e)) rs)) (Note k next again) o → o ≡ None }
    ensures lapsed { (h : History) (k now random id : ℕ) (turn : Turn) (found : Option Ticket) (o : Option Emission)
        → stage (seen h) k ≡ ToTell turn (ToNote found id) → Emits (seen h) (Note k now random) o
        → All (HasLapsed turn (time_at (seen h) k now)) (watch (seen h) (slot_of (seen h) k)).held → o ≡ None }
{}

/// The serials that one observer is sent increase.
///
/// Suppose that a lease is active and has the ticket of its notification. Then the ticket's serial
/// is above the last serial that the lease's observer was sent. So of two notifications to one
/// endpoint and token, of the same slot and without a registration between them, the later has the
/// greater serial.
pub fn serials_rise_for_observers()
    ensures above { (h : History) (k now id : ℕ) (turn : Turn) (t : Ticket) (o : ObserverEntry)
        → stage (seen h) k ≡ ToTell turn (ToNote (Some t) id)
        → entry_out turn (list_at_time now (watch (seen h) (slot_of (seen h) k))) ≡ Some o → o.serial < t.serial }
    ensures rise { (h : History) (rs : List Entry) (g : History) (k now random id j next other : ℕ) (turn next_turn : Turn)
        (t u : Ticket) (o x : ObserverEntry) (to : Endpoint) (token : List ℕ) (e : Option Emission)
        → stage (seen h) k ≡ ToTell turn (ToNote (Some t) id)
        → entry_out turn (list_at_time (time_at (seen h) k now) (watch (seen h) (slot_of (seen h) k))) ≡ Some o
        → is_entry_of to token o ≡ true
        → NoneRegisters (Then h (did (Note k now random) e)) rs (slot_of (seen h) k) to token
        → g ≡ followed_by (Then h (did (Note k now random) e)) rs
        → stage (seen g) j ≡ ToTell next_turn (ToNote (Some u) other) → slot_of (seen g) j ≡ slot_of (seen h) k
        → entry_out next_turn (list_at_time next (watch (seen g) (slot_of (seen h) k))) ≡ Some x
        → is_entry_of to token x ≡ true → t.serial < u.serial }
{}

/// Only observers in the list of a slot are sent its notifications.
///
/// Retransmissions are included. So an observer that was removed gets nothing more before it
/// registers again.
pub fn removed_observers_receive_nothing()
    ensures notified { (h : History) (k now random id : ℕ) (turn : Turn) (found : Option Ticket) (e : Emission)
        → stage (seen h) k ≡ ToTell turn (ToNote found id) → Emits (seen h) (Note k now random) (Some e)
        → IsToHeld (watch (seen h) (slot_of (seen h) k)) e }
    ensures resent { (s : Seen) (i now : ℕ) (e : Emission) → Emits s (ShardTick i now) (Some e)
        → (k : ℕ) × (overdue_in s i (max (s.shard_time i) now) ≡ Some k) × Resends (watch s (8 * k + i)) e }
{}

/// An observer stays in the list of its slot unless one of four events removes it:
///
/// - the commit of the observer's own GET with Observe 1;
/// - a Reset message that answers the last notification to the observer;
/// - a tick, if that notification has timed out after four retransmissions;
/// - a notification to the observer that isn't a 2.05 (Content).
pub fn observers_stay()
    ensures { (r : Entry) (s : Seen) (n : ℕ) (to : Endpoint) (token : List ℕ) → is_held to token (watch s n) ≡ true
        → (is_held to token (watch (and_then r s) n) ≡ true) ⊎ Removes r s n to token }
{}

/// A notification that isn't a 2.05 (Content) removes its observer.
///
/// The observer isn't in the list of its slot any more (RFC 7641, section 4.2).
pub fn errors_remove_their_observer()
    ensures { (s : Seen) (k now random id : ℕ) (turn : Turn) (found : Option Ticket) (x : ObserverEntry) (e : Emission)
        → stage s k ≡ ToTell turn (ToNote found id) → IsNoContent found
        → entry_out turn (list_at_time (time_at s k now) (watch s (slot_of s k))) ≡ Some x
        → Emits s (Note k now random) (Some e)
        → is_held x.endpoint x.token.items (watch (and_then (did (Note k now random) (Some e)) s) (slot_of s k)) ≡ false }
{}

/// The time of a slot's observers is at most the time of the slot's shard.
pub fn observers_follow_their_shard()
    ensures { (h : History) (n : ℕ) → (watch (seen h) n).time ≤ (seen h).shard_time (n % 8) }
{}

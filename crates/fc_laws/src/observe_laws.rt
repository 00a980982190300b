//! Laws of the observers of slots: each function is a law, stated by its contract.
ghost use Rattle.std.specs.Prelude.{◌≡◌, ℕ, ◌+◌, ◌*◌, ◌%◌, ◌<◌, ◌∷◌, ◌⊎◌, Bool, List, Option, None, Some, max, true, false};
ghost use Rattle.coap_msg.specs.declared.types.Emission.{Emission};
ghost use Rattle.coap_msg.specs.declared.types.Endpoint.{Endpoint};
ghost use Rattle.fc_help.specs.declared.request.Method.TheVariants.{Get};
ghost use Rattle.fc_observe.specs.Observers.{after_ack, after_reset, after_tick, list_at_time, cancelled, registered, turn_given, turn_given_up};
ghost use Rattle.fc_observe.specs.declared.entry.Turn.{Turn};
ghost use Rattle.fc_ticket.specs.Registrations.{szx_of};
ghost use Rattle.fc_ticket.specs.Tickets.{Ticket};
ghost use Rattle.fc_core.specs.declared.event.Event.TheVariants.{Commit, Due, Fresh, GiveUp, Signal, ShardTick, Lose};
ghost use Rattle.fc_core.specs.Stage.{ToAnswer, ToCommit, ToTell, Gone};
ghost use Rattle.fc_core.specs.TurnStage.{TurnStage};
ghost use Rattle.fc_core.specs.TurnStage.{ToDraw, ToNote};
ghost use Rattle.fc_laws.specs.ExchangeLaws.{draws_of, first_id};
ghost use Rattle.fc_front.specs.Ids.{free_id};
ghost use Rattle.fc_core.specs.History.{Entry, History, Seen, Then, seen, and_then, did, due_in, is_due_at, is_overdue_at, overdue_in, slot_at, stage, watch};
ghost use Rattle.fc_core.specs.Laws.{followed_by, slot_of};
ghost use Rattle.fc_laws.specs.ObserveLaws.{AsksToObserve, BringsTurn, NoneRegisters, Registers, is_among, is_held};
ghost use Rattle.fc_core.specs.Stages.{run_content};

/// The commit of a GET registers the client, or cancels the client's observation.
///
/// - Observe 0: if the run means a 2.05 (Content), and the GET requests no block or the first, the
///   client is registered at the shard's time. The answer says that the client observes exactly if
///   the client is then among the observers.
/// - Observe 1: the client is removed from the observers, whatever the code.
///
/// Any other commit leaves the observers of the job's slot unchanged. Each commit leaves the
/// observers of the other slots unchanged.
pub fn commits_register_and_cancel()
    ensures registered { (s : Seen) (k now n : ℕ) (t : Ticket) (o : Option Emission) → stage s k ≡ ToCommit n t
        → t.request.method ≡ Get → AsksToObserve t → watch (and_then (did (Commit k now) o) s) (slot_of s k)
        ≡ registered t.origin.endpoint t.token t.request (szx_of t.block) t.serial
        (list_at_time (max (s.shard_time (slot_of s k % 8)) now) (watch s (slot_of s k))) }
    ensures told { (s : Seen) (k now n : ℕ) (t : Ticket) (o : Option Emission) → stage s k ≡ ToCommit n t
        → t.request.method ≡ Get → AsksToObserve t → stage (and_then (did (Commit k now) o) s) k
        ≡ ToAnswer (run_content t (is_among t (watch (and_then (did (Commit k now) o) s) (slot_of s k)))) }
    ensures cancelled { (s : Seen) (k now n : ℕ) (t : Ticket) (o : Option Emission) → stage s k ≡ ToCommit n t
        → t.request.method ≡ Get → t.observe ≡ Some 1 → watch (and_then (did (Commit k now) o) s) (slot_of s k)
        ≡ cancelled t.origin.endpoint t.token.items (watch s (slot_of s k)) }
    ensures others { (s : Seen) (k now n : ℕ) (t : Ticket) (o : Option Emission) → stage s k ≡ ToCommit n t
        → (AsksToObserve t → ⊥) → (t.observe ≡ Some 1 → ⊥)
        → watch (and_then (did (Commit k now) o) s) (slot_of s k) ≡ watch s (slot_of s k) }
    ensures elsewhere { (s : Seen) (k now m : ℕ) (o : Option Emission) → (m ≡ slot_of s k → ⊥)
        → watch (and_then (did (Commit k now) o) s) m ≡ watch s m }
{}

/// A client becomes an observer only by the commit of its own GET with Observe 0.
///
/// The GET is for the slot that the client observes. So a client that was removed, for any reason,
/// isn't among the slot's observers until the client registers again.
pub fn observers_come_by_their_commits()
    ensures comes { (r : Entry) (s : Seen) (n : ℕ) (to : Endpoint) (token : List ℕ) → is_held to token (watch (and_then r s) n) ≡ true
        → (is_held to token (watch s n) ≡ true) ⊎ Registers r s n to token }
    ensures away { (rs : List Entry) (h : History) (n : ℕ) (to : Endpoint) (token : List ℕ) → NoneRegisters h rs n to token
        → is_held to token (watch (seen h) n) ≡ false → is_held to token (watch (seen (followed_by h rs)) n) ≡ false }
{}

/// A signal is for the observers of its shard's slots alone.
///
/// In each of these slots a Reset message removes exactly the entries whose last notification the
/// message answers. An Acknowledgement ends the wait of these entries.
pub fn signals_are_for_their_shard()
    ensures reset { (s : Seen) (i n id : ℕ) (to : Endpoint) (o : Option Emission) → n % 8 ≡ i
        → watch (and_then (did (Signal i to id true) o) s) n ≡ after_reset to id (watch s n) }
    ensures acknowledged { (s : Seen) (i n id : ℕ) (to : Endpoint) (o : Option Emission) → n % 8 ≡ i
        → watch (and_then (did (Signal i to id false) o) s) n ≡ after_ack to id (watch s n) }
    ensures elsewhere { (s : Seen) (i n id : ℕ) (to : Endpoint) (o : Option Emission) (reset : Bool) → (n % 8 ≡ i → ⊥)
        → watch (and_then (did (Signal i to id reset) o) s) n ≡ watch s n }
{}

/// A shard grants a lease to the first observer with a pending notification.
///
/// The lease is for the shard's first slot that has an observer with a pending notification, and
/// for the first such observer of that slot. No other observer gets a lease. The lease makes one
/// job, which runs the observer's request again. If no observer has a pending notification, there
/// is no job.
pub fn turns_are_for_the_first_that_is_due()
    ensures found { (s : Seen) (i at k : ℕ) → due_in s i at ≡ Some k
        → (is_due_at s i at k ≡ true) × ((j : ℕ) → j < k → is_due_at s i at j ≡ false) }
    ensures not_found { (s : Seen) (i at : ℕ) → i < 8 → due_in s i at ≡ None → (j : ℕ) → j < 8 → is_due_at s i at j ≡ false }
    ensures brings { (s : Seen) (i k now : ℕ) (o : Option Emission) → due_in s i (max (s.shard_time i) now) ≡ Some k
        → BringsTurn s (8 * k + i) (max (s.shard_time i) now) (and_then (did (Due i now) o) s) }
    ensures gives { (s : Seen) (i k now : ℕ) (o : Option Emission) → due_in s i (max (s.shard_time i) now) ≡ Some k
        → watch (and_then (did (Due i now) o) s) (8 * k + i)
        ≡ turn_given (slot_at s (8 * k + i)).notify_serial (list_at_time (max (s.shard_time i) now) (watch s (8 * k + i))) }
    ensures others { (s : Seen) (i k now : ℕ) (o : Option Emission) (n : ℕ) → due_in s i (max (s.shard_time i) now) ≡ Some k
        → (n ≡ 8 * k + i → ⊥) → watch (and_then (did (Due i now) o) s) n ≡ watch s n }
    ensures nobody { (s : Seen) (i now n : ℕ) (o : Option Emission) → due_in s i (max (s.shard_time i) now) ≡ None
        → watch (and_then (did (Due i now) o) s) n ≡ watch s n }
    ensures no_job { (s : Seen) (i now : ℕ) (o : Option Emission) → due_in s i (max (s.shard_time i) now) ≡ None
        → (and_then (did (Due i now) o) s).tasks ≡ s.tasks }
{}

/// A lease that needs a message ID draws the server's next one.
///
/// If the next message ID was drawn less than 247,000 ms before, the lease still needs one.
pub fn turns_draw_message_ids()
    ensures drawn { (s : Seen) (k now id : ℕ) (turn : Turn) (found : Option Ticket) (o : Option Emission)
        → stage s k ≡ ToTell turn (ToDraw found)
        → free_id s.ids (max s.time now) ≡ Some id → stage (and_then (did (Fresh k now) o) s) k ≡ ToTell turn (ToNote found id) }
    ensures none { (s : Seen) (k now : ℕ) (turn : Turn) (found : Option Ticket) (o : Option Emission)
        → stage s k ≡ ToTell turn (ToDraw found)
        → free_id s.ids (max s.time now) ≡ None → stage (and_then (did (Fresh k now) o) s) k ≡ ToTell turn (ToDraw found) }
    ensures draws { (h : History) (k now id : ℕ) (turn : Turn) (found : Option Ticket) (o : Option Emission) → first_id h < 65536
        → stage (seen h) k ≡ ToTell turn (ToDraw found) → free_id (seen h).ids (max (seen h).time now) ≡ Some id
        → draws_of (Then h (did (Fresh k now) o)) ≡ record { id = id; at = max (seen h).time now } ∷ draws_of h }
{}

/// A lease that is released isn't active any more.
///
/// The release is at the time of the slot's shard, and ends the job of the lease. The observers of
/// other slots don't change. A job whose worker is lost changes the observers of no slot.
pub fn turns_are_given_up_or_lost()
    ensures given_up { (s : Seen) (k now : ℕ) (turn : Turn) (needs : TurnStage) (o : Option Emission) → stage s k ≡ ToTell turn needs
        → watch (and_then (did (GiveUp k now) o) s) (slot_of s k)
        ≡ turn_given_up turn (list_at_time (max (s.shard_time (slot_of s k % 8)) now) (watch s (slot_of s k))) }
    ensures gone { (s : Seen) (k now : ℕ) (turn : Turn) (needs : TurnStage) (o : Option Emission) → stage s k ≡ ToTell turn needs
        → stage (and_then (did (GiveUp k now) o) s) k ≡ Gone }
    ensures elsewhere { (s : Seen) (k now m : ℕ) (o : Option Emission) → (m ≡ slot_of s k → ⊥)
        → watch (and_then (did (GiveUp k now) o) s) m ≡ watch s m }
    ensures lost { (s : Seen) (k n : ℕ) (o : Option Emission) → watch (and_then (did (Lose k) o) s) n ≡ watch s n }
{}

/// A tick of a shard is for the first slot with a notification that has timed out.
///
/// The tick leaves the observers of each other slot unchanged. If no notification has timed out, it
/// leaves those of each slot unchanged.
pub fn ticks_are_for_the_first_that_is_overdue()
    ensures found { (s : Seen) (i at k : ℕ) → overdue_in s i at ≡ Some k
        → (is_overdue_at s i at k ≡ true) × ((j : ℕ) → j < k → is_overdue_at s i at j ≡ false) }
    ensures not_found { (s : Seen) (i at : ℕ) → i < 8 → overdue_in s i at ≡ None → (j : ℕ) → j < 8 → is_overdue_at s i at j ≡ false }
    ensures first { (s : Seen) (i k now : ℕ) (o : Option Emission) → overdue_in s i (max (s.shard_time i) now) ≡ Some k
        → watch (and_then (did (ShardTick i now) o) s) (8 * k + i)
        ≡ after_tick (list_at_time (max (s.shard_time i) now) (watch s (8 * k + i))) }
    ensures others { (s : Seen) (i k n now : ℕ) (o : Option Emission) → overdue_in s i (max (s.shard_time i) now) ≡ Some k
        → (n ≡ 8 * k + i → ⊥) → watch (and_then (did (ShardTick i now) o) s) n ≡ watch s n }
    ensures none { (s : Seen) (i n now : ℕ) (o : Option Emission) → overdue_in s i (max (s.shard_time i) now) ≡ None
        → watch (and_then (did (ShardTick i now) o) s) n ≡ watch s n }
{}

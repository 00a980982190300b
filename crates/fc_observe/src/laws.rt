//! Laws about calls on the observers of a slot.
//!
//! Each law is the contract of an empty function.
ghost use Rattle.std.specs.Prelude.{◌≡◌, ◌↔◌, ℕ, ◌+◌, ◌*◌, ◌%◌, ◌<◌, ◌≤◌, ◌⊎◌, nat_lt, nat_le, Bool, false, true, [], ◌∷◌, ◌++◌, List, None, Option, Some, count_by, is_some, length};
ghost use Rattle.std.specs.List.{All, AllZip, Any, Contains, list_any};
ghost use Rattle.arrayvec.specs.ArrayVec.{ArrayVec};
ghost use Rattle.coap_msg.specs.declared.types.Emission.{Emission};
ghost use Rattle.coap_msg.specs.declared.types.Endpoint.{Endpoint};
ghost use Rattle.fc_help.specs.Request.{Request};
ghost use Rattle.fc_observe.specs.Calls.{ComesFrom, IsRegisteredBy, ObserverCall, NextDue, Notify, MarkMissing, End, GiveUp, after_calls, observers, observers_after};
ghost use Rattle.fc_observe.specs.Entries.{given_up, is_due, is_entry_of, is_overdue, must_confirm, notified, retransmission, timed_out, with_turn};
ghost use Rattle.fc_observe.specs.Laws.{HandsInUpTo, IsAcknowledged, IsGivenUpNow, IsNewAt, IsOutstanding, IsRegistrationOf, IsSentAt, IsTurnOut, KeepsLast, KeepsSerial, RegistersNone, StandsLast, has_number, noticed_for, resent_entry};
ghost use Rattle.fc_observe.specs.Observers.{ObserverList, after_ack, after_reset, list_at_time, cancelled, entry_out, is_missing, is_out, must_confirm_turn, next_turn, registered, ticked, turn_given};
ghost use Rattle.fc_observe.specs.declared.entry.Entry.{Entry};
ghost use Rattle.fc_observe.specs.declared.entry.Phase.TheVariants.{TurnOut};
ghost use Rattle.fc_observe.specs.declared.entry.Turn.{Turn};
ghost use Rattle.fc_observe.specs.declared.observers.Ticked.TheVariants.{Resend};

/// A slot has at most 32 observers, and one entry per endpoint and token.
pub fn entries_are_few()
    ensures most { (slot confirm_after : ℕ) (h : List ObserverCall) → length (observers slot confirm_after h).held ≤ 32 }
    ensures key { (slot confirm_after : ℕ) (h : List ObserverCall) (to : Endpoint) (token : List ℕ) →
        count_by (is_entry_of to token) (observers slot confirm_after h).held ≤ 1 }
{}

/// An observer has a pending notification exactly if all of these hold at `now`:
///
/// - The last revision sent to the observer is below `notify_serial`.
/// - No confirmable notification to the observer is outstanding.
/// - The observer has no active lease.
/// - The observer's last lease wasn't released at `now` or later.
pub fn observers_are_due()
    ensures { (now notify_serial : ℕ) (o : Entry) → ((is_due now notify_serial o ≡ true)
        ↔ ((o.serial < notify_serial) × (IsOutstanding o.phase → ⊥) × (IsTurnOut now o.phase → ⊥)
        × (IsGivenUpNow now o.phase → ⊥))) }
{}

/// A lease belongs to one observer, and ends once.
///
/// A lease is no longer active once the observer was notified, or the lease was ended or released.
pub fn turns_end_once()
    ensures one { (slot confirm_after number : ℕ) (h : List ObserverCall) →
        count_by (has_number number) (observers slot confirm_after h).held ≤ 1 }
    ensures notified { (slot confirm_after now id serial random : ℕ) (turn : Turn) (bytes : ArrayVec ℕ)
        (h : List ObserverCall) →
        entry_out turn (observers slot confirm_after (Notify now turn id serial random bytes ∷ h)) ≡ None }
    ensures ended { (slot confirm_after : ℕ) (turn : Turn) (h : List ObserverCall) →
        entry_out turn (observers slot confirm_after (End turn ∷ h)) ≡ None }
    ensures given_up { (slot confirm_after now : ℕ) (turn : Turn) (h : List ObserverCall) →
        entry_out turn (observers slot confirm_after (GiveUp turn now ∷ h)) ≡ None }
{}

/// An active lease whose snapshot found the slot empty is marked as missing.
///
/// A new lease isn't marked.
pub fn turns_keep_what_they_missed()
    ensures missed { (turn : Turn) (t : ObserverList) → is_some (entry_out turn t) ≡ true →
        is_missing turn (observers_after (MarkMissing turn) t) ≡ true }
    ensures new { (slot confirm_after now notify_serial : ℕ) (turn : Turn) (h : List ObserverCall) →
        next_turn notify_serial (list_at_time now (observers slot confirm_after h)) ≡ Some turn →
        is_missing turn (observers slot confirm_after (NextDue now notify_serial ∷ h)) ≡ false }
{}

/// Each entry after a call was registered by it or was in the list before.
///
/// In the second case the entry is unchanged, or changed in the way in which that call changes
/// entries.
pub fn entries_come_from_entries()
    ensures { (c : ObserverCall) (t : ObserverList) →
        All (ComesFrom c t) (observers_after c t).held }
{}

/// A confirmable notification that timed out is retransmitted.
///
/// The same bytes go to the same endpoint. The first timeout is t milliseconds, where t is 2,000 to
/// 3,000. The timeouts after the four retransmissions are 2t, 4t, 8t and 16t milliseconds. At the
/// timeout after the fourth one the observer is removed.
pub fn notifications_are_retransmitted()
    ensures sent { (confirm_after now id serial random : ℕ) (bytes : ArrayVec ℕ) (o : Entry) →
        must_confirm confirm_after now o ≡ true →
        IsSentAt now (2000 + random % 1001) bytes (notified confirm_after now id serial random bytes o) }
    ensures first { (later s t : ℕ) (bytes : ArrayVec ℕ) (o : Entry) → IsSentAt s t bytes o →
        is_overdue later o ≡ nat_le (s + t) later }
    ensures second { (later s t a : ℕ) (bytes : ArrayVec ℕ) (o : Entry) → IsSentAt s t bytes o →
        is_overdue later (resent_entry (a ∷ []) o) ≡ nat_le (a + 2 * t) later }
    ensures third { (later s t a b : ℕ) (bytes : ArrayVec ℕ) (o : Entry) → IsSentAt s t bytes o →
        is_overdue later (resent_entry (b ∷ a ∷ []) o) ≡ nat_le (b + 4 * t) later }
    ensures fourth { (later s t a b c : ℕ) (bytes : ArrayVec ℕ) (o : Entry) → IsSentAt s t bytes o →
        is_overdue later (resent_entry (c ∷ b ∷ a ∷ []) o) ≡ nat_le (c + 8 * t) later }
    ensures last { (later s t a b c d : ℕ) (bytes : ArrayVec ℕ) (o : Entry) → IsSentAt s t bytes o →
        is_overdue later (resent_entry (d ∷ c ∷ b ∷ a ∷ []) o) ≡ nat_le (d + 16 * t) later }
    ensures same { (s t : ℕ) (bytes : ArrayVec ℕ) (o : Entry) (at : List ℕ) → IsSentAt s t bytes o →
        length at < 4 →
        retransmission (resent_entry at o) ≡ Some (record { to = o.endpoint; bytes = bytes }) }
    ensures removed { (later s t : ℕ) (bytes : ArrayVec ℕ) (o : Entry) (at : List ℕ) →
        IsSentAt s t bytes o → length at ≡ 4 → timed_out later (resent_entry at o) ≡ [] }
{}

/// A released lease makes its observer wait until a later time.
///
/// At the time of the release the observer has no pending notification. At a later time it has one
/// exactly if the last revision sent to it is below `notify_serial`. A lease that hasn't ended
/// 247,000 ms after its grant counts as released at that time.
pub fn given_up_turns_wait()
    ensures same { (now notify_serial : ℕ) (o : Entry) → is_due now notify_serial (given_up now o) ≡ false }
    ensures later { (now later notify_serial : ℕ) (o : Entry) → now < later →
        is_due later notify_serial (given_up now o) ≡ nat_lt o.serial notify_serial }
    ensures out { (now number at notify_serial : ℕ) (missing : Bool) (o : Entry) →
        o.phase ≡ TurnOut number at missing → now ≤ at + 247000 → is_due now notify_serial o ≡ false }
    ensures lapsed { (now number at notify_serial : ℕ) (missing : Bool) (o : Entry) →
        o.phase ≡ TurnOut number at missing → at + 247000 < now →
        is_due now notify_serial o ≡ nat_lt o.serial notify_serial }
{}

/// A Reset removes exactly the entries whose last notification it matches.
///
/// A notification matches if it went to the Reset's endpoint with the Reset's message ID.
pub fn resets_remove_their_own()
    ensures { (to : Endpoint) (id : ℕ) (t : ObserverList) (o : Entry) →
        (Contains (after_reset to id t).held o
        ↔ (Contains t.held o × ((o.endpoint ≡ to) × (o.id ≡ Some id) → ⊥))) }
{}

/// A cancellation removes exactly the entries of its endpoint and token.
///
/// See RFC 7641, section 3.6.
pub fn cancellations_remove_their_own()
    ensures { (to : Endpoint) (token : List ℕ) (t : ObserverList) (o : Entry) →
        (Contains (cancelled to token t).held o
        ↔ (Contains t.held o × ((o.endpoint ≡ to) × (o.token.items ≡ token) → ⊥))) }
{}

/// A removed observer gets no further notification.
///
/// Until the observer registers again, no entry has its endpoint and token. A lease that is no
/// longer active stays inactive. Only stored entries have active leases, and only notifications of
/// stored entries are retransmitted.
pub fn removed_observers_receive_nothing()
    ensures gone { (to : Endpoint) (token : List ℕ) (h : List ObserverCall) (t : ObserverList) →
        RegistersNone to token h → list_any (is_entry_of to token) t.held ≡ false →
        list_any (is_entry_of to token) (after_calls h t).held ≡ false }
    ensures over { (turn : Turn) (h : List ObserverCall) (t : ObserverList) →
        turn.number < t.turns → entry_out turn t ≡ None →
        entry_out turn (after_calls h t) ≡ None }
    ensures out { (turn : Turn) (t : ObserverList) (o : Entry) → entry_out turn t ≡ Some o →
        Contains t.held o }
    ensures resent { (t : ObserverList) (e : Emission) → ticked t ≡ Resend e →
        Any (λ (o : Entry). retransmission o ≡ Some e) t.held }
{}

/// A notification's revision is above the last one sent to the same observer.
///
/// This holds if the revision is at least the `notify_serial` for which the notification's lease
/// was granted. A call that doesn't notify an entry's observer leaves the last revision sent to it
/// unchanged. No call changes the observer of an entry.
pub fn serials_rise()
    ensures kept { (c : ObserverCall) (t : ObserverList) →
        All (λ (o : Entry). IsRegisteredBy c t o ⊎ Any (KeepsSerial c t o) t.held)
        (observers_after c t).held }
    ensures above { (slot confirm_after now : ℕ) (turn : Turn) (serial : ℕ) (h : List ObserverCall) →
        noticed_for turn.number slot confirm_after h ≤ serial →
        All (λ (o : Entry). is_out turn (list_at_time now (observers slot confirm_after h)) o ≡ true →
        o.serial < serial) (observers slot confirm_after h).held }
{}

/// The revisions sent to observers are at most those passed to the calls.
///
/// If the last revisions sent to all observers are at most `n`, they still are after a call that
/// passes no revision above `n`.
pub fn serials_stay_below()
    ensures { (n : ℕ) (c : ObserverCall) (t : ObserverList) → HandsInUpTo n c →
        All (λ (o : Entry). o.serial ≤ n) t.held →
        All (λ (o : Entry). o.serial ≤ n) (observers_after c t).held }
{}

/// The first observer in the list with a pending notification gets the lease.
///
/// The number of the lease is the number of leases granted before. The other entries don't change.
pub fn the_first_due_gets_the_turn()
    ensures { (notify_serial : ℕ) (t : ObserverList) (before after : List Entry) (o : Entry) →
        t.turns < 18446744073709551615 → t.held ≡ before ++ o ∷ after →
        list_any (is_due t.time notify_serial) before ≡ false → is_due t.time notify_serial o ≡ true →
        (turn_given notify_serial t).held ≡ before ++ with_turn t.turns t.time o ∷ after }
{}

/// An entry's message ID is that of its last notification.
///
/// Before the first notification, the entry has no message ID. A notification is confirmable
/// exactly if `confirm_after` ms or more have passed since the entry's last confirmable
/// notification. If there was none yet, the time since the registration counts. A list keeps its
/// initial `confirm_after`.
pub fn entries_keep_their_last_notification()
    ensures kept { (c : ObserverCall) (t : ObserverList) →
        All (λ (o : Entry). IsNewAt c t o ⊎ Any (KeepsLast c t o) t.held) (observers_after c t).held }
    ensures confirmable { (confirm_after now : ℕ) (o : Entry) →
        ((must_confirm confirm_after now o ≡ true) ↔ (o.confirmed + confirm_after ≤ now)) }
    ensures turn { (turn : Turn) (t : ObserverList) (o : Entry) → entry_out turn t ≡ Some o →
        must_confirm_turn turn t ≡ must_confirm t.confirm_after t.time o }
    ensures same { (slot confirm_after : ℕ) (h : List ObserverCall) → (observers slot confirm_after h).confirm_after ≡ confirm_after }
{}

/// An Acknowledgement ends the wait of the entries that it matches.
///
/// An entry matches if its last notification went to the Acknowledgement's endpoint with the
/// Acknowledgement's message ID. Nothing else changes.
pub fn acknowledgements_end_the_wait()
    ensures { (to : Endpoint) (id : ℕ) (t : ObserverList) →
        AllZip (IsAcknowledged to id) t.held (after_ack to id t).held }
{}

/// A registration is entered if there is room or an entry to be replaced.
///
/// There is room if the slot has fewer than 32 observers. An entry of the registration's endpoint
/// and token is replaced. If there is neither room nor such an entry, nothing changes.
pub fn registrations_are_entered()
    ensures room { (to : Endpoint) (token : ArrayVec ℕ) (request : Request) (szx : Option ℕ) (serial : ℕ) (t : ObserverList) →
        length t.held < 32 →
        Any (IsRegistrationOf to token request szx serial) (registered to token request szx serial t).held }
    ensures renewed { (to : Endpoint) (token : ArrayVec ℕ) (request : Request) (szx : Option ℕ) (serial : ℕ) (t : ObserverList) →
        list_any (is_entry_of to token.items) t.held ≡ true →
        Any (IsRegistrationOf to token request szx serial) (registered to token request szx serial t).held }
    ensures full { (to : Endpoint) (token : ArrayVec ℕ) (request : Request) (szx : Option ℕ) (serial : ℕ) (t : ObserverList) →
        32 ≤ length t.held → list_any (is_entry_of to token.items) t.held ≡ false →
        registered to token request szx serial t ≡ t }
{}

/// A registration becomes the last entry.
///
/// A new entry is appended to all entries. A renewed entry is removed from its place and appended
/// to all others, which keep their order.
pub fn registrations_stand_last()
    ensures new { (to : Endpoint) (token : ArrayVec ℕ) (request : Request) (szx : Option ℕ) (serial : ℕ) (t : ObserverList) →
        length t.held < 32 → list_any (is_entry_of to token.items) t.held ≡ false →
        StandsLast t.held (IsRegistrationOf to token request szx serial) (registered to token request szx serial t).held }
    ensures renewed { (to : Endpoint) (token : ArrayVec ℕ) (request : Request) (szx : Option ℕ) (serial : ℕ) (t : ObserverList)
        (before after : List Entry) (old : Entry) → t.held ≡ before ++ old ∷ after → is_entry_of to token.items old ≡ true →
        list_any (is_entry_of to token.items) before ≡ false → list_any (is_entry_of to token.items) after ≡ false →
        StandsLast (before ++ after) (IsRegistrationOf to token request szx serial) (registered to token request szx serial t).held }
{}

/// A tick retransmits the first notification in the list that timed out.
///
/// It does so if that notification was retransmitted less than four times. The same bytes go to the
/// same endpoint.
pub fn overdue_notifications_are_sent_again()
    ensures { (s wait : ℕ) (bytes : ArrayVec ℕ) (o : Entry) (at : List ℕ) (before after : List Entry) (t : ObserverList) →
        IsSentAt s wait bytes o → length at < 4 → is_overdue t.time (resent_entry at o) ≡ true →
        t.held ≡ before ++ resent_entry at o ∷ after → list_any (is_overdue t.time) before ≡ false →
        ticked t ≡ Resend (record { to = o.endpoint; bytes = bytes }) }
{}

/// The end of a lease removes the observer that has it.
///
/// No entry of the observer's endpoint and token is left.
pub fn ended_turns_remove_their_observer()
    ensures { (slot confirm_after : ℕ) (turn : Turn) (o : Entry) (h : List ObserverCall) →
        entry_out turn (observers slot confirm_after h) ≡ Some o →
        list_any (is_entry_of o.endpoint o.token.items) (observers slot confirm_after (End turn ∷ h)).held ≡ false }
{}

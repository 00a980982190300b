//! Consequences of the service's definitions: each function's contract is a law.
ghost use Rattle.std.specs.Prelude.{◌≡◌, ◌+◌, ◌-◌, ◌*◌, ◌%◌, ◌<◌, ◌≤◌, ◌++◌, ◌⊎◌, ℕ, Bool, List, [], ◌∷◌, None, Option, Some, false, flat_map, length, map, true};
ghost use Rattle.coap_msg.specs.declared.types.Emission.{Emission};
ghost use Rattle.fc_calls.specs.Doings.{AnswersAt};
ghost use Rattle.fc_filed.specs.Recovered.{AreStoredAtFirst, FindsHistory, HaveSavedOrder, saves_of};
ghost use Rattle.fc_filed.specs.Entries.{log_of};
ghost use Rattle.fc_filed.specs.declared.entry.FiledEntry.{FiledEntry};
ghost use Rattle.fc_linear.specs.Parts.{history_on};
ghost use Rattle.fc_front.specs.Contents.{Content};
ghost use Rattle.fc_front.specs.Exchanges.{FrontState, advanced};
ghost use Rattle.fc_core.specs.History.{History, seen, slot_at};
ghost use Rattle.fc_front.specs.Timers.{timer_job};
ghost use Rattle.fc_registry.specs.Shards.{slot_in_shards};
ghost use Rattle.fc_registry.specs.Slots.{last_serial};
ghost use Rattle.fc_server.specs.declared.server.Begin.{Begin};
ghost use Rattle.fc_host.specs.Sockets.{Incoming, Receive};
ghost use Rattle.fc_host.specs.declared.timer.Timer.{Timer};
ghost use Rattle.std.specs.List.{All};
ghost use Rattle.fc_service.specs.Histories.{Beat, Datagram, IsOneHistory, Silence, after_beat, arrivals_in, arrivals_in_lines, beat_at, sent_in_lines, timed_arrivals_in};
ghost use Rattle.fc_lines.specs.Emissions.{printed};
ghost use Rattle.fc_service.specs.Playing.{IsNextText, IsPlayedOut, PlayedLine, printed_lines};
ghost use Rattle.fc_locked.specs.Counts.{Tallies};
ghost use Rattle.fc_server.specs.Serving.{Serves};
ghost use Rattle.fc_server.specs.States.{ServerState, begin_of, first_server};
ghost use Rattle.fc_workers.specs.Deliveries.{deliveries_in};
ghost use Rattle.fc_locked.specs.LegalOrder.{HaveLegalOrder};
ghost use Rattle.fc_backend.specs.Messages.{first_brought};
ghost use Rattle.fc_locked.specs.OneOrder.{logs_of};
ghost use Rattle.fc_locked.specs.SharedStores.{HasSaved};
ghost use Rattle.fc_backend.specs.Statistics.{Share};
ghost use Rattle.fc_workers.specs.declared.dispatcher.Offload.TheVariants.{ChangesAndExpensive, Expensive};
ghost use Rattle.fc_receive.specs.Rounds.{Round, WaitsAfter, round_calls, sendings_in};
ghost use Rattle.fc_service.specs.Services.{HasServed, HasServedPooled, HasServedReported, HasServedTimed, IsOneThread, deliveries_of, offload_of, served_view};
ghost use Rattle.fc_service.specs.Serials.{IsNewerNumber, raised_at, serial_of_start, serial_over};
ghost use Rattle.fc_service.specs.Starting.{AreRising, IsRestoredFrom, RefusesSlot, SavesSerial};
ghost use Rattle.fc_store.specs.declared.store.ProgramUpdate.{ProgramUpdate};
ghost use Rattle.fc_store.specs.Recovery.{Save, SavesAll, refuses, stores};
ghost use Rattle.fc_store.specs.Stored.{StoredProgram, StoredSlot, StoredSlots, stored_in};
ghost use Rattle.fc_store.specs.Updates.{AreSameSlots};
ghost use Rattle.fc_pool.specs.declared.replies.Replies.{Replies};
ghost use Rattle.fc_pool.specs.Pooled.{PooledIngress, pooled_calls};
ghost use Rattle.fc_receive.specs.Reporting.{Reporting, reported_calls};

use fc_backend::TimeSource;
use fc_host::sensors::Sensors;
use fc_host::socket::{Sink, Source};
use fc_record::{Recorder, Reporter};
use fc_store::Store;

/// The first receive of a server with workers and no timer waits 100 ms.
///
/// It does so with reports or without. `fc_receive::laws` says the same of a server on one thread.
pub fn first_wait_with_workers_is_100_ms<
    Z: Sensors,
    S: Source,
    M: TimeSource,
    K: Sink,
    C: Recorder,
    Q: Reporter,
    P: Store,
>()
    ensures pooled { (first : ServerState) (left : PooledIngress Tallies) (wait : Option ℕ)
        → WaitsAfter (pooled_calls (served_view Z.are_sensed (round_calls S.received M.is_time K.went) C.recorded (HasSaved P.Store) first)) [] left wait → wait ≡ Some 100 }
    ensures pooled_reported { (first : ServerState) (left : Reporting (PooledIngress Tallies)) (wait : Option ℕ)
        → WaitsAfter (reported_calls Q.reported (pooled_calls (served_view Z.are_sensed (round_calls S.received M.is_time K.went) C.recorded (HasSaved P.Store) first))) [] left wait → wait ≡ Some 100 }
{}

/// A played line ends before a line feed, the byte 10.
///
/// The first line of `a`, a line feed, `b` is `a`.
pub fn lines_end_before_line_feeds()
    ensures { (text : List ℕ) (left : Option (List ℕ)) → IsNextText text (Some (97 ∷ 10 ∷ 98 ∷ [])) left → text ≡ 97 ∷ [] }
{}

/// All rounds of a server on one thread continue one history of events.
///
/// They continue each history that leaves the first state without jobs (`any`). Empty slots
/// continue the history that begins at their serial and the first message ID (`empty`). Each event
/// emits a permitted emission. Exactly the received datagrams are delivered, in order, each at its
/// round's time. Time passes at the times of the other rounds. The emissions of the events, in that
/// order, are those that the rounds passed to the sink, once each. The log of these calls has
/// nothing else (`HasServed`).
pub fn served_rounds_are_one_history<Z: Sensors, S: Source, M: TimeSource, K: Sink, C: Recorder>()
    ensures any { (limit : ℕ) (start : ServerState) (before after : Option (List Receive)) (replies : Replies)
        (w : HasServed Z.are_sensed (round_calls S.received M.is_time K.went) C.recorded limit start before after replies)
        → (h : History) → Serves h start [] → IsOneHistory h (arrivals_in w.run.rounds) (map (λ s. s.emission) (sendings_in w.run.rounds)) w.last.alone.engine }
    ensures empty { (limit : ℕ) (begin : Begin) (before after : Option (List Receive)) (replies : Replies)
        (w : HasServed Z.are_sensed (round_calls S.received M.is_time K.went) C.recorded limit (first_server begin) before after replies)
        → IsOneHistory (begin_of begin) (arrivals_in w.run.rounds) (map (λ s. s.emission) (sendings_in w.run.rounds)) w.last.alone.engine }
{}

/// All rounds of a server on one thread with timers continue one history of events.
///
/// The histories are those of `served_rounds_are_one_history`. Exactly the received datagrams are
/// delivered, as without timers. In each round the timers that are due fire first: each of them
/// once, for its own slot, at the round's time, and no other. It is due at its next beat after
/// that, so a round fires no timer early, and none twice for one beat. The emissions of the events
/// are those that the rounds passed to the sink. At its start no timer has a job at a worker.
pub fn timed_rounds_are_one_history<
    Z: Sensors,
    S: Source,
    M: TimeSource,
    K: Sink,
    C: Recorder,
    Q: Reporter,
>()
    ensures any { (timers : List Timer) (limit : ℕ) (start : ServerState) (before after : Option (List Receive)) (replies : Replies) → All (λ t. t.offloaded ≡ false) timers
        → (w : HasServedTimed timers None Q.reported Z.are_sensed (round_calls S.received M.is_time K.went) C.recorded limit start before after replies)
        → (h : History) → Serves h start [] → IsOneHistory h (timed_arrivals_in w.run.run.rounds timers) (map (λ s. s.emission) (sendings_in w.run.run.rounds)) w.last.alone.engine }
    ensures empty { (timers : List Timer) (limit : ℕ) (begin : Begin) (before after : Option (List Receive)) (replies : Replies) → All (λ t. t.offloaded ≡ false) timers
        → (w : HasServedTimed timers None Q.reported Z.are_sensed (round_calls S.received M.is_time K.went) C.recorded limit (first_server begin) before after replies)
        → IsOneHistory (begin_of begin) (timed_arrivals_in w.run.run.rounds timers) (map (λ s. s.emission) (sendings_in w.run.run.rounds)) w.last.alone.engine }
{}

/// All rounds of a server on one thread with reports continue one history of events.
///
/// A report isn't an event, so the history is as without reports. `untimed` is of a server without
/// timers, `timed` of one with timers. `empty_untimed` and `empty_timed` are of servers that start
/// with empty slots.
pub fn reported_rounds_are_one_history<
    Z: Sensors,
    S: Source,
    M: TimeSource,
    K: Sink,
    C: Recorder,
    Q: Reporter,
>()
    ensures untimed { (every limit : ℕ) (start : ServerState) (before after : Option (List Receive)) (replies : Replies)
        (w : HasServedReported every Q.reported Z.are_sensed (round_calls S.received M.is_time K.went) C.recorded limit start before after replies)
        → (h : History) → Serves h start [] → IsOneHistory h (arrivals_in w.run.run.rounds) (map (λ s. s.emission) (sendings_in w.run.run.rounds)) w.last.alone.engine }
    ensures timed { (timers : List Timer) (every limit : ℕ) (start : ServerState) (before after : Option (List Receive)) (replies : Replies) → All (λ t. t.offloaded ≡ false) timers
        → (w : HasServedTimed timers (Some every) Q.reported Z.are_sensed (round_calls S.received M.is_time K.went) C.recorded limit start before after replies)
        → (h : History) → Serves h start [] → IsOneHistory h (timed_arrivals_in w.run.run.run.rounds timers) (map (λ s. s.emission) (sendings_in w.run.run.run.rounds)) w.last.alone.engine }
    ensures empty_untimed { (every limit : ℕ) (begin : Begin) (before after : Option (List Receive)) (replies : Replies)
        (w : HasServedReported every Q.reported Z.are_sensed (round_calls S.received M.is_time K.went) C.recorded limit (first_server begin) before after replies)
        → IsOneHistory (begin_of begin) (arrivals_in w.run.run.rounds) (map (λ s. s.emission) (sendings_in w.run.run.rounds)) w.last.alone.engine }
    ensures empty_timed { (timers : List Timer) (every limit : ℕ) (begin : Begin) (before after : Option (List Receive)) (replies : Replies) → All (λ t. t.offloaded ≡ false) timers
        → (w : HasServedTimed timers (Some every) Q.reported Z.are_sensed (round_calls S.received M.is_time K.went) C.recorded limit (first_server begin) before after replies)
        → IsOneHistory (begin_of begin) (timed_arrivals_in w.run.run.run.rounds timers) (map (λ s. s.emission) (sendings_in w.run.run.run.rounds)) w.last.alone.engine }
{}

/// A timer fires at its first round at or after a beat.
///
/// A timer of 1,000 ms of slot 7 doesn't fire before it is due at 5,000 ms. In a round at 5,300 ms
/// it fires, and is due at 6,000 ms; at 8,300 ms it skips the beats that it missed.
pub fn timers_fire_when_they_are_due()
    ensures early { beat_at 4999 (record { every = 1000; slot = 7; due = 5000; offloaded = false }) ≡ [] }
    ensures due { beat_at 5000 (record { every = 1000; slot = 7; due = 5000; offloaded = false }) ≡ Beat 5000 7 ∷ [] }
    ensures waits { (t : Timer) → t.due ≡ 5000 → after_beat 4999 t ≡ t }
    ensures next { (after_beat 5300 (record { every = 1000; slot = 7; due = 5000; offloaded = false })).due ≡ 6000 }
    ensures late { (after_beat 8300 (record { every = 1000; slot = 7; due = 5000; offloaded = false })).due ≡ 9000 }
{}

/// A timer of 1,000 ms of slot 7 fires in rounds at 1,000 and 2,300 ms, and not between them.
///
/// The rounds are at 900, 1,000, 1,500 and 2,300 ms. In its round the timer fires before the
/// datagram is delivered.
pub fn timers_fire_in_their_rounds()
    ensures { (r : Round) (incoming : Incoming)
        → timed_arrivals_in
        (record r { now = 2300; received = Some incoming } ∷ record r { now = 1500; received = None } ∷ record r { now = 1000; received = None } ∷ record r { now = 900; received = Some incoming } ∷ [])
        (record { every = 1000; slot = 7; due = 1000; offloaded = false } ∷ [])
        ≡ Datagram 900 incoming ∷ Beat 1000 7 ∷ Silence 1000 ∷ Silence 1500 ∷ Beat 2300 7 ∷ Datagram 2300 incoming ∷ [] }
{}

/// The answer of a timer's job is sent to nobody, by a worker either.
///
/// It is stored in no exchange, and draws no message ID: of the front only the time changes.
pub fn workers_send_no_answer_of_a_timer()
    ensures { (now slot : ℕ) (content : Content) (sent : Option Emission) (before after : FrontState) → AnswersAt now (timer_job slot) content sent before after
        → (sent ≡ None) × (after ≡ advanced before now) }
{}

/// All lines that a server on one thread plays are one history of events.
///
/// Exactly the datagrams of the lines are delivered, in order, each at its line's time. Time passes
/// at the times of the other lines. Exactly the emissions of the events are printed.
pub fn played_lines_are_one_history()
    ensures history { (begin : Begin) (had before after : Option (List ℕ)) (w : IsPlayedOut begin had before after)
        → IsOneHistory (begin_of begin) (arrivals_in_lines w.played.lines) (sent_in_lines w.played.lines) w.last.engine }
    ensures printed { (lines : List PlayedLine) → printed_lines lines ≡ flat_map printed (sent_in_lines lines) }
{}

/// A later start begins at a higher serial.
///
/// It is higher by at least 32 for each millisecond between the starts, and by at least 2^24 from a
/// second on. Times are milliseconds since the beginning of 1970, up to 2^48. A server that started
/// at 0 begins at serial 0, a millisecond later at 32, and a second later at 2^24 + 32,000.
pub fn later_starts_begin_higher()
    ensures first { (serial_of_start 0 ≡ 0) × (serial_of_start 1 ≡ 32) × (serial_of_start 1000 ≡ 16777216 + 32000) }
    ensures millisecond { (first second : ℕ) → first ≤ second → second ≤ 281474976710656
        → serial_of_start first + 32 * (second - first) ≤ serial_of_start second }
    ensures second { (first second : ℕ) → first + 1000 ≤ second → second ≤ 281474976710656 → serial_of_start first + 16777216 ≤ serial_of_start second }
{}

/// A server that is started again sends newer sequence numbers of Observe.
///
/// An observer takes a notification for newer by RFC 7641, section 3.4, if its number is newer than
/// the last. So a number after the later start is newer than one from before it, within 256 s, if
/// the slot changed fewer than 32 times for each millisecond between the starts.
pub fn restarts_keep_the_order_of_observe()
    ensures { (first second changes : ℕ) → second ≤ first + 256000 → second ≤ 281474976710656 → changes < 32 * (second - first)
        → IsNewerNumber ((serial_of_start first + changes) % 16777216) (serial_of_start second % 16777216) }
{}

/// A server with one worker counts the replies of its rounds, of the worker and of the dispatcher.
///
/// The rounds sent one reply immediately. The worker sent two and failed to send eight, and the
/// dispatcher's jobs sent four and failed to send sixteen.
pub fn replies_of_all_threads_are_counted<
    Z: Sensors,
    S: Source,
    M: TimeSource,
    K: Sink,
    C: Recorder,
    Q: Reporter,
    P: Store,
>()
    ensures { (first : ServerState) (timers : List Timer) (every : Option ℕ) (limit : ℕ) (persistent : Bool) (start : ServerState) (stored : StoredSlots) (before after : Option (List Receive)) (replies : Replies) (one : Share Tallies)
        → (w : HasServedPooled (served_view Z.are_sensed (round_calls S.received M.is_time K.went) C.recorded (HasSaved P.Store) first) timers every Q.reported (round_calls S.received M.is_time K.went) 1 limit persistent start (HaveSavedOrder P.Store start stored) before after replies)
        → w.shares ≡ one ∷ [] → w.at_once ≡ record { sent = 1; failed = 0 } → one.sent ≡ 2 → one.failed ≡ 8
        → w.last.done.share.sent ≡ 4 → w.last.done.share.failed ≡ 16 → replies ≡ record { sent = 7; failed = 24 } }
{}

/// The one history of a server with workers has its dispatcher's calls, with timers and reports
/// too.
///
/// It begins in the first state of the server, of empty slots or of restored ones.
/// The dispatcher's log is the one that the last round left. `reported` is of a server with
/// reports, `timed` of one with timers, and `both` of one with both.
pub fn the_order_has_the_dispatchers_calls<
    Z: Sensors,
    S: Source,
    M: TimeSource,
    K: Sink,
    C: Recorder,
    Q: Reporter,
    P: Store,
>()
    ensures reported { (first : ServerState) (every workers limit : ℕ) (persistent : Bool) (start : ServerState) (stored : StoredSlots) (before after : Option (List Receive)) (replies : Replies)
        → (w : HasServedPooled (served_view Z.are_sensed (round_calls S.received M.is_time K.went) C.recorded (HasSaved P.Store) first) [] (Some every) Q.reported (round_calls S.received M.is_time K.went) workers limit persistent start (HaveSavedOrder P.Store start stored) before after replies)
        → HaveLegalOrder start (logs_of w.shares w.run.reporting.ingress.done.share) w.closed }
    ensures timed { (first : ServerState) (t : Timer) (ts : List Timer) (workers limit : ℕ) (persistent : Bool) (start : ServerState) (stored : StoredSlots) (before after : Option (List Receive)) (replies : Replies)
        → (w : HasServedPooled (served_view Z.are_sensed (round_calls S.received M.is_time K.went) C.recorded (HasSaved P.Store) first) (t ∷ ts) None Q.reported (round_calls S.received M.is_time K.went) workers limit persistent start (HaveSavedOrder P.Store start stored) before after replies)
        → HaveLegalOrder start (logs_of w.shares w.run.firing.ingress.done.share) w.closed }
    ensures both { (first : ServerState) (t : Timer) (ts : List Timer) (every workers limit : ℕ) (persistent : Bool) (start : ServerState) (stored : StoredSlots) (before after : Option (List Receive)) (replies : Replies)
        → (w : HasServedPooled (served_view Z.are_sensed (round_calls S.received M.is_time K.went) C.recorded (HasSaved P.Store) first) (t ∷ ts) (Some every) Q.reported (round_calls S.received M.is_time K.went) workers limit persistent start (HaveSavedOrder P.Store start stored) before after replies)
        → HaveLegalOrder start (logs_of w.shares w.run.run.reporting.ingress.ingress.done.share) w.closed }
{}

/// Each datagram that a server with workers received is delivered in its one history, once.
///
/// The datagrams are delivered in the order of the rounds, each whole, from its sender and at its
/// round's time. No other datagram is delivered. `untimed` is of a server without timers and
/// reports, `reported` of one with reports, `timed` of one with timers, and `both` of one with
/// both.
pub fn received_datagrams_are_delivered<
    Z: Sensors,
    S: Source,
    M: TimeSource,
    K: Sink,
    C: Recorder,
    Q: Reporter,
    P: Store,
>()
    ensures untimed { (first : ServerState) (workers limit : ℕ) (persistent : Bool) (start : ServerState) (stored : StoredSlots) (before after : Option (List Receive)) (replies : Replies)
        → (w : HasServedPooled (served_view Z.are_sensed (round_calls S.received M.is_time K.went) C.recorded (HasSaved P.Store) first) [] None Q.reported (round_calls S.received M.is_time K.went) workers limit persistent start (HaveSavedOrder P.Store start stored) before after replies)
        → deliveries_in w.order.order.calls ≡ deliveries_of w.run.rounds }
    ensures reported { (first : ServerState) (every : ℕ) (workers limit : ℕ) (persistent : Bool) (start : ServerState) (stored : StoredSlots) (before after : Option (List Receive)) (replies : Replies)
        → (w : HasServedPooled (served_view Z.are_sensed (round_calls S.received M.is_time K.went) C.recorded (HasSaved P.Store) first) [] (Some every) Q.reported (round_calls S.received M.is_time K.went) workers limit persistent start (HaveSavedOrder P.Store start stored) before after replies)
        → deliveries_in w.order.order.calls ≡ deliveries_of w.run.run.rounds }
    ensures timed { (first : ServerState) (t : Timer) (ts : List Timer) (workers limit : ℕ) (persistent : Bool) (start : ServerState) (stored : StoredSlots) (before after : Option (List Receive)) (replies : Replies)
        → (w : HasServedPooled (served_view Z.are_sensed (round_calls S.received M.is_time K.went) C.recorded (HasSaved P.Store) first) (t ∷ ts) None Q.reported (round_calls S.received M.is_time K.went) workers limit persistent start (HaveSavedOrder P.Store start stored) before after replies)
        → deliveries_in w.order.order.calls ≡ deliveries_of w.run.run.rounds }
    ensures both { (first : ServerState) (t : Timer) (ts : List Timer) (every : ℕ) (workers limit : ℕ) (persistent : Bool) (start : ServerState) (stored : StoredSlots) (before after : Option (List Receive)) (replies : Replies)
        → (w : HasServedPooled (served_view Z.are_sensed (round_calls S.received M.is_time K.went) C.recorded (HasSaved P.Store) first) (t ∷ ts) (Some every) Q.reported (round_calls S.received M.is_time K.went) workers limit persistent start (HaveSavedOrder P.Store start stored) before after replies)
        → deliveries_in w.order.order.calls ≡ deliveries_of w.run.run.run.rounds }
{}

/// A server runs all jobs on one thread only with one worker and without a persistent store.
///
/// With workers, programs of 6,000 steps and more are expensive. With a persistent store, jobs that
/// may change a slot also go to the workers.
pub fn persistent_stores_have_workers()
    ensures one { IsOneThread 1 false }
    ensures saved { IsOneThread 1 true → ⊥ }
    ensures two { IsOneThread 2 false → ⊥ }
    ensures changes { offload_of true ≡ ChangesAndExpensive 6000 }
    ensures runs { offload_of false ≡ Expensive 6000 }
{}

/// A start raises stored serials to that of its time, or to one more than the greatest of them.
///
/// A server that starts one second after the beginning of 1970 raises the serial 5 to 16,809,216.
/// Over the serials 5 and 9, a server that starts at the beginning of 1970 has each slot at 10.
/// A start begins above each stored serial below the last, whatever its time. So it also begins
/// above the serial that an earlier start saved with slot 0, even if its clock shows an earlier
/// time.
pub fn starts_raise_serials()
    ensures time { raised_at 1000 (record { serial = 5; program = None } ∷ record { serial = 9; program = None } ∷ []) 0 ≡ record { serial = 16809216; program = None } }
    ensures next { raised_at 0 (record { serial = 5; program = None } ∷ record { serial = 9; program = None } ∷ []) 0 ≡ record { serial = 10; program = None } }
    ensures last { raised_at 0 (record { serial = 5; program = None } ∷ record { serial = 9; program = None } ∷ []) 1 ≡ record { serial = 10; program = None } }
    ensures above { (ms n : ℕ) (stored : List StoredSlot) → (stored_in stored n).serial < last_serial → (stored_in stored n).serial < serial_over ms stored }
    ensures again { (first second : ℕ) (k : StoredSlot) (ks : List StoredSlot) → serial_over first (k ∷ ks) < last_serial
        → serial_over first (k ∷ ks) < serial_over second (record k { serial = serial_over first (k ∷ ks) } ∷ ks) }
{}

/// A start begins above each serial that was saved before, whatever its time.
///
/// An earlier start saved its serial. Then the store was asked for further saves, none of which
/// lowers a serial, until the machine stopped. So far the medium had returned the data that was
/// written to it. A start over the slots that are found begins above the serial of the earlier
/// start, and above the last serial that was stored of each slot.
pub fn starts_begin_above_saved_serials<S: Store>()
    ensures start { (ms serial : ℕ) (program : Option StoredProgram) (old new last : S) (saves : List Save) (found : StoredSlots) (stored : List StoredSlot)
        → S.Store.persistent ≡ true → S.Store.is_ready old → SavesSerial S.Store serial program true old new
        → SavesAll S.Store saves new last → AreRising saves (S.Store.stored new) → S.Store.is_clean last
        → S.Store.may_recover last found → AreSameSlots (stored_in stored) found
        → serial < last_serial → serial < serial_over ms stored }
    ensures changes { (ms serial : ℕ) (program : Option StoredProgram) (old new last : S) (saves : List Save) (found : StoredSlots) (stored : List StoredSlot)
        → S.Store.persistent ≡ true → S.Store.is_ready old → SavesSerial S.Store serial program true old new
        → SavesAll S.Store saves new last → AreRising saves (S.Store.stored new) → S.Store.is_clean last
        → S.Store.may_recover last found → AreSameSlots (stored_in stored) found
        → (n : ℕ) → n < 64 → (S.Store.stored last n).serial < last_serial → (S.Store.stored last n).serial < serial_over ms stored }
{}

/// A start after a crash finds the slots that a server with workers has served.
///
/// The server was restored from its persistent store, so the program of each slot is the stored one
/// (`begun`). Some history leaves the server's first state without jobs, and the one order of the
/// calls continues it. The machine stops at some place of the order: after the calls `earlier`, and
/// before `later`. So far the medium has returned the data that was written to it. Then a start
/// finds the slots of the longer history, which has the calls up to there. It may also find one
/// update that was refused since the last one was stored (`found`). A slot that hasn't changed
/// since the start may have another serial than the found one.
pub fn starts_find_what_was_served<
    Z: Sensors,
    S: Source,
    M: TimeSource,
    K: Sink,
    C: Recorder,
    Q: Reporter,
    P: Store,
>()
    ensures begun { (stored : StoredSlots) (start : ServerState) → IsRestoredFrom stored start → AreStoredAtFirst start stored }
    ensures found { (timers : List Timer) (every : Option ℕ) (workers limit : ℕ) (start : ServerState) (stored : StoredSlots) (before after : Option (List Receive)) (replies : Replies) (h : History) (earlier later : List FiledEntry)
        → (w : HasServedPooled (served_view Z.are_sensed (round_calls S.received M.is_time K.went) C.recorded (HasSaved P.Store) start) timers every Q.reported (round_calls S.received M.is_time K.went) workers limit P.persistent start (HaveSavedOrder P.Store start stored) before after replies)
        → P.persistent ≡ true → AreStoredAtFirst start stored → Serves h start [] → w.order.order.calls ≡ earlier ++ later
        → FindsHistory P.Store start stored w.saved.before w.saved.after earlier later (history_on h (log_of (first_brought (10 + length (logs_of w.shares w.last.done.share))) earlier)) }
{}

/// The next start begins with the programs of the history, if a crash comes at any place of it.
///
/// At this place a start finds the slots of the history `h` (`FindsHistory`), and the medium is
/// clean. A crash leaves the slots `found`, and the next start restores them. Then each slot has
/// the program, the version and the variables that the history leaves in it, or an update of the
/// slot was refused. If the update of slot 5 was refused, and that of slot 6 was stored, slot 6 has
/// no refused update.
pub fn next_starts_begin_as_served<P: Store>()
    ensures begins { (first next : ServerState) (stored found : StoredSlots) (opened closed : P) (calls later : List FiledEntry) (h : History)
        → (finds : FindsHistory P.Store first stored opened closed calls later h) → AreStoredAtFirst first stored
        → P.Store.is_clean finds.store → P.Store.may_recover finds.store found → IsRestoredFrom found next
        → (n : ℕ) → n < 64 → ((slot_in_shards next.shards n).present ≡ (slot_at (seen h) n).present) ⊎ RefusesSlot (saves_of calls) n }
    ensures refused { (a b : ProgramUpdate) → RefusesSlot (refuses 5 9 b ∷ stores 6 8 a ∷ []) 5 }
    ensures other { (a b : ProgramUpdate) → RefusesSlot (refuses 5 9 b ∷ stores 6 8 a ∷ []) 6 → ⊥ }
{}

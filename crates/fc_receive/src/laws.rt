//! Consequences of the definitions of rounds: each function's contract is a law.
ghost use Rattle.std.specs.Prelude.{◌≡◌, ◌≢◌, ◌+◌, ◌*◌, ◌/◌, ◌%◌, ◌<◌, ◌≤◌, ◌↔◌, ◌⊎◌, ℕ, Bool, List, [], ◌∷◌, None, Option, Some, false, is_none, length, true};
ghost use Rattle.fc_front.specs.declared.front.Handled.TheVariants.{Job, Nothing, Reply, Signal};
ghost use Rattle.fc_observe.specs.declared.observers.Ticked.{Ticked};
ghost use Rattle.fc_observe.specs.declared.observers.Ticked.TheVariants.{Quiet};
ghost use Rattle.fc_registry.specs.Shards.{shard_at};
ghost use Rattle.fc_registry.specs.Watches.{at_time, overdue_place, watch_at};
ghost use Rattle.fc_server.specs.Notified.{Nobody, Notified};
ghost use Rattle.fc_server.specs.Steps.{shard_turn};
ghost use Rattle.fc_host.specs.Timers.{put_off};
ghost use Rattle.fc_host.specs.declared.timer.Timer.{Timer};
ghost use Rattle.fc_server.specs.declared.engine.FireOutcome.{FireOutcome};
ghost use Rattle.fc_server.specs.declared.gauges.Gauges.{Gauges};
ghost use Rattle.std.specs.List.{All};
ghost use Rattle.fc_server.specs.SingleThread.{NotifiesAlone, ResendsAlone};
ghost use Rattle.fc_receive.specs.Firing.{AreFired, Firing, FiresIfDue, fired_calls, is_offloaded};
ghost use Rattle.fc_server.specs.Gauges.{observers_of};
ghost use Rattle.fc_server.specs.Ingresses.{is_reply};
ghost use Rattle.fc_front.specs.Gauges.{gauges_at};
ghost use Rattle.fc_record.specs.Recording.{Recording, recorded_calls};
ghost use Rattle.fc_record.specs.Reports.{nothing_counted};
ghost use Rattle.fc_receive.specs.Reporting.{Reporting, ReportsIfDue, reported_calls, reporting_from};
ghost use Rattle.fc_backend.specs.declared.call_log.CallLog.{CallLog};
ghost use Rattle.fc_receive.specs.Rounds.{EndsInTime, Round, WaitsAfter, until_due};
ghost use Rattle.fc_server.specs.Flushing.{most_steps};
ghost use Rattle.fc_server.specs.declared.alone.SingleThread.{SingleThread};

use fc_host::laws::no_timer_is_due_before_the_first;
use fc_record::{Recorder, Reporter};
use fc_server::Ingress;
use fc_server::flush::STEPS;

/// The work at one time has more steps than all shards and observers need.
///
/// Each of the 32 observers of 64 slots gets at most one retransmission and one notification. Each
/// of 8 shards returns once that no notification has timed out, and once that no observer has a
/// pending one.
pub fn flushing_has_steps_for_all()
    ensures { 64 * (32 + 32) + 8 * 2 ≤ most_steps }
{}

/// The work at one time has at most 8,192 steps, in code and definition.
pub fn flushing_takes_8192_steps()
    ensures code { STEPS ≡ 8192 }
    ensures definition { most_steps ≡ 8192 }
{}

/// The receiver sends immediate responses.
///
/// It doesn't send a job's reply, a signal, or anything for an ignored datagram.
pub fn replies_are_sent_by_the_receiver()
    ensures reply { is_reply Reply ≡ true }
    ensures job { is_reply Job ≡ false }
    ensures signal { (id : ℕ) (reset : Bool) → is_reply (Signal id reset) ≡ false }
    ensures nothing { is_reply Nothing ≡ false }
{}

/// The results of shards of a server on one thread are true.
///
/// A shard returns that no notification has timed out exactly if none of its slots' notifications
/// has. It returns that no observer has a pending notification exactly if it has no lease to give.
pub fn shards_tell_what_is_so()
    ensures overdue { (shard now : ℕ) (old new : SingleThread) (ticked : Ticked) → ResendsAlone shard now old new ticked
        → ((ticked ≡ Quiet) ↔ (overdue_place (at_time (shard_at old.engine.shards (shard % 8)) now) ≡ None)) }
    ensures due { (shard now : ℕ) (old new : SingleThread) (told : Notified) → NotifiesAlone shard now old new told
        → ((told ≡ Nobody) ↔ (shard_turn now (shard_at old.engine.shards (shard % 8)) ≡ None)) }
{}

/// The first receive waits 100 ms, or until a timer is due before that.
///
/// A server without timers waits 100 ms, and so does a server on one thread, with reports or
/// without. With a timer of 20 ms a server waits 20 ms.
pub fn first_wait_is_100_ms<N: Ingress, C: Recorder, Q: Reporter>()
    ensures without { (left : N) (wait : Option ℕ) → ((due : ℕ) → N.calls.is_first_due left due → due ≡ 18446744073709551615) → WaitsAfter N.calls [] left wait → wait ≡ Some 100 }
    ensures timer { (left : N) (wait : Option ℕ) → ((due : ℕ) → N.calls.is_first_due left due → due ≡ 20) → WaitsAfter N.calls [] left wait → wait ≡ Some 20 }
    ensures later { (left : N) (wait : Option ℕ) → ((due : ℕ) → N.calls.is_first_due left due → due ≡ 1000) → WaitsAfter N.calls [] left wait → wait ≡ Some 100 }
    ensures alone { (left : Recording) (wait : Option ℕ) → WaitsAfter (recorded_calls C.recorded) [] left wait → wait ≡ Some 100 }
    ensures alone_reported { (left : Reporting Recording) (wait : Option ℕ) → WaitsAfter (reported_calls Q.reported (recorded_calls C.recorded)) [] left wait → wait ≡ Some 100 }
{}

/// The next receive waits 100 ms, or until the earliest time of the eight shards.
///
/// After a round that received a datagram, it waits 100 ms. After an idle round, the wait lasts
/// until the earliest time that one of the eight shards returned, and at least 100 ms. It is
/// unlimited only if each shard returned 2^64 - 1 ms, which isn't a time. So an idle server sleeps,
/// and doesn't wake up before there may be work.
pub fn waits_end_in_time()
    ensures received { (told : ℕ → ℕ) (now : ℕ) (wait : Option ℕ) → EndsInTime (λ shard until. until ≡ told shard) now false wait → wait ≡ Some 100 }
    ensures soon { (told : ℕ → ℕ) (now shard : ℕ) (wait : Option ℕ) → shard < 8 → told shard ≤ now + 100 → now + 100 < 18446744073709551615
        → EndsInTime (λ shard until. until ≡ told shard) now true wait → wait ≡ Some 100 }
    ensures later { (told : ℕ → ℕ) (now shard later : ℕ) (wait : Option ℕ) → shard < 8 → told shard ≡ now + later → 100 ≤ later → now + later < 18446744073709551615
        → ((other : ℕ) → other < 8 → now + later ≤ told other) → EndsInTime (λ shard until. until ≡ told shard) now true wait → wait ≡ Some later }
    ensures endless { (told : ℕ → ℕ) (now : ℕ) (wait : Option ℕ) → ((shard : ℕ) → shard < 8 → told shard ≡ 18446744073709551615)
        → EndsInTime (λ shard until. until ≡ told shard) now true wait → wait ≡ None }
{}

/// The timers that are due in a round fire in their order.
///
/// In a round at 5,300 ms, timers that are due at 5,000 and 5,200 ms fire one after the other, once
/// each. A timer that is due at 7,000 ms remains as it is.
pub fn due_timers_fire_in_order<N: Ingress>()
    ensures both { (t u : Timer) (new : List Timer) (before after : N) → t.due ≡ 5000 → u.due ≡ 5200 → t.offloaded ≡ false → u.offloaded ≡ false
        → AreFired N.calls 5300 (t ∷ u ∷ []) new before after
        → (mid : N) × (first : FireOutcome) × (second : FireOutcome) × N.calls.fires t.slot 5300 before mid first × N.calls.fires u.slot 5300 mid after second
        × (new ≡ record (put_off 5300 t) { offloaded = is_offloaded first } ∷ record (put_off 5300 u) { offloaded = is_offloaded second } ∷ []) }
    ensures first { (t u : Timer) (new : List Timer) (before after : N) → t.due ≡ 5000 → u.due ≡ 7000 → t.offloaded ≡ false
        → AreFired N.calls 5300 (t ∷ u ∷ []) new before after
        → (outcome : FireOutcome) × N.calls.fires t.slot 5300 before after outcome × (new ≡ record (put_off 5300 t) { offloaded = is_offloaded outcome } ∷ u ∷ []) }
    ensures second { (t u : Timer) (new : List Timer) (before after : N) → t.due ≡ 7000 → u.due ≡ 5000 → u.offloaded ≡ false
        → AreFired N.calls 5300 (t ∷ u ∷ []) new before after
        → (outcome : FireOutcome) × N.calls.fires u.slot 5300 before after outcome × (new ≡ t ∷ record (put_off 5300 u) { offloaded = is_offloaded outcome } ∷ []) }
{}

/// A timer skips a beat only if its last job was sent to a worker.
///
/// A timer of slot 7 that is due at 5,000 ms fires once in a round at 5,300 ms, by one call of the
/// server, for slot 7. If its last job was sent to a worker, it fires once or skips the beat, and
/// is due at 6,000 ms in either case.
pub fn timers_skip_beats_only_for_a_worker<N: Ingress>()
    ensures free { (t u : Timer) (before after : N) → t.due ≡ 5000 → t.offloaded ≡ false → FiresIfDue N.calls 5300 t u before after
        → (outcome : FireOutcome) × N.calls.fires t.slot 5300 before after outcome × (u ≡ record (put_off 5300 t) { offloaded = is_offloaded outcome }) }
    ensures early { (t u : Timer) (before after : N) → t.due ≡ 5000 → FiresIfDue N.calls 4999 t u before after → (u ≡ t) × (after ≡ before) }
    ensures offloaded { (t u : Timer) (before after : N) → t.every ≡ 1000 → t.due ≡ 5000 → t.offloaded ≡ true → FiresIfDue N.calls 5300 t u before after
        → (u.due ≡ 6000) × (((outcome : FireOutcome) × N.calls.fires t.slot 5300 before after outcome × (u.offloaded ≡ is_offloaded outcome)) ⊎ ((after ≡ before) × (u.offloaded ≡ true))) }
{}

/// A wait ends when the first timer is due.
///
/// At 4,200 ms a wait lasts 800 ms if the first timer is due at 5,000 ms, and is at least 1 ms. It
/// isn't longer than it would be without timers, and without timers it is the same.
pub fn waits_end_when_a_timer_is_due<N: Ingress>()
    ensures endless { until_due 4200 5000 None ≡ Some 800 }
    ensures longer { until_due 4200 5000 (Some 900) ≡ Some 800 }
    ensures shorter { until_due 4200 5000 (Some 100) ≡ Some 100 }
    ensures soon { until_due 4970 5000 (Some 100) ≡ Some 30 }
    ensures least { until_due 5000 5000 (Some 100) ≡ Some 1 }
    ensures without { (now : ℕ) (wait : Option ℕ) → until_due now 18446744073709551615 wait ≡ wait }
    ensures first { (due : ℕ) (f : Firing N) → (fired_calls N.calls).is_first_due f due → All (λ t. due ≤ t.due) f.timers }
    ensures earliest { (due : ℕ) (f : Firing N) (t u : Timer) → t.due ≡ 5000 → u.due ≡ 7000 → f.timers ≡ t ∷ u ∷ [] → ((own : ℕ) → N.calls.is_first_due f.ingress own → own ≡ 18446744073709551615)
        → (fired_calls N.calls).is_first_due f due → due ≡ 5000 }
    ensures own { (due : ℕ) (f : Firing N) (t : Timer) → t.due ≡ 5000 → f.timers ≡ t ∷ [] → ((own : ℕ) → N.calls.is_first_due f.ingress own → own ≡ 4600)
        → (fired_calls N.calls).is_first_due f due → due ≡ 4600 }
{
    no_timer_is_due_before_the_first();
}

/// The next receive of a server with timers waits until the first of them is due.
///
/// Timers are due at 5,000 and 7,000 ms, and the server that they fire has no timer of its own.
/// After a round at 4,190 ms that ended at 4,200 ms the next receive waits 100 ms if a datagram was
/// received, and 50 ms after one that ended at 4,950 ms. If none was received and no shard has
/// work, it waits 800 ms. With timers the clock is read at the end of each round, and without
/// timers it isn't.
pub fn receives_end_when_a_timer_is_due<N: Ingress>()
    ensures received { (f : Firing N) (t u : Timer) (r : Round) (rs : List Round) (wait : Option ℕ) → t.due ≡ 5000 → u.due ≡ 7000 → f.timers ≡ t ∷ u ∷ []
        → ((own : ℕ) → N.calls.is_first_due f.ingress own → own ≡ 18446744073709551615) → r.now ≡ 4190 → r.ended ≡ Some 4200 → is_none r.received ≡ false
        → WaitsAfter (fired_calls N.calls) (r ∷ rs) f wait → wait ≡ Some 100 }
    ensures soon { (f : Firing N) (t u : Timer) (r : Round) (rs : List Round) (wait : Option ℕ) → t.due ≡ 5000 → u.due ≡ 7000 → f.timers ≡ t ∷ u ∷ []
        → ((own : ℕ) → N.calls.is_first_due f.ingress own → own ≡ 18446744073709551615) → r.now ≡ 4190 → r.ended ≡ Some 4950 → is_none r.received ≡ false
        → WaitsAfter (fired_calls N.calls) (r ∷ rs) f wait → wait ≡ Some 50 }
    ensures idle { (f : Firing N) (t u : Timer) (r : Round) (rs : List Round) (wait : Option ℕ) → t.due ≡ 5000 → u.due ≡ 7000 → f.timers ≡ t ∷ u ∷ []
        → ((own : ℕ) → N.calls.is_first_due f.ingress own → own ≡ 18446744073709551615)
        → ((shard until : ℕ) → N.calls.stays_idle shard f.ingress until → until ≡ 18446744073709551615) → r.now ≡ 4190 → r.ended ≡ Some 4200 → is_none r.received ≡ true
        → WaitsAfter (fired_calls N.calls) (r ∷ rs) f wait → wait ≡ Some 800 }
    ensures read { (f : Firing N) (t u : Timer) (r : Round) (rs : List Round) (wait : Option ℕ) → t.due ≡ 5000 → u.due ≡ 7000 → f.timers ≡ t ∷ u ∷ []
        → ((own : ℕ) → N.calls.is_first_due f.ingress own → own ≡ 18446744073709551615) → WaitsAfter (fired_calls N.calls) (r ∷ rs) f wait → r.ended ≢ None }
    ensures unread { (left : N) (r : Round) (rs : List Round) (wait : Option ℕ) → ((due : ℕ) → N.calls.is_first_due left due → due ≡ 18446744073709551615)
        → WaitsAfter N.calls (r ∷ rs) left wait → r.ended ≡ None }
{}

/// A report is made when it is due or later, once, and an idle server wakes up for it.
///
/// A server that reports each minute makes no report before 60,000 ms. At 61,500 ms, with nothing
/// counted, it reports that, once, with the gauges of this time, and the next report is due at
/// 121,500 ms. No server is idle for longer than until its next report is due.
pub fn reports_come_in_time<N: Ingress, Q: Reporter>()
    ensures early { (s : N) (log : CallLog) (new : Reporting N) → ReportsIfDue Q.reported N.calls 59999 (reporting_from 60000 log s) new → new ≡ reporting_from 60000 log s }
    ensures overdue { (s : N) (log : CallLog) (new : Reporting N) → ReportsIfDue Q.reported N.calls 61500 (reporting_from 60000 log s) new
        → (gauges : Gauges) × N.calls.tells_gauges 61500 s gauges
        × (after : CallLog) × Q.reported (record nothing_counted { gauges = gauges }) log after
        × (new ≡ record { ingress = s; report = record nothing_counted { gauges = gauges }; every = 60000; due = 121500; log = after }) }
    ensures awake { (shard until : ℕ) (now : Reporting N) → (reported_calls Q.reported N.calls).stays_idle shard now until → until ≤ now.due }
{}

/// The gauges of a server on one thread are its own.
///
/// They are those of its front at the time of the report. The observers of slot n are those in its
/// list, at place n / 8 of shard n mod 8. No job was sent to a worker.
pub fn gauges_of_one_thread_are_its_own<C: Recorder>()
    ensures front { (now : ℕ) (s : Recording) (gauges : Gauges) → (recorded_calls C.recorded).tells_gauges now s gauges → gauges.front ≡ gauges_at now s.alone.engine.front }
    ensures observers { (now n : ℕ) (s : Recording) (gauges : Gauges) → n < 64 → (recorded_calls C.recorded).tells_gauges now s gauges
        → observers_of gauges.observers.shards n ≡ length (watch_at (shard_at s.alone.engine.shards (n % 8)) (n / 8)).held }
    ensures offloaded { (now : ℕ) (s : Recording) (gauges : Gauges) → (recorded_calls C.recorded).tells_gauges now s gauges → gauges.offloaded ≡ 0 }
{}

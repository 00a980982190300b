//! Rounds of a server: receive a datagram, retransmit, and notify observers.
ghost use Rattle.std.specs.Prelude.{◌≡◌, ⊤, ℕ, [], ◌∷◌, List, Option};
ghost use Rattle.std.specs.Option.{option_to_list};
ghost use Rattle.coap_msg.specs.declared.types.Emission.{Emission};
ghost use Rattle.fc_front.specs.Receiving.{emission_if};
ghost use Rattle.fc_receive.specs.Handling.{IsHandledBy};
ghost use Rattle.fc_receive.specs.Rounds.{EndsByTimer, EndsInTime, HasRun, IsReadIfAny, round_calls, until_due};
ghost use Rattle.fc_server.specs.Flushing.{AreIdleUntil, AreFlushed, AreStepsBy, FlushingStep, sent_in_steps};
ghost use Rattle.fc_receive.specs.Traffic.{Sends};

use coap_msg::{Emission, Endpoint};
use fc_backend::{CallLog, TimeSource};
use fc_front::front::blank_emission;
use fc_host::socket::{BUFFER, SHORTEST_WAIT, Sink, Source};
use fc_pool::{Replies, SentReplies};
use fc_server::Ingress;
use fc_server::flush::{Flushing, STEPS, idle_until};
use fc_server::ingress::is_reply;
use std::sync::Wait;

/// Work on an ingress at the start of a round.
pub trait Preparation<N: Ingress> {
    // An ingress was prepared for a round at a time: the ingress before and after.
    ghost readies: { ℕ → N → N → Type 0 } = { λ now old new. ⊤ };

    /// Prepares an ingress for a round at `now`, in milliseconds.
    fn ready<R: Wait>(&self, rt: &R, ingress: &mut N, now: u64)
        ensures { readies now ingress.old ingress.new };
}

/// No preparation: the readings of a job are read when it runs.
#[derive(Drop)]
pub struct Unprepared;

impl<N: Ingress> Preparation<N> for Unprepared {
    ghost readies = { λ now old new. new ≡ old };

    fn ready<R: Wait>(&self, rt: &R, ingress: &mut N, now: u64) {
        let _ = rt;
        let _ = ingress;
        let _ = now;
    }
}

/// Receives `limit` datagrams, or never ends if `limit` is 0. Counts the replies.
///
/// Each datagram is handled in order, before the next is received, and answered unless it needs a
/// worker. After each datagram, and after each receive without one, notifications that have timed
/// out are retransmitted. Then observers with pending notifications are notified. A receive waits
/// 100 ms. After a round without a datagram, the next waits until the earliest time at which there
/// may be work, or without limit. Each wait ends when a timer of the server is due. The result
/// counts the replies passed to the sink, once each.
pub(crate) fn run_rounds<R: Wait, N: Ingress, P: Preparation<N>, S: Source, K: Sink, M: TimeSource>(
    rt: &R,
    ingress: &mut N,
    preparation: &P,
    source: &mut S,
    sink: &K,
    times: &M,
    limit: u32,
) -> Replies
    ensures { HasRun P.readies N.calls (round_calls S.received M.is_time K.went) limit (S.came source.old) (S.came source.new) ingress.old ingress.new result }
{
    let mut reply = blank_emission();
    let mut buffer = [0; BUFFER];
    let mut replied = SentReplies::new();
    let mut received = 0u32;
    let mut wait = until_due(0, ingress.first_due(), Some(SHORTEST_WAIT));
    for _ in rt.forever() {
        if limit > 0 && received >= limit {
            break;
        }
        let came = source.receive(wait, &mut buffer, &mut replied.log);
        let idle = came.is_none();
        let now = times.now(rt, &mut replied.log);
        preparation.ready(rt, ingress, now);
        match came {
            Some((count, from)) => {
                received = received.saturating_add(1);
                let bytes = &buffer[..count];
                handle(ingress, now, from, bytes, &mut reply, sink, &mut replied);
            }
            None => ingress.tick(now),
        }
        flush(ingress, now, &mut reply, sink, &mut replied);
        wait = next_wait(rt, ingress, times, now, idle, &mut replied.log);
    }
    replied.replies
}

// Returns how long the next receive waits after a round at `now`, in milliseconds. `None` is
// unlimited. The wait ends when the first of the server's own timers is due. If there is one, the
// clock is read, and the wait is counted from that time.
fn next_wait<R: Wait, N: Ingress, M: TimeSource>(
    rt: &R,
    ingress: &N,
    times: &M,
    now: u64,
    idle: bool,
    log: &mut CallLog,
) -> Option<u64>
    ensures { (ended : Option ℕ) × EndsByTimer N.calls ingress.now now ended idle result × IsReadIfAny M.is_time ended log.old log.new }
{
    let wait = next_call(ingress, now, idle);
    let due = ingress.first_due();
    if due == u64::MAX {
        return wait;
    }
    let ended = times.now(rt, log);
    until_due(ended, due, wait)
}

// Returns how long the next receive waits if the server has no timer, in milliseconds. After a
// round that received a datagram the wait is 100 ms, and no shard is called. After an idle round it
// lasts until the earliest time at which there may be work, and at least 100 ms. `None` means that
// no shard expects work, so the wait is unlimited.
fn next_call<N: Ingress>(ingress: &N, now: u64, idle: bool) -> Option<u64>
    ensures { EndsInTime (λ shard until. N.calls.stays_idle shard ingress.now until) now idle result }
{
    if !idle {
        return Some(SHORTEST_WAIT);
    }
    match idle_until(ingress) {
        u64::MAX => None,
        until => Some(until.saturating_sub(now).max(SHORTEST_WAIT)),
    }
}

// Shortens a wait that begins at `now` to end at `due`, and to at least 1 ms. Both times are in
// milliseconds. A wait of `None` is unlimited. If `due` is 2^64 - 1, the wait isn't shortened.
fn until_due(now: u64, due: u64, wait: Option<u64>) -> Option<u64>
    ensures { result ≡ until_due now due wait }
{
    if due == u64::MAX {
        return wait;
    }
    let most = due.saturating_sub(now).max(1);
    Some(match wait {
        Some(wait) => wait.min(most),
        None => most,
    })
}

// Handles a datagram at `now`, in milliseconds, and sends its immediate response, if there is one.
// The response is written over `reply`, and counted in `replied`.
fn handle<N: Ingress, K: Sink>(
    ingress: &mut N,
    now: u64,
    from: Endpoint,
    bytes: &[u8],
    reply: &mut Emission,
    sink: &K,
    replied: &mut SentReplies,
)
    ensures { (sent : Option Emission) × IsHandledBy N.calls.handles now (record { from = from; bytes = bytes.now }) ingress.old sent ingress.new
        × Sends K.went (option_to_list sent) replied.old replied.new }
{
    let handled = ingress.handle(now, from, bytes, reply);
    if is_reply(handled) {
        send(reply, sink, replied);
    }
}

// Retransmits the notifications that have timed out at `now`, in milliseconds, and notifies
// observers, until no notification is left, no message ID is available, or 8,192 steps were taken.
// Each datagram is written over `emission`, and counted in `replied` if this thread sends it.
fn flush<N: Ingress, K: Sink>(
    ingress: &mut N,
    now: u64,
    emission: &mut Emission,
    sink: &K,
    replied: &mut SentReplies,
)
    ensures { (steps : List FlushingStep) × AreStepsBy N.calls now steps ingress.old ingress.new × AreFlushed steps
        × Sends K.went (sent_in_steps steps) replied.old replied.new }
{
    let mut flushing = Flushing::begin(ingress, now);
    'steps: for taken in 0..STEPS {
        if flushing.is_at_end() {
            return;
        }
        let sent = flushing.step(ingress, now, emission);
        send_if(sent, emission, sink, replied);
    }
}

// Passes an emission to the sink if `sent`, and counts whether the sink sent it.
fn send_if<K: Sink>(sent: bool, emission: &Emission, sink: &K, replied: &mut SentReplies)
    ensures { Sends K.went (option_to_list (emission_if sent emission.now)) replied.old replied.new }
{
    if sent {
        send(emission, sink, replied);
    }
}

// Passes an emission to the sink, and counts whether the sink sent it.
fn send<K: Sink>(emission: &Emission, sink: &K, replied: &mut SentReplies)
    ensures { Sends K.went (emission.now ∷ []) replied.old replied.new }
{
    let out = sink.send(emission, &mut replied.log);
    replied.replies.count_if_any(Some(out));
}

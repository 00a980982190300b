//! Notifications of observers (RFC 7641, section 4.2).
//!
//! `Shard::note` and `write_note` of `fc_registry` call [`note`], which writes the notifications.
ghost use Rattle.std.specs.Prelude.{◌≡◌, ◌↔◌, ℕ, IsTrue, None, Some};
ghost use Rattle.fc_observe.specs.Calls.{after_calls, observers_after};
ghost use Rattle.fc_observe.specs.Views.{interest};
ghost use Rattle.fc_ticket.specs.Runs.{run_of};
ghost use Rattle.fc_ticket.specs.Notes.{IsKeptUnlessSent, IsNoted, IsRunOfTurn, IsSentOrStale, keeps_observer, note_calls, note_envelope, note_in, note_kind, note_to, noted_as, sent_of, ticket_told, told_call, told_calls};

use crate::ticket::{Ticket, is_run_of};
use coap_msg::{Code, Datagram, Emission, MessageType};
use coap_reply::{BodyBlock, Envelope, ran, text};
use fc_machine::Outcome;
use fc_observe::{Observer, Observers, Turn};

/// The content of a lease's notification.
#[derive(Drop)]
pub enum Notification<'a> {
    /// The response of a run of the lease's ticket.
    Ran(&'a Outcome<'a>, &'a Ticket<'a>),
    /// 4.04: the lease's snapshot found the slot empty.
    Gone,
}

/// The result of a notification.
#[derive(Drop)]
pub enum Noted {
    /// The notification is to be sent, and the lease has ended.
    Send(Emission),
    /// The lease isn't active, or its snapshot didn't find the slot empty.
    ///
    /// Only [`Notification::Gone`] can have the second reason. No observer changed.
    Stale,
    /// The ticket isn't that of the lease, or the outcome isn't that of the ticket.
    ///
    /// Or the ticket's serial is above the slot's. No observer changed.
    Stranger,
}

/// The result of a notification written over the caller's emission.
#[derive(Clone, Copy, PartialEq, Eq)]
pub enum NoteOutcome {
    /// The notification is to be sent, and the lease has ended.
    Sent,
    /// See [`Noted::Stale`]. The emission is unchanged.
    Stale,
    /// See [`Noted::Stranger`]. The emission is unchanged.
    Stranger,
}

/// Notifies the observer that has the lease `turn` with the content `told`.
///
/// `now` is in milliseconds, and `serial` is that of the slot. `random` determines the timeout of a
/// confirmable message. The message, with message ID `id`, is written over `emission`, which is
/// unchanged unless the result is `Sent`. The clock of `watch` advances to `now`, whatever the
/// result.
///
/// Returns `Stale` if the lease isn't active, or if `told` is `Gone` and the lease's snapshot
/// didn't find the slot empty. Returns `Stranger` if the outcome isn't that of the ticket, or the
/// ticket isn't that of the lease. The result is also `Stranger` if the ticket's serial is above
/// `serial`.
pub fn note(
    watch: &mut Observers,
    now: u64,
    serial: u64,
    turn: Turn,
    id: u16,
    random: u16,
    told: &Notification<'_>,
    emission: &mut Emission,
) -> NoteOutcome
    ensures noted { IsNoted told.now turn id now serial watch.old (noted_as result emission.new) }
    ensures kept { IsKeptUnlessSent result emission.old emission.new }
    ensures watch { watch.new
        ≡ after_calls (note_calls turn id random now (ticket_told told.now) (sent_of (noted_as result emission.new))) watch.old }
{
    watch.advance(now);
    match told {
        Notification::Gone => note_gone(watch, turn, id, emission),
        Notification::Ran(outcome, ticket) => {
            let Some(observer) = watch.out(turn) else {
                return NoteOutcome::Stale;
            };
            if !is_run_of_turn(outcome, ticket, turn, serial) {
                return NoteOutcome::Stranger;
            }
            write_run(&observer, id, outcome, ticket, emission);
            end_turn(
                watch,
                now,
                turn,
                id,
                random,
                ticket,
                outcome,
                &emission.bytes,
            );
            NoteOutcome::Sent
        }
    }
}

// Ends a lease whose notification was written as `bytes`. After a 2.05 (Content) response the
// observer stays in the list, and the list records the notification. After any other code, the
// observer is removed.
fn end_turn(
    watch: &mut Observers,
    now: u64,
    turn: Turn,
    id: u16,
    random: u16,
    ticket: &Ticket<'_>,
    outcome: &Outcome<'_>,
    bytes: &Datagram,
)
    requires { outcome.now ≡ run_of ticket.now }
    ensures { watch.new
        ≡ observers_after (told_call (keeps_observer (Some ticket.now)) turn id random now ticket.now.serial bytes.now) watch.old }
{
    if outcome.code() == Code::CONTENT.byte {
        watch.sent(now, turn, id, ticket.serial(), random, bytes);
    } else {
        watch.end(turn);
    }
}

// Notifies the observer with a 4.04 that its slot was empty, and removes the observer. The result
// is `Stale`, and nothing changes, if the lease isn't active or its snapshot didn't find the slot
// empty.
fn note_gone(watch: &mut Observers, turn: Turn, id: u16, emission: &mut Emission) -> NoteOutcome
    ensures sent { sent_of (noted_as result emission.new) ≡ note_in turn id None watch.old }
    ensures noted { IsSentOrStale (noted_as result emission.new) }
    ensures kept { IsKeptUnlessSent result emission.old emission.new }
    ensures watch { (random at : ℕ) → watch.new
        ≡ after_calls (told_calls turn id random at None (sent_of (noted_as result emission.new))) watch.old }
{
    if !watch.is_missing(turn) {
        return NoteOutcome::Stale;
    }
    let Some(observer) = watch.out(turn) else {
        return NoteOutcome::Stale;
    };
    write_gone(&observer, id, emission);
    watch.end(turn);
    NoteOutcome::Sent
}

// Writes the notification of a run over `emission`. It has the run's code, and with 2.05 (Content)
// or 2.04 (Changed) the requested block of the run's reply.
fn write_run(
    observer: &Observer<'_>,
    id: u16,
    outcome: &Outcome<'_>,
    ticket: &Ticket<'_>,
    emission: &mut Emission,
)
    requires { outcome.now ≡ run_of ticket.now }
    ensures { emission.new ≡ note_to id observer.now.confirmable (Some ticket.now) (interest observer.now) }
{
    let code = Code {
        byte: outcome.code(),
    };
    let block = BodyBlock::cut(outcome.reply(), ticket.block());
    ran(
        &envelope(observer, id),
        code,
        &block,
        ticket.serial(),
        true,
        &mut emission.bytes,
    );
    emission.to = observer.endpoint;
}

// Writes the notification of a slot that was found empty, a 4.04 (Not Found), over `emission`.
fn write_gone(observer: &Observer<'_>, id: u16, emission: &mut Emission)
    ensures { emission.new ≡ note_to id observer.now.confirmable None (interest observer.now) }
{
    text(
        &envelope(observer, id),
        Code::NOT_FOUND,
        &[],
        &mut emission.bytes,
    );
    emission.to = observer.endpoint;
}

// Returns the header of a notification of this observer, with the message ID `id`.
fn envelope<'a>(observer: &Observer<'a>, id: u16) -> Envelope<'a>
    ensures { result ≡ note_envelope id observer.now.confirmable (interest observer.now) }
{
    Envelope {
        to: observer.endpoint,
        kind: note_kind(observer.confirmable),
        id,
        token: observer.token.as_slice(),
    }
}

// Returns the message type of a notification (RFC 7641, section 4.5).
fn note_kind(confirmable: bool) -> MessageType
    ensures { result ≡ note_kind confirmable }
{
    if confirmable {
        MessageType::Confirmable
    } else {
        MessageType::NonConfirmable
    }
}

// Returns whether `ticket` is that of the lease, `outcome` is that of the ticket, and the ticket's
// serial isn't above `serial`, the slot's. `note` refuses any other run as `Stranger`.
fn is_run_of_turn(outcome: &Outcome<'_>, ticket: &Ticket<'_>, turn: Turn, serial: u64) -> bool
    ensures own { IsTrue result ↔ IsRunOfTurn turn outcome.now ticket.now serial }
    ensures run { IsTrue result → outcome.now ≡ run_of ticket.now }
{
    ticket.origin().slot.number() == turn.slot
        && ticket.turn() == Some(turn.number)
        && is_run_of(outcome, ticket, serial)
}

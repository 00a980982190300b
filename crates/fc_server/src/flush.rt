//! The work after a datagram or a tick: retransmissions and notifications.
//!
//! A driver of an [`Ingress`] is the receive loop of `fc_receive`, the player of `fc_service`, or
//! the C library. It takes the steps of a [`Flushing`] until the end, and sends the datagrams that
//! the steps write.
ghost use Rattle.std.specs.Prelude.{◌≡◌, ◌+◌, ◌<◌, ◌≤◌, ◌↔◌, [], false, true, IsTrue, List};
ghost use Rattle.coap_msg.specs.declared.types.Emission.{Emission as Emitted};
ghost use Rattle.fc_core.specs.Legal.{resent};
ghost use Rattle.fc_front.specs.Receiving.{emission_if};
ghost use Rattle.fc_observe.specs.declared.observers.Ticked.{Ticked};
ghost use Rattle.fc_server.specs.Notified.{Notified, notification_in, notified_as};
ghost use Rattle.fc_server.specs.Flushing.{AreIdleUntil, Asked, AreStepsTo, IsPlace, IsStepBy, Moves, Resent, FlushingStep, sent_in_step, sent_in_steps};

use crate::engine::NotifyOutcome;
use crate::ingress::Ingress;
use coap_msg::Emission;
use fc_observe::Ticked;
use fc_ticket::SHARDS;

/// More steps than there can be at one time.
///
/// Each of 32 observers of each of 64 slots gets at most one retransmission and one notification.
/// For each of the two, each shard reports once that nothing is left.
pub const STEPS: u16 = 8192;

/// The position of a server in the remaining work at one time.
///
/// At each shard, notifications that have timed out are retransmitted first, until there is none.
/// Then the shard's observers are notified, until none has a pending notification.
#[derive(Drop)]
pub struct Flushing {
    shard: u8,
    // Whether the shard's observers are notified. If not, its notifications are retransmitted.
    notifies: bool,
    // Whether this is the shard at which `begin` stopped. It isn't asked again whether it is idle.
    busy: bool,
}

impl Flushing {
    /// Returns the position of the first shard that isn't idle at `now`, or the end.
    ///
    /// `now` is in milliseconds. The shards before that position are advanced. Most shards are
    /// idle, and no memory for a datagram is needed for an idle shard.
    pub fn begin<N: Ingress>(ingress: &mut N, now: u64) -> Flushing
        ensures { (steps : List FlushingStep) × AreStepsTo N.calls now steps ingress.old ingress.new result × (sent_in_steps steps ≡ []) }
    {
        let mut shard = 0;
        'idle: while shard < SHARDS && ingress.advance_if_idle(shard, now) {
            shard += 1;
        }
        Flushing {
            shard,
            notifies: false,
            busy: true,
        }
    }

    /// Returns whether no work is left.
    pub fn is_at_end(&self) -> bool
        ensures { IsTrue result ↔ 8 ≤ self.now.shard }
    {
        self.shard >= SHARDS
    }

    /// Takes a step at the current shard.
    ///
    /// The datagram to send, if there is one, is written over `emission`. Returns whether there is
    /// a datagram to send. If no message ID is available, the step leads to the end. `begin` has
    /// found that its shard isn't idle, so that shard isn't asked again.
    #[inline(never)]
    pub fn step<N: Ingress>(&mut self, ingress: &mut N, now: u64, emission: &mut Emission) -> bool
        requires { self.old.shard < 8 }
        ensures { (step : FlushingStep) × IsStepBy N.calls now step ingress.old ingress.new
            × (sent_in_step step ≡ emission_if result emission.new) × Moves self.old step self.new }
    {
        if self.notifies {
            return self.notify(ingress, now, emission);
        }
        if self.busy {
            return self.resend(ingress, now, emission);
        }
        if ingress.advance_if_idle(self.shard, now) {
            self.pass();
            return false;
        }
        self.resend(ingress, now, emission)
    }

    // Retransmits the first notification of the shard that has timed out, or goes on to the shard's
    // observers. Returns whether a datagram was written over `emission`. Retransmissions are rare,
    // so no memory is set aside for one unless it is needed.
    #[inline(never)]
    fn resend<N: Ingress>(&mut self, ingress: &mut N, now: u64, emission: &mut Emission) -> bool
        requires shard { self.old.shard < 8 }
        requires overdue { self.old.notifies ≡ false }
        ensures { (ticked : Ticked) × N.calls.resends self.old.shard now ingress.old ingress.new ticked
            × (emission_if result emission.new ≡ resent ticked) × Moves self.old (Resent self.old.shard ticked) self.new }
    {
        let ticked = ingress.resend(self.shard, now);
        self.resent(ticked, emission)
    }

    // Notifies the first observer of the shard that has a pending notification. Goes on to the next
    // shard if there is none, and to the end if no message ID is available. Returns whether a
    // datagram was written over `emission`.
    fn notify<N: Ingress>(&mut self, ingress: &mut N, now: u64, emission: &mut Emission) -> bool
        requires shard { self.old.shard < 8 }
        requires due { self.old.notifies ≡ true }
        ensures { (told : Notified) × N.calls.notifies self.old.shard now ingress.old ingress.new told
            × (emission_if result emission.new ≡ notification_in told) × Moves self.old (Asked self.old.shard told) self.new }
    {
        let outcome = ingress.notify(self.shard, now, emission);
        self.notified(outcome)
    }

    // Goes on to the next shard.
    fn pass(&mut self)
        requires { self.old.shard < 8 }
        ensures shard { self.new.shard ≡ self.old.shard + 1 }
        ensures overdue { self.new.notifies ≡ false }
    {
        self.shard += 1;
        self.notifies = false;
        self.busy = false;
    }

    // Goes on after the shard was ticked. A retransmission is written over `emission`. Returns
    // whether there is one.
    fn resent(&mut self, ticked: Ticked, emission: &mut Emission) -> bool
        requires shard { self.old.shard < 8 }
        requires overdue { self.old.notifies ≡ false }
        ensures sent { emission_if result emission.new ≡ resent ticked }
        ensures moves { Moves self.old (Resent self.old.shard ticked) self.new }
    {
        match ticked {
            Ticked::Resend(again) => {
                *emission = again;
                true
            }
            Ticked::Removed => false,
            Ticked::Quiet => {
                self.notifies = true;
                false
            }
        }
    }

    // Goes on after the shard was asked for a lease. Returns whether the datagram that the shard
    // wrote is to be sent.
    fn notified(&mut self, outcome: NotifyOutcome) -> bool
        requires shard { self.old.shard < 8 }
        requires due { self.old.notifies ≡ true }
        ensures sent { (e : Emitted) → emission_if result e ≡ notification_in (notified_as outcome e) }
        ensures moves { (e : Emitted) → Moves self.old (Asked self.old.shard (notified_as outcome e)) self.new }
    {
        match outcome {
            NotifyOutcome::Sent => true,
            NotifyOutcome::Unsent => false,
            NotifyOutcome::Starved => {
                self.end();
                false
            }
            NotifyOutcome::Nobody => {
                self.pass();
                false
            }
        }
    }

    // Goes to the end: nothing is left at this time.
    fn end(&mut self)
        ensures shard { self.new.shard ≡ 8 }
        ensures overdue { self.new.notifies ≡ false }
    {
        self.shard = SHARDS;
        self.notifies = false;
    }
}

/// Returns the earliest of the times until which the eight shards are idle.
///
/// A driver may wait for a datagram until then. The result is in milliseconds. It is `u64::MAX` if
/// the shards return no earlier time.
pub fn idle_until<N: Ingress>(ingress: &N) -> u64
    ensures { AreIdleUntil (λ shard until. N.calls.stays_idle shard ingress.now until) result }
{
    let mut until = u64::MAX;
    for shard in 0..SHARDS {
        until = until.min(ingress.idle_until(shard));
    }
    until
}

//! Lock-step playing: an ingress that waits for the worker with a line's job.
ghost use Rattle.std.specs.Prelude.{◌≡◌};
ghost use Rattle.fc_service.specs.Ingresses.{calls_through, waited_calls};

use crate::lines::LineIngress;
use coap_msg::{Emission, Endpoint};
use fc_front::Handled;
use fc_help::Readings;
use fc_host::scripted::ScriptedHost;
use fc_observe::Ticked;
use fc_server::engine::{FireOutcome, NotifyOutcome};
use fc_server::{Gauges, Ingress};
use fc_ticket::SlotNumber;
use std::sync::Wait;

// An ingress that waits at a scripted host for each job and each lease until it was run.
pub(crate) struct LockStep<'a, R: Wait, N: Ingress> {
    pub(crate) rt: &'a R,
    pub(crate) ingress: N,
    pub(crate) scripted: &'a ScriptedHost,
}

// Only `handle`, `fire` and `notify` wait, since only they may give a worker a job. The other calls
// go to the inner ingress unchanged; see [`Ingress`] for their units and results.
impl<'a, R: Wait, N: Ingress> Ingress for LockStep<'a, R, N> {
    ghost calls = { calls_through (λ waiting. waiting.ingress) (waited_calls N.calls) };

    // Handles a datagram, waits for the worker of its job, and returns the worker's response as an
    // immediate one. Returns `Nothing` if the worker sent no response.
    fn handle(&mut self, now: u64, from: Endpoint, bytes: &[u8], reply: &mut Emission) -> Handled {
        self.scripted.begin(self.rt, now);
        match self.ingress.handle(now, from, bytes, reply) {
            Handled::Job => match self.scripted.wait(self.rt) {
                Some(emission) => {
                    *reply = emission;
                    Handled::Reply
                }
                None => Handled::Nothing,
            },
            handled => handled,
        }
    }

    fn tick(&mut self, now: u64) {
        self.ingress.tick(now);
    }

    // Fires a timer. If the timer's job was sent to a worker, waits for the worker, and returns
    // `Ended`.
    fn fire(&mut self, slot: SlotNumber, now: u64) -> FireOutcome {
        self.scripted.begin(self.rt, now);
        match self.ingress.fire(slot, now) {
            FireOutcome::Sent(_) => {
                let _unsent = self.scripted.wait(self.rt);
                FireOutcome::Ended
            }
            outcome => outcome,
        }
    }

    fn first_due(&self) -> u64 {
        self.ingress.first_due()
    }

    fn resend(&mut self, shard: u8, now: u64) -> Ticked {
        self.ingress.resend(shard, now)
    }

    fn advance_if_idle(&mut self, shard: u8, now: u64) -> bool {
        self.ingress.advance_if_idle(shard, now)
    }

    fn idle_until(&self, shard: u8) -> u64 {
        self.ingress.idle_until(shard)
    }

    fn gauges(&self, now: u64) -> Gauges {
        self.ingress.gauges(now)
    }

    // Waits for the worker of the lease, and returns its notification as one to be sent. A lease
    // without a datagram is `Starved`: it had no message ID, or no memory.
    fn notify(&mut self, shard: u8, now: u64, emission: &mut Emission) -> NotifyOutcome {
        self.scripted.begin(self.rt, now);
        match self.ingress.notify(shard, now, emission) {
            NotifyOutcome::Unsent => match self.scripted.wait(self.rt) {
                Some(sent) => {
                    *emission = sent;
                    NotifyOutcome::Sent
                }
                None => NotifyOutcome::Starved,
            },
            told => told,
        }
    }
}

impl<'a, R: Wait, N: Ingress> LineIngress for LockStep<'a, R, N> {
    ghost hands = { λ readings old new. new.ingress ≡ old.ingress };

    // Passes the readings to the scripted host, from which the workers' snapshots get them.
    fn hand(&mut self, readings: &Readings) {
        self.scripted.set(self.rt, *readings);
    }
}

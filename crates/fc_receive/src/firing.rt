//! A server with timers, which it fires when they are due.
ghost use Rattle.std.specs.Prelude.{◌≡◌};
ghost use Rattle.fc_receive.specs.Firing.{AreFired, FiresIfDue, fired_calls, firing_from, is_offloaded, readies_firing};

use crate::rounds::Preparation;
use crate::timer_jobs::TimerJobs;
use coap_msg::{Emission, Endpoint};
use fc_front::Handled;
use fc_host::timer::Timer;
use fc_host::timers::first_due;
use fc_observe::Ticked;
use fc_server::engine::{FireOutcome, NotifyOutcome};
use fc_server::{Gauges, Ingress};
use fc_ticket::SlotNumber;
use std::marker::Model;
use std::sync::Wait;

/// An ingress that fires its timers, and passes each call to a server.
///
/// The timers that are due fire before a datagram is handled, or before time passes, in their
/// order. A timer whose last job is at a worker skips the beat. Contracts see the server and its
/// timers.
pub(crate) struct Firing<'a, N: Ingress> {
    ingress: N,
    timers: Vec<Timer>,
    jobs: &'a TimerJobs,
}

impl<'a, N: Ingress> Model for Firing<'a, N> {
    ghost use Rattle.fc_receive.specs.Firing.{Firing as Seen};

    ghost Value = { Seen N };

    ghost view = { λ f. record { ingress = f.ingress; timers = f.timers.items } };
}

impl<'a, N: Ingress> Firing<'a, N> {
    /// Makes a server that fires these timers when they are due.
    ///
    /// `jobs` has a place for each timer, and stores the timer's job while a worker has it.
    pub(crate) fn new(ingress: N, timers: Vec<Timer>, jobs: &'a TimerJobs) -> Firing<'a, N>
        ensures { result ≡ firing_from timers.items ingress }
    {
        Firing {
            ingress,
            timers,
            jobs,
        }
    }

    /// Returns the server, as the last call left it.
    pub(crate) fn into_inner(self) -> N
        ensures { result ≡ self.entry.ingress }
    {
        let Firing {
            ingress,
            timers: _,
            jobs: _,
        } = self;
        ingress
    }
}

impl<'a, N: Ingress> Ingress for Firing<'a, N> {
    ghost calls = { fired_calls N.calls };

    fn handle(&mut self, now: u64, from: Endpoint, bytes: &[u8], reply: &mut Emission) -> Handled {
        fire_due(&mut self.ingress, &mut self.timers, self.jobs, now);
        self.ingress.handle(now, from, bytes, reply)
    }

    fn tick(&mut self, now: u64) {
        fire_due(&mut self.ingress, &mut self.timers, self.jobs, now);
        self.ingress.tick(now);
    }

    fn fire(&mut self, slot: SlotNumber, now: u64) -> FireOutcome {
        self.ingress.fire(slot, now)
    }

    fn first_due(&self) -> u64 {
        self.ingress.first_due().min(first_due(&self.timers))
    }

    fn resend(&mut self, shard: u8, now: u64) -> Ticked {
        self.ingress.resend(shard, now)
    }

    fn advance_if_idle(&mut self, shard: u8, now: u64) -> bool {
        self.ingress.advance_if_idle(shard, now)
    }

    fn idle_until(&self, shard: u8) -> u64 {
        self.ingress.idle_until(shard)
    }

    fn gauges(&self, now: u64) -> Gauges {
        self.ingress.gauges(now)
    }

    fn notify(&mut self, shard: u8, now: u64, emission: &mut Emission) -> NotifyOutcome {
        self.ingress.notify(shard, now, emission)
    }
}

// Fires the timers that are due at `now`, in milliseconds, in order.
fn fire_due<N: Ingress>(ingress: &mut N, timers: &mut [Timer], jobs: &TimerJobs, now: u64)
    ensures { AreFired N.calls now timers.old timers.new ingress.old ingress.new }
{
    for place in 0..timers.len() {
        fire_if_due(ingress, &mut timers[place], place, jobs, now);
    }
}

// Fires a timer if it is due at `now`, in milliseconds, unless its last job is at a worker. `place`
// is the timer's place in `jobs`.
fn fire_if_due<N: Ingress>(
    ingress: &mut N,
    timer: &mut Timer,
    place: usize,
    jobs: &TimerJobs,
    now: u64,
)
    ensures { FiresIfDue N.calls now timer.old timer.new ingress.old ingress.new }
{
    if now < timer.due {
        return;
    }
    if timer.offloaded && jobs.is_running(place) {
        timer.put_off(now);
        return;
    }
    let outcome = ingress.fire(timer.slot, now);
    timer.put_off(now);
    timer.offloaded = begin_if_sent(outcome, place, jobs);
}

// Stores the job of the timer at `place` in `jobs` if it was sent to a worker. Returns whether the
// job was sent.
fn begin_if_sent(outcome: FireOutcome, place: usize, jobs: &TimerJobs) -> bool
    ensures { result ≡ is_offloaded outcome }
{
    match outcome {
        FireOutcome::Sent(number) => {
            jobs.begin(place, number);
            true
        }
        FireOutcome::Ended | FireOutcome::Refused => false,
    }
}

// A preparation of the server whose timers are fired.
#[derive(Drop)]
pub(crate) struct ThroughTimers<'a, P> {
    pub(crate) preparation: &'a P,
}

impl<'a, 'b, N: Ingress, P: Preparation<N>> Preparation<Firing<'b, N>> for ThroughTimers<'a, P> {
    ghost readies = { readies_firing P.readies };

    fn ready<R: Wait>(&self, rt: &R, ingress: &mut Firing<'b, N>, now: u64) {
        self.preparation.ready(rt, &mut ingress.ingress, now);
    }
}

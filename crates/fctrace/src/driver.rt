//! The driver of a traced pool: it passes the clients' datagrams to the dispatcher.
use crate::clients::{Clients, Open};
use crate::traced_run::TracedRun;
use crate::traffic::Traffic;
use coap_msg::Endpoint;
use fc_backend::Bench;
use fc_front::front::blank_emission;
use fc_lines::emission::endpoint;
use fc_observe::Ticked;
use fc_ticket::{SHARDS, SlotNumber};
use fc_workers::Dispatcher;
use std::alloc::AllocError;
use std::sync::Wait;
use std::thread;
use std::time::{Clock, Duration};

/// The greatest number of times that the driver checks, once a millisecond, whether all jobs ended.
const CHECKS: u32 = 60_000;

/// Twice the mean time between two requests, in milliseconds. It keeps the exchanges below 1,024.
const STEP: u64 = 520;

impl TracedRun {
    /// Delivers the requests of all clients, and then installs a program in each used slot.
    ///
    /// After the installs each observer is notified. If memory for a datagram can't be allocated,
    /// the trace is marked as broken.
    pub(crate) fn drive<N: Bench, R: Wait + Clock>(
        &self,
        rt: &R,
        dispatcher: &mut Dispatcher<'_, N, Open, Clients, Clients, R>,
    ) {
        if self.deliver_all(rt, dispatcher).is_err() {
            self.trace.lock(rt).is_broken = true;
        }
    }

    // Delivers, installs and notifies as `drive` does. Returns `AllocError` if memory for a
    // datagram can't be allocated.
    fn deliver_all<N: Bench, R: Wait + Clock>(
        &self,
        rt: &R,
        dispatcher: &mut Dispatcher<'_, N, Open, Clients, Clients, R>,
    ) -> Result<(), AllocError> {
        let mut traffic = Traffic::new(self.alloc);
        for _ in 0..self.requests {
            let now = self.clients.advance(traffic.below(STEP));
            self.pass_time(rt, dispatcher, now);
            self.signal(rt, dispatcher, &mut traffic, now);
            self.fire(rt, dispatcher, &mut traffic, now);
            let slot = traffic.slot();
            let etag = self.clients.etag(rt, slot);
            traffic.make(slot, &etag)?;
            self.deliver(dispatcher, traffic.client, &traffic.bytes, now);
        }
        self.settle(rt);
        self.install_all(dispatcher, &mut traffic)?;
        self.settle(rt);
        self.notify_all(dispatcher);
        Ok(())
    }

    // Delivers a datagram of a client. The client ignores an immediate reply.
    fn deliver<N: Bench, R: Wait>(
        &self,
        dispatcher: &mut Dispatcher<'_, N, Open, Clients, Clients, R>,
        client: u8,
        bytes: &[u8],
        now: u64,
    ) {
        let from: Endpoint = endpoint(client);
        let mut reply = blank_emission();
        let _handled = dispatcher.handle(now, from, bytes, &mut reply);
    }

    // Advances the front and each shard to a time.
    fn pass_time<N: Bench, R: Wait>(
        &self,
        rt: &R,
        dispatcher: &mut Dispatcher<'_, N, Open, Clients, Clients, R>,
        now: u64,
    ) {
        dispatcher.tick(now);
        for shard in 0..SHARDS {
            self.pass_shard_time(rt, dispatcher, shard, now);
        }
    }

    // Advances a shard to a time. A shard that isn't idle is asked for a retransmission, and for a
    // lease.
    fn pass_shard_time<N: Bench, R: Wait>(
        &self,
        rt: &R,
        dispatcher: &mut Dispatcher<'_, N, Open, Clients, Clients, R>,
        shard: u8,
        now: u64,
    ) {
        if dispatcher.advance_or_skip(shard, now) {
            return;
        }
        if let Ticked::Resend(emission) = dispatcher.resend(shard, now) {
            self.clients.receive(rt, &emission);
        }
        let _granted = dispatcher.notify(shard, now);
    }

    // Acknowledges or resets a notification that a client received, or ignores it.
    fn signal<N: Bench, R: Wait>(
        &self,
        rt: &R,
        dispatcher: &mut Dispatcher<'_, N, Open, Clients, Clients, R>,
        traffic: &mut Traffic,
        now: u64,
    ) {
        let Some(notified) = self.clients.next_notified(rt) else {
            return;
        };
        let [high, low] = notified.id;
        let first = match traffic.below(16) {
            0 => 0x70,
            1 | 2 => return,
            _ => 0x60,
        };
        self.deliver(dispatcher, notified.client, &[first, 0, high, low], now);
    }

    // Fires the timer of a slot with each 32nd request on average, unless such a job is running.
    fn fire<N: Bench, R: Wait>(
        &self,
        rt: &R,
        dispatcher: &mut Dispatcher<'_, N, Open, Clients, Clients, R>,
        traffic: &mut Traffic,
        now: u64,
    ) {
        let slot = SlotNumber::new(traffic.slot());
        if traffic.below(32) == 0 && !self.trace.lock(rt).has_timer(slot) {
            let _number = dispatcher.fire(slot, now);
        }
    }

    // Installs the counter in each used slot. Returns `AllocError` if memory can't be allocated.
    fn install_all<N: Bench, R: Wait>(
        &self,
        dispatcher: &mut Dispatcher<'_, N, Open, Clients, Clients, R>,
        traffic: &mut Traffic,
    ) -> Result<(), AllocError> {
        let now = self.clients.advance(STEP);
        for slot in 0..16 {
            traffic.make_install(slot)?;
            self.deliver(dispatcher, traffic.client, &traffic.bytes, now);
        }
        Ok(())
    }

    // Notifies each observer with a pending notification, at most 128 of them for each shard.
    fn notify_all<N: Bench, R: Wait>(
        &self,
        dispatcher: &mut Dispatcher<'_, N, Open, Clients, Clients, R>,
    ) {
        let now = self.clients.advance(STEP);
        for turn in 0..1024u32 {
            let _granted = dispatcher.notify((turn % 8) as u8, now);
        }
    }

    // Waits until all jobs have ended, for at most a minute.
    fn settle<R: Wait + Clock>(&self, rt: &R) {
        for _check in 0..CHECKS {
            if self.trace.lock(rt).is_idle() {
                return;
            }
            thread::sleep(rt, Duration::from_millis(1));
        }
    }
}

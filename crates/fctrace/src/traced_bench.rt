//! A backend whose calls are traced.
use crate::call_trace::CallTrace;
use coap_msg::{Emission, Endpoint};
use fc_backend::{Bench, TrackLog};
use fc_filed::ServerBook;
use fc_front::{Answer, FrontGauges, Handled};
use fc_help::Readings;
use fc_machine::Outcome;
use fc_observe::{Ticked, Turn};
use fc_registry::{Committed, Made, PLACES, Removal, Taken};
use fc_ticket::{Job, NoteOutcome, Notification, Receipt, SlotNumber, SlotSnapshot, Ticket};
use fc_verify::Verified;
use std::sync::{Arc, Mutex, Wait};

/// A backend, as one thread calls it, that adds each call to a trace.
///
/// The trace is locked from before the call until its line is added. So the lines of all threads
/// have the order of the calls.
#[derive(Drop)]
pub(crate) struct TracedBench<'b, 't, 'w, B: Bench, W: Wait> {
    pub(crate) bench: &'b B,
    pub(crate) trace: &'t Mutex<CallTrace>,
    pub(crate) waits: &'w W,
    pub(crate) thread: usize,
}

/// Each call is passed to the inner backend, and added to the trace if it is an event.
impl<'b, 't, 'w, B: Bench, W: Wait> Bench for TracedBench<'b, 't, 'w, B, W> {
    type Tallies = B::Tallies;

    type Book = B::Book;

    ghost changes = { B.changes };

    ghost ended = { B.ended };

    ghost called = { B.called };

    ghost logged = { B.logged };

    ghost files = { B.files };

    fn book(&self) -> &ServerBook<B::Book> {
        self.bench.book()
    }

    fn handle<R: Wait>(
        &self,
        rt: &R,
        now: u64,
        endpoint: Endpoint,
        bytes: &[u8],
        job: &mut Job,
        reply: &mut Emission,
        log: &mut TrackLog<B::Book>,
    ) -> Handled {
        let mut trace = self.trace.lock(self.waits);
        let handled = self.bench.handle(rt, now, endpoint, bytes, job, reply, log);
        trace.deliver(now, endpoint, bytes, handled, job, reply);
        handled
    }

    fn tick<R: Wait>(&self, rt: &R, now: u64, log: &mut TrackLog<B::Book>) {
        let mut trace = self.trace.lock(self.waits);
        self.bench.tick(rt, now, log);
        trace.tick(now);
    }

    fn fire<R: Wait>(
        &self,
        rt: &R,
        slot: SlotNumber,
        now: u64,
        job: &mut Job,
        log: &mut TrackLog<B::Book>,
    ) {
        let mut trace = self.trace.lock(self.waits);
        self.bench.fire(rt, slot, now, job, log);
        trace.fire(slot, now, job);
    }

    fn fresh_id<R: Wait>(&self, rt: &R, now: u64, log: &mut TrackLog<B::Book>) -> Option<u16> {
        let mut trace = self.trace.lock(self.waits);
        let id = self.bench.fresh_id(rt, now, log);
        trace.timed_event("Fresh job=", self.thread, now);
        id
    }

    fn readings<R: Wait>(&self, rt: &R, log: &mut TrackLog<B::Book>) -> Readings {
        self.bench.readings(rt, log)
    }

    fn take<R: Wait>(
        &self,
        rt: &R,
        job: &Job,
        readings: &Readings,
        found: &mut SlotSnapshot,
        tallies: &mut B::Tallies,
        log: &mut TrackLog<B::Book>,
    ) -> Taken {
        let mut trace = self.trace.lock(self.waits);
        let taken = self.bench.take(rt, job, readings, found, tallies, log);
        trace.take(self.thread, job, readings, &taken);
        taken
    }

    fn take_if_cheap<R: Wait>(
        &self,
        rt: &R,
        least: u32,
        job: &Job,
        readings: &Readings,
        found: &mut SlotSnapshot,
        log: &mut TrackLog<B::Book>,
    ) -> Result<Taken, u32> {
        let mut trace = self.trace.lock(self.waits);
        let result = self
            .bench
            .take_if_cheap(rt, least, job, readings, found, log);
        if let Ok(taken) = &result {
            trace.take(self.thread, job, readings, taken);
        }
        result
    }

    fn signal<R: Wait>(
        &self,
        rt: &R,
        shard: u8,
        endpoint: Endpoint,
        id: u16,
        reset: bool,
        log: &mut TrackLog<B::Book>,
    ) {
        let mut trace = self.trace.lock(self.waits);
        self.bench.signal(rt, shard, endpoint, id, reset, log);
        trace.signal(shard, endpoint, id, reset);
    }

    fn tick_shard<R: Wait>(
        &self,
        rt: &R,
        shard: u8,
        now: u64,
        log: &mut TrackLog<B::Book>,
    ) -> Ticked {
        let mut trace = self.trace.lock(self.waits);
        let ticked = self.bench.tick_shard(rt, shard, now, log);
        trace.tick_shard(shard, now, &ticked);
        ticked
    }

    fn advance_if_idle<R: Wait>(
        &self,
        rt: &R,
        shard: u8,
        now: u64,
        log: &mut TrackLog<B::Book>,
    ) -> bool {
        let mut trace = self.trace.lock(self.waits);
        let is_idle = self.bench.advance_if_idle(rt, shard, now, log);
        if is_idle {
            trace.tick_shard(shard, now, &Ticked::Quiet);
        }
        is_idle
    }

    fn skip_if_idle(&self, shard: u8, now: u64, log: &mut TrackLog<B::Book>) -> bool {
        self.bench.skip_if_idle(shard, now, log)
    }

    fn idle_until<R: Wait>(&self, rt: &R, shard: u8) -> u64 {
        self.bench.idle_until(rt, shard)
    }

    fn is_saving(&self, slot: SlotNumber) -> bool {
        self.bench.is_saving(slot)
    }

    fn gauges<R: Wait>(&self, rt: &R, now: u64) -> FrontGauges {
        self.bench.gauges(rt, now)
    }

    fn observer_counts<R: Wait>(&self, rt: &R, shard: u8) -> [u8; PLACES] {
        self.bench.observer_counts(rt, shard)
    }

    fn next_due<R: Wait>(
        &self,
        rt: &R,
        shard: u8,
        now: u64,
        job: &mut Job,
        log: &mut TrackLog<B::Book>,
    ) -> bool {
        let mut trace = self.trace.lock(self.waits);
        let is_granted = self.bench.next_due(rt, shard, now, job, log);
        trace.due(shard, now, is_granted, job);
        is_granted
    }

    fn note<R: Wait>(
        &self,
        rt: &R,
        turn: Turn,
        id: u16,
        now: u64,
        random: u16,
        told: &Notification<'_>,
        emission: &mut Emission,
        tallies: &mut B::Tallies,
        log: &mut TrackLog<B::Book>,
    ) -> NoteOutcome {
        let mut trace = self.trace.lock(self.waits);
        let noted = self
            .bench
            .note(rt, turn, id, now, random, told, emission, tallies, log);
        let is_sent = matches!(noted, NoteOutcome::Sent);
        trace.note(self.thread, now, random, sent_if(is_sent, emission));
        noted
    }

    fn give_up<R: Wait>(
        &self,
        rt: &R,
        turn: Turn,
        now: u64,
        tallies: &mut B::Tallies,
        log: &mut TrackLog<B::Book>,
    ) {
        let mut trace = self.trace.lock(self.waits);
        self.bench.give_up(rt, turn, now, tallies, log);
        trace.give_up(self.thread, now);
    }

    fn commit<R: Wait>(
        &self,
        rt: &R,
        now: u64,
        outcome: &Outcome<'_>,
        ticket: &Ticket<'_>,
        tallies: &mut B::Tallies,
        log: &mut TrackLog<B::Book>,
    ) -> Option<Committed> {
        let mut trace = self.trace.lock(self.waits);
        let committed = self.bench.commit(rt, now, outcome, ticket, tallies, log);
        if committed.is_some() {
            trace.timed_event("Commit job=", self.thread, now);
        } else {
            trace.refuse(self.thread);
        }
        committed
    }

    fn install<R: Wait>(
        &self,
        rt: &R,
        job: &Job,
        program: Arc<Verified>,
        tallies: &mut B::Tallies,
        log: &mut TrackLog<B::Book>,
    ) -> Option<Made> {
        let mut trace = self.trace.lock(self.waits);
        let made = self.bench.install(rt, job, program, tallies, log);
        trace.install(self.thread, job, made.is_some());
        made
    }

    fn remove<R: Wait>(
        &self,
        rt: &R,
        job: &Job,
        tallies: &mut B::Tallies,
        log: &mut TrackLog<B::Book>,
    ) -> Option<Removal> {
        let mut trace = self.trace.lock(self.waits);
        let removal = self.bench.remove(rt, job, tallies, log);
        if removal.is_some() {
            trace.job_event("Remove job=", self.thread, job);
        } else {
            trace.job_event("Refuse job=", self.thread, job);
        }
        removal
    }

    fn receipt<R: Wait>(&self, rt: &R, job: &Job, log: &mut TrackLog<B::Book>) -> Option<Receipt> {
        let mut trace = self.trace.lock(self.waits);
        let receipt = self.bench.receipt(rt, job, log);
        trace.job_event("Receipt job=", self.thread, job);
        receipt
    }

    fn read_cost<R: Wait>(
        &self,
        rt: &R,
        slot: SlotNumber,
        log: &mut TrackLog<B::Book>,
    ) -> Option<u32> {
        self.bench.read_cost(rt, slot, log)
    }

    fn peek(&self, slot: SlotNumber, log: &mut TrackLog<B::Book>) -> u64 {
        let mut trace = self.trace.lock(self.waits);
        let word = self.bench.peek(slot, log);
        trace.peek(self.thread, slot);
        word
    }

    fn read_word(&self, slot: SlotNumber, log: &mut TrackLog<B::Book>) -> u64 {
        self.bench.read_word(slot, log)
    }

    fn raise(&self, job: &Job, word: u64, log: &mut TrackLog<B::Book>) {
        let mut trace = self.trace.lock(self.waits);
        self.bench.raise(job, word, log);
        trace.job_event("Raise job=", self.thread, job);
    }

    fn reject_image(&self, job: &Job, answer: &Answer, log: &mut TrackLog<B::Book>) {
        let mut trace = self.trace.lock(self.waits);
        self.bench.reject_image(job, answer, log);
        trace.install(self.thread, job, true);
    }

    fn refuse_install(&self, job: &Job, log: &mut TrackLog<B::Book>) {
        let mut trace = self.trace.lock(self.waits);
        self.bench.refuse_install(job, log);
        trace.install(self.thread, job, false);
    }

    fn respond<R: Wait>(
        &self,
        rt: &R,
        now: u64,
        job: &Job,
        answer: &Answer,
        reply: &mut Emission,
        tallies: &mut B::Tallies,
        log: &mut TrackLog<B::Book>,
    ) -> bool {
        let mut trace = self.trace.lock(self.waits);
        let has_reply = self
            .bench
            .respond(rt, now, job, answer, reply, tallies, log);
        trace.answer(self.thread, job, now, sent_if(has_reply, reply));
        has_reply
    }
}

// Returns the emission if it is sent, or else `None`.
fn sent_if(is_sent: bool, emission: &Emission) -> Option<&Emission> {
    if is_sent { Some(emission) } else { None }
}

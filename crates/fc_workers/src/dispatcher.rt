//! The dispatcher, which sends jobs to workers or runs them itself.
//!
//! A pool's driver calls it for each datagram (`fc_pool`).
ghost use Rattle.std.specs.Prelude.{◌≡◌, false, length, MatchBool};
ghost use Rattle.fc_backend.specs.Answers.{IsSomeIdle, IsSomeTick};
ghost use Rattle.fc_calls.specs.Logged.{AdvancesFront, AdvancesShard};
ghost use Rattle.fc_backend.specs.Called.{CountsObservers, LeavesUnquiet, LooksAhead, ReadsGauges};
ghost use Rattle.fc_workers.specs.Dispatch.{HasCalled, IsAdvancedOrSkipped, IsTakenIn, IsTimerFired, IsTurnAsked};
ghost use Rattle.fc_backend.specs.Messages.{first_brought, with_new_track};
ghost use Rattle.fc_filed.specs.Threads.{HasOwnTrack};
ghost use Rattle.fc_backend.specs.Logs.{IsNewLog};
ghost use Rattle.fc_workers.specs.Producing.{HasRightOrder};
ghost use Rattle.fc_backend.specs.Statistics.{new_share};

use crate::context::{Context, WorkerParts};
use crate::dispatcher_state::DispatcherState;
use crate::worker_seed::SeedOf;
use coap_msg::{Emission, Endpoint};
use fc_backend::{Bench, Gate, JobKeys, JobMessage, Share, ShareOf, TimeSource, TrackLog, Wire};
use fc_front::{FrontGauges, Handled};
use fc_jobs::{Jobs, Sent};
use fc_observe::Ticked;
use fc_registry::PLACES;
use fc_ticket::SlotNumber;
use std::marker::Model;
use std::sync::Wait;

/// The number of a job that isn't sent to the workers.
///
/// No job that is sent has this number.
pub const UNSENT: u64 = u64::MAX;

/// The policy that decides which jobs go to workers.
#[derive(Clone, Copy)]
pub enum Offload {
    /// All jobs, if there is a worker.
    ///
    /// The dispatcher waits for the first worker that asks for a job.
    Every,
    /// Jobs of expensive programs, once a worker has asked for a job.
    ///
    /// A program is expensive if its cost is this number of steps or more. It is the program that
    /// the job's slot has when the job arrives.
    Expensive(u32),
    /// Jobs that may change a slot, jobs of expensive programs, and jobs that a save would hold up,
    /// once a worker has asked for a job.
    ///
    /// A job may change a slot if it installs or removes a program, or if it runs one for a POST,
    /// as a timer's job does. Such a job is sent whatever its program costs: a change may wait
    /// until it is saved, and only a worker is to wait for that. The dispatcher runs such a job
    /// itself while no worker has asked for a job, or if the channel returns the job.
    ///
    /// A save would hold up a job that runs or describes a program if a change of the slot's shard
    /// is being saved when the job is dispatched ([`Bench::is_saving`]). Such a job is sent too,
    /// whatever its program costs, unless the slot has the state of one of its ETags. Any other job
    /// is sent as with `Expensive`.
    ChangesAndExpensive(u32),
    /// No jobs.
    Never,
}

/// The record of a dispatcher's work.
///
/// It has the jobs that were sent to the workers, and the statistics of the jobs that the
/// dispatcher ran itself.
#[derive(Drop)]
pub struct Dispatched<T: Drop, L: Drop, M: Drop> {
    pub sent: Sent<M>,
    pub share: Share<T, L, M>,
}

/// The record of a dispatcher whose calls are filed in the book with the name `J`.
pub type DispatchedOf<T, J> = Dispatched<T, TrackLog<J>, JobMessage<J>>;

/// A dispatcher of datagrams and notification leases, in a thread of its own.
///
/// Each resulting job is sent to the workers, or the dispatcher runs it itself, as a worker does.
/// The dispatcher runs every job itself while no worker has asked for one: the memory to start the
/// workers may have been refused. With `Offload::Every` it first waits until a worker asks, or
/// until it is known that none will.
///
/// Its log has the tracks of the jobs that it ran, each right for its job. A job that is sent takes
/// its track along. Contracts see the dispatcher's policy and its record.
#[derive(Drop)]
pub struct Dispatcher<'a, B: Bench, G: Gate, W: Wire, M: TimeSource, R: Wait> {
    state: DispatcherState<'a, B, G, W, M, R>,
}

impl<'a, B: Bench, G: Gate, W: Wire, M: TimeSource, R: Wait> Model
    for Dispatcher<'a, B, G, W, M, R> {
    ghost use Rattle.fc_workers.specs.Dispatch.{SeenDispatcher};

    ghost Value = { SeenDispatcher B.Tallies };

    ghost use Rattle.fc_workers.specs.Producing.{MayProduce};

    ghost view = { λ d. record { offload = d.state.offload; done = d.state.done } };

    ghost invariant = { λ d. MayProduce B.Book.first_job d.state.keys d.state.done.share.log };
}

impl<'a, B: Bench, G: Gate, W: Wire, M: TimeSource, R: Wait> Dispatcher<'a, B, G, W, M, R> {
    /// Makes a dispatcher that sends its jobs by `sent`, and has run none.
    ///
    /// `seat` is its initial state, with which it runs jobs as a worker does. Nothing is filed in
    /// its log yet. `jobs` is the channel of `sent`. `keys` is the right to begin the tracks of
    /// jobs, and has begun none. The track of the first job begins here.
    pub fn new(
        context: &'a Context<'a, B, G, W, M, R>,
        jobs: &'a Jobs<JobMessage<B::Book>>,
        sent: Sent<JobMessage<B::Book>>,
        seat: SeedOf<B::Tallies, B::Book>,
        keys: JobKeys<B::Book>,
        offload: Offload,
    ) -> Dispatcher<'a, B, G, W, M, R>
        requires channel { sent.channel ≡ jobs.now }
        requires new_log { IsNewLog seat.log }
        requires keys { keys ≡ first_brought B.Book.first_job }
        ensures done { result.done ≡ record { sent = sent; share = new_share seat.got seat.tallies (with_new_track keys seat.log) } }
        ensures own { HasOwnTrack B.Book.first_job seat.log.who (with_new_track keys seat.log).tracks }
        ensures offload { result.offload ≡ offload }
    {
        Dispatcher {
            state: DispatcherState::new(context, jobs, sent, seat, keys, offload),
        }
    }

    /// Closes the channel, and returns the dispatcher's own statistics.
    ///
    /// They are of the jobs that it ran itself. The tracks of these jobs are right. The jobs that
    /// it produced have the keys from that of the first job on, in order.
    pub fn close(self) -> ShareOf<B::Tallies, B::Book>
        ensures share { result ≡ self.entry.done.share }
        ensures order { HasRightOrder B.Book.first_job result.log }
    {
        let DispatcherState { done, .. } = self.state;
        let Dispatched { share, .. } = done;
        share
    }

    /// Handles a datagram, at a time in milliseconds.
    ///
    /// A response is written over `reply`, and a job is dispatched. A signal, which is an
    /// Acknowledgement or a Reset message, goes to each shard. Returns which of these the datagram
    /// led to, if any.
    pub fn handle(
        &mut self,
        now: u64,
        from: Endpoint,
        bytes: &[u8],
        reply: &mut Emission,
    ) -> Handled
        ensures taken_in { IsTakenIn ⟦<(B, G, W, M) as WorkerParts>⟧.view
            self.old.offload now from bytes.now result reply.new self.old.done self.new.done }
        ensures offload { self.new.offload ≡ self.old.offload }
    {
        self.state.handle(now, from, bytes, reply)
    }

    /// Advances the front to a time in milliseconds, if time passes without a datagram.
    ///
    /// Exchanges past their lifetime expire.
    pub fn tick(&mut self, now: u64)
        ensures logged { B.logged (AdvancesFront now) self.old.done.share.log self.new.done.share.log }
        ensures kept { HasCalled self.old.done self.new.done }
        ensures offload { self.new.offload ≡ self.old.offload }
    {
        let state = &mut self.state;
        let context = state.context;
        let log = &mut state.done.share.log;
        context.bench.tick(context.rt, now, log);
    }

    /// Fires the timer of a slot at a time in milliseconds, and dispatches its job.
    ///
    /// Returns the number of the job if it was sent to the workers. Returns `None` if the job has
    /// ended here.
    pub fn fire(&mut self, slot: SlotNumber, now: u64) -> Option<u64>
        ensures fired { IsTimerFired ⟦<(B, G, W, M) as WorkerParts>⟧.view
            self.old.offload slot now result self.old.done self.new.done }
        ensures offload { self.new.offload ≡ self.old.offload }
    {
        self.state.fire(slot, now)
    }

    /// Advances a shard, 0 to 7, to a time in milliseconds.
    ///
    /// Returns a message to retransmit, that an observer was removed, or neither.
    pub fn resend(&mut self, shard: u8, now: u64) -> Ticked
        ensures ticked { IsSomeTick now result }
        ensures logged { B.logged (AdvancesShard shard now result) self.old.done.share.log self.new.done.share.log }
        ensures kept { HasCalled self.old.done self.new.done }
        ensures offload { self.new.offload ≡ self.old.offload }
    {
        let state = &mut self.state;
        let context = state.context;
        let log = &mut state.done.share.log;
        context.bench.tick_shard(context.rt, shard, now, log)
    }

    /// Advances a shard, 0 to 7, to a time in ms if it is idle then, or skips it.
    ///
    /// It is idle if no notification has timed out and no observer has a pending one. A shard that
    /// is known to be idle is skipped ([`Bench::skip_if_idle`]). Returns whether the shard is idle.
    /// If it isn't, nothing changes.
    pub fn advance_or_skip(&mut self, shard: u8, now: u64) -> bool
        ensures passed { MatchBool result
            (IsAdvancedOrSkipped ⟦<(B, G, W, M) as WorkerParts>⟧.view shard now self.old.done self.new.done)
            (IsSomeIdle now false × B.called (LeavesUnquiet shard now) × (self.new.done ≡ self.old.done)) }
        ensures offload { self.new.offload ≡ self.old.offload }
    {
        self.state.advance_or_skip(shard, now)
    }

    /// Returns a time before which a shard, 0 to 7, is idle unless the shard is called.
    ///
    /// It bounds the wait for the next datagram. Another thread may call the shard at any time. The
    /// clause says that the bench returned this time; its meaning for a server is `TellsIdleUntil`.
    pub fn idle_until(&self, shard: u8) -> u64
        ensures { B.called (LooksAhead shard result) }
    {
        let context = self.state.context;
        context.bench.idle_until(context.rt, shard)
    }

    /// Returns how many exchanges and transfers the front holds at `now`, and their limits.
    ///
    /// `now` is in milliseconds. See [`Bench::gauges`].
    pub fn gauges(&self, now: u64) -> FrontGauges
        ensures { B.called (ReadsGauges now result) }
    {
        let context = self.state.context;
        context.bench.gauges(context.rt, now)
    }

    /// Returns how many observers each slot of a shard, 0 to 7, has, by its place in the shard.
    ///
    /// See [`Bench::observer_counts`].
    pub fn observer_counts(&self, shard: u8) -> [u8; PLACES]
        ensures { B.called (CountsObservers shard result) }
    {
        let context = self.state.context;
        context.bench.observer_counts(context.rt, shard)
    }

    /// Returns how many jobs were sent to the workers.
    pub fn offloaded(&self) -> u64
        ensures { result ≡ length self.now.done.sent.sent }
    {
        self.state.done.sent.count()
    }

    /// Asks a shard, 0 to 7, for its next lease, and dispatches the lease's job.
    ///
    /// The lease is that of the first observer with a pending notification at a time in
    /// milliseconds. Returns whether there was such an observer.
    pub fn notify(&mut self, shard: u8, now: u64) -> bool
        ensures asked { IsTurnAsked ⟦<(B, G, W, M) as WorkerParts>⟧.view
            self.old.offload shard now result self.old.done self.new.done }
        ensures offload { self.new.offload ≡ self.old.offload }
    {
        self.state.notify(shard, now)
    }
}

//! The state of a dispatcher, and how it dispatches a job.
ghost use Rattle.std.specs.Prelude.{◌≡◌, ◌≢◌, ◌+◌, ◌<◌, [], true, false, MatchBool, None, Some};
ghost use Rattle.fc_book.specs.Tracks.{first_own};
ghost use Rattle.fc_backend.specs.Answers.{IsSomeIdle, saturated};
ghost use Rattle.fc_backend.specs.Called.{LeavesUnquiet};
ghost use Rattle.fc_workers.specs.Dispatch.{AreSignalled, HasBegunNext, HasCalled, HasLeastCost, IsAdvancedOrSkipped, IsDispatched, IsFoundCheap, IsHeldUp, IsSentOrWorked, IsTakenIn, IsTimerFired, IsTurnAsked, MayGo, MayHaveReadCost, job_sent, least_cost, logged_at, may_change_slot, requests_change, unsent};
ghost use Rattle.fc_backend.specs.Logs.{TrackedLog as Log, IsNewLog};
ghost use Rattle.fc_backend.specs.Messages.{first_brought, with_new_track};
ghost use Rattle.fc_filed.specs.Threads.{HasOwnTrack};
ghost use Rattle.fc_workers.specs.Producing.{HasDispatched, HasProduced, MayProduce};
ghost use Rattle.fc_backend.specs.Statistics.{new_share};
ghost use Rattle.fc_workers.specs.Steps.{IsPlainRun};
ghost use Rattle.fc_workers.specs.Work.{IsReplied};

use crate::context::{Context, WorkerParts};
use crate::dispatcher::{Dispatched, DispatchedOf, Offload, UNSENT};
use crate::scratch::Scratch;
use crate::worker_seed::{SeedOf, WorkerSeed};
use coap_msg::{Emission, Endpoint};
use fc_backend::{Bench, Gate, JobKeys, JobMessage, Share, ShareOf, TimeSource, TrackLog, Wire};
use fc_front::Handled;
use fc_front::front::blank_job;
use fc_front::heads::{is_present, serial_in};
use fc_help::Method;
use fc_jobs::{Jobs, Sent};
use fc_ticket::{Ask, Job, SHARDS, SlotNumber};
use std::mem;
use std::sync::Wait;

/// The state of a dispatcher, at and between its calls.
///
/// Between two calls the first track of its log is that of its next job, without an entry.
#[derive(Drop)]
pub(crate) struct DispatcherState<'a, B: Bench, G: Gate, W: Wire, M: TimeSource, R: Wait> {
    pub(crate) context: &'a Context<'a, B, G, W, M, R>,
    jobs: &'a Jobs<JobMessage<B::Book>>,
    pub(crate) offload: Offload,
    pub(crate) keys: JobKeys<B::Book>,
    job: Job,
    scratch: Scratch,
    pub(crate) done: DispatchedOf<B::Tallies, B::Book>,
    ghost channel: { done.sent.channel ≡ jobs.now },
}

impl<'a, B: Bench, G: Gate, W: Wire, M: TimeSource, R: Wait> DispatcherState<'a, B, G, W, M, R> {
    // Makes the state of a dispatcher that has sent and run no job. The track of its first job
    // begins.
    pub(crate) fn new(
        context: &'a Context<'a, B, G, W, M, R>,
        jobs: &'a Jobs<JobMessage<B::Book>>,
        sent: Sent<JobMessage<B::Book>>,
        seat: SeedOf<B::Tallies, B::Book>,
        mut keys: JobKeys<B::Book>,
        offload: Offload,
    ) -> DispatcherState<'a, B, G, W, M, R>
        requires channel { sent.channel ≡ jobs.now }
        requires new_log { IsNewLog seat.log }
        requires keys { keys ≡ first_brought B.Book.first_job }
        ensures done { result.done ≡ record { sent = sent; share = new_share seat.got seat.tallies (with_new_track keys seat.log) } }
        ensures own { HasOwnTrack B.Book.first_job seat.log.who (with_new_track keys seat.log).tracks }
        ensures offload { result.offload ≡ offload }
        ensures ready { MayProduce B.Book.first_job result.keys result.done.share.log }
    {
        let WorkerSeed {
            got,
            tallies,
            mut log,
            frame,
        } = seat;
        log.attest_own();
        log.begin_job(context.bench.book(), &mut keys);
        DispatcherState {
            context,
            jobs,
            offload,
            keys,
            job: blank_job(),
            scratch: Scratch::new(frame),
            done: Dispatched {
                sent,
                share: Share::new(got, tallies, log),
            },
        }
    }

    // Handles a datagram, at a time in milliseconds.
    //
    // A response is written over `reply`, and a job is dispatched. A signal, which is an
    // Acknowledgement or a Reset message, goes to each shard. Returns which of these the datagram
    // led to, if any.
    pub(crate) fn handle(
        &mut self,
        now: u64,
        from: Endpoint,
        bytes: &[u8],
        reply: &mut Emission,
    ) -> Handled
        requires ready { MayProduce B.Book.first_job self.old.keys self.old.done.share.log }
        ensures taken_in { IsTakenIn ⟦<(B, G, W, M) as WorkerParts>⟧.view
            self.old.offload now from bytes.now result reply.new self.old.done self.new.done }
        ensures offload { self.new.offload ≡ self.old.offload }
        ensures ready { MayProduce B.Book.first_job self.new.keys self.new.done.share.log }
    {
        let rt = self.context.rt;
        let log = &mut self.done.share.log;
        let handled = self
            .context
            .bench
            .handle(rt, now, from, bytes, &mut self.job, reply, log);
        match handled {
            Handled::Nothing => {}
            Handled::Reply => {}
            Handled::Job => self.dispatch(),
            Handled::Signal { mid, reset } => self.signal(from, mid, reset),
        }
        handled
    }

    // Fires the timer of a slot at a time in milliseconds, and dispatches its job.
    //
    // Returns the number of the job if it was sent to the workers. Returns `None` if the job has
    // ended here.
    pub(crate) fn fire(&mut self, slot: SlotNumber, now: u64) -> Option<u64>
        requires ready { MayProduce B.Book.first_job self.old.keys self.old.done.share.log }
        ensures fired { IsTimerFired ⟦<(B, G, W, M) as WorkerParts>⟧.view
            self.old.offload slot now result self.old.done self.new.done }
        ensures offload { self.new.offload ≡ self.old.offload }
        ensures ready { MayProduce B.Book.first_job self.new.keys self.new.done.share.log }
    {
        let number = self.done.sent.count();
        let rt = self.context.rt;
        let log = &mut self.done.share.log;
        self.context.bench.fire(rt, slot, now, &mut self.job, log);
        self.dispatch();
        if self.done.sent.count() > number {
            Some(number)
        } else {
            None
        }
    }

    // Advances a shard, 0 to 7, to a time in ms if it is idle then, or skips it.
    //
    // It is idle if no notification has timed out and no observer has a pending one. A shard that
    // is known to be idle is skipped. Returns whether the shard is idle. If it isn't, nothing
    // changes.
    pub(crate) fn advance_or_skip(&mut self, shard: u8, now: u64) -> bool
        requires ready { MayProduce B.Book.first_job self.old.keys self.old.done.share.log }
        ensures passed { MatchBool result
            (IsAdvancedOrSkipped ⟦<(B, G, W, M) as WorkerParts>⟧.view shard now self.old.done self.new.done)
            (IsSomeIdle now false × B.called (LeavesUnquiet shard now) × (self.new.done ≡ self.old.done)) }
        ensures offload { self.new.offload ≡ self.old.offload }
        ensures ready { MayProduce B.Book.first_job self.new.keys self.new.done.share.log }
    {
        let rt = self.context.rt;
        let bench = self.context.bench;
        let log = &mut self.done.share.log;
        bench.skip_if_idle(shard, now, log) || bench.advance_if_idle(rt, shard, now, log)
    }

    // Asks a shard, 0 to 7, for its next lease, and dispatches the lease's job.
    //
    // The lease is that of the first observer with a pending notification at a time in
    // milliseconds. Returns whether there was such an observer.
    pub(crate) fn notify(&mut self, shard: u8, now: u64) -> bool
        requires ready { MayProduce B.Book.first_job self.old.keys self.old.done.share.log }
        ensures asked { IsTurnAsked ⟦<(B, G, W, M) as WorkerParts>⟧.view
            self.old.offload shard now result self.old.done self.new.done }
        ensures offload { self.new.offload ≡ self.old.offload }
        ensures ready { MayProduce B.Book.first_job self.new.keys self.new.done.share.log }
    {
        let rt = self.context.rt;
        let log = &mut self.done.share.log;
        let given = self
            .context
            .bench
            .next_due(rt, shard, now, &mut self.job, log);
        if given {
            self.dispatch();
        }
        given
    }

    // Sends the dispatcher's job to the workers or runs it here, and then begins the track of the
    // next job.
    fn dispatch(&mut self)
        requires produced { HasProduced B.Book.first_job self.old.keys self.old.job self.old.done.share.log }
        ensures dispatched { IsDispatched ⟦<(B, G, W, M) as WorkerParts>⟧.view
            self.old.offload self.old.job self.old.done self.new.done }
        ensures offload { self.new.offload ≡ self.old.offload }
        ensures ready { MayProduce B.Book.first_job self.new.keys self.new.done.share.log }
    {
        self.dispatch_job();
        self.begin_next();
    }

    // Begins the track of the next job.
    fn begin_next(&mut self)
        requires dispatched { HasDispatched B.Book.first_job self.old.keys self.old.done.share.log }
        ensures begun { HasBegunNext self.old.done self.new.done }
        ensures offload { self.new.offload ≡ self.old.offload }
        ensures ready { MayProduce B.Book.first_job self.new.keys self.new.done.share.log }
    {
        let log = &mut self.done.share.log;
        log.begin_job(self.context.bench.book(), &mut self.keys);
    }

    // Sends the dispatcher's job to the workers, if the policy allows that and the channel takes
    // the job, or runs the job here. If the policy sends changes, a job that a save would hold up
    // here is sent whatever its cost. If the cost decides, a request for a run without ETags takes
    // its first snapshot only if its program is cheap. For any other run the cost is read in its
    // slot.
    fn dispatch_job(&mut self)
        requires produced { HasProduced B.Book.first_job self.old.keys self.old.job self.old.done.share.log }
        ensures dispatched { IsSentOrWorked ⟦<(B, G, W, M) as WorkerParts>⟧.view
            self.old.offload self.old.job self.old.done self.new.done }
        ensures offload { self.new.offload ≡ self.old.offload }
        ensures right { HasDispatched B.Book.first_job self.new.keys self.new.done.share.log }
    {
        if self.is_held_up() {
            self.send_or_work();
        } else {
            self.dispatch_by_cost();
        }
    }

    // Returns whether the job may go to the workers since a save would hold it up here. Returns
    // `false` if no worker has asked for a job yet.
    fn is_held_up(&mut self) -> bool
        ensures may { result ≡ true → MayGo ⟦<(B, G, W, M) as WorkerParts>⟧.view self.old.offload self.old.job self.old.done.share.log self.old.done.share.log }
        ensures kept { self.new.done ≡ self.old.done }
        ensures job { self.new.job ≡ self.old.job }
        ensures keys { self.new.keys ≡ self.old.keys }
        ensures offload { self.new.offload ≡ self.old.offload }
    {
        match self.offload {
            Offload::ChangesAndExpensive(_) => {
                let log = &mut self.done.share.log;
                self.jobs.is_served() && self.context.is_held_up(&self.job, log)
            }
            Offload::Every | Offload::Expensive(_) | Offload::Never => false,
        }
    }

    // Sends the job to the workers, if the policy allows that by the job's cost or whatever its
    // cost is, or runs the job here.
    fn dispatch_by_cost(&mut self)
        requires produced { HasProduced B.Book.first_job self.old.keys self.old.job self.old.done.share.log }
        ensures dispatched { IsSentOrWorked ⟦<(B, G, W, M) as WorkerParts>⟧.view
            self.old.offload self.old.job self.old.done self.new.done }
        ensures offload { self.new.offload ≡ self.old.offload }
        ensures right { HasDispatched B.Book.first_job self.new.keys self.new.done.share.log }
    {
        match least_cost(self.offload, &self.job) {
            Some(least) if is_plain_run(&self.job) && self.jobs.is_served() => {
                self.dispatch_run(least);
            }
            _ => self.dispatch_whole(),
        }
    }

    // Sends the job to the workers, if the policy allows it and it can be sent. Otherwise runs the
    // job here, from its first stage to its answer.
    fn dispatch_whole(&mut self)
        requires produced { HasProduced B.Book.first_job self.old.keys self.old.job self.old.done.share.log }
        ensures dispatched { IsSentOrWorked ⟦<(B, G, W, M) as WorkerParts>⟧.view
            self.old.offload self.old.job self.old.done self.new.done }
        ensures offload { self.new.offload ≡ self.old.offload }
        ensures right { HasDispatched B.Book.first_job self.new.keys self.new.done.share.log }
    {
        if self.may_go() {
            self.send_or_work();
        } else {
            self.work();
        }
    }

    // Takes the first snapshot of a request for a run without ETags, and runs the job from there.
    // If the cost of the slot's program is `least` steps or more, no snapshot is taken, and the job
    // is sent to the workers. If it can't be sent, it is run here from its beginning.
    fn dispatch_run(&mut self, least: u32)
        requires plain { IsPlainRun self.old.job }
        requires least { least_cost self.old.offload self.old.job ≡ Some least }
        requires produced { HasProduced B.Book.first_job self.old.keys self.old.job self.old.done.share.log }
        ensures dispatched { IsSentOrWorked ⟦<(B, G, W, M) as WorkerParts>⟧.view
            self.old.offload self.old.job self.old.done self.new.done }
        ensures offload { self.new.offload ≡ self.old.offload }
        ensures right { HasDispatched B.Book.first_job self.new.keys self.new.done.share.log }
    {
        let context = self.context;
        let share = &mut self.done.share;
        let begun = context.begin_if_cheap(least, &mut self.scratch, &self.job, share);
        if begun {
            context.work_begun(&mut self.scratch, UNSENT, &self.job, share);
        } else {
            self.send_or_work();
        }
    }

    // Sends a job that may go to the workers. If the channel returns the job, runs it here. `log`
    // is the dispatcher's log before the calls that let the job go.
    fn send_or_work(&mut self)
        requires produced { HasProduced B.Book.first_job self.old.keys self.old.job self.old.done.share.log }
        ensures dispatched { (log : Log)
            → MayGo ⟦<(B, G, W, M) as WorkerParts>⟧.view self.old.offload self.old.job log self.old.done.share.log
            → first_own self.old.done.share.log.tracks ≡ first_own log.tracks
            → IsSentOrWorked ⟦<(B, G, W, M) as WorkerParts>⟧.view
            self.old.offload self.old.job (logged_at log self.old.done) self.new.done }
        ensures offload { self.new.offload ≡ self.old.offload }
        ensures right { HasDispatched B.Book.first_job self.new.keys self.new.done.share.log }
    {
        let sent = self.send();
        if !sent {
            self.work();
        }
    }

    // Sends the job to the workers, with its track. Returns `false`, and keeps the job and the
    // track, if the channel returns the job.
    fn send(&mut self) -> bool
        requires produced { HasProduced B.Book.first_job self.old.keys self.old.job self.old.done.share.log }
        ensures sent { MatchBool result
            (self.new.done ≡ job_sent self.old.job self.old.done)
            ((self.new.done ≡ self.old.done) × (self.new.job ≡ self.old.job)) }
        ensures right { MatchBool result
            (HasDispatched B.Book.first_job self.new.keys self.new.done.share.log)
            (HasProduced B.Book.first_job self.new.keys self.old.job self.new.done.share.log) }
        ensures offload { self.new.offload ≡ self.old.offload }
    {
        let book = self.context.bench.book();
        let job = mem::replace(&mut self.job, blank_job());
        let message = self.done.share.log.move_to_message(book, job);
        let rt = self.context.rt;
        match self.jobs.send(rt, message, &mut self.done.sent) {
            None => true,
            Some(back) => {
                self.job = self.done.share.log.take_from_message(book, back);
                false
            }
        }
    }

    // Runs the dispatcher's job here, and ends it.
    fn work(&mut self)
        requires produced { HasProduced B.Book.first_job self.old.keys self.old.job self.old.done.share.log }
        ensures sent { self.new.done.sent ≡ self.old.done.sent }
        ensures worked { IsReplied ⟦<(B, G, W, M) as WorkerParts>⟧.view
            unsent self.old.job self.old.done.share self.new.done.share }
        ensures ends { B.ended self.new.done.share.tallies ≡ saturated (B.ended self.old.done.share.tallies + 1) }
        ensures offload { self.new.offload ≡ self.old.offload }
        ensures right { HasDispatched B.Book.first_job self.new.keys self.new.done.share.log }
    {
        let done = &mut self.done;
        self.context
            .work(&mut self.scratch, UNSENT, &self.job, &mut done.share);
    }

    // Returns whether the policy lets the job go to the workers. If the policy has a least cost for
    // the job, the cost in a run's slot is read for that. Returns `false` if no worker has asked
    // for a job yet; with `Every` the call first waits until one has, or none ever will.
    fn may_go(&mut self) -> bool
        ensures may { MatchBool result
            (MayGo ⟦<(B, G, W, M) as WorkerParts>⟧.view self.old.offload self.old.job self.old.done.share.log self.new.done.share.log)
            (MayHaveReadCost ⟦<(B, G, W, M) as WorkerParts>⟧.view (least_cost self.old.offload self.old.job) self.old.job self.old.done.share.log self.new.done.share.log) }
        ensures called { HasCalled self.old.done self.new.done }
        ensures job { self.new.job ≡ self.old.job }
        ensures keys { self.new.keys ≡ self.old.keys }
        ensures offload { self.new.offload ≡ self.old.offload }
    {
        match self.offload {
            Offload::Every => self.jobs.await_worker(self.context.rt),
            Offload::Expensive(_) | Offload::ChangesAndExpensive(_) => {
                let least = least_cost(self.offload, &self.job);
                let log = &mut self.done.share.log;
                self.jobs.is_served() && self.context.has_least_cost(least, &self.job, log)
            }
            Offload::Never => false,
        }
    }

    // Passes an Acknowledgement, or a Reset message if `reset`, to each shard.
    fn signal(&mut self, from: Endpoint, id: u16, reset: bool)
        requires ready { MayProduce B.Book.first_job self.old.keys self.old.done.share.log }
        ensures signalled { AreSignalled ⟦<(B, G, W, M) as WorkerParts>⟧.view
            8 from id reset self.old.done.share.log self.new.done.share.log }
        ensures kept { HasCalled self.old.done self.new.done }
        ensures offload { self.new.offload ≡ self.old.offload }
        ensures ready { MayProduce B.Book.first_job self.new.keys self.new.done.share.log }
    {
        let log = &mut self.done.share.log;
        self.context.signal(from, id, reset, log);
    }
}

impl<'a, B: Bench, G: Gate, W: Wire, M: TimeSource, R: Wait> Context<'a, B, G, W, M, R> {
    // Returns whether a save holds up a job: the job reads its slot, and a change of the slot's
    // shard is being saved. Returns `false` for a run if one of its ETags matches the slot's head
    // word, since such a run needs no lock. Nothing is filed.
    fn is_held_up(&self, job: &Job, log: &mut TrackLog<B::Book>) -> bool
        ensures held { result ≡ true → IsHeldUp ⟦<(B, G, W, M) as WorkerParts>⟧.view job.now log.old log.new }
        ensures kept { log.new ≡ log.old }
    {
        let slot = job.origin.slot;
        match &job.ask {
            Ask::Run(_) => self.bench.is_saving(slot) && !self.is_valid(job, log),
            Ask::Describe => self.bench.is_saving(slot),
            Ask::Install(..) | Ask::Remove | Ask::Discover => false,
        }
    }

    // Returns whether a job is expensive enough for the workers. If `least` is `None`, the cost
    // doesn't count: nothing is read, and the result is `true`. Otherwise a run without a valid
    // ETag is expensive if its program costs `least` steps or more.
    fn has_least_cost(&self, least: Option<u32>, job: &Job, log: &mut TrackLog<B::Book>) -> bool
        ensures cost { MatchBool result
            (HasLeastCost ⟦<(B, G, W, M) as WorkerParts>⟧.view least job.now log.old log.new)
            (MayHaveReadCost ⟦<(B, G, W, M) as WorkerParts>⟧.view least job.now log.old log.new) }
        ensures whatever { least ≡ None → result ≡ true }
    {
        let Some(least) = least else {
            return true;
        };
        self.is_expensive(least, job, log)
    }

    // Returns whether a job is a run without a valid ETag, and its slot's program has a cost of
    // `least` steps or more. Reads the cost in the slot if the job is such a run.
    fn is_expensive(&self, least: u32, job: &Job, log: &mut TrackLog<B::Book>) -> bool
        ensures { MatchBool result
            (HasLeastCost ⟦<(B, G, W, M) as WorkerParts>⟧.view (Some least) job.now log.old log.new)
            (IsFoundCheap ⟦<(B, G, W, M) as WorkerParts>⟧.view least job.now log.old log.new) }
    {
        match &job.ask {
            Ask::Run(_) if !self.is_valid(job, log) => {
                match self.bench.read_cost(self.rt, job.origin.slot, log) {
                    Some(cost) => cost >= least,
                    None => false,
                }
            }
            _ => false,
        }
    }

    // Returns whether the head word of a job's slot has the serial of one of the job's ETags. Such
    // a job needs no lock and no run unless the slot changes. Nothing is filed: when the job is
    // run, it looks at the word again.
    fn is_valid(&self, job: &Job, log: &mut TrackLog<B::Book>) -> bool
        ensures etags { result ≡ true → job.now.etags.items ≢ [] }
        ensures kept { log.new ≡ log.old }
    {
        if job.etags.is_empty() {
            return false;
        }
        let word = self.bench.read_word(job.origin.slot, log);
        is_present(word) && job.etags.as_slice().contains(&serial_in(word))
    }

    // Passes an Acknowledgement, or a Reset message if `reset`, to each shard, once.
    fn signal(&self, from: Endpoint, id: u16, reset: bool, log: &mut TrackLog<B::Book>)
        ensures { AreSignalled ⟦<(B, G, W, M) as WorkerParts>⟧.view
            8 from id reset log.old log.new }
    {
        'shards: for shard in 0..SHARDS {
            self.bench.signal(self.rt, shard, from, id, reset, log);
        }
    }
}

// Returns the least cost, in steps, of a program whose run is expensive by the policy. Returns
// `None` if the policy sends this job, or keeps it, whatever its cost.
fn least_cost(offload: Offload, job: &Job) -> Option<u32>
    ensures { result ≡ least_cost offload job.now }
{
    match offload {
        Offload::Expensive(least) => Some(least),
        Offload::ChangesAndExpensive(_) if may_change_slot(job) => None,
        Offload::ChangesAndExpensive(least) => Some(least),
        Offload::Every | Offload::Never => None,
    }
}

// Returns whether a job may change its slot. The job of a lease changes none.
fn may_change_slot(job: &Job) -> bool
    ensures { result ≡ may_change_slot job.now }
{
    job.turn.is_none() && requests_change(&job.ask)
}

// Returns whether an action may change the job's slot: an install, a removal, or a run for a POST.
fn requests_change(ask: &Ask) -> bool
    ensures { result ≡ requests_change ask.now }
{
    match ask {
        Ask::Run(request) => request.method() == Method::Post,
        Ask::Install(..) | Ask::Remove => true,
        Ask::Describe | Ask::Discover => false,
    }
}

// Returns whether a job is a request for a run, without ETags. Its first step is a snapshot.
fn is_plain_run(job: &Job) -> bool
    ensures { result ≡ true → IsPlainRun job.now }
{
    matches!(job.ask, Ask::Run(_)) && job.turn.is_none() && job.etags.is_empty()
}

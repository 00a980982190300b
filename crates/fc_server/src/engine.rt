//! A server on one thread, which runs and answers the job of each datagram.
//!
//! [`crate::SingleThread`] calls it for the drivers of a server.
ghost use Rattle.std.specs.Prelude.{◌≡◌, ℕ, ◌<◌, ◌≤◌, List, [], false, true, None, is_some, max, IfOk, MatchBool};
ghost use Rattle.arrayvec.specs.ArrayVec.{ArrayVec};
ghost use Rattle.coap_msg.specs.declared.types.Emission.{Emission as Emitted};
ghost use Rattle.fc_registry.specs.Shards.{shard_at, slot_in_shards};
ghost use Rattle.fc_registry.specs.Watches.{StaysIdleUntil, at_time, is_idle};
ghost use Rattle.fc_core.specs.Stage.{Stage};
ghost use Rattle.fc_front.specs.Exchanges.{advanced, has_exchange};
ghost use Rattle.fc_front.specs.Ids.{free_id};
ghost use Rattle.fc_front.specs.Receiving.{delivered, emission_if};
ghost use Rattle.fc_core.specs.Legal.{resent};
ghost use Rattle.fc_server.specs.Gauges.{server_gauges};
ghost use Rattle.fc_server.specs.Serving.{FindsProgram, Handles, IsBegun, IsOutToTake, IsReachable, AsksForTurn, FiresTimer, Passes, Runs, TicksShard, Serves, Turns, WorksOff, WorksOffUnread};
ghost use Rattle.fc_server.specs.Notified.{Starved, Unsent, is_given, notification_in, notified_as};
ghost use Rattle.fc_server.specs.Serving.{IsSignalled};
ghost use Rattle.fc_server.specs.Shown.{IsShown};
ghost use Rattle.fc_server.specs.States.{CanBegin, begin_of};
ghost use Rattle.fc_server.specs.Steps.{shard_told};

use crate::first::FirstServer;
use crate::gauges::Gauges;
use crate::observer_counts::ObserverCounts;
use crate::server::{Begin, Server};
use crate::witness::Witness;
use coap_msg::{Emission, Endpoint};
use fc_core::{Step, Task};
use fc_front::Handled;
use fc_front::front::blank_emission;
use fc_help::Readings;
use fc_observe::Ticked;
use fc_ticket::{SHARDS, SLOTS, SlotNumber};
use std::alloc::{AllocError, Global};
use std::marker::Model;

/// A server on one thread, in a state that some history leaves.
///
/// The engine also has the memory for the task that it runs. In contracts an engine is its front,
/// its shards, and the head words of their slots.
#[derive(Drop)]
pub struct Engine {
    server: Server,
    task: Task,
}

impl Model for Engine {
    ghost use Rattle.fc_server.specs.States.{ServerState};
    ghost use Rattle.fc_server.specs.Serving.{IsReachable};

    ghost Value = { ServerState };

    ghost view = { λ e. e.server };

    ghost invariant = { λ e. IsReachable e.server };
}

impl Engine {
    /// Makes a server with empty slots 0 to 63 and the initial state `begin`.
    ///
    /// # Errors
    /// Returns `AllocError` if memory can't be allocated.
    pub fn new(alloc: Global, begin: &Begin) -> Result<Engine, AllocError>
        requires { CanBegin begin.now }
        ensures { IfOk result (λ e. Serves (begin_of begin.now) e []) }
    {
        Engine::over(alloc, FirstServer::new(alloc, begin)?)
    }

    /// Makes a server in the state `first`.
    ///
    /// # Errors
    /// Returns `AllocError` if memory can't be allocated.
    pub fn over(alloc: Global, first: FirstServer) -> Result<Engine, AllocError>
        ensures { IfOk result (λ e. e ≡ first) }
    {
        Ok(Engine {
            server: Server::over(alloc, first)?,
            task: Task::blank(),
        })
    }

    /// Handles a datagram from `endpoint` and runs the job of the datagram.
    ///
    /// `now` is in milliseconds. The job's snapshot gets `readings`. The result is `true` if there
    /// is a datagram to send, which is written over `reply`. Otherwise the contract says nothing of
    /// `reply`.
    ///
    /// The effect of a call is a list of events. Each history that leaves the server in the state
    /// before the call is continued legally by these events. It then leaves the server in the state
    /// after the call. The list begins with `Deliver`. The events that follow depend on the
    /// datagram:
    ///
    /// - A signal: `Signal` of each shard.
    /// - A run: `Take`, `Commit`, `Raise` and `Answer`, after a `Peek` of the job's slot if the job
    ///   has ETags.
    /// - An install: `Install`, `Raise` and `Answer`.
    /// - A removal: `Remove`, `Raise` and `Answer`.
    /// - A description of a program: `Receipt` and `Answer`.
    /// - A list of the slots: `Peek` of each slot, and `Answer`.
    /// - Any other job: `Answer`.
    /// - Any other datagram: no further event.
    ///
    /// The witness observes the job once, after the job's answer.
    pub fn handle<W: Witness>(
        &mut self,
        alloc: Global,
        now: u64,
        endpoint: Endpoint,
        bytes: &[u8],
        readings: &Readings,
        reply: &mut Emission,
        witness: &mut W,
    ) -> bool
        ensures handles { Handles readings.now now endpoint bytes.entry (delivered (advanced self.old.front now) endpoint bytes.now)
            self.old self.new (emission_if result reply.new) }
        ensures shown { IsShown W.shown (delivered (advanced self.old.front now) endpoint bytes.now)
            (emission_if result reply.new) witness.old witness.new }
    {
        match self
            .server
            .handle(now, endpoint, bytes, &mut self.task.job, reply)
        {
            Handled::Nothing => false,
            Handled::Reply => true,
            Handled::Signal { mid, reset } => {
                signal(&mut self.server, endpoint, mid, reset);
                false
            }
            Handled::Job => {
                self.task.begin();
                let is_sent = work_off(
                    &mut self.server,
                    alloc,
                    now,
                    &mut self.task,
                    readings,
                    reply,
                );
                witness.show(&self.task.job, is_sent, reply);
                is_sent
            }
        }
    }

    /// Advances the clock to `now`, in milliseconds: the event `Tick`.
    pub fn tick(&mut self, now: u64)
        ensures { Passes now self.old self.new }
    {
        self.server.tick(now);
    }

    /// Fires the timer of a slot at `now`, in milliseconds, and runs the timer's job.
    ///
    /// The job's snapshot gets `readings`. The effect is the events `Fire`, `Take`, `Commit`,
    /// `Raise` and `Answer`, which send nothing. Returns whether memory for the snapshot could be
    /// allocated; without it no program runs.
    pub fn fire(&mut self, slot: SlotNumber, now: u64, readings: &Readings) -> bool
        ensures { FiresTimer readings.now slot now result self.old self.new }
    {
        let mut reply = blank_emission();
        let task = &mut self.task;
        self.server.fire(slot, now, &mut task.job);
        task.begin();
        let ran = run(&mut self.server, now, task, readings, &mut reply);
        ran.has_memory
    }

    /// Advances a shard, 0 to 7, to `now` in milliseconds: the event `ShardTick`.
    ///
    /// Returns `Resend` with the first notification that has timed out, which the caller sends
    /// again. Returns `Removed` if the notification's observer is removed instead, since it
    /// acknowledged no transmission. Returns `Quiet` if no notification has timed out.
    pub fn resend(&mut self, shard: u8, now: u64) -> Ticked
        requires { shard < 8 }
        ensures told { result ≡ shard_told now (shard_at self.old.shards shard) }
        ensures ticks { TicksShard shard now self.old self.new (resent result) }
    {
        self.server.tick_shard(shard, now)
    }

    /// Advances a shard, 0 to 7, to `now` in milliseconds if it is idle then.
    ///
    /// A shard is idle if no notification has timed out by then and no observer has a pending
    /// notification. If the shard is idle, the effect is the event `ShardTick`, after which `Due`
    /// would do nothing. Returns whether the shard was advanced; if not, nothing changes.
    pub fn advance_if_idle(&mut self, shard: u8, now: u64) -> bool
        requires { shard < 8 }
        ensures idle { result ≡ is_idle (at_time (shard_at self.old.shards shard) now) }
        ensures after { MatchBool result (TicksShard shard now self.old self.new None) (self.new ≡ self.old) }
    {
        self.server.advance_if_idle(shard, now)
    }

    /// Returns a time before which a shard is idle unless the server is called.
    ///
    /// The shard is 0 to 7. Before that time no notification times out and no observer has a
    /// pending one. The time is in milliseconds, and needn't be the latest such time. 2^64 - 1
    /// means that neither is expected.
    pub fn idle_until(&self, shard: u8) -> u64
        requires { shard < 8 }
        ensures { StaysIdleUntil result (shard_at self.now.shards shard) }
    {
        self.server.idle_until(shard)
    }

    /// Returns the gauges of the front at `now`, and how many observers each slot has.
    ///
    /// `now` is in milliseconds. A server on one thread sends no job to workers. This is no event:
    /// nothing changes.
    pub fn gauges(&self, now: u64) -> Gauges
        ensures { result ≡ server_gauges now self.now }
    {
        let server = &self.server;
        Gauges {
            offloaded: 0,
            front: server.gauges(now),
            observers: ObserverCounts {
                shards: [
                    server.observer_counts(0),
                    server.observer_counts(1),
                    server.observer_counts(2),
                    server.observer_counts(3),
                    server.observer_counts(4),
                    server.observer_counts(5),
                    server.observer_counts(6),
                    server.observer_counts(7),
                ],
            },
        }
    }

    /// Notifies the first observer of a shard, 0 to 7, that has a pending notification.
    ///
    /// `now` is in milliseconds. The effect is the event `Due`. If `Due` grants a lease, `Take`
    /// with these readings, `Fresh`, `Note` and `GiveUp` of the lease follow. `random` determines
    /// how long the server waits for the acknowledgement of a confirmable notification.
    ///
    /// If the result is `Sent`, the datagram to send is written over `emission`. Returns `Nobody`
    /// if no observer has a pending notification, `Starved` if no message ID is available, and
    /// otherwise `Unsent`: memory for the snapshot can't be allocated.
    pub fn notify(
        &mut self,
        shard: u8,
        now: u64,
        readings: &Readings,
        random: u16,
        emission: &mut Emission,
    ) -> NotifyOutcome
        requires { shard < 8 }
        ensures asked { let told = notified_as result emission.new in
            AsksForTurn readings.now shard now random self.old self.new (is_given told) (notification_in told) }
        ensures starved { notified_as result emission.new ≡ Starved → free_id self.old.front.ids (max self.old.front.now now) ≡ None }
        ensures unsent { notified_as result emission.new ≡ Unsent → FindsProgram now (shard_at self.old.shards shard) }
    {
        if !self.server.due(shard, now, &mut self.task.job) {
            return NotifyOutcome::Nobody;
        }
        let task = &mut self.task;
        task.begin();
        tell(&mut self.server, now, readings, random, task, emission)
    }
}

/// The result of a request to notify an observer.
///
/// If the result is `Sent`, the datagram is written over an emission of the caller.
#[derive(Clone, Copy, PartialEq, Eq)]
pub enum NotifyOutcome {
    /// An observer is notified by the datagram that was written.
    Sent,
    /// A lease was granted, and nothing is written.
    ///
    /// A worker has the lease, or has sent its notification; or the lease was released, since the
    /// snapshot needed memory that couldn't be allocated. The snapshot of an empty slot needs no
    /// memory.
    Unsent,
    /// A lease was granted and released, since no message ID was available.
    Starved,
    /// No observer has a pending notification.
    Nobody,
}

/// The result of a timer that fired.
#[derive(Clone, Copy, PartialEq, Eq)]
pub enum FireOutcome {
    /// The timer's job has ended.
    Ended,
    /// The job has ended without a run: memory for its snapshot couldn't be allocated.
    Refused,
    /// A worker has the job, or has ended it: the job was sent under this number.
    Sent(u64),
}

// Passes an acknowledgement or a reset (`reset`) to each shard, for the shard's observers.
fn signal(server: &mut Server, endpoint: Endpoint, id: u16, reset: bool)
    requires { IsReachable server.old }
    ensures { IsSignalled endpoint id reset server.old server.new }
{
    for shard in 0..SHARDS {
        server.signal(shard, endpoint, id, reset);
    }
}

// Runs a lease that a shard has just granted, and releases the lease unless the notification has
// ended it. If the result is `Sent`, the datagram to send is written over `emission`. Returns
// `Starved` if no message ID is available, and `Unsent` if memory for the snapshot can't be
// allocated.
fn tell(
    server: &mut Server,
    now: u64,
    readings: &Readings,
    random: u16,
    task: &mut Task,
    emission: &mut Emission,
) -> NotifyOutcome
    requires begun { IsBegun server.old task.old }
    requires out { IsOutToTake now server.old task.old }
    ensures turns { Turns readings.now now random server.old task.old server.new (notification_in (notified_as result emission.new)) }
    ensures given { is_given (notified_as result emission.new) ≡ true }
    ensures starved { notified_as result emission.new ≡ Starved → free_id server.old.front.ids (max server.old.front.now now) ≡ None }
    ensures unsent { notified_as result emission.new ≡ Unsent
        → is_some (slot_in_shards server.old.shards task.old.job.origin.slot).present ≡ true }
{
    server.take(readings, task);
    server.fresh(now, task);
    let starved = task.needs_id();
    let sent = server.note(now, random, task, emission);
    server.give_up(now, task);
    notify_outcome(sent, starved)
}

// Returns the outcome of a lease: `Sent` if a datagram was written, else `Starved` if no message ID
// was available, else `Unsent`.
fn notify_outcome(sent: bool, starved: bool) -> NotifyOutcome
    ensures sent { (e : Emitted) → notification_in (notified_as result e) ≡ emission_if sent e }
    ensures given { (e : Emitted) → is_given (notified_as result e) ≡ true }
    ensures starved { (e : Emitted) → notified_as result e ≡ Starved → starved ≡ true }
    ensures unsent { (e : Emitted) → notified_as result e ≡ Unsent → (sent ≡ false) × (starved ≡ false) }
{
    if sent {
        NotifyOutcome::Sent
    } else if starved {
        NotifyOutcome::Starved
    } else {
        NotifyOutcome::Unsent
    }
}

// Runs the job that the front has just produced, from its first stage to its answer. Returns
// whether a datagram is to be sent, which is then written over `reply`. The functions from
// `look_and_run` to `discover` do this for one first stage each. `run` also returns whether memory
// for the snapshot was allocated.
fn work_off(
    server: &mut Server,
    alloc: Global,
    now: u64,
    task: &mut Task,
    readings: &Readings,
    reply: &mut Emission,
) -> bool
    requires { IsBegun server.old task.old }
    ensures works { WorksOff readings.now task.old.stage now server.old task.old server.new (emission_if result reply.new) }
    ensures job { task.new.job ≡ task.old.job }
{
    let stage = &task.stage;
    match &stage.step {
        Step::ToMatch => look_and_run(server, now, task, readings, reply),
        Step::ToTake(_) => run(server, now, task, readings, reply).is_sent,
        Step::ToInstall => install(server, alloc, now, task, reply),
        Step::ToRemove => remove(server, now, task, reply),
        Step::ToDescribe => describe(server, now, task, reply),
        Step::ToList => discover(server, now, task, reply),
        _ => server.respond(now, task, reply),
    }
}

// Runs a job that has ETags. If the slot's head word matches one of the ETags, the answer is 2.03
// (Valid). Otherwise the slot's program runs. Returns whether a datagram is to be sent, which is
// then written over `reply`.
fn look_and_run(
    server: &mut Server,
    now: u64,
    task: &mut Task,
    readings: &Readings,
    reply: &mut Emission,
) -> bool
    requires { IsBegun server.old task.old }
    ensures works { WorksOff readings.now Stage.ToMatch now server.old task.old server.new (emission_if result reply.new) }
    ensures job { task.new.job ≡ task.old.job }
{
    let slot = task.job.origin.slot.number();
    server.peek(task, slot);
    run(server, now, task, readings, reply).is_sent
}

// The result of a run: whether memory for the snapshot could be allocated, and whether there is a
// datagram to send.
#[derive(Clone, Copy)]
struct Ran {
    has_memory: bool,
    is_sent: bool,
}

// Runs the program of a job's slot, and answers the job. An event that the job's stage doesn't need
// has no effect. Returns whether memory for the snapshot was allocated or wasn't needed, and
// whether a datagram is to be sent, which is then written over `reply`.
fn run(
    server: &mut Server,
    now: u64,
    task: &mut Task,
    readings: &Readings,
    reply: &mut Emission,
) -> Ran
    requires { IsBegun server.old task.old }
    ensures runs { Runs readings.now result.has_memory now server.old task.old server.new (emission_if result.is_sent reply.new) }
    ensures works { (count : ℕ) → WorksOff readings.now (Stage.ToTake count) now server.old task.old server.new (emission_if result.is_sent reply.new) }
    ensures job { task.new.job ≡ task.old.job }
    ensures unsent { has_exchange task.old.job.origin.opening ≡ false → result.is_sent ≡ false }
{
    let has_memory = server.take(readings, task);
    server.commit(now, task);
    server.raise(task);
    let is_sent = server.respond(now, task, reply);
    Ran {
        has_memory,
        is_sent,
    }
}

// Installs the program of a job's image, and answers the job. Returns whether a datagram is to be
// sent, which is then written over `reply`.
fn install(
    server: &mut Server,
    alloc: Global,
    now: u64,
    task: &mut Task,
    reply: &mut Emission,
) -> bool
    requires { IsBegun server.old task.old }
    ensures works { WorksOffUnread Stage.ToInstall now server.old task.old server.new (emission_if result reply.new) }
    ensures job { task.new.job ≡ task.old.job }
{
    server.install(alloc, task);
    server.raise(task);
    server.respond(now, task, reply)
}

// Removes the program of a job's slot, and answers the job. Returns whether a datagram is to be
// sent, which is then written over `reply`.
fn remove(server: &mut Server, now: u64, task: &mut Task, reply: &mut Emission) -> bool
    requires { IsBegun server.old task.old }
    ensures works { WorksOffUnread Stage.ToRemove now server.old task.old server.new (emission_if result reply.new) }
    ensures job { task.new.job ≡ task.old.job }
{
    server.remove(task);
    server.raise(task);
    server.respond(now, task, reply)
}

// Answers a job with the receipt of its slot's program, or with 4.04 if the slot is empty. Returns
// whether a datagram is to be sent, which is then written over `reply`.
fn describe(server: &mut Server, now: u64, task: &mut Task, reply: &mut Emission) -> bool
    requires { IsBegun server.old task.old }
    ensures works { WorksOffUnread Stage.ToDescribe now server.old task.old server.new (emission_if result reply.new) }
    ensures job { task.new.job ≡ task.old.job }
{
    server.describe(task);
    server.respond(now, task, reply)
}

// Answers a job with the links to the slots that have a program, by their head words. Returns
// whether a datagram is to be sent, which is then written over `reply`.
fn discover(server: &mut Server, now: u64, task: &mut Task, reply: &mut Emission) -> bool
    requires { IsBegun server.old task.old }
    ensures works { (seen : ArrayVec ℕ) → WorksOffUnread (Stage.ToList seen) now server.old task.old server.new (emission_if result reply.new) }
    ensures job { task.new.job ≡ task.old.job }
{
    for slot in 0..SLOTS {
        server.peek(task, slot);
    }
    server.respond(now, task, reply)
}

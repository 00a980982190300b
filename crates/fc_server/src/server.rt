//! The front, the shards and the machine, with one call for each event.
//!
//! The engine and `fc_world` make the calls. A call for a task has no effect if the task's stage
//! doesn't need the event of the call; `Lose` ends any task. An argument `shard` is the index of a
//! shard, 0 to 7.
ghost use Rattle.std.specs.Prelude.{◌≡◌, ℕ, ◌<◌, if◌then◌else◌, false, length, slice_set, IfOk, OnOk};
ghost use Rattle.fc_registry.specs.Shards.{first_shards, shard_at};
ghost use Rattle.fc_registry.specs.Turns.{written_if};
ghost use Rattle.fc_registry.specs.Watches.{StaysIdleUntil, at_time, is_idle, observer_counts, signal_call, signalled};
ghost use Rattle.fc_core.specs.declared.event.Event.{Event};
ghost use Rattle.fc_front.specs.Exchanges.{advanced, first_front};
ghost use Rattle.fc_front.specs.Gauges.{gauges_at};
ghost use Rattle.fc_front.specs.Heads.{no_words};
ghost use Rattle.fc_front.specs.Receiving.{after_delivered, delivered, emission_if, handled};
ghost use Rattle.fc_front.specs.Timers.{timer_job};
ghost use Rattle.fc_server.specs.States.{Responds, AtWork, CanBegin, Does, DrawsId, Works};
ghost use Rattle.fc_server.specs.Steps.{shard_asked, shard_ticked, shard_told, shard_turn};

use crate::first::FirstServer;
use coap_msg::{Emission, Endpoint};
use fc_core::{Event, Task};
use fc_front::front::blank_emission;
use fc_front::{DEFAULT_POLICY, Front, FrontGauges, Handled, Heads, Policy, Responded};
use fc_help::Readings;
use fc_machine::Frame;
use fc_observe::Ticked;
use fc_registry::{PLACES, Shard};
use fc_ticket::{Job, SlotNumber};
use std::alloc::{AllocError, Global};
use std::marker::Model;

/// The initial state of a server.
///
/// It has the serial of the empty slots, the first message ID that the server draws, and the
/// policy.
#[derive(Clone, Copy)]
pub struct Begin {
    pub serial: u64,
    pub id: u16,
    pub policy: Policy,
}

/// The default initial state: serial 0, message ID 0, and the default policy.
pub const DEFAULT_BEGIN: Begin = Begin {
    serial: 0,
    id: 0,
    policy: DEFAULT_POLICY,
};

/// The complete state of a server on one thread, except for its jobs.
///
/// A server has the front, the eight shards, the head words of their slots, and a frame to run
/// programs in. In contracts a server is the state of the front, the shards, and the head words.
#[derive(Drop)]
pub struct Server {
    front: Front,
    shards: Vec<Shard>,
    heads: Heads,
    frame: Frame,
}

impl Model for Server {
    ghost use Rattle.fc_server.specs.States.{ServerState};

    ghost Value = { ServerState };

    ghost view = { λ s. record { front = s.front; shards = s.shards.items; words = s.heads } };
}

impl Server {
    /// Makes a server with empty slots 0 to 63 and the initial state `begin`.
    ///
    /// # Errors
    /// Returns `AllocError` if memory can't be allocated.
    pub fn new(alloc: Global, begin: &Begin) -> Result<Server, AllocError>
        requires { CanBegin begin.now }
        ensures front { IfOk result (λ s. s.front ≡ first_front begin.now.policy begin.now.id) }
        ensures shards { IfOk result (λ s. s.shards ≡ first_shards begin.now.serial begin.now.policy.confirm_after) }
        ensures words { IfOk result (λ s. s.words ≡ no_words) }
    {
        Server::over(alloc, FirstServer::new(alloc, begin)?)
    }

    /// Makes a server in the state `first`.
    ///
    /// # Errors
    /// Returns `AllocError` if memory can't be allocated.
    pub fn over(alloc: Global, first: FirstServer) -> Result<Server, AllocError>
        ensures { IfOk result (λ s. s ≡ first) }
    {
        let FirstServer {
            front,
            shards,
            heads,
        } = first;
        Ok(Server {
            front,
            shards,
            heads,
            frame: Frame::new(alloc)?,
        })
    }

    /// Handles a datagram received at `now`, in milliseconds.
    ///
    /// Returns `Job` if the job of a request was written over `job`, and `Reply` if a datagram to
    /// send was written over `reply`. The result is `Signal` for an Acknowledgement or a Reset
    /// message for the observers, and otherwise `Nothing`.
    pub fn handle(
        &mut self,
        now: u64,
        endpoint: Endpoint,
        bytes: &[u8],
        job: &mut Job,
        reply: &mut Emission,
    ) -> Handled
        ensures delivered { handled result job.new reply.new ≡ delivered (advanced self.old.front now) endpoint bytes.now }
        ensures front { self.new.front ≡ after_delivered (advanced self.old.front now) endpoint bytes.now }
        ensures shards { self.new.shards ≡ self.old.shards }
        ensures words { self.new.words ≡ self.old.words }
    {
        self.front.handle(now, endpoint, bytes, job, reply)
    }

    /// Advances the front to `now`, in milliseconds.
    pub fn tick(&mut self, now: u64)
        ensures front { self.new.front ≡ advanced self.old.front now }
        ensures shards { self.new.shards ≡ self.old.shards }
        ensures words { self.new.words ≡ self.old.words }
    {
        self.front.tick(now);
    }

    /// Fires the timer of a slot at `now`, in milliseconds.
    ///
    /// The timer's job is written over `job`.
    pub fn fire(&mut self, slot: SlotNumber, now: u64, job: &mut Job)
        ensures job { job.new ≡ timer_job slot }
        ensures front { self.new.front ≡ advanced self.old.front now }
        ensures shards { self.new.shards ≡ self.old.shards }
        ensures words { self.new.words ≡ self.old.words }
    {
        self.front.fire(slot, now, job);
    }

    /// Requests a lease from a shard, for its first observer with a pending notification.
    ///
    /// `now` is in milliseconds. Returns whether the shard granted a lease. If so, the lease's job
    /// is written over `job`: it runs the observer's request again. If not, `job` is unchanged.
    pub fn due(&mut self, shard: u8, now: u64, job: &mut Job) -> bool
        requires { shard < length self.old.shards }
        ensures job { written_if result job.new ≡ shard_turn now (shard_at self.old.shards shard) }
        ensures kept { result ≡ false → job.new ≡ job.old }
        ensures front { self.new.front ≡ self.old.front }
        ensures shards { self.new.shards ≡ slice_set self.old.shards shard (shard_asked now (shard_at self.old.shards shard)) }
        ensures words { self.new.words ≡ self.old.words }
    {
        self.shards[usize::from(shard)].write_due(now, job)
    }

    /// Passes an Acknowledgement, or a Reset message, to the observers of a shard.
    ///
    /// The message is a Reset if `reset` is `true`, and has the message ID `id`.
    pub fn signal(&mut self, shard: u8, endpoint: Endpoint, id: u16, reset: bool)
        requires { shard < length self.old.shards }
        ensures front { self.new.front ≡ self.old.front }
        ensures shards { let signal = signalled (signal_call reset endpoint id) in
            self.new.shards ≡ slice_set self.old.shards shard (signal (shard_at self.old.shards shard)) }
        ensures words { self.new.words ≡ self.old.words }
    {
        self.shards[usize::from(shard)].signal(endpoint, id, reset);
    }

    /// Advances a shard to `now`, in milliseconds.
    ///
    /// The shard retransmits the first notification that has timed out, or removes the
    /// notification's observer. Returns which of the two happened, or that no notification has
    /// timed out.
    pub fn tick_shard(&mut self, shard: u8, now: u64) -> Ticked
        requires { shard < length self.old.shards }
        ensures told { result ≡ shard_told now (shard_at self.old.shards shard) }
        ensures front { self.new.front ≡ self.old.front }
        ensures shards { self.new.shards ≡ slice_set self.old.shards shard (shard_ticked now (shard_at self.old.shards shard)) }
        ensures words { self.new.words ≡ self.old.words }
    {
        self.shards[usize::from(shard)].tick(now)
    }

    /// Advances a shard to `now`, in milliseconds, if it is idle then.
    ///
    /// A shard is idle if no notification has timed out by then and no observer has a pending one.
    /// Returns whether the shard was advanced; if not, nothing changes.
    pub fn advance_if_idle(&mut self, shard: u8, now: u64) -> bool
        requires { shard < length self.old.shards }
        ensures idle { result ≡ is_idle (at_time (shard_at self.old.shards shard) now) }
        ensures front { self.new.front ≡ self.old.front }
        ensures shards { self.new.shards ≡ (if result
            then slice_set self.old.shards shard (at_time (shard_at self.old.shards shard) now)
            else self.old.shards) }
        ensures words { self.new.words ≡ self.old.words }
    {
        self.shards[usize::from(shard)].advance_if_idle(now)
    }

    /// Returns a time before which a shard is idle unless the server is called.
    ///
    /// Before that time no notification times out and no observer has a pending one. The time is in
    /// milliseconds, and needn't be the latest such time. 2^64 - 1 means that neither is expected.
    pub fn idle_until(&self, shard: u8) -> u64
        requires { shard < length self.now.shards }
        ensures { StaysIdleUntil result (shard_at self.now.shards shard) }
    {
        self.shards[usize::from(shard)].idle_until()
    }

    /// Returns how many exchanges and transfers the front holds at `now`, and their limits.
    ///
    /// `now` is in milliseconds. See [`Front::gauges`].
    pub fn gauges(&self, now: u64) -> FrontGauges
        ensures { result ≡ gauges_at now self.now.front }
    {
        self.front.gauges(now)
    }

    /// Returns how many observers each slot of a shard has, by its place in the shard.
    pub fn observer_counts(&self, shard: u8) -> [u8; PLACES]
        requires { shard < length self.now.shards }
        ensures { result ≡ observer_counts (shard_at self.now.shards shard) }
    {
        self.shards[usize::from(shard)].observer_counts()
    }

    /// Applies an event to the task of the job that it names, and returns its emission.
    ///
    /// Returns `None` if there is nothing to send. An event that names no job has no effect.
    ///
    /// # Errors
    /// Returns `AllocError` if memory can't be allocated although the event says that it can. Then
    /// nothing is guaranteed.
    pub fn work(
        &mut self,
        alloc: Global,
        event: &Event<'_>,
        task: &mut Task,
    ) -> Result<Option<Emission>, AllocError>
        requires { AtWork self.old task.old }
        ensures { IfOk result (λ emitted. Works event.now self.old task.old self.new task.new emitted) }
    {
        if event.job().is_none() {
            return Ok(None);
        }
        match *event {
            Event::Peek { slot, .. } => {
                self.peek(task, slot);
                Ok(None)
            }
            Event::Take {
                memory,
                readings,
                ..
            } => {
                self.take_if(memory, &readings, task)?;
                Ok(None)
            }
            Event::Commit { now, .. } => {
                self.commit(now, task);
                Ok(None)
            }
            Event::Install { memory, .. } => {
                self.install_if(alloc, memory, task)?;
                Ok(None)
            }
            Event::Remove { .. } => {
                self.remove(task);
                Ok(None)
            }
            Event::Refuse { .. } => {
                self.refuse(task);
                Ok(None)
            }
            Event::Receipt { .. } => {
                self.describe(task);
                Ok(None)
            }
            Event::Raise { .. } => {
                self.raise(task);
                Ok(None)
            }
            Event::Answer { now, .. } => Ok(self.answer(now, task)),
            Event::Fresh { now, .. } => {
                self.fresh(now, task);
                Ok(None)
            }
            Event::Note { now, random, .. } => Ok(self.tell(now, random, task)),
            Event::GiveUp { now, .. } => {
                self.give_up(now, task);
                Ok(None)
            }
            Event::Lose { .. } => {
                task.lose();
                Ok(None)
            }
            _ => unreachable!(),
        }
    }

    /// Applies `Peek`: reads the head word of a slot for a task.
    pub fn peek(&mut self, task: &mut Task, slot: u8)
        requires { AtWork self.old task.old }
        ensures { (k : ℕ) → Does (Event.Peek k slot) self.old task.old self.new task.new None }
    {
        task.peek(slot, &self.heads);
    }

    /// Applies `Remove`: removes the program of a task's slot.
    pub fn remove(&mut self, task: &mut Task)
        requires { AtWork self.old task.old }
        ensures { (k : ℕ) → Does (Event.Remove k) self.old task.old self.new task.new None }
    {
        task.remove(&mut self.shards[task.job.origin.slot.shard()]);
    }

    /// Applies `Refuse`: refuses the change of a task's slot, since the store refuses the save.
    ///
    /// If the task is at a removal, or at the commit of a run that wants to write, its answer is
    /// then 5.03. Otherwise, nothing changes. No other part of the server changes. See
    /// [`Task::refuse`].
    pub fn refuse(&mut self, task: &mut Task)
        requires { AtWork self.old task.old }
        ensures { (k : ℕ) → Does (Event.Refuse k) self.old task.old self.new task.new None }
    {
        task.refuse(&mut self.frame);
    }

    /// Applies `Receipt`: reads the receipt of the program in a task's slot.
    pub fn describe(&mut self, task: &mut Task)
        requires { AtWork self.old task.old }
        ensures { (k : ℕ) → Does (Event.Receipt k) self.old task.old self.new task.new None }
    {
        task.describe(&self.shards[task.job.origin.slot.shard()]);
    }

    /// Applies `Take`: takes a snapshot of a task's slot with these readings.
    ///
    /// Returns `false` if memory for the snapshot can't be allocated, otherwise `true`. See
    /// [`Task::take`].
    pub fn take(&mut self, readings: &Readings, task: &mut Task) -> bool
        requires { AtWork self.old task.old }
        ensures { (k : ℕ) → Does (Event.Take k result readings.now) self.old task.old self.new task.new None }
    {
        task.take(&mut self.shards[task.job.origin.slot.shard()], readings)
    }

    // Takes a snapshot of a task's slot with these readings. If `memory` is false, the snapshot is
    // taken as if memory couldn't be allocated. Returns an error if `memory` is true but memory
    // can't be allocated.
    fn take_if(
        &mut self,
        memory: bool,
        readings: &Readings,
        task: &mut Task,
    ) -> Result<(), AllocError>
        requires { AtWork self.old task.old }
        ensures { OnOk result ((k : ℕ) → Does (Event.Take k memory readings.now) self.old task.old self.new task.new None) }
    {
        if !memory {
            task.refuse_take(&mut self.shards[task.job.origin.slot.shard()]);
            return Ok(());
        }
        if self.take(readings, task) {
            Ok(())
        } else {
            Err(AllocError)
        }
    }

    /// Applies `Commit`: runs the program of a task's snapshot, and commits at `now`.
    ///
    /// `now` is in milliseconds.
    pub fn commit(&mut self, now: u64, task: &mut Task)
        requires { AtWork self.old task.old }
        ensures { (k : ℕ) → Does (Event.Commit k now) self.old task.old self.new task.new None }
    {
        let shard = &mut self.shards[task.job.origin.slot.shard()];
        task.commit(&mut self.frame, shard, now);
    }

    /// Applies `Install`: verifies a task's image and installs the program.
    ///
    /// Returns `false` if memory can't be allocated, otherwise `true`. See [`Task::install`].
    pub fn install(&mut self, alloc: Global, task: &mut Task) -> bool
        requires { AtWork self.old task.old }
        ensures { (k : ℕ) → Does (Event.Install k result) self.old task.old self.new task.new None }
    {
        let shard = &mut self.shards[task.job.origin.slot.shard()];
        task.install(alloc, shard)
    }

    // Verifies a task's image and installs the program. If `memory` is false, does so as if memory
    // couldn't be allocated. Returns an error if `memory` is true but memory can't be allocated.
    fn install_if(&mut self, alloc: Global, memory: bool, task: &mut Task) -> Result<(), AllocError>
        requires { AtWork self.old task.old }
        ensures { OnOk result ((k : ℕ) → Does (Event.Install k memory) self.old task.old self.new task.new None) }
    {
        if !memory {
            task.refuse_install();
            return Ok(());
        }
        if self.install(alloc, task) {
            Ok(())
        } else {
            Err(AllocError)
        }
    }

    /// Applies `Raise`: publishes the new head word of a task's slot.
    pub fn raise(&mut self, task: &mut Task)
        requires { AtWork self.old task.old }
        ensures { (k : ℕ) → Does (Event.Raise k) self.old task.old self.new task.new None }
    {
        task.raise(&mut self.heads);
    }

    /// Applies `Fresh`: draws a message ID for the notification of a task's lease.
    ///
    /// `now` is in milliseconds. The call has no effect unless the task's stage needs a message ID.
    /// If no message ID is available, the stage is unchanged.
    pub fn fresh(&mut self, now: u64, task: &mut Task)
        requires { AtWork self.old task.old }
        ensures { DrawsId now self.old task.old self.new task.new }
    {
        if task.needs_id() {
            task.draw(self.front.fresh_id(now));
        }
    }

    // Notifies the observer of a task's lease at `now`, in milliseconds, for `work`. Returns the
    // datagram to send, or `None` if the lease isn't active or the task isn't at this stage.
    fn tell(&mut self, now: u64, random: u16, task: &mut Task) -> Option<Emission>
        requires { AtWork self.old task.old }
        ensures { (k : ℕ) → Does (Event.Note k now random) self.old task.old self.new task.new result }
    {
        let mut emission = blank_emission();
        if self.note(now, random, task, &mut emission) {
            Some(emission)
        } else {
            None
        }
    }

    /// Applies `Note`: runs the snapshot's program and notifies the lease's observer.
    ///
    /// `now` is in milliseconds. No program runs if the slot was empty. The observer is notified if
    /// the lease is still active. The datagram is written over `emission`. Returns whether there is
    /// a datagram to send. The result is `false`, and nothing changes, unless the task is to notify
    /// an observer next.
    pub fn note(&mut self, now: u64, random: u16, task: &mut Task, emission: &mut Emission) -> bool
        requires { AtWork self.old task.old }
        ensures { (k : ℕ) →
            Does (Event.Note k now random) self.old task.old self.new task.new (emission_if result emission.new) }
    {
        let shard = &mut self.shards[task.job.origin.slot.shard()];
        task.note(&mut self.frame, shard, now, random, emission)
    }

    /// Applies `GiveUp`: releases the lease of a task at `now`, in milliseconds.
    pub fn give_up(&mut self, now: u64, task: &mut Task)
        requires { AtWork self.old task.old }
        ensures { (k : ℕ) → Does (Event.GiveUp k now) self.old task.old self.new task.new None }
    {
        task.give_up(&mut self.shards[task.job.origin.slot.shard()], now);
    }

    // Answers a task at `now`, in milliseconds, for `work`. Returns the datagram to send. Returns
    // `None` if the task's stage has no answer, if the exchange's lifetime has passed, or if no
    // message ID is available.
    fn answer(&mut self, now: u64, task: &mut Task) -> Option<Emission>
        requires { AtWork self.old task.old }
        ensures { Responds now self.old task.old self.new task.new result }
    {
        let mut reply = blank_emission();
        if self.respond(now, task, &mut reply) {
            Some(reply)
        } else {
            None
        }
    }

    /// Applies `Answer`: answers a task if the task's stage has an answer.
    ///
    /// `now` is in milliseconds. The datagram is written over `reply`. Returns whether there is a
    /// datagram to send. There is none without an answer, without a live exchange, or without a
    /// message ID. A task with an answer has then ended, even if nothing is sent.
    pub fn respond(&mut self, now: u64, task: &mut Task, reply: &mut Emission) -> bool
        requires { AtWork self.old task.old }
        ensures { Responds now self.old task.old self.new task.new (emission_if result reply.new) }
    {
        let Some(answer) = task.content() else {
            return false;
        };
        let responded = self.front.respond(now, &task.job, answer, reply);
        task.end();
        match responded {
            Responded::Sent => true,
            Responded::Late | Responded::NoId => false,
        }
    }

    /// Ends the server, and returns its shards.
    pub fn into_shards(self) -> Vec<Shard>
        ensures { result.items ≡ self.shards }
    {
        let Server {
            front: _,
            shards,
            heads: _,
            frame: _,
        } = self;
        shards
    }
}

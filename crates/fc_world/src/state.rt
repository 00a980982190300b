//! The state of a world, and the effect of each event on it.
ghost use Rattle.std.specs.Prelude.{◌≡◌, ◌<◌, ℕ, [], None, Some, length, IfErr, IfOk, OnOk};
ghost use Rattle.fc_registry.specs.Starts.{CanRestore, IsStartError};
ghost use Rattle.fc_store.specs.Stored.{stored_in};
ghost use Rattle.fc_core.specs.History.{BeginsWith};
ghost use Rattle.fc_core.specs.declared.event.Event.{Event};
ghost use Rattle.fc_core.specs.Transitions.{names};
ghost use Rattle.fc_server.specs.Serving.{Serves};
ghost use Rattle.fc_server.specs.States.{CanBegin, begin_of};
ghost use Rattle.fc_server.specs.Steps.{DeliveredTo, Done, IsReached, Steps};
ghost use Rattle.fc_world.specs.Parts.{parts};

use coap_msg::{Emission, Endpoint};
use fc_core::{Event, Task};
use fc_front::front::blank_emission;
use fc_front::{Handled, Policy};
use fc_observe::Ticked;
use fc_registry::StartError;
use fc_server::{Begin, FirstServer, Server};
use fc_store::StoredSlot;
use fc_ticket::{SHARDS, SLOTS, SlotNumber};
use std::alloc::{AllocError, Global};

/// A server, and the jobs of all events so far, each with its stage.
#[derive(Drop)]
pub struct WorldState {
    pub server: Server,
    pub tasks: Vec<Task>,
}

// The effects of the server's calls on the server and the tasks.
impl WorldState {
    // Delivers a datagram. If the datagram produces a job, the job becomes the last task. Returns
    // the datagram to send immediately, or `None` if there is none. Returns an error if memory for
    // the task can't be allocated.
    fn deliver(
        &mut self,
        now: u64,
        endpoint: Endpoint,
        bytes: &[u8],
    ) -> Result<Option<Emission>, AllocError>
        ensures { IfOk result (λ emitted. DeliveredTo now endpoint bytes.now (parts self.old) (parts self.new) emitted) }
    {
        let mut task = Task::blank();
        let mut reply = blank_emission();
        match self
            .server
            .handle(now, endpoint, bytes, &mut task.job, &mut reply)
        {
            Handled::Nothing => Ok(None),
            Handled::Signal { .. } => Ok(None),
            Handled::Reply => Ok(Some(reply)),
            Handled::Job => {
                task.begin();
                self.tasks.push(task)?;
                Ok(None)
            }
        }
    }

    // Fires a slot's timer at `now`. The job that the timer makes becomes the last task. A `slot`
    // of 64 or more counts modulo 64. Returns an error if memory for the task can't be allocated.
    fn fire(&mut self, slot: u8, now: u64) -> Result<(), AllocError>
        ensures { OnOk result (Done (Event.Fire slot now) (parts self.old) None (parts self.new)) }
    {
        let slot = SlotNumber::new(slot % SLOTS);
        let mut task = Task::blank();
        self.server.fire(slot, now, &mut task.job);
        task.begin();
        self.tasks.push(task)?;
        Ok(())
    }

    // Requests a lease from a shard at `now`. If the shard grants one, the lease's job becomes the
    // last task. For a shard above 7, nothing changes. Returns an error if memory for the task
    // can't be allocated.
    fn due(&mut self, shard: u8, now: u64) -> Result<(), AllocError>
        requires { length self.old.server.shards ≡ 8 }
        ensures { OnOk result (Done (Event.Due shard now) (parts self.old) None (parts self.new)) }
    {
        if shard >= SHARDS {
            return Ok(());
        }
        let mut task = Task::blank();
        if self.server.due(shard, now, &mut task.job) {
            task.begin();
            self.tasks.push(task)?;
        }
        Ok(())
    }

    // Passes a message with the ID `id` to a shard's observers: a Reset message if `reset` is true,
    // else an Acknowledgement. For a shard above 7, nothing changes.
    fn signal(&mut self, shard: u8, endpoint: Endpoint, id: u16, reset: bool)
        requires { length self.old.server.shards ≡ 8 }
        ensures { Done (Event.Signal shard endpoint id reset) (parts self.old) None (parts self.new) }
    {
        if shard < SHARDS {
            self.server.signal(shard, endpoint, id, reset);
        }
    }

    // Advances a shard to `now`. Returns the shard's retransmission, or `None` if there is none.
    // For a shard above 7, nothing changes, and the result is `None`.
    fn tick_shard(&mut self, shard: u8, now: u64) -> Option<Emission>
        requires { length self.old.server.shards ≡ 8 }
        ensures { Done (Event.ShardTick shard now) (parts self.old) result (parts self.new) }
    {
        if shard >= SHARDS {
            return None;
        }
        match self.server.tick_shard(shard, now) {
            Ticked::Resend(emission) => Some(emission),
            Ticked::Removed | Ticked::Quiet => None,
        }
    }
}

impl WorldState {
    // Makes a world before any event: a server with empty slots and the initial state `begin`, and
    // no tasks. The serial of `begin` is at most 2^63 - 1, the last serial. Returns `AllocError` if
    // memory can't be allocated.
    pub(crate) fn new(alloc: Global, begin: &Begin) -> Result<WorldState, AllocError>
        requires { CanBegin begin.now }
        ensures serves { IfOk result (λ w. Serves (begin_of begin.now) w.server []) }
        ensures none { IfOk result (λ w. w.tasks.items ≡ []) }
    {
        Ok(WorldState {
            server: Server::new(alloc, begin)?,
            tasks: Vec::new(alloc),
        })
    }

    // Makes a server whose slots are restored from these stored states, and no tasks. Returns
    // `Slot` with a slot that can't be restored and the reason, or `Memory` if memory can't be
    // allocated.
    pub(crate) fn over(
        alloc: Global,
        stored: &[StoredSlot],
        id: u16,
        policy: &Policy,
    ) -> Result<WorldState, StartError>
        requires { length stored.now ≡ 64 }
        ensures serves { IfOk result (λ w. Serves (BeginsWith (stored_in stored.now) id policy.now) w.server []) }
        ensures none { IfOk result (λ w. w.tasks.items ≡ []) }
        ensures can { IfOk result (λ w. (n : ℕ) → n < 64 → CanRestore (stored_in stored.now n)) }
        ensures cause { IfErr result (IsStartError (stored_in stored.now)) }
    {
        Ok(WorldState {
            server: Server::over(alloc, FirstServer::over(alloc, stored, id, policy)?)?,
            tasks: Vec::new(alloc),
        })
    }

    // Executes an event. Returns the event's emission, or `None` if there is none. An event that
    // names a job without a task changes nothing. Returns an error if memory can't be allocated;
    // then nothing is guaranteed.
    pub(crate) fn step(
        &mut self,
        alloc: Global,
        event: &Event<'_>,
    ) -> Result<Option<Emission>, AllocError>
        requires { IsReached (parts self.old) }
        ensures { IfOk result (λ o. Steps event.now (parts self.old) o (parts self.new)) }
    {
        let Some(job) = event.job() else {
            return self.pass(event);
        };
        if job >= self.tasks.len() {
            return Ok(None);
        }
        self.server.work(alloc, event, &mut self.tasks[job])
    }

    // Executes an event that names no job, for `step`. Returns the event's emission, or `None` if
    // there is none. Returns an error if memory for a task can't be allocated.
    fn pass(&mut self, event: &Event<'_>) -> Result<Option<Emission>, AllocError>
        requires named { names event.now ≡ None }
        requires reached { IsReached (parts self.old) }
        ensures { IfOk result (λ o. Steps event.now (parts self.old) o (parts self.new)) }
    {
        match *event {
            Event::Deliver {
                now,
                endpoint,
                bytes,
            } => {
                let emitted = self.deliver(now, endpoint, bytes)?;
                Ok(emitted)
            }
            Event::Tick { now } => {
                self.server.tick(now);
                Ok(None)
            }
            Event::Fire { slot, now } => {
                self.fire(slot, now)?;
                Ok(None)
            }
            Event::Due { shard, now } => {
                self.due(shard, now)?;
                Ok(None)
            }
            Event::Signal {
                shard,
                endpoint,
                mid,
                reset,
            } => {
                self.signal(shard, endpoint, mid, reset);
                Ok(None)
            }
            Event::ShardTick { shard, now } => Ok(self.tick_shard(shard, now)),
            _ => Ok(None),
        }
    }
}
